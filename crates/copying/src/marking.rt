// Marking a file, "and so on down": which sets are reached is computed before any file is marked. The blocks of the files marked
// are free again.
ghost use Rattle.std.specs.Prelude.{◌≡◌, Bool, ℕ, ◌<◌, ◌≤◌};
ghost use Rattle.base.specs.Count.{count};
ghost use Rattle.tables.specs.Packed.{unpack};
ghost use Rattle.tables.specs.Views.{PackedTables, Turns};
ghost use Rattle.maps.specs.Mask.{packs};
ghost use Rattle.setchanges.specs.Changes.{BlocksIn};
ghost use Rattle.copying.specs.Changes.{MarkedBy, mark_if, marks_down, reached};

use setchanges::mark;

// File f of set s is marked, or not.
fn mark_if(t: &mut [u8], f: usize, s: usize, marked: bool)
    requires { PackedTables t.old × (f < 16) × (s < 8) × BlocksIn f s (unpack t.old) }
    ensures { Turns t.old t.new (mark_if f s marked) }
{
    if marked {
        mark::mark_record(t, f, s);
    }
}

// File f of the sets of a mask, set 0 the lowest digit; gives how many.
fn mark_sets(t: &mut [u8], f: usize, mask: u32) -> u32
    requires { PackedTables t.old × (f < 16) × ((s : ℕ) → BlocksIn f s (unpack t.old)) }
    ensures { (g : ℕ → Bool) → mask ≡ packs g 0 8 → MarkedBy t.old t.new f g 8 result }
{
    let mut m = mask;
    let mut n: u32 = 0;
    for s in 0..8 {
        let marked = m % 2 == 1;
        mark_if(t, f, s, marked);
        n += u32::from(marked);
        m /= 2;
    }
    n
}

// File f of set c, and of every set that is reached from it; gives how many.
pub fn mark_down(t: &mut [u8], f: usize, c: usize) -> u32
    requires { PackedTables t.old × (f < 16) × (c < 8) × ((s : ℕ) → BlocksIn f s (unpack t.old)) }
    ensures { Turns t.old t.new (marks_down f c) × (result ≡ count 8 (reached (unpack t.old) f c)) × (result ≤ 8) }
{
    let m = maps::marking::reach_mask(&*t, f, c);
    mark_sets(t, f, m)
}

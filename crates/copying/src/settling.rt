// Step 2: "A virgin file, and each virgin child, becomes own with the size it had by reading."
ghost use Rattle.std.specs.Prelude.{◌≡◌, true, ◌<◌};
ghost use Rattle.tables.specs.Packed.{unpack};
ghost use Rattle.tables.specs.Views.{PackedTables, Turns};
ghost use Rattle.copying.specs.Work.{Alone, settle_children};
ghost use Rattle.copying.specs.Changes.{settled};

use maps::reading;
use tables::files::State;
use tables::{files, sets};

// File f of set c.
pub fn settle_set(t: &mut [u8], f: usize, c: usize)
    requires { PackedTables t.old × (f < 16) × (c < 8) }
    ensures { Turns t.old t.new (settled f c) }
{
    if !files::is_virgin(files::state_at(&*t, f, c)) {
        return;
    }
    let z = reading::size_of(&*t, f, c);
    files::put_head(t, f, c, State::Own, z);
}

// File f of each child of set s, in order of making.
pub fn settle_children(t: &mut [u8], f: usize, s: usize)
    requires { PackedTables t.old × (f < 16) × (s < 8) × (((unpack t.old).sets s).used ≡ true) }
    ensures { PackedTables t.new × Alone t.old t.new f (settle_children (unpack t.old).sets s) }
{
    let mut c = sets::first_child_of(&*t, s);
    for _ in 0..8_usize {
        if 8 <= c {
            return;
        }
        settle_set(t, f, c);
        c = sets::next_sibling_of(&*t, c);
    }
}

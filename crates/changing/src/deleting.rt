// The whole accepted delete.
ghost use Rattle.std.specs.Prelude.{true, ◌≡◌, ◌<◌, length};
ghost use Rattle.rules.specs.Rules as Rules;
ghost use Rattle.rules.specs.State.{tree_of};
ghost use Rattle.rules.specs.Storage.{real};
ghost use Rattle.tables.specs.Packed.{unpack, well_formed};
ghost use Rattle.tables.specs.Views.{PackedTables};
ghost use Rattle.copying.specs.Work.{Ready};
ghost use Rattle.changing.specs.Tables.{AnyBlockIn, OnTables};
ghost use Rattle.changing.specs.Whole.{Changed, start_counts};

use crate::Totals;
use copying::giving::Counts;
use copying::{giving, settling};
use setchanges::remove;
use tables::{files, header};

// "frees the file's blocks", those still in its map, "leaves it absent": file f of set s.
fn erase_file(t: &mut [u8], f: usize, s: usize)
    requires { PackedTables t.old × AnyBlockIn f (unpack t.old) × (f < 16) × (s < 8) }
    ensures { OnTables t.old t.new f (Rules.erase_file real (tree_of (unpack t.old).sets) s) }
{
    remove::free_map(t, f, s);
    remove::erase_record(t, f, s);
}

// "Delete does step 2 for the children and step 4 for all 64 pages, frees the file's blocks, leaves it absent." Every page is dropped whole, so
// one that the file's own map stores is handed over.
fn delete_live(t: &mut [u8], p: &mut [u8], f: usize, s: usize, k: Counts) -> Totals
    requires { Ready t.old p.old f k × (s < 8) × (((unpack t.old).sets s).used ≡ true) }
    ensures { Changed t.old p.old t.new p.new f k result (Rules.delete_as real (tree_of (unpack t.old).sets) true s) }
{
    settling::settle_children(t, f, s);
    let a = giving::give_all(t, p, f, s, 0, 0, 64, k);
    erase_file(t, f, s);
    Totals::from(a)
}

// DELETE: file f of set s. "A marked file is only freed and made absent."
pub fn delete_file(t: &mut [u8], p: &mut [u8], f: usize, s: usize) -> Totals
    requires { (well_formed t.old (length p.old) ≡ true) × (f < 16) × (s < 8) × (((unpack t.old).sets s).used ≡ true) }
    ensures { Changed t.old p.old t.new p.new f start_counts result (Rules.delete_file real (tree_of (unpack t.old).sets) s) }
{
    if !files::is_live(files::state_at(&*t, f, s)) {
        erase_file(t, f, s);
        return Totals {
            taken: 0,
            copies: 0,
            marks: 0,
        };
    }
    let left = header::free_blocks(&*t);
    let k = Counts::new(left);
    delete_live(t, p, f, s, k)
}

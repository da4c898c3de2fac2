// Step 5, on the tables alone: pages become holes, the size is changed.
ghost use Rattle.std.specs.Prelude.{◌+◌, ◌<◌, ◌≤◌};
ghost use Rattle.rules.specs.Rules as Rules;
ghost use Rattle.rules.specs.State.{tree_of};
ghost use Rattle.rules.specs.Storage.{real};
ghost use Rattle.tables.specs.Packed.{unpack};
ghost use Rattle.tables.specs.Views.{PackedTables};
ghost use Rattle.changing.specs.Tables.{AnyBlockIn, OnTables};

use setchanges::remove::free_entry;
use tables::entries::{Entry, Page};
use tables::files::State;
use tables::{entries, files};

// The size of file f of set s becomes n, and the file is own.
pub fn resize(t: &mut [u8], f: usize, s: usize, n: usize)
    requires { PackedTables t.old × (f < 16) × (s < 8) × (n < 65536) }
    ensures { OnTables t.old t.new f (Rules.resize real (tree_of (unpack t.old).sets) s n) }
{
    files::put_head(t, f, s, State::Own, n);
}

// A page of set s: "become holes in this map, their blocks free".
fn drop_page(t: &mut [u8], f: usize, s: usize, page: Page)
    requires { PackedTables t.old × AnyBlockIn f (unpack t.old) × (f < 16) × (s < 8) × (page.0 < 64) }
    ensures { OnTables t.old t.new f (Rules.drop_page real (tree_of (unpack t.old).sets) s page.0) × AnyBlockIn f (unpack t.new) }
{
    let e = entries::entry_at(&*t, f, s, page);
    free_entry(t, e);
    entries::put_entry(t, f, s, page, Entry::Hole);
}

// Each of m pages of set s from page number `first` on.
pub fn drop_pages(t: &mut [u8], f: usize, s: usize, first: usize, m: usize)
    requires { PackedTables t.old × AnyBlockIn f (unpack t.old) × (f < 16) × (s < 8) × (first + m ≤ 64) }
    ensures { OnTables t.old t.new f (Rules.each (Rules.drop_page real (tree_of (unpack t.old).sets) s) (Rules.from first m)) }
{
    for q in first..first + m {
        drop_page(t, f, s, Page::new(q));
    }
}

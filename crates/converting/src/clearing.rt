// Marked files cleared: "the converter of Ask 8 clears them".
ghost use Rattle.std.specs.Prelude.{ℕ, ◌<◌};
ghost use Rattle.setchanges.specs.Changes.{BlocksIn};
ghost use Rattle.tables.specs.Convert.{cleared};
ghost use Rattle.tables.specs.Packed.{unpack};
ghost use Rattle.tables.specs.Views.{PackedTables, Turns};
ghost use Rattle.converting.specs.Clearing.{cleared_file_in};

use setchanges::mark::mark_record;
use tables::files;

// File f of set s, if it is marked.
fn clear_file(t: &mut [u8], f: usize, s: usize)
    requires { PackedTables t.old × (f < 16) × (s < 8) × BlocksIn f s (unpack t.old) }
    ensures { Turns t.old t.new (cleared_file_in f s) }
{
    let state = files::state_at(&*t, f, s);
    if !files::is_marked(state) {
        return;
    }
    mark_record(t, f, s);
}

// Every marked file.
pub fn clear_marked(t: &mut [u8])
    requires { PackedTables t.old × ((f s : ℕ) → BlocksIn f s (unpack t.old)) }
    ensures { Turns t.old t.new cleared }
{
    for i in 0..128 {
        clear_file(t, i % 16, i / 16);
    }
}

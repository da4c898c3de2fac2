// Marking a file.
ghost use Rattle.std.specs.Prelude.{◌<◌};
ghost use Rattle.tables.specs.Packed.{unpack};
ghost use Rattle.tables.specs.Views.{PackedTables, Turns};
ghost use Rattle.setchanges.specs.Changes.{BlocksIn, marked_in};

use crate::remove;
use tables::files;
use tables::files::State;

// "Marking now frees its stored blocks at that moment ... and leaves size 0 and all entries unmapped"
pub fn mark_record(t: &mut [u8], f: usize, s: usize)
    requires { PackedTables t.old × (f < 16) × (s < 8) × BlocksIn f s (unpack t.old) }
    ensures { Turns t.old t.new (marked_in f s) }
{
    remove::free_map(t, f, s);
    remove::erase_record(t, f, s);
    files::put_head(t, f, s, State::Marked, 0);
}

// Creating a file.
ghost use Rattle.std.specs.Prelude.{◌<◌};
ghost use Rattle.tables.specs.Views.{PackedTables, Turns};
ghost use Rattle.setchanges.specs.Changes.{holes_in, created_in};

use tables::entries::{Entry, Page};
use tables::files::State;
use tables::{entries, files};

// Every page is a hole.
fn put_holes(t: &mut [u8], f: usize, s: usize)
    requires { PackedTables t.old × (f < 16) × (s < 8) }
    ensures { Turns t.old t.new (holes_in f s) }
{
    for p in 0..64 {
        entries::put_entry(t, f, s, Page::new(p), Entry::Hole);
    }
}

// "Create leaves an own file, size 0, all holes."
pub fn create_file(t: &mut [u8], f: usize, s: usize)
    requires { PackedTables t.old × (f < 16) × (s < 8) }
    ensures { Turns t.old t.new (created_in f s) }
{
    put_holes(t, f, s);
    files::put_head(t, f, s, State::Own, 0);
}

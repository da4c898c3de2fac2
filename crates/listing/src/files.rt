// The files of a set.
ghost use Rattle.std.specs.Prelude.{◌≡◌, ◌+◌, ◌<◌, ◌≤◌, length};
ghost use Rattle.tables.specs.Layout.{table_bytes};
ghost use Rattle.tables.specs.Packed.{unpack};
ghost use Rattle.tables.specs.Meaning.{state_meant};
ghost use Rattle.listing.specs.Listing.{file_text, file_texts, live_text, set_text};
ghost use Rattle.listing.specs.Written.{Put};

use crate::extents::list_extents;
use crate::lines::{put_file, put_set};
use crate::text::Writer;
use maps::reading::size_of;
use tables::files::State;
use tables::{files, sets};

// The line of an own or virgin file, and its extents.
fn list_live(t: &[u8], f: usize, s: usize, l: State, w: &mut Writer)
    requires { (length t.now ≡ table_bytes) × (f < 16) × (s < 8) × (w.old.at < 4294800000) }
    ensures { Put w.old w.new (live_text (unpack t.now) (state_meant l) f s) × (w.new.at ≤ w.old.at + 1069) }
{
    let n = size_of(t, f, s);
    put_file(w, s, f, l, n);
    list_extents(t, f, s, w);
}

// "absent ones left out"; "Marked files have no `ext`."
fn list_file(t: &[u8], f: usize, s: usize, w: &mut Writer)
    requires { (length t.now ≡ table_bytes) × (f < 16) × (s < 8) × (w.old.at < 4294800000) }
    ensures { Put w.old w.new (file_text (unpack t.now) f s) × (w.new.at ≤ w.old.at + 1069) }
{
    let l = files::state_at(t, f, s);
    match l {
        State::Absent => {}
        State::Own | State::Virgin => list_live(t, f, s, l, w),
        State::Marked => put_file(w, s, f, State::Marked, 0),
    }
}

// "files stand under their set, by number"
fn list_files(t: &[u8], s: usize, w: &mut Writer)
    requires { (length t.now ≡ table_bytes) × (s < 8) × (w.old.at < 4294700000) }
    ensures { Put w.old w.new (file_texts (unpack t.now) s 16) × (w.new.at ≤ w.old.at + 17104) }
{
    for f in 0..16 {
        list_file(t, f, s, w);
    }
}

// A set with its files.
pub fn list_own(t: &[u8], s: usize, w: &mut Writer)
    requires { (length t.now ≡ table_bytes) × (s < 8) × (w.old.at < 4294600000) }
    ensures { Put w.old w.new (set_text (unpack t.now) s) × (w.new.at ≤ w.old.at + 17132) }
{
    put_set(w, s, sets::set_at(t, s));
    list_files(t, s, w);
}

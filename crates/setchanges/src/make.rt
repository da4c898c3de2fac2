// Making a set.
ghost use Rattle.std.specs.Prelude.{true, ◌≡◌, ℕ, ◌<◌, length};
ghost use Rattle.rules.specs.Sets.{child_state};
ghost use Rattle.rules.specs.State.{absent_file};
ghost use Rattle.tables.specs.Layout.{table_bytes};
ghost use Rattle.tables.specs.Packed.{unpack};
ghost use Rattle.tables.specs.Views.{PackedTables, Turns};
ghost use Rattle.tables.specs.Meaning.{state_meant};
ghost use Rattle.setchanges.specs.Changes.{appended_in, child_files_in, child_put_in, first_child_in, last_of, made_in, next_sibling_in};

use dates::Days;
use tables::files::State;
use tables::sets::SetRecord;
use tables::{files, sets};

// The last of the sibling chain that begins at set `first`; no chain has more than 8 sets. The tables write 8 where a link
// leads to no set, and a contract promises each link as it is stored.
fn last_of(t: &[u8], first: usize) -> usize
    requires { (length t.now ≡ table_bytes) × (first < 8) }
    ensures { (result ≡ last_of (unpack t.now).sets 7 first) × (result < 8) }
{
    let mut x = first;
    for _ in 0..7usize {
        let next = sets::next_sibling_of(t, x);
        if 8 <= next {
            return x;
        }
        x = next;
    }
    x
}

// The record of set c, a child of set s with no child and no sibling. "Format and making a set give 0 and 36,525."
fn put_child(t: &mut [u8], s: usize, c: usize, writeable: bool)
    requires { PackedTables t.old × (s < 8) × (c < 8) × (((unpack t.old).sets s).level < 7) }
    ensures { Turns t.old t.new (child_put_in s c writeable) }
{
    let level = sets::level_of(&*t, s);
    sets::put_set(
        t,
        c,
        SetRecord {
            used: true,
            writeable: writeable,
            level: level + 1,
            parent: s,
            first_child: 8,
            next_sibling: 8,
            term: Days {
                first_day: 0,
                end_day: sets::END_DAY,
            },
        },
    );
}

// A field's name is no value, so that each link has a function: a closure for the change would be no plainer.
fn put_first_child(t: &mut [u8], s: usize, c: usize)
    requires { PackedTables t.old × (s < 8) × (c < 8) }
    ensures { Turns t.old t.new (first_child_in s c) }
{
    let r = sets::set_at(&*t, s);
    sets::put_set(
        t,
        s,
        SetRecord {
            first_child: c,
            ..r
        },
    );
}

fn put_next_sibling(t: &mut [u8], x: usize, c: usize)
    requires { PackedTables t.old × (x < 8) × (c < 8) }
    ensures { Turns t.old t.new (next_sibling_in x c) }
{
    let r = sets::set_at(&*t, x);
    sets::put_set(
        t,
        x,
        SetRecord {
            next_sibling: c,
            ..r
        },
    );
}

// "Making a set appends it to the parent's chain"
fn append_set(t: &mut [u8], s: usize, c: usize, writeable: bool)
    requires { PackedTables t.old × (s < 8) × (c < 8) × (((unpack t.old).sets s).used ≡ true) × (((unpack t.old).sets s).level < 7) }
    ensures { Turns t.old t.new (appended_in s c writeable) }
{
    let first = sets::first_child_of(&*t, s);
    if 8 <= first {
        put_child(t, s, c, writeable);
        put_first_child(t, s, c);
        return;
    }
    let last = last_of(&*t, first);
    put_child(t, s, c, writeable);
    put_next_sibling(t, last, c);
}

// "own and virgin files become virgin in it, marked ones marked"
fn child_state(l: State) -> State
    ensures { state_meant result ≡ child_state (state_meant l) }
{
    match l {
        State::Absent => State::Absent,
        State::Own | State::Virgin => State::Virgin,
        State::Marked => State::Marked,
    }
}

// The files of set c, whose records are all zero, become those of a child of set s.
fn child_files(t: &mut [u8], s: usize, c: usize)
    requires { PackedTables t.old × (s < 8) × (c < 8) × ((f : ℕ) → f < 16 → (unpack t.old).files f c ≡ absent_file) }
    ensures { Turns t.old t.new (child_files_in s c) }
{
    for f in 0..16 {
        let l = child_state(files::state_at(&*t, f, s));
        files::put_head(t, f, c, l, 0);
    }
}

// Set c, whose files are absent, becomes the last child of set s.
pub fn make_set(t: &mut [u8], s: usize, c: usize, writeable: bool)
    requires { PackedTables t.old × (s < 8) × (c < 8) × (((unpack t.old).sets s).used ≡ true) × (((unpack t.old).sets s).level < 7) × ((f : ℕ) → f < 16 → (unpack t.old).files f c ≡ absent_file) }
    ensures { Turns t.old t.new (made_in s c writeable) }
{
    append_set(t, s, c, writeable);
    child_files(t, s, c);
}

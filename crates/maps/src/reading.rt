// What a page resolves to, and the size by reading.
ghost use Rattle.std.specs.Prelude.{◌≡◌, ◌<◌, length};
ghost use Rattle.rules.specs.State.{tree_of};
ghost use Rattle.rules.specs.Reading as Reading;
ghost use Rattle.tables.specs.Layout.{table_bytes};
ghost use Rattle.tables.specs.Packed.{unpack};
ghost use Rattle.tables.specs.Meaning.{entry_meant, state_meant};
ghost use Rattle.maps.specs.Upward.{looks_from, resolve_from};

use tables::entries::{Entry, Page};
use tables::files::State;
use tables::{entries, files, sets};

// What a page resolves to, and how many maps were looked at.
#[derive(Clone, Copy)]
pub struct Resolved {
    pub entry: Entry,
    pub looks: u32,
}

// The entry of a page in set s; a number from 8 on is no set, and its files have only unmapped entries.
#[tactic(auto, using(crate::proofs::OutOfRange::map_out), unfolding(tables::specs::Meaning::entry_meant))]
fn entry_in(t: &[u8], f: usize, s: usize, page: Page) -> Entry
    requires { (length t.now ≡ table_bytes) × (f < 16) × (page.0 < 64) }
    ensures { entry_meant result ≡ ((unpack t.now).files f s).map page.0 }
{
    if 8 <= s {
        return Entry::Unmapped;
    }
    entries::entry_at(t, f, s, page)
}

// The state of file f in set s; of no set it is absent.
#[tactic(auto, using(crate::proofs::OutOfRange::state_out), unfolding(tables::specs::Meaning::state_meant))]
fn state_in(t: &[u8], f: usize, s: usize) -> State
    requires { (length t.now ≡ table_bytes) × (f < 16) }
    ensures { state_meant result ≡ ((unpack t.now).files f s).state }
{
    if 8 <= s {
        return State::Absent;
    }
    files::state_at(t, f, s)
}

// The size in the record of file f in set s; of no set it is 0.
#[tactic(auto, using(crate::proofs::OutOfRange::size_out))]
fn size_in(t: &[u8], f: usize, s: usize) -> usize
    requires { (length t.now ≡ table_bytes) × (f < 16) }
    ensures { (result ≡ ((unpack t.now).files f s).size) × (result < 65536) }
{
    if 8 <= s {
        return 0;
    }
    files::size_at(t, f, s)
}

// The parent of set s; of no set it is 0.
#[tactic(auto, using(crate::proofs::OutOfRange::parent_out))]
pub fn parent_in(t: &[u8], s: usize) -> usize
    requires { length t.now ≡ table_bytes }
    ensures { (result ≡ ((unpack t.now).sets s).parent) × (result < 16) }
{
    if 8 <= s {
        return 0;
    }
    sets::parent_of(t, s)
}

// What a page is in set s, at most `level` parents up: one look for its own map, and one for each parent's that is gone to.
fn resolve(t: &[u8], f: usize, page: Page, s: usize, level: usize) -> Resolved
    requires { (length t.now ≡ table_bytes) × (f < 16) × (page.0 < 64) × (level < 8) }
    ensures { (entry_meant result.entry ≡ resolve_from (unpack t.now) f page.0 s level) × (result.looks ≡ looks_from (unpack t.now) f page.0 s level) }
{
    let e = entry_in(t, f, s, page);
    match e {
        Entry::Unmapped => {
            if level == 0 {
                return Resolved {
                    entry: Entry::Hole,
                    looks: 1,
                };
            }
            let up = resolve(t, f, page, parent_in(t, s), level - 1);
            Resolved {
                looks: up.looks + 1,
                ..up
            }
        }
        Entry::Hole | Entry::Stored(_) => Resolved { entry: e, looks: 1 },
    }
}

// What a page resolves to in set s. Most pages are mapped there, and for them nothing is gone up to.
pub fn resolve_in(t: &[u8], f: usize, page: Page, s: usize) -> Resolved
    requires { (length t.now ≡ table_bytes) × (f < 16) × (page.0 < 64) × (s < 8) }
    ensures { (entry_meant result.entry ≡ Reading.resolve (tree_of (unpack t.now).sets) ((unpack t.now).files f) s page.0) × (result.looks ≡ Reading.looks (tree_of (unpack t.now).sets) ((unpack t.now).files f) s page.0) }
{
    let e = entries::entry_at(t, f, s, page);
    if !entries::is_unmapped(e) {
        return Resolved { entry: e, looks: 1 };
    }
    let n = sets::level_of(t, s);
    resolve(t, f, page, s, n)
}

// "A virgin file has the size of the parent's."
pub fn size_of(t: &[u8], f: usize, s: usize) -> usize
    requires { (length t.now ≡ table_bytes) × (f < 16) × (s < 8) }
    ensures { (result ≡ Reading.size_by_reading (tree_of (unpack t.now).sets) ((unpack t.now).files f) s) × (result < 65536) }
{
    let mut at = s;
    for _ in 0..sets::level_of(t, s) {
        if !files::is_virgin(state_in(t, f, at)) {
            return size_in(t, f, at);
        }
        at = parent_in(t, at);
    }
    if files::is_virgin(state_in(t, f, at)) {
        return 0;
    }
    size_in(t, f, at)
}

// Erasing a file's record, freeing its blocks, removing a set.
ghost use Rattle.std.specs.Prelude.{cond, ◌≡◌, ℕ, ◌<◌, eqb};
ghost use Rattle.tables.specs.Packed.{unpack};
ghost use Rattle.tables.specs.Views.{PackedTables, Turns};
ghost use Rattle.tables.specs.Meaning.{entry_meant};
ghost use Rattle.setchanges.specs.Changes.{BlocksIn, block_in, cleared_in, erased_in, freed_entry_in, freed_in, past_in, removed_in, unlinked_in};

use dates::Days;
use packing::words;
use tables::entries::{Entry, Page};
use tables::places::{FILE_BYTES, FILES_AT, MAP_BYTES, MAPS_AT};
use tables::sets::SetRecord;
use tables::{entries, sets};

// The file's record, head and entries, is all zero: the file is absent.
pub fn erase_record(t: &mut [u8], f: usize, s: usize)
    requires { PackedTables t.old × (f < 16) × (s < 8) }
    ensures { Turns t.old t.new (erased_in f s) }
{
    pages::zero_bytes(t, FILES_AT + (s * 16 + f) * FILE_BYTES, FILE_BYTES);
}

// The block of an entry is free again.
pub fn free_entry(t: &mut [u8], e: Entry)
    requires { PackedTables t.old × block_in (entry_meant e) }
    ensures { Turns t.old t.new (freed_entry_in (entry_meant e)) }
{
    match e {
        Entry::Unmapped | Entry::Hole => {}
        Entry::Stored(b) => entries::release_block(t, b),
    }
}

// "frees the file's blocks". A file whose pages are all unmapped has none.
pub fn free_map(t: &mut [u8], f: usize, s: usize)
    requires { PackedTables t.old × (f < 16) × (s < 8) × BlocksIn f s (unpack t.old) }
    ensures { Turns t.old t.new (freed_in f s) }
{
    if words::all_zero(&*t, MAPS_AT + (s * 16 + f) * FILE_BYTES, MAP_BYTES) {
        return;
    }
    for p in 0..64 {
        let e = entries::entry_at(&*t, f, s, Page::new(p));
        free_entry(t, e);
    }
}

// Every file of set c is absent, their blocks are free.
fn clear_files(t: &mut [u8], c: usize)
    requires { PackedTables t.old × (c < 8) × ((f : ℕ) → f < 16 → BlocksIn f c (unpack t.old)) }
    ensures { Turns t.old t.new (cleared_in c) }
{
    for f in 0..16 {
        free_map(t, f, c);
        erase_record(t, f, c);
    }
}

// A link to set c leads to the next one.
fn past(link: usize, c: usize, next: usize) -> usize
    requires { (link < 16) × (next < 16) }
    ensures { (result ≡ cond (eqb c link) next link) × (result < 16) }
{
    if c == link {
        return next;
    }
    link
}

// The links of set x to set c lead to set `next`.
fn link_past(t: &mut [u8], x: usize, c: usize, next: usize)
    requires { PackedTables t.old × (x < 8) × (next < 16) }
    ensures { Turns t.old t.new (past_in x c next) }
{
    let r = sets::set_at(&*t, x);
    let child = past(r.first_child, c, next);
    let sibling = past(r.next_sibling, c, next);
    sets::put_set(
        t,
        x,
        SetRecord {
            first_child: child,
            next_sibling: sibling,
            ..r
        },
    );
}

// Every link to set c leads to the sibling after it, and its record is all zero.
fn unlink_set(t: &mut [u8], c: usize)
    requires { PackedTables t.old × (0 < c) × (c < 8) }
    ensures { Turns t.old t.new (unlinked_in c) }
{
    let next = sets::next_sibling_of(&*t, c);
    for x in 0..8 {
        link_past(t, x, c, next);
    }
    sets::put_set(
        t,
        c,
        SetRecord {
            used: false,
            writeable: false,
            level: 0,
            parent: 0,
            first_child: 0,
            next_sibling: 0,
            term: Days {
                first_day: 0,
                end_day: 0,
            },
        },
    );
}

// "Removing frees its blocks and unlinks it."
pub fn remove_set(t: &mut [u8], c: usize)
    requires { PackedTables t.old × (0 < c) × (c < 8) × ((f : ℕ) → f < 16 → BlocksIn f c (unpack t.old)) }
    ensures { Turns t.old t.new (removed_in c) }
{
    clear_files(t, c);
    unlink_set(t, c);
}

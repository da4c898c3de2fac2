// The converter: older tables, of either length, checked by the rules of their time and written to a second buffer, where used
// sets without a term get the default one and every marked file is cleared. Nothing is written before the whole is checked;
// of the new tables only the part before the file records stands on the stack meanwhile.
#![tactic(auto)]

ghost use Rattle.std.specs.Prelude.{◌&&◌, cond, true, ◌++◌, ◌≡◌, ◌+◌, ◌<◌, eqb, length};
ghost use Rattle.rules.specs.Terms.{last_end};
ghost use Rattle.tables.specs.Convert.{cleared, old_table_bytes, older_unpack, older_well_formed};
ghost use Rattle.tables.specs.Layout.{all_files_bytes, files_at, table_bytes};
ghost use Rattle.tables.specs.Packed.{pack};
ghost use Rattle.converting.specs.Front.{FrontOf, FrontTo, WidenedFront, older_length, used_word};

use crate::clearing::clear_marked;
use formed::parts_formed;
use packing::words;
use pages::copy_bytes;
use tables::places::{FILES_AT, OLD_TABLE_BYTES, SET_BYTES, SETS_AT, TABLE_BYTES, TREE_BYTES};
use tables::sets::END_DAY;

pub mod clearing;

// The file records stand last, in tables of either length.
const FILES_BYTES: usize = TABLE_BYTES - FILES_AT;

// The word of the term of a set with this first word: "adding the default term to used sets".
fn default_term(w: u64) -> u64
    requires { w < 0x1_00_00_00 }
    ensures { result ≡ cond (used_word w) last_end 0 }
{
    if w / 8388608 == 1 {
        return END_DAY as u64;
    }
    0
}

// The record of set s, with its term.
fn put_record(front: &mut [u8], old: &[u8], s: usize)
    requires { FrontTo old.now front.old s × (length old.now ≡ old_table_bytes) × (s < 8) }
    ensures { FrontTo old.now front.new (s + 1) }
{
    let w = words::read::<3>(old, SETS_AT + s * TREE_BYTES);
    let term = default_term(w);
    words::write::<3>(front, SETS_AT + s * SET_BYTES, w);
    words::write::<4>(front, SETS_AT + s * SET_BYTES + TREE_BYTES, term);
}

// Of tables without terms: header and bitmap as they stand, and the set records with their terms.
fn widen_front(front: &mut [u8], old: &[u8])
    requires { (length front.old ≡ files_at) × (length old.now ≡ old_table_bytes) }
    ensures { WidenedFront old.now front.new }
{
    copy_bytes(front, 0, old, 0, SETS_AT);
    for s in 0..8 {
        put_record(front, old, s);
    }
}

// Header, bitmap and set records, "keeping terms already there".
fn put_front(front: &mut [u8], old: &[u8])
    requires { (length front.old ≡ files_at) × (older_length (length old.now) ≡ true) }
    ensures { FrontOf old.now front.new }
{
    if old.len() == TABLE_BYTES {
        copy_bytes(front, 0, old, 0, FILES_AT);
        return;
    }
    widen_front(front, old);
}

// "older tables of either length"
fn older_length(n: usize) -> bool
    ensures { result ≡ older_length n }
{
    n == TABLE_BYTES || n == OLD_TABLE_BYTES
}

// The second buffer has the two parts.
fn put_parts(tables: &mut [u8], front: &[u8], files: &[u8])
    requires { (length tables.old ≡ table_bytes) × (length front.now ≡ files_at) × (length files.now ≡ all_files_bytes) }
    ensures { tables.new ≡ front.now ++ files.now }
{
    copy_bytes(tables, 0, front, 0, FILES_AT);
    copy_bytes(tables, FILES_AT, files, 0, FILES_BYTES);
}

// "takes well-formed tables .. into a second buffer of 17,468 ..; otherwise it .. writes nothing", and clears the marked
// files "in older tables of either length": are they converted? There is one refusal, so a `bool` tells it. The pages buffer has n bytes.
pub fn convert_tables(old: &[u8], n: usize, tables: &mut [u8]) -> bool
    ensures { (result ≡ (older_well_formed old.now n && eqb (length tables.old) table_bytes)) × (tables.new ≡ cond result (pack (cleared (older_unpack old.now))) tables.old) }
{
    if !older_length(old.len()) {
        return false;
    }
    if tables.len() != TABLE_BYTES {
        return false;
    }
    let mut front: [u8; FILES_AT] = [0; FILES_AT];
    put_front(&mut front, old);
    let at = old.len() - FILES_BYTES;
    if !parts_formed(&front, &old[at..], n, true) {
        return false;
    }
    put_parts(tables, &front, &old[at..]);
    clear_marked(tables);
    true
}

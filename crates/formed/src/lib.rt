// The check that tables are well formed, in two parts. The first decides by the header, the kinds and blocks of all
// entries and the bitmap, and by nothing else; then come the length of the pages buffer, the zero fields, the set records
// with their chains, and the heads of the file records. The tables are looked at as two slices: front, the header, the bitmap
// and the set records; and files, the file records.
#![tactic(auto)]

ghost use Rattle.std.specs.Prelude.{cond, ◌++◌, ◌≡◌, ◌≤◌, length};
ghost use Rattle.tables.specs.Layout.{all_files_bytes, files_at};
ghost use Rattle.tables.specs.Packed.{block_rules, termed_well_formed, unpack, well_formed};
ghost use Rattle.entrycheck.specs.Records.{AllAre, BlankFrom};
ghost use Rattle.entrycheck.specs.Seeing.{record_count};
ghost use Rattle.formed.specs.First.{FirstPassed};
ghost use Rattle.formed.specs.Heads.{UnusedFrom};

use crate::files::records_formed;
use crate::places::used_to;
use entrycheck::records::{PageMasks, entries_formed};
use packing::words;
use setcheck::header::{header_formed, header_zero, pages_fit};
use setcheck::tree::sets_formed;
use tables::places::{FILES_AT, SET_FILES_BYTES, TABLE_BYTES};

pub mod alone;
pub mod files;
pub mod heads;
pub mod linked;
pub mod places;

// A number from which on sets are unused and their file records all zero: that after the last used set, or 8 where a record
// behind it is not all zero. Set by set, so that the loop over the bytes is of one length and goes far in each turn: how long one over all of
// them took went by where it came to stand in the program.
fn blank_from(front: &[u8], files: &[u8]) -> usize
    requires { (files_at ≤ length front.now) × (length files.now ≡ all_files_bytes) }
    ensures { BlankFrom files.now result × UnusedFrom (unpack front.now).sets result }
{
    let n = used_to(front);
    for s in n..8 {
        if !words::all_zero(files, s * SET_FILES_BYTES, SET_FILES_BYTES) {
            return 8;
        }
    }
    n
}

// THE FIRST PART: the rules on B, next start, kinds, blocks and bits. The masks of the pages of every file are kept. The
// answer is from which set on all file records are zero, or None where a rule does not hold.
fn first_part(front: &[u8], files: &[u8], masks: &mut PageMasks) -> Option<usize>
    requires { (length front.now ≡ files_at) × (length files.now ≡ all_files_bytes) × AllAre record_count masks.old.stored 0 × AllAre record_count masks.old.unmapped 18446744073709551615 }
    ensures { FirstPassed front.now files.now masks.new.stored masks.new.unmapped result }
{
    if !header_formed(front) {
        return None;
    }
    let n = blank_from(front, files);
    if !entries_formed(front, files, masks, n) {
        return None;
    }
    Some(n)
}

// "That first part accepts exactly the tables of right length that meet the rules on B, next start, kinds, blocks and bits,
// whatever else they hold."
pub fn blocks_formed(t: &[u8]) -> bool
    ensures { result ≡ block_rules t.now }
{
    if t.len() != TABLE_BYTES {
        return false;
    }
    let mut masks = PageMasks {
        stored: [0; 128],
        unmapped: [0xFFFF_FFFF_FFFF_FFFF; 128],
    };
    first_part(&t[0..FILES_AT], &t[FILES_AT..], &mut masks).is_some()
}

// "Well formed means all of": tables of right length in two parts, with a pages buffer of n bytes. Older tables are held
// to the rules before Ask 10. The bitmap and the entries go before the set chains.
pub fn parts_formed(front: &[u8], files: &[u8], n: usize, older: bool) -> bool
    requires { (length front.now ≡ files_at) × (length files.now ≡ all_files_bytes) }
    ensures { result ≡ cond older (termed_well_formed (front.now ++ files.now) n) (well_formed (front.now ++ files.now) n) }
{
    let mut masks = PageMasks {
        stored: [0; 128],
        unmapped: [0xFFFF_FFFF_FFFF_FFFF; 128],
    };
    let Some(blank) = first_part(front, files, &mut masks) else {
        return false;
    };
    if !pages_fit(front, n) {
        return false;
    }
    if !header_zero(front) {
        return false;
    }
    if !sets_formed(front) {
        return false;
    }
    records_formed(front, files, &masks, blank, older)
}

// The same of tables t as they stand.
pub fn well_formed(t: &[u8], n: usize) -> bool
    ensures { result ≡ well_formed t.now n }
{
    if t.len() != TABLE_BYTES {
        return false;
    }
    parts_formed(&t[0..FILES_AT], &t[FILES_AT..], n, false)
}

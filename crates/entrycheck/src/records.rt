// The pass over all file records, in the order in which they stand: the entries of each, with its masks kept.
ghost use Rattle.std.specs.Prelude.{false, true, ◌++◌, ◌≡◌, ◌+◌, ◌<◌, ◌≤◌, get_or, length};
ghost use Rattle.packing.specs.Zeros.{zero_bytes};
ghost use Rattle.tables.specs.Layout.{all_files_bytes, files_at};
ghost use Rattle.tables.specs.Packed.{unpack};
ghost use Rattle.entrycheck.specs.Records.{AllAre, BlankFrom, EntriesSeen, RecordPassed};
ghost use Rattle.entrycheck.specs.Seeing.{record_count};

use crate::maps_equal;
use crate::seeing::map_entries;
use packing::words;
use tables::header::block_count;
use tables::places::{FILE_BYTES, HEAD_BYTES};

// Which pages of each file are stored and which unmapped, one mask for each record.
#[derive(Clone, Copy)]
pub struct PageMasks {
    pub stored: [u64; 128],
    pub unmapped: [u64; 128],
}

// Is the map at a byte all zero? The eight bytes v before its third entry are looked at first: those of an absent, a virgin
// or a marked file are 0, 128 or 192. What they are besides makes no difference.
fn is_blank(t: &[u8], at: usize, v: u64) -> bool
    requires { at + 128 ≤ length t.now }
    ensures { result ≡ true → zero_bytes t.now at 128 ≡ true }
{
    v | 192 == 192 && words::all_zero(t, at, 128)
}

// The entries of record i of the file records: its masks are kept. No entry of a map that is all zero is looked at alone;
// its masks are there.
fn pass_record(
    files: &[u8],
    seen: &mut [u8; 512],
    masks: &mut PageMasks,
    i: usize,
    limit: usize,
) -> bool
    requires { (length files.now ≡ all_files_bytes) × (get_or masks.old.stored i 0 ≡ 0) × (get_or masks.old.unmapped i 0 ≡ 18446744073709551615) × (i < 128) × (limit ≤ 4096) }
    ensures { RecordPassed limit files.now i seen.old seen.new masks.old.stored masks.new.stored masks.old.unmapped masks.new.unmapped result }
{
    let v = words::low::<8>(files, i * FILE_BYTES);
    let at = HEAD_BYTES + i * FILE_BYTES;
    if is_blank(files, at, v) {
        return true;
    }
    let Some(m) = map_entries(files, seen, at, limit) else {
        return false;
    };
    masks.stored[i] = m.stored;
    masks.unmapped[i] = m.unmapped;
    true
}

// A rule does not hold: the masks are those of records without entries, whichever record it is.
fn not_passed(masks: &mut PageMasks) -> bool
    ensures { (result ≡ false) × AllAre record_count masks.new.stored 0 × AllAre record_count masks.new.unmapped 18446744073709551615 }
{
    masks.stored = [0; 128];
    masks.unmapped = [0xFFFF_FFFF_FFFF_FFFF; 128];
    false
}

// All entries and the bits, of tables in two parts: front, the header, the bitmap and the set records, and files, the file
// records. Those of the sets from set n on are all zero.
pub fn entries_formed(front: &[u8], files: &[u8], masks: &mut PageMasks, n: usize) -> bool
    requires { (length front.now ≡ files_at) × (length files.now ≡ all_files_bytes) × AllAre record_count masks.old.stored 0 × AllAre record_count masks.old.unmapped 18446744073709551615 × BlankFrom files.now n × ((unpack front.now).blocks ≤ 4096) }
    ensures { EntriesSeen (front.now ++ files.now) masks.new.stored masks.new.unmapped result }
{
    let limit = block_count(front);
    let end = n * 16;
    let mut seen = [0; 512];
    for i in 0..end {
        if !pass_record(files, &mut seen, masks, i, limit) {
            return not_passed(masks);
        }
    }
    if !maps_equal(front, &seen) {
        return not_passed(masks);
    }
    true
}

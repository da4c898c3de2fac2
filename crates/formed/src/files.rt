// The rules on file records, by the heads of the records and the masks of their pages: the file numbers outside, the sets
// inside. Those from set n on are zero, and their sets unused. In older tables a marked file may keep its record.
ghost use Rattle.std.specs.Prelude.{◌++◌, ◌≡◌, ℕ, ◌*◌, ◌+◌, ◌<◌, get_or, length};
ghost use Rattle.masks.specs.Pages.{page_mask};
ghost use Rattle.rules.specs.State.{is_unmapped, set_count};
ghost use Rattle.tables.specs.Layout.{all_files_bytes, files_at};
ghost use Rattle.tables.specs.Packed.{unpack};
ghost use Rattle.setcheck.specs.Records.{file_records_formed};
ghost use Rattle.entrycheck.specs.Records.{AllAre, BlankFrom, MasksAre};
ghost use Rattle.formed.specs.Files.{DigitsAre, Falling, Places, number_formed};
ghost use Rattle.formed.specs.Heads.{HeadsPassed, UnusedFrom};

use crate::heads::pass_head;
use crate::linked::files_linked;
use crate::places::{SetPlaces, put_places};
use entrycheck::records::PageMasks;

// The heads of the files of number f, in all sets: those from set n on are blank.
fn pass_heads(
    front: &[u8],
    files: &[u8],
    unmapped: &[u64; 128],
    ends: &mut [usize; 8],
    lives: &mut u64,
    digits: &[u64; 8],
    f: usize,
    n: usize,
    older: bool,
) -> bool
    requires { (length front.now ≡ files_at) × (length files.now ≡ all_files_bytes) × ((s : ℕ) → s < 8 → get_or unmapped.now (s * 16 + f) 0 ≡ page_mask is_unmapped ((unpack (front.now ++ files.now)).files f s).map) × AllAre set_count ends.old 64 × (lives.old ≡ 0) × DigitsAre (unpack (front.now ++ files.now)).sets digits.now × (f < 16) × BlankFrom files.now n }
    ensures { HeadsPassed older (front.now ++ files.now) f ends.new lives.new result }
{
    for s in 0..n {
        if !pass_head(
            files,
            ends,
            lives,
            f,
            s,
            digits[s],
            unmapped[s * 16 + f],
            older,
        ) {
            return false;
        }
    }
    true
}

// All rules on the files of number f.
fn number_formed(
    front: &[u8],
    files: &[u8],
    masks: &PageMasks,
    places: &SetPlaces,
    f: usize,
    n: usize,
    older: bool,
) -> bool
    requires { (length front.now ≡ files_at) × (length files.now ≡ all_files_bytes) × Falling (unpack (front.now ++ files.now)).sets × MasksAre (front.now ++ files.now) masks.now.stored masks.now.unmapped × Places (unpack (front.now ++ files.now)).sets places.now.digits places.now.parents × (f < 16) × BlankFrom files.now n }
    ensures { result ≡ number_formed (front.now ++ files.now) older f }
{
    let mut ends = [64; 8];
    let mut lives = 0;
    pass_heads(
        front,
        files,
        &masks.unmapped,
        &mut ends,
        &mut lives,
        &places.digits,
        f,
        n,
        older,
    ) && files_linked(front, files, places, masks, &ends, lives, f)
}

// The rules on file records: the masks of their pages are known, and those from set n on are blank.
pub fn records_formed(front: &[u8], files: &[u8], masks: &PageMasks, n: usize, older: bool) -> bool
    requires { (length front.now ≡ files_at) × (length files.now ≡ all_files_bytes) × Falling (unpack front.now).sets × MasksAre (front.now ++ files.now) masks.now.stored masks.now.unmapped × BlankFrom files.now n × UnusedFrom (unpack front.now).sets n }
    ensures { result ≡ file_records_formed older (front.now ++ files.now) }
{
    let mut places = SetPlaces {
        digits: [0; 8],
        parents: [8; 8],
    };
    put_places(front, &mut places, n);
    for f in 0..16 {
        if !number_formed(front, files, masks, &places, f, n, older) {
            return false;
        }
    }
    true
}

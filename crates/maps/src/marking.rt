// Which file needs a page, and which files are marked when one is.
ghost use Rattle.std.specs.Prelude.{◌≡◌, ◌<◌, length};
ghost use Rattle.rules.specs.State.{tree_of};
ghost use Rattle.rules.specs.Reading as Reading;
ghost use Rattle.tables.specs.Layout.{table_bytes};
ghost use Rattle.tables.specs.Packed.{unpack};
ghost use Rattle.maps.specs.FourEntries.{unmapped_among};
ghost use Rattle.maps.specs.Mask.{packs};

use crate::reading;
use packing::words;
use tables::entries::Page;
use tables::places::{FILE_BYTES, MAPS_AT};
use tables::{entries, files, sets};

// "A child needs page p when its file is own or virgin and p is unmapped there."
#[tactic(auto, unfolding(rules::specs::Reading::needs))]
pub fn needs(t: &[u8], f: usize, s: usize, page: Page) -> bool
    requires { (length t.now ≡ table_bytes) × (f < 16) × (s < 8) × (page.0 < 64) }
    ensures { result ≡ Reading.needs ((unpack t.now).files f) s page.0 }
{
    files::is_live(files::state_at(t, f, s))
        && entries::is_unmapped(entries::entry_at(t, f, s, page))
}

// Is one of the four entries of a word of 64 bits unmapped? First the words of four unmapped pages and of four holes.
#[tactic(auto, unfolding(crate::specs::FourEntries::unmapped_among))]
fn among(w: u64) -> bool
    ensures { result ≡ unmapped_among w }
{
    if w == 0 {
        return true;
    }
    if w == 0x4000400040004000 {
        return false;
    }
    w % 65536 < 16384
        || w / 65536 % 65536 < 16384
        || w / 4294967296 % 65536 < 16384
        || w / 281474976710656 < 16384
}

// Is any page of the file unmapped? Four entries at a time.
fn some_unmapped(t: &[u8], f: usize, s: usize) -> bool
    requires { (length t.now ≡ table_bytes) × (f < 16) × (s < 8) }
    ensures { result ≡ Reading.some_unmapped 64 ((unpack t.now).files f s).map }
{
    let map = MAPS_AT + (s * 16 + f) * FILE_BYTES;
    for n in (0..16).rev() {
        if among(words::read::<8>(t, map + n * 8)) {
            return true;
        }
    }
    false
}

// "an own or virgin file depends on the parent set's file as long as it has any unmapped page": a number from 8 on is no
// set, and its files depend on none.
#[tactic(auto, using(crate::proofs::OutOfRange::dependent_out), unfolding(rules::specs::Reading::dependent))]
fn dependent(t: &[u8], f: usize, s: usize) -> bool
    requires { (length t.now ≡ table_bytes) × (f < 16) }
    ensures { result ≡ Reading.dependent ((unpack t.now).files f s) }
{
    s < 8 && files::is_live(files::state_at(t, f, s)) && some_unmapped(t, f, s)
}

// Is the file of set s marked when that of set c is?
fn depends_on(t: &[u8], f: usize, c: usize, s: usize) -> bool
    requires { (length t.now ≡ table_bytes) × (f < 16) × (s < 8) }
    ensures { result ≡ Reading.reaches (tree_of (unpack t.now).sets) ((unpack t.now).files f) c s }
{
    let mut at = s;
    for _ in 0..sets::level_of(t, s) {
        if c == at {
            return true;
        }
        if !dependent(t, f, at) {
            return false;
        }
        at = reading::parent_in(t, at);
    }
    c == at
}

// The sets whose files are marked when that of set c is: a binary digit each, set 0 the lowest.
pub fn reach_mask(t: &[u8], f: usize, c: usize) -> u32
    requires { (length t.now ≡ table_bytes) × (f < 16) }
    ensures { (result ≡ packs (Reading.reaches (tree_of (unpack t.now).sets) ((unpack t.now).files f) c) 0 8) × (result < 256) }
{
    let mut m: u32 = 0;
    for s in (0..8).rev() {
        m = m * 2 + u32::from(depends_on(t, f, c, s));
    }
    m
}

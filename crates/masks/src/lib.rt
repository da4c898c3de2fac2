// The pages of a map as masks of 64 bits, page 0 the most significant: which are stored, holes or unmapped, told from the 64
// entries with no branch; and the lowest bit, the number and ranges of pages of a mask. The kinds are right on any bytes.
#![tactic(auto)]

ghost use Rattle.std.specs.Prelude.{◌≡◌, ◌+◌, ◌<◌, ◌≤◌, length};
ghost use Rattle.std.specs.Int.Count.{count_trailing_zeros};
ghost use Rattle.base.specs.Count.{count};
ghost use Rattle.rules.specs.State.{is_unmapped};
ghost use Rattle.tables.specs.Layout.{table_bytes};
ghost use Rattle.tables.specs.Packed.{unpack};
ghost use Rattle.masks.specs.Pages.{IsRange, page_mask, pages};

use crate::kinds::kind_masks;
use tables::places::{FILE_BYTES, MAPS_AT};

pub mod kinds;

// The lowest bit of m that is set.
pub fn lowest(m: u64) -> usize
    requires { 0 < m }
    ensures { (result ≡ count_trailing_zeros 64 m) × (result < 64) }
{
    m.trailing_zeros() as usize
}

// How many pages the mask has.
pub fn page_count(m: u64) -> u32
    ensures { (result ≡ count 64 (pages m)) × (result ≤ 64) }
{
    m.count_ones()
}

// The pages first, .., first + n - 1.
pub fn page_range(first: usize, n: usize) -> u64
    requires { first + n ≤ 64 }
    ensures { IsRange result first n }
{
    if n == 0 {
        return 0;
    }
    u64::MAX >> first & u64::MAX << (64 - first - n)
}

// The pages of file f that are unmapped in set s.
pub fn unmapped_pages(t: &[u8], f: usize, s: usize) -> u64
    requires { (length t.now ≡ table_bytes) × (f < 16) × (s < 8) }
    ensures { result ≡ page_mask is_unmapped ((unpack t.now).files f s).map }
{
    let k = kind_masks(t, MAPS_AT + (s * 16 + f) * FILE_BYTES);
    !(k.stored | k.holes)
}

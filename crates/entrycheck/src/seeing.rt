// The entries of a map against the map of the blocks seen so far: the kinds, then the blocks of the stored pages, first the
// words of four entries that name four blocks in a row, then the other pages one by one. A block is what the 12 low bits of
// an entry say.
ghost use Rattle.std.specs.Prelude.{MatchOption, false, true, ◌≡◌, ◌+◌, ◌%◌, ◌<◌, ◌≤◌, length};
ghost use Rattle.std.proofs.Math.Option.{none};
ghost use Rattle.rules.specs.State.{stored};
ghost use Rattle.packing.specs.Bitmap.{bit_at};
ghost use Rattle.packing.specs.Words.{get_word};
ghost use Rattle.entrycheck.specs.Seeing.{MapRead, MapSeen, Sees, see_map, see_named, through};
ghost use Rattle.masks.specs.Pages.{pages};
ghost use Rattle.entrycheck.specs.Moving.{FourInARow, Full, Moved, RowMoved, RowsMoved, block_at, no_page, rows};

use crate::plain::blocks_plain;
use masks::kinds::kind_masks;
use masks::lowest;
use packing::words;

// The block of the entry at a byte.
fn block_of(t: &[u8], at: usize) -> usize
    requires { at + 1 < length t.now }
    ensures { (result ≡ get_word 1 t.now at % 4096) × (result < 4096) }
{
    let e = words::low::<2>(t, at);
    (e % 16 * 256 + e / 256) as usize
}

// Block b is seen from here on, unless it is seen already, or is not below the limit. By its byte, not by a word as in
// see_four: the work for one entry stays what it is.
fn see_block(seen: &mut [u8; 512], b: usize, limit: usize) -> bool
    requires { b < 4096 }
    ensures { Sees (through 1 (λ j. see_named limit (stored (b + j)))) seen.old seen.new result }
{
    if b >= limit {
        return false;
    }
    let x = seen[b / 8];
    let y = 128 >> (b % 8);
    if x & y != 0 {
        return false;
    }
    seen[b / 8] = x | y;
    true
}

// The pages of the mask m one by one.
fn see_pages(t: &[u8], seen: &mut [u8; 512], at: usize, m: u64, limit: usize) -> bool
    requires { at + 128 ≤ length t.now }
    ensures { Moved limit (block_at t.now at) seen.old seen.new (pages m) no_page result }
{
    let mut left = m;
    while left != 0 {
        let k = lowest(left);
        if !see_block(seen, block_of(t, at + (63 - k) * 2), limit) {
            return false;
        }
        left = left & (left - 1);
    }
    true
}

// The same of the blocks b to b + 3, by the word of 64 bits of the map that has them: blocks that follow each other then change the
// same word, which the processor has at hand from the last store.
fn see_four(seen: &mut [u8; 512], b: usize, limit: usize) -> bool
    requires { (b < 4096) × (b % 64 < 61) }
    ensures { Sees (through 4 (λ j. see_named limit (stored (b + j)))) seen.old seen.new result }
{
    if b + 3 >= limit {
        return false;
    }
    let x = words::read::<8>(seen, b / 64 * 8);
    let y = 0xF000_0000_0000_0000 >> (b % 64);
    if x & y != 0 {
        return false;
    }
    words::write::<8>(seen, b / 64 * 8, x | y);
    true
}

// Do the four entries from a byte on name blocks in a row, all in one word of the map? Each is one more than that before
// it; the low byte is the second.
fn in_row(t: &[u8], at: usize) -> bool
    requires { at + 7 < length t.now }
    ensures { result ≡ true → FourInARow t.now at }
{
    let e = words::low::<2>(t, at);
    e / 256 % 64 <= 60
        && words::low::<8>(t, at) == e * 0x0001_0001_0001_0001 + 0x0300_0200_0100_0000
}

// The four pages of the mask m that stand in its bits k to k + 3, if they name blocks in a row: the pages that are left, or
// None where a block is seen already, or is not below the limit.
fn see_row(t: &[u8], seen: &mut [u8; 512], at: usize, m: u64, k: usize, limit: usize) -> Option<u64>
    requires { (at + 128 ≤ length t.now) × (k < 61) × Full m k }
    ensures { RowMoved limit (block_at t.now at) seen.old seen.new m k result }
{
    let p = at + (60 - k) * 2;
    if !in_row(t, p) {
        return Some(m);
    }
    if !see_four(seen, block_of(t, p), limit) {
        return None;
    }
    Some(m & !(15 << k))
}

// Each bit whose word of four pages is whole in the mask.
fn rows_of(m: u64) -> u64
    ensures { result ≡ rows m }
{
    let x = m & m >> 1;
    x & x >> 2 & 0x1111_1111_1111_1111
}

// The words of four pages of the mask m that name blocks in a row: the pages that are left, or None as above.
fn see_rows(t: &[u8], seen: &mut [u8; 512], at: usize, m: u64, limit: usize) -> Option<u64>
    requires { at + 128 ≤ length t.now }
    ensures { RowsMoved limit (block_at t.now at) seen.old seen.new m result }
{
    let mut left = m;
    let mut q = rows_of(m);
    while q != 0 {
        left = see_row(t, seen, at, left, lowest(q), limit)?;
        q = q & (q - 1);
    }
    Some(left)
}

// Which pages are stored and which unmapped, each later page a less significant bit.
#[derive(Clone, Copy)]
pub struct Masks {
    pub stored: u64,
    pub unmapped: u64,
}

// The entries of the map that begins at a byte, or None where one does not pass.
fn see_entries(t: &[u8], seen: &mut [u8; 512], at: usize, limit: usize) -> Option<Masks>
    requires { (at + 128 ≤ length t.now) × (limit ≤ 4096) }
    ensures { MatchOption result (see_map limit t.now at (bit_at seen.old 0) ≡ none) (MapRead limit t.now at seen.old seen.new) }
{
    let k = kind_masks(t, at);
    if k.stored & k.holes != 0 {
        return None;
    }
    if !blocks_plain(t, at) {
        return None;
    }
    let left = see_rows(t, seen, at, k.stored, limit)?;
    if !see_pages(t, seen, at, left, limit) {
        return None;
    }
    Some(Masks {
        stored: k.stored,
        unmapped: !(k.stored | k.holes),
    })
}

// The same; and where an entry does not pass, the map has no block, whichever entry it is.
pub fn map_entries(t: &[u8], seen: &mut [u8; 512], at: usize, limit: usize) -> Option<Masks>
    requires { (at + 128 ≤ length t.now) × (limit ≤ 4096) }
    ensures { MapSeen limit t.now at seen.old seen.new result }
{
    let m = see_entries(t, seen, at, limit);
    if m.is_none() {
        *seen = [0; 512];
    }
    m
}

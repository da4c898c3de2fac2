// A map of bits in bytes, the most significant bit of each byte first. The map begins at byte `at` of the slice.
ghost use Rattle.std.specs.Prelude.{not, ◌≡◌, ◌+◌, ◌*◌, ◌/◌, ◌<◌, ◌≤◌, leb, length};
ghost use Rattle.base.specs.Count.{count};
ghost use Rattle.base.specs.Search.{first_free};
ghost use Rattle.packing.specs.Bitmap.{bit_at, set_bit, clear_bit};
ghost use Rattle.packing.specs.FirstFree.{FoundIn, found_of, scanned};

use crate::words;

pub fn bit_at(t: &[u8], at: usize, b: usize) -> bool
    requires { at + b / 8 < length t.now }
    ensures { result ≡ bit_at t.now at b }
{
    (t[at + b / 8] >> (7 - b % 8)) % 2 == 1
}

pub fn set_bit(t: &mut [u8], at: usize, b: usize)
    requires { at + b / 8 < length t.old }
    ensures { t.new ≡ set_bit t.old at b }
{
    let i = at + b / 8;
    t[i] |= 1 << (7 - b % 8);
}

pub fn clear_bit(t: &mut [u8], at: usize, b: usize)
    requires { at + b / 8 < length t.old }
    ensures { t.new ≡ clear_bit t.old at b }
{
    let i = at + b / 8;
    t[i] &= !(1 << (7 - b % 8));
}

// How many bits of the map's first words of 64 bits are set.
pub fn count_set(t: &[u8], at: usize, words: usize) -> u32
    requires { (words ≤ 64) × (at + words * 8 ≤ length t.now) }
    ensures { result ≡ count (64 * words) (bit_at t.now at) }
{
    let mut n: u32 = 0;
    for i in 0..words {
        n += words::low::<8>(t, at + i * 8).count_ones();
    }
    n
}

// Are `need` bits or more of the map's first words of 64 bits clear? The words after the one that decides are not looked
// at.
pub fn has_clear(t: &[u8], at: usize, words: usize, need: usize) -> bool
    requires { (words ≤ 64) × (at + words * 8 ≤ length t.now) }
    ensures { result ≡ leb need (count (64 * words) (λ b. not (bit_at t.now at b))) }
{
    let mut n: usize = 0;
    for j in 0..words {
        n += words::low::<8>(t, at + j * 8).count_zeros() as usize;
        if need <= n {
            return true;
        }
    }
    need <= n
}

// How many bits of w in a row are set from bit s on, counted from the most significant.
fn run(w: u64, s: usize) -> usize
    requires { s < 64 }
    ensures { (result ≡ scanned w s) × (result ≤ 64) }
{
    (!w << s).leading_zeros() as usize
}

// The first clear bit of lo..hi.
fn find_in(t: &[u8], at: usize, lo: usize, hi: usize) -> Option<usize>
    requires { (lo ≤ hi) × (hi ≤ 4096) × (at + (hi + 63) / 64 * 8 ≤ length t.now) }
    ensures { FoundIn (bit_at t.now at) lo hi result }
{
    let mut b = lo;
    // The step is what is left of the word, so no `for` counts it.
    while b < hi {
        let s = b % 64;
        let w = words::read::<8>(t, at + b / 64 * 8);
        let z = run(w, s);
        if z + s < 64 {
            let r = b + z;
            if r < hi {
                return Some(r);
            }
            return None;
        }
        b += 64 - s;
    }
    None
}

// The first clear bit below limit, from start on and then from 0. The bit at start is looked at alone first: it is mostly
// clear, and its byte can be read at once after the last bit was set in it, where a word would have to wait.
pub fn first_free(t: &[u8], at: usize, start: usize, limit: usize) -> Option<usize>
    requires { (start < limit) × (limit ≤ 4096) × (at + (limit + 63) / 64 * 8 ≤ length t.now) }
    ensures { result ≡ found_of (first_free limit (bit_at t.now at) start) }
{
    if !bit_at(t, at, start) {
        return Some(start);
    }
    find_in(t, at, start, limit).or_else(|| find_in(t, at, 0, start))
}

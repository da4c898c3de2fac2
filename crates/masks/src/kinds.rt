// The kinds of the 64 entries of a map, looked at many at a time with no branch: the masks of the stored pages and of the
// holes.
ghost use Rattle.std.specs.Prelude.{◌≡◌, ◌+◌, ◌<◌, ◌≤◌, length};
ghost use Rattle.masks.specs.Network.{gather, holes_of, kinds16, kinds32, stored_of, words_at};

use packing::words;

// The kinds of the 16 entries of the words i to i + 3, in two fields of 16 bits.
fn kinds_16(t: &[u8], at: usize, i: usize) -> u64
    requires { (i < 13) × (at + 128 ≤ length t.now) }
    ensures { result ≡ kinds16 (words_at t.now at) i }
{
    let a = words::low::<8>(t, at + i * 8) >> 6 & 0x0003_0003_0003_0003;
    let b = words::low::<8>(t, at + (i + 1) * 8) >> 6 & 0x0003_0003_0003_0003;
    let c = words::low::<8>(t, at + (i + 2) * 8) >> 6 & 0x0003_0003_0003_0003;
    let d = words::low::<8>(t, at + (i + 3) * 8) >> 6 & 0x0003_0003_0003_0003;
    let k = a << 12 | b << 8 | c << 4 | d;
    (k << 2 | k >> 16) & 0x0000_FFFF_0000_FFFF
}

// Those of the 32 entries of the words i to i + 7, in four fields.
fn kinds_32(t: &[u8], at: usize, i: usize) -> u64
    requires { (i < 9) × (at + 128 ≤ length t.now) }
    ensures { result ≡ kinds32 (words_at t.now at) i }
{
    kinds_16(t, at, i) << 16 | kinds_16(t, at, i + 4)
}

// Every second bit of the four fields, in the order of the pages.
fn gather_32(x: u64) -> u64
    ensures { result ≡ gather x }
{
    let u = x & 0x5555_5555_5555_5555;
    let v = (u | u >> 1) & 0x3333_3333_3333_3333;
    (v << 2 | v >> 32) & 0xFFFF_FFFF
}

// The masks of the stored pages and of the holes: page 0 is the most significant bit. A page of kind 3 is in both.
#[derive(Clone, Copy)]
pub struct Kinds {
    pub stored: u64,
    pub holes: u64,
}

pub fn kind_masks(t: &[u8], at: usize) -> Kinds
    requires { at + 128 ≤ length t.now }
    ensures { (result.stored ≡ stored_of (words_at t.now at)) × (result.holes ≡ holes_of (words_at t.now at)) }
{
    let a = kinds_32(t, at, 0);
    let b = kinds_32(t, at, 8);
    Kinds {
        stored: gather_32(a >> 1) << 32 | gather_32(b >> 1),
        holes: gather_32(a) << 32 | gather_32(b),
    }
}

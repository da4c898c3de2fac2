// Words of 1 to 8 bytes at a byte offset of a slice: the most significant byte first, or the least significant one.
ghost use Rattle.std.specs.Prelude.{◌≡◌, ◌+◌, ◌-◌, ◌^◌, ◌<◌, ◌≤◌, length};
ghost use Rattle.packing.specs.Words.{get_word, low_word, put_word};
ghost use Rattle.packing.specs.Zeros.{zero_bytes};

// The word of the N bytes from `at` on, the most significant first.
pub fn read<const N: usize>(t: &[u8], at: usize) -> u64
    requires { (0 < N) × (N ≤ 8) × (at + N ≤ length t.now) }
    ensures { (result ≡ get_word (N - 1) t.now at) × (result < 256 ^ N) }
{
    let mut bytes = [0; 8];
    bytes[8 - N..].copy_from_slice(&t[at..at + N]);
    u64::from_be_bytes(bytes)
}

// The word of the N bytes from `at` on, the least significant first: it is read by one load, and many at a time.
pub fn low<const N: usize>(t: &[u8], at: usize) -> u64
    requires { (0 < N) × (N ≤ 8) × (at + N ≤ length t.now) }
    ensures { (result ≡ low_word (N - 1) t.now at) × (result < 256 ^ N) }
{
    let mut bytes = [0; 8];
    bytes[..N].copy_from_slice(&t[at..at + N]);
    u64::from_le_bytes(bytes)
}

// The word v becomes the N bytes from `at` on, the most significant first.
pub fn write<const N: usize>(t: &mut [u8], at: usize, v: u64)
    requires { (0 < N) × (N ≤ 8) × (at + N ≤ length t.old) × (v < 256 ^ N) }
    ensures { t.new ≡ put_word (N - 1) t.old at v }
{
    for i in 0..N {
        t[at + i] = (v >> (8 * (N - 1 - i)) & 0xff) as u8;
    }
}

// Are the n bytes from `at` on all zero? None is tested alone, so that many are looked at at once.
pub fn all_zero(t: &[u8], at: usize, n: usize) -> bool
    requires { at + n ≤ length t.now }
    ensures { result ≡ zero_bytes t.now at n }
{
    let mut x: u8 = 0;
    for y in &t[at..at + n] {
        x |= *y;
    }
    x == 0
}

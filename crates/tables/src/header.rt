// The header, block count B and next start, and the number of free blocks.
ghost use Rattle.std.specs.Prelude.{◌≡◌, false, not, ℕ, ◌<◌, ◌≤◌, leb, length};
ghost use Rattle.base.specs.Count.{count};
ghost use Rattle.tables.specs.Layout.{files_at, table_bytes};
ghost use Rattle.tables.specs.Packed.{unpack};
ghost use Rattle.tables.specs.Views.{PackedTables, Turns, put_next_in};

use crate::places::BITMAP_AT;
use packing::bitmap;

// The header is read and written byte by byte: taking a block reads what the last one wrote, and a byte that was just
// written can be read at once, where a word would have to wait.
pub fn block_count(t: &[u8]) -> usize
    requires { files_at ≤ length t.now }
    ensures { (result ≡ (unpack t.now).blocks) × (result < 8192) }
{
    usize::from(t[0]) * 32 + usize::from(t[1]) / 8
}

pub fn next_start(t: &[u8]) -> usize
    requires { files_at ≤ length t.now }
    ensures { (result ≡ (unpack t.now).next) × (result < 4096) }
{
    usize::from(t[1]) % 8 * 512 + usize::from(t[2]) * 2 + usize::from(t[3]) / 128
}

pub fn put_next(t: &mut [u8], n: usize)
    requires { PackedTables t.old × (n < 4096) }
    ensures { Turns t.old t.new (put_next_in n) }
{
    t[1] = (usize::from(t[1]) / 8 * 8 + n / 512) as u8;
    t[2] = (n / 2 % 256) as u8;
    t[3] = (n % 2 * 128) as u8;
}

// Are `need` blocks or more free? None is looked at where none is needed, nor a word of the bitmap after the one that
// decides. In the last word the bits from B on are clear too.
pub fn has_free(t: &[u8], need: u32) -> bool
    requires { (length t.now ≡ table_bytes) × ((unpack t.now).blocks ≤ 4096) × ((b : ℕ) → (unpack t.now).blocks ≤ b → (unpack t.now).bits b ≡ false) }
    ensures { result ≡ leb need (count (unpack t.now).blocks (λ b. not ((unpack t.now).bits b))) }
{
    if need == 0 {
        return true;
    }
    let b = block_count(t);
    let words = (b + 63) / 64;
    bitmap::has_clear(t, BITMAP_AT, words, need as usize + (words * 64 - b))
}

// How many blocks are free, where no bit is set from B on.
pub fn free_blocks(t: &[u8]) -> u32
    requires { (length t.now ≡ table_bytes) × ((unpack t.now).blocks ≤ 4096) × ((b : ℕ) → (unpack t.now).blocks ≤ b → (unpack t.now).bits b ≡ false) }
    ensures { (result ≡ count (unpack t.now).blocks (λ b. not ((unpack t.now).bits b))) × (result ≤ 4096) }
{
    let b = block_count(t);
    b as u32 - bitmap::count_set(t, BITMAP_AT, (b + 63) / 64)
}

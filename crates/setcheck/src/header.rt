// The rules on the header.
ghost use Rattle.std.specs.Prelude.{◌≡◌, ◌≤◌, length};
ghost use Rattle.rules.specs.WellFormed.{header_formed, pages_fit};
ghost use Rattle.tables.specs.Layout.{files_at};
ghost use Rattle.tables.specs.Packed.{unpack};
ghost use Rattle.setcheck.specs.Records.{header_zero};

use packing::words;
use tables::header::{block_count, next_start};

// "B is 1 to 4,096, next start is below B"
#[tactic(auto, unfolding(rules::specs::WellFormed::header_formed))]
pub fn header_formed(t: &[u8]) -> bool
    requires { files_at ≤ length t.now }
    ensures { result ≡ header_formed (unpack t.now) }
{
    let b = block_count(t);
    let next = next_start(t);
    b >= 1 && b <= 4096 && next < b
}

// "the pages buffer is B × 512 bytes": a pages buffer of n bytes.
pub fn pages_fit(t: &[u8], n: usize) -> bool
    requires { files_at ≤ length t.now }
    ensures { result ≡ pages_fit (unpack t.now) n }
{
    n == block_count(t) * 512
}

// "Zero fields are zero": that of the header.
pub fn header_zero(t: &[u8]) -> bool
    requires { files_at ≤ length t.now }
    ensures { result ≡ header_zero t.now }
{
    words::read::<4>(t, 0) % 128 == 0
}

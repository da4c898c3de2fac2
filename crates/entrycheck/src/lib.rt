// The part of the well-formed check that concerns the entries, the blocks that they name and the bits: one pass over
// the entries, many at a time, with a map of 512 bytes of the blocks seen so far; and that map against the bits. It looks
// at every file record, whatever the set records and the heads of files say.
#![tactic(auto)]

ghost use Rattle.std.specs.Prelude.{◌≡◌, ◌≤◌, length};
ghost use Rattle.packing.specs.Bitmap.{bit_at};
ghost use Rattle.tables.specs.Layout.{files_at};
ghost use Rattle.entrycheck.specs.Seeing.{same_bits};

use tables::places::BITMAP_AT;

pub mod plain;
pub mod records;
pub mod seeing;

// Are the blocks seen those whose bits are 1? No byte is tested alone, so that many are looked at at once.
pub fn maps_equal(t: &[u8], seen: &[u8; 512]) -> bool
    requires { files_at ≤ length t.now }
    ensures { result ≡ same_bits t.now (bit_at seen.now 0) }
{
    let mut x: u8 = 0;
    for i in 0..512 {
        x |= t[BITMAP_AT + i] ^ seen[i];
    }
    x == 0
}

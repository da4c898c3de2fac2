// The blocks of the 64 entries of a file, looked at many at a time with no branch: is every block one that the kind allows?
ghost use Rattle.std.specs.Prelude.{cond, ◌≡◌, ◌+◌, ◌%◌, ◌≤◌, ltb, length};
ghost use Rattle.base.specs.Count.{all};
ghost use Rattle.entrycheck.specs.Plain.{plain_at};

use packing::words;

// The entry e, its first byte the least significant, unless it is stored.
fn unless_stored(e: u16) -> u16
    ensures { result ≡ cond (ltb (e % 256) 128) e 0 }
{
    if e % 256 < 128 { e } else { 0 }
}

// Is every block below 4,096, and 0 unless the entry is stored?
pub fn blocks_plain(t: &[u8], at: usize) -> bool
    requires { at + 128 ≤ length t.now }
    ensures { result ≡ all 64 (plain_at t.now at) }
{
    let mut any: u16 = 0;
    let mut plain: u16 = 0;
    for i in 0..64 {
        let e = words::low::<2>(t, at + i * 2) as u16;
        any |= e;
        plain |= unless_stored(e);
    }
    any & 0x0030 == 0 && plain & 0xFF3F == 0
}

// Moves of bytes in the lent buffers: of pages of 512 bytes, by Block, into the buffer of a read, and runs of zeros.
#![tactic(auto)]

ghost use Rattle.std.specs.Prelude.{◌≡◌, ◌+◌, ◌*◌, ◌≤◌, ◌<◌, length, get_or};
ghost use Rattle.base.specs.Update.{upd};
ghost use Rattle.rules.specs.Storage.{overlay, zero_from};
ghost use Rattle.tables.specs.Calls.{pages_of};
ghost use Rattle.pages.specs.Run.{run, zeroed};

use tables::entries::{Block, Page};

// Copies n bytes of `source`, from byte `start` on, to the places of `target` from `at` on.
pub fn copy_bytes(target: &mut [u8], at: usize, source: &[u8], start: usize, n: usize)
    requires { (at + n ≤ length target.old) × (start + n ≤ length source.now) }
    ensures { target.new ≡ run target.old at (λ i. get_or source.now (start + i) 0) n }
{
    // By a loop: the slice's own copy would have the archive ask C's library for `memmove`.
    for i in 0..n {
        target[at + i] = source[start + i];
    }
}

// Zeroes the n bytes of `target` from `at` on.
pub fn zero_bytes(target: &mut [u8], at: usize, n: usize)
    requires { at + n ≤ length target.old }
    ensures { target.new ≡ zeroed target.old at n }
{
    target[at..at + n].fill(0);
}

// Copies the page in block `from` to block `to`, which may be the same.
pub fn copy_page(pages: &mut [u8], from: Block, to: Block)
    requires { (from.0 * 512 + 512 ≤ length pages.old) × (to.0 * 512 + 512 ≤ length pages.old) }
    ensures { pages_of pages.new ≡ upd (pages_of pages.old) to.0 (pages_of pages.old from.0) }
{
    let a = from.number() * 512;
    let b = to.number() * 512;
    // A page that a file has already stays where it is, at every write of a part of it.
    if a == b {
        return;
    }
    pages.copy_within(a..a + 512, b);
}

// Zeroes the page in block b.
pub fn zero_page(pages: &mut [u8], b: Block)
    requires { b.0 * 512 + 512 ≤ length pages.old }
    ensures { pages_of pages.new ≡ upd (pages_of pages.old) b.0 (λ i. 0) }
{
    zero_bytes(pages, b.number() * 512, 512);
}

// Zeroes the page in block b from its byte n on.
pub fn zero_tail(pages: &mut [u8], b: Block, n: usize)
    requires { (b.0 * 512 + 512 ≤ length pages.old) × (n ≤ 512) }
    ensures { pages_of pages.new ≡ upd (pages_of pages.old) b.0 (zero_from n (pages_of pages.old b.0)) }
{
    zero_bytes(pages, b.number() * 512 + n, 512 - n);
}

// Lays over the page in block b, which is page `page` of a file, those of the bytes `data` that fall on it; they begin at
// byte `off` of the file.
pub fn lay_bytes(pages: &mut [u8], b: Block, page: Page, off: usize, data: &[u8])
    requires { (b.0 * 512 + 512 ≤ length pages.old) × (page.0 < 64) × (off + length «data».now ≤ 32768) }
    ensures { pages_of pages.new ≡ upd (pages_of pages.old) b.0 (overlay off «data».now page.0 (pages_of pages.old b.0)) }
{
    let start = page.number() * 512;
    let lo = off.max(start);
    let hi = (off + data.len()).min(start + 512);
    if hi <= lo {
        return;
    }
    let at = b.number() * 512 + (lo - start);
    copy_bytes(pages, at, data, lo - off, hi - lo);
}

// Copies n bytes of the page in block b, from its byte `from` on, to the places of a read's buffer from `at` on.
pub fn read_page(pages: &[u8], b: Block, from: usize, buffer: &mut [u8], at: usize, n: usize)
    requires { (b.0 * 512 + 512 ≤ length pages.now) × (from + n ≤ 512) × (at + n ≤ length buffer.old) }
    ensures { buffer.new ≡ run buffer.old at (λ i. pages_of pages.now b.0 (from + i)) n }
{
    copy_bytes(buffer, at, pages, b.number() * 512 + from, n);
}

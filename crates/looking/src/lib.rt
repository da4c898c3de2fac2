// Reading a file: an accepted read. Its size by reading is `maps::reading::size_of`, the free blocks are
// `tables::header::free_blocks`.
#![tactic(auto)]

ghost use Rattle.std.specs.Prelude.{◌≡◌, ℕ, ◌*◌, ◌+◌, ◌%◌, ◌≤◌, ◌<◌, length};
ghost use Rattle.rules.specs.Calls.{read_count};
ghost use Rattle.rules.specs.State.{stored};
ghost use Rattle.tables.specs.Meaning.{kept_meant};
ghost use Rattle.tables.proofs.FormedStore.{FormedStore};
ghost use Rattle.pages.specs.Run.{run};
ghost use Rattle.looking.specs.Read.{EntriesIn, ReadDone, byte_at, byte_kept};

use maps::{reading, resolving};
use tables::entries::{Entry, Kept};

// "Read: bytes, maps looked at".
#[derive(Clone, Copy)]
pub struct ReadCounts {
    pub bytes: u32,
    pub looks: u32,
}

// "the smaller of the buffer's length and the bytes from the offset to the size, none at or past it"
fn read_count(n: usize, off: usize, size: usize) -> usize
    ensures { result ≡ read_count n off size }
{
    if size <= off {
        return 0;
    }
    n.min(size - off)
}

// Reads n bytes of one page, from byte `from` of the file on, to the places of the buffer from `at` on; the page's entry is
// kept.
fn read_part(p: &[u8], kept: Kept, from: usize, buffer: &mut [u8], at: usize, n: usize)
    requires { ((b : ℕ) → kept_meant kept ≡ stored b → b * 512 + 512 ≤ length p.now) × (from % 512 + n ≤ 512) × (at + n ≤ length buffer.old) }
    ensures { buffer.new ≡ run buffer.old at (λ i. byte_at p.now (kept_meant kept) (from % 512 + i)) n }
{
    match kept.entry() {
        Entry::Unmapped | Entry::Hole => pages::zero_bytes(buffer, at, n),
        Entry::Stored(b) => pages::read_page(p, b, from % 512, buffer, at, n),
    }
}

// Reads n bytes of the file from byte `off` on to the buffer's front, page by page; the entries of the file's pages are kept.
fn read_pages(p: &[u8], kept: [Kept; 64], off: usize, n: usize, buffer: &mut [u8])
    requires { EntriesIn kept p.now × (off + n ≤ 32768) × (n ≤ length buffer.old) }
    ensures { buffer.new ≡ run buffer.old 0 (λ i. byte_kept kept p.now (off + i)) n }
{
    for q in off / 512..(off + n + 511) / 512 {
        let from = off.max(q * 512);
        let end = (off + n).min(q * 512 + 512);
        let e = kept[q];
        read_part(p, e, from, buffer, from - off, end - from);
    }
}

// Reads file f of set s from byte `off` on into the buffer. What its pages resolve to is found first, for all at once.
pub fn read_file(
    t: &[u8],
    p: &[u8],
    f: usize,
    s: usize,
    off: usize,
    buffer: &mut [u8],
) -> ReadCounts
    requires { FormedStore t.now p.now × (f < 16) × (s < 8) }
    ensures { ReadDone t.now p.now s f off buffer.old buffer.new result.bytes result.looks }
{
    let n = read_count(buffer.len(), off, reading::size_of(t, f, s));
    if n == 0 {
        return ReadCounts { bytes: 0, looks: 0 };
    }
    let first = off / 512;
    let last = (off + n - 1) / 512;
    let r = resolving::resolve_range(t, f, s, first, last - first + 1);
    let kept = r.kept;
    read_pages(p, kept, off, n, buffer);
    ReadCounts {
        bytes: n as u32,
        looks: r.looks,
    }
}

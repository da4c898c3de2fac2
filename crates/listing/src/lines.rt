// Whole lines: `call`, `end`, `set`, `file`, `ext`.
ghost use Rattle.std.specs.Prelude.{[], ◌∷◌, ◌++◌, ◌≡◌, ◌+◌, ◌<◌, ◌≤◌};
ghost use Rattle.tables.specs.Meaning.{entry_meant, set_meant, state_meant};
ghost use Rattle.listing.specs.Listing.{block_word, call_line, end_line, ext_line, file_line, set_line};
ghost use Rattle.rules.specs.State.{hole};
ghost use Rattle.tables.specs.OneReading.{block_fits};
ghost use Rattle.listing.specs.Text.{blank, decimal, newline, words};
ghost use Rattle.listing.specs.Written.{Put, Wrote};

use crate::text::Writer;
use tables::entries::Entry;
use tables::files::State;
use tables::sets::SetRecord;

// Two numbers, a blank before each.
fn put_two(w: &mut Writer, a: usize, b: usize)
    requires { w.old.at + 42 < 4294967296 }
    ensures { Put w.old w.new (words (decimal a ∷ decimal b ∷ [])) × (w.new.at ≤ w.old.at + 42) × (a < 100000 → b < 100000 → w.new.at ≤ w.old.at + 12) }
{
    w.put_word(a);
    w.put_word(b);
}

// Four numbers and the newline.
fn put_four(w: &mut Writer, a: usize, b: usize, c: usize, d: usize)
    requires { w.old.at + 85 < 4294967296 }
    ensures { Put w.old w.new (words (decimal a ∷ decimal b ∷ decimal c ∷ decimal d ∷ []) ++ (newline ∷ [])) × (w.new.at ≤ w.old.at + 85) × (a < 100000 → b < 100000 → c < 100000 → d < 100000 → w.new.at ≤ w.old.at + 25) }
{
    put_two(w, a, b);
    put_two(w, c, d);
    w.put(b'\n');
}

// "`call` count, op, number, three counts."
pub fn put_call(
    out: &mut [u8],
    count: usize,
    op: u32,
    number: u32,
    first: u32,
    second: u32,
    third: u32,
) -> usize
    ensures { Wrote out.old out.new 0 result (call_line count op (record { number = number; first = first; second = second; third = third })) × (result ≤ 131) }
{
    let mut w = Writer::new(out);
    w.put_bytes(b"call");
    put_two(&mut w, count, op as usize);
    put_four(
        &mut w,
        number as usize,
        first as usize,
        second as usize,
        third as usize,
    );
    w.at
}

// "prints `end` and the call's count from 1"
pub fn put_end(out: &mut [u8], count: usize) -> usize
    ensures { Wrote out.old out.new 0 result (end_line count) × (result ≤ 25) }
{
    let mut w = Writer::new(out);
    w.put_bytes(b"end");
    w.put_word(count);
    w.put(b'\n');
    w.at
}

// "`set` number, level, parent, writeable."
pub fn put_set(w: &mut Writer, s: usize, r: SetRecord)
    requires { (w.old.at + 28 < 4294967000) × (s < 8) × (r.level < 8) × (r.parent < 16) }
    ensures { Put w.old w.new (set_line s (set_meant r)) × (w.new.at ≤ w.old.at + 28) }
{
    w.put_bytes(b"set");
    put_four(w, s, r.level, r.parent, usize::from(r.writeable));
}

// "`file` set, number, state, size by reading (0 if marked)."
pub fn put_file(w: &mut Writer, s: usize, f: usize, l: State, size: usize)
    requires { (w.old.at + 29 < 4294967000) × (s < 8) × (f < 16) × (size < 65536) }
    ensures { Put w.old w.new (file_line s f (state_meant l) size) × (w.new.at ≤ w.old.at + 29) }
{
    w.put_bytes(b"file");
    put_four(w, s, f, u64::from(l) as usize, size);
}

// "Set 0 keeps -1 for its holes. In any other set a hole is listed as -2": the byte behind the sign.
fn hole_digit(root: bool) -> u8
    ensures { (45 ∷ result ∷ []) ≡ block_word root hole }
{
    if root { b'1' } else { b'2' }
}

// A blank and the block of an entry, of set 0 if `root`; -1 or -2 for a page not stored.
fn put_block(w: &mut Writer, root: bool, e: Entry)
    requires { (w.old.at + 6 < 4294967000) × block_fits (entry_meant e) }
    ensures { Put w.old w.new (blank ∷ block_word root (entry_meant e)) × (w.new.at ≤ w.old.at + 6) }
{
    match e {
        Entry::Unmapped => w.put_bytes(b" -1"),
        Entry::Hole => w.put_bytes(&[b' ', b'-', hole_digit(root)]),
        Entry::Stored(b) => w.put_word(b.number()),
    }
}

// "`ext` first page, block."
pub fn put_ext(w: &mut Writer, root: bool, p: usize, e: Entry)
    requires { (w.old.at + 16 < 4294967000) × (p < 65) × block_fits (entry_meant e) }
    ensures { Put w.old w.new (ext_line root p (entry_meant e)) × (w.new.at ≤ w.old.at + 16) }
{
    w.put_bytes(b"ext");
    w.put_word(p);
    put_block(w, root, e);
    w.put(b'\n');
}

// The extents of a file's own map.
ghost use Rattle.std.specs.Prelude.{[], ◌++◌, ◌≡◌, cond, ◌+◌, ◌<◌, ◌≤◌, eqb, length};
ghost use Rattle.tables.specs.Layout.{table_bytes};
ghost use Rattle.tables.specs.OneReading.{block_fits};
ghost use Rattle.tables.specs.Packed.{unpack};
ghost use Rattle.tables.specs.Meaning.{entry_meant};
ghost use Rattle.listing.specs.Listing.{begins, continues, ext_end, ext_line, extents};
ghost use Rattle.listing.specs.Written.{Put};

use crate::lines::put_ext;
use crate::text::Writer;
use tables::entries;
use tables::entries::{Entry, Page};

// "of pages in consecutive blocks, or of pages not stored"; holes and unmapped pages "no longer join in one run": does the
// second entry go on with the run of the first?
fn goes_on(before: Entry, e: Entry) -> bool
    requires { block_fits (entry_meant before) }
    ensures { result ≡ continues (entry_meant before) (entry_meant e) }
{
    match (before, e) {
        (Entry::Unmapped, Entry::Unmapped) => true,
        (Entry::Hole, Entry::Hole) => true,
        (Entry::Stored(a), Entry::Stored(b)) => b.number() == a.number() + 1,
        _ => false,
    }
}

// Does an extent begin at page p?
fn starts(t: &[u8], f: usize, s: usize, p: usize) -> bool
    requires { (length t.now ≡ table_bytes) × (f < 16) × (s < 8) × (p < 64) }
    ensures { result ≡ begins ((unpack t.now).files f s).map p }
{
    if p == 0 {
        return true;
    }
    let before = entries::entry_at(t, f, s, Page::new(p - 1));
    let e = entries::entry_at(t, f, s, Page::new(p));
    !goes_on(before, e)
}

// The extent that begins at page p, if one does.
fn list_page(t: &[u8], f: usize, s: usize, p: usize, w: &mut Writer)
    requires { (length t.now ≡ table_bytes) × (f < 16) × (s < 8) × (p < 64) × (w.old.at < 4294960000) }
    ensures { Put w.old w.new (cond (begins ((unpack t.now).files f s).map p) (ext_line (eqb s 0) p (((unpack t.now).files f s).map p)) []) × (w.new.at ≤ w.old.at + 16) }
{
    if !starts(t, f, s, p) {
        return;
    }
    let e = entries::entry_at(t, f, s, Page::new(p));
    put_ext(w, s == 0, p, e);
}

// All extents of a file, and the line that closes it.
pub fn list_extents(t: &[u8], f: usize, s: usize, w: &mut Writer)
    requires { (length t.now ≡ table_bytes) × (f < 16) × (s < 8) × (w.old.at < 4294900000) }
    ensures { Put w.old w.new (extents (eqb s 0) ((unpack t.now).files f s).map 64 ++ ext_end) × (w.new.at ≤ w.old.at + 1040) }
{
    for p in 0..64 {
        list_page(t, f, s, p, w);
    }
    put_ext(w, s == 0, 64, Entry::Unmapped);
}

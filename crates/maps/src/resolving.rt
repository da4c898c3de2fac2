// What many pages of a file resolve to: one way up the parents for all of them, with a mask of those that are still unmapped.
ghost use Rattle.std.specs.Prelude.{◌≡◌, ◌+◌, ◌<◌, ◌≤◌, length};
ghost use Rattle.tables.specs.Layout.{table_bytes};
ghost use Rattle.tables.specs.Packed.{unpack};
ghost use Rattle.maps.specs.ManyPages.{AllMapped, EntriesKept, PagesResolved, RangeResolved, UnmappedIn};

use crate::reading;
use tables::entries::{Kept, Page};
use tables::{entries, sets};

// What each of 64 pages resolves to, and how many maps were looked at for all of them.
#[derive(Clone, Copy)]
pub struct ResolvedPages {
    pub kept: [Kept; 64],
    pub looks: u32,
}

// The pages of the mask m that are unmapped in set s; a number from 8 on is no set, and its files have only unmapped entries.
fn unmapped_in(t: &[u8], f: usize, s: usize, m: u64) -> u64
    requires { (length t.now ≡ table_bytes) × (f < 16) }
    ensures { UnmappedIn m ((unpack t.now).files f s).map result }
{
    if 8 <= s {
        return m;
    }
    m & masks::unmapped_pages(t, f, s)
}

// The entries that file f has in set s for the pages of m, in the place of those that are kept.
fn keep_entries(t: &[u8], f: usize, s: usize, m: u64, kept: [Kept; 64]) -> [Kept; 64]
    requires { (length t.now ≡ table_bytes) × (f < 16) × (s < 8) }
    ensures { EntriesKept m ((unpack t.now).files f s).map kept result }
{
    let mut l = kept;
    let mut left = m;
    // The bits of a mask are walked, so no `for` counts them.
    while left != 0 {
        let i = 63 - masks::lowest(left);
        l[i] = Kept::at(t, f, s, Page::new(i));
        left = left & (left - 1);
    }
    l
}

// The same for pages that are all mapped there: of a number from 8 on there are none.
fn keep_mapped(t: &[u8], f: usize, s: usize, m: u64, kept: [Kept; 64]) -> [Kept; 64]
    requires { (length t.now ≡ table_bytes) × (f < 16) × AllMapped m ((unpack t.now).files f s).map }
    ensures { EntriesKept m ((unpack t.now).files f s).map kept result }
{
    if 8 <= s {
        return kept;
    }
    keep_entries(t, f, s, m, kept)
}

// What the pages of the mask m are in set s, at most `level` parents up, and holes for the others. The maps looked at: one
// for each page here, and at each parent one for each page that is unmapped in all maps before.
fn resolve_pages(t: &[u8], f: usize, s: usize, level: usize, m: u64) -> ResolvedPages
    requires { (length t.now ≡ table_bytes) × (f < 16) × (level < 8) }
    ensures { PagesResolved (unpack t.now) f s level m result }
{
    let looks = masks::page_count(m);
    let rest = unmapped_in(t, f, s, m);
    let mapped = m & !rest;
    if rest == 0 || level == 0 {
        return ResolvedPages {
            kept: keep_mapped(t, f, s, mapped, entries::all_holes()),
            looks,
        };
    }
    let up = resolve_pages(t, f, reading::parent_in(t, s), level - 1, rest);
    let above = up.kept;
    ResolvedPages {
        kept: keep_mapped(t, f, s, mapped, above),
        looks: looks + up.looks,
    }
}

// What the pages first, .., first + n - 1 resolve to in set s.
pub fn resolve_range(t: &[u8], f: usize, s: usize, first: usize, n: usize) -> ResolvedPages
    requires { (length t.now ≡ table_bytes) × (f < 16) × (s < 8) × (first + n ≤ 64) }
    ensures { RangeResolved (unpack t.now) f s first n result }
{
    let m = masks::page_range(first, n);
    let level = sets::level_of(t, s);
    resolve_pages(t, f, s, level, m)
}

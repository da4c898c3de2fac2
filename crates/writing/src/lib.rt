// The whole accepted write.
#![tactic(auto)]

ghost use Rattle.std.specs.Prelude.{not, true, ◌++◌, [], ◌≡◌, ◌+◌, ◌-◌, ◌<◌, ◌≤◌, max, length};
ghost use Rattle.base.specs.Count.{count};
ghost use Rattle.rules.specs.Rules as Rules;
ghost use Rattle.rules.specs.State.{tree_of};
ghost use Rattle.rules.specs.Storage.{overlay, real};
ghost use Rattle.tables.specs.Packed.{unpack, well_formed};
ghost use Rattle.copying.specs.Work.{Ready};
ghost use Rattle.changing.specs.Whole.{Changed, start_counts};

use changing::{Totals, dropping};
use copying::giving::Counts;
use copying::{giving, settling};
use entering::reserving;
use tables::{files, header};

// Steps 2 to 5, where m pages from page number `first` on hold the bytes of data, which begin at byte `off` of the file; their groups are the
// pages from `lo` up to `hi`.
fn write_pages(
    t: &mut [u8],
    p: &mut [u8],
    f: usize,
    s: usize,
    lo: usize,
    first: usize,
    m: usize,
    hi: usize,
    off: usize,
    data: &[u8],
    k: Counts,
) -> Totals
    requires { Ready t.old p.old f k × (s < 8) × (((unpack t.old).sets s).used ≡ true) × (lo ≤ first) × (first + m ≤ hi) × (hi ≤ 64) × (off + length «data».now ≤ 32768) × (Rules.own_need real s (Rules.from first m) ((unpack t.old).files f) ≤ k.left) }
    ensures { Changed t.old p.old t.new p.new f k result (Rules.change real (tree_of (unpack t.old).sets) s (Rules.from first m) (Rules.from first m) [] (Rules.from lo (first - lo) ++ Rules.from (first + m) (hi - (first + m))) (overlay off «data».now) (λ n. max n (off + length «data».now))) }
{
    settling::settle_set(t, f, s);
    settling::settle_children(t, f, s);
    let r = reserving::reserve_all(t, f, s, first, m, k);
    let pending = r.pending;
    let a = r.counts;
    let b = giving::give_groups(t, p, f, s, lo, first, m, hi, a);
    entering::enter_all(t, p, pending, f, s, first, m, off, data, b);
    let z = files::size_at(&*t, f, s);
    let n = z.max(off + data.len());
    dropping::resize(t, f, s, n);
    Totals::from(b)
}

// "aligned groups" of so many pages: the first page of the group of a page.
fn group_first(group: usize, page: usize) -> usize
    requires { (0 < group) × (page < 64) }
    ensures { result ≡ Rules.group_first group page }
{
    page / group * group
}

// The page behind the group of a page: "the last group ending at page 63".
fn group_end(group: usize, page: usize) -> usize
    requires { (0 < group) × (group ≤ 64) × (page < 64) }
    ensures { result ≡ Rules.group_end group page }
{
    (group_first(group, page) + group).min(64)
}

// WRITE: the bytes of data, one or more, from byte `off` of file f of set s on, by groups of so many pages.
pub fn write_file(
    t: &mut [u8],
    p: &mut [u8],
    group: usize,
    f: usize,
    s: usize,
    off: usize,
    data: &[u8],
) -> Totals
    requires { (0 < group) × (group ≤ 64) × (well_formed t.old (length p.old) ≡ true) × (f < 16) × (s < 8) × (((unpack t.old).sets s).used ≡ true) × (0 < length «data».now) × (off + length «data».now ≤ 32768) × (Rules.own_need real s (Rules.touched off (length «data».now)) ((unpack t.old).files f) ≤ count (unpack t.old).blocks (λ b. not ((unpack t.old).bits b))) }
    ensures { Changed t.old p.old t.new p.new f start_counts result (Rules.write_file real (tree_of (unpack t.old).sets) group s off «data».now) }
{
    let left = header::free_blocks(&*t);
    let first = off / 512;
    let last = (off + data.len() - 1) / 512;
    let m = last - first + 1;
    let lo = group_first(group, first);
    let hi = group_end(group, last);
    let k = Counts::new(left);
    write_pages(t, p, f, s, lo, first, m, hi, off, data, k)
}

// The whole accepted truncate.
#![tactic(auto)]

ghost use Rattle.std.specs.Prelude.{not, true, [], ◌≡◌, ◌%◌, ◌+◌, ◌-◌, ◌/◌, ◌<◌, ◌≤◌, length};
ghost use Rattle.base.specs.Count.{count};
ghost use Rattle.rules.specs.Reading.{resolve};
ghost use Rattle.rules.specs.Rules as Rules;
ghost use Rattle.rules.specs.State.{tree_of};
ghost use Rattle.rules.specs.Storage.{real, zero_from};
ghost use Rattle.tables.specs.Packed.{unpack, well_formed};
ghost use Rattle.tables.specs.Views.{PackedTables};
ghost use Rattle.copying.specs.Work.{Ready};
ghost use Rattle.changing.specs.Whole.{Changed, ChangedAlone, start_counts};

use changing::{Totals, dropping};
use copying::giving::Counts;
use copying::{giving, settling};
use entering::{reserving, zeroing};
use maps::reading;
use tables::entries::Page;
use tables::{entries, header};

// "Above it, step 2 and the new size only."
fn grow(t: &mut [u8], f: usize, s: usize, n: usize)
    requires { PackedTables t.old × (f < 16) × (s < 8) × (((unpack t.old).sets s).used ≡ true) × (n < 65536) }
    ensures { ChangedAlone t.old t.new f (Rules.change real (tree_of (unpack t.old).sets) s [] [] [] [] (λ q v. v) (λ m. n)) }
{
    settling::settle_set(t, f, s);
    settling::settle_children(t, f, s);
    dropping::resize(t, f, s, n);
}

// Below it, where no page stays stored: m pages from page number `first` on are copied; the d pages behind them are handed over where the
// file's own map stores them, and become holes.
fn cut_away(
    t: &mut [u8],
    p: &mut [u8],
    f: usize,
    s: usize,
    first: usize,
    m: usize,
    d: usize,
    n: usize,
    k: Counts,
) -> Totals
    requires { Ready t.old p.old f k × (s < 8) × (((unpack t.old).sets s).used ≡ true) × (first + m + d ≤ 64) × (n < 65536) }
    ensures { Changed t.old p.old t.new p.new f k result (Rules.change real (tree_of (unpack t.old).sets) s (Rules.from first m) [] (Rules.from (first + m) d) [] (λ q. zero_from (n % 512)) (λ i. n)) }
{
    settling::settle_set(t, f, s);
    settling::settle_children(t, f, s);
    let b = giving::give_all(t, p, f, s, first, m, d, k);
    dropping::drop_pages(t, f, s, first + m, d);
    dropping::resize(t, f, s, n);
    Totals::from(b)
}

// Below it, where the page of the new size stays stored: it is copied; the m - 1 pages behind it are handed over where the file's own map
// stores them, and become holes.
fn cut_kept(
    t: &mut [u8],
    p: &mut [u8],
    f: usize,
    s: usize,
    first: usize,
    m: usize,
    n: usize,
    k: Counts,
) -> Totals
    requires { Ready t.old p.old f k × (s < 8) × (((unpack t.old).sets s).used ≡ true) × (0 < m) × (first + m ≤ 64) × (n < 65536) × (Rules.own_need real s (Rules.from first 1) ((unpack t.old).files f) ≤ k.left) }
    ensures { Changed t.old p.old t.new p.new f k result (Rules.change real (tree_of (unpack t.old).sets) s (Rules.from first 1) (Rules.from first 1) (Rules.from (first + 1) (m - 1)) [] (λ q. zero_from (n % 512)) (λ i. n)) }
{
    settling::settle_set(t, f, s);
    settling::settle_children(t, f, s);
    let r = reserving::reserve_all(t, f, s, first, 1, k);
    let pending = r.pending;
    let own = pending[first];
    let a = r.counts;
    let b = giving::give_all(t, p, f, s, first, 1, m - 1, a);
    zeroing::enter_cut(t, p, own, f, s, Page::new(first), n % 512, b);
    dropping::drop_pages(t, f, s, first + 1, m - 1);
    dropping::resize(t, f, s, n);
    Totals::from(b)
}

// Below it: the size becomes n, which was z.
fn cut(t: &mut [u8], p: &mut [u8], f: usize, s: usize, n: usize, z: usize, k: Counts) -> Totals
    requires { Ready t.old p.old f k × (s < 8) × (((unpack t.old).sets s).used ≡ true) × (n < z) × (z ≤ 32768) × (Rules.own_need real s (Rules.kept_pages n (resolve (tree_of (unpack t.old).sets) ((unpack t.old).files f) s (n / 512))) ((unpack t.old).files f) ≤ k.left) }
    ensures { Changed t.old p.old t.new p.new f k result (Rules.change real (tree_of (unpack t.old).sets) s (Rules.part_pages n) (Rules.kept_pages n (resolve (tree_of (unpack t.old).sets) ((unpack t.old).files f) s (n / 512))) (Rules.dropped_pages n z) [] (λ q. zero_from (n % 512)) (λ i. n)) }
{
    let first = n / 512;
    let m = (z - 1) / 512 - first + 1;
    if n % 512 == 0 {
        return cut_away(t, p, f, s, first, 0, m, n, k);
    }
    let r = reading::resolve_in(&*t, f, Page::new(first), s);
    let e = r.entry;
    if !entries::is_stored(e) {
        return cut_away(t, p, f, s, first, 1, m - 1, n, k);
    }
    cut_kept(t, p, f, s, first, m, n, k)
}

// TRUNCATE file f of set s to n bytes. "At t equal to the size, nothing changes."
pub fn truncate_file(t: &mut [u8], p: &mut [u8], f: usize, s: usize, n: usize) -> Totals
    requires { (well_formed t.old (length p.old) ≡ true) × (f < 16) × (s < 8) × (((unpack t.old).sets s).used ≡ true) × (n ≤ 32768) × (Rules.truncate_need real (tree_of (unpack t.old).sets) s n ((unpack t.old).files f) ≤ count (unpack t.old).blocks (λ b. not ((unpack t.old).bits b))) }
    ensures { Changed t.old p.old t.new p.new f start_counts result (Rules.truncate_file real (tree_of (unpack t.old).sets) s n) }
{
    let none = Totals {
        taken: 0,
        copies: 0,
        marks: 0,
    };
    let z = reading::size_of(&*t, f, s);
    if n == z {
        return none;
    }
    if z < n {
        grow(t, f, s, n);
        return none;
    }
    let left = header::free_blocks(&*t);
    let k = Counts::new(left);
    cut(t, p, f, s, n, z, k)
}

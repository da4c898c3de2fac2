// Step 4: "For each touched page ascending, for each child in order of making that needs it"; and of pages dropped whole: "the
// first child that needs it takes over the block itself. Other children needing it still get copies." After it the extra pages of
// a write, "ascending, children in order of making, with the same copying".
ghost use Rattle.std.specs.Prelude.{◌&&◌, true, ◌++◌, ◌≡◌, ℕ, ◌+◌, ◌-◌, ◌<◌, ◌≤◌, length, Some};
ghost use Rattle.rules.specs.Rules as Rules;
ghost use Rattle.rules.specs.State.{is_stored, live, stored, tree_of};
ghost use Rattle.rules.specs.Storage.{real};
ghost use Rattle.tables.specs.Layout.{table_bytes};
ghost use Rattle.tables.specs.Packed.{unpack};
ghost use Rattle.tables.specs.Meaning.{entry_meant};
ghost use Rattle.tables.specs.Views.{PackedTables};
ghost use Rattle.copying.specs.Work.{Alone, FirstChild, counts_new, Ready, ShownKept, Step, give_as, give_both, give_chain, give_groups, giving_of, hand_if, handed_by, shown, touched_by};
ghost use Rattle.copying.specs.Heirs.{TurnsFound};

use crate::marking;
use maps::resolving;
use tables::entries::{Block, Entry, Kept, Page};
use tables::{entries, header, sets};

// The counts of a call, and the free blocks that are left.
#[derive(Clone, Copy)]
pub struct Counts {
    pub taken: u32,
    pub copies: u32,
    pub marks: u32,
    pub left: u32,
}

impl Counts {
    // The counts that a call begins with, where `left` blocks are free.
    pub fn new(left: u32) -> Counts
        ensures { result ≡ counts_new left }
    {
        Counts {
            taken: 0,
            copies: 0,
            marks: 0,
            left,
        }
    }
}

// "One resolving to stored is copied to a block taken": block b, for a page of set c.
fn copy_to(
    t: &mut [u8],
    p: &mut [u8],
    f: usize,
    c: usize,
    page: Page,
    b: Block,
    k: Counts,
) -> Counts
    requires { Ready t.old p.old f k × (c < 8) × (page.0 < 64) × (b.0 < (unpack t.old).blocks) × (0 < k.left) }
    ensures { Step t.old p.old t.new p.new f k result (Rules.copy real (tree_of (unpack t.old).sets) b.0 c page.0) }
{
    let d = entries::take_block(t);
    pages::copy_page(p, b, d);
    entries::put_entry(t, f, c, page, Entry::Stored(d));
    Counts {
        copies: k.copies + 1,
        left: k.left - 1,
        ..k
    }
}

// How pages are given to the children that need them: copied; handed over, to the first of them, where the file's own map stores
// the page, and copied for the others; or, as extra pages, copied where a block is free and else left. The three differ in two tests, so an
// enum says it and no closure.
#[derive(Clone, Copy)]
enum How {
    Copied,
    Handed,
    Extra,
}

// A stored page for set c: copied; or "with none free, the child's file is marked", where it must be copied. An extra page "stays
// unmapped". "A later copy in the same call may take these blocks": the free ones are counted again.
fn give_block(
    t: &mut [u8],
    p: &mut [u8],
    f: usize,
    c: usize,
    page: Page,
    b: Block,
    must: bool,
    k: Counts,
) -> Counts
    requires { Ready t.old p.old f k × (c < 8) × (page.0 < 64) × (b.0 < (unpack t.old).blocks) × (live ((unpack t.old).files f c).state ≡ true) }
    ensures { Step t.old p.old t.new p.new f k result (Rules.supply real (tree_of (unpack t.old).sets) must (stored b.0) c page.0) }
{
    if k.left == 0 {
        if !must {
            return k;
        }
        let n = marking::mark_down(t, f, c);
        return Counts {
            marks: k.marks + n,
            left: header::free_blocks(&*t),
            ..k
        };
    }
    copy_to(t, p, f, c, page, b, k)
}

// What a page resolved to, for set c.
fn supply(
    t: &mut [u8],
    p: &mut [u8],
    f: usize,
    c: usize,
    page: Page,
    e: Entry,
    must: bool,
    k: Counts,
) -> Counts
    requires { Ready t.old p.old f k × (c < 8) × (page.0 < 64) × ((b : ℕ) → entry_meant e ≡ stored b → b < (unpack t.old).blocks) × (live ((unpack t.old).files f c).state ≡ true) }
    ensures { Step t.old p.old t.new p.new f k result (Rules.supply real (tree_of (unpack t.old).sets) must (entry_meant e) c page.0) }
{
    match e {
        Entry::Unmapped => k,
        Entry::Hole => {
            entries::put_entry(t, f, c, page, Entry::Hole);
            k
        }
        Entry::Stored(b) => give_block(t, p, f, c, page, b, must, k),
    }
}

// Child c's turn for a page that resolves to e.
fn give(
    t: &mut [u8],
    p: &mut [u8],
    f: usize,
    page: Page,
    e: Entry,
    c: usize,
    must: bool,
    k: Counts,
) -> Counts
    requires { Ready t.old p.old f k × (page.0 < 64) × ((b : ℕ) → entry_meant e ≡ stored b → b < (unpack t.old).blocks) × (c < 8) }
    ensures { Step t.old p.old t.new p.new f k result (give_as (tree_of (unpack t.old).sets) must (entry_meant e) page.0 c) }
{
    if !maps::marking::needs(&*t, f, c, page) {
        return k;
    }
    supply(t, p, f, c, page, e, must, k)
}

// The turns of set `first` and the sets behind it in its chain, `most` at most, for a page that resolves to e.
fn give_chain(
    t: &mut [u8],
    p: &mut [u8],
    f: usize,
    page: Page,
    e: Entry,
    first: usize,
    most: usize,
    must: bool,
    k: Counts,
) -> Counts
    requires { Ready t.old p.old f k × (page.0 < 64) × ((b : ℕ) → entry_meant e ≡ stored b → b < (unpack t.old).blocks) × (most ≤ 8) }
    ensures { Step t.old p.old t.new p.new f k result (give_chain (unpack t.old).sets must (entry_meant e) page.0 most first) }
{
    let mut w = k;
    let mut c = first;
    for _ in 0..most {
        if 8 <= c {
            return w;
        }
        w = give(t, p, f, page, e, c, must, w);
        c = sets::next_sibling_of(&*t, c);
    }
    w
}

// Who has a turn at a page: set `next` and the sets behind it in its chain, `most` at most; then the heir, if there is one, takes the page over.
// `next` stays a link as the tables have it, 8 where no set follows: the loop over the chain reads its other links from the tables too.
#[derive(Clone, Copy)]
struct InTurn {
    heir: Option<usize>,
    next: usize,
    most: usize,
}

// Is a page so given a touched one, and so a copy of it a needed copy?
fn is_touched(how: How) -> bool
    ensures { result ≡ touched_by how }
{
    matches!(how, How::Copied | How::Handed)
}

// Is a page of set s handed over, where pages are: is it "stored in the file's own map"?
fn is_handed(t: &[u8], f: usize, s: usize, page: Page, how: How) -> bool
    requires { (length t.now ≡ table_bytes) × (f < 16) × (s < 8) × (page.0 < 64) }
    ensures { result ≡ (handed_by how && is_stored (((unpack t.now).files f s).map page.0)) }
{
    matches!(how, How::Handed) && entries::is_stored(entries::entry_at(t, f, s, page))
}

// The heir is the first of set `child` and the sets behind it in its chain that needs the page; those behind the heir have turns.
fn behind_heir(t: &[u8], f: usize, page: Page, child: usize) -> InTurn
    requires { (length t.now ≡ table_bytes) × (f < 16) × (page.0 < 64) }
    ensures { TurnsFound (unpack t.now) f page.0 child true result }
{
    let mut c = child;
    for n in (0..8).rev() {
        if 8 <= c {
            break;
        }
        let next = sets::next_sibling_of(t, c);
        if maps::marking::needs(t, f, c, page) {
            return InTurn {
                heir: Some(c),
                next,
                most: n,
            };
        }
        c = next;
    }
    InTurn {
        heir: None,
        next: 8,
        most: 0,
    }
}

// All children have turns, or, where the page is handed over, those behind the heir; the first child is `child`.
fn in_turn(t: &[u8], f: usize, page: Page, child: usize, over: bool) -> InTurn
    requires { (length t.now ≡ table_bytes) × (f < 16) × (page.0 < 64) }
    ensures { TurnsFound (unpack t.now) f page.0 child over result }
{
    if !over {
        return InTurn {
            heir: None,
            next: child,
            most: 8,
        };
    }
    behind_heir(t, f, page, child)
}

// The entry that a page has in set s, e, moves to the map of the heir, if there is one.
fn hand_over(t: &mut [u8], f: usize, s: usize, page: Page, e: Entry, heir: Option<usize>)
    requires { PackedTables t.old × (f < 16) × (s < 8) × (page.0 < 64) × ((c : ℕ) → heir ≡ Some c → (c < 8) × (entry_meant e ≡ ((unpack t.old).files f s).map page.0)) × ((b : ℕ) → entry_meant e ≡ stored b → b < 4096) }
    ensures { Alone t.old t.new f (hand_if (tree_of (unpack t.old).sets) s page.0 heir) }
{
    if let Some(c) = heir {
        entries::put_entry(t, f, c, page, e);
        entries::put_entry(t, f, s, page, Entry::Hole);
    }
}

// A page of set s, which resolves to e, for each child; the first child is `child`. Where it is handed over, the others get their copies before
// the block moves.
fn give_page(
    t: &mut [u8],
    p: &mut [u8],
    f: usize,
    s: usize,
    page: Page,
    e: Entry,
    child: usize,
    how: How,
    k: Counts,
) -> Counts
    requires { Ready t.old p.old f k × (s < 8) × (page.0 < 64) × FirstChild (unpack t.old).sets s child × (entry_meant e ≡ shown t.old f s page.0) }
    ensures { Step t.old p.old t.new p.new f k result (Rules.give_page real (tree_of (unpack t.old).sets) (giving_of how) s page.0) }
{
    let over = is_handed(&*t, f, s, page, how);
    let r = in_turn(&*t, f, page, child, over);
    let w = give_chain(t, p, f, page, e, r.next, r.most, is_touched(how), k);
    hand_over(t, f, s, page, e, r.heir);
    w
}

// Each of m pages of set s from page number `first` on; what they resolve to is kept, the first child is `child`.
fn give_pages(
    t: &mut [u8],
    p: &mut [u8],
    kept: [Kept; 64],
    f: usize,
    s: usize,
    first: usize,
    m: usize,
    child: usize,
    how: How,
    k: Counts,
) -> Counts
    requires { Ready t.old p.old f k × (s < 8) × (first + m ≤ 64) × FirstChild (unpack t.old).sets s child × ShownKept kept t.old f s first m }
    ensures { Step t.old p.old t.new p.new f k result (Rules.give_all real (tree_of (unpack t.old).sets) (giving_of how) s (Rules.from first m)) }
{
    let mut w = k;
    for q in first..first + m {
        let x = kept[q];
        w = give_page(t, p, f, s, Page::new(q), x.entry(), child, how, w);
    }
    w
}

// The whole step: m pages of set s from page number `first` on are copied, the d pages behind them handed over where the file's own map
// stores them. What the pages resolve to is found first, for all at once, since giving a page does not change it for the others.
pub fn give_all(
    t: &mut [u8],
    p: &mut [u8],
    f: usize,
    s: usize,
    first: usize,
    m: usize,
    d: usize,
    k: Counts,
) -> Counts
    requires { Ready t.old p.old f k × (s < 8) × (first + m + d ≤ 64) × (((unpack t.old).sets s).used ≡ true) }
    ensures { Step t.old p.old t.new p.new f k result (give_both (unpack t.old).sets s (Rules.from first m) (Rules.from (first + m) d)) }
{
    let child = sets::first_child_of(&*t, s);
    if 8 <= child {
        return k;
    }
    let r = resolving::resolve_range(&*t, f, s, first, m + d);
    let kept = r.kept;
    let a = give_pages(t, p, kept, f, s, first, m, child, How::Copied, k);
    give_pages(t, p, kept, f, s, first + m, d, child, How::Handed, a)
}

// The whole step of a write, and then the extra pages: m pages of set s from page number `first` on are copied; then those from `lo` up to
// them and those behind them up to `hi`, each copy only if a block is free.
pub fn give_groups(
    t: &mut [u8],
    p: &mut [u8],
    f: usize,
    s: usize,
    lo: usize,
    first: usize,
    m: usize,
    hi: usize,
    k: Counts,
) -> Counts
    requires { Ready t.old p.old f k × (s < 8) × (lo ≤ first) × (first + m ≤ hi) × (hi ≤ 64) × (((unpack t.old).sets s).used ≡ true) }
    ensures { Step t.old p.old t.new p.new f k result (give_groups (unpack t.old).sets s (Rules.from first m) (Rules.from lo (first - lo) ++ Rules.from (first + m) (hi - (first + m)))) }
{
    let child = sets::first_child_of(&*t, s);
    if 7 < child {
        return k;
    }
    let r = resolving::resolve_range(&*t, f, s, lo, hi - lo);
    let kept = r.kept;
    let a = give_pages(t, p, kept, f, s, first, m, child, How::Copied, k);
    let b = give_pages(t, p, kept, f, s, lo, first - lo, child, How::Extra, a);
    give_pages(
        t,
        p,
        kept,
        f,
        s,
        first + m,
        hi - (first + m),
        child,
        How::Extra,
        b,
    )
}

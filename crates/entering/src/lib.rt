// Steps 3 and 5 for the pages that get a block: own blocks are taken and pending (`reserving`); then "Old bytes are carried to own
// pages, new bytes laid over", and the block enters the map; or a page "is zeroed from t on" (`zeroing`).
// Each function is its rule (rules/specs/Rules.antt), on what the tables and the pages hold.
#![tactic(auto)]

ghost use Rattle.std.specs.Prelude.{◌&&◌, ◌≡◌, ℕ, ◌*◌, ◌+◌, ◌<◌, ◌≤◌, leb, length};
ghost use Rattle.base.specs.Update.{upd};
ghost use Rattle.rules.specs.Reading.{resolve};
ghost use Rattle.rules.specs.Rules as Rules;
ghost use Rattle.rules.specs.State.{stored, tree_of};
ghost use Rattle.rules.specs.Storage.{overlay, real};
ghost use Rattle.tables.specs.Calls.{pages_of};
ghost use Rattle.tables.specs.Packed.{unpack};
ghost use Rattle.tables.specs.Meaning.{entry_meant};
ghost use Rattle.tables.specs.Views.{pending_of};
ghost use Rattle.copying.specs.Work.{Ready, Step};
ghost use Rattle.entering.specs.Pending.{Carried, OwnIn, PendingIn, StepAt, StepWith, bytes_of, enters_as};

use copying::giving::Counts;
use maps::reading;
use tables::entries;
use tables::entries::{Block, Entry, Page, Pending};

pub mod reserving;
pub mod zeroing;

// The bytes of a page that resolved to e, in block b.
pub fn prepare(p: &mut [u8], e: Entry, b: Block)
    requires { (b.0 * 512 + 512 ≤ length p.old) × ((a : ℕ) → entry_meant e ≡ stored a → a * 512 + 512 ≤ length p.old) }
    ensures { pages_of p.new ≡ upd (pages_of p.old) b.0 (bytes_of (pages_of p.old) (entry_meant e)) }
{
    match e {
        Entry::Unmapped | Entry::Hole => pages::zero_page(p, b),
        Entry::Stored(a) => pages::copy_page(p, a, b),
    }
}

// Do n bytes from byte `off` of the file on cover the page whole?
fn covers(page: Page, off: usize, n: usize) -> bool
    requires { (page.0 < 64) × (off + n ≤ 32768) }
    ensures { result ≡ (leb off (page.0 * 512) && leb (page.0 * 512 + 512) (off + n)) }
{
    let start = page.number() * 512;
    off <= start && start + 512 <= off + n
}

// Old bytes are carried to block b, unless the n bytes from `off` on that will be laid over the page cover it whole.
fn carry(
    t: &[u8],
    p: &mut [u8],
    f: usize,
    s: usize,
    page: Page,
    b: Block,
    off: usize,
    n: usize,
    k: Counts,
)
    requires { Ready t.now p.old f k × (s < 8) × (page.0 < 64) × (b.0 < (unpack t.now).blocks) × (off + n ≤ 32768) }
    ensures { Carried (pages_of p.old) (pages_of p.new) b.0 page.0 off n (resolve (tree_of (unpack t.now).sets) ((unpack t.now).files f) s page.0) }
{
    if covers(page, off, n) {
        return;
    }
    let r = reading::resolve_in(t, f, page, s);
    let old = r.entry;
    prepare(p, old, b);
}

// A page gets block b and the bytes of data that fall on it.
fn enter_block(
    t: &mut [u8],
    p: &mut [u8],
    f: usize,
    s: usize,
    page: Page,
    b: Block,
    off: usize,
    data: &[u8],
    k: Counts,
)
    requires { Ready t.old p.old f k × (s < 8) × (page.0 < 64) × (b.0 < (unpack t.old).blocks) × (off + length «data».now ≤ 32768) }
    ensures { Step t.old p.old t.new p.new f k k (enters_as (tree_of (unpack t.old).sets) (resolve (tree_of (unpack t.old).sets) ((unpack t.old).files f) s page.0) b.0 s page.0 (overlay off «data».now page.0)) }
{
    carry(&*t, p, f, s, page, b, off, data.len(), k);
    pages::lay_bytes(p, b, page, off, data);
    entries::put_entry(t, f, s, page, Entry::Stored(b));
}

// A page of set s, if a block is pending for it.
fn enter(
    t: &mut [u8],
    p: &mut [u8],
    own: Pending,
    f: usize,
    s: usize,
    page: Page,
    off: usize,
    data: &[u8],
    k: Counts,
)
    requires { Ready t.old p.old f k × OwnIn own (unpack t.old).blocks × (s < 8) × (page.0 < 64) × (off + length «data».now ≤ 32768) }
    ensures { StepWith own page.0 t.old p.old t.new p.new f k (Rules.enter real (tree_of (unpack t.old).sets) s (overlay off «data».now) page.0) }
{
    if let Entry::Stored(b) = own.held() {
        enter_block(t, p, f, s, page, b, off, data, k);
    }
}

// Each of m pages of set s from page number `first` on.
pub fn enter_all(
    t: &mut [u8],
    p: &mut [u8],
    pending: [Pending; 64],
    f: usize,
    s: usize,
    first: usize,
    m: usize,
    off: usize,
    data: &[u8],
    k: Counts,
)
    requires { Ready t.old p.old f k × PendingIn pending (unpack t.old).blocks × (s < 8) × (first + m ≤ 64) × (off + length «data».now ≤ 32768) }
    ensures { StepAt (pending_of pending) t.old p.old t.new p.new f k (Rules.each (Rules.enter real (tree_of (unpack t.old).sets) s (overlay off «data».now)) (Rules.from first m)) }
{
    for q in first..first + m {
        let own = pending[q];
        enter(t, p, own, f, s, Page::new(q), off, data, k);
    }
}

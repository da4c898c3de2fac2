// Step 5 of a truncate, for the page of the new size: its bytes are carried, zeroed from there on, and its block enters the map.
ghost use Rattle.std.specs.Prelude.{◌≡◌, ℕ, ◌<◌, ◌≤◌};
ghost use Rattle.rules.specs.Rules as Rules;
ghost use Rattle.rules.specs.State.{stored, tree_of};
ghost use Rattle.rules.specs.Storage.{real, zero_from};
ghost use Rattle.tables.specs.Meaning.{entry_meant};
ghost use Rattle.tables.specs.Packed.{unpack};
ghost use Rattle.copying.specs.Work.{Ready, Step};
ghost use Rattle.entering.specs.Pending.{OwnIn, StepWith, enters_as};

use crate::prepare;
use copying::giving::Counts;
use maps::reading;
use tables::entries;
use tables::entries::{Block, Entry, Page, Pending};

// A page, which resolved to e, gets block b and its bytes, zeroed from byte n on.
fn cut_block(
    t: &mut [u8],
    p: &mut [u8],
    f: usize,
    s: usize,
    page: Page,
    e: Entry,
    b: Block,
    n: usize,
    k: Counts,
)
    requires { Ready t.old p.old f k × (s < 8) × (page.0 < 64) × (b.0 < (unpack t.old).blocks) × ((a : ℕ) → entry_meant e ≡ stored a → a < (unpack t.old).blocks) × (n ≤ 512) }
    ensures { Step t.old p.old t.new p.new f k k (enters_as (tree_of (unpack t.old).sets) (entry_meant e) b.0 s page.0 (zero_from n)) }
{
    prepare(p, e, b);
    pages::zero_tail(p, b, n);
    entries::put_entry(t, f, s, page, Entry::Stored(b));
}

// A page of set s, if a block is pending for it: it "is zeroed from t on".
pub fn enter_cut(
    t: &mut [u8],
    p: &mut [u8],
    own: Pending,
    f: usize,
    s: usize,
    page: Page,
    n: usize,
    k: Counts,
)
    requires { Ready t.old p.old f k × OwnIn own (unpack t.old).blocks × (s < 8) × (page.0 < 64) × (n ≤ 512) }
    ensures { StepWith own page.0 t.old p.old t.new p.new f k (Rules.enter real (tree_of (unpack t.old).sets) s (λ q. zero_from n) page.0) }
{
    if let Entry::Stored(b) = own.held() {
        let r = reading::resolve_in(&*t, f, page, s);
        cut_block(t, p, f, s, page, r.entry, b, n, k);
    }
}

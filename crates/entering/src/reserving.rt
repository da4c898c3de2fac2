// Step 3: "Own blocks are taken, pages ascending; they enter the map in step 5." Until then they stand in an array.
ghost use Rattle.std.specs.Prelude.{◌≡◌, false, not, ◌+◌, ◌<◌, ◌≤◌};
ghost use Rattle.base.specs.Count.{count};
ghost use Rattle.rules.specs.Rules as Rules;
ghost use Rattle.rules.specs.State.{is_stored, tree_of};
ghost use Rattle.rules.specs.Storage.{real};
ghost use Rattle.tables.specs.Packed.{unpack};
ghost use Rattle.tables.specs.Views.{HeaderIn, PackedTables, none_pending};
ghost use Rattle.copying.specs.Work.{Sound};
ghost use Rattle.entering.specs.Pending.{Reserved, Reserves, TakenOwn};

use copying::giving::Counts;
use tables::entries;
use tables::entries::{Block, Entry, Page, Pending};

// The block that a page will have, and the counts then.
#[derive(Clone, Copy)]
struct OwnBlock {
    block: Block,
    counts: Counts,
}

// The blocks that are pending for pages, and the counts then.
#[derive(Clone, Copy)]
pub struct Reservation {
    pub pending: [Pending; 64],
    pub counts: Counts,
}

// A block is taken.
fn take_own(t: &mut [u8], k: Counts) -> OwnBlock
    requires { PackedTables t.old × HeaderIn (unpack t.old) × (0 < count (unpack t.old).blocks (λ b. not ((unpack t.old).bits b))) × (0 < k.left) × (k.taken ≤ 36864) }
    ensures { TakenOwn t.old t.new k result.block.0 result.counts }
{
    let b = entries::take_block(t);
    let c = Counts {
        taken: k.taken + 1,
        left: k.left - 1,
        ..k
    };
    OwnBlock {
        block: b,
        counts: c,
    }
}

// A page of set s: the block of its entry, or one taken.
fn reserve(t: &mut [u8], f: usize, s: usize, page: Page, k: Counts) -> OwnBlock
    requires { PackedTables t.old × Sound (unpack t.old) f k × (f < 16) × (s < 8) × (page.0 < 64) × (is_stored (((unpack t.old).files f s).map page.0) ≡ false → 0 < k.left) }
    ensures { Reserved t.old t.new f s page.0 k result.block.0 result.counts }
{
    let e = entries::entry_at(&*t, f, s, page);
    match e {
        Entry::Unmapped | Entry::Hole => take_own(t, k),
        Entry::Stored(b) => OwnBlock {
            block: b,
            counts: k,
        },
    }
}

// Each of m pages of set s from page number `first` on: its block is pending.
pub fn reserve_all(
    t: &mut [u8],
    f: usize,
    s: usize,
    first: usize,
    m: usize,
    k: Counts,
) -> Reservation
    requires { PackedTables t.old × Sound (unpack t.old) f k × (f < 16) × (s < 8) × (first + m ≤ 64) × (Rules.own_need real s (Rules.from first m) ((unpack t.old).files f) ≤ k.left) }
    ensures { Reserves t.old t.new none_pending result.pending f k result.counts (Rules.each (Rules.reserve real (tree_of (unpack t.old).sets) s) (Rules.from first m)) }
{
    let mut pending = entries::none_pending();
    let mut w = k;
    for q in first..first + m {
        let own = reserve(t, f, s, Page::new(q), w);
        let b = own.block;
        pending[q] = Pending::of(b);
        w = own.counts;
    }
    Reservation { pending, counts: w }
}

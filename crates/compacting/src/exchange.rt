// Two blocks exchanged: entries, bits and pages.
ghost use Rattle.std.specs.Prelude.{false, true, ◌≡◌, ◌*◌, ◌+◌, ◌<◌, ◌≤◌, length};
ghost use Rattle.base.specs.Update.{upd};
ghost use Rattle.compaction.specs.Compact.{entry_in};
ghost use Rattle.rules.specs.State.{stored};
ghost use Rattle.tables.specs.Calls.{pages_of};
ghost use Rattle.tables.specs.Meaning.{entry_meant};
ghost use Rattle.tables.specs.Packed.{unpack};
ghost use Rattle.compacting.specs.Exchange.{Lent, Owned, Swap};
ghost use Rattle.compacting.specs.Owners.{OwnersOf};

use crate::owners::Owners;
use crate::places;
use tables::entries;
use tables::entries::{Block, Entry};

// The pages in blocks a and b, which are two, change places, byte by byte through the spare page. Either may stand first, so
// that a split into two slices would be no plainer.
fn swap_pages(pages: &mut [u8], spare: &mut [u8], a: Block, b: Block)
    requires { (a.0 ≡ b.0 → ⊥) × (a.0 * 512 + 512 ≤ length pages.old) × (b.0 * 512 + 512 ≤ length pages.old) × (length spare.old ≡ 512) }
    ensures { pages_of pages.new ≡ upd (upd (pages_of pages.old) a.0 (pages_of pages.old b.0)) b.0 (pages_of pages.old a.0) }
{
    let x = a.number() * 512;
    let y = b.number() * 512;
    for i in 0..512 {
        spare[i] = pages[x + i];
        pages[x + i] = pages[y + i];
        pages[y + i] = spare[i];
    }
}

// The entry at place n, which names block b, gets block k, which is free.
fn move_to(t: &mut [u8], p: &mut [u8], n: usize, k: usize, b: Block)
    requires { Lent t.old p.old × (n < 8192) × (entry_in (unpack t.old).files n ≡ stored b.0) × (k < (unpack t.old).blocks) × ((unpack t.old).bits k ≡ false) }
    ensures { Swap k b.0 t.old p.old t.new p.new }
{
    let c = entries::take_at(t, k);
    pages::copy_page(p, b, c);
    places::put_in(t, n, Entry::Stored(c));
    entries::release_block(t, b);
}

// The entries at places n and o, which name the blocks b and c, which are two, exchange them.
fn exchange(t: &mut [u8], p: &mut [u8], spare: &mut [u8], n: usize, o: usize, b: Block, c: Block)
    requires { Lent t.old p.old × (n < 8192) × (o < 8192) × (entry_in (unpack t.old).files n ≡ stored b.0) × (entry_in (unpack t.old).files o ≡ stored c.0) × (length spare.old ≡ 512) × (c.0 ≡ b.0 → ⊥) }
    ensures { Swap c.0 b.0 t.old p.old t.new p.new }
{
    swap_pages(p, spare, c, b);
    places::put_in(t, n, Entry::Stored(c));
    places::put_in(t, o, Entry::Stored(b));
}

// The same, where the entry e at place o is known to name block k.
fn exchange_with(
    t: &mut [u8],
    p: &mut [u8],
    spare: &mut [u8],
    n: usize,
    o: usize,
    k: usize,
    b: Block,
    e: Entry,
)
    requires { Lent t.old p.old × (n < 8192) × (o < 8192) × (entry_in (unpack t.old).files n ≡ stored b.0) × (entry_in (unpack t.old).files o ≡ stored k) × (entry_meant e ≡ stored k) × (length spare.old ≡ 512) × (k ≡ b.0 → ⊥) }
    ensures { Swap k b.0 t.old p.old t.new p.new }
{
    match e {
        Entry::Unmapped | Entry::Hole => {}
        Entry::Stored(c) => exchange(t, p, spare, n, o, b, c),
    }
}

// The entry at place n, which names block b, gets block k: it has it, k is free, or a later entry, its owner, names k.
pub fn place_block(
    t: &mut [u8],
    p: &mut [u8],
    spare: &mut [u8],
    owners: &mut Owners,
    n: usize,
    k: usize,
    b: Block,
)
    requires { Lent t.old p.old × (n < 8192) × (entry_in (unpack t.old).files n ≡ stored b.0) × (k < (unpack t.old).blocks) × ((unpack t.old).bits k ≡ true → Owned t.old k n) × (length spare.old ≡ 512) × OwnersOf t.old owners.old n }
    ensures { Swap k b.0 t.old p.old t.new p.new × OwnersOf t.new owners.new (n + 1) }
{
    if k == b.number() {
        return;
    }
    if !entries::is_used(&*t, k) {
        move_to(t, p, n, k, b);
        return;
    }
    owners.window(&*t, n, k);
    let o = owners.owner_of(k);
    exchange_with(t, p, spare, n, o, k, b, places::entry_in(&*t, o));
    owners.note(b.number(), o);
}

// Every entry in order, and the next start.
ghost use Rattle.std.specs.Prelude.{◌≡◌, ◌%◌, ◌*◌, ◌+◌, ◌<◌, ◌≤◌, length};
ghost use Rattle.base.specs.Logic.{digit};
ghost use Rattle.compaction.specs.Compact.{entry_in};
ghost use Rattle.rules.specs.State.{is_stored};
ghost use Rattle.tables.specs.Calls.{store_of};
ghost use Rattle.tables.specs.Meaning.{entry_meant};
ghost use Rattle.tables.specs.Packed.{unpack};
ghost use Rattle.compacting.specs.Exchange.{Lent};
ghost use Rattle.compacting.specs.Gathering.{Compacted, Gathered, InOrder};
ghost use Rattle.compacting.specs.Owners.{OwnersOf};

use crate::owners::Owners;
use crate::{exchange, places};
use tables::entries::Entry;
use tables::header;

// How many blocks are given after an entry e, where k were before it.
fn given(k: usize, e: Entry) -> usize
    requires { k < 8192 }
    ensures { result ≡ k + digit (is_stored (entry_meant e)) }
{
    match e {
        Entry::Unmapped | Entry::Hole => k,
        Entry::Stored(_) => k + 1,
    }
}

// The entry e at place n gets block k where it is stored.
fn place_entry(
    t: &mut [u8],
    p: &mut [u8],
    spare: &mut [u8],
    owners: &mut Owners,
    n: usize,
    k: usize,
    e: Entry,
)
    requires { Lent t.old p.old × InOrder (store_of t.old p.old) n k × (n < 8192) × (entry_meant e ≡ entry_in (unpack t.old).files n) × (length spare.old ≡ 512) × OwnersOf t.old owners.old n }
    ensures { Gathered t.old p.old t.new p.new (n + 1) (k + digit (is_stored (entry_meant e))) × OwnersOf t.new owners.new (n + 1) }
{
    match e {
        Entry::Unmapped | Entry::Hole => {}
        Entry::Stored(b) => exchange::place_block(t, p, spare, owners, n, k, b),
    }
}

// The four entries from page 4 * g of file record r on get their blocks. How many are given afterwards.
fn place_four(
    t: &mut [u8],
    p: &mut [u8],
    spare: &mut [u8],
    owners: &mut Owners,
    mut k: usize,
    r: usize,
    g: usize,
) -> usize
    requires { Lent t.old p.old × InOrder (store_of t.old p.old) (r * 64 + g * 4) k × (r < 128) × (g < 16) × (length spare.old ≡ 512) × OwnersOf t.old owners.old (r * 64 + g * 4) }
    ensures { Gathered t.old p.old t.new p.new (r * 64 + g * 4 + 4) result × OwnersOf t.new owners.new (r * 64 + g * 4 + 4) }
{
    for q in 0..4 {
        let e = places::entry_of(&*t, r, g * 4 + q);
        place_entry(t, p, spare, owners, r * 64 + g * 4 + q, k, e);
        k = given(k, e);
    }
    k
}

// The same, where four entries of which none is stored are passed over.
fn place_group(
    t: &mut [u8],
    p: &mut [u8],
    spare: &mut [u8],
    owners: &mut Owners,
    k: usize,
    r: usize,
    g: usize,
) -> usize
    requires { Lent t.old p.old × InOrder (store_of t.old p.old) (r * 64 + g * 4) k × (r < 128) × (g < 16) × (length spare.old ≡ 512) × OwnersOf t.old owners.old (r * 64 + g * 4) }
    ensures { Gathered t.old p.old t.new p.new (r * 64 + g * 4 + 4) result × OwnersOf t.new owners.new (r * 64 + g * 4 + 4) }
{
    if places::four_stored(&*t, r, g) == 0 {
        return k;
    }
    place_four(t, p, spare, owners, k, r, g)
}

// The 64 entries of file record r get their blocks. The way through them is that of `Owners::note_map`, which only reads the tables that
// this changes, so that one walk over borrowed tables would not serve both.
fn place_map(
    t: &mut [u8],
    p: &mut [u8],
    spare: &mut [u8],
    owners: &mut Owners,
    mut k: usize,
    r: usize,
) -> usize
    requires { Lent t.old p.old × InOrder (store_of t.old p.old) (r * 64) k × (r < 128) × (length spare.old ≡ 512) × OwnersOf t.old owners.old (r * 64) }
    ensures { Gathered t.old p.old t.new p.new (r * 64 + 64) result × OwnersOf t.new owners.new (r * 64 + 64) }
{
    for g in 0..16 {
        k = place_group(t, p, spare, owners, k, r, g);
    }
    k
}

// The same, where a file that can have no stored entry is passed over.
fn place_record(
    t: &mut [u8],
    p: &mut [u8],
    spare: &mut [u8],
    owners: &mut Owners,
    k: usize,
    r: usize,
) -> usize
    requires { Lent t.old p.old × InOrder (store_of t.old p.old) (r * 64) k × (r < 128) × (length spare.old ≡ 512) × OwnersOf t.old owners.old (r * 64) }
    ensures { Gathered t.old p.old t.new p.new (r * 64 + 64) result × OwnersOf t.new owners.new (r * 64 + 64) }
{
    if !places::may_hold(&*t, r) {
        return k;
    }
    place_map(t, p, spare, owners, k, r)
}

// Every entry gets its block. How many there are.
fn place_all(t: &mut [u8], p: &mut [u8], spare: &mut [u8]) -> usize
    requires { Lent t.old p.old × (length spare.old ≡ 512) }
    ensures { Gathered t.old p.old t.new p.new 8192 result }
{
    let mut owners = Owners::none();
    let mut k = 0;
    for r in 0..128 {
        k = place_record(t, p, spare, &mut owners, k, r);
    }
    k
}

// "modulo B", of a number that is at most B.
fn reduced(k: usize, limit: usize) -> usize
    requires { (k ≤ limit) × (1 ≤ limit) × (limit ≤ 4096) }
    ensures { (result ≡ k % limit) × (result < 4096) }
{
    if k == limit {
        return 0;
    }
    k
}

// Compaction of well-formed tables and their pages, through a spare page. "Next start becomes the number of used blocks
// modulo B."
pub fn compact_store(t: &mut [u8], p: &mut [u8], spare: &mut [u8])
    requires { Lent t.old p.old × (length spare.old ≡ 512) }
    ensures { Compacted t.old p.old t.new p.new }
{
    let k = place_all(t, p, spare);
    let limit = header::block_count(&*t);
    header::put_next(t, reduced(k, limit));
}

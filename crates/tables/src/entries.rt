// Entries of a file's map. A page number and a block number are two counts: only a lookup in a map, or taking a block,
// makes a Block.
ghost use Rattle.std.specs.Prelude.{◌≡◌, false, not, true, ◌%◌, ◌+◌, ◌<◌, ◌≤◌, length};
ghost use Rattle.base.specs.Count.{count};
ghost use Rattle.rules.specs.State.{is_unmapped, is_stored, stored};
ghost use Rattle.tables.specs.Layout.{table_bytes, read_entry, write_entry};
ghost use Rattle.tables.specs.Packed.{unpack};
ghost use Rattle.tables.specs.OneReading.{block_fits};
ghost use Rattle.tables.specs.Views.{PackedTables, Turns, put_entry_in, put_bit_in, HeaderIn, Took, all_holes, none_pending};
ghost use Rattle.tables.specs.Meaning.{entry_meant, kept_meant, pending_meant};

use crate::header;
use crate::places::{BITMAP_AT, FILE_BYTES, MAPS_AT};
use packing::{bitmap, words};

// A file page number.
#[derive(Clone, Copy)]
pub struct Page(usize);

// A store block number. It is no wider than an entry, so that an Entry is small and passed on in one piece.
#[derive(Clone, Copy)]
pub struct Block(u16);

// "a page is unmapped, a hole, or stored in a named block"
#[derive(Clone, Copy)]
pub enum Entry {
    Unmapped,
    Hole,
    Stored(Block),
}

// The entry of a page as a map has it, kept undecoded: a hole, or made by a lookup in a map.
// Two bytes a page: [Entry; 64] would take 256 bytes of stack in place of 128.
#[derive(Clone, Copy)]
pub struct Kept(u16);

// The block that is pending for a page, or none: made of a block. A number from 16,384 on means none.
// Two bytes a page: [Option<Block>; 64] would take 256 bytes of stack in place of 128.
#[derive(Clone, Copy)]
pub struct Pending(u16);

impl Page {
    pub fn new(n: usize) -> Page
        ensures { result.0 ≡ n }
    {
        Page(n)
    }

    pub fn number(self) -> usize
        ensures { result ≡ self.0 }
    {
        self.0
    }
}

impl Block {
    pub fn number(self) -> usize
        ensures { result ≡ self.0 }
    {
        self.0 as usize
    }
}

// Not `From`: it asks that the block fits.
#[tactic(auto, unfolding(crate::specs::Meaning::entry_meant, crate::specs::Layout::write_entry))]
fn encode(e: Entry) -> u16
    requires { block_fits (entry_meant e) }
    ensures { result ≡ write_entry (entry_meant e) }
{
    match e {
        Entry::Unmapped => 0,
        Entry::Hole => 16384,
        Entry::Stored(b) => 32768 + b.0,
    }
}

pub fn entry_at(t: &[u8], f: usize, s: usize, page: Page) -> Entry
    requires { (length t.now ≡ table_bytes) × (f < 16) × (s < 8) × (page.0 < 64) }
    ensures { entry_meant result ≡ ((unpack t.now).files f s).map page.0 }
{
    Kept::at(t, f, s, page).entry()
}

pub fn put_entry(t: &mut [u8], f: usize, s: usize, page: Page, e: Entry)
    requires { PackedTables t.old × (f < 16) × (s < 8) × (page.0 < 64) × block_fits (entry_meant e) }
    ensures { Turns t.old t.new (put_entry_in f s page.0 (entry_meant e)) }
{
    let w = encode(e);
    words::write::<2>(
        t,
        MAPS_AT + (s * 16 + f) * FILE_BYTES + page.0 * 2,
        u64::from(w),
    );
}

#[tactic(auto, unfolding(crate::specs::Meaning::entry_meant))]
pub fn is_unmapped(e: Entry) -> bool
    ensures { result ≡ is_unmapped (entry_meant e) }
{
    matches!(e, Entry::Unmapped)
}

#[tactic(auto, unfolding(crate::specs::Meaning::entry_meant))]
pub fn is_stored(e: Entry) -> bool
    ensures { result ≡ is_stored (entry_meant e) }
{
    matches!(e, Entry::Stored(_))
}

// "that block plus one, modulo B"
fn after(b: usize, limit: usize) -> usize
    requires { (b < limit) × (limit ≤ 4096) }
    ensures { result ≡ (b + 1) % limit }
{
    if b + 1 == limit {
        return 0;
    }
    b + 1
}

// "the first free one from next start, going round; next start then is that block plus one, modulo B"
pub fn take_block(t: &mut [u8]) -> Block
    requires { PackedTables t.old × HeaderIn (unpack t.old) × (0 < count (unpack t.old).blocks (λ b. not ((unpack t.old).bits b))) }
    ensures { Took t.old t.new result.0 }
{
    let limit = header::block_count(&*t);
    let start = header::next_start(&*t);
    let Some(b) = bitmap::first_free(&*t, BITMAP_AT, start, limit) else {
        return Block(0);
    };
    bitmap::set_bit(t, BITMAP_AT, b);
    header::put_next(t, after(b, limit));
    Block(b as u16)
}

// Is block b used?
#[tactic(auto, using(crate::proofs::ReadParts::read_bit))]
pub fn is_used(t: &[u8], b: usize) -> bool
    requires { (length t.now ≡ table_bytes) × (b < 4096) }
    ensures { result ≡ (unpack t.now).bits b }
{
    bitmap::bit_at(t, BITMAP_AT, b)
}

// Block k is taken, wherever next start is.
pub fn take_at(t: &mut [u8], k: usize) -> Block
    requires { PackedTables t.old × (k < 4096) }
    ensures { (result.0 ≡ k) × Turns t.old t.new (put_bit_in k true) }
{
    bitmap::set_bit(t, BITMAP_AT, k);
    Block(k as u16)
}

// The block is free again.
pub fn release_block(t: &mut [u8], b: Block)
    requires { PackedTables t.old × (b.0 < 4096) }
    ensures { Turns t.old t.new (put_bit_in b.0 false) }
{
    bitmap::clear_bit(t, BITMAP_AT, b.0 as usize);
}

impl Pending {
    // Block b is pending.
    #[tactic(auto, unfolding(crate::specs::Meaning::pending_meant))]
    pub fn of(b: Block) -> Pending
        requires { b.0 < 16384 }
        ensures { pending_meant result ≡ stored b.0 }
    {
        Pending(b.0)
    }

    // The block that is pending, as an entry; unmapped where there is none.
    #[tactic(auto, unfolding(crate::specs::Meaning::entry_meant, crate::specs::Meaning::pending_meant))]
    pub fn held(self) -> Entry
        ensures { entry_meant result ≡ pending_meant self }
    {
        let n = self.0;
        if n < 16384 {
            return Entry::Stored(Block(n));
        }
        Entry::Unmapped
    }
}

impl Kept {
    // The entry of a page of file f in set s.
    #[tactic(auto, using(crate::proofs::Codes::entry_read), unfolding(crate::specs::Meaning::kept_meant))]
    pub fn at(t: &[u8], f: usize, s: usize, page: Page) -> Kept
        requires { (length t.now ≡ table_bytes) × (f < 16) × (s < 8) × (page.0 < 64) }
        ensures { kept_meant result ≡ ((unpack t.now).files f s).map page.0 }
    {
        Kept(words::read::<2>(t, MAPS_AT + (s * 16 + f) * FILE_BYTES + page.0 * 2) as u16)
    }

    // Not `From<u16> for Entry`, which all could call: no public function makes a Block of a number.
    #[tactic(auto, unfolding(crate::specs::Meaning::entry_meant, crate::specs::Meaning::kept_meant, crate::specs::Layout::read_entry))]
    pub fn entry(self) -> Entry
        ensures { entry_meant result ≡ kept_meant self }
    {
        match self.0 / 16384 {
            0 => Entry::Unmapped,
            1 => Entry::Hole,
            _ => Entry::Stored(Block(self.0 % 16384)),
        }
    }
}

// No block is pending for any page.
#[tactic(auto, unfolding(crate::specs::Views::none_pending))]
pub fn none_pending() -> [Pending; 64]
    ensures { result ≡ none_pending }
{
    let none = Pending(65535);
    [none; 64]
}

// A hole is kept for every page.
#[tactic(auto, unfolding(crate::specs::Views::all_holes))]
pub fn all_holes() -> [Kept; 64]
    ensures { result ≡ all_holes }
{
    let hole = Kept(16384);
    [hole; 64]
}

// Entries by place: their number in order by set, then file, then page. The file records stand in this order.
ghost use Rattle.std.specs.Prelude.{◌≡◌, ◌%◌, ◌*◌, ◌+◌, ◌/◌, ◌<◌, length};
ghost use Rattle.compaction.specs.Compact.{entry_in};
ghost use Rattle.tables.specs.Layout.{entry_word, table_bytes};
ghost use Rattle.tables.specs.Meaning.{entry_meant, state_meant};
ghost use Rattle.tables.specs.OneReading.{block_fits};
ghost use Rattle.tables.specs.Packed.{unpack};
ghost use Rattle.tables.specs.Views.{PackedTables, Turns};
ghost use Rattle.compacting.specs.Exchange.{four_stored, may_hold, put_in};

use packing::words;
use tables::entries::{Entry, Page};
use tables::files::State;
use tables::places::{FILE_BYTES, MAPS_AT};
use tables::{entries, files};

// The entry of page q in file record r.
pub fn entry_of(t: &[u8], r: usize, q: usize) -> Entry
    requires { (length t.now ≡ table_bytes) × (r < 128) × (q < 64) }
    ensures { entry_meant result ≡ entry_in (unpack t.now).files (r * 64 + q) }
{
    entries::entry_at(t, r % 16, r / 16, Page::new(q))
}

// The entry at place n.
pub fn entry_in(t: &[u8], n: usize) -> Entry
    requires { (length t.now ≡ table_bytes) × (n < 8192) }
    ensures { entry_meant result ≡ entry_in (unpack t.now).files n }
{
    entry_of(t, n / 64, n % 64)
}

// The entry at place n becomes e.
pub fn put_in(t: &mut [u8], n: usize, e: Entry)
    requires { PackedTables t.old × (n < 8192) × block_fits (entry_meant e) }
    ensures { Turns t.old t.new (put_in n (entry_meant e)) }
{
    let file = n / 64;
    entries::put_entry(t, file % 16, file / 16, Page::new(n % 64), e);
}

// The word of the entry of page q in file record r.
pub fn word_of(t: &[u8], r: usize, q: usize) -> usize
    requires { (length t.now ≡ table_bytes) × (r < 128) × (q < 64) }
    ensures { result ≡ entry_word t.now (r % 16) (r / 16) q }
{
    words::read::<2>(t, MAPS_AT + r * FILE_BYTES + q * 2) as usize
}

// The bits by which the four entries from page 4 * g of file record r on are stored.
pub fn four_stored(t: &[u8], r: usize, g: usize) -> u64
    requires { (length t.now ≡ table_bytes) × (r < 128) × (g < 16) }
    ensures { result ≡ four_stored t.now r g }
{
    words::low::<8>(t, MAPS_AT + r * FILE_BYTES + g * 8) & 0x0080_0080_0080_0080
}

// May a file of this state have stored entries?
fn holds(l: State) -> bool
    ensures { result ≡ may_hold (state_meant l) }
{
    matches!(l, State::Own | State::Marked)
}

// The same for the file of record r.
pub fn may_hold(t: &[u8], r: usize) -> bool
    requires { (length t.now ≡ table_bytes) × (r < 128) }
    ensures { result ≡ may_hold ((unpack t.now).files (r % 16) (r / 16)).state }
{
    holds(files::state_at(t, r % 16, r / 16))
}

// Set records. What reads them asks only for the bytes before the file records.
ghost use Rattle.std.specs.Prelude.{◌≡◌, ◌%◌, ◌/◌, ◌<◌, ◌≤◌, length};
ghost use Rattle.packing.specs.Words.{get_word};
ghost use Rattle.tables.specs.Layout.{files_at, set_at, write_set, write_term};
ghost use Rattle.tables.specs.Packed.{unpack};
ghost use Rattle.tables.specs.OneReading.{SetFits};
ghost use Rattle.tables.specs.Terms.{put_term_in};
ghost use Rattle.tables.specs.Views.{PackedTables, Turns, put_set_in};
ghost use Rattle.tables.specs.Meaning.{set_meant};
ghost use Rattle.dates.specs.Days.{term_meant};

use crate::places::{SET_BYTES, SETS_AT, TREE_BYTES};
use dates::Days;
use packing::words;

// "end at most 36,525": the latest end day, the day after the last.
pub const END_DAY: usize = 36525;

// Links are numbers as the tables have them: `set_at` gives any below 16, of which those below 8 are sets.
#[derive(Clone, Copy)]
pub struct SetRecord {
    pub used: bool,
    pub writeable: bool,
    pub level: usize,
    pub parent: usize,
    pub first_child: usize,
    pub next_sibling: usize,
    pub term: Days,
}

pub fn set_at(t: &[u8], s: usize) -> SetRecord
    requires { (files_at ≤ length t.now) × (s < 8) }
    ensures { (set_meant result ≡ (unpack t.now).sets s) × SetFits (set_meant result) }
{
    let w = words::read::<3>(t, SETS_AT + s * SET_BYTES);
    let term = words::read::<4>(t, SETS_AT + s * SET_BYTES + TREE_BYTES);
    SetRecord {
        used: w / 8388608 == 1,
        writeable: w / 4194304 % 2 == 1,
        level: (w / 524288 % 8) as usize,
        parent: (w / 32768 % 16) as usize,
        first_child: (w / 2048 % 16) as usize,
        next_sibling: (w / 128 % 16) as usize,
        term: Days {
            first_day: (term / 65536) as usize,
            end_day: (term % 65536) as usize,
        },
    }
}

// The field of the first word of set s that stands at the bit of value AT and is below SIZE.
fn field<const AT: u64, const SIZE: u64>(t: &[u8], s: usize) -> usize
    requires { (files_at ≤ length t.now) × (s < 8) × (0 < AT) × (0 < SIZE) }
    ensures { (result ≡ get_word 2 t.now (set_at s) / AT % SIZE) × (result < SIZE) }
{
    (words::read::<3>(t, SETS_AT + s * SET_BYTES) / AT % SIZE) as usize
}

pub fn parent_of(t: &[u8], s: usize) -> usize
    requires { (files_at ≤ length t.now) × (s < 8) }
    ensures { (result ≡ ((unpack t.now).sets s).parent) × (result < 16) }
{
    field::<32768, 16>(t, s)
}

pub fn level_of(t: &[u8], s: usize) -> usize
    requires { (files_at ≤ length t.now) × (s < 8) }
    ensures { (result ≡ ((unpack t.now).sets s).level) × (result < 8) }
{
    field::<524288, 8>(t, s)
}

pub fn first_child_of(t: &[u8], s: usize) -> usize
    requires { (files_at ≤ length t.now) × (s < 8) }
    ensures { (result ≡ ((unpack t.now).sets s).first_child) × (result < 16) }
{
    field::<2048, 16>(t, s)
}

pub fn next_sibling_of(t: &[u8], s: usize) -> usize
    requires { (files_at ≤ length t.now) × (s < 8) }
    ensures { (result ≡ ((unpack t.now).sets s).next_sibling) × (result < 16) }
{
    field::<128, 16>(t, s)
}

#[tactic(auto, unfolding(crate::specs::Layout::write_set))]
fn word_of(r: SetRecord) -> u64
    requires { SetFits (set_meant r) }
    ensures { (result ≡ write_set (set_meant r)) × (result < 0x1_00_00_00) }
{
    let used = u64::from(r.used);
    let writeable = u64::from(r.writeable);
    let level = used * 16 + writeable * 8 + r.level as u64;
    let links = (r.parent as u64 * 16 + r.first_child as u64) * 16 + r.next_sibling as u64;
    (level * 4096 + links) * 128
}

#[tactic(auto, unfolding(crate::specs::Layout::write_term))]
fn term_word(term: Days) -> u64
    requires { (term.first_day < 65536) × (term.end_day < 65536) }
    ensures { (result ≡ write_term (term_meant term)) × (result < 4294967296) }
{
    term.first_day as u64 * 65536 + term.end_day as u64
}

// The term of set s, from its first day up to, but without, its end day.
pub fn put_term(t: &mut [u8], s: usize, term: Days)
    requires { PackedTables t.old × (s < 8) × (term.first_day < 65536) × (term.end_day < 65536) }
    ensures { Turns t.old t.new (put_term_in s (term_meant term)) }
{
    let w = term_word(term);
    words::write::<4>(t, SETS_AT + s * SET_BYTES + TREE_BYTES, w);
}

pub fn put_set(t: &mut [u8], s: usize, r: SetRecord)
    requires { PackedTables t.old × (s < 8) × SetFits (set_meant r) }
    ensures { Turns t.old t.new (put_set_in s (set_meant r)) }
{
    let term = term_word(r.term);
    let w = word_of(r);
    words::write::<3>(t, SETS_AT + s * SET_BYTES, w);
    words::write::<4>(t, SETS_AT + s * SET_BYTES + TREE_BYTES, term);
}

// The rules on single set records: zeros and terms.
ghost use Rattle.std.specs.Prelude.{◌≡◌, ◌<◌, ◌≤◌, length};
ghost use Rattle.rules.specs.WellFormed.{zero_set};
ghost use Rattle.tables.specs.Layout.{files_at};
ghost use Rattle.tables.specs.Packed.{unpack};
ghost use Rattle.tables.specs.Meaning.{set_meant};
ghost use Rattle.setcheck.specs.Records.{record_formed, records_alone, set_zero};

use packing::words;
use tables::places::{SET_BYTES, SETS_AT};
use tables::sets::{END_DAY, SetRecord, set_at};

// "Zero fields are zero": that of a set record.
fn set_zero(t: &[u8], s: usize) -> bool
    requires { (files_at ≤ length t.now) × (s < 8) }
    ensures { result ≡ set_zero t.now s }
{
    words::read::<3>(t, SETS_AT + s * SET_BYTES) % 128 == 0
}

// Are all fields but the first zero?
fn zero_record(r: SetRecord) -> bool
    ensures { result ≡ zero_set (set_meant r) }
{
    !r.writeable
        && r.level == 0
        && r.parent == 0
        && r.first_child == 0
        && r.next_sibling == 0
        && r.term.first_day == 0
        && r.term.end_day == 0
}

// "Unused sets are all zero"; "of a used set, first below end and end at most 36,525": one set.
#[tactic(auto, unfolding(crate::specs::Records::record_formed, rules::specs::WellFormed::term_formed))]
fn record_formed(t: &[u8], s: usize) -> bool
    requires { (files_at ≤ length t.now) × (s < 8) }
    ensures { result ≡ record_formed (unpack t.now) s }
{
    let r = set_at(t, s);
    if !r.used {
        return zero_record(r);
    }
    r.term.first_day < r.term.end_day && r.term.end_day <= END_DAY
}

// The rules above, which look at one set record each, for all sets.
pub fn records_alone(t: &[u8]) -> bool
    requires { files_at ≤ length t.now }
    ensures { result ≡ records_alone t.now }
{
    for s in 0..8 {
        if !set_zero(t, s) {
            return false;
        }
        if !record_formed(t, s) {
            return false;
        }
    }
    true
}

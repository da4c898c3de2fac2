// What a command leaves in the registers: number, counts and cause.
ghost use Rattle.std.specs.Prelude.{cond, ◌≡◌, ◌<◌, eqb, length};
ghost use Rattle.calls.specs.Outcomes.{answer_meant};
ghost use Rattle.tables.specs.Panel;
ghost use Rattle.tables.specs.Panel.{answered, cause_added, cause_of, register_count};

use crate::table::{CAUSE, FIRST, NUMBER, SECOND, THIRD};
use calls::answer::Answer;

// "Counts over 255 show as 255."
#[tactic(auto, unfolding(tables::specs::Panel::shown))]
fn shown(n: u32) -> u8
    ensures { result ≡ Panel.shown n }
{
    n.min(255) as u8
}

// "bit 0 when accepted, bit 1 when refused"
fn number_bit(number: u32) -> u8
    ensures { (result ≡ cond (eqb number 0) 1 2) × (result < 3) }
{
    if number == 0 {
        return 1;
    }
    2
}

// "bit 2 when its third count is not 0"
fn third_bit(third: u32) -> u8
    ensures { (result ≡ cond (eqb third 0) 0 4) × (result < 5) }
{
    if third == 0 {
        return 0;
    }
    4
}

fn cause_of(a: Answer) -> u8
    ensures { result ≡ cause_of (answer_meant a) }
{
    number_bit(a.number) + third_bit(a.third)
}

// Bits are added to the cause.
pub fn add_cause(r: &mut [u8], bits: u8)
    requires { length r.old ≡ register_count }
    ensures { r.new ≡ cause_added bits r.old }
{
    r[CAUSE] = r[CAUSE] | bits;
}

// The registers after a command that ran and was answered a.
pub fn note(r: &mut [u8], a: Answer)
    requires { (length r.old ≡ register_count) × (a.number < 256) }
    ensures { r.new ≡ answered (answer_meant a) r.old }
{
    add_cause(r, cause_of(a));
    r[NUMBER] = shown(a.number);
    r[FIRST] = shown(a.first);
    r[SECOND] = shown(a.second);
    r[THIRD] = shown(a.third);
}

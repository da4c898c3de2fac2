// The well-formed check as two calls: its first part, and the whole; and as what every other call asks first.
ghost use Rattle.std.specs.Prelude.{[], ◌≡◌, false, true, length, MatchResult};
ghost use Rattle.tables.specs.Checks.{check_blocks_on, check_on};
ghost use Rattle.tables.specs.Packed.{well_formed};
ghost use Rattle.calls.specs.Outcomes.{outcome};

use crate::answer::{Answer, Counts};
use formed::{blocks_formed, well_formed};
use numbers::refusal::Refusal;

// The tables are well formed and fit the pages, or the call is refused with 1.
pub fn checked(t: &[u8], p: &[u8]) -> Result<(), Refusal>
    ensures { MatchResult result (λ _. well_formed t.now (length p.now) ≡ true) (λ e. (well_formed t.now (length p.now) ≡ false) × (e ≡ Refusal.NotWellFormed)) }
{
    if !well_formed(t, p.len()) {
        return Err(Refusal::NotWellFormed);
    }
    Ok(())
}

// The first part: the tables alone.
pub fn check_blocks(t: &[u8]) -> Answer
    ensures { outcome result t.now [] [] ≡ check_blocks_on t.now }
{
    if !blocks_formed(t) {
        return Answer::refused(Refusal::NotWellFormed);
    }
    Answer::accepted(Counts::NONE)
}

// The whole: the tables, and the length of the pages.
pub fn check(t: &[u8], p: &[u8]) -> Answer
    ensures { outcome result t.now p.now [] ≡ check_on t.now p.now }
{
    match checked(t, p) {
        Ok(()) => Answer::accepted(Counts::NONE),
        Err(r) => Answer::refused(r),
    }
}

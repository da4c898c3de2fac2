// The calls on reference terms: a term set, and whether a set is current. No page changes.
ghost use Rattle.std.specs.Prelude.{[], ◌≡◌};
ghost use Rattle.rules.specs.Terms.{is_current};
ghost use Rattle.dates.specs.Days.{term_meant};
ghost use Rattle.tables.specs.Terms.{current_on, set_term_on};
ghost use Rattle.calls.specs.Answered.{answered};
ghost use Rattle.calls.specs.Outcomes.{outcome};

use crate::answer::{Answer, Counts};
use crate::checks::checked;
use dates::{Date, Days, term_from};
use numbers::refusal::Refusal;
use numbers::{of_current, of_set_term};
use tables::sets::{put_term, set_at};

// "A term may be set from a date and a count of months"
pub fn set_term(t: &mut [u8], p: &[u8], set: u32, date: Date, months: u32) -> Answer
    ensures { outcome result t.new p.now [] ≡ set_term_on set date.year date.month date.day months t.old p.now }
{
    Answer::from(try_set_term(t, p, set, date, months))
}

fn try_set_term(
    t: &mut [u8],
    p: &[u8],
    set: u32,
    date: Date,
    months: u32,
) -> Result<Counts, Refusal>
    ensures { outcome (answered result) t.new p.now [] ≡ set_term_on set date.year date.month date.day months t.old p.now }
{
    checked(&*t, p)?;
    of_set_term(&*t, p, set, date, months)?;
    let x = term_from(date, months);
    put_term(t, set as usize, x);
    Ok(Counts::NONE)
}

// "from the first day up to, but without, the end day"
#[tactic(auto, unfolding(rules::specs::Terms::is_current))]
fn on_day(term: Days, day: u32) -> bool
    ensures { result ≡ is_current (term_meant term) day }
{
    let d = day as usize;
    term.first_day <= d && d < term.end_day
}

// "Asking this for a day number gives 1 or 0 as the first count."
pub fn current(t: &[u8], p: &[u8], set: u32, day: u32) -> Answer
    ensures { outcome result t.now p.now [] ≡ current_on set day t.now p.now }
{
    Answer::from(try_current(t, p, set, day))
}

fn try_current(t: &[u8], p: &[u8], set: u32, day: u32) -> Result<Counts, Refusal>
    ensures { outcome (answered result) t.now p.now [] ≡ current_on set day t.now p.now }
{
    checked(t, p)?;
    of_current(t, p, set)?;
    let r = set_at(t, set as usize);
    let yes = on_day(r.term, day);
    Ok(Counts::one(u32::from(yes)))
}

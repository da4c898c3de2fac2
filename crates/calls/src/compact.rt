// Compaction.
ghost use Rattle.std.specs.Prelude.{◌≡◌};
ghost use Rattle.compaction.specs.Call.{compact_on, free_in};
ghost use Rattle.calls.specs.Answered.{answered};
ghost use Rattle.calls.specs.Outcomes.{outcome};

use crate::answer::{Answer, Counts};
use crate::checks::checked;
use compacting::compact::compact_store;
use numbers::refusal::Refusal;

// "refuses a spare page of other than 512 bytes with 16, after 1". What free pages and the spare page hold afterwards is
// free: the contract takes it as it is.
pub fn compact(t: &mut [u8], p: &mut [u8], spare: &mut [u8]) -> Answer
    ensures { outcome result t.new p.new spare.new ≡ compact_on spare.old (free_in p.new spare.new) t.old p.old }
{
    Answer::from(try_compact(t, p, spare))
}

fn try_compact(t: &mut [u8], p: &mut [u8], spare: &mut [u8]) -> Result<Counts, Refusal>
    ensures { outcome (answered result) t.new p.new spare.new ≡ compact_on spare.old (free_in p.new spare.new) t.old p.old }
{
    checked(&*t, &*p)?;
    if spare.len() != 512 {
        return Err(Refusal::SparePage);
    }
    compact_store(t, p, spare);
    Ok(Counts::NONE)
}

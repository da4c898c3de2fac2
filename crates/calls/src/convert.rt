// The converter as a call: older tables, of either length, into a second buffer. Older tables and pages are only read.
ghost use Rattle.std.specs.Prelude.{[], ◌≡◌};
ghost use Rattle.tables.specs.Convert.{convert_on};
ghost use Rattle.calls.specs.Outcomes.{outcome};

use crate::answer::{Answer, Counts};
use converting::convert_tables;
use numbers::refusal::Refusal;

pub fn convert(old: &[u8], p: &[u8], tables: &mut [u8]) -> Answer
    ensures { outcome result tables.new p.now [] ≡ convert_on old.now p.now tables.old }
{
    if !convert_tables(old, p.len(), tables) {
        return Answer::refused(Refusal::NotWellFormed);
    }
    Answer::accepted(Counts::NONE)
}

// The register page of the front panel: sixteen bytes, lent by the caller, and four calls on them. A write of the command
// register runs a call on the lent tables and pages; nothing else looks at these.
#![tactic(auto)]

ghost use Rattle.std.specs.Prelude.{[], ◌≡◌};
ghost use Rattle.tables.specs.Calls.{call_on};
ghost use Rattle.tables.specs.Panel.{panel_line_on, panel_read_on, panel_reset_on, panel_write_on};
ghost use Rattle.panel.specs.Outcomes.{panel_outcome};

use crate::command::command;
use crate::registers::{enter, line_of, no_register, reset_all, value_read};
use crate::table::{CAUSE, COMMAND, MASK};
use calls::answer::{Answer, Counts};
use numbers::refusal::Refusal;

pub mod command;
pub mod commands;
pub mod noting;
pub mod registers;
pub mod table;

// "All registers reset to 0", whatever they held.
pub fn reset(r: &mut [u8]) -> Answer
    ensures { panel_outcome result r.new [] [] ≡ panel_reset_on r.old }
{
    if no_register(&*r, 0) {
        return Answer::refused(Refusal::NoRegister);
    }
    reset_all(r);
    Answer::accepted(Counts::NONE)
}

// "A read gives the value as the first count."
pub fn read(r: &[u8], offset: u32) -> Answer
    ensures { panel_outcome result r.now [] [] ≡ panel_read_on offset r.now }
{
    if no_register(r, offset) {
        return Answer::refused(Refusal::NoRegister);
    }
    let v = value_read(r, offset as usize);
    Answer::accepted(Counts::one(v))
}

// "A write gives 0 and zeros, even where its command is refused."
pub fn write(r: &mut [u8], t: &mut [u8], p: &mut [u8], offset: u32, value: u8) -> Answer
    ensures { panel_outcome result r.new t.new p.new ≡ panel_write_on call_on offset value r.old t.old p.old }
{
    if no_register(&*r, offset) {
        return Answer::refused(Refusal::NoRegister);
    }
    enter(r, offset as usize, value);
    if offset as usize != COMMAND {
        return Answer::accepted(Counts::NONE);
    }
    command(r, t, p, value)
}

// "Asking for the line gives 1 as the first count exactly when cause and mask share a one, else 0."
pub fn line(r: &[u8]) -> Answer
    ensures { panel_outcome result r.now [] [] ≡ panel_line_on r.now }
{
    if no_register(r, 0) {
        return Answer::refused(Refusal::NoRegister);
    }
    let v = line_of(r[CAUSE], r[MASK]);
    Answer::accepted(Counts::one(v))
}

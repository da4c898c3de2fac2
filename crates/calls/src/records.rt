// The calls that change set and file records alone: create, make, remove. No page changes.
ghost use Rattle.std.specs.Prelude.{[], ◌≡◌};
ghost use Rattle.rules.specs.Numbers;
ghost use Rattle.tables.specs.Calls.{call_on};
ghost use Rattle.calls.specs.Answered.{answered};
ghost use Rattle.calls.specs.Outcomes.{outcome};

use crate::answer::{Answer, Counts};
use crate::checks::checked;
use numbers::refusal::Refusal;
use numbers::{of_create, of_make, of_remove};
use setchanges::create::create_file;
use setchanges::make::make_set;
use setchanges::remove::remove_set;

// "Create leaves an own file, size 0, all holes."
pub fn create(t: &mut [u8], p: &[u8], set: u32, file: u32) -> Answer
    ensures { outcome result t.new p.now [] ≡ call_on (Numbers.create set file) t.old p.now }
{
    Answer::from(try_create(t, p, set, file))
}

fn try_create(t: &mut [u8], p: &[u8], set: u32, file: u32) -> Result<Counts, Refusal>
    ensures { outcome (answered result) t.new p.now [] ≡ call_on (Numbers.create set file) t.old p.now }
{
    checked(&*t, p)?;
    of_create(&*t, p, set, file)?;
    create_file(t, file as usize, set as usize);
    Ok(Counts::NONE)
}

// A set made from a parent, writeable or read-only.
pub fn make(t: &mut [u8], p: &[u8], parent: u32, set: u32, writeable: bool) -> Answer
    ensures { outcome result t.new p.now [] ≡ call_on (Numbers.make parent set writeable) t.old p.now }
{
    Answer::from(try_make(t, p, parent, set, writeable))
}

fn try_make(
    t: &mut [u8],
    p: &[u8],
    parent: u32,
    set: u32,
    writeable: bool,
) -> Result<Counts, Refusal>
    ensures { outcome (answered result) t.new p.now [] ≡ call_on (Numbers.make parent set writeable) t.old p.now }
{
    checked(&*t, p)?;
    of_make(&*t, p, parent, set, writeable)?;
    make_set(t, parent as usize, set as usize, writeable);
    Ok(Counts::NONE)
}

// "Removing frees its blocks and unlinks it."
pub fn remove(t: &mut [u8], p: &[u8], set: u32) -> Answer
    ensures { outcome result t.new p.now [] ≡ call_on (Numbers.remove set) t.old p.now }
{
    Answer::from(try_remove(t, p, set))
}

fn try_remove(t: &mut [u8], p: &[u8], set: u32) -> Result<Counts, Refusal>
    ensures { outcome (answered result) t.new p.now [] ≡ call_on (Numbers.remove set) t.old p.now }
{
    checked(&*t, p)?;
    of_remove(&*t, p, set)?;
    remove_set(t, set as usize);
    Ok(Counts::NONE)
}

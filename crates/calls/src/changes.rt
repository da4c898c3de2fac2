// The calls that change a file: write, truncate, delete.
ghost use Rattle.std.specs.Prelude.{[], ◌≡◌, ◌<◌, ◌≤◌};
ghost use Rattle.rules.specs.Numbers;
ghost use Rattle.tables.specs.Calls.{call_on};
ghost use Rattle.calls.specs.Answered.{answered};
ghost use Rattle.calls.specs.Outcomes.{outcome};

use crate::answer::{Answer, Counts};
use crate::checks::checked;
use changing::deleting::delete_file;
use cutting::truncate_file;
use numbers::refusal::Refusal;
use numbers::{of_delete, of_truncate, of_write};
use writing::write_file;

// "Delete … leaves it absent."
pub fn delete(t: &mut [u8], p: &mut [u8], set: u32, file: u32) -> Answer
    ensures { outcome result t.new p.new [] ≡ call_on (Numbers.delete set file) t.old p.old }
{
    Answer::from(try_delete(t, p, set, file))
}

fn try_delete(t: &mut [u8], p: &mut [u8], set: u32, file: u32) -> Result<Counts, Refusal>
    ensures { outcome (answered result) t.new p.new [] ≡ call_on (Numbers.delete set file) t.old p.old }
{
    checked(&*t, &*p)?;
    of_delete(&*t, &*p, set, file)?;
    let k = delete_file(t, p, file as usize, set as usize);
    Ok(Counts::from(k))
}

// "Truncate to size t": below the size, at it, or above it.
pub fn truncate(t: &mut [u8], p: &mut [u8], set: u32, file: u32, size: u32) -> Answer
    ensures { outcome result t.new p.new [] ≡ call_on (Numbers.truncate set file size) t.old p.old }
{
    Answer::from(try_truncate(t, p, set, file, size))
}

fn try_truncate(
    t: &mut [u8],
    p: &mut [u8],
    set: u32,
    file: u32,
    size: u32,
) -> Result<Counts, Refusal>
    ensures { outcome (answered result) t.new p.new [] ≡ call_on (Numbers.truncate set file size) t.old p.old }
{
    checked(&*t, &*p)?;
    of_truncate(&*t, &*p, set, file, size)?;
    let k = truncate_file(t, p, file as usize, set as usize, size as usize);
    Ok(Counts::from(k))
}

// "Write": steps 1 to 5, by groups of so many pages; no byte changes nothing.
pub fn write(
    t: &mut [u8],
    p: &mut [u8],
    group: usize,
    set: u32,
    file: u32,
    offset: u32,
    data: &[u8],
) -> Answer
    requires { (0 < group) × (group ≤ 64) }
    ensures { outcome result t.new p.new [] ≡ call_on (Numbers.write group set file offset «data».now) t.old p.old }
{
    Answer::from(try_write(t, p, group, set, file, offset, data))
}

fn try_write(
    t: &mut [u8],
    p: &mut [u8],
    group: usize,
    set: u32,
    file: u32,
    offset: u32,
    data: &[u8],
) -> Result<Counts, Refusal>
    requires { (0 < group) × (group ≤ 64) }
    ensures { outcome (answered result) t.new p.new [] ≡ call_on (Numbers.write group set file offset «data».now) t.old p.old }
{
    checked(&*t, &*p)?;
    of_write(&*t, &*p, set, file, offset, data)?;
    if data.len() == 0 {
        return Ok(Counts::NONE);
    }
    let k = write_file(
        t,
        p,
        group,
        file as usize,
        set as usize,
        offset as usize,
        data,
    );
    Ok(Counts::from(k))
}

// The calls that only look: read, a file's size, the free blocks.
ghost use Rattle.std.specs.Prelude.{[], ◌≡◌};
ghost use Rattle.rules.specs.Numbers;
ghost use Rattle.tables.specs.Calls.{call_on};
ghost use Rattle.calls.specs.Answered.{answered};
ghost use Rattle.calls.specs.Outcomes.{outcome};

use crate::answer::{Answer, Counts};
use crate::checks::checked;
use looking::read_file;
use maps::reading::size_of;
use numbers::of_look;
use numbers::refusal::Refusal;
use tables::header::free_blocks;

// The bytes from the offset on, as many as the buffer and the file have; "Read: bytes, maps looked at, 0."
pub fn read(t: &[u8], p: &[u8], set: u32, file: u32, offset: u32, buffer: &mut [u8]) -> Answer
    ensures { outcome result t.now p.now buffer.new ≡ call_on (Numbers.read set file offset buffer.old) t.now p.now }
{
    Answer::from(try_read(t, p, set, file, offset, buffer))
}

fn try_read(
    t: &[u8],
    p: &[u8],
    set: u32,
    file: u32,
    offset: u32,
    buffer: &mut [u8],
) -> Result<Counts, Refusal>
    ensures { outcome (answered result) t.now p.now buffer.new ≡ call_on (Numbers.read set file offset buffer.old) t.now p.now }
{
    checked(t, p)?;
    of_look(t, p, set, file)?;
    let r = read_file(t, p, file as usize, set as usize, offset as usize, buffer);
    Ok(Counts {
        first: r.bytes,
        second: r.looks,
        third: 0,
    })
}

// "Size and free: that number, 0, 0."
pub fn size(t: &[u8], p: &[u8], set: u32, file: u32) -> Answer
    ensures { outcome result t.now p.now [] ≡ call_on (Numbers.tell_size set file) t.now p.now }
{
    Answer::from(try_size(t, p, set, file))
}

fn try_size(t: &[u8], p: &[u8], set: u32, file: u32) -> Result<Counts, Refusal>
    ensures { outcome (answered result) t.now p.now [] ≡ call_on (Numbers.tell_size set file) t.now p.now }
{
    checked(t, p)?;
    of_look(t, p, set, file)?;
    let z = size_of(t, file as usize, set as usize);
    Ok(Counts::one(z as u32))
}

pub fn free(t: &[u8], p: &[u8]) -> Answer
    ensures { outcome result t.now p.now [] ≡ call_on Numbers.tell_free t.now p.now }
{
    Answer::from(try_free(t, p))
}

fn try_free(t: &[u8], p: &[u8]) -> Result<Counts, Refusal>
    ensures { outcome (answered result) t.now p.now [] ≡ call_on Numbers.tell_free t.now p.now }
{
    checked(t, p)?;
    let n = free_blocks(t);
    Ok(Counts::one(n))
}

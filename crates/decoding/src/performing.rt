// The calls that a session asks for, made on a store.
ghost use Rattle.std.specs.Prelude.{[], ◌≡◌, ◌≤◌, replicate};
ghost use Rattle.tables.specs.Calls.{call_on};
ghost use Rattle.calls.specs.Outcomes.{outcome};
ghost use Rattle.rules.specs.Numbers;
ghost use Rattle.decoding.specs.Decoding.{call_fits, call_meant};

use crate::decoding::Asked;
use calls::answer::Answer;
use calls::{changes, records};

// "write (length copies of fill)": "The session program ... now ask for narrow writes."
fn write_copies(
    t: &mut [u8],
    p: &mut [u8],
    set: u32,
    file: u32,
    offset: u32,
    length: usize,
    fill: u8,
) -> Answer
    requires { length ≤ 4096 }
    ensures { outcome result t.new p.new [] ≡ call_on (Numbers.narrow_write set file offset (replicate length fill)) t.old p.old }
{
    let data = [fill; 4096];
    changes::write(t, p, 1, set, file, offset, &data[..length])
}

// A call of a session.
pub fn perform(t: &mut [u8], p: &mut [u8], c: Asked) -> Answer
    requires { call_fits c }
    ensures { outcome result t.new p.new [] ≡ call_on (call_meant c) t.old p.old }
{
    match c {
        Asked::Create { set, file } => records::create(t, &*p, set, file),
        Asked::Write {
            set,
            file,
            offset,
            length,
            fill,
        } => write_copies(t, p, set, file, offset, length, fill),
        Asked::Truncate { set, file, size } => changes::truncate(t, p, set, file, size),
        Asked::Delete { set, file } => changes::delete(t, p, set, file),
        Asked::Make {
            parent,
            set,
            writeable,
        } => records::make(t, &*p, parent, set, writeable),
        Asked::Remove { set } => records::remove(t, &*p, set),
    }
}

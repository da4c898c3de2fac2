// The command register: a value written there runs a call of the store, or nothing.
ghost use Rattle.std.specs.Prelude.{[], ◌≡◌, length};
ghost use Rattle.tables.specs.Calls.{call_on};
ghost use Rattle.calls.specs.Outcomes.{outcome};
ghost use Rattle.tables.specs.Panel.{command_in, commanded, register_count};
ghost use Rattle.panel.specs.Commands.{call_meant};
ghost use Rattle.panel.specs.Outcomes.{panel_outcome};

use crate::commands::{Command, command_of};
use crate::noting::{add_cause, note};
use crate::table::{FILE, OTHER, SET};
use calls::answer::{Answer, Counts};
use calls::changes::delete;
use calls::records::{create, make, remove};

// The call of a command, run on tables and pages.
fn run(t: &mut [u8], p: &mut [u8], k: Command, set: u32, file: u32, other: u32) -> Answer
    ensures { outcome result t.new p.new [] ≡ call_on (call_meant k set file other) t.old p.old }
{
    match k {
        Command::Create => create(t, &*p, set, file),
        Command::Delete => delete(t, p, set, file),
        Command::Make { writeable } => make(t, &*p, set, other, writeable),
        Command::Remove => remove(t, &*p, set),
    }
}

// A value written to the command register: "run when written; any other value runs nothing, sets cause bit 1". Its write gives
// 0 and zeros in every case.
pub fn command(r: &mut [u8], t: &mut [u8], p: &mut [u8], op: u8) -> Answer
    requires { length r.old ≡ register_count }
    ensures { panel_outcome result r.new t.new p.new ≡ commanded call_on (command_in op r.old) r.old t.old p.old }
{
    let Some(k) = command_of(op) else {
        add_cause(r, 2);
        return Answer::accepted(Counts::NONE);
    };
    let set = u32::from(r[SET]);
    let file = u32::from(r[FILE]);
    let other = u32::from(r[OTHER]);
    let a = run(t, p, k, set, file, other);
    note(r, a);
    Answer::accepted(Counts::NONE)
}

// One turn of a session: the bytes of a call in, its line out.
ghost use Rattle.std.specs.Prelude.{◌≡◌, ◌≤◌};
ghost use Rattle.turns.specs.Outcomes.{line_on, size_told, turn_outcome};

use decoding::decoding::decode;
use decoding::performing::perform;
use listing::lines::{put_call, put_end};
use std::ops::ControlFlow;

// The turn of the bytes that were read for one call, count from 1: the call is made, and its line, or `end`, stands at the
// buffer's front, as much of it as fits; without bytes there is no line. It tells how many bytes the line has, and whether
// reading goes on.
pub fn take_turn(
    t: &mut [u8],
    p: &mut [u8],
    bytes: &[u8],
    count: usize,
    out: &mut [u8],
) -> ControlFlow<usize, usize>
    ensures { (turn_outcome result t.new p.new out.new ≡ line_on bytes.now count t.old p.old out.old) × (size_told result ≤ 131) }
{
    if bytes.is_empty() {
        return ControlFlow::Break(0);
    }
    let Some(c) = decode(bytes) else {
        return ControlFlow::Break(put_end(out, count));
    };
    let a = perform(t, p, c);
    let line = put_call(out, count, c.op(), a.number, a.first, a.second, a.third);
    ControlFlow::Continue(line)
}

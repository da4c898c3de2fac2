// The heads of file records: state and size.
ghost use Rattle.std.specs.Prelude.{◌≡◌, ◌<◌, length};
ghost use Rattle.rules.specs.State.{is_absent, is_marked, is_virgin, live};
ghost use Rattle.tables.specs.Layout.{table_bytes, state_of, state_number};
ghost use Rattle.tables.specs.Packed.{unpack};
ghost use Rattle.tables.specs.Views.{PackedTables, Turns, put_head_in};
ghost use Rattle.tables.specs.Meaning.{state_meant};

use crate::places::{FILE_BYTES, FILES_AT};
use packing::words;

#[derive(Clone, Copy)]
pub enum State {
    Absent,
    Own,
    Virgin,
    Marked,
}

impl From<u64> for State {
    ghost from_gives = { λ n l. state_meant l ≡ state_of n };

    #[tactic(auto, using(crate::proofs::Codes::number_marked), unfolding(crate::specs::Meaning::state_meant))]
    fn from(n: u64) -> State {
        match n {
            0 => State::Absent,
            1 => State::Own,
            2 => State::Virgin,
            _ => State::Marked,
        }
    }
}

impl From<State> for u64 {
    ghost from_gives = { λ l n. (n ≡ state_number (state_meant l)) × (n < 4) };

    #[tactic(auto, unfolding(crate::specs::Meaning::state_meant))]
    fn from(l: State) -> u64 {
        match l {
            State::Absent => 0,
            State::Own => 1,
            State::Virgin => 2,
            State::Marked => 3,
        }
    }
}

#[tactic(auto, using(crate::proofs::Codes::state_read))]
pub fn state_at(t: &[u8], f: usize, s: usize) -> State
    requires { (length t.now ≡ table_bytes) × (f < 16) × (s < 8) }
    ensures { state_meant result ≡ ((unpack t.now).files f s).state }
{
    State::from(words::read::<4>(t, FILES_AT + (s * 16 + f) * FILE_BYTES) / 1073741824)
}

#[tactic(auto, using(crate::proofs::Codes::size_read))]
pub fn size_at(t: &[u8], f: usize, s: usize) -> usize
    requires { (length t.now ≡ table_bytes) × (f < 16) × (s < 8) }
    ensures { (result ≡ ((unpack t.now).files f s).size) × (result < 65536) }
{
    (words::read::<4>(t, FILES_AT + (s * 16 + f) * FILE_BYTES) / 16384 % 65536) as usize
}

pub fn put_head(t: &mut [u8], f: usize, s: usize, l: State, n: usize)
    requires { PackedTables t.old × (f < 16) × (s < 8) × (n < 65536) }
    ensures { Turns t.old t.new (put_head_in f s (state_meant l) n) }
{
    let k = u64::from(l);
    words::write::<4>(
        t,
        FILES_AT + (s * 16 + f) * FILE_BYTES,
        (k * 65536 + n as u64) * 16384,
    );
}

// "own or virgin"
#[tactic(auto, unfolding(crate::specs::Meaning::state_meant))]
pub fn is_live(l: State) -> bool
    ensures { result ≡ live (state_meant l) }
{
    matches!(l, State::Own | State::Virgin)
}

#[tactic(auto, unfolding(crate::specs::Meaning::state_meant))]
pub fn is_virgin(l: State) -> bool
    ensures { result ≡ is_virgin (state_meant l) }
{
    matches!(l, State::Virgin)
}

#[tactic(auto, unfolding(crate::specs::Meaning::state_meant))]
pub fn is_absent(l: State) -> bool
    ensures { result ≡ is_absent (state_meant l) }
{
    matches!(l, State::Absent)
}

#[tactic(auto, unfolding(crate::specs::Meaning::state_meant))]
pub fn is_marked(l: State) -> bool
    ensures { result ≡ is_marked (state_meant l) }
{
    matches!(l, State::Marked)
}

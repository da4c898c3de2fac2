// Format: the only call that does not need well-formed tables.
ghost use Rattle.std.specs.Prelude.{[], ◌≡◌};
ghost use Rattle.rules.specs.Numbers;
ghost use Rattle.tables.specs.Calls.{call_on, format_lengths};
ghost use Rattle.calls.specs.Outcomes.{outcome};

use crate::answer::{Answer, Counts};
use numbers::refusal::Refusal;
use pages::zero_bytes;
use setchanges::format::format_tables;
use tables::places::TABLE_BYTES;

// "tables of wrong length or pages no multiple of 512 from 512 to 2,097,152 bytes" do not fit.
#[tactic(auto, unfolding(tables::specs::Calls::format_lengths))]
fn lengths_fit(tables: usize, pages: usize) -> bool
    ensures { result ≡ format_lengths tables pages }
{
    tables == TABLE_BYTES && pages % 512 == 0 && 512 <= pages && pages <= 2097152
}

// "Format makes set 0 alone, all blocks free, next start 0, every page zero."
pub fn format(t: &mut [u8], p: &mut [u8]) -> Answer
    ensures { outcome result t.new p.new [] ≡ call_on Numbers.format t.old p.old }
{
    let n = p.len();
    if !lengths_fit(t.len(), n) {
        return Answer::refused(Refusal::NotWellFormed);
    }
    format_tables(t, n / 512);
    zero_bytes(p, 0, n);
    Answer::accepted(Counts::NONE)
}

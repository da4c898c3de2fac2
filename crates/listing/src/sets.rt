// "the set itself, then its children in order of making, each in the same way": listing a set and listing a sibling chain
// call each other, the count of unvisited sets falling.
ghost use Rattle.std.specs.Prelude.{◌≡◌, ℕ, ◌+◌, ◌*◌, ◌<◌, ◌≤◌, length};
ghost use Rattle.tables.specs.Layout.{table_bytes};
ghost use Rattle.tables.specs.Packed.{unpack};
ghost use Rattle.listing.specs.Written.{Visited, visit_chain, visit_set};

use crate::files::list_own;
use crate::text::Writer;
use tables::sets;

// Set s and what is below it; `left` sets are not visited yet, and as many as it answers are not afterwards.
#[cycle(list_chain_list_set)]
pub fn list_set(t: &[u8], s: usize, w: &mut Writer, left: usize) -> usize
    requires { (length t.now ≡ table_bytes) × (s < 8) × (0 < left) × (left ≤ 8) × (w.old.at + left * 17132 ≤ 137056) }
    ensures { ((f : ℕ) → 2 * left ≤ f → Visited w.old w.new result (visit_set (unpack t.now) f left s)) × (result < left) × (w.new.at + result * 17132 ≤ w.old.at + left * 17132) }
{
    list_own(t, s, w);
    list_chain(t, sets::first_child_of(t, s), w, left - 1)
}

// The sets of a chain of siblings from k on, each with what is below it; 8, as tables has it, is no set.
#[cycle(list_chain_list_set)]
fn list_chain(t: &[u8], k: usize, w: &mut Writer, left: usize) -> usize
    requires { (length t.now ≡ table_bytes) × (left ≤ 8) × (w.old.at + left * 17132 ≤ 137056) }
    ensures { ((f : ℕ) → 2 * left + 1 ≤ f → Visited w.old w.new result (visit_chain (unpack t.now) f left k)) × (result ≤ left) × (w.new.at + result * 17132 ≤ w.old.at + left * 17132) }
{
    if left == 0 {
        return left;
    }
    if 8 <= k {
        return left;
    }
    let rest = list_set(t, k, w, left);
    list_chain(t, sets::next_sibling_of(t, k), w, rest)
}

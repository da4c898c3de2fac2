// The tree of sets.
ghost use Rattle.std.specs.Prelude.{◌≡◌, ◌<◌, ◌≤◌, length};
ghost use Rattle.rules.specs.WellFormed.{place_formed, root_formed, tree_formed};
ghost use Rattle.tables.specs.Layout.{files_at};
ghost use Rattle.tables.specs.Packed.{unpack};
ghost use Rattle.setcheck.specs.Records.{set_in_tree, set_records_formed};

use crate::chains::{chain_formed, times_in_chain};
use crate::records::records_alone;
use tables::sets::{level_of, parent_of, set_at};

// "Set 0 is used, writeable, level 0, with no parent or sibling."
#[tactic(auto, unfolding(rules::specs::WellFormed::root_formed))]
fn root_formed(t: &[u8]) -> bool
    requires { files_at ≤ length t.now }
    ensures { result ≡ root_formed (unpack t.now) }
{
    let r = set_at(t, 0);
    r.used && r.writeable && r.level == 0 && r.parent == 8 && r.next_sibling == 8
}

// "Each other used set stands once, in its parent's child chain, with the right level, at most 5."
#[tactic(auto, unfolding(rules::specs::WellFormed::place_formed))]
fn place_formed(t: &[u8], c: usize) -> bool
    requires { (files_at ≤ length t.now) × (c < 8) }
    ensures { result ≡ place_formed (unpack t.now) c }
{
    let s = parent_of(t, c);
    s < 8
        && times_in_chain(t, c, s) == 1
        && level_of(t, c) == level_of(t, s) + 1
        && level_of(t, c) <= 5
}

// The rules of the tree for one set: none where it is unused.
#[tactic(auto, unfolding(crate::specs::Records::set_in_tree))]
fn set_in_tree(t: &[u8], s: usize) -> bool
    requires { (files_at ≤ length t.now) × (s < 8) }
    ensures { result ≡ set_in_tree (unpack t.now) s }
{
    let r = set_at(t, s);
    !r.used || (chain_formed(t, s) && (s == 0 || place_formed(t, s)))
}

// The root, and the rules of the tree for all sets.
fn tree_formed(t: &[u8]) -> bool
    requires { files_at ≤ length t.now }
    ensures { result ≡ tree_formed (unpack t.now) }
{
    if !root_formed(t) {
        return false;
    }
    for s in 0..8 {
        if !set_in_tree(t, s) {
            return false;
        }
    }
    true
}

// All rules on set records.
#[tactic(auto, unfolding(crate::specs::Records::set_records_formed))]
pub fn sets_formed(t: &[u8]) -> bool
    requires { files_at ≤ length t.now }
    ensures { result ≡ set_records_formed t.now }
{
    records_alone(t) && tree_formed(t)
}

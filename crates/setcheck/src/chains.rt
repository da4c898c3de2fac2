// The links of a set record and the chain of its children. A chain is followed for at most 8 sets, so that any bytes will do.
ghost use Rattle.std.specs.Prelude.{◌≡◌, cond, ◌<◌, ◌≤◌, eqb, length};
ghost use Rattle.rules.specs.Rules.{count_in};
ghost use Rattle.rules.specs.State.{chain, children_of};
ghost use Rattle.rules.specs.WellFormed.{all_in, chain_ends, chain_formed, link_formed};
ghost use Rattle.tables.specs.Layout.{files_at};
ghost use Rattle.tables.specs.Packed.{unpack};

use tables::sets::{next_sibling_of, set_at};

// "links are 8 or used sets"
fn link_formed(t: &[u8], k: usize) -> bool
    requires { files_at ≤ length t.now }
    ensures { result ≡ link_formed (unpack t.now) k }
{
    k == 8 || (k < 8 && set_at(t, k).used)
}

// "Chains end": does the chain that begins at k end within 8 sets?
fn chain_ends(t: &[u8], k: usize) -> bool
    requires { files_at ≤ length t.now }
    ensures { result ≡ chain_ends (unpack t.now) 8 k }
{
    let mut at = k;
    for _ in 0..8usize {
        if at >= 8 {
            return true;
        }
        at = next_sibling_of(t, at);
    }
    at >= 8
}

// Do all sets of the chain that begins at k have the parent s?
fn chain_below(t: &[u8], k: usize, s: usize) -> bool
    requires { files_at ≤ length t.now }
    ensures { result ≡ all_in (chain (unpack t.now).sets 8 k) (λ c. eqb ((unpack t.now).sets c).parent s) }
{
    let mut at = k;
    for _ in 0..8usize {
        if at >= 8 {
            return true;
        }
        let r = set_at(t, at);
        if r.parent != s {
            return false;
        }
        at = r.next_sibling;
    }
    true
}

// "hold only that parent's children": the chain of set s, empty where s is unused.
#[tactic(auto, unfolding(rules::specs::WellFormed::all_in, rules::specs::State::children_of))]
fn chain_of_parent(t: &[u8], s: usize) -> bool
    requires { (files_at ≤ length t.now) × (s < 8) }
    ensures { result ≡ all_in (children_of (unpack t.now).sets s) (λ c. eqb ((unpack t.now).sets c).parent s) }
{
    let r = set_at(t, s);
    !r.used || chain_below(t, r.first_child, s)
}

// How often c stands in the chain that begins at k.
fn times_from(t: &[u8], c: usize, k: usize) -> usize
    requires { files_at ≤ length t.now }
    ensures { (result ≡ count_in (chain (unpack t.now).sets 8 k) (λ x. eqb c x)) × (result ≤ 8) }
{
    let mut at = k;
    let mut m = 0;
    for _ in 0..8usize {
        if at >= 8 {
            return m;
        }
        m += usize::from(c == at);
        at = next_sibling_of(t, at);
    }
    m
}

// How often c stands in the child chain of set s.
#[tactic(auto, unfolding(rules::specs::Rules::count_in, rules::specs::State::children_of))]
pub fn times_in_chain(t: &[u8], c: usize, s: usize) -> usize
    requires { (files_at ≤ length t.now) × (s < 8) }
    ensures { (result ≡ count_in (children_of (unpack t.now).sets s) (λ x. eqb c x)) × (result ≤ 8) }
{
    let r = set_at(t, s);
    if !r.used {
        return 0;
    }
    times_from(t, c, r.first_child)
}

// "Chains end and hold only that parent's children": the links and the child chain of set s.
#[tactic(auto, unfolding(rules::specs::WellFormed::chain_formed))]
pub fn chain_formed(t: &[u8], s: usize) -> bool
    requires { (files_at ≤ length t.now) × (s < 8) }
    ensures { result ≡ chain_formed (unpack t.now) s }
{
    let r = set_at(t, s);
    link_formed(t, r.first_child)
        && link_formed(t, r.next_sibling)
        && chain_ends(t, r.first_child)
        && chain_of_parent(t, s)
}

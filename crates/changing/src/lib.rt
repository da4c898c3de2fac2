// What a change does to the tables alone: pages become holes, the size is changed (step 5), a file is erased; and the whole
// accepted delete. In proofs/ the laws by which steps one after another are a call's rule.
// Each function is its rule (rules/specs/Rules.antt), on what the tables and the pages hold.
#![tactic(auto)]

ghost use Rattle.std.specs.Prelude.{◌≡◌};
ghost use Rattle.changing.specs.Whole.{totals_of};

use copying::giving::Counts;

pub mod deleting;
pub mod dropping;

// "three counts": own blocks taken, copies, files newly marked.
#[derive(Clone, Copy)]
pub struct Totals {
    pub taken: u32,
    pub copies: u32,
    pub marks: u32,
}

// The free blocks that are left are not told.
impl From<Counts> for Totals {
    ghost from_gives = { λ k r. r ≡ totals_of k };

    fn from(k: Counts) -> Totals {
        Totals {
            taken: k.taken,
            copies: k.copies,
            marks: k.marks,
        }
    }
}

// What every call gives.
ghost use Rattle.std.specs.Prelude.{◌≡◌};
ghost use Rattle.rules.specs.Numbers.{refusal};
ghost use Rattle.numbers.specs.Refusals.{number};
ghost use Rattle.calls.specs.Answered.{answered, counted};
ghost use Rattle.calls.specs.Outcomes.{answer_meant};

use changing::Totals;
use numbers::refusal::Refusal;

// The three counts of an accepted call.
#[derive(Clone, Copy)]
pub struct Counts {
    pub first: u32,
    pub second: u32,
    pub third: u32,
}

impl Counts {
    // Of an accepted call without counts.
    pub const NONE: Counts = Counts {
        first: 0,
        second: 0,
        third: 0,
    };

    // Of a call that tells one number.
    pub fn one(first: u32) -> Counts
        ensures { result ≡ record { first = first; second = 0; third = 0 } }
    {
        Counts {
            first,
            ..Counts::NONE
        }
    }
}

impl From<Totals> for Counts {
    ghost from_gives = { λ t k. k ≡ record { first = t.taken; second = t.copies; third = t.marks } };

    fn from(t: Totals) -> Counts {
        Counts {
            first: t.taken,
            second: t.copies,
            third: t.marks,
        }
    }
}

// "An accepted call gives 0 and three counts." The C interface needs the number of a refusal here.
#[repr(C)]
#[derive(Clone, Copy)]
pub struct Answer {
    pub number: u32,
    pub first: u32,
    pub second: u32,
    pub third: u32,
}

impl Answer {
    // A number with zero counts.
    pub fn refused(r: Refusal) -> Answer
        ensures { answer_meant result ≡ refusal (number r) }
    {
        Answer {
            number: r.number(),
            first: 0,
            second: 0,
            third: 0,
        }
    }

    pub fn accepted(k: Counts) -> Answer
        ensures { result ≡ counted k }
    {
        Answer {
            number: 0,
            first: k.first,
            second: k.second,
            third: k.third,
        }
    }
}

// What a call gives, by what came of it.
impl From<Result<Counts, Refusal>> for Answer {
    ghost from_gives = { λ told a. a ≡ answered told };

    fn from(told: Result<Counts, Refusal>) -> Answer {
        match told {
            Ok(k) => Answer::accepted(k),
            Err(r) => Answer::refused(r),
        }
    }
}

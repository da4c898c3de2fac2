// The refusals of the table of numbers, and their numbers.
ghost use Rattle.std.specs.Prelude.{◌≡◌};
ghost use Rattle.numbers.specs.Refusals.{number};

// What a call is refused for: each kind with the number that the caller gets.
#[derive(Clone, Copy, PartialEq, Eq)]
pub enum Refusal {
    // "tables of wrong length or not well formed"; lengths wrong for a format
    NotWellFormed = 1,
    // "a set number over 7, or a set that must be used is not"
    NoSet = 2,
    // "file number over 15"
    NoFile = 3,
    // "create, write, truncate, delete in a read-only set"
    ReadOnly = 4,
    // "file absent, where it must be present"
    Absent = 5,
    // "of a marked file"
    Marked = 6,
    // "write end (offset plus length) or new size over 32,768"
    EndOver = 7,
    // "own need over the free blocks"
    NeedOver = 8,
    // a file or set that is to be made exists
    Exists = 9,
    // a parent of level 5
    TooDeep = 10,
    // a set that is to be removed has children
    HasChildren = 11,
    // set 0 is never removed
    Root = 12,
    // "an offset over 15, or registers of another length"
    NoRegister = 13,
    // "a date that does not exist or lies outside these years"
    NoDate = 14,
    // a count of months other than 1 to 120
    NoMonths = 15,
    // "a spare page of other than 512 bytes"
    SparePage = 16,
}

impl Refusal {
    pub fn number(self) -> u32
        ensures { result ≡ number self }
    {
        self as u32
    }
}

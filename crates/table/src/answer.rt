// What a call answers: a value, or the refusal that says what is wrong and where.
ghost use Rattle.std.specs.Prelude.{◌≡◌};
ghost use Rattle.table.specs.Answers.{number_of};

use std::fmt;

// The refusals, in the order of their numbers.
#[derive(Clone, Copy, Debug, PartialEq, Eq)]
pub enum Kind {
    Short = 1,
    Tag,
    Behind,
    Length,
    Range,
    Start,
    Mark,
    Next,
    Line,
    Asked,
    Work,
    Room,
    Lists,
}

impl Kind {
    // The number of a refusal in the table of refusals.
    pub fn number(self) -> usize
        ensures { result ≡ number_of self }
    {
        self as usize
    }
}

#[derive(Clone, Copy, Debug, PartialEq, Eq)]
pub struct Refusal {
    pub kind: Kind,
    pub place: usize,
}

impl fmt::Display for Refusal {
    fn fmt<W: fmt::Write>(&self, f: &mut fmt::Formatter<W>) -> fmt::Result {
        write!(f, "{} {}", self.kind.number(), self.place)
    }
}

// n, k and the start of an accepted file.
#[derive(Clone, Copy, Debug, PartialEq, Eq)]
pub struct Sizes {
    pub states: usize,
    pub signs: usize,
    pub start: usize,
}

// A part of the lent file: where it starts, and how many bytes it has.
#[derive(Clone, Copy, Debug, Default, PartialEq, Eq)]
pub struct Part {
    pub place: usize,
    pub length: usize,
}

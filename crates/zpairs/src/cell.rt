//! What is known of objects, each asked for the property of one number.

ghost use Rattle.std.specs.Prelude.{◌≡◌};
ghost use Rattle.zpairs.specs.Cells.{absent_passes, merged, passes};
ghost use Rattle.zpairs.specs.Pairs.{answer_ends};

use crate::ends::Ends;
use zobj::PropertyQuestion;

/// What is asked of each pair of an object and the number of a property.
#[derive(Clone, Copy)]
pub(crate) enum Test {
    /// A question about it has an answer.
    Answered(PropertyQuestion),
    /// It can be given a word: the object has it, and its data are at most two bytes.
    Put,
    /// Each byte of its data is open.
    Open,
}

impl Test {
    /// Whether it is passed with a number that no property has.
    pub(crate) fn absent_passes(self) -> bool
        ensures { result ≡ absent_passes self }
    {
        match self {
            Test::Answered(PropertyQuestion::Address) | Test::Open => true,
            Test::Answered(_) | Test::Put => false,
        }
    }
}

/// What is known of some objects and the number of a property.
#[derive(Clone, Copy)]
pub struct Cell {
    /// Each has the property.
    pub has: bool,
    /// None of those that have it has more than two bytes of data there.
    pub short: bool,
    /// Each byte of the data is open, so that stores may write it.
    pub is_open: bool,
    /// The ends of what its value may be.
    pub values: Ends,
    /// The ends of its addresses.
    pub addresses: Ends,
}

impl Cell {
    /// What stands where nothing is told yet. All of it is zero, so that many take one fill of memory, and no move.
    pub(crate) const BLANK: Cell = Cell {
        has: false,
        short: false,
        is_open: false,
        values: Ends::BLANK,
        addresses: Ends::BLANK,
    };

    /// What is known of none.
    pub(crate) const NONE: Cell = Cell {
        has: true,
        short: true,
        is_open: true,
        values: Ends::NONE,
        addresses: Ends::NONE,
    };

    /// What is known of the objects of either, with the same number.
    pub(crate) fn merge(self, other: Cell) -> Cell
        ensures { result ≡ merged self other }
    {
        Cell {
            has: self.has && other.has,
            short: self.short && other.short,
            is_open: self.is_open && other.is_open,
            values: self.values.join(other.values),
            addresses: self.addresses.join(other.addresses),
        }
    }

    /// Whether each of the objects passes a test with a number.
    pub(crate) fn passes(self, test: Test, number: u16) -> bool
        ensures { result ≡ passes test number self }
    {
        match test {
            Test::Answered(PropertyQuestion::Value) => 0 < number && number < 32 && self.short,
            Test::Answered(PropertyQuestion::Address) => true,
            Test::Answered(PropertyQuestion::Next) => number == 0 || self.has,
            Test::Put => self.has && self.short,
            Test::Open => self.is_open,
        }
    }

    /// The ends of what may be answered.
    pub(crate) fn answer_ends(self, question: PropertyQuestion) -> Ends
        ensures { result ≡ answer_ends question self }
    {
        match question {
            PropertyQuestion::Value => self.values,
            PropertyQuestion::Address => self.addresses,
            PropertyQuestion::Next => Ends::NONE,
        }
    }
}

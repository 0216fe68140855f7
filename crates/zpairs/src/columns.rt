//! The numbers of properties that are asked for, one for all that no property has.

ghost use Rattle.std.specs.Prelude.{◌≡◌, ◌≤◌, map};
ghost use Rattle.zdomain.specs.Few.{with_words};
ghost use Rattle.zpairs.specs.Pairs.{column};

use zdomain::Gathered;

/// How many numbers a size byte can have (Z 12.4.1).
pub(crate) const NUMBERS: u16 = 32;

/// The number by which one is asked for: all that no property has have one.
#[inline(always)]
pub(crate) fn column(number: u16) -> u16
    ensures value { result ≡ column number }
    ensures small { result ≤ 32 }
{
    number.min(NUMBERS)
}

/// Adds those of a list.
pub(crate) fn add_columns(all: &mut Gathered, numbers: &[u16])
    ensures { all.new ≡ with_words (map column numbers.now) all.old }
{
    if let [first, rest @ ..] = numbers {
        all.add(column(*first));
        add_columns(all, rest);
    }
}

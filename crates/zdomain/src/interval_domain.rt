//! Intervals as a domain.

ghost use Rattle.std.specs.Prelude.{ℕ, ◌↔◌, FitsSigned};
ghost use Rattle.std.specs.Int.{w16};
ghost use Rattle.zdomain.specs.declared.interval.Interval.{Interval};
ghost use Rattle.zdomain.specs.Domain.{In};
ghost use Rattle.zdomain.specs.Interval.{HasAddress, interval_operations};
ghost use Rattle.zdomain.specs.IntervalLaw.{interval_sound};

use crate::domain::Domain;
use crate::few::{Few, turned};
use crate::gathered::Gathered;
use crate::interval::Interval;
use crate::{arithmetic, edges};
use zword::{BinaryOp, Question, UnaryOp};

impl Domain for Interval {
    ghost operations = { interval_operations };

    ghost sound = { interval_sound };

    fn single(word: u16) -> Interval {
        Interval::of_word(word)
    }

    fn any() -> Interval {
        Interval::all()
    }

    fn between(least: u16, greatest: u16) -> Interval {
        match Interval::new(least.cast_signed(), greatest.cast_signed()) {
            Some(interval) => interval,
            None => Interval::all(),
        }
    }

    fn contains(self, word: u16) -> bool {
        let value = word.cast_signed();
        self.lo <= value && value <= self.hi
    }

    #[tactic(auto, using(crate::proofs::Inclusion::ends_decide))]
    fn is_within(self, other: Interval) -> bool {
        other.lo <= self.lo && self.hi <= other.hi
    }

    fn member(self) -> u16 {
        let least = self.lo;
        least.cast_unsigned()
    }

    fn lowest(self) -> u16 {
        self.lo.cast_unsigned()
    }

    fn highest(self) -> u16 {
        self.hi.cast_unsigned()
    }

    fn least_from(self, word: u16) -> Option<u16> {
        let low = self.lo.cast_unsigned();
        if self.contains(word) {
            Some(word)
        } else if word < low {
            Some(low)
        } else {
            None
        }
    }

    fn known(self) -> Option<u16> {
        if self.is_single() {
            Some(self.lo.cast_unsigned())
        } else {
            None
        }
    }

    fn few(self) -> Option<Few> {
        None
    }

    fn packed(gathered: &Gathered) -> Interval {
        Interval::between(turned(gathered.least()), turned(gathered.greatest()))
    }

    fn join(self, other: Interval) -> Interval {
        edges::join(self, other)
    }

    fn meet(self, other: Interval) -> Option<Interval> {
        edges::meet(self, other)
    }

    fn unary(operation: UnaryOp, operand: Interval) -> Interval {
        match operation {
            UnaryOp::Not => arithmetic::complements(operand),
            UnaryOp::Keep => operand,
        }
    }

    fn binary(operation: BinaryOp, first: Interval, second: Interval) -> Interval {
        match operation {
            BinaryOp::Add => arithmetic::sums(first, second),
            BinaryOp::Sub => arithmetic::differences(first, second),
            BinaryOp::Mul => arithmetic::products(first, second),
            BinaryOp::Div => arithmetic::quotients(first, second),
            BinaryOp::Mod => arithmetic::remainders(first, second),
            BinaryOp::Or => arithmetic::disjunctions(first, second),
            BinaryOp::And => arithmetic::conjunctions(first, second),
        }
    }

    fn narrow(
        question: Question,
        answer: bool,
        first: Interval,
        second: Interval,
    ) -> Option<(Interval, Interval)> {
        match (question, answer) {
            (Question::Equal, true) => edges::same(first, second),
            (Question::Equal, false) => edges::both(
                edges::apart(first, second),
                edges::apart(second, first),
            ),
            (Question::Less, true) => edges::below(first, second),
            (Question::Less, false) => edges::not_below(first, second),
            (Question::Greater, true) => edges::swapped(edges::below(second, first)),
            (Question::Greater, false) => edges::swapped(edges::not_below(second, first)),
            (Question::Test, _) => Some((first, second)),
        }
    }
}

/// The words that an interval has, as a set of words, are its addresses.
pub fn addresses_are_words()
    ensures { (i : Interval) (x : ℕ) → FitsSigned w16 i.lo → FitsSigned w16 i.hi → HasAddress i x ↔ In interval_operations i x }
{}

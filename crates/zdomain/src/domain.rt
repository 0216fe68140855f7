//! What a set of words has to offer.

ghost use Rattle.std.specs.Prelude.{◌≡◌, ◌↔◌, ◌≤◌, ℕ, IfNone, IfSome, IsTrue};
ghost use Rattle.zdomain.specs.Domain.{SetOperations, AreSound, In, Within};

use crate::few::Few;
use crate::gathered::Gathered;
use zword::{BinaryOp, Question, UnaryOp};

/// A set of words, of which there is at least one, with what a rule asks of sets and makes of them.
///
/// Contracts see a domain by its operations alone, so that what is proved over them holds for every domain.
pub trait Domain: Copy + Drop {
    /// What each function answers, and which words a set has.
    ghost operations: { SetOperations Self };

    /// The set of one word.
    fn single(word: u16) -> Self
        ensures { result ≡ operations.single word };

    /// The set of all words.
    fn any() -> Self
        ensures { result ≡ operations.any };

    /// A set that has each word from one to another, by their signed readings.
    fn between(least: u16, greatest: u16) -> Self
        ensures { result ≡ operations.between least greatest };

    /// Whether the word is in the set.
    fn contains(self, word: u16) -> bool
        ensures { IsTrue result ↔ In operations self word };

    /// Whether each word of the set is in the other.
    fn is_within(self, other: Self) -> bool
        ensures { IsTrue result ↔ Within operations self other };

    /// A word of the set: there is always one.
    fn member(self) -> u16
        ensures { In operations self result };

    /// A word that none of the set is below, by signed readings.
    fn lowest(self) -> u16
        ensures { result ≡ operations.lowest self };

    /// A word that none of the set is above, by signed readings.
    fn highest(self) -> u16
        ensures { result ≡ operations.highest self };

    /// The least word of the set from one on, words taken without sign.
    fn least_from(self, word: u16) -> Option<u16>
        ensures some { IfSome result (λ x. In operations self x × (word ≤ x) × ((y : ℕ) → In operations self y → word ≤ y → x ≤ y)) }
        ensures none { IfNone result ((y : ℕ) → In operations self y → word ≤ y → ⊥) };

    /// The word of the set, where it has but one.
    fn known(self) -> Option<u16>
        ensures { result ≡ operations.known self };

    /// All words of the set, where it tells them one by one.
    fn few(self) -> Option<Few>
        ensures { result ≡ operations.few self };

    /// A set that has each word that was gathered.
    fn packed(gathered: &Gathered) -> Self
        ensures { result ≡ operations.packed gathered.now };

    /// A set that has the words of both.
    fn join(self, other: Self) -> Self
        ensures { result ≡ operations.join self other };

    /// A set that has each word that is in both, or `None` where there is none.
    fn meet(self, other: Self) -> Option<Self>
        ensures { result ≡ operations.meet self other };

    /// A set that has what the operation makes of any word of the set.
    fn unary(operation: UnaryOp, operand: Self) -> Self
        ensures { result ≡ operations.unary operation operand };

    /// A set that has what the operation makes of any two words of the two sets for which it is defined.
    fn binary(operation: BinaryOp, first: Self, second: Self) -> Self
        ensures { result ≡ operations.binary operation first second };

    /// What is left of two sets where the question, asked of a word of each, is answered so: sets that have each word for
    /// which it can be, or `None` where it never is.
    fn narrow(question: Question, answer: bool, first: Self, second: Self) -> Option<(Self, Self)>
        ensures { result ≡ operations.narrow question answer first second };

    /// The law: what an operation answers contains each word that it has to.
    ghost sound: { AreSound operations };
}

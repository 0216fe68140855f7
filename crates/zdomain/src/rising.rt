//! Lists of words that rise by their signed readings, side by side.

ghost use Rattle.std.specs.Prelude.{◌≡◌, ◌<◌, ◌+◌, ℕ, length};
ghost use Rattle.std.proofs.Common.{get_or};
ghost use Rattle.zdomain.specs.Few.{with_words};
ghost use Rattle.zdomain.specs.Sides.{are_among, shared, has_row};

use crate::few::turned;
use crate::gathered::Gathered;

/// The elements of a list are words.
pub(crate) fn are_words(words: &[u16])
    ensures { (i : ℕ) → get_or words.now i 0 < 65536 }
{}

/// Whether each word of a list is in another.
#[tactic(auto, unfolding(crate::specs::Sides::are_among))]
pub(crate) fn are_among(words: &[u16], others: &[u16]) -> bool
    ensures { result ≡ are_among words.now others.now }
{
    let [word, rest @ ..] = words else {
        return true;
    };
    let [other, behind @ ..] = others else {
        return false;
    };
    if *word == *other {
        are_among(rest, behind)
    } else if turned(*other) < turned(*word) {
        are_among(words, behind)
    } else {
        false
    }
}

/// Whether a list has a word and so many behind it.
#[tactic(auto, unfolding(crate::specs::Sides::has_row))]
pub(crate) fn has_row(words: &[u16], word: u16, more: u16) -> bool
    ensures { result ≡ has_row words.now word more }
{
    let [first, rest @ ..] = words else {
        return false;
    };
    if turned(*first) < turned(word) {
        return has_row(rest, word, more);
    }
    if *first != word {
        return false;
    }
    more == 0 || has_row(rest, word.wrapping_add(1), more - 1)
}

/// Adds those of a list that another has.
#[tactic(auto, unfolding(crate::specs::Sides::shared, crate::specs::Few::with_words))]
pub(crate) fn add_shared(all: &mut Gathered, words: &[u16], others: &[u16])
    ensures { all.new ≡ with_words (shared words.now others.now) all.old }
{
    let [word, rest @ ..] = words else {
        return;
    };
    let [other, behind @ ..] = others else {
        return;
    };
    if *word == *other {
        all.add(*word);
        add_shared(all, rest, behind);
    } else if turned(*other) < turned(*word) {
        add_shared(all, words, behind);
    } else {
        add_shared(all, rest, others);
    }
}

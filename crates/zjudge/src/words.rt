//! Words of a frame against the sets stated for them.

ghost use Rattle.std.specs.Prelude.{◌≡◌, ◌↔◌, ◌<◌, ℕ, IsTrue, length, slice_get, slice_index, slice_set};
ghost use Rattle.std.specs.List.{AllZip};
ghost use Rattle.std.specs.Option.{IsSomeAnd};
ghost use Rattle.zdomain.specs.Domain.{In};
ghost use Rattle.zquetzal.specs.Reading.{words_of};

use zdomain::Domain;
use zquetzal::{word, word_count};

/// Whether there are as many words as sets, and each lies in its own.
pub(crate) fn are_in<V: Domain>(sets: &[V], words: &[u8]) -> bool
    ensures as_many { IsTrue result → length (words_of words.now) ≡ length sets.now }
    ensures value { IsTrue result ↔ AllZip (In V.operations) sets.now (words_of words.now) }
{
    if word_count(words) != sets.len() {
        return false;
    }
    for index in 0..sets.len() {
        if !sets[index].contains(word(words, index)) {
            return false;
        }
    }
    true
}

/// Whether that is so whichever value of a set is put in the place of one of the words.
pub(crate) fn are_in_with<V: Domain>(sets: &[V], words: &[u8], put: usize, values: V) -> bool
    requires { put < length (words_of words.now) }
    ensures { IsTrue result ↔ ((x : ℕ) → In V.operations values x → AllZip (In V.operations) sets.now (slice_set (words_of words.now) put x)) }
{
    has_word(values);
    if word_count(words) != sets.len() {
        return false;
    }
    for index in 0..sets.len() {
        if !is_in_with(sets, words, put, values, index) {
            return false;
        }
    }
    true
}

/// Whether it is so of one word.
fn is_in_with<V: Domain>(sets: &[V], words: &[u8], put: usize, values: V, index: usize) -> bool
    requires sets { index < length sets.now }
    requires words { length (words_of words.now) ≡ length sets.now }
    ensures { IsTrue result ↔ ((x : ℕ) → In V.operations values x → IsSomeAnd (slice_get sets.now index) (λ set. In V.operations set (slice_index (slice_set (words_of words.now) put x) index))) }
{
    has_word(values);
    if index == put {
        values.is_within(sets[index])
    } else {
        sets[index].contains(word(words, index))
    }
}

/// Each set has a word, so that what holds whichever value is taken isn't said of nothing.
pub(crate) fn has_word<V: Domain>(values: V)
    ensures { (x : ℕ) × In V.operations values x }
{
    let _word = values.member();
}

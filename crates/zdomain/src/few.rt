//! A few words, in a place of their own.

ghost use Rattle.std.specs.Prelude.{◌≡◌, ◌≤◌, length, T};
ghost use Rattle.zdomain.specs.FewModel.{padded};
ghost use Rattle.zdomain.specs.Few.{turned, rises, rises_behind, is_scattered, last_behind, last_of, first_of};

use std::marker::Model;

/// No list of a set has more words.
pub const MOST_FEW: usize = 64;

/// At most 64 words. Contracts see their list.
#[derive(Clone, Copy)]
pub struct Few {
    words: [u16; MOST_FEW],
    count: usize,
}

impl Model for Few {
    ghost use Rattle.std.specs.Prelude.{◌≡◌, ◌≤◌, ◌-◌, ◌++◌, ℕ, List, length, take, drop, replicate};
    ghost use Rattle.zdomain.specs.FewModel.{padded, padded_again, few_count};

    ghost Value = { List ℕ };

    ghost view = { λ f. take f.count f.words };

    ghost invariant = { λ f. (f.count ≤ 64) × (length f.words ≡ 64) × (drop f.count f.words ≡ replicate (64 - f.count) 0) };

    ghost inverse = { λ xs. record { words = padded xs; count = length xs } };

    ghost inverse_ok = { λ f h i. record { words = padded_again f.words f.count h.0 h.1 h.2 i; count = few_count f.words f.count h.0 h.1 i } };
}

impl Few {
    ghost use Rattle.std.specs.Prelude.{◌≡◌, ◌≤◌, length};

    /// The words of a slice.
    pub fn of(words: &[u16]) -> Few
        requires { length words.now ≤ 64 }
        ensures { result ≡ words.now }
    {
        Few {
            words: padded(words),
            count: words.len(),
        }
    }

    /// The words.
    pub fn as_slice(&self) -> &[u16]
        ensures words { result.now ≡ self.now }
        ensures few { length result.now ≤ 64 }
    {
        &self.words[..self.count]
    }
}

/// The words of a slice, with zeros behind them.
fn padded(words: &[u16]) -> [u16; MOST_FEW]
    requires { length words.now ≤ 64 }
    ensures { result ≡ padded words.now }
{
    let mut all = [0; MOST_FEW];
    all[..words.len()].copy_from_slice(words);
    all
}

/// Where a word stands in the order of signed readings, and the word that stands at a place of it.
#[inline(always)]
pub fn turned(word: u16) -> u16
    ensures { result ≡ turned word }
{
    word.wrapping_add(0x8000)
}

/// Whether each word rises above the one before it, the first of them above another.
#[tactic(auto, unfolding(crate::specs::Few::rises_behind))]
fn rises_behind(before: u16, words: &[u16]) -> bool
    ensures { result ≡ rises_behind before words.now }
{
    match words {
        [] => true,
        [first, rest @ ..] => turned(before) < turned(*first) && rises_behind(*first, rest),
    }
}

/// The last of a word and those behind it.
#[tactic(auto, unfolding(crate::specs::Few::last_behind))]
fn last_behind(before: u16, words: &[u16]) -> u16
    ensures { result ≡ last_behind before words.now }
{
    match words {
        [] => before,
        [first, rest @ ..] => last_behind(*first, rest),
    }
}

/// Whether words rise by their signed readings, and are 2 to 64 that are no interval.
#[tactic(auto, unfolding(crate::specs::Few::is_scattered))]
pub(crate) fn is_scattered(words: &[u16]) -> bool
    ensures { result ≡ is_scattered words.now }
{
    2 <= words.len()
        && words.len() <= MOST_FEW
        && rises(words)
        && words.len()
            <= usize::from(turned(last_of(words)).saturating_sub(turned(first_of(words))))
}

/// Whether each word rises above the one before it.
fn rises(words: &[u16]) -> bool
    ensures { result ≡ rises words.now }
{
    match words {
        [] => true,
        [first, rest @ ..] => rises_behind(*first, rest),
    }
}

/// The first word.
pub(crate) fn first_of(words: &[u16]) -> u16
    ensures { result ≡ first_of words.now }
{
    match words {
        [] => 0,
        [first, ..] => *first,
    }
}

/// The last word.
pub(crate) fn last_of(words: &[u16]) -> u16
    ensures { result ≡ last_of words.now }
{
    match words {
        [] => 0,
        [first, rest @ ..] => last_behind(*first, rest),
    }
}

//! Words gathered one by one, for a set of them.

ghost use Rattle.std.specs.Prelude.{◌≡◌, ◌≤◌, ◌<◌, length, option_map, IfSome};
ghost use Rattle.zdomain.specs.Few.{place_in, with_word, with_words, none_gathered};

use crate::few::{MOST_FEW, turned};
use crate::marks::Marks;
use arrayvec::ArrayVec;
use std::marker::Model;

/// How many bytes have a bit for each word.
const WORD_BYTES: usize = 8_192;

/// Words that were gathered: from which to which they go in the order of signed readings, and which they are, where there are at most 64.
/// As long as they aren't more, those that are among them are marked, so that one that came before costs a look at its mark: it lies between
/// the ends.
#[derive(Drop)]
pub struct Gathered {
    least: u16,
    greatest: u16,
    few: ArrayVec<u16, MOST_FEW>,
    marks: Marks<WORD_BYTES>,
    are_many: bool,
}

impl Model for Gathered {
    ghost use Rattle.std.specs.Prelude.{◌≡◌, if◌then◌else◌, Some, None};
    ghost use Rattle.zdomain.specs.Few.{Gathering};
    ghost use Rattle.zdomain.specs.Gathering.{AreMarked, LieBetween};

    ghost Value = { Gathering };

    ghost view = { λ g. record { least = g.least; greatest = g.greatest; few = if g.are_many then None else Some g.few.items } };

    ghost invariant = { λ g. AreMarked g.are_many g.marks g.few.items × LieBetween g.least g.greatest g.marks };
}

impl Gathered {
    ghost use Rattle.std.specs.Prelude.{◌≡◌, ◌≤◌, length, option_map, false, IfSome};
    ghost use Rattle.zdomain.specs.Few.{added, is_among, turned, with_word, with_words, none_gathered};

    /// No words.
    pub fn none() -> Gathered
        ensures { result ≡ none_gathered }
    {
        Gathered {
            least: 0xffff,
            greatest: 0,
            few: ArrayVec::new(),
            marks: Marks::none(),
            are_many: false,
        }
    }

    /// One more.
    #[inline(always)]
    pub fn add(&mut self, word: u16)
        ensures { self.new ≡ with_word word self.old }
    {
        if self.marks.has(usize::from(word)) {
            return;
        }
        let place = turned(word);
        self.least = self.least.min(place);
        self.greatest = self.greatest.max(place);
        self.put(word);
    }

    /// One that isn't among them, as long as they are few. It lies between the ends. Few words are put, and it stands apart so that the look
    /// at a mark, which each word costs, stays short.
    #[inline(never)]
    fn put(&mut self, word: u16)
        requires least { self.old.least ≤ turned word }
        requires greatest { turned word ≤ self.old.greatest }
        requires apart { IfSome self.old.few (λ words. is_among word words ≡ false) }
        ensures { self.new ≡ record { least = self.old.least; greatest = self.old.greatest; few = added word self.old.few } }
    {
        if self.are_many {
            return;
        }
        if self.few.len() == MOST_FEW {
            self.are_many = true;
            return;
        }
        self.few.insert(place_in(word, self.few.as_slice()), word);
        self.marks.add(usize::from(word));
    }

    /// All of a slice.
    #[tactic(auto, unfolding(crate::specs::Few::with_words))]
    pub fn add_all(&mut self, words: &[u16])
        ensures { self.new ≡ with_words words.now self.old }
    {
        if let [first, rest @ ..] = words {
            self.add(*first);
            self.add_all(rest);
        }
    }

    /// The place of the least of them.
    pub fn least(&self) -> u16
        ensures { result ≡ self.now.least }
    {
        self.least
    }

    /// The place of the greatest.
    pub fn greatest(&self) -> u16
        ensures { result ≡ self.now.greatest }
    {
        self.greatest
    }

    /// The words, where there are at most 64.
    pub fn few(&self) -> Option<&[u16]>
        ensures words { option_map (λ x. x.now) result ≡ self.now.few }
        ensures most { IfSome result (λ x. length x.now ≤ 64) }
    {
        if self.are_many {
            None
        } else {
            Some(self.few.as_slice())
        }
    }
}

/// How many words of a list stand before one, in the order of signed readings.
#[tactic(auto, unfolding(crate::specs::Few::place_in))]
fn place_in(word: u16, words: &[u16]) -> usize
    requires { length words.now ≤ 64 }
    ensures value { result ≡ place_in word words.now }
    ensures fits { result ≤ length words.now }
{
    let [first, rest @ ..] = words else {
        return 0;
    };
    if turned(word) < turned(*first) {
        return 0;
    }
    place_in(word, rest) + 1
}

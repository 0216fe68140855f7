//! The ends of what an answer may be.

ghost use Rattle.std.specs.Prelude.{◌≡◌};
ghost use Rattle.zdomain.specs.Few.{turned};
ghost use Rattle.zpairs.specs.Ends.{exactly, joined};

use zdomain::turned;

/// The least and the greatest of some words, in the order of their signed readings. Each end is the place of a word in that order,
/// so that both rise as numbers do.
#[derive(Clone, Copy)]
pub struct Ends {
    pub least: u16,
    pub greatest: u16,
}

impl Ends {
    /// What stands where nothing is told yet.
    pub const BLANK: Ends = Ends {
        least: 0,
        greatest: 0,
    };

    /// Those of no word.
    pub const NONE: Ends = Ends {
        least: 0xffff,
        greatest: 0,
    };

    /// Those of the words below 256.
    pub(crate) const BYTE: Ends = Ends {
        least: 0x8000,
        greatest: 0x80ff,
    };

    /// Those of all words.
    pub(crate) const ANY: Ends = Ends {
        least: 0,
        greatest: 0xffff,
    };

    /// Those of one word.
    pub fn exactly(word: u16) -> Ends
        ensures { result ≡ exactly word }
    {
        let place = turned(word);
        Ends {
            least: place,
            greatest: place,
        }
    }

    /// Those of the words of either.
    #[inline(always)]
    pub fn join(self, other: Ends) -> Ends
        ensures { result ≡ joined self other }
    {
        Ends {
            least: self.least.min(other.least),
            greatest: self.greatest.max(other.greatest),
        }
    }
}

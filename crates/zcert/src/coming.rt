//! Lists of which some words have come.

ghost use Rattle.std.specs.Prelude.{◌≡◌, ◌≢◌, ◌≤◌, ◌++◌, [], ◌∷◌, length, Ok, Err, None, IfOk, IfErr, IfSome};
ghost use Rattle.zdomain.specs.declared.values.Values.TheVariants.{List as AList};
ghost use Rattle.zcert.specs.Numbers.{Word, number};
ghost use Rattle.zcert.specs.Lists.{values_format};
ghost use Rattle.zcert.specs.Coming.{list_bytes, IsComing};

use crate::error::CertError;
use crate::limits::WORD_BYTES;
use crate::steps::word_of;
use arrayvec::ArrayVec;
use zdomain::{MOST_FEW, Scattered, turned};

/// The fewest words of a list.
const FEWEST: u8 = 2;

/// A list of which the count has come, and words, but not all of them.
#[derive(Drop)]
pub struct Coming {
    pub count: u8,
    /// Where the next word may stand at the lowest, in the order of signed readings.
    pub floor: u32,
    pub words: ArrayVec<u16, MOST_FEW>,
    pub ghost coming: { IsComing count floor words.items },
}

impl Coming {
    /// A list of so many words, of which none has come.
    pub fn of(count: u8) -> Result<Coming, CertError>
        ensures list { IfOk result (λ list. (list.count ≡ count) × (list.words.items ≡ [])) }
        ensures refused { IfErr result (λ e. (values_format.value_at (list_bytes count []) ≡ Err e) × (e ≢ CertError.Truncated)) }
    {
        if count < FEWEST || usize::from(count) > MOST_FEW {
            return Err(CertError::ListForm);
        }
        Ok(Coming {
            count,
            floor: 0,
            words: ArrayVec::new(),
        })
    }

    /// Takes the next word. With the last of them it is the list, unless that is an interval.
    pub fn take(&mut self, word: u16) -> Result<Option<Scattered>, CertError>
        ensures more { result ≡ Ok None → (self.new.count ≡ self.old.count) × (self.new.words.items ≡ self.old.words.items ++ word ∷ []) }
        ensures whole { IfOk result (λ found. IfSome found (λ set. values_format.value_at (list_bytes self.old.count (self.old.words.items ++ word ∷ [])) ≡ Ok (AList set, []))) }
        ensures refused { IfErr result (λ e. (values_format.value_at (list_bytes self.old.count (self.old.words.items ++ word ∷ [])) ≡ Err e) × (e ≢ CertError.Truncated)) }
    {
        let place = u32::from(turned(word));
        if place < self.floor {
            return Err(CertError::Order);
        }
        self.words.push(word);
        if self.words.len() < usize::from(self.count) {
            self.floor = place + 1;
            return Ok(None);
        }
        let found = Scattered::new(self.words.as_slice());
        self.words.clear();
        self.floor = 0;
        match found {
            Some(list) => Ok(Some(list)),
            None => Err(CertError::ListForm),
        }
    }

    /// Takes the words at the front of bytes that rise, as long as another is to come behind them, and answers what it leaves.
    pub fn take_more<'a>(&mut self, bytes: &'a [u8]) -> &'a [u8]
        ensures came { list_bytes self.new.count self.new.words.items ++ result.now ≡ list_bytes self.old.count self.old.words.items ++ bytes.now }
        ensures fits { length result.now ≤ length bytes.now }
    {
        if bytes.len() < WORD_BYTES || self.words.len() + 1 >= usize::from(self.count) {
            return bytes;
        }
        let (front, rest) = bytes.split_at(WORD_BYTES);
        let word = word_of(front);
        let place = u32::from(turned(word));
        if place < self.floor {
            return bytes;
        }
        self.words.push(word);
        self.floor = place + 1;
        self.take_more(rest)
    }
}

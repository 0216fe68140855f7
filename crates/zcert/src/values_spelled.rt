//! Intervals and lists in the format's versions 2 to 5.

ghost use Rattle.std.specs.Prelude.{◌≡◌, ◌≢◌, ◌++◌, ◌+◌, ◌*◌, ◌≤◌, [], length, Err, IfOk, IfErr, OnOk};
ghost use Rattle.std.specs.List.{flat_map, AllByRecursion};
ghost use Rattle.zcert.specs.Numbers.{Word, WordCount, Kind, number, HasRoom};
ghost use Rattle.zcert.specs.Lists.{values_format};
ghost use Rattle.zcert.specs.Unfinished.{set_came, values_turns};
ghost use Rattle.zcert.specs.Format.{interval_format};
ghost use Rattle.zcert.specs.FormatLaw.Sets.{values_is_format, values_are_turns};
ghost use Rattle.zcert.specs.FormatLaw.Kept.{values_are_kept};
ghost use Rattle.zcert.specs.Keeping.{values_kept};

use crate::coming::Coming;
use crate::error::CertError;
use crate::interval_spelled::interval_between;
use crate::limits::{COUNT_BYTES, END_BYTES, KIND_BYTES, LIST_VERSION, MAX_SETS, WORD_BYTES};
use crate::making::make_sets;
use crate::spelled::Spelled;
use crate::steps::{byte_of, word_of};
use arrayvec::ArrayVec;
use std::alloc::AllocError;
use zdomain::{Interval, MOST_FEW, Values};

/// The kinds of sets, as their first bytes tell them.
pub(crate) const RUN: u8 = 0;

pub(crate) const LIST: u8 = 1;

/// The most bytes of a set: a list of 64 words.
const MOST_BYTES: usize = KIND_BYTES + COUNT_BYTES + WORD_BYTES * MOST_FEW;

/// What has come of a set.
#[derive(Drop)]
pub enum Unfinished {
    Nothing,
    /// The kind of an interval.
    Run,
    /// That, and its lower end, as a word without sign.
    Lower(u16),
    /// The kind of a list.
    List,
    /// That, its count, and some of its words.
    Words(Coming),
}

// What has come with the kind of a set.
fn begun(kind: u8) -> Result<Unfinished, CertError>
    ensures came { IfOk result (λ next. set_came next ≡ number Kind kind) }
    ensures refused { IfErr result (λ e. (values_format.value_at (number Kind kind) ≡ Err e) × (e ≢ CertError.Truncated)) }
{
    match kind {
        RUN => Ok(Unfinished::Run),
        LIST => Ok(Unfinished::List),
        _ => Err(CertError::ListForm),
    }
}

// The bytes of an interval: its kind, and its ends.
fn put_run(bytes: &mut ArrayVec<u8, MOST_BYTES>, run: Interval)
    requires { bytes.old.items ≡ [] }
    ensures { bytes.new.items ≡ number Kind 0 ++ interval_format.spelled run }
{
    bytes.push(RUN);
    let _lower = bytes.try_extend_from_slice(&run.lo.to_be_bytes());
    let _upper = bytes.try_extend_from_slice(&run.hi.to_be_bytes());
}

// The words of a list, each after the other.
fn put_words(bytes: &mut ArrayVec<u8, MOST_BYTES>, words: &[u16])
    requires { length bytes.old.items + 2 * length words.now ≤ 130 }
    ensures { bytes.new.items ≡ bytes.old.items ++ flat_map (number Word) words.now }
{
    if let [word, rest @ ..] = words {
        let _word = bytes.try_extend_from_slice(&word.to_be_bytes());
        put_words(bytes, rest);
    }
}

// The bytes of a list: its kind, its count, and its words.
fn put_list(bytes: &mut ArrayVec<u8, MOST_BYTES>, words: &[u16])
    requires none { bytes.old.items ≡ [] }
    requires few { length words.now ≤ 64 }
    ensures { bytes.new.items ≡ number Kind 1 ++ (number WordCount (length words.now) ++ flat_map (number Word) words.now) }
{
    bytes.push(LIST);
    bytes.push(words.len() as u8);
    put_words(bytes, words);
}

// The bytes of a set.
fn bytes_of(set: Values) -> ArrayVec<u8, MOST_BYTES>
    ensures { result.items ≡ values_format.spelled set }
{
    let mut bytes = ArrayVec::new();
    match set {
        Values::Run(run) => put_run(&mut bytes, run),
        Values::List(list) => put_list(&mut bytes, list.few.as_slice()),
    }
    bytes
}

// Each is a word.
fn each_has_room(words: &[u16])
    ensures { AllByRecursion (HasRoom Word) words.now }
{}

impl Spelled for Values {
    type Partial = Unfinished;

    type Cell = u8;

    type Room = ArrayVec<Values, MAX_SETS>;

    ghost format = { values_format };

    ghost turns = { values_turns };

    ghost keeping = { values_kept };

    ghost is_format = { values_is_format };

    ghost are_turns = { values_are_turns };

    ghost are_kept = { values_are_kept };

    fn version() -> u8 {
        LIST_VERSION
    }

    fn limited() -> bool {
        true
    }

    fn unbegun() -> Unfinished {
        Unfinished::Nothing
    }

    fn awaited(partial: &Unfinished) -> usize {
        match partial {
            Unfinished::Nothing => KIND_BYTES,
            Unfinished::Run | Unfinished::Lower(_) => END_BYTES,
            Unfinished::List => COUNT_BYTES,
            Unfinished::Words(_) => WORD_BYTES,
        }
    }

    fn read_next(partial: &mut Unfinished, number: &[u8]) -> Result<Option<Values>, CertError> {
        match partial {
            Unfinished::Nothing => {
                *partial = begun(byte_of(number))?;
                Ok(None)
            }
            Unfinished::Run => {
                *partial = Unfinished::Lower(word_of(number));
                Ok(None)
            }
            Unfinished::Lower(lo) => {
                let run = interval_between(*lo, word_of(number))?;
                *partial = Unfinished::Nothing;
                Ok(Some(Values::Run(run)))
            }
            Unfinished::List => {
                *partial = Unfinished::Words(Coming::of(byte_of(number))?);
                Ok(None)
            }
            Unfinished::Words(list) => match list.take(word_of(number))? {
                Some(list) => {
                    *partial = Unfinished::Nothing;
                    Ok(Some(Values::List(list)))
                }
                None => Ok(None),
            },
        }
    }

    fn read_more<'a>(partial: &mut Unfinished, bytes: &'a [u8]) -> &'a [u8] {
        match partial {
            Unfinished::Words(list) => list.take_more(bytes),
            _ => bytes,
        }
    }

    fn length(self) -> usize {
        match self {
            Values::Run(run) => KIND_BYTES + run.length(),
            Values::List(list) => {
                KIND_BYTES + COUNT_BYTES + WORD_BYTES * list.few.as_slice().len()
            }
        }
    }

    fn write_to(self, out: &mut Vec<u8>) -> Result<(), AllocError> {
        out.extend_from_slice(bytes_of(self).as_slice())
    }

    fn keep(self, kept: &mut Vec<u8>) -> Result<(), AllocError> {
        kept.extend_from_slice(bytes_of(self).as_slice())
    }

    fn room() -> ArrayVec<Values, MAX_SETS> {
        ArrayVec::new()
    }

    fn sets<'a>(
        kept: &'a [u8],
        count: usize,
        room: &'a mut ArrayVec<Values, MAX_SETS>,
    ) -> &'a [Values] {
        room.clear();
        make_sets(kept, count, room);
        room.as_slice()
    }

    fn kept_length(kept: &[u8]) -> usize {
        kept.len()
    }

    fn has_spelling(self) {
        match self {
            Values::Run(run) => run.has_spelling(),
            Values::List(list) => each_has_room(list.few.as_slice()),
        }
    }
}

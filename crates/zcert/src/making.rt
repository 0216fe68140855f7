//! Sets made of the bytes that they are kept in.

ghost use Rattle.std.specs.Prelude.{◌≡◌, ◌+◌, ◌*◌, ◌≤◌, ◌++◌, length};
ghost use Rattle.zdomain.specs.declared.interval.Interval.{Interval as AnInterval};
ghost use Rattle.zdomain.specs.declared.values.Scattered.{Scattered as AScattered};
ghost use Rattle.zcert.specs.Keeping.{Front, Holds, IsRunAt, Spell, values_kept, words_in};
ghost use Rattle.zcert.specs.Lists.{values_format};

use crate::interval_spelled::interval_between;
use crate::limits::{COUNT_BYTES, END_BYTES, KIND_BYTES, MAX_SETS, VALUE_BYTES, WORD_BYTES};
use crate::steps::word_of;
use crate::values_spelled::RUN;
use arrayvec::ArrayVec;
use zdomain::{Interval, MOST_FEW, Scattered, Values};

/// Makes so many sets of the bytes that they are kept in.
pub fn make_sets(kept: &[u8], count: usize, sets: &mut ArrayVec<Values, MAX_SETS>)
    requires room { length sets.old.items + count ≤ 79 }
    requires kept { Holds values_format values_kept count kept.now }
    ensures { (held : Holds values_format values_kept count kept.now) → sets.new.items ≡ sets.old.items ++ held.kept }
{
    if count == 0 {
        return;
    }
    let (set, rest) = set_of(kept);
    sets.push(set);
    make_sets(rest, count - 1, sets);
}

/// The set at the front of the bytes that it is kept in, and what follows it.
fn set_of(kept: &[u8]) -> (Values, &[u8])
    requires { Front kept.now }
    ensures { (front : Front kept.now) → (result.0 ≡ front.set) × (result.1.now ≡ front.rest) }
{
    let (kind, behind) = kept.split_at(KIND_BYTES);
    if kind[0] == RUN {
        let (ends, rest) = behind.split_at(VALUE_BYTES);
        return (Values::Run(run_of(ends)), rest);
    }
    let (count, behind) = behind.split_at(COUNT_BYTES);
    let (words, rest) = behind.split_at(WORD_BYTES * usize::from(count[0]));
    (Values::List(list_of(words)), rest)
}

/// The interval of these ends, which are those of one.
fn run_of(ends: &[u8]) -> Interval
    requires { (run : AnInterval) × IsRunAt run ends.now }
    ensures { (run : AnInterval) → IsRunAt run ends.now → result ≡ run }
{
    let (lower, upper) = ends.split_at(END_BYTES);
    match interval_between(word_of(lower), word_of(upper)) {
        Ok(run) => run,
        Err(_) => unreachable!(),
    }
}

/// The list of these words, which are those of one.
fn list_of(bytes: &[u8]) -> Scattered
    requires { (list : AScattered) × Spell list.few bytes.now }
    ensures { (list : AScattered) → Spell list.few bytes.now → result ≡ list }
{
    let mut words = ArrayVec::new();
    take_words(bytes, &mut words);
    match Scattered::new(words.as_slice()) {
        Some(list) => list,
        None => unreachable!(),
    }
}

/// Adds the words that bytes spell, two each.
fn take_words(bytes: &[u8], words: &mut ArrayVec<u16, MOST_FEW>)
    requires { 2 * length words.old.items + length bytes.now ≤ 128 }
    ensures { words.new.items ≡ words.old.items ++ words_in bytes.now }
{
    if let [high, low, rest @ ..] = bytes {
        words.push(u16::from_be_bytes([*high, *low]));
        take_words(rest, words);
    }
}

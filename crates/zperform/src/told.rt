//! Sets of words, in words.

ghost use Rattle.std.specs.Prelude.{◌≡◌, ◌++◌, ℕ, List, IfOk, flat_map};
ghost use Rattle.std.specs.Fmt.{signed_decimal};
ghost use Rattle.zdomain.specs.Interval.{signed};
ghost use Rattle.zperform.specs.Showing.{interval_kind, interval_text, list_text, other_text, values_kind, values_text};

use itoa::Buffer;
use std::alloc::AllocError;
use zcert::Spelled;
use zdomain::{Interval, Values};

/// A kind of sets of which is told which words they have.
pub trait Told: Spelled {
    /// What is told of a set.
    ghost set_text: { Self → List ℕ };

    /// What the sets are.
    ghost kind_text: { List ℕ };

    /// What the sets are.
    fn kind() -> &'static [u8]
        ensures { result.now ≡ kind_text };

    /// Adds what is told of a set to a text.
    fn tell(self, text: &mut Vec<u8>) -> Result<(), AllocError>
        ensures { IfOk result (λ _. text.new.items ≡ text.old.items ++ set_text self) };
}

impl Told for Interval {
    ghost set_text = { interval_text };

    ghost kind_text = { interval_kind };

    fn kind() -> &'static [u8] {
        b"intervals"
    }

    fn tell(self, text: &mut Vec<u8>) -> Result<(), AllocError> {
        add_interval(self, text)
    }
}

impl Told for Values {
    ghost set_text = { values_text };

    ghost kind_text = { values_kind };

    fn kind() -> &'static [u8] {
        b"intervals and lists"
    }

    fn tell(self, text: &mut Vec<u8>) -> Result<(), AllocError> {
        match self {
            Values::Run(run) => add_interval(run, text),
            Values::List(words) => add_list(words.few.as_slice(), text),
        }
    }
}

/// Adds an interval: any word, or its one number, or its two ends.
fn add_interval(interval: Interval, text: &mut Vec<u8>) -> Result<(), AllocError>
    ensures { IfOk result (λ _. text.new.items ≡ text.old.items ++ interval_text interval) }
{
    if interval.lo <= i16::MIN && i16::MAX <= interval.hi {
        return text.extend_from_slice(b"any word");
    }
    text.extend_from_slice(Buffer::new().format(interval.lo).as_bytes())?;
    if interval.hi <= interval.lo {
        return Ok(());
    }
    text.extend_from_slice(b" to ")?;
    text.extend_from_slice(Buffer::new().format(interval.hi).as_bytes())
}

/// Adds words as signed numbers, with a comma between two.
fn add_list(words: &[u16], text: &mut Vec<u8>) -> Result<(), AllocError>
    ensures { IfOk result (λ _. text.new.items ≡ text.old.items ++ list_text words.now) }
{
    let Some((first, others)) = words.split_first() else {
        return Ok(());
    };
    add_number(*first, text)?;
    add_others(others, text)
}

/// Adds words as signed numbers, with a comma before each.
fn add_others(words: &[u16], text: &mut Vec<u8>) -> Result<(), AllocError>
    ensures { IfOk result (λ _. text.new.items ≡ text.old.items ++ flat_map other_text words.now) }
{
    for word in words {
        text.extend_from_slice(b", ")?;
        add_number(*word, text)?;
    }
    Ok(())
}

/// Adds a word as a signed number.
pub fn add_number(word: u16, text: &mut Vec<u8>) -> Result<(), AllocError>
    ensures { IfOk result (λ _. text.new.items ≡ text.old.items ++ signed_decimal (signed word)) }
{
    text.extend_from_slice(Buffer::new().format(word.cast_signed()).as_bytes())
}

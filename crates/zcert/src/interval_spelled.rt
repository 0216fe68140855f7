//! Intervals in the format's version 1.

ghost use Rattle.std.specs.Prelude.{◌≡◌};
ghost use Rattle.std.specs.Int.{w16, cast_signed};
ghost use Rattle.zdomain.specs.Interval.{interval_of};
ghost use Rattle.zcert.specs.Begun.{ends_turns};
ghost use Rattle.zcert.specs.Format.{interval_format, nonempty};
ghost use Rattle.zcert.specs.FormatLaw.Intervals.{interval_is_format, intervals_are_turns};
ghost use Rattle.zcert.specs.FormatLaw.Kept.{intervals_are_kept};
ghost use Rattle.zcert.specs.Keeping.{intervals_kept};

use crate::error::CertError;
use crate::limits::{END_BYTES, VALUE_BYTES, VERSION};
use crate::spelled::Spelled;
use crate::steps::word_of;
use std::alloc::AllocError;
use zdomain::Interval;

/// What has come of an interval.
#[derive(Clone, Copy)]
pub enum Begun {
    Nothing,
    /// Its lower end, as a word without sign.
    Lower(u16),
}

// The interval between two ends, which are words without sign.
pub(crate) fn interval_between(lo: u16, hi: u16) -> Result<Interval, CertError>
    ensures { result ≡ nonempty (interval_of (cast_signed w16 lo) (cast_signed w16 hi)) }
{
    match Interval::new(lo.cast_signed(), hi.cast_signed()) {
        Some(values) => Ok(values),
        None => Err(CertError::EmptyInterval),
    }
}

impl Spelled for Interval {
    type Partial = Begun;

    type Cell = Interval;

    type Room = ();

    ghost format = { interval_format };

    ghost turns = { ends_turns };

    ghost keeping = { intervals_kept };

    ghost is_format = { interval_is_format };

    ghost are_turns = { intervals_are_turns };

    ghost are_kept = { intervals_are_kept };

    fn version() -> u8 {
        VERSION
    }

    fn limited() -> bool {
        false
    }

    fn unbegun() -> Begun {
        Begun::Nothing
    }

    fn awaited(_partial: &Begun) -> usize {
        END_BYTES
    }

    fn read_next(partial: &mut Begun, number: &[u8]) -> Result<Option<Interval>, CertError> {
        let end = word_of(number);
        match *partial {
            Begun::Nothing => {
                *partial = Begun::Lower(end);
                Ok(None)
            }
            Begun::Lower(lo) => {
                *partial = Begun::Nothing;
                Ok(Some(interval_between(lo, end)?))
            }
        }
    }

    fn read_more<'a>(_partial: &mut Begun, bytes: &'a [u8]) -> &'a [u8] {
        bytes
    }

    fn length(self) -> usize {
        VALUE_BYTES
    }

    fn write_to(self, out: &mut Vec<u8>) -> Result<(), AllocError> {
        out.extend_from_slice(&self.lo.to_be_bytes())?;
        out.extend_from_slice(&self.hi.to_be_bytes())
    }

    fn keep(self, kept: &mut Vec<Interval>) -> Result<(), AllocError> {
        kept.push(self)?;
        Ok(())
    }

    fn room() {}

    fn sets<'a>(kept: &'a [Interval], count: usize, _room: &'a mut ()) -> &'a [Interval] {
        &kept[..count]
    }

    fn kept_length(kept: &[Interval]) -> usize {
        kept.len().saturating_mul(VALUE_BYTES)
    }

    fn has_spelling(self) {}
}

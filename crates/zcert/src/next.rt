//! What comes next of a certificate's file, read from all of its bytes.

ghost use Rattle.std.specs.Prelude.{◌≡◌, ◌≢◌, ◌++◌, [], length, IfOk, IfErr, IfSome, OnOk, Ok, Err, None};
ghost use Rattle.zcert.specs.Format.{IsAllowed};
ghost use Rattle.zcert.specs.Reading.{magic_at, version_at};
ghost use Rattle.zcert.specs.Fields.{field_at, next_at, NextAdds};
ghost use Rattle.zcert.specs.Turns.{IsOfSet, field_width};
ghost use Rattle.zcert.specs.Streaming.{GoesOn};
ghost use Rattle.zcert.specs.View.{Gives, Refuses};

use crate::builder::CertBuilder;
use crate::edition::Edition;
use crate::error::CertError;
use crate::field::{Field, Turn};
use crate::limits::{FACT_VERSION, LIMIT_VERSION, MAGIC, MARK_VERSION};
use crate::spelled::Spelled;
use crate::steps::{byte_of, long_of, serial_of, word_of};

// Whether it is the magic.
#[tactic(auto, unfolding(crate::specs::Reading::magic_at))]
pub(crate) fn magic_of(number: &[u8]) -> Result<(), CertError>
    requires { length number.now ≡ 4 }
    ensures { Gives (λ u. []) result (magic_at number.now) }
{
    if long_of(number) != MAGIC {
        return Err(CertError::Magic);
    }
    Ok(())
}

// Which of the versions of such sets it is.
#[tactic(auto, unfolding(crate::specs::Reading::version_at))]
pub(crate) fn version_of<V: Spelled>(number: &[u8]) -> Result<Edition, CertError>
    requires { length number.now ≡ 1 }
    ensures value { Gives (λ edition. (edition, [])) result (version_at V.format number.now) }
    ensures allowed { IfOk result (IsAllowed V.format) }
{
    let version = byte_of(number);
    if version == V::version() {
        return Ok(Edition::Plain);
    }
    if V::limited() && version == LIMIT_VERSION {
        return Ok(Edition::Limited);
    }
    if V::limited() && version == MARK_VERSION {
        return Ok(Edition::Marking);
    }
    if V::limited() && version == FACT_VERSION {
        return Ok(Edition::Stating);
    }
    Err(CertError::Version)
}

// The field whose turn it is, where that isn't a set: then all of it is one number, whatever has come of a set.
fn number_of<V: Spelled>(
    turn: Turn,
    number: &[u8],
    partial: &V::Partial,
) -> Result<Field<V>, CertError>
    requires other { IsOfSet turn → ⊥ }
    requires fits { length number.now ≡ field_width V.turns turn partial.now }
    ensures { Gives (λ field. (field, [])) result (field_at V.format turn number.now) }
{
    match turn {
        Turn::Release => Ok(Field::Release(word_of(number))),
        Turn::Serial => Ok(Field::Serial(serial_of(number))),
        Turn::Checksum => Ok(Field::Checksum(word_of(number))),
        Turn::LoadedLength => Ok(Field::LoadedLength(long_of(number))),
        Turn::FrameLimit => Ok(Field::FrameLimit(word_of(number))),
        Turn::RangeCount => Ok(Field::RangeCount(word_of(number))),
        Turn::RangeFirst { .. } => Ok(Field::RangeFirst(word_of(number))),
        Turn::RangeLast { .. } => Ok(Field::RangeLast(word_of(number))),
        Turn::RoutineCount => Ok(Field::RoutineCount(word_of(number))),
        Turn::RoutineAddress { .. } => Ok(Field::RoutineAddress(long_of(number))),
        Turn::LocalCount { .. } => Ok(Field::LocalCount(byte_of(number))),
        Turn::InstructionCount => Ok(Field::InstructionCount(long_of(number))),
        Turn::InstructionAddress { .. } => Ok(Field::InstructionAddress(long_of(number))),
        Turn::RoutineNumber { .. } => Ok(Field::RoutineNumber(word_of(number))),
        Turn::Height { .. } => Ok(Field::Height(byte_of(number))),
        Turn::FactCount => Ok(Field::FactCount(long_of(number))),
        Turn::FactAddress { .. } => Ok(Field::FactAddress(long_of(number))),
        Turn::FactGlobal { .. } => Ok(Field::FactGlobal(byte_of(number))),
        Turn::Complete => Err(CertError::Trailing),
        Turn::Global { .. }
        | Turn::RoutineResult { .. }
        | Turn::Value { .. }
        | Turn::FactValues { .. } => unreachable!(),
    }
}

// A set of which the next number was read, as a field of a kind.
macro_rules! set {
    ($kind:ident, $read:expr) => {{
        match $read? {
            Some(set) => Ok(Some(Field::$kind(set))),
            None => Ok(None),
        }
    }};
}

// The field whose turn it is, by the next of its numbers: all of it, but for a set that needs more.
fn field_of<V: Spelled>(
    turn: Turn,
    partial: &mut V::Partial,
    number: &[u8],
) -> Result<Option<Field<V>>, CertError>
    requires part { (IsOfSet turn → ⊥) → V.turns.came partial.old ≡ [] }
    requires fits { length number.now ≡ field_width V.turns turn partial.old }
    ensures more { result ≡ Ok None → (V.turns.came partial.new ≡ V.turns.came partial.old ++ number.now) × IsOfSet turn }
    ensures whole { IfOk result (λ found. IfSome found (λ field. (field_at V.format turn (V.turns.came partial.old ++ number.now) ≡ Ok (field, [])) × (V.turns.came partial.new ≡ []))) }
    ensures refused { IfErr result (λ e. (field_at V.format turn (V.turns.came partial.old ++ number.now) ≡ Err e) × (e ≢ CertError.Truncated)) }
{
    match turn {
        Turn::Global { .. } => set!(Global, V::read_next(partial, number)),
        Turn::RoutineResult { .. } => set!(RoutineResult, V::read_next(partial, number)),
        Turn::Value { .. } => set!(Value, V::read_next(partial, number)),
        Turn::FactValues { .. } => set!(FactValues, V::read_next(partial, number)),
        _ => Ok(Some(number_of(turn, number, partial)?)),
    }
}

// Reads the next number of the field whose turn it is, and takes the field where it is whole.
pub(crate) fn next_of<V: Spelled>(
    builder: &mut CertBuilder<V>,
    partial: &mut V::Partial,
    number: &[u8],
) -> Result<(), CertError>
    requires part { (IsOfSet builder.old.turn → ⊥) → V.turns.came partial.old ≡ [] }
    requires fits { length number.now ≡ field_width V.turns builder.old.turn partial.old }
    ensures on { OnOk result (GoesOn V.format V.turns builder.old partial.old number.now builder.new partial.new) }
    ensures refused { IfErr result (λ e. Refuses e (next_at V.format builder.old (V.turns.came partial.old ++ number.now)) × (e ≢ CertError.Truncated)) }
    ensures memory { result ≡ Err CertError.OutOfMemory → NextAdds V.format builder.old (V.turns.came partial.old ++ number.now) }
{
    if let Some(field) = field_of(builder.turn(), partial, number)? {
        builder.take(field)?;
    }
    Ok(())
}

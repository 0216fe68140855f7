//! Which field comes next, where so many parts are still to come, and behind the identity.

ghost use Rattle.std.specs.Prelude.{◌≡◌};
ghost use Rattle.zcert.specs.Building as spec;

use crate::field::Turn;
use crate::limits::GLOBALS;

pub fn behind_identity(limit: Option<u16>) -> Turn
    ensures { result ≡ spec.behind_identity limit }
{
    match limit {
        Some(_) => Turn::FrameLimit,
        None => Turn::RangeCount,
    }
}

pub fn before_ranges(count: u16) -> Turn
    ensures { result ≡ spec.before_ranges count }
{
    if count == 0 {
        before_globals(GLOBALS)
    } else {
        Turn::RangeFirst { more: count - 1 }
    }
}

pub fn before_globals(count: u8) -> Turn
    ensures { result ≡ spec.before_globals count }
{
    if count == 0 {
        Turn::RoutineCount
    } else {
        Turn::Global { more: count - 1 }
    }
}

pub fn before_routines(count: u16) -> Turn
    ensures { result ≡ spec.before_routines count }
{
    if count == 0 {
        Turn::InstructionCount
    } else {
        Turn::RoutineAddress { more: count - 1 }
    }
}

pub fn before_instructions(stating: bool, count: u32) -> Turn
    ensures { result ≡ spec.before_instructions stating count }
{
    if count == 0 {
        behind_instructions(stating)
    } else {
        Turn::InstructionAddress { more: count - 1 }
    }
}

fn behind_instructions(stating: bool) -> Turn
    ensures { result ≡ spec.behind_instructions stating }
{
    if stating {
        Turn::FactCount
    } else {
        Turn::Complete
    }
}

pub fn before_facts(least: u8, count: u32) -> Turn
    ensures { result ≡ spec.before_facts least count }
{
    if count == 0 {
        Turn::Complete
    } else {
        Turn::FactAddress {
            more: count - 1,
            least,
        }
    }
}

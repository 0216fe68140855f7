//! Certificates that name a limit of frames.

ghost use Rattle.std.specs.Prelude.{◌≡◌, ◌≤◌, IfErr, IfOk};
ghost use Rattle.zdomain.specs.Values.{values_operations};
ghost use Rattle.zcheck.specs.Passes.{Passes};
ghost use Rattle.zfind.specs.Finding.{IsFailureOf};
ghost use Rattle.zfind.specs.Found.{IsFoundWithin};
ghost use Rattle.zfind.specs.declared.error.FindError.TheVariants.{OutOfMemory};

use crate::error::FindError;
use crate::finding::{allowed, find_watched, listed, tried};
use crate::found::Found;
use crate::visits::MOST_LIST_WORK;
use crate::watch::{Unwatched, Watch};
use std::alloc::Global;
use zcert::{CertBuilder, CertError, Certificate, Field, Instruction};
use zdomain::{Interval, Values};
use zstory::Story;

/// A certificate that passes for a story, if one is found, and lets at most so many frames stand above the first (own): of sets that may
/// be lists, which it needn't have.
///
/// What has intervals alone is tried as it is, and where that doesn't pass one is looked for by lists. An error is as `find` has it.
pub fn find_limited(
    alloc: Global,
    story: &Story,
    limit: u16,
) -> Result<Certificate<Values>, FindError>
    requires low { limit ≤ 4096 }
    ensures passes { IfOk result (IsFoundWithin story.now limit) }
    ensures failed { IfErr result (IsFailureOf values_operations story.now) }
{
    find_limited_watched(alloc, story, limit, &Unwatched)
}

/// The same, of which a watch is told.
pub(crate) fn find_limited_watched<W: Watch>(
    alloc: Global,
    story: &Story,
    limit: u16,
    watch: &W,
) -> Result<Certificate<Values>, FindError>
    requires low { limit ≤ 4096 }
    ensures passes { IfOk result (IsFoundWithin story.now limit) }
    ensures failed { IfErr result (IsFailureOf values_operations story.now) }
{
    let certificate = found_with_lists(alloc, story, watch)?;
    Ok(certificate.with_limit(limit))
}

/// A certificate that passes, of sets that may be lists.
#[tactic(auto, using(crate::proofs::Failures::by_lists))]
fn found_with_lists<W: Watch>(
    alloc: Global,
    story: &Story,
    watch: &W,
) -> Result<Certificate<Values>, FindError>
    ensures passes { IfOk result (Passes values_operations story.now) }
    ensures failed { IfErr result (IsFailureOf values_operations story.now) }
{
    match find_watched(alloc, story, watch) {
        Ok(Found::Intervals(certificate)) => with_lists(alloc, story, &certificate, watch),
        Ok(Found::Lists(certificate) | Found::Marked(certificate)) => Ok(certificate),
        Err(error) => Err(error),
    }
}

/// The certificate that says the same by sets that may be lists, or where that doesn't pass another.
#[tactic(auto, using(crate::proofs::Failures::without_memory))]
fn with_lists<W: Watch>(
    alloc: Global,
    story: &Story,
    certificate: &Certificate<Interval>,
    watch: &W,
) -> Result<Certificate<Values>, FindError>
    ensures passes { IfOk result (Passes values_operations story.now) }
    ensures failed { IfErr result (IsFailureOf values_operations story.now) }
{
    let same = match as_lists(alloc, certificate) {
        Ok(same) => same,
        Err(error) => return Err(error),
    };
    match tried(story, same) {
        Ok(passed) => Ok(passed),
        Err(_) => listed::<Values, W>(alloc, story, &mut allowed(MOST_LIST_WORK), watch),
    }
}

/// The certificate that says the same by sets that may be lists.
fn as_lists(
    alloc: Global,
    certificate: &Certificate<Interval>,
) -> Result<Certificate<Values>, FindError>
    ensures { IfErr result (λ error. error ≡ OutOfMemory) }
{
    let mut builder = CertBuilder::new(alloc);
    take_identity(&mut builder, certificate)?;
    take_ranges(&mut builder, certificate)?;
    take_globals(&mut builder, certificate)?;
    take_routines(&mut builder, certificate)?;
    take_instructions(&mut builder, certificate)?;
    Ok(builder.finish()?)
}

fn take_identity(
    builder: &mut CertBuilder<Values>,
    certificate: &Certificate<Interval>,
) -> Result<(), CertError> {
    let identity = certificate.identity();
    builder.take(Field::Release(identity.release))?;
    builder.take(Field::Serial(identity.serial))?;
    builder.take(Field::Checksum(identity.checksum))?;
    builder.take(Field::LoadedLength(identity.length))
}

fn take_ranges(
    builder: &mut CertBuilder<Values>,
    certificate: &Certificate<Interval>,
) -> Result<(), CertError> {
    let ranges = certificate.ranges();
    builder.take(Field::RangeCount(ranges.len().min(0xffff) as u16))?;
    for range in ranges {
        builder.take(Field::RangeFirst(range.first))?;
        builder.take(Field::RangeLast(range.last))?;
    }
    Ok(())
}

fn take_globals(
    builder: &mut CertBuilder<Values>,
    certificate: &Certificate<Interval>,
) -> Result<(), CertError> {
    for run in certificate.globals() {
        builder.take(Field::Global(Values::Run(*run)))?;
    }
    Ok(())
}

fn take_routines(
    builder: &mut CertBuilder<Values>,
    certificate: &Certificate<Interval>,
) -> Result<(), CertError> {
    let routines = certificate.routines();
    builder.take(Field::RoutineCount(routines.len().min(0xffff) as u16))?;
    for routine in routines {
        builder.take(Field::RoutineAddress(routine.address))?;
        builder.take(Field::LocalCount(routine.locals))?;
        builder.take(Field::RoutineResult(Values::Run(routine.result)))?;
    }
    Ok(())
}

fn take_instructions(
    builder: &mut CertBuilder<Values>,
    certificate: &Certificate<Interval>,
) -> Result<(), CertError> {
    let count = certificate.instruction_count();
    builder.take(Field::InstructionCount(count.min(0xffff_ffff) as u32))?;
    let mut room = ();
    for index in 0..count {
        take_instruction(builder, &certificate.instruction(index, &mut room))?;
    }
    Ok(())
}

fn take_instruction(
    builder: &mut CertBuilder<Values>,
    instruction: &Instruction<'_, Interval>,
) -> Result<(), CertError> {
    builder.take(Field::InstructionAddress(instruction.address))?;
    builder.take(Field::RoutineNumber(instruction.routine))?;
    builder.take(Field::Height(instruction.slots.len().min(64) as u8))?;
    take_runs(builder, instruction.locals)?;
    take_runs(builder, instruction.slots)
}

/// The values of locals or of slots.
fn take_runs(builder: &mut CertBuilder<Values>, runs: &[Interval]) -> Result<(), CertError> {
    for run in runs {
        builder.take(Field::Value(Values::Run(*run)))?;
    }
    Ok(())
}

//! A certificate of what is known.

ghost use Rattle.std.specs.Prelude.{◌≡◌, true, IfErr};
ghost use Rattle.zfind.specs.declared.error.FindError.TheVariants.{OutOfMemory};

use crate::code::Code;
use crate::error::FindError;
use crate::frame::Frame;
use crate::kind::Kind;
use crate::looking::stated_of;
use crate::walk::Walk;
use std::alloc::Global;
use zcert::{CertBuilder, CertError, Certificate, Field, MARK};

/// The certificate that says what a walk found.
pub(crate) fn certificate_of<V: Kind>(
    alloc: Global,
    code: &Code<'_>,
    walk: &mut Walk<'_, V>,
) -> Result<Certificate<V>, FindError>
    ensures { IfErr result (λ error. error ≡ OutOfMemory) }
{
    let mut builder = CertBuilder::new(alloc);
    take_identity(&mut builder, code)?;
    take_rest(alloc, &mut builder, code, walk, &[])?;
    Ok(builder.finish()?)
}

/// The same, which names a limit of frames, and marks those of the listed instructions that have a mark. It states what is known of globals
/// where that may be stated.
pub(crate) fn marked_certificate_of<V: Kind>(
    alloc: Global,
    code: &Code<'_>,
    walk: &mut Walk<'_, V>,
    limit: u16,
    marks: &[bool],
) -> Result<Certificate<V>, FindError>
    requires limited { V.format.limited ≡ true }
    ensures { IfErr result (λ error. error ≡ OutOfMemory) }
{
    let mut builder = if code.tells() {
        CertBuilder::stating(alloc)
    } else {
        CertBuilder::marking(alloc)
    };
    take_identity(&mut builder, code)?;
    builder.take(Field::FrameLimit(limit))?;
    take_rest(alloc, &mut builder, code, walk, marks)?;
    if code.tells() {
        take_facts(alloc, &mut builder, code, walk)?;
    }
    Ok(builder.finish()?)
}

/// All but which story it is, and the limit.
fn take_rest<V: Kind>(
    alloc: Global,
    builder: &mut CertBuilder<V>,
    code: &Code<'_>,
    walk: &mut Walk<'_, V>,
    marks: &[bool],
) -> Result<(), CertError> {
    take_ranges(alloc, builder, walk)?;
    take_globals(builder, walk)?;
    let numbers = take_routines(alloc, builder, code, walk)?;
    take_instructions(alloc, builder, code, walk, &numbers, marks)
}

/// The story that it speaks of.
fn take_identity<V: Kind>(builder: &mut CertBuilder<V>, code: &Code<'_>) -> Result<(), CertError> {
    let identity = code.story.identity();
    builder.take(Field::Release(identity.release))?;
    builder.take(Field::Serial(identity.serial))?;
    builder.take(Field::Checksum(identity.checksum))?;
    builder.take(Field::LoadedLength(identity.length))
}

/// The ranges of frozen bytes.
fn take_ranges<V: Kind>(
    alloc: Global,
    builder: &mut CertBuilder<V>,
    walk: &mut Walk<'_, V>,
) -> Result<(), CertError> {
    let ranges = walk.bytes.ranges(alloc)?;
    builder.take(Field::RangeCount(ranges.len().min(0xffff) as u16))?;
    for range in &ranges {
        builder.take(Field::RangeFirst(range.first))?;
        builder.take(Field::RangeLast(range.last))?;
    }
    Ok(())
}

/// The values of the globals.
fn take_globals<V: Kind>(
    builder: &mut CertBuilder<V>,
    walk: &Walk<'_, V>,
) -> Result<(), CertError> {
    for set in walk.state.globals() {
        builder.take(Field::Global(*set))?;
    }
    Ok(())
}

/// The routines that were entered. Answers the number of each among them.
fn take_routines<V: Kind>(
    alloc: Global,
    builder: &mut CertBuilder<V>,
    code: &Code<'_>,
    walk: &Walk<'_, V>,
) -> Result<Vec<u16>, CertError> {
    let numbers = entered_numbers(alloc, code, walk)?;
    let last = numbers.as_slice().last().copied().unwrap_or(0);
    builder.take(Field::RoutineCount(last))?;
    for (below, address) in code.routines().iter().enumerate() {
        let number = (below.min(0xfffe) + 1) as u16;
        if walk.is_entered(number) {
            take_routine(builder, code, walk, number, *address)?;
        }
    }
    Ok(numbers)
}

/// How many routines were entered up to each, by their numbers in the listing.
fn entered_numbers<V: Kind>(
    alloc: Global,
    code: &Code<'_>,
    walk: &Walk<'_, V>,
) -> Result<Vec<u16>, CertError> {
    let mut numbers = vec![in alloc; 0]?;
    let mut count = 0u16;
    for below in 0..code.routines().len().min(0xffff) {
        if walk.is_entered(below as u16 + 1) {
            count = count.saturating_add(1);
        }
        numbers.push(count)?;
    }
    Ok(numbers)
}

/// What is said of a routine. One that gives nothing is said to give 0.
fn take_routine<V: Kind>(
    builder: &mut CertBuilder<V>,
    code: &Code<'_>,
    walk: &Walk<'_, V>,
    number: u16,
    address: u32,
) -> Result<(), CertError> {
    let result = match walk.state.result(number) {
        Some(set) => set,
        None => V::single(0),
    };
    builder.take(Field::RoutineAddress(address))?;
    builder.take(Field::LocalCount(code.local_count(number)))?;
    builder.take(Field::RoutineResult(result))
}

/// The instructions that were reached.
fn take_instructions<V: Kind>(
    alloc: Global,
    builder: &mut CertBuilder<V>,
    code: &Code<'_>,
    walk: &Walk<'_, V>,
    numbers: &[u16],
    marks: &[bool],
) -> Result<(), CertError> {
    builder.take(Field::InstructionCount(reached_count(code, walk)))?;
    let mut marks = marks.iter();
    for (index, record) in code.records().iter().enumerate() {
        if walk.state.is_reached(index) {
            let mark = mark_of(marks.next().copied().unwrap_or(false));
            take_instruction(alloc, builder, walk, index, record.address, numbers, mark)?;
        }
    }
    Ok(())
}

/// What the byte of a height has for a mark.
fn mark_of(is_marked: bool) -> u8 {
    if is_marked { MARK } else { 0 }
}

/// How many were reached.
fn reached_count<V: Kind>(code: &Code<'_>, walk: &Walk<'_, V>) -> u32 {
    let mut count = 0u32;
    for index in 0..code.records().len() {
        if walk.state.is_reached(index) {
            count = count.saturating_add(1);
        }
    }
    count
}

/// What is said of an instruction.
fn take_instruction<V: Kind>(
    alloc: Global,
    builder: &mut CertBuilder<V>,
    walk: &Walk<'_, V>,
    index: usize,
    address: u32,
    numbers: &[u16],
    mark: u8,
) -> Result<(), CertError> {
    let Some(frame) = walk.state.frame_at(alloc, index)? else {
        return Ok(());
    };
    let routine = numbers
        .get(usize::from(walk.state.routine_at(index)))
        .copied()
        .unwrap_or(0);
    builder.take(Field::InstructionAddress(address))?;
    builder.take(Field::RoutineNumber(routine))?;
    builder.take(Field::Height(frame.height().min(64) as u8 | mark))?;
    take_values(builder, frame.sets())
}

/// The values of locals, and behind them those of slots.
fn take_values<V: Kind>(builder: &mut CertBuilder<V>, sets: &[V]) -> Result<(), CertError> {
    for set in sets {
        builder.take(Field::Value(*set))?;
    }
    Ok(())
}

/// What is known of globals beside their own sets.
fn take_facts<V: Kind>(
    alloc: Global,
    builder: &mut CertBuilder<V>,
    code: &Code<'_>,
    walk: &Walk<'_, V>,
) -> Result<(), CertError> {
    builder.take(Field::FactCount(fact_count(alloc, code, walk)?))?;
    for (index, record) in code.records().iter().enumerate() {
        take_facts_at(alloc, builder, walk, index, record.address)?;
    }
    Ok(())
}

/// How much that is.
fn fact_count<V: Kind>(
    alloc: Global,
    code: &Code<'_>,
    walk: &Walk<'_, V>,
) -> Result<u32, CertError> {
    let mut count = 0u32;
    for index in 0..code.records().len() {
        if let Some(frame) = walk.state.frame_at(alloc, index)? {
            count = count.saturating_add(stated_count(walk, &frame));
        }
    }
    Ok(count)
}

/// How much of it is known of a frame.
fn stated_count<V: Kind>(walk: &Walk<'_, V>, frame: &Frame<V>) -> u32 {
    let mut count = 0u32;
    for (global, set) in frame.told() {
        if stated_of(walk.state.globals(), *global, *set).is_some() {
            count = count.saturating_add(1);
        }
    }
    count
}

/// What is known of globals before an instruction.
fn take_facts_at<V: Kind>(
    alloc: Global,
    builder: &mut CertBuilder<V>,
    walk: &Walk<'_, V>,
    index: usize,
    address: u32,
) -> Result<(), CertError> {
    let Some(frame) = walk.state.frame_at(alloc, index)? else {
        return Ok(());
    };
    for (global, set) in frame.told() {
        if let Some(values) = stated_of(walk.state.globals(), *global, *set) {
            builder.take(Field::FactAddress(address))?;
            builder.take(Field::FactGlobal(*global))?;
            builder.take(Field::FactValues(values))?;
        }
    }
    Ok(())
}

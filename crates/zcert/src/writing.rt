//! Writing a certificate.

ghost use Rattle.std.specs.Prelude.{◌≡◌, ◌≤◌, ◌++◌, length, IfOk, OnOk};
ghost use Rattle.zcert.specs.Certificate.{edition_of};
ghost use Rattle.zcert.specs.Numbers as numbers;
ghost use Rattle.zcert.specs.Listed.{seen};
ghost use Rattle.zcert.specs.View.{content_of};
ghost use Rattle.zcert.specs.Spelling.{identity_bytes, limit_bytes, range_bytes, values_bytes, routine_bytes, instruction_bytes, fact_bytes, facts_bytes, counted, heading, spelling, HasSpelling};

use crate::certificate::Certificate;
use crate::contents::Contents;
use crate::edition::Edition;
use crate::limits::{
    FACT_BYTES, FACT_COUNT_BYTES, FIXED_BYTES, HEADER_BYTES, LIMIT_BYTES, MAGIC, RANGE_BYTES,
    ROUTINE_BYTES,
};
use crate::marks::height_byte;
use crate::parts::{Fact, Instruction, Range, Routine};
use crate::spelled::{Spelled, version_of};
use std::alloc::{AllocError, Global};
use zstory::Identity;

fn put_heading<V: Spelled>(out: &mut Vec<u8>, edition: Edition) -> Result<(), AllocError>
    ensures { OnOk result (out.new.items ≡ out.old.items ++ heading V.format edition) }
{
    out.extend_from_slice(&MAGIC.to_be_bytes())?;
    out.extend_from_slice(&[version_of::<V>(edition)])
}

fn put_limit(out: &mut Vec<u8>, limit: Option<u16>) -> Result<(), AllocError>
    ensures { OnOk result (out.new.items ≡ out.old.items ++ limit_bytes limit) }
{
    match limit {
        Some(limit) => out.extend_from_slice(&limit.to_be_bytes()),
        None => Ok(()),
    }
}

fn put_identity(out: &mut Vec<u8>, identity: &Identity) -> Result<(), AllocError>
    ensures { OnOk result (out.new.items ≡ out.old.items ++ identity_bytes identity.now) }
{
    out.extend_from_slice(&identity.release.to_be_bytes())?;
    out.extend_from_slice(&identity.serial)?;
    out.extend_from_slice(&identity.checksum.to_be_bytes())?;
    out.extend_from_slice(&identity.length.to_be_bytes())
}

fn put_range(out: &mut Vec<u8>, range: Range) -> Result<(), AllocError>
    ensures { OnOk result (out.new.items ≡ out.old.items ++ range_bytes range) }
{
    out.extend_from_slice(&range.first.to_be_bytes())?;
    out.extend_from_slice(&range.last.to_be_bytes())
}

fn put_values<V: Spelled>(out: &mut Vec<u8>, values: &[V]) -> Result<(), AllocError>
    ensures { OnOk result (out.new.items ≡ out.old.items ++ values_bytes V.format values.now) }
{
    for value in values {
        value.write_to(out)?;
    }
    Ok(())
}

fn put_ranges(out: &mut Vec<u8>, ranges: &[Range]) -> Result<(), AllocError>
    requires { length ranges.now ≤ 65535 }
    ensures { OnOk result (out.new.items ≡ out.old.items ++ counted numbers.RangeCount range_bytes ranges.now) }
{
    out.extend_from_slice(&(ranges.len() as u16).to_be_bytes())?;
    for range in ranges {
        put_range(out, *range)?;
    }
    Ok(())
}

fn put_routine<V: Spelled>(out: &mut Vec<u8>, routine: Routine<V>) -> Result<(), AllocError>
    ensures { OnOk result (out.new.items ≡ out.old.items ++ routine_bytes V.format routine) }
{
    out.extend_from_slice(&routine.address.to_be_bytes())?;
    out.push(routine.locals)?;
    routine.result.write_to(out)
}

fn put_routines<V: Spelled>(out: &mut Vec<u8>, routines: &[Routine<V>]) -> Result<(), AllocError>
    requires { length routines.now ≤ 65535 }
    ensures { OnOk result (out.new.items ≡ out.old.items ++ counted numbers.RoutineCount (routine_bytes V.format) routines.now) }
{
    out.extend_from_slice(&(routines.len() as u16).to_be_bytes())?;
    for routine in routines {
        put_routine(out, *routine)?;
    }
    Ok(())
}

fn put_instruction<V: Spelled>(
    out: &mut Vec<u8>,
    instruction: &Instruction<'_, V>,
) -> Result<(), AllocError>
    requires { length instruction.now.slots.now ≤ 64 }
    ensures { OnOk result (out.new.items ≡ out.old.items ++ instruction_bytes V.format (seen instruction.now)) }
{
    out.extend_from_slice(&instruction.address.to_be_bytes())?;
    out.extend_from_slice(&instruction.routine.to_be_bytes())?;
    out.push(height_byte(instruction.is_marked, instruction.slots.len() as u8))?;
    put_values(out, instruction.locals)?;
    put_values(out, instruction.slots)
}

fn put_instructions<V: Spelled>(out: &mut Vec<u8>, contents: &Contents<V>) -> Result<(), AllocError>
    requires { HasSpelling V.format (content_of contents.now) }
    ensures { OnOk result (out.new.items ≡ out.old.items ++ counted numbers.InstructionCount (instruction_bytes V.format) (content_of contents.now).instructions) }
{
    let count = contents.instructions.count();
    let mut room = V::room();
    out.extend_from_slice(&(count as u32).to_be_bytes())?;
    for index in 0..count {
        put_instruction(out, &contents.instructions.get(index, &mut room))?;
    }
    Ok(())
}

fn put_fact<V: Spelled>(out: &mut Vec<u8>, fact: Fact<V>) -> Result<(), AllocError>
    ensures { OnOk result (out.new.items ≡ out.old.items ++ fact_bytes V.format fact) }
{
    out.extend_from_slice(&fact.address.to_be_bytes())?;
    out.push(fact.global)?;
    fact.values.write_to(out)
}

fn put_facts<V: Spelled>(out: &mut Vec<u8>, facts: &[Fact<V>]) -> Result<(), AllocError>
    requires { length facts.now ≤ 1048576 }
    ensures { OnOk result (out.new.items ≡ out.old.items ++ counted numbers.FactCount (fact_bytes V.format) facts.now) }
{
    out.extend_from_slice(&(facts.len() as u32).to_be_bytes())?;
    for fact in facts {
        put_fact(out, *fact)?;
    }
    Ok(())
}

// The facts, where they may be stated.
fn put_stated<V: Spelled>(
    out: &mut Vec<u8>,
    stating: bool,
    facts: &[Fact<V>],
) -> Result<(), AllocError>
    requires { length facts.now ≤ 1048576 }
    ensures { OnOk result (out.new.items ≡ out.old.items ++ facts_bytes V.format stating facts.now) }
{
    if stating {
        put_facts(out, facts)
    } else {
        Ok(())
    }
}

// How many bytes sets take.
fn room_of<V: Spelled>(values: &[V]) -> usize {
    let mut room = 0_usize;
    for value in values {
        room = room.saturating_add(value.length());
    }
    room
}

// And routines.
fn room_of_routines<V: Spelled>(routines: &[Routine<V>]) -> usize {
    let mut room = routines.len().saturating_mul(ROUTINE_BYTES);
    for routine in routines {
        room = room.saturating_add(routine.result.length());
    }
    room
}

// And facts.
fn room_of_facts<V: Spelled>(facts: &[Fact<V>]) -> usize {
    let mut room = facts.len().saturating_mul(FACT_BYTES);
    for fact in facts {
        room = room.saturating_add(fact.values.length());
    }
    room
}

// How many bytes a certificate takes, so that they are taken at once.
fn room_for<V: Spelled>(contents: &Contents<V>) -> usize {
    FIXED_BYTES
        .saturating_add(LIMIT_BYTES)
        .saturating_add(contents.ranges.len().saturating_mul(RANGE_BYTES))
        .saturating_add(room_of(&contents.globals))
        .saturating_add(room_of_routines(&contents.routines))
        .saturating_add(contents.instructions.count().saturating_mul(HEADER_BYTES))
        .saturating_add(contents.instructions.bytes_of_sets())
        .saturating_add(FACT_COUNT_BYTES)
        .saturating_add(room_of_facts(&contents.facts))
}

// What stands before the ranges.
fn put_front<V: Spelled>(out: &mut Vec<u8>, contents: &Contents<V>) -> Result<(), AllocError>
    ensures { OnOk result (out.new.items ≡ out.old.items ++ (heading V.format (edition_of (content_of contents.now)) ++ identity_bytes contents.now.identity ++ limit_bytes contents.now.limit)) }
{
    put_heading::<V>(out, contents.edition())?;
    put_identity(out, &contents.identity)?;
    put_limit(out, contents.limit)
}

// The routines and the instructions.
fn put_code<V: Spelled>(out: &mut Vec<u8>, contents: &Contents<V>) -> Result<(), AllocError>
    requires { HasSpelling V.format (content_of contents.now) }
    ensures { OnOk result (out.new.items ≡ out.old.items ++ (counted numbers.RoutineCount (routine_bytes V.format) (content_of contents.now).routines ++ counted numbers.InstructionCount (instruction_bytes V.format) (content_of contents.now).instructions)) }
{
    put_routines(out, &contents.routines)?;
    put_instructions(out, contents)
}

// All that a certificate says, apart from the vector, which would be dropped where any of these is refused.
fn put_all<V: Spelled>(out: &mut Vec<u8>, contents: &Contents<V>) -> Result<(), AllocError>
    requires { HasSpelling V.format (content_of contents.now) }
    ensures { OnOk result (out.new.items ≡ out.old.items ++ spelling V.format (content_of contents.now)) }
{
    put_front(out, contents)?;
    put_ranges(out, &contents.ranges)?;
    put_values(out, &contents.globals)?;
    put_code(out, contents)?;
    put_stated(out, contents.stating, &contents.facts)
}

/// The one spelling of a certificate. It always has bytes, so whichever certificate it is, the growth for them may be refused.
pub fn write<V: Spelled>(alloc: Global, certificate: &Certificate<V>) -> Result<Vec<u8>, AllocError>
    ensures spelled { IfOk result (λ bytes. bytes.items ≡ spelling V.format certificate.now) }
    // So that reading it gives the certificate again.
    ensures keeps { HasSpelling V.format certificate.now }
{
    let contents = certificate.contents();
    let mut out = Vec::with_capacity(alloc, room_for(contents))?;
    put_all(&mut out, contents)?;
    Ok(out)
}

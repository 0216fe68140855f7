//! A certificate in the making: where each field leads.

ghost use Rattle.std.specs.Prelude.{◌≡◌, ◌≢◌, Err};
ghost use Rattle.zcert.specs.Reading.{global_fits};

use crate::contents::Contents;
use crate::edition::Edition;
use crate::error::CertError;
use crate::field::{Field, Header, Turn};
use crate::instructions::Instructions;
use crate::limits::{
    ADDRESS_LIMIT, GLOBALS, MAX_FACTS, MAX_FRAMES, MAX_HEIGHT, MAX_INSTRUCTIONS, MAX_LOCALS,
};
use crate::marks::{height_in, is_mark};
use crate::parts::{Fact, Range, Routine};
use crate::spelled::Spelled;
use crate::turns::{
    before_facts, before_globals, before_instructions, before_ranges, before_routines,
    behind_identity,
};
use std::alloc::Global;
use zstory::Identity;

/// What has come so far.
#[derive(Drop)]
pub struct Building<V: Spelled> {
    pub contents: Contents<V>,
    /// The least that the next address, or the next range's first byte, may be.
    pub floor: u32,
    pub turn: Turn,
}

// Whether a global of a fact is one, and rises.
fn fits_global(least: u8, global: u8) -> Result<(), CertError>
    ensures value { result ≡ global_fits least global }
    ensures plain { result ≢ Err CertError.OutOfMemory }
{
    if global < least {
        return Err(CertError::Order);
    }
    if global >= GLOBALS {
        return Err(CertError::Limit);
    }
    Ok(())
}

// Each takes one kind of field. Out of turn it is out of order; a field that is refused changes nothing.
impl<V: Spelled> Building<V> {
    ghost use Rattle.std.specs.Prelude.{◌≡◌, ◌≢◌, ◌+◌, ◌<◌, Err, length};
    ghost use Rattle.zcert.specs.View.{progress_of, Takes};
    ghost use Rattle.zcert.specs.Facts as facts;
    ghost use Rattle.zcert.specs.Reading.{address_fits};
    ghost use Rattle.zcert.specs.Certificate.{locals_of};
    ghost use Rattle.zcert.specs.Fields.{IsField};
    ghost use Rattle.zcert.specs.Marks as spec;
    ghost use Rattle.zcert.specs.Building.{opening, before_values, taken, Adds, HasNoValues, IsDue, after_release, after_serial, after_checksum, after_loaded_length, after_frame_limit, after_range_count, after_range_first, after_range_last, after_global, after_routine_count, after_routine_address, after_local_count, after_routine_result, after_instruction_count, after_instruction_address, after_routine_number, after_height, after_value, after_fact_count, after_fact_address, after_fact_global, after_fact_values};

    /// Nothing yet.
    pub fn new(alloc: Global, edition: Edition) -> Building<V>
        ensures { progress_of result ≡ opening edition }
    {
        Building {
            contents: Contents {
                identity: Identity {
                    release: 0,
                    serial: [0; 6],
                    checksum: 0,
                    length: 0,
                },
                limit: edition.limit(),
                marking: edition.is_marking(),
                stating: edition.is_stating(),
                ranges: Vec::new(alloc),
                globals: Vec::new(alloc),
                routines: Vec::new(alloc),
                instructions: Instructions::new(alloc),
                facts: Vec::new(alloc),
            },
            floor: 0,
            turn: Turn::Release,
        }
    }

    fn release(&mut self, release: u16) -> Result<(), CertError>
        ensures takes { Takes (progress_of self.old) (progress_of self.new) result (after_release release self.old.turn (progress_of self.old)) }
        ensures plain { result ≢ Err CertError.OutOfMemory }
    {
        let Turn::Release = self.turn else {
            return Err(CertError::Order);
        };
        self.contents.identity.release = release;
        self.turn = Turn::Serial;
        Ok(())
    }

    fn serial(&mut self, serial: [u8; 6]) -> Result<(), CertError>
        ensures takes { Takes (progress_of self.old) (progress_of self.new) result (after_serial serial self.old.turn (progress_of self.old)) }
        ensures plain { result ≢ Err CertError.OutOfMemory }
    {
        let Turn::Serial = self.turn else {
            return Err(CertError::Order);
        };
        self.contents.identity.serial = serial;
        self.turn = Turn::Checksum;
        Ok(())
    }

    fn checksum(&mut self, checksum: u16) -> Result<(), CertError>
        ensures takes { Takes (progress_of self.old) (progress_of self.new) result (after_checksum checksum self.old.turn (progress_of self.old)) }
        ensures plain { result ≢ Err CertError.OutOfMemory }
    {
        let Turn::Checksum = self.turn else {
            return Err(CertError::Order);
        };
        self.contents.identity.checksum = checksum;
        self.turn = Turn::LoadedLength;
        Ok(())
    }

    fn loaded_length(&mut self, bytes: u32) -> Result<(), CertError>
        ensures takes { Takes (progress_of self.old) (progress_of self.new) result (after_loaded_length bytes self.old.turn (progress_of self.old)) }
        ensures plain { result ≢ Err CertError.OutOfMemory }
    {
        let Turn::LoadedLength = self.turn else {
            return Err(CertError::Order);
        };
        self.contents.identity.length = bytes;
        self.turn = behind_identity(self.contents.limit);
        Ok(())
    }

    fn frame_limit(&mut self, limit: u16) -> Result<(), CertError>
        ensures takes { Takes (progress_of self.old) (progress_of self.new) result (after_frame_limit limit self.old.turn (progress_of self.old)) }
        ensures plain { result ≢ Err CertError.OutOfMemory }
    {
        let Turn::FrameLimit = self.turn else {
            return Err(CertError::Order);
        };
        if limit > MAX_FRAMES {
            return Err(CertError::Limit);
        }
        self.contents.limit = Some(limit);
        self.turn = Turn::RangeCount;
        Ok(())
    }

    fn range_count(&mut self, count: u16) -> Result<(), CertError>
        ensures takes { Takes (progress_of self.old) (progress_of self.new) result (after_range_count count self.old.turn (progress_of self.old)) }
        ensures plain { result ≢ Err CertError.OutOfMemory }
    {
        let Turn::RangeCount = self.turn else {
            return Err(CertError::Order);
        };
        self.floor = 0;
        self.turn = before_ranges(count);
        Ok(())
    }

    fn range_first(&mut self, first: u16) -> Result<(), CertError>
        ensures takes { Takes (progress_of self.old) (progress_of self.new) result (after_range_first first self.old.turn (progress_of self.old)) }
        ensures plain { result ≢ Err CertError.OutOfMemory }
    {
        let Turn::RangeFirst { more } = self.turn else {
            return Err(CertError::Order);
        };
        if u32::from(first) < self.floor {
            return Err(CertError::Order);
        }
        self.turn = Turn::RangeLast { more, first };
        Ok(())
    }

    fn range_last(&mut self, last: u16) -> Result<(), CertError>
        ensures { Takes (progress_of self.old) (progress_of self.new) result (after_range_last last self.old.turn (progress_of self.old)) }
    {
        let Turn::RangeLast { more, first } = self.turn else {
            return Err(CertError::Order);
        };
        if last < first {
            return Err(CertError::Order);
        }
        self.contents.ranges.push(Range { first, last })?;
        self.floor = u32::from(last) + 2;
        self.turn = before_ranges(more);
        Ok(())
    }

    fn global(&mut self, values: V) -> Result<(), CertError>
        ensures { Takes (progress_of self.old) (progress_of self.new) result (after_global values self.old.turn (progress_of self.old)) }
    {
        let Turn::Global { more } = self.turn else {
            return Err(CertError::Order);
        };
        self.contents.globals.push(values)?;
        self.turn = before_globals(more);
        Ok(())
    }

    fn routine_count(&mut self, count: u16) -> Result<(), CertError>
        ensures takes { Takes (progress_of self.old) (progress_of self.new) result (after_routine_count count self.old.turn (progress_of self.old)) }
        ensures plain { result ≢ Err CertError.OutOfMemory }
    {
        let Turn::RoutineCount = self.turn else {
            return Err(CertError::Order);
        };
        self.floor = 0;
        self.turn = before_routines(count);
        Ok(())
    }

    // Whether an address rises and is below its limit.
    fn address(&self, address: u32) -> Result<(), CertError>
        ensures value { result ≡ address_fits self.now.floor address }
        ensures plain { result ≢ Err CertError.OutOfMemory }
    {
        if address < self.floor {
            return Err(CertError::Order);
        }
        if address >= ADDRESS_LIMIT {
            return Err(CertError::Limit);
        }
        Ok(())
    }

    fn routine_address(&mut self, address: u32) -> Result<(), CertError>
        ensures takes { Takes (progress_of self.old) (progress_of self.new) result (after_routine_address address self.old.turn (progress_of self.old)) }
        ensures plain { result ≢ Err CertError.OutOfMemory }
    {
        let Turn::RoutineAddress { more } = self.turn else {
            return Err(CertError::Order);
        };
        self.address(address)?;
        self.turn = Turn::LocalCount { more, address };
        Ok(())
    }

    fn local_count(&mut self, locals: u8) -> Result<(), CertError>
        ensures takes { Takes (progress_of self.old) (progress_of self.new) result (after_local_count locals self.old.turn (progress_of self.old)) }
        ensures plain { result ≢ Err CertError.OutOfMemory }
    {
        let Turn::LocalCount { more, address } = self.turn else {
            return Err(CertError::Order);
        };
        if locals > MAX_LOCALS {
            return Err(CertError::Limit);
        }
        self.turn = Turn::RoutineResult {
            more,
            address,
            locals,
        };
        Ok(())
    }

    fn routine_result(&mut self, values: V) -> Result<(), CertError>
        requires { IsDue self.old.turn (progress_of self.old).values }
        ensures { Takes (progress_of self.old) (progress_of self.new) result (after_routine_result values self.old.turn (progress_of self.old)) }
    {
        let Turn::RoutineResult {
            more,
            address,
            locals,
        } = self.turn
        else {
            return Err(CertError::Order);
        };
        self.contents.routines.push(Routine {
            address,
            locals,
            result: values,
        })?;
        self.floor = address + 1;
        self.turn = before_routines(more);
        Ok(())
    }

    fn instruction_count(&mut self, count: u32) -> Result<(), CertError>
        ensures takes { Takes (progress_of self.old) (progress_of self.new) result (after_instruction_count count self.old.turn (progress_of self.old)) }
        ensures plain { result ≢ Err CertError.OutOfMemory }
    {
        let Turn::InstructionCount = self.turn else {
            return Err(CertError::Order);
        };
        if count > MAX_INSTRUCTIONS {
            return Err(CertError::Limit);
        }
        self.floor = 0;
        self.turn = before_instructions(self.contents.stating, count);
        Ok(())
    }

    fn instruction_address(&mut self, address: u32) -> Result<(), CertError>
        ensures takes { Takes (progress_of self.old) (progress_of self.new) result (after_instruction_address address self.old.turn (progress_of self.old)) }
        ensures plain { result ≢ Err CertError.OutOfMemory }
    {
        let Turn::InstructionAddress { more } = self.turn else {
            return Err(CertError::Order);
        };
        self.address(address)?;
        self.contents.instructions.begin();
        self.turn = Turn::RoutineNumber { more, address };
        Ok(())
    }

    fn routine_number(&mut self, routine: u16) -> Result<(), CertError>
        ensures takes { Takes (progress_of self.old) (progress_of self.new) result (after_routine_number routine self.old.turn (progress_of self.old)) }
        ensures plain { result ≢ Err CertError.OutOfMemory }
    {
        let Turn::RoutineNumber { more, address } = self.turn else {
            return Err(CertError::Order);
        };
        if usize::from(routine) > self.contents.routines.len() {
            return Err(CertError::Limit);
        }
        self.turn = Turn::Height {
            more,
            address,
            routine,
        };
        Ok(())
    }

    // How many locals the routine of a number has.
    fn locals_of(&self, routine: u16) -> u8
        ensures { result ≡ locals_of self.now.contents.routines.items routine }
    {
        if routine == 0 {
            return 0;
        }
        match self.contents.routines.get(usize::from(routine) - 1) {
            Some(found) => found.locals,
            None => 0,
        }
    }

    // Goes on where so many values of an instruction are to come. With the last one it is stored, in room that is reserved.
    fn await_values(&mut self, left: u16, more: u32, header: Header)
        requires address { header.address < ADDRESS_LIMIT }
        requires counted { length (progress_of self.old).values + left ≡ header.locals + header.height }
        requires room { left ≡ 0 → 0 < self.old.contents.instructions.room }
        ensures { progress_of self.new ≡ before_values left more header (progress_of self.old) }
    {
        if left > 0 {
            self.turn = Turn::Value {
                more,
                header,
                left: left - 1,
            };
            return;
        }
        self.contents.instructions.store(header);
        self.floor = header.address + 1;
        self.turn = before_instructions(self.contents.stating, more);
    }

    fn height(&mut self, byte: u8) -> Result<(), CertError>
        requires { IsDue self.old.turn (progress_of self.old).values }
        ensures takes { Takes (progress_of self.old) (progress_of self.new) result (after_height byte self.old.turn (progress_of self.old)) }
        ensures memory { result ≡ Err CertError.OutOfMemory → HasNoValues self.old.contents.routines.items self.old.turn (spec.height_in self.old.contents.marking byte) }
    {
        let Turn::Height {
            more,
            address,
            routine,
        } = self.turn
        else {
            return Err(CertError::Order);
        };
        let height = height_in(self.contents.marking, byte);
        if height > MAX_HEIGHT {
            return Err(CertError::Limit);
        }
        let locals = self.locals_of(routine);
        let left = u16::from(locals) + u16::from(height);
        if left == 0 {
            self.contents.instructions.reserve()?;
        }
        let header = Header {
            address,
            routine,
            locals,
            height,
            is_marked: is_mark(self.contents.marking, byte),
        };
        self.await_values(left, more, header);
        Ok(())
    }

    fn value(&mut self, values: V) -> Result<(), CertError>
        requires { IsDue self.old.turn (progress_of self.old).values }
        ensures { Takes (progress_of self.old) (progress_of self.new) result (after_value values self.old.turn (progress_of self.old)) }
    {
        let Turn::Value { more, header, left } = self.turn else {
            return Err(CertError::Order);
        };
        if left == 0 {
            self.contents.instructions.reserve()?;
        }
        self.contents.instructions.push(values)?;
        self.await_values(left, more, header);
        Ok(())
    }

    fn fact_count(&mut self, count: u32) -> Result<(), CertError>
        ensures takes { Takes (progress_of self.old) (progress_of self.new) result (after_fact_count count self.old.turn (progress_of self.old)) }
        ensures plain { result ≢ Err CertError.OutOfMemory }
    {
        let Turn::FactCount = self.turn else {
            return Err(CertError::Order);
        };
        if count > MAX_FACTS {
            return Err(CertError::Limit);
        }
        self.floor = 0;
        self.turn = before_facts(0, count);
        Ok(())
    }

    // The least global that may be stated at an address, where this one may be at the floor.
    fn least_global(&self, least: u8, address: u32) -> u8
        ensures { result ≡ facts.least_global self.now.floor least address }
    {
        if address == self.floor { least } else { 0 }
    }

    fn fact_address(&mut self, address: u32) -> Result<(), CertError>
        ensures takes { Takes (progress_of self.old) (progress_of self.new) result (after_fact_address address self.old.turn (progress_of self.old)) }
        ensures plain { result ≢ Err CertError.OutOfMemory }
    {
        let Turn::FactAddress { more, least } = self.turn else {
            return Err(CertError::Order);
        };
        self.address(address)?;
        self.turn = Turn::FactGlobal {
            more,
            address,
            least: self.least_global(least, address),
        };
        Ok(())
    }

    fn fact_global(&mut self, global: u8) -> Result<(), CertError>
        ensures takes { Takes (progress_of self.old) (progress_of self.new) result (after_fact_global global self.old.turn (progress_of self.old)) }
        ensures plain { result ≢ Err CertError.OutOfMemory }
    {
        let Turn::FactGlobal {
            more,
            address,
            least,
        } = self.turn
        else {
            return Err(CertError::Order);
        };
        fits_global(least, global)?;
        self.turn = Turn::FactValues {
            more,
            address,
            global,
        };
        Ok(())
    }

    fn fact_values(&mut self, values: V) -> Result<(), CertError>
        requires { IsDue self.old.turn (progress_of self.old).values }
        ensures { Takes (progress_of self.old) (progress_of self.new) result (after_fact_values values self.old.turn (progress_of self.old)) }
    {
        let Turn::FactValues {
            more,
            address,
            global,
        } = self.turn
        else {
            return Err(CertError::Order);
        };
        self.contents.facts.push(Fact {
            address,
            global,
            values,
        })?;
        self.floor = address;
        self.turn = before_facts(global + 1, more);
        Ok(())
    }

    /// Takes the field whose turn it is.
    pub fn take(&mut self, field: Field<V>) -> Result<(), CertError>
        requires { IsDue self.old.turn (progress_of self.old).values }
        ensures takes { Takes (progress_of self.old) (progress_of self.new) result (taken (progress_of self.old) field) }
        ensures fits { IsField V.format field }
        ensures memory { result ≡ Err CertError.OutOfMemory → Adds (progress_of self.old) field }
    {
        match field {
            Field::Release(release) => self.release(release),
            Field::Serial(serial) => self.serial(serial),
            Field::Checksum(checksum) => self.checksum(checksum),
            Field::LoadedLength(bytes) => self.loaded_length(bytes),
            Field::FrameLimit(limit) => self.frame_limit(limit),
            Field::RangeCount(count) => self.range_count(count),
            Field::RangeFirst(first) => self.range_first(first),
            Field::RangeLast(last) => self.range_last(last),
            Field::Global(values) => {
                values.has_spelling();
                self.global(values)
            }
            Field::RoutineCount(count) => self.routine_count(count),
            Field::RoutineAddress(address) => self.routine_address(address),
            Field::LocalCount(locals) => self.local_count(locals),
            Field::RoutineResult(values) => {
                values.has_spelling();
                self.routine_result(values)
            }
            Field::InstructionCount(count) => self.instruction_count(count),
            Field::InstructionAddress(address) => self.instruction_address(address),
            Field::RoutineNumber(routine) => self.routine_number(routine),
            Field::Height(byte) => self.height(byte),
            Field::Value(values) => {
                values.has_spelling();
                self.value(values)
            }
            Field::FactCount(count) => self.fact_count(count),
            Field::FactAddress(address) => self.fact_address(address),
            Field::FactGlobal(global) => self.fact_global(global),
            Field::FactValues(values) => {
                values.has_spelling();
                self.fact_values(values)
            }
        }
    }
}

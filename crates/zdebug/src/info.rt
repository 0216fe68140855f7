//! The debug information of a story.

ghost use Rattle.std.specs.Prelude.{◌≡◌};
ghost use Rattle.std.specs.Option.{option_map};
ghost use Rattle.zdebug.specs.Steps.{Answers};
ghost use Rattle.zdebug.specs.Reading.{file_reading};
ghost use Rattle.zdebug.specs.Places.{name_at, routine_in, place_in, global_in};
ghost use Rattle.zdebug.specs.Spots.{spot_of_place};

use crate::error::DebugError;
use crate::lookup::{global_in, name_at, place_in, routine_in};
use crate::place::Place;
use crate::reading::records_of;
use crate::records::Records;
use std::alloc::Global;
use std::marker::Model;

/// The most bytes of a file that is read: 128 for each byte of the longest story of version 3, of which Inform 6.41 writes 14 to 21.
pub const FILE_LIMIT: usize = 128 * 131_072;

/// The debug information that Inform 6 writes about a story. Clauses see it as the records of the file.
#[derive(Drop)]
pub struct DebugInfo {
    records: Records,
}

impl Model for DebugInfo {
    ghost use Rattle.zdebug.specs.Records.{Found};
    ghost use Rattle.zdebug.specs.View.{found_of};

    ghost Value = { Found };

    ghost view = { λ i. found_of i.records };
}

impl DebugInfo {
    /// Reads a file, in time that is linear in it but for the orders of its records.
    ///
    /// # Errors
    ///
    /// [`DebugError::TooLong`] of more than [`FILE_LIMIT`] bytes. Else the first thing that is wrong, as the file is gone through once: a
    /// text is judged where its element ends, and a record where it ends. [`DebugError::OutOfMemory`] where a growth was refused.
    pub fn read(alloc: Global, bytes: &[u8]) -> Result<DebugInfo, DebugError>
        ensures { Answers (λ i. i) result (file_reading bytes.now) }
    {
        if bytes.len() > FILE_LIMIT {
            return Err(DebugError::TooLong);
        }
        match records_of(alloc, bytes) {
            Ok(records) => Ok(DebugInfo { records }),
            Err(error) => Err(error),
        }
    }

    /// Where in the source the code at a byte address of the story comes from: the sequence point of the greatest address that isn't
    /// above it, from the first byte of its routine on. None where [`routine_at`](DebugInfo::routine_at) has none, in front of the
    /// first sequence point of a routine, and where the file of the point isn't among the sources.
    pub fn place_of(&self, address: u32) -> Option<Place<'_>>
        ensures { option_map spot_of_place result ≡ place_in self.now address }
    {
        place_in(&self.records, address)
    }

    /// The name of the routine whose bytes hold a byte address of the story. It is that of the greatest address that isn't above, and
    /// None where that one ends before: the routines of a story don't overlap, and whether those of the file do isn't asked.
    pub fn routine_at(&self, address: u32) -> Option<&[u8]>
        ensures { option_map (λ name. name.now) result ≡ option_map (λ r. r.1.name) (routine_in self.now address) }
    {
        match routine_in(&self.records, address) {
            None => None,
            Some((_, routine)) => Some(routine.name.bytes()),
        }
    }

    /// The name of a global variable, by its number from 0 (variable 16 of the machine) on. None where the file names none at its
    /// place, or doesn't say where the first one stands.
    pub fn global(&self, number: u8) -> Option<&[u8]>
        ensures { option_map (λ name. name.now) result ≡ global_in self.now number }
    {
        global_in(&self.records, number)
    }

    /// The name of an object or a class, by its number in the story: Inform calls 0 `nothing`.
    pub fn object(&self, number: u32) -> Option<&[u8]>
        ensures { option_map (λ name. name.now) result ≡ name_at self.now.objects number }
    {
        name_at(&self.records.objects, number)
    }

    /// The name of an attribute, by its number from 0.
    pub fn attribute(&self, number: u32) -> Option<&[u8]>
        ensures { option_map (λ name. name.now) result ≡ name_at self.now.attributes number }
    {
        name_at(&self.records.attributes, number)
    }

    /// The name of a property, by its number from 1 on: those from 64 on are no properties of the machine.
    pub fn property(&self, number: u32) -> Option<&[u8]>
        ensures { option_map (λ name. name.now) result ≡ name_at self.now.properties number }
    {
        name_at(&self.records.properties, number)
    }
}

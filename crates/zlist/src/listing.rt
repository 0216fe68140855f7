//! The listing of a story.

use crate::numbers::{record_numbers, routine_numbers};
use crate::order::{
    MOST_ROUTINES, are_records_inside, are_routines_inside, do_records_rise, do_routines_rise,
};
use crate::record::Record;
use std::alloc::{AllocError, Global};
use std::marker::Model;

/// The instructions of a story that may be played, by rising address, and its routines (own).
///
/// Contracts see it as a `ListedCode`. What stands at an address is told in constant time, whatever is listed: two
/// tables, made once, have an entry for each address up to the highest.
#[derive(Drop)]
pub struct Listing {
    records: Vec<Record>,
    routines: Vec<u32>,
    /// The number of the record at an address, counted from 1, or 0.
    record_numbers: Vec<u32>,
    /// The number of the routine at an address, counted from 1, or 0.
    routine_numbers: Vec<u16>,
}

impl Model for Listing {
    ghost use Rattle.zlist.specs.Listing.{ListedCode};
    ghost use Rattle.zlist.specs.Numbering.{IsKept};

    ghost Value = { ListedCode };

    ghost view = { λ l. record { records = l.records.items; routines = l.routines.items } };

    ghost invariant = { λ l. IsKept (record { records = l.records.items; routines = l.routines.items }) l.record_numbers.items l.routine_numbers.items };
}

impl Listing {
    ghost use Rattle.std.specs.Prelude.{◌≡◌, ◌<◌, ◌≤◌, ◌==◌, ◌↔◌, IfOk, IfSome, IsTrue, length, option_copied};
    ghost use Rattle.zlist.specs.Listing.{IsInOrder, index_of, is_listed, is_routine, record_at, routine_at};
    ghost use Rattle.zlist.specs.Numbering.{Tells};

    /// The listing of these records and routines, which it keeps.
    ///
    /// Its tables take 4 bytes for each address up to the last record's and 2 up to the last routine's. The one error
    /// is want of memory.
    pub fn new(
        alloc: Global,
        records: Vec<Record>,
        routines: Vec<u32>,
    ) -> Result<Listing, AllocError>
        requires { IsInOrder (record { records = records.items; routines = routines.items }) }
        ensures { IfOk result (λ listing. listing ≡ record { records = records.items; routines = routines.items }) }
    {
        let record_numbers = record_numbers(alloc, &records)?;
        let routine_numbers = routine_numbers(alloc, &routines)?;
        Ok(Listing {
            records,
            routines,
            record_numbers,
            routine_numbers,
        })
    }

    /// Whether a listing can be made of these records and routines.
    pub fn is_in_order(records: &[Record], routines: &[u32]) -> bool
        ensures { IsTrue result ↔ IsInOrder (record { records = records.now; routines = routines.now }) }
    {
        do_records_rise(records)
            && are_records_inside(records, routines.len())
            && do_routines_rise(routines)
            && are_routines_inside(routines)
            && routines.len() <= MOST_ROUTINES
    }

    /// The listed instructions by rising address, at most 131,072.
    pub fn records(&self) -> &[Record]
        ensures value { result.now ≡ self.now.records }
        ensures order { IsInOrder self.now }
        ensures few { length result.now ≤ 131072 }
    {
        &self.records
    }

    /// The addresses of the routines 1, 2 and so on, rising, at most 65,535.
    pub fn routines(&self) -> &[u32]
        ensures value { result.now ≡ self.now.routines }
        ensures order { IsInOrder self.now }
    {
        &self.routines
    }

    /// Where among the records the instruction at the address stands, counted from 0.
    pub fn index_of(&self, address: usize) -> Option<usize>
        ensures value { result ≡ index_of self.now address }
        ensures within { IfSome result (λ k. k < length self.now.records) }
    {
        (self.record_number(address) as usize).checked_sub(1)
    }

    /// The instruction at the address.
    pub fn at(&self, address: usize) -> Option<&Record>
        ensures { option_copied result ≡ record_at self.now address }
    {
        let index = self.index_of(address)?;
        Some(&self.records[index])
    }

    /// Whether an instruction is listed at the address.
    pub fn contains(&self, address: usize) -> bool
        ensures value { result ≡ is_listed self.now address }
        ensures limit { IsTrue result → address < 131072 }
    {
        self.record_number(address) > 0
    }

    /// The number of the routine at the address, counted from 1.
    pub fn routine_at(&self, address: usize) -> Option<u16>
        ensures { result ≡ routine_at self.now address }
    {
        let number = self.routine_number(address);
        (number > 0).then_some(number)
    }

    /// Whether a routine is listed at the address.
    pub fn is_routine(&self, address: usize) -> bool
        ensures value { result ≡ is_routine self.now address }
        ensures limit { IsTrue result → address < 131072 }
    {
        self.routine_number(address) > 0
    }

    /// The number of the record at the address, counted from 1, or 0.
    fn record_number(&self, address: usize) -> u32
        ensures told { Tells (λ r. r.address == address) self.now.records result }
        ensures limit { 0 < result → address < 131072 }
    {
        self.record_numbers.get(address).copied().unwrap_or(0)
    }

    /// The number of the routine at the address, counted from 1, or 0.
    fn routine_number(&self, address: usize) -> u16
        ensures told { Tells (λ a. a == address) self.now.routines result }
        ensures limit { 0 < result → address < 131072 }
    {
        self.routine_numbers.get(address).copied().unwrap_or(0)
    }
}

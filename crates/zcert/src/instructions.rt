//! How the instructions of a certificate are kept.

ghost use Rattle.std.specs.Prelude.{◌≡◌, ◌+◌, ◌<◌, ◌++◌, ◌∷◌, [], ◌≤◌, IfSome, OnOk, OnErr, Some, length, slice_get};
ghost use Rattle.std.specs.List.{filter};
ghost use Rattle.zcert.specs.Building.{instruction_of};
ghost use Rattle.zcert.specs.Contents.{has_mark};
ghost use Rattle.zcert.specs.Listed.{seen, Finds};
ghost use Rattle.zcert.specs.Marks.{marks};
ghost use Rattle.zcert.specs.Spelling.{InstructionsRise};

use crate::field::Header;
use crate::parts::Instruction;
use crate::spelled::Spelled;
use std::alloc::{AllocError, Global};
use std::marker::Model;

/// What is said of an instruction. Its sets begin at `start` of all cells: those of its locals, and then those of its slots.
#[derive(Clone, Copy)]
pub struct Stored {
    pub address: u32,
    pub routine: u16,
    pub locals: u8,
    pub height: u8,
    pub is_marked: bool,
    pub start: usize,
}

/// Instructions with their sets, all in one list of cells. The sets of the newest begin at `start`, and `came` of them have come.
#[derive(Drop)]
pub struct Instructions<V: Spelled> {
    stored: Vec<Stored>,
    cells: Vec<V::Cell>,
    start: usize,
    came: usize,
}

impl<V: Spelled> Model for Instructions<V> {
    ghost use Rattle.std.specs.Prelude.{◌-◌, map, drop, vec_len, vec_capacity};
    ghost use Rattle.zcert.specs.Contents.{Kept, AreHeld, stored_instruction};

    ghost Value = { Kept V };

    ghost view = { λ k. record { instructions = map (stored_instruction V.keeping k.cells.items) k.stored.items; values = V.keeping.sets k.came (drop k.start k.cells.items); room = vec_capacity k.stored - vec_len k.stored } };

    ghost invariant = { λ k. AreHeld V.format V.keeping k.stored.items k.cells.items k.start k.came };
}

// How many are marked.
fn marks_of(stored: &[Stored]) -> usize
    ensures { result ≡ length (filter has_mark stored.now) }
{
    stored.iter().filter(|stored| stored.is_marked).count()
}

impl<V: Spelled> Instructions<V> {
    /// None.
    pub fn new(alloc: Global) -> Instructions<V>
        ensures instructions { result.instructions ≡ [] }
        ensures values { result.values ≡ [] }
    {
        Instructions {
            stored: Vec::new(alloc),
            cells: Vec::new(alloc),
            start: 0,
            came: 0,
        }
    }

    /// Begins with the next instruction, of which no set has come.
    pub fn begin(&mut self)
        ensures instructions { self.new.instructions ≡ self.old.instructions }
        ensures values { self.new.values ≡ [] }
    {
        self.start = self.cells.len();
        self.came = 0;
    }

    /// Takes room for one more instruction.
    pub fn reserve(&mut self) -> Result<(), AllocError>
        ensures instructions { self.new.instructions ≡ self.old.instructions }
        ensures values { self.new.values ≡ self.old.values }
        ensures room { OnOk result (0 < self.new.room) }
    {
        self.stored.reserve(1)
    }

    /// Adds a set of the newest instruction.
    pub fn push(&mut self, set: V) -> Result<(), AllocError>
        ensures instructions { self.new.instructions ≡ self.old.instructions }
        ensures values { OnOk result (self.new.values ≡ self.old.values ++ set ∷ []) }
        ensures room { self.new.room ≡ self.old.room }
        ensures err { OnErr result (self.new.values ≡ self.old.values) }
    {
        set.has_spelling();
        set.keep(&mut self.cells)?;
        self.came += 1;
        Ok(())
    }

    /// Stores the newest instruction, all of whose sets have come, where there is room.
    pub fn store(&mut self, header: Header)
        requires room { 0 < self.old.room }
        requires counted { length self.old.values ≡ header.locals + header.height }
        ensures instructions { self.new.instructions ≡ self.old.instructions ++ instruction_of header self.old.values ∷ [] }
        ensures values { self.new.values ≡ self.old.values }
    {
        self.stored.push_reserved(Stored {
            address: header.address,
            routine: header.routine,
            locals: header.locals,
            height: header.height,
            is_marked: header.is_marked,
            start: self.start,
        });
    }

    /// How many there are.
    pub fn count(&self) -> usize
        ensures { result ≡ length self.now.instructions }
    {
        self.stored.len()
    }

    /// About how many bytes all of their sets take.
    pub fn bytes_of_sets(&self) -> usize {
        V::kept_length(&self.cells)
    }

    /// The instruction of an index; its sets are lent, or made in the room.
    pub fn get<'a>(&'a self, index: usize, room: &'a mut V::Room) -> Instruction<'a, V>
        requires there { index < length self.now.instructions }
        requires few { IfSome (slice_get self.now.instructions index) (λ i. length i.locals + length i.slots ≤ 79) }
        ensures { slice_get self.now.instructions index ≡ Some (seen result) }
    {
        let stored = self.stored[index];
        let count = usize::from(stored.locals) + usize::from(stored.height);
        let sets = V::sets(&self.cells[stored.start..], count, room);
        let (locals, slots) = sets.split_at(usize::from(stored.locals));
        Instruction {
            address: stored.address,
            routine: stored.routine,
            is_marked: stored.is_marked,
            locals,
            slots,
        }
    }

    /// The address of the instruction of an index.
    pub fn address_of(&self, index: usize) -> u32
        requires { index < length self.now.instructions }
        ensures { IfSome (slice_get self.now.instructions index) (λ i. i.address ≡ result) }
    {
        self.stored[index].address
    }

    /// Whether the instruction of an index is marked.
    pub fn is_marked(&self, index: usize) -> bool
        requires { index < length self.now.instructions }
        ensures { IfSome (slice_get self.now.instructions index) (λ i. i.is_marked ≡ result) }
    {
        self.stored[index].is_marked
    }

    /// How many are marked.
    pub fn marks(&self) -> usize
        ensures { result ≡ marks self.now.instructions }
    {
        marks_of(&self.stored)
    }

    /// The index of the instruction that is listed at an address, if one is.
    pub fn index_of(&self, address: u32) -> Option<usize>
        requires { InstructionsRise self.now.instructions }
        ensures { Finds self.now.instructions address result }
    {
        self.stored
            .as_slice()
            .binary_search_by_key(&address, |stored| stored.address)
            .ok()
    }
}

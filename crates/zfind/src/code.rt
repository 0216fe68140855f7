//! What is found once of a story's code.

use crate::bytes::Span;
use crate::gaps::{ADDRESSES, Gaps};
use crate::groups::Groups;
use crate::recursion::recursive_routines;
use crate::thresholds::Thresholds;
use std::alloc::{AllocError, Global};
use zcode::{Instr, Operand, Operation};
use zdomain::Domain;
use zlist::{Listing, Record};
use zobj::PropertyQuestion;
use zplace::{data_end, list_place, table_of};
use zstory::Story;

/// How many globals there are, from variable 16 on (Z 6.2).
const GLOBALS: usize = 240;

/// A story's listing, with what depends on what.
#[derive(Drop)]
pub(crate) struct Code<'a> {
    pub(crate) story: &'a Story,
    listing: &'a Listing,
    /// By each global, from variable 16 on, what reads it.
    readers: Groups,
    /// By each routine's number, what calls it by a constant.
    callers: Groups,
    /// What loads elements of arrays, or asks for properties.
    loaders: Vec<u32>,
    /// What calls a routine by a variable: which one, isn't known beforehand.
    wandering_callers: Vec<u32>,
    /// What names a variable by a variable.
    wandering_namers: Vec<u32>,
    /// Whether each routine, by its number, may be entered once more before it returns.
    recursive: Vec<bool>,
    /// Where the property tables are.
    properties: Span,
    /// At which packed addresses no routine is listed.
    unlisted: Gaps,
    /// At which of them no head stands either, so that none can be listed.
    headless: Gaps,
    /// Whether it is waited for routines that are called and not listed, since they may be listed yet; else they may give any word.
    waits: bool,
    /// Whether what breaks a rule may be marked, so that a walk goes on behind it as far as play may.
    marks: bool,
    /// Whether facts on globals may be stated.
    tells: bool,
}

impl<'a> Code<'a> {
    /// That of a story and its listing.
    pub(crate) fn new(
        alloc: Global,
        story: &'a Story,
        listing: &'a Listing,
    ) -> Result<Code<'a>, AllocError> {
        let mut code = Code {
            story,
            listing,
            readers: Groups::new(alloc),
            callers: Groups::new(alloc),
            loaders: Vec::new(alloc),
            wandering_callers: Vec::new(alloc),
            wandering_namers: Vec::new(alloc),
            recursive: recursive_routines(alloc, listing)?,
            properties: property_span(story),
            unlisted: Gaps::new(alloc, &listed_heads(alloc, story, listing)?)?,
            headless: Gaps::new(alloc, &possible_heads(alloc, story, listing)?)?,
            waits: false,
            marks: false,
            tells: false,
        };
        for (index, record) in listing.records().iter().enumerate() {
            code.note(index, &record.instruction)?;
        }
        code.readers.sort()?;
        code.callers.sort()?;
        Ok(code)
    }

    /// The same, where it is waited for routines that are called and not listed.
    pub(crate) fn waiting(self) -> Code<'a> {
        Code {
            waits: true,
            ..self
        }
    }

    /// Whether it is.
    pub(crate) fn waits(&self) -> bool {
        self.waits
    }

    /// The same, where what breaks a rule may be marked.
    pub(crate) fn marking(self) -> Code<'a> {
        Code {
            marks: true,
            ..self
        }
    }

    /// Whether it may.
    pub(crate) fn marks(&self) -> bool {
        self.marks
    }

    /// The same, where facts on globals may be stated.
    pub(crate) fn telling(self) -> Code<'a> {
        Code {
            tells: true,
            ..self
        }
    }

    /// Whether they may.
    pub(crate) fn tells(&self) -> bool {
        self.tells
    }

    /// Notes what an instruction depends on.
    fn note(&mut self, index: usize, instruction: &Instr) -> Result<(), AllocError> {
        self.note_reads(index, instruction)?;
        match instruction.opcode().operation() {
            Operation::Count(..) | Operation::Load => self.note_named(index, instruction),
            Operation::Call => self.note_call(index, instruction),
            Operation::LoadArray(_) | Operation::Property(PropertyQuestion::Value) => {
                self.loaders.push(short(index))?;
                Ok(())
            }
            _ => Ok(()),
        }
    }

    /// Notes the globals that its operands read.
    fn note_reads(&mut self, index: usize, instruction: &Instr) -> Result<(), AllocError> {
        for operand in instruction.inputs().as_slice() {
            if let Operand::Variable(variable) = *operand {
                self.note_global(index, u16::from(variable))?;
            }
        }
        Ok(())
    }

    /// Notes that a variable is read, if it is a global.
    fn note_global(&mut self, index: usize, variable: u16) -> Result<(), AllocError> {
        match variable.checked_sub(16) {
            Some(global) => self.readers.add(global, short(index)),
            None => Ok(()),
        }
    }

    /// Notes the variable that its first operand names.
    fn note_named(&mut self, index: usize, instruction: &Instr) -> Result<(), AllocError> {
        match instruction.inputs().as_slice().first() {
            Some(Operand::Constant(variable)) => self.note_global(index, *variable),
            _ => {
                self.wandering_namers.push(short(index))?;
                Ok(())
            }
        }
    }

    /// Notes the routine that it calls.
    fn note_call(&mut self, index: usize, instruction: &Instr) -> Result<(), AllocError> {
        match instruction.inputs().as_slice().first() {
            Some(Operand::Constant(packed)) => match self.routine_of(*packed) {
                Some(number) => self.callers.add(number, short(index)),
                None => Ok(()),
            },
            _ => {
                self.wandering_callers.push(short(index))?;
                Ok(())
            }
        }
    }

    /// The ends at which a set may stop that is widened: those of any code, and those that its constants are.
    pub(crate) fn thresholds(&self, alloc: Global) -> Result<Thresholds, AllocError> {
        let mut thresholds = Thresholds::new(alloc, self.story)?;
        for global in 0..GLOBALS {
            thresholds.add_around(self.loaded(global))?;
        }
        for record in self.records() {
            add_constants(&mut thresholds, &record.instruction)?;
        }
        Ok(thresholds)
    }

    /// The listed instructions.
    pub(crate) fn records(&self) -> &'a [Record] {
        self.listing.records()
    }

    /// The addresses of the routines, by their numbers less 1.
    pub(crate) fn routines(&self) -> &'a [u32] {
        self.listing.routines()
    }

    /// What reads a global, counted from variable 16.
    pub(crate) fn readers(&self) -> &Groups {
        &self.readers
    }

    /// What calls a routine by a constant, by its number.
    pub(crate) fn callers(&self) -> &Groups {
        &self.callers
    }

    /// What loads elements of arrays, or asks for properties.
    pub(crate) fn loaders(&self) -> &[u32] {
        &self.loaders
    }

    /// What calls a routine by a variable.
    pub(crate) fn wandering_callers(&self) -> &[u32] {
        &self.wandering_callers
    }

    /// What names a variable by a variable.
    pub(crate) fn wandering_namers(&self) -> &[u32] {
        &self.wandering_namers
    }

    /// Where the property tables are.
    pub(crate) fn properties(&self) -> Span {
        self.properties
    }

    /// Whether a routine, by its number, may be entered once more before it returns.
    pub(crate) fn is_recursive(&self, number: u16) -> bool {
        self.recursive
            .get(usize::from(number))
            .copied()
            .unwrap_or(false)
    }

    /// The number of the routine at a packed address.
    pub(crate) fn routine_of(&self, packed: u16) -> Option<u16> {
        self.listing.routine_at(2 * usize::from(packed))
    }

    /// The address of the routine of a number, which is 0 for the main code.
    pub(crate) fn owner_of(&self, number: u16) -> u32 {
        short(self.head_of(number).unwrap_or(0))
    }

    /// The packed address of the routine of a number.
    pub(crate) fn packed_of(&self, number: u16) -> u16 {
        (self.owner_of(number) / 2).min(0xffff) as u16
    }

    /// The address of the routine of a number, from 1 on.
    fn head_of(&self, number: u16) -> Option<usize> {
        let before = usize::from(number).checked_sub(1)?;
        let head = self.listing.routines().get(before)?;
        Some(*head as usize)
    }

    /// How many locals a routine has.
    pub(crate) fn local_count(&self, number: u16) -> u8 {
        match self.head_of(number) {
            Some(head) => self.byte_at(head),
            None => 0,
        }
    }

    /// The word that a routine's local begins with, by its index (Z 5.2.1).
    pub(crate) fn initial(&self, number: u16, index: u8) -> u16 {
        let head = self.head_of(number).unwrap_or(0);
        self.word_at(head.saturating_add(1 + 2 * usize::from(index)))
    }

    /// Whether a routine's head stands at a packed address in static memory, so that a certificate may list it.
    pub(crate) fn has_head(&self, packed: u16) -> bool {
        has_head(self.story, packed)
    }

    /// Whether a set has a packed address, beside 0, at which no routine is listed.
    pub(crate) fn has_unlisted<V: Domain>(&self, callees: V) -> bool {
        self.unlisted.meet(callees)
    }

    /// Whether it has one at which none can be.
    pub(crate) fn has_headless<V: Domain>(&self, callees: V) -> bool {
        self.headless.meet(callees)
    }

    /// The byte at a place, 0 outside memory.
    pub(crate) fn byte_at(&self, place: usize) -> u8 {
        byte_at(self.story, place)
    }

    /// The word at a place.
    pub(crate) fn word_at(&self, place: usize) -> u16 {
        u16::from_be_bytes([self.byte_at(place), self.byte_at(place.saturating_add(1))])
    }

    /// The index of the first instruction of a routine.
    pub(crate) fn entry_of(&self, number: u16) -> Option<usize> {
        let head = self.head_of(number)?;
        let words = 2 * usize::from(self.local_count(number));
        self.listing.index_of(head.checked_add(1 + words)?)
    }

    /// The index of the story's first instruction.
    pub(crate) fn first(&self) -> Option<usize> {
        self.listing.index_of(self.story.first_instruction())
    }

    /// The index of the instruction so many bytes behind a place.
    pub(crate) fn index_behind(&self, next: usize, distance: i32) -> Option<usize> {
        let place = i64::try_from(next).ok()?.checked_add(i64::from(distance))?;
        self.listing.index_of(usize::try_from(place).ok()?)
    }

    /// The value of a global as it is loaded, counted from variable 16.
    pub(crate) fn loaded(&self, global: usize) -> u16 {
        let place = self
            .story
            .globals()
            .saturating_add(global.saturating_mul(2));
        u16::from_be_bytes([self.byte_at(place), self.byte_at(place.saturating_add(1))])
    }
}

/// Adds the constants that an instruction computes with, which aren't distances, addresses of texts, or routines.
fn add_constants(thresholds: &mut Thresholds, instruction: &Instr) -> Result<(), AllocError> {
    let operands = instruction.operands();
    let skipped = match instruction.opcode().operation() {
        Operation::Jump | Operation::PrintAt(_) => return Ok(()),
        Operation::Call => 1,
        _ => 0,
    };
    for operand in operands.as_slice().iter().skip(skipped) {
        if let Operand::Constant(word) = *operand {
            thresholds.add_around(word)?;
        }
    }
    Ok(())
}

/// How many packed addresses lie in a story's memory: behind them no routine begins.
fn address_count(story: &Story) -> usize {
    story.memory().len().div_ceil(2).min(ADDRESSES)
}

/// Whether a routine is listed at each packed address in memory.
fn listed_heads(alloc: Global, story: &Story, listing: &Listing) -> Result<Vec<bool>, AllocError> {
    let mut marks = vec![in alloc; false; address_count(story)]?;
    for (packed, mark) in marks.iter_mut().enumerate() {
        *mark = listing.is_routine(packed.saturating_mul(2));
    }
    Ok(marks)
}

/// Whether one is or can be.
fn possible_heads(
    alloc: Global,
    story: &Story,
    listing: &Listing,
) -> Result<Vec<bool>, AllocError> {
    let mut marks = vec![in alloc; false; address_count(story)]?;
    for (packed, mark) in marks.iter_mut().enumerate() {
        *mark = listing.is_routine(packed.saturating_mul(2))
            || has_head(story, packed.min(0xffff) as u16);
    }
    Ok(marks)
}

/// Whether a routine's head stands at a packed address in static memory (Z 5.1, 5.2).
fn has_head(story: &Story, packed: u16) -> bool {
    let head = 2 * usize::from(packed);
    let locals = usize::from(byte_at(story, head));
    let end = head.saturating_add(1 + 2 * locals);
    head >= story.static_base() && locals <= 15 && end <= story.memory().len()
}

/// The byte at a place, 0 outside memory.
fn byte_at(story: &Story, place: usize) -> u8 {
    story.memory().get(place).copied().unwrap_or(0)
}

/// An index in four bytes.
pub(crate) fn short(index: usize) -> u32 {
    u32::try_from(index).unwrap_or(u32::MAX)
}

/// Where the property tables of all objects are, from the first to the end of the last.
fn property_span(story: &Story) -> Span {
    let mut span = Span {
        first: 0x1_0000,
        last: 0,
    };
    for below in 0..story.objects() {
        let table = table_of(story, below + 1);
        span = span.join(Span {
            first: table,
            last: list_end(story, table),
        });
    }
    span
}

/// Where the list of a property table ends.
fn list_end(story: &Story, table: usize) -> usize {
    let mut at = list_place(story.memory(), table.min(0xffff));
    for _ in 0..0x1_0000 {
        match data_end(story.memory(), at) {
            Some(end) => at = end,
            None => return at,
        }
    }
    at
}

//! Listings of more than a story lists: with routines that are called through a variable alone.

use crate::code::{Code, short};
use crate::numbered::{is_marked, mark};
use std::alloc::{AllocError, Global};
use zcode::{Destination, Instr, Operand, Operation, decode, decode_by};
use zlist::{Listing, Record};
use zstory::Story;
use ztext::TextEnds;

/// What is listed so far.
#[derive(Drop)]
struct Places<'a> {
    code: &'a Code<'a>,
    /// What stands at each address.
    standing: Vec<Option<Instr>>,
    /// Whose code each listed address is, by the address of the routine; that of the main code is 0.
    owners: Vec<Option<u32>>,
    /// Whether a routine is listed at each address.
    heads: Vec<bool>,
    /// Whether each byte is one of an instruction that was followed.
    taken: Vec<bool>,
    /// The addresses whose instructions are to be followed.
    waiting: Vec<usize>,
    /// What is listed where no instruction stands, if anything is.
    stand_in: Option<Instr>,
}

/// For how much work each byte of a story counts where more of it is listed, since an instruction is looked for at each.
const COST_OF_BYTE: u32 = 8;

/// The bytes of an instruction of which nothing comes: `quit`.
const STAND_IN: [u8; 1] = [0xba];

/// How many instructions of a routine are looked at, to see whether it is one.
const MOST_LOOKED_AT: usize = 400;

/// A listing of what a story's code leads to and calls by constants, as far as heads stand, whatever is at fault with it, and of the routines
/// whose packed addresses stand in data. Where no instruction stands, something is listed of which nothing comes.
pub(crate) fn lenient_listing(alloc: Global, story: &Story) -> Result<Listing, AllocError> {
    let nothing = empty_listing(alloc)?;
    let code = Code::new(alloc, story, &nothing)?.marking();
    let mut places = Places::new(alloc, &code)?;
    places.follow_all()?;
    places.enter_told(alloc)?;
    match places.into_listing(alloc)? {
        Some(listing) => Ok(listing),
        None => empty_listing(alloc),
    }
}

/// A listing of nothing.
fn empty_listing(alloc: Global) -> Result<Listing, AllocError> {
    Listing::new(alloc, Vec::new(alloc), Vec::new(alloc))
}

/// How much work it is to list more of a story, and to find anew what depends on what.
pub(crate) fn cost_of_listing(code: &Code<'_>) -> u32 {
    short(code.story.memory().len()).saturating_mul(COST_OF_BYTE)
}

/// A listing of what is listed and of the routines at these packed addresses, with what their code leads to and calls by constants.
/// It may list more than play reaches, and a place that two routines lead to as that of either, since a walk finds whose it is.
pub(crate) fn extended(
    alloc: Global,
    code: &Code<'_>,
    wanted: &[bool],
) -> Result<Option<Listing>, AllocError> {
    let mut places = Places::new(alloc, code)?;
    for (packed, is_wanted) in wanted.iter().enumerate() {
        if *is_wanted {
            places.enter(packed.min(0xffff) as u16)?;
        }
    }
    places.follow_all()?;
    places.into_listing(alloc)
}

impl<'a> Places<'a> {
    /// Those that are listed.
    fn new(alloc: Global, code: &'a Code<'a>) -> Result<Places<'a>, AllocError> {
        let count = code.story.memory().len();
        let mut places = Places {
            code,
            standing: all_standing(alloc, code)?,
            owners: vec![in alloc; None; count]?,
            heads: vec![in alloc; false; count]?,
            taken: vec![in alloc; false; count]?,
            waiting: Vec::new(alloc),
            stand_in: stand_in(code),
        };
        for record in code.records() {
            places.own(record.address as usize, code.owner_of(record.routine));
        }
        for head in code.routines() {
            places.note_head(*head as usize);
        }
        places.reach(code.story.first_instruction(), 0)?;
        Ok(places)
    }

    /// Notes whose code an address is, and says whether it was nobody's.
    fn own(&mut self, address: usize, owner: u32) -> bool {
        match self.owners.get_mut(address) {
            Some(there) if there.is_none() => {
                *there = Some(owner);
                true
            }
            _ => false,
        }
    }

    /// Notes that a routine is listed at an address.
    fn note_head(&mut self, address: usize) {
        mark(&mut self.heads, address);
    }

    /// Lists the routine at a packed address, if a head stands there.
    fn enter(&mut self, packed: u16) -> Result<(), AllocError> {
        if packed == 0 || !self.code.has_head(packed) {
            return Ok(());
        }
        let head = 2 * usize::from(packed);
        self.note_head(head);
        let words = 2 * usize::from(self.code.byte_at(head));
        self.reach(head + 1 + words, 2 * u32::from(packed))
    }

    /// Lists an address as a routine's code, if it isn't listed.
    fn reach(&mut self, address: usize, owner: u32) -> Result<(), AllocError> {
        if self.own(address, owner) {
            self.waiting.push(address)?;
        }
        Ok(())
    }

    /// Follows what waits. Each address waits once at most.
    fn follow_all(&mut self) -> Result<(), AllocError> {
        for _ in 0..self.owners.len() {
            let Some(address) = self.waiting.pop() else {
                return Ok(());
            };
            self.follow(address)?;
        }
        Ok(())
    }

    /// Lists the routines whose packed addresses stand in the data before all code, where they look like routines.
    fn enter_told(&mut self, alloc: Global) -> Result<(), AllocError> {
        let end = self.first_listed();
        for place in 0..end {
            let packed = self.code.word_at(place);
            let head = 2 * usize::from(packed);
            if head >= end && !self.is_known(head) && self.looks_like_routine(alloc, packed)? {
                self.enter(packed)?;
                self.follow_all()?;
            }
        }
        Ok(())
    }

    /// The lowest address that is listed: of an instruction, or of a routine.
    fn first_listed(&self) -> usize {
        let both = self.owners.iter().zip(self.heads.iter());
        both.take_while(|(owner, is_head)| owner.is_none() && !**is_head)
            .count()
    }

    /// Whether a routine is listed at an address, or an instruction was followed of which that is a byte.
    fn is_known(&self, address: usize) -> bool {
        is_marked(&self.heads, address) || is_marked(&self.taken, address)
    }

    /// Whether a head stands at a packed address, and behind it what looks like code of a routine, as far as that is looked at: all that
    /// leads on from its first instruction lies behind it.
    fn looks_like_routine(&self, alloc: Global, packed: u16) -> Result<bool, AllocError> {
        if !self.code.has_head(packed) {
            return Ok(false);
        }
        let head = 2 * usize::from(packed);
        let locals = self.code.byte_at(head);
        let first = head + 1 + 2 * usize::from(locals);
        let mut found = vec![in alloc; first]?;
        for step in 0..MOST_LOOKED_AT {
            let Some(address) = found.get(step).copied() else {
                return Ok(true);
            };
            if address < first || !self.look_behind(address, locals, &mut found)? {
                return Ok(false);
            }
        }
        Ok(true)
    }

    /// Whether an instruction stands at an address that names no local behind so many, and calls no constant at which no head stands.
    /// Where it leads to is found.
    fn look_behind(
        &self,
        address: usize,
        locals: u8,
        found: &mut Vec<usize>,
    ) -> Result<bool, AllocError> {
        let Some(instruction) = self.at(address) else {
            return Ok(false);
        };
        if !has_locals(&instruction, locals) {
            return Ok(false);
        }
        let next = address.saturating_add(instruction.length());
        if goes_on(instruction.opcode().operation()) {
            add(found, next)?;
        }
        if let Some(aside) = aside_place(next, &instruction) {
            add(found, aside)?;
        }
        Ok(match callee(&instruction) {
            Some(packed) => packed == 0 || self.code.has_head(packed),
            None => true,
        })
    }

    /// Lists what the instruction at an address leads to and calls.
    fn follow(&mut self, address: usize) -> Result<(), AllocError> {
        let (Some(instruction), Some(owner)) = (self.at(address), self.owner_at(address)) else {
            return Ok(());
        };
        let next = address.saturating_add(instruction.length());
        self.take(address, next);
        if goes_on(instruction.opcode().operation()) {
            self.reach(next, owner)?;
        }
        if let Some(aside) = aside_place(next, &instruction) {
            self.reach(aside, owner)?;
        }
        match callee(&instruction) {
            Some(packed) => self.enter(packed),
            None => Ok(()),
        }
    }

    /// Notes whose bytes those are from an address up to another.
    fn take(&mut self, address: usize, next: usize) {
        for place in address..next {
            mark(&mut self.taken, place);
        }
    }

    /// The instruction at an address.
    fn at(&self, address: usize) -> Option<Instr> {
        *self.standing.get(address)?
    }

    /// What is listed at an address that is somebody's code.
    fn listed_at(&self, address: usize) -> Option<Instr> {
        match self.at(address) {
            Some(instruction) => Some(instruction),
            None => self.stand_in,
        }
    }

    /// Whose code an address is.
    fn owner_at(&self, address: usize) -> Option<u32> {
        *self.owners.get(address)?
    }

    /// The listing of them. There is one, since what is gone through rises.
    fn into_listing(self, alloc: Global) -> Result<Option<Listing>, AllocError> {
        let routines = self.routines(alloc)?;
        let records = self.records(alloc, &routines)?;
        if !Listing::is_in_order(&records, &routines) {
            return Ok(None);
        }
        Ok(Some(Listing::new(alloc, records, routines)?))
    }

    /// The addresses of the routines, rising.
    fn routines(&self, alloc: Global) -> Result<Vec<u32>, AllocError> {
        let mut routines = Vec::new(alloc);
        for (address, is_head) in self.heads.iter().enumerate() {
            if *is_head {
                routines.push(short(address))?;
            }
        }
        Ok(routines)
    }

    /// The instructions, by rising addresses.
    fn records(&self, alloc: Global, routines: &[u32]) -> Result<Vec<Record>, AllocError> {
        let mut records = Vec::new(alloc);
        for (address, owner) in self.owners.iter().enumerate() {
            if let (Some(owner), Some(instruction)) = (*owner, self.listed_at(address)) {
                records.push(Record {
                    address: short(address),
                    routine: number_of(routines, owner),
                    instruction,
                })?;
            }
        }
        Ok(records)
    }
}

/// Whether an instruction names no local behind so many.
fn has_locals(instruction: &Instr, locals: u8) -> bool {
    let inputs = instruction.inputs();
    let mut read = inputs.as_slice().iter();
    read.all(|operand| is_operand_there(*operand, locals))
        && is_there(u16::from(instruction.target()), locals)
        && is_named_there(instruction, locals)
}

/// Whether an operand is no local behind so many.
fn is_operand_there(operand: Operand, locals: u8) -> bool {
    match operand {
        Operand::Constant(_) => true,
        Operand::Variable(variable) => is_there(u16::from(variable), locals),
    }
}

/// Whether a constant that names a variable names no local behind so many.
fn is_named_there(instruction: &Instr, locals: u8) -> bool {
    let inputs = instruction.inputs();
    match (instruction.opcode().operation(), inputs.as_slice()) {
        (
            Operation::Count(..) | Operation::Store | Operation::Load,
            [Operand::Constant(variable), ..],
        ) => is_there(*variable, locals),
        _ => true,
    }
}

/// Whether a variable is no local behind so many.
fn is_there(variable: u16, locals: u8) -> bool {
    variable <= u16::from(locals) || variable >= 16
}

/// What is listed where no instruction stands, if that may be marked.
fn stand_in(code: &Code<'_>) -> Option<Instr> {
    if code.marks() {
        decode(&STAND_IN, 0).ok()
    } else {
        None
    }
}

/// Adds an address to those that were found, if it isn't among them.
fn add(found: &mut Vec<usize>, address: usize) -> Result<(), AllocError> {
    if !found.contains(&address) {
        found.push(address)?;
    }
    Ok(())
}

/// What stands at each address of a story. Each is read once, by rising addresses, so that each text is gone over once.
fn all_standing(alloc: Global, code: &Code<'_>) -> Result<Vec<Option<Instr>>, AllocError> {
    let mut ends = TextEnds::new(code.story.memory());
    let mut standing = Vec::new(alloc);
    for address in 0..code.story.memory().len() {
        standing.push(decode_by(&mut ends, address).ok())?;
    }
    Ok(standing)
}

/// The number of the routine at an address, among those that are listed; 0 for the main code.
fn number_of(routines: &[u32], owner: u32) -> u16 {
    match routines.binary_search(&owner) {
        Ok(before) => (before.min(0xfffe) + 1) as u16,
        Err(_) => 0,
    }
}

/// Whether play may go on behind an instruction.
fn goes_on(operation: Operation) -> bool {
    !matches!(
        operation,
        Operation::Jump
            | Operation::Quit
            | Operation::Return
            | Operation::PrintReturn
            | Operation::Restart
    )
}

/// Where an instruction may lead elsewhere, which ends at an address: by a jump of a known distance, or a branch.
fn aside_place(next: usize, instruction: &Instr) -> Option<usize> {
    let place = i64::try_from(next)
        .ok()?
        .checked_add(i64::from(aside(instruction)?))?;
    usize::try_from(place).ok()
}

/// How far that is.
fn aside(instruction: &Instr) -> Option<i32> {
    let operands = instruction.operands();
    match (instruction.opcode().operation(), operands.as_slice()) {
        (Operation::Jump, [Operand::Constant(word)]) => Some(i32::from(word.cast_signed()) - 2),
        _ => match instruction.branch()?.destination() {
            Destination::Relative(distance) => Some(distance),
            _ => None,
        },
    }
}

/// The packed address of the routine that an instruction calls by a constant.
fn callee(instruction: &Instr) -> Option<u16> {
    let operands = instruction.operands();
    match (instruction.opcode().operation(), operands.as_slice()) {
        (Operation::Call, [Operand::Constant(packed), ..]) => Some(*packed),
        _ => None,
    }
}

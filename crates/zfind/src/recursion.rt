//! Which routines may be entered once more before they return.

use crate::groups::Groups;
use std::alloc::{AllocError, Global};
use zcode::{Operand, Operation};
use zlist::{Listing, Record};

/// Calls of routines by others, by their numbers.
#[derive(Drop)]
struct Calls {
    /// By the routine that is called, those that call it, once for each call.
    callers: Groups,
    /// How many calls each makes of routines that don't end.
    counts: Vec<u32>,
}

/// Whether each routine, by its number, may be entered once more before it returns, as far as constants tell: where calls lead from it on
/// without end, and come from without end. Of those that lie between two such routines this is said too.
pub(crate) fn recursive_routines(
    alloc: Global,
    listing: &Listing,
) -> Result<Vec<bool>, AllocError> {
    let count = listing.routines().len().saturating_add(1);
    let mut onward = Calls::new(alloc, count)?;
    let mut backward = Calls::new(alloc, count)?;
    for record in listing.records() {
        if let Some(to) = called_by(listing, record) {
            onward.add(record.routine, to)?;
            backward.add(to, record.routine)?;
        }
    }
    let endless = onward.endless(alloc)?;
    let from_endless = backward.endless(alloc)?;
    both_marked(alloc, &endless, &from_endless)
}

/// The routine that an instruction calls by a constant.
fn called_by(listing: &Listing, record: &Record) -> Option<u16> {
    let Operation::Call = record.instruction.opcode().operation() else {
        return None;
    };
    match record.instruction.operands().as_slice().first() {
        Some(Operand::Constant(packed)) => listing.routine_at(2 * usize::from(*packed)),
        _ => None,
    }
}

impl Calls {
    /// None of so many routines.
    fn new(alloc: Global, count: usize) -> Result<Calls, AllocError> {
        Ok(Calls {
            callers: Groups::new(alloc),
            counts: vec![in alloc; 0; count]?,
        })
    }

    /// One more.
    fn add(&mut self, from: u16, to: u16) -> Result<(), AllocError> {
        self.callers.add(to, u32::from(from))?;
        if let Some(count) = self.counts.get_mut(usize::from(from)) {
            *count = count.saturating_add(1);
        }
        Ok(())
    }

    /// Whether calls lead from each routine on without end.
    fn endless(mut self, alloc: Global) -> Result<Vec<bool>, AllocError> {
        self.callers.sort()?;
        let mut ended = self.ended(alloc)?;
        for _ in 0..self.counts.len() {
            if let Some(number) = ended.pop() {
                self.end(number, &mut ended)?;
            }
        }
        let mut marks = Vec::new(alloc);
        for count in &self.counts {
            marks.push(*count > 0)?;
        }
        Ok(marks)
    }

    /// The routines that call none.
    fn ended(&self, alloc: Global) -> Result<Vec<u16>, AllocError> {
        let mut ended = Vec::new(alloc);
        for (number, count) in self.counts.iter().enumerate() {
            if *count == 0 {
                ended.push(number.min(0xffff) as u16)?;
            }
        }
        Ok(ended)
    }

    /// Takes the calls of a routine that ends off those of its callers, and adds each of these that ends thereby.
    fn end(&mut self, number: u16, ended: &mut Vec<u16>) -> Result<(), AllocError> {
        for (_, caller) in self.callers.of(number) {
            if is_last_call(&mut self.counts, *caller as usize) {
                ended.push((*caller).min(0xffff) as u16)?;
            }
        }
        Ok(())
    }
}

/// Takes one off the calls of a routine, and says whether it was the last.
fn is_last_call(counts: &mut Vec<u32>, caller: usize) -> bool {
    match counts.get_mut(caller) {
        Some(count) if *count > 0 => {
            *count = count.saturating_sub(1);
            *count == 0
        }
        _ => false,
    }
}

/// Which are marked in both.
fn both_marked(alloc: Global, one: &[bool], other: &[bool]) -> Result<Vec<bool>, AllocError> {
    let mut marks = Vec::new(alloc);
    for (mark, also) in one.iter().zip(other.iter()) {
        marks.push(*mark && *also)?;
    }
    Ok(marks)
}

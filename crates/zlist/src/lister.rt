//! The listing of all that a story lists.

ghost use Rattle.std.specs.Prelude.{◌≡◌, ◌<◌, ◌≤◌, ◌+◌, ◌↔◌, ◌≢◌, ℕ, pos, IfSome, IfNone, IfOk, IfErr, IsTrue, All, Ok, Some, None, length};
ghost use Rattle.zcode.specs.declared.error.DecodeError.{DecodeError as ADecodeError};
ghost use Rattle.zcode.specs.Instruction.{Instruction};
ghost use Rattle.zlist.specs.declared.list_error.ListError.{ListError as AListError};
ghost use Rattle.zlist.specs.declared.list_error.ListError.TheVariants.{Decode, OutOfMemory};
ghost use Rattle.std.specs.List.{Contains};
ghost use Rattle.std.specs.List.Sorted.{IsStrictlyIncreasing};
ghost use Rattle.zlist.specs.Labels.{AreFound, AreListed, IsNumbered, IsWalked, number_in};
ghost use Rattle.zlist.specs.Listed.{Belongs, IsCalled, IsComputed, IsFault, IsFirstAt, IsHeadless, IsListed, IsLowestFault, IsShared, IsUnspelled, JumpsByVariable, Lists, spelled};

use crate::leading::{begins, spelled};
use crate::list_error::ListError;
use crate::listing::Listing;
use crate::numbers::routine_numbers;
use crate::owner::{Label, Owner};
use crate::record::Record;
use crate::walk::{Walk, walk_story};
use std::alloc::{AllocError, Global};
use zcode::{DecodeError, Instr, Opcode, Operand};
use zstory::Story;
use ztext::TextEnds;

/// Why nothing stands at an address, if that is listed.
#[tactic(auto, using(crate::proofs::Reached::listed_label, crate::proofs::Reached::told_listed))]
fn unspelled(
    walk: &Walk,
    story: &Story,
    ends: &mut TextEnds<'_>,
    address: usize,
) -> Option<DecodeError>
    requires walked { IsWalked story.now walk.now }
    requires ends { ends.old ≡ story.now.memory }
    requires inside { address < length story.now.memory }
    ensures memory { ends.new ≡ ends.old }
    ensures some { IfSome result (λ cause. IsUnspelled story.now (pos address) cause) }
    ensures none { IfNone result ((cause : ADecodeError) → IsUnspelled story.now (pos address) cause → ⊥) }
{
    let _length = story.length(); // at most 131,072
    match walk.label_at(address) {
        Label::Nobody => None,
        Label::One(_) | Label::Several => spelled(ends, address as i32).err(),
    }
}

/// What is wrong with the head of a routine at an address, if that is called.
#[tactic(auto, using(crate::proofs::Reached::called_inside))]
fn headless(walk: &Walk, story: &Story, address: u32) -> Option<DecodeError>
    requires walked { IsWalked story.now walk.now }
    requires inside { address < length story.now.memory }
    ensures some { IfSome result (IsHeadless story.now address) }
    ensures none { IfNone result ((cause : ADecodeError) → IsHeadless story.now address cause → ⊥) }
{
    let _length = story.length(); // at most 131,072
    if walk.is_called(address) {
        begins(story.memory(), address).err()
    } else {
        None
    }
}

/// Whether an address belongs to two routines.
#[tactic(auto, using(crate::proofs::Reached::shared_label, crate::proofs::Reached::several_shared))]
fn is_shared(walk: &Walk, story: &Story, address: usize) -> bool
    requires walked { IsWalked story.now walk.now }
    requires inside { address < length story.now.memory }
    ensures { IsTrue result ↔ IsShared story.now (pos address) }
{
    matches!(walk.label_at(address), Label::Several)
}

/// Whether an instruction jumps as far as a variable says.
fn jumps_by_variable(instruction: &Instr) -> bool
    ensures { IsTrue result ↔ JumpsByVariable instruction.now }
{
    match (instruction.opcode(), instruction.operands().as_slice()) {
        (Opcode::Jump, [Operand::Variable(_)]) => true,
        _ => false,
    }
}

/// Whether an instruction is listed at an address that jumps as far as a variable says.
#[tactic(auto, using(crate::proofs::Reached::listed_label))]
fn is_computed(walk: &Walk, story: &Story, ends: &mut TextEnds<'_>, address: usize) -> bool
    requires walked { IsWalked story.now walk.now }
    requires ends { ends.old ≡ story.now.memory }
    requires inside { address < length story.now.memory }
    ensures memory { ends.new ≡ ends.old }
    ensures value { IsTrue result ↔ IsComputed story.now (pos address) }
{
    let _length = story.length(); // at most 131,072
    if let Label::Nobody = walk.label_at(address) {
        return false;
    }
    match spelled(ends, address as i32) {
        Ok(instruction) => jumps_by_variable(&instruction),
        Err(_) => false,
    }
}

/// That nothing stands at an address.
fn nothing_at(address: usize, cause: DecodeError) -> ListError
    requires { address < 131072 }
    ensures { result ≡ Decode (pos address) cause }
{
    ListError::Decode(address as i32, cause)
}

/// What is at fault at an address of memory: of several the first.
fn fault_at(
    walk: &Walk,
    story: &Story,
    ends: &mut TextEnds<'_>,
    address: usize,
) -> Option<ListError>
    requires walked { IsWalked story.now walk.now }
    requires ends { ends.old ≡ story.now.memory }
    requires inside { address < length story.now.memory }
    ensures memory { ends.new ≡ ends.old }
    ensures first { IsFirstAt story.now (pos address) result }
{
    let _length = story.length(); // at most 131,072
    if let Some(cause) = unspelled(walk, story, ends, address) {
        return Some(nothing_at(address, cause));
    }
    if let Some(cause) = headless(walk, story, address as u32) {
        return Some(nothing_at(address, cause));
    }
    if is_shared(walk, story, address) {
        return Some(ListError::TwoRoutines(address as u32));
    }
    if is_computed(walk, story, ends, address) {
        return Some(ListError::ComputedJump(address as u32));
    }
    None
}

/// What is at fault at the lowest address of memory where something is.
fn fault_inside(walk: &Walk, story: &Story) -> Option<ListError>
    requires { IsWalked story.now walk.now }
    ensures some { IfSome result (λ f. (a : ℕ) × IsFirstAt story.now (pos a) (Some f) × ((k : ℕ) → k < a → IsFirstAt story.now (pos k) None)) }
    ensures none { IfNone result ((k : ℕ) → k < length story.now.memory → IsFirstAt story.now (pos k) None) }
{
    let mut ends = TextEnds::new(story.memory());
    for address in 0..story.length() {
        if let Some(fault) = fault_at(walk, story, &mut ends, address) {
            return Some(fault);
        }
    }
    None
}

/// What is at fault at the lowest place: below memory, in it, or behind it.
#[tactic(auto, using(crate::proofs::Lowest::lowest_below, crate::proofs::Lowest::lowest_inside, crate::proofs::Lowest::lowest_behind, crate::proofs::Lowest::faultless))]
fn first_fault(walk: &Walk, story: &Story) -> Option<ListError>
    requires { IsWalked story.now walk.now }
    ensures some { IfSome result (IsLowestFault story.now) }
    ensures none { IfNone result ((f : AListError) → IsFault story.now f → ⊥) }
{
    if let Some(place) = walk.below() {
        return Some(ListError::Decode(place, DecodeError::Truncated));
    }
    if let Some(fault) = fault_inside(walk, story) {
        return Some(fault);
    }
    match walk.beyond() {
        Some(place) => Some(ListError::Decode(place, DecodeError::Truncated)),
        None => None,
    }
}

/// The addresses of the routines that are called, rising.
fn routines_of(alloc: Global, walk: &Walk, story: &Story) -> Result<Vec<u32>, AllocError>
    requires walked { IsWalked story.now walk.now }
    requires faultless { (f : AListError) → IsFault story.now f → ⊥ }
    ensures order { IfOk result (λ routines. IsStrictlyIncreasing routines.items × All (λ a. a < 131072) routines.items × (length routines.items ≤ 65535)) }
    ensures called { IfOk result (λ routines. (a : ℕ) → Contains routines.items a ↔ IsCalled story.now a) }
{
    let end = (story.length() as u32).div_ceil(2); // at most 65,536
    let mut routines = Vec::new(alloc);
    for packed in 1..end {
        push_called(walk, story, packed, &mut routines)?;
    }
    Ok(routines)
}

/// Puts the routine of a packed address behind those that were found, if it is called.
#[tactic(auto, using(crate::proofs::Calls::found_more, crate::proofs::Calls::found_not))]
fn push_called(
    walk: &Walk,
    story: &Story,
    packed: u32,
    routines: &mut Vec<u32>,
) -> Result<(), AllocError>
    requires walked { IsWalked story.now walk.now }
    requires some { 0 < packed }
    requires low { packed < 65536 }
    ensures { IfOk result (λ _. AreFound story.now walk.now packed routines.old.items → AreFound story.now walk.now (packed + 1) routines.new.items) }
{
    let address = 2 * packed;
    if walk.is_called(address) {
        routines.push(address)?;
    }
    Ok(())
}

/// The number of an owner, by a table of the routines' numbers.
fn number_of(owner: Owner, numbers: &[u16]) -> u16
    ensures { result ≡ number_in numbers.now owner }
{
    match owner {
        Owner::Main => 0,
        Owner::Routine(address) => numbers.get(address as usize).copied().unwrap_or(0),
    }
}

/// Whose code an address is, where nothing is at fault.
fn owner_of(walk: &Walk, story: &Story, address: usize) -> Option<Owner>
    requires walked { IsWalked story.now walk.now }
    requires faultless { (f : AListError) → IsFault story.now f → ⊥ }
    requires inside { address < length story.now.memory }
    ensures some { IfSome result (λ x. Belongs story.now x (pos address)) }
    ensures none { IfNone result (IsListed story.now (pos address) → ⊥) }
{
    match walk.label_at(address) {
        Label::One(owner) => Some(owner),
        _ => None,
    }
}

/// What stands at an address.
fn spelled_at(story: &Story, ends: &mut TextEnds<'_>, address: usize) -> Option<Instr>
    requires ends { ends.old ≡ story.now.memory }
    requires inside { address < length story.now.memory }
    ensures memory { ends.new ≡ ends.old }
    ensures some { IfSome result (λ i. spelled story.now.memory (pos address) ≡ Ok i) }
    ensures none { IfNone result ((i : Instruction) → spelled story.now.memory (pos address) ≡ Ok i → ⊥) }
{
    let _length = story.length(); // at most 131,072
    spelled(ends, address as i32).ok()
}

/// What stands at an address, where that is listed, as a record.
fn record_at(
    walk: &Walk,
    story: &Story,
    ends: &mut TextEnds<'_>,
    numbers: &[u16],
    address: usize,
) -> Option<Record>
    requires walked { IsWalked story.now walk.now }
    requires faultless { (f : AListError) → IsFault story.now f → ⊥ }
    requires ends { ends.old ≡ story.now.memory }
    requires inside { address < length story.now.memory }
    ensures memory { ends.new ≡ ends.old }
    ensures some { IfSome result (λ r. (r.address ≡ address) × IsNumbered story.now numbers.now r) }
    ensures none { IfNone result (IsListed story.now (pos address) → ⊥) }
{
    let _length = story.length(); // at most 131,072
    let Some(owner) = owner_of(walk, story, address) else {
        return None;
    };
    let Some(instruction) = spelled_at(story, ends, address) else {
        return None;
    };
    Some(Record {
        address: address as u32,
        routine: number_of(owner, numbers),
        instruction,
    })
}

/// All that is listed, by rising address, with the routines' numbers by a table.
fn records_of(
    alloc: Global,
    walk: &Walk,
    story: &Story,
    numbers: &[u16],
) -> Result<Vec<Record>, AllocError>
    requires walked { IsWalked story.now walk.now }
    requires faultless { (f : AListError) → IsFault story.now f → ⊥ }
    ensures listed { IfOk result (λ records. AreListed story.now numbers.now (length story.now.memory) records.items) }
    ensures inside { IfOk result (λ records. All (λ r. r.address < 131072) records.items) }
{
    let mut ends = TextEnds::new(story.memory());
    let mut records = Vec::new(alloc);
    for address in 0..story.length() {
        if let Some(record) = record_at(walk, story, &mut ends, numbers, address) {
            records.push(record)?;
        }
    }
    Ok(records)
}

/// The listing of all that a story lists (own): the instructions that its code leads to by jumps, both ways of branches and constant
/// calls, whatever values it computes, and the routines that are called by constants. What only a call by a variable leads to isn't
/// among them, and what stands behind a branch that is never taken is.
///
/// U1 where no instruction stands at such a place, U2 where it belongs to two routines, U3 where it is a `jump` by a variable:
/// the one at the lowest address. U4 where memory was refused, which is taken for every story.
pub fn list_story(alloc: Global, story: &Story) -> Result<Listing, ListError>
    ensures lists { IfOk result (Lists story.now) }
    ensures lowest { IfErr result (λ e. e ≢ OutOfMemory → IsLowestFault story.now e) }
{
    let _length = story.length(); // at most 131,072
    let walk = walk_story(alloc, story)?;
    if let Some(fault) = first_fault(&walk, story) {
        return Err(fault);
    }
    let routines = routines_of(alloc, &walk, story)?;
    let numbers = routine_numbers(alloc, &routines)?;
    let records = records_of(alloc, &walk, story, &numbers)?;
    let listing = Listing::new(alloc, records, routines)?;
    Ok(listing)
}

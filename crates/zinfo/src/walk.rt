//! Where the code of a story leads: what stands at an address is followed from the first instruction on, and opcodes that aren't played are
//! passed over.

ghost use Rattle.std.specs.Prelude.{◌≡◌, ◌<◌, ◌≤◌, All, IfOk, IfSome, IfNone, IsTrue, Ok, [], length, pos, sum_by};
ghost use Rattle.zcode.specs.Spelling.{types_of};
ghost use Rattle.zstory.specs.LoadedStory.{LoadedStory, first_instruction};
ghost use Rattle.zlist.specs.Labels.{IsInside};
ghost use Rattle.zlist.specs.Listed.{spelled};
ghost use Rattle.zinfo.specs.Unplayed.{IsReached, behind_unplayed, bytes_of, entered};
ghost use Rattle.zinfo.specs.Walked.{Grows, IsBlank, IsFollowed, IsSound, IsWalked, has, with_behind, with_waiting};

use crate::standing::Standing;
use std::alloc::{AllocError, Global};
use std::marker::Model;
use zcode::{DecodeError, Instr};
use zlist::{aside_place, begins, callee, next_place};
use zstory::Story;

/// What was found so far. Places outside memory matter to nothing, since nothing stands there.
#[derive(Drop)]
pub(crate) struct Walk {
    /// Whether each address of memory is reached.
    reached: Vec<bool>,
    /// The addresses that are to be followed. Each waits once.
    waiting: Vec<u32>,
}

impl Model for Walk {
    ghost use Rattle.std.specs.Prelude.{◌≤◌, ◌<◌, length, All};
    ghost use Rattle.zinfo.specs.Walked.{Found};

    ghost Value = { Found };

    ghost view = { λ w. record { reached = w.reached.items; waiting = w.waiting.items } };

    ghost invariant = { λ w. (length w.reached.items ≤ 131072) × All (λ a. a < 131072) w.waiting.items };
}

/// How many bytes an operand takes together with those behind it, by its two bits of a type byte (Z 4.2, 4.4.3).
fn with_behind(bits: u8, behind: u32) -> u32
    requires { behind ≤ 6 }
    ensures { result ≡ with_behind bits behind }
{
    match bits {
        0 => 2 + behind,
        3 => 0,
        _ => 1 + behind,
    }
}

/// How many bytes the operands take that a type byte names (Z 4.4.3).
#[tactic(auto, using(crate::proofs::Followed::operands_are))]
fn operand_bytes(types: u8) -> u32
    ensures { result ≡ sum_by bytes_of (types_of types) }
{
    let last = with_behind(types % 4, 0);
    let third = with_behind(types / 4 % 4, last);
    let second = with_behind(types / 16 % 4, third);
    with_behind(types / 64, second)
}

/// The place behind an opcode that isn't played.
fn behind_unplayed(memory: &[u8], address: usize) -> i32
    requires { address < 131072 }
    ensures { result ≡ pos (behind_unplayed memory.now address) }
{
    let types = match memory.get(address + 1) {
        Some(types) => *types,
        None => 0,
    };
    (address as u32 + 2 + operand_bytes(types)) as i32
}

/// Where the routine begins that an instruction calls by a constant.
fn entered(memory: &[u8], instruction: &Instr) -> Option<i32>
    requires { length memory.now ≤ 131072 }
    ensures { result ≡ entered memory.now instruction.now }
{
    let address = callee(instruction)?;
    match begins(memory, address) {
        Ok(first) => Some(first as i32),
        Err(_) => None,
    }
}

impl Walk {
    /// A walk through a memory of so many bytes that found nothing yet.
    fn new(alloc: Global, size: usize) -> Result<Walk, AllocError>
        requires { size ≤ 131072 }
        ensures { IfOk result (IsBlank size) }
    {
        Ok(Walk {
            reached: vec![in alloc; false; size]?,
            waiting: Vec::new(alloc),
        })
    }

    /// Takes the address that waited last, if one waits.
    fn next(&mut self) -> Option<usize>
        ensures none { IfNone result ((self.new ≡ self.old) × (self.old.waiting ≡ [])) }
        ensures some { IfSome result (λ address. self.old ≡ with_waiting self.new address) }
        ensures within { IfSome result (λ address. address < 131072) }
    {
        let address = self.waiting.pop()?;
        Some(address as usize)
    }

    /// Whether an address was found, or lies behind memory.
    pub(crate) fn has(&self, address: usize) -> bool
        ensures { result ≡ has self.now (pos address) }
    {
        match self.reached.get(address) {
            Some(reached) => *reached,
            None => true,
        }
    }

    /// Tells of an address of memory that code leads to it. It waits where that is new.
    fn mark_inside(&mut self, address: usize) -> Result<(), AllocError>
        requires { address < length self.old.reached }
        ensures grows { IfOk result (λ _. Grows self.old self.new) }
        ensures has { IfOk result (λ _. IsTrue (has self.new (pos address))) }
        ensures sound { (story : LoadedStory) → IsReached story (pos address) → IsSound story self.old → IfOk result (λ _. IsSound story self.new) }
    {
        if !self.has(address) {
            self.waiting.push(address as u32)?;
            self.reached[address] = true;
        }
        Ok(())
    }

    /// Tells of a place that code leads to it.
    #[tactic(auto, using(crate::proofs::Followed::grows_itself, crate::proofs::Followed::has_outside))]
    fn mark(&mut self, at: i32) -> Result<(), AllocError>
        ensures grows { IfOk result (λ _. Grows self.old self.new) }
        ensures has { IfOk result (λ _. IsTrue (has self.new at)) }
        ensures sound { (story : LoadedStory) → IsReached story at → IsSound story self.old → IfOk result (λ _. IsSound story self.new) }
    {
        match usize::try_from(at) {
            Ok(address) if address < self.reached.len() => self.mark_inside(address)?,
            Ok(_) | Err(_) => (),
        }
        Ok(())
    }

    /// Tells of a place, if there is one, that code leads to it.
    #[tactic(auto, using(crate::proofs::Followed::grows_itself))]
    fn lead(&mut self, at: Option<i32>) -> Result<(), AllocError>
        ensures grows { IfOk result (λ _. Grows self.old self.new) }
        ensures has { IfOk result (λ _. IfSome at (λ p. IsTrue (has self.new p))) }
        ensures sound { (story : LoadedStory) → IfSome at (IsReached story) → IsSound story self.old → IfOk result (λ _. IsSound story self.new) }
    {
        match at {
            Some(at) => self.mark(at),
            None => Ok(()),
        }
    }

    /// Follows an instruction at a place: marks where it leads.
    fn follow(&mut self, memory: &[u8], at: i32, instruction: &Instr) -> Result<(), AllocError>
        requires short { length memory.now ≤ 131072 }
        requires inside { IsInside at instruction.now }
        ensures grows { IfOk result (λ _. Grows self.old self.new) }
        ensures followed { spelled memory.now at ≡ Ok instruction.now → IfOk result (λ _. IsFollowed memory.now self.new at) }
        ensures sound { (story : LoadedStory) → memory.now ≡ story.memory → spelled memory.now at ≡ Ok instruction.now → IsReached story at → IsSound story self.old → IfOk result (λ _. IsSound story self.new) }
    {
        self.lead(next_place(at, instruction))?;
        self.lead(aside_place(at, instruction))?;
        self.lead(entered(memory, instruction))?;
        Ok(())
    }

    /// Follows what stands at an address.
    fn visit(&mut self, standing: &Standing<'_>, address: usize) -> Result<(), AllocError>
        requires within { address < 131072 }
        ensures grows { IfOk result (λ _. Grows self.old self.new) }
        ensures followed { IfOk result (λ _. IsFollowed standing.now self.new (pos address)) }
        ensures sound { (story : LoadedStory) → standing.now ≡ story.memory → IsReached story (pos address) → IsSound story self.old → IfOk result (λ _. IsSound story self.new) }
    {
        let memory = standing.memory();
        match standing.at(address) {
            Ok(instruction) => self.follow(memory, address as i32, &instruction),
            Err(DecodeError::NotInProfile(_)) => self.mark(behind_unplayed(memory, address)),
            Err(_) => Ok(()),
        }
    }
}

/// The place of a story's first instruction.
fn first_place(story: &Story) -> i32
    ensures { result ≡ pos (first_instruction story.now) }
{
    let _length = story.length(); // at most 131,072
    story.first_instruction() as i32
}

/// Follows a story's code from its first instruction on, until nothing new is found.
pub(crate) fn walk_story(
    alloc: Global,
    story: &Story,
    standing: &Standing<'_>,
) -> Result<Walk, AllocError>
    requires { standing.now ≡ story.now.memory }
    ensures { IfOk result (IsWalked story.now) }
{
    let mut walk = Walk::new(alloc, story.length())?;
    walk.mark(first_place(story))?;
    while let Some(address) = walk.next() {
        walk.visit(standing, address)?;
    }
    Ok(walk)
}

//! Whose code each place is: every instruction is followed from where code begins.

ghost use Rattle.std.specs.Prelude.{◌≡◌, ◌<◌, ◌≤◌, ◌<ℤ◌, ◌≤ℤ◌, All, IfOk, IfSome, IfNone, [], ℕ, Ok, length, ◌≢◌, Some, None, IsTrue, pos};
ghost use Rattle.zstory.specs.LoadedStory.{LoadedStory, first_instruction};
ghost use Rattle.zcode.specs.Instruction.{Instruction};
ghost use Rattle.zlist.specs.Labels.{Covers, Found, Grows, Has, IsEntered, IsFollowed, IsInside, IsKnown, IsSo, IsSound, IsWalked, is_called, label_at, lower_of, lowered, reaches, with_waiting};
ghost use Rattle.zlist.specs.declared.owner.Label.TheVariants.{Nobody};
ghost use Rattle.zlist.specs.Listed.{IsCalled, IsListed, spelled};

use crate::leading::{aside_place, begins, callee, next_place};
use crate::owner::{Label, Owner};
use crate::standing::Standing;
use std::alloc::{AllocError, Global};
use std::marker::Model;
use zcode::Instr;
use zstory::Story;

/// What was found so far. What stands at an address of memory is followed; of the places outside, where nothing stands, the lowest
/// tell enough.
#[derive(Drop)]
pub(crate) struct Walk {
    /// Whose code each address of memory is.
    labels: Vec<Label>,
    /// Whether each address of memory is called.
    called: Vec<bool>,
    /// The addresses whose instructions are to be followed.
    waiting: Vec<u32>,
    /// The lowest place below memory that code leads to.
    below: Option<i32>,
    /// The lowest place behind memory that code leads to.
    beyond: Option<i32>,
    /// The lowest place behind memory that is called.
    absent: Option<i32>,
}

impl Model for Walk {
    ghost use Rattle.std.specs.Prelude.{◌≤◌, ◌<◌, length, All};
    ghost use Rattle.zlist.specs.Labels.{Found};

    ghost Value = { Found };

    ghost view = { λ w. record { labels = w.labels.items; called = w.called.items; waiting = w.waiting.items; below = w.below; beyond = w.beyond; absent = w.absent } };

    ghost invariant = { λ w. (length w.labels.items ≤ 131072) × All (λ a. a < 131072) w.waiting.items };
}

/// The lower of a place and of the lowest so far, if there is one.
fn lowered(lowest: Option<i32>, at: i32) -> Option<i32>
    ensures { result ≡ lowered lowest at }
{
    match lowest {
        Some(lowest) if lowest <= at => Some(lowest),
        _ => Some(at),
    }
}

impl Walk {
    /// A walk through a memory of so many bytes that found nothing yet.
    fn new(alloc: Global, size: usize) -> Result<Walk, AllocError>
        requires { size ≤ 131072 }
        ensures { IfOk result (λ walk. (story : LoadedStory) → size ≡ length story.memory → IsSound story walk × (walk.waiting ≡ []) × ((a : ℕ) → label_at walk a ≡ Nobody)) }
    {
        Ok(Walk {
            labels: vec![in alloc; Label::Nobody; size]?,
            called: vec![in alloc; false; size]?,
            waiting: Vec::new(alloc),
            below: None,
            beyond: None,
            absent: None,
        })
    }

    /// Takes the address that waited last, if one waits.
    fn next(&mut self) -> Option<usize>
        ensures none { IfNone result ((self.new ≡ self.old) × (self.old.waiting ≡ [])) }
        ensures some { IfSome result (λ address. self.old ≡ with_waiting self.new address) }
        ensures within { IfSome result (λ address. address < 131072) }
    {
        let address = self.waiting.pop()?;
        Some(address as usize)
    }

    /// Whose code an address of memory was found to be.
    pub(crate) fn label_at(&self, address: usize) -> Label
        ensures { result ≡ label_at self.now address }
    {
        match self.labels.get(address) {
            Some(label) => *label,
            None => Label::Nobody,
        }
    }

    /// Whether the routine at an address of memory is called.
    pub(crate) fn is_called(&self, address: u32) -> bool
        ensures { result ≡ is_called self.now address }
    {
        match self.called.get(address as usize) {
            Some(called) => *called,
            None => false,
        }
    }

    /// The lowest place below memory that code leads to.
    pub(crate) fn below(&self) -> Option<i32>
        ensures { result ≡ self.now.below }
    {
        self.below
    }

    /// The lowest place behind memory that code leads to, or that is called.
    pub(crate) fn beyond(&self) -> Option<i32>
        ensures { result ≡ lower_of self.now.beyond self.now.absent }
    {
        match self.absent {
            Some(at) => lowered(self.beyond, at),
            None => self.beyond,
        }
    }

    /// Tells of an address of memory that it belongs to some code too. It waits where that is new.
    fn mark_inside(&mut self, address: usize, label: Label) -> Result<(), AllocError>
        requires { address < length self.old.labels }
        ensures grows { IfOk result (λ _. Grows self.old self.new) }
        ensures covers { IfOk result (λ _. Covers (label_at self.new address) label) }
        ensures sound { (story : LoadedStory) → IsSo story label (pos address) → IsSound story self.old → IfOk result (λ _. IsSound story self.new) }
    {
        let before = self.label_at(address);
        let label = before.joined(label);
        if !label.is(before) {
            self.waiting.push(address as u32)?;
            self.labels[address] = label;
        }
        Ok(())
    }

    /// Notes that code leads to a place below memory.
    #[tactic(auto, using(crate::proofs::Marking::grows_below, crate::proofs::Marking::sound_below, crate::proofs::Outside::reaches_lowered))]
    fn note_below(&mut self, at: i32)
        requires { at <ℤ pos 0 }
        ensures grows { Grows self.old self.new }
        ensures noted { IsTrue (reaches self.new.below at) }
        ensures sound { (story : LoadedStory) → IsListed story at → IsSound story self.old → IsSound story self.new }
    {
        self.below = lowered(self.below, at);
    }

    /// Notes that code leads to a place behind memory.
    #[tactic(auto, using(crate::proofs::Marking::grows_beyond, crate::proofs::Marking::sound_beyond, crate::proofs::Outside::reaches_lowered))]
    fn note_beyond(&mut self, at: i32)
        requires { pos (length self.old.labels) ≤ℤ at }
        ensures grows { Grows self.old self.new }
        ensures noted { IsTrue (reaches self.new.beyond at) }
        ensures sound { (story : LoadedStory) → IsListed story at → IsSound story self.old → IsSound story self.new }
    {
        self.beyond = lowered(self.beyond, at);
    }

    /// Tells of a place that it belongs to some code too. An address of memory waits where that is new.
    #[tactic(auto, using(crate::proofs::Marking::has_inside, crate::proofs::Marking::has_below, crate::proofs::Marking::has_beyond, crate::proofs::Reaching::so_listed))]
    fn mark(&mut self, at: i32, label: Label) -> Result<(), AllocError>
        ensures grows { IfOk result (λ _. Grows self.old self.new) }
        ensures has { IfOk result (λ _. Has self.new label at) }
        ensures sound { (story : LoadedStory) → label ≢ Nobody → IsSo story label at → IsSound story self.old → IfOk result (λ _. IsSound story self.new) }
    {
        match usize::try_from(at) {
            Ok(address) if address < self.labels.len() => self.mark_inside(address, label)?,
            Ok(_) => self.note_beyond(at),
            Err(_) => self.note_below(at),
        }
        Ok(())
    }

    /// Tells of a place, if there is one, that it belongs to some code too.
    fn lead(&mut self, at: Option<i32>, label: Label) -> Result<(), AllocError>
        ensures grows { IfOk result (λ _. Grows self.old self.new) }
        ensures has { IfOk result (λ _. IfSome at (Has self.new label)) }
        ensures sound { (story : LoadedStory) → label ≢ Nobody → IfSome at (IsSo story label) → IsSound story self.old → IfOk result (λ _. IsSound story self.new) }
    {
        match at {
            Some(at) => self.mark(at, label),
            None => Ok(()),
        }
    }

    /// Notes that a routine is called.
    #[tactic(auto, using(crate::proofs::Marking::grows_by_call, crate::proofs::Marking::known_by_call, crate::proofs::Marking::sound_by_call, crate::proofs::Marking::grows_absent, crate::proofs::Marking::known_absent, crate::proofs::Marking::sound_absent))]
    fn call(&mut self, address: u32)
        requires { address < 131072 }
        ensures grows { Grows self.old self.new }
        ensures called { IsKnown self.new address }
        ensures sound { (story : LoadedStory) → IsCalled story address → IsSound story self.old → IsSound story self.new }
    {
        if (address as usize) < self.called.len() {
            self.called[address as usize] = true;
        } else {
            self.absent = lowered(self.absent, address as i32);
        }
    }

    /// Enters a routine that is called, if one is: notes it, and marks where it begins.
    fn enter(&mut self, memory: &[u8], address: Option<u32>) -> Result<(), AllocError>
        requires low { IfSome address (λ a. a < 131072) }
        requires short { length memory.now ≤ 131072 }
        ensures grows { IfOk result (λ _. Grows self.old self.new) }
        ensures entered { IfOk result (λ _. IfSome address (IsEntered memory.now self.new)) }
        ensures sound { (story : LoadedStory) → memory.now ≡ story.memory → IfSome address (IsCalled story) → IsSound story self.old → IfOk result (λ _. IsSound story self.new) }
    {
        let Some(address) = address else {
            return Ok(());
        };
        self.call(address);
        let Ok(first) = begins(memory, address) else {
            return Ok(());
        };
        self.mark(first as i32, Label::One(Owner::Routine(address)))?;
        Ok(())
    }

    /// Follows an instruction at a place that has such a label: marks where it leads, and enters what it calls.
    fn follow(
        &mut self,
        memory: &[u8],
        at: i32,
        label: Label,
        instruction: &Instr,
    ) -> Result<(), AllocError>
        requires short { length memory.now ≤ 131072 }
        requires inside { IsInside at instruction.now }
        ensures grows { IfOk result (λ _. Grows self.old self.new) }
        ensures followed { IfOk result (λ _. IsFollowed memory.now self.new label at instruction.now) }
        ensures sound { (story : LoadedStory) → memory.now ≡ story.memory → label ≢ Nobody → spelled memory.now at ≡ Ok instruction.now → IsSo story label at → IsSound story self.old → IfOk result (λ _. IsSound story self.new) }
    {
        self.lead(next_place(at, instruction), label)?;
        self.lead(aside_place(at, instruction), label)?;
        self.enter(memory, callee(instruction))?;
        Ok(())
    }

    /// Follows the instruction at an address, if one stands there.
    fn visit(&mut self, standing: &Standing<'_>, address: usize) -> Result<(), AllocError>
        requires within { address < 131072 }
        ensures grows { IfOk result (λ _. Grows self.old self.new) }
        ensures followed { IfOk result (λ _. (i : Instruction) → spelled standing.now (pos address) ≡ Ok i → IsFollowed standing.now self.new (label_at self.old address) (pos address) i) }
        ensures sound { (story : LoadedStory) → standing.now ≡ story.memory → label_at self.old address ≢ Nobody → IsSound story self.old → IfOk result (λ _. IsSound story self.new) }
    {
        let at = address as i32;
        let label = self.label_at(address);
        let Some(instruction) = standing.at(at) else {
            return Ok(());
        };
        self.follow(standing.memory(), at, label, &instruction)?;
        Ok(())
    }
}

/// The place of a story's first instruction.
fn first_place(story: &Story) -> i32
    ensures { result ≡ pos (first_instruction story.now) }
{
    let _length = story.length(); // at most 131,072
    story.first_instruction() as i32
}

/// Follows a story's code from its first instruction on, until nothing new is found.
pub(crate) fn walk_story(alloc: Global, story: &Story) -> Result<Walk, AllocError>
    ensures { IfOk result (IsWalked story.now) }
{
    let standing = Standing::new(alloc, story.memory())?;
    let mut walk = Walk::new(alloc, story.length())?;
    walk.mark(first_place(story), Label::One(Owner::Main))?;
    while let Some(address) = walk.next() {
        walk.visit(&standing, address)?;
    }
    Ok(walk)
}

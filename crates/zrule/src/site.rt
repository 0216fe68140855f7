//! Where the rules are asked.

ghost use Rattle.std.specs.Prelude.{◌≡◌, ⊤};
ghost use Rattle.zflow.specs.Lent.{globals_seen};
ghost use Rattle.zrule.specs.Claims.{claims_of, globals_at};

use crate::blocks::{Block, Blocks};
use std::alloc::AllocError;
use zcert::{Certificate, Instruction, Spelled};
use zcode::Instr;
use zflow::{Globals, argument_set};
use zruns::Tables;
use zstory::Story;

/// A listed instruction that is there, with what the rules look at beside it.
#[derive(Copy)]
pub(crate) struct Site<'s, V: Spelled> {
    pub(crate) story: &'s Story,
    /// What comes of asking the story's objects for properties, and what is known of its arrays.
    pub(crate) tables: &'s Tables<'s>,
    pub(crate) certificate: &'s Certificate<V>,
    pub(crate) listed: &'s Instruction<'s, V>,
    pub(crate) instruction: &'s Instr,
    /// A listed instruction is looked for at this index first.
    pub(crate) near: usize,
    /// What is known of the certificate's routines block by block, if anything.
    pub(crate) blocks: Option<&'s Blocks<V>>,
}

// By hand, since a derived one goes through all fields.
impl<'s, V: Spelled> Clone for Site<'s, V> {
    ghost is_clone = { λ site copy. copy ≡ site };

    ghost is_infallible = { λ _. ⊤ };

    fn clone(&self) -> Result<Site<'s, V>, AllocError> {
        Ok(*self)
    }
}

/// The sets that the globals have at an address, as a certificate states.
pub fn globals_there<V: Spelled>(certificate: &Certificate<V>, address: u32) -> Globals<'_, V>
    ensures { globals_seen result ≡ globals_at (claims_of V.operations certificate.now) address }
{
    Globals {
        own: certificate.globals(),
        facts: certificate.facts_at(address),
    }
}

impl<'s, V: Spelled> Site<'s, V> {
    ghost use Rattle.std.specs.Prelude.{◌≡◌, ◌+◌, ◌≤◌, IfSome, slice_get};
    ghost use Rattle.zcode.specs.Operation.{target};
    ghost use Rattle.zflow.specs.Transfer.{argument_sets};
    ghost use Rattle.zcert.specs.Listed.{seen};
    ghost use Rattle.zrule.specs.Blocks.{AreBlocks, IsBlock};
    ghost use Rattle.zflow.specs.Lent.{globals_seen};
    ghost use Rattle.zrule.specs.Claims.{claims_of, entry_of, globals_at};

    /// The variable that takes its result.
    pub(crate) fn target(self) -> u8
        ensures { result ≡ target self.entry.instruction.now }
    {
        self.instruction.target()
    }

    /// The sets that the globals have before it.
    pub(crate) fn globals(self) -> Globals<'s, V>
        ensures { globals_seen result ≡ globals_at (claims_of V.operations self.entry.certificate.now) self.entry.listed.now.address }
    {
        globals_there(self.certificate, self.listed.address)
    }

    /// The place behind it.
    pub(crate) fn next(self) -> u32
        requires { self.listed.now.address + self.instruction.now.size ≤ 131072 }
        ensures { result ≡ self.entry.listed.now.address + self.entry.instruction.now.size }
    {
        self.listed.address + self.instruction.length() as u32
    }

    /// The set of an argument that it calls a routine with, by its place among them, if there is one.
    pub(crate) fn argument(self, index: usize) -> Option<V>
        ensures { result ≡ slice_get (argument_sets V.operations (globals_at (claims_of V.operations self.entry.certificate.now) self.entry.listed.now.address) self.entry.instruction.now (entry_of (seen self.entry.listed.now)).shape) index }
    {
        argument_set(
            self.globals(),
            self.listed.locals,
            self.listed.slots,
            self.instruction,
            index,
        )
    }

    /// The block that begins at a packed address, if one is known.
    pub(crate) fn block_at(self, packed: u16) -> Option<Block<V>>
        requires { IfSome self.blocks (λ b. AreBlocks V.operations (claims_of V.operations self.certificate.now) self.story.now b.now) }
        ensures told { IfSome result (IsBlock V.operations (claims_of V.operations self.entry.certificate.now) self.entry.story.now 64 packed) }
        ensures room { IfSome result (λ _. packed ≤ 65472) }
    {
        match self.blocks {
            Some(blocks) => blocks.beginning_at(packed),
            None => None,
        }
    }

    /// The wide block that begins there, if one is known.
    pub(crate) fn wide_block_at(self, packed: u16) -> Option<Block<V>>
        requires { IfSome self.blocks (λ b. AreBlocks V.operations (claims_of V.operations self.certificate.now) self.story.now b.now) }
        ensures told { IfSome result (IsBlock V.operations (claims_of V.operations self.entry.certificate.now) self.entry.story.now 4096 packed) }
        ensures room { IfSome result (λ _. packed ≤ 61440) }
    {
        match self.blocks {
            Some(blocks) => blocks.wide_at(packed),
            None => None,
        }
    }
}

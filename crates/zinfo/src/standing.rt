//! What stands at each address of a memory, or why nothing does.

use std::alloc::{AllocError, Global};
use std::marker::Model;
use zcode::{DecodeError, Instr};
use zlist::spelled;
use ztext::TextEnds;

/// What stands at each address of a memory. Each is read once, by rising addresses, so that each text is gone over once, in
/// whatever order the addresses are asked for afterwards. Contracts see the memory.
#[derive(Drop)]
pub(crate) struct Standing<'a> {
    memory: &'a [u8],
    table: Vec<Result<Instr, DecodeError>>,
}

impl<'a> Model for Standing<'a> {
    ghost use Rattle.std.specs.Prelude.{ℕ, List, ◌≡◌, ◌≤◌, length};
    ghost use Rattle.zinfo.specs.Walked.{AreStanding};

    ghost Value = { List ℕ };

    ghost view = { λ s. s.memory.now };

    ghost invariant = { λ s. (length s.memory.now ≤ 131072) × (length s.table.items ≡ length s.memory.now) × AreStanding s.memory.now s.table.items };
}

impl<'a> Standing<'a> {
    ghost use Rattle.std.specs.Prelude.{◌≡◌, ◌≤◌, IfOk, length, pos};
    ghost use Rattle.zlist.specs.Labels.{IsInside};
    ghost use Rattle.zlist.specs.Listed.{spelled};

    /// What stands in a memory.
    pub(crate) fn new(alloc: Global, memory: &'a [u8]) -> Result<Standing<'a>, AllocError>
        requires { length memory.now ≤ 131072 }
        ensures { IfOk result (λ standing. standing ≡ memory.now) }
    {
        let mut ends = TextEnds::new(memory);
        let mut table = Vec::new(alloc);
        for address in 0..memory.len() {
            table.push(spelled(&mut ends, address as i32))?;
        }
        Ok(Standing { memory, table })
    }

    /// The memory.
    pub(crate) fn memory(&self) -> &'a [u8]
        ensures value { result.now ≡ self.now }
        ensures short { length result.now ≤ 131072 }
    {
        self.memory
    }

    /// What stands at an address.
    #[tactic(auto, using(zlist::proofs::Outside::nothing_past))]
    pub(crate) fn at(&self, address: usize) -> Result<Instr, DecodeError>
        ensures value { result ≡ spelled self.now (pos address) }
        ensures inside { IfOk result (IsInside (pos address)) }
    {
        match self.table.get(address) {
            Some(found) => *found,
            None => Err(DecodeError::Truncated),
        }
    }
}

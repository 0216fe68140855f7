//! What stands at each address of a memory.

use crate::leading::spelled;
use std::alloc::{AllocError, Global};
use std::marker::Model;
use zcode::Instr;
use ztext::TextEnds;

/// What stands at each address of a memory. Each is read once, by rising addresses, so that each text is gone over once, in
/// whatever order the addresses are asked for afterwards. Contracts see the memory.
#[derive(Drop)]
pub(crate) struct Standing<'a> {
    memory: &'a [u8],
    table: Vec<Option<Instr>>,
}

impl<'a> Model for Standing<'a> {
    ghost use Rattle.std.specs.Prelude.{ℕ, List, ◌≤◌, length};
    ghost use Rattle.zlist.specs.Labels.{AreStanding};

    ghost Value = { List ℕ };

    ghost view = { λ s. s.memory.now };

    ghost invariant = { λ s. (length s.memory.now ≤ 131072) × AreStanding s.memory.now s.table.items };
}

impl<'a> Standing<'a> {
    ghost use Rattle.std.specs.Prelude.{◌≡◌, ◌≤◌, IfOk, IfSome, length};
    ghost use Rattle.std.specs.Result.{result_ok};
    ghost use Rattle.zlist.specs.Labels.{IsInside};
    ghost use Rattle.zlist.specs.Listed.{spelled};

    /// What stands in a memory.
    pub(crate) fn new(alloc: Global, memory: &'a [u8]) -> Result<Standing<'a>, AllocError>
        requires { length memory.now ≤ 131072 }
        ensures { IfOk result (λ standing. standing ≡ memory.now) }
    {
        let mut ends = TextEnds::new(memory);
        let mut table = Vec::new(alloc);
        for address in 0..memory.len() {
            table.push(spelled(&mut ends, address as i32).ok())?;
        }
        Ok(Standing { memory, table })
    }

    /// The memory.
    pub(crate) fn memory(&self) -> &'a [u8]
        ensures value { result.now ≡ self.now }
        ensures short { length result.now ≤ 131072 }
    {
        self.memory
    }

    /// What stands at a place, if an instruction does.
    pub(crate) fn at(&self, place: i32) -> Option<Instr>
        ensures value { result ≡ result_ok (spelled self.now place) }
        ensures inside { IfSome result (IsInside place) }
    {
        let Ok(address) = usize::try_from(place) else {
            return None;
        };
        match self.table.get(address) {
            Some(found) => *found,
            None => spelled(&mut TextEnds::new(self.memory), place).ok(),
        }
    }
}

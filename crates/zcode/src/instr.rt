//! Instructions as they are read.

use crate::opcode::Opcode;
use crate::operands::{MOST, Operands};
use arrayvec::ArrayVec;
use std::marker::Model;

/// An operand (Z 4.2).
#[derive(Clone, Copy, Debug, PartialEq, Eq)]
pub enum Operand {
    /// A constant, large or small.
    Constant(u16),
    /// The value of a variable: 0 is the stack, 1 to 15 are locals, 16 to 255 globals.
    Variable(u8),
}

/// What stands in a place that holds no operand.
impl Default for Operand {
    ghost use Rattle.std.specs.Prelude.{◌≡◌};
    ghost use Rattle.zcode.specs.declared.instr.Operand.TheVariants.{Constant};

    ghost is_default = { λ operand. operand ≡ Constant 0 };

    fn default() -> Operand {
        Operand::Constant(0)
    }
}

/// Branch data (Z 4.7): where to go on, and when.
#[derive(Clone, Copy, Debug, PartialEq, Eq)]
pub struct Branch {
    /// Branch where the condition holds (true) or where it doesn't (false).
    pub sense: bool,
    /// The offset as it is written, -8,192 to 8,191.
    pub offset: i16,
}

/// What stands in the place of branch data that there is none of.
const NO_BRANCH: Branch = Branch {
    sense: false,
    offset: 0,
};

/// Where a branch leads that is taken (Z 4.7.1, 4.7.2).
#[derive(Clone, Copy, Debug, PartialEq, Eq)]
pub enum Destination {
    /// To the caller, with the result 0.
    ReturnFalse,
    /// To the caller, with the result 1.
    ReturnTrue,
    /// To the byte after the instruction plus this distance in bytes.
    Relative(i32),
}

impl Branch {
    ghost use Rattle.std.specs.Prelude.{◌≡◌};
    ghost use Rattle.zcode.specs.Instruction.{destination};

    /// Where it leads if it is taken.
    pub fn destination(self) -> Destination
        ensures { result ≡ destination self.offset }
    {
        match self.offset {
            0 => Destination::ReturnFalse,
            1 => Destination::ReturnTrue,
            offset => Destination::Relative(i32::from(offset) - 2),
        }
    }
}

/// What follows the operands of an instruction. The opcode tells whether there are a store variable and branch data: where
/// there are none, zeros stand in their places.
#[derive(Clone, Copy, Debug, PartialEq, Eq)]
struct Tail {
    store: u8,
    sense: bool,
    offset: i16,
}

/// An instruction, which contracts see as the record `Instruction`. It has what its opcode asks for.
#[derive(Clone, Copy, Debug, PartialEq, Eq)]
pub struct Instr {
    length: usize,
    operands: Operands,
    tail: Tail,
    opcode: Opcode,
}

impl Model for Instr {
    ghost use Rattle.std.specs.Prelude.{◌≡◌};
    ghost use Rattle.zcode.specs.Instruction.{Instruction};

    ghost Value = { Instruction };

    ghost use Rattle.zcode.specs.Instruction.{IsWellFormed};
    ghost use Rattle.zcode.specs.Places.{kept, written};

    ghost view = { λ i. written i.opcode i.operands i.tail i.length };

    // Equal instructions are equal values.
    ghost invariant = { λ i. IsWellFormed (written i.opcode i.operands i.tail i.length) × (i.tail ≡ kept (written i.opcode i.operands i.tail i.length)) };

    ghost inverse = { λ i. record { length = i.size; operands = i.operands; tail = kept i; opcode = i.opcode } };
}

impl Instr {
    ghost use Rattle.std.specs.Prelude.{◌≡◌, ◌<◌, is_some, length};
    ghost use Rattle.zcode.specs.Instruction.{Instruction, IsWellFormed};
    ghost use Rattle.zcode.specs.Opcodes.{TakesOperands, branches, stores};
    ghost use Rattle.zcode.specs.Names.{name_of};

    #[inline(always)]
    pub(crate) fn new(
        opcode: Opcode,
        operands: Operands,
        store: Option<u8>,
        branch: Option<Branch>,
        bytes: usize,
    ) -> Instr
        requires { IsWellFormed (record { opcode = opcode; operands = operands; store = store; branch = branch; size = bytes }) }
        ensures { result ≡ record { opcode = opcode; operands = operands; store = store; branch = branch; size = bytes } }
    {
        let Branch { sense, offset } = branch.unwrap_or(NO_BRANCH);
        Instr {
            length: bytes,
            operands,
            tail: Tail {
                store: store.unwrap_or(0),
                sense,
                offset,
            },
            opcode,
        }
    }

    /// The opcode.
    pub fn opcode(&self) -> Opcode
        ensures { result ≡ self.now.opcode }
    {
        self.opcode
    }

    /// The standard's name of the opcode, as `new_line` (Z 14).
    pub fn name(&self) -> &'static str
        ensures { result.now ≡ name_of self.now.opcode }
    {
        Opcode::name(self.opcode)
    }

    /// The operands in order, as many as the opcode takes: at most four.
    pub fn operands(&self) -> ArrayVec<Operand, MOST>
        ensures value { result.items ≡ self.now.operands }
        ensures number { TakesOperands self.now.opcode (length result.items) }
    {
        self.operands.list()
    }

    /// The variable that takes the result, where the opcode stores one: 0 pushes it on the stack.
    pub fn store(&self) -> Option<u8>
        ensures value { result ≡ self.now.store }
        ensures present { is_some result ≡ stores self.now.opcode }
    {
        if self.opcode.stores() {
            Some(self.tail.store)
        } else {
            None
        }
    }

    /// The branch data, where the opcode branches.
    pub fn branch(&self) -> Option<Branch>
        ensures value { result ≡ self.now.branch }
        ensures present { is_some result ≡ branches self.now.opcode }
    {
        if self.opcode.branches() {
            Some(Branch {
                sense: self.tail.sense,
                offset: self.tail.offset,
            })
        } else {
            None
        }
    }

    /// The number of its bytes, at least 1.
    pub fn length(&self) -> usize
        ensures value { result ≡ self.now.size }
        ensures positive { 0 < result }
    {
        self.length
    }
}

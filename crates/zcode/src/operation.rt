//! What opcodes do, by families.

ghost use Rattle.std.specs.Prelude.{◌≡◌, ◌≤◌, length};
ghost use Rattle.zcode.specs.Operation.{inputs, target};

use crate::instr::{Instr, Operand};
use arrayvec::ArrayVec;
use zarray::Width;
use zobj::{Link, PropertyQuestion};
use zword::{Addressing, BinaryOp, CountOp, Question, UnaryOp};

/// What an opcode does, by its family (Z 15). Every layer goes by these.
#[derive(Clone, Copy, PartialEq, Eq)]
pub enum Operation {
    /// One value makes the one that goes to the result variable.
    Unary(UnaryOp),
    /// Two values make the one that goes to the result variable.
    Binary(BinaryOp),
    /// The branch asks whether a question holds of the first value and one of the others.
    Compare(Question),
    /// The variable that the first value names is counted, and its new value is asked against the second, if at all.
    Count(CountOp, Option<Question>),
    /// The variable that the first value names is given the second.
    Store,
    /// The variable that the first value names gives its value to the result variable.
    Load,
    /// The next instruction is as far away as the value says.
    Jump,
    /// The branch asks whether the story's sum is that of its header.
    Verify,
    /// The character of a code is printed.
    PrintChar,
    /// A signed number is printed.
    PrintNumber,
    /// The text behind the opcode byte is printed.
    Print,
    /// A new line is printed.
    NewLine,
    /// Nothing but the reading of operands.
    Nop,
    /// The machine stands still.
    Quit,
    /// The first value is returned.
    Return,
    /// The text behind the opcode byte and a new line are printed, and 1 is returned.
    PrintReturn,
    /// The routine at the packed address of the first value is called with the others.
    Call,
    /// The branch asks whether the object of the first value is in that of the second.
    Inside,
    /// The branch asks whether the object of the first value has the attribute of the second.
    TestAttribute,
    /// The number that a link of the value's object leads to goes to the result variable, and the branch asks whether it leads to one.
    Follow(Link),
    /// The object of the first value gets the attribute of the second.
    SetAttribute,
    /// The object of the first value loses the attribute of the second.
    ClearAttribute,
    /// The object of the first value becomes the first child of that of the second.
    Insert,
    /// The object of the value is taken out of the tree.
    Remove,
    /// The answer to a question about the object of the first value and the property number of the second goes to the result variable.
    Property(PropertyQuestion),
    /// How many bytes of property data there are at the address of the value goes to the result variable.
    PropertyLength,
    /// The property of the object of the first value whose number is the second is given the third.
    SetProperty,
    /// The short name of the object of the value is printed.
    PrintObject,
    /// The text at the address of the value is printed.
    PrintAt(Addressing),
    /// The status line shows what the first three globals say from here on.
    ShowStatus,
    /// The element of the array at the first value whose index is the second goes to the result variable.
    LoadArray(Width),
    /// The element of the array at the first value whose index is the second is given the third.
    StoreArray(Width),
    /// A random number from 1 to the value goes to the result variable, or the numbers come from elsewhere from here on.
    Random,
    /// A line of the player is stored in the buffer at the first value, and what is said of its words in that at the second.
    ReadLine,
    /// The game is saved, and the branch asks whether the save was kept.
    Save,
    /// Play goes on from a save; the branch asks whether there is one, and is done where there is none.
    Restore,
    /// The story begins anew.
    Restart,
}

impl Instr {
    /// All that the instruction reads, from left to right: its operands, and what its opcode takes beside them.
    #[tactic(auto, using(crate::proofs::Operating::inputting))]
    pub fn inputs(&self) -> ArrayVec<Operand, 4>
        ensures value { result.items ≡ inputs self.now }
        ensures few { length result.items ≤ 4 }
    {
        let mut inputs = self.operands();
        if let Some(operand) = self.opcode().implied() {
            inputs.push(operand);
        }
        inputs
    }

    /// The variable that takes what the instruction gives: the stack, where it names none.
    pub fn target(&self) -> u8
        ensures { result ≡ target self.now }
    {
        self.store().unwrap_or(0)
    }
}

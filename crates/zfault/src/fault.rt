//! What a machine finds wrong with an instruction.

ghost use Rattle.std.specs.Prelude.{◌≡◌};
ghost use Rattle.zfault.specs.Fault.{number_of};

use thiserror::Error;

/// Why an instruction has no meaning here (own). A fault changes nothing: the state is that before the instruction.
#[derive(Clone, Copy, Debug, PartialEq, Eq, Error)]
pub enum Fault {
    /// F1: the place isn't a listed one.
    #[error("no instruction is listed at the place")]
    UnlistedInstruction = 1,
    /// F2: the bytes at the place spell no instruction of the profile.
    #[error("the bytes at the place spell no instruction")]
    IllegalOpcode = 2,
    /// F3: a call of what isn't a listed routine, or of one whose head isn't whole or has more than 15 locals.
    #[error("no routine is listed at the called address")]
    UnlistedCall = 3,
    /// F4: a pop, or an access of the top, of an empty stack.
    #[error("the stack is empty")]
    StackUnderflow = 4,
    /// F5: a local variable above the routine's count.
    #[error("the routine has no such local variable")]
    AbsentLocal = 5,
    /// F6: an object number that is 0 or above the story's count.
    #[error("no object has this number")]
    AbsentObject = 6,
    /// F7: an attribute number above 31.
    #[error("no attribute has this number")]
    AbsentAttribute = 7,
    /// F8: a property number out of range, or one that the object lacks and has to have.
    #[error("the object has no such property")]
    AbsentProperty = 8,
    /// F9: a property of more than two bytes, read or written as a number.
    #[error("the property is longer than a word")]
    PropertyTooLong = 9,
    /// F10: a division by 0.
    #[error("the divisor is zero")]
    ZeroDivisor = 10,
    /// F11: a write outside dynamic memory, or to the header without Flags 2.
    #[error("a write to memory that may not be written")]
    WriteOutside = 11,
    /// F12: a read from the loaded length or from 65,536 on.
    #[error("a read of memory that may not be read")]
    ReadOutside = 12,
    /// F13: a text that can't be decoded.
    #[error("the text can't be decoded")]
    TextOutside = 13,
    /// F14: a text buffer with no room for a letter, or a parse buffer with no room for a word.
    #[error("the buffer is too small")]
    SmallBuffer = 14,
    /// F15: a return from the first frame.
    #[error("a return from the main routine")]
    ReturnFromMain = 15,
    /// F16: an operand that names a variable is above 255.
    #[error("no variable has this number")]
    BadVariable = 16,
}

impl Fault {
    /// The number of the fault, 1 to 16, that messages show as in `F4`.
    pub fn number(self) -> u8
        ensures { result ≡ number_of self }
    {
        self as u8
    }
}

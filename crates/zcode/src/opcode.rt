//! The opcodes of version 3.

/// An opcode of the profile (Z 14, 15): the standard's opcodes of version 3, but for those in `Excluded`.
#[derive(Clone, Copy, Debug, PartialEq, Eq)]
pub enum Opcode {
    /// Branch where the first operand equals another.
    Je,
    /// Branch where the first operand is below the second, both signed.
    Jl,
    /// Branch where the first operand is above the second, both signed.
    Jg,
    /// Take 1 from a variable, and branch where it is now below the second operand.
    DecChk,
    /// Add 1 to a variable, and branch where it is now above the second operand.
    IncChk,
    /// Branch where the first object stands in the second.
    Jin,
    /// Branch where the first operand has each bit of the second.
    Test,
    /// Store the bitwise or.
    Or,
    /// Store the bitwise and.
    And,
    /// Branch where an object has an attribute.
    TestAttr,
    /// Give an object an attribute.
    SetAttr,
    /// Take an attribute from an object.
    ClearAttr,
    /// Write a value to a variable.
    Store,
    /// Move the first object into the second, as its first child.
    InsertObj,
    /// Store a word of an array.
    Loadw,
    /// Store a byte of an array.
    Loadb,
    /// Store the value of a property.
    GetProp,
    /// Store the address of a property's data.
    GetPropAddr,
    /// Store the number of the property after one.
    GetNextProp,
    /// Store the sum.
    Add,
    /// Store the difference.
    Sub,
    /// Store the product.
    Mul,
    /// Store the quotient, both signed.
    Div,
    /// Store the remainder, both signed.
    Mod,
    /// Branch where the operand is 0.
    Jz,
    /// Store an object's sibling, and branch where there is one.
    GetSibling,
    /// Store an object's first child, and branch where there is one.
    GetChild,
    /// Store an object's parent.
    GetParent,
    /// Store the length of a property's data.
    GetPropLen,
    /// Add 1 to a variable.
    Inc,
    /// Take 1 from a variable.
    Dec,
    /// Print the text at a byte address.
    PrintAddr,
    /// Take an object out of its parent.
    RemoveObj,
    /// Print an object's name.
    PrintObj,
    /// Return a value from the routine.
    Ret,
    /// Go on at a distance.
    Jump,
    /// Print the text at a packed address.
    PrintPaddr,
    /// Store a variable's value.
    Load,
    /// Store the bitwise not.
    Not,
    /// Return 1 from the routine.
    Rtrue,
    /// Return 0 from the routine.
    Rfalse,
    /// Print the text that follows.
    Print,
    /// Print the text that follows and a new line, and return 1.
    PrintRet,
    /// Do nothing.
    Nop,
    /// Save the game, and branch where that succeeded.
    Save,
    /// Restore a saved game, which goes on at its `save`.
    Restore,
    /// Start the story again.
    Restart,
    /// Return the top of the stack from the routine.
    RetPopped,
    /// Drop the top of the stack.
    Pop,
    /// End the story.
    Quit,
    /// Print a new line.
    NewLine,
    /// Show the status line.
    ShowStatus,
    /// Branch where the story's checksum is right.
    Verify,
    /// Call a routine, and store what it returns.
    Call,
    /// Write a word of an array.
    Storew,
    /// Write a byte of an array.
    Storeb,
    /// Write a property.
    PutProp,
    /// Read a line of the player, and divide it into words.
    Sread,
    /// Print a character.
    PrintChar,
    /// Print a signed number.
    PrintNum,
    /// Store a random number.
    Random,
    /// Push a value on the stack.
    Push,
    /// Pop the stack into a variable.
    Pull,
}

/// An opcode of version 3 that the profile leaves out for good: a writer of bytes has no window, stream or sound.
#[derive(Clone, Copy, Debug, PartialEq, Eq)]
pub enum Excluded {
    /// Divide the screen.
    SplitWindow,
    /// Choose a window of the screen.
    SetWindow,
    /// Choose where output goes.
    OutputStream,
    /// Choose where input comes from.
    InputStream,
    /// Play a sound.
    SoundEffect,
}

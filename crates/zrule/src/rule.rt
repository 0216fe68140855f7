//! The rules on a listed instruction.

/// A rule on a listed instruction (own). The first that is named here has the lowest number.
#[derive(Clone, Copy, Debug, PartialEq, Eq)]
pub enum Rule {
    /// I1: it decodes, and begins at or above the base of static memory.
    Decodes,
    /// I2: every pop, and every use of the stack in place, finds an item.
    Height,
    /// I3: every local that is named exists.
    Local,
    /// I4: each edge that can be taken leads to a listed place of the same routine, of equal height, whose sets contain
    /// those after the instruction; a jump goes one known way.
    Successor,
    /// I5: each number that it takes for an object's is that of one of the story's objects.
    Object,
    /// I6: each number that it takes for an attribute's is 0 to 31.
    Attribute,
    /// I7: each object has each property that is asked for, where it has to, and none is longer than what is read or written as a word.
    Property,
    /// I8: no value by which it divides is 0.
    Divisor,
    /// I9: each byte that it writes may be written, and none is frozen.
    Write,
    /// I10: each element that it reads, and the size byte before each address of property data that it takes, can be read.
    Read,
    /// I11: a text that it prints ends in memory, and no play changes a byte of it.
    Text,
    /// I12: each word that it may call is 0 or the packed address of a listed routine, whose first instruction is listed in it
    /// with an empty stack and sets that contain the arguments and initial words.
    Called,
    /// I13: it returns from no main code, and what it returns lies in the set of its routine.
    Returned,
    /// I14: each buffer that it stores a line in is one known one, whose size stays as it is and is large enough, and all that it takes may
    /// be written.
    Buffers,
    /// I15: a variable that an operand names is one known variable.
    Known,
    /// I16: what it stores to a global lies in that global's set.
    Stored,
    /// I17: no edge has a stack higher than 64.
    High,
    /// I18: the object that a status line names is one of the story's, or none.
    Status,
}

impl Rule {
    ghost use Rattle.std.specs.Prelude.{◌≡◌};
    ghost use Rattle.zrule.specs.Numbers.{number_of};

    /// The number after the `I` of its code.
    pub fn number(self) -> u8
        ensures { result ≡ number_of self }
    {
        match self {
            Rule::Decodes => 1,
            Rule::Height => 2,
            Rule::Local => 3,
            Rule::Successor => 4,
            Rule::Object => 5,
            Rule::Attribute => 6,
            Rule::Property => 7,
            Rule::Divisor => 8,
            Rule::Write => 9,
            Rule::Read => 10,
            Rule::Text => 11,
            Rule::Called => 12,
            Rule::Returned => 13,
            Rule::Buffers => 14,
            Rule::Known => 15,
            Rule::Stored => 16,
            Rule::High => 17,
            Rule::Status => 18,
        }
    }
}

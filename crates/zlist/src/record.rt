//! One listed instruction.

use zcode::Instr;

/// A listed instruction: where it stands, and the routine that it belongs to (own).
#[derive(Clone, Copy, Debug, PartialEq, Eq)]
pub struct Record {
    /// The address of its first byte, below 131,072 in a `Listing`.
    pub address: u32,
    /// The number of its routine: 0 is the main code, the listing's routines count from 1.
    pub routine: u16,
    /// The instruction itself.
    pub instruction: Instr,
}

//! Why no instruction stands at a place.

use crate::opcode::Excluded;
use thiserror::Error;

/// The first thing that is wrong at a place: the opcode is judged first (J2, J3), then the others in reading order.
#[derive(Clone, Copy, Debug, PartialEq, Eq, Error)]
pub enum DecodeError {
    /// J1: the bytes end before the instruction does.
    #[error("the bytes end within the instruction")]
    Truncated,
    /// J2: no opcode of version 3 has the number.
    #[error("no opcode has this number")]
    NoSuchOpcode,
    /// J3: the profile leaves the opcode out.
    #[error("the opcode {} is not played", .0.name())]
    NotInProfile(Excluded),
    /// J4: the opcode doesn't take so many operands.
    #[error("the opcode does not take this number of operands")]
    Operands,
    /// J5: the text after the opcode has no end.
    #[error("the text has no end")]
    Text,
}

//! Instructions of version 3 code: what they are, and the decoder.
//!
//! `decode` reads the instruction at a place, and accepts exactly what the grammar spells.
#![tactic(auto)]

mod error;
mod instr;
mod laws;
mod names;
mod opcode;
mod operands;
mod operation;
mod profile;
mod reading;
mod table;
mod types;

pub use error::DecodeError;
pub use instr::{Branch, Destination, Instr, Operand};
pub use laws::{one_spelling, reading_is_local, reading_is_spelling, text_ends_instruction};
pub use opcode::{Excluded, Opcode};
pub use operation::Operation;
pub use reading::{decode, decode_by};

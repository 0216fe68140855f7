//! Words, and the families of operations on them that instructions share.
//!
//! Each family is an enum with one definition and one body: what an instruction computes, what a set of words makes of it
//! and what a rule asks of it all go by the same enum.
#![tactic(auto)]

mod addressing;
mod binary;
mod count;
mod question;
mod unary;

pub use addressing::Addressing;
pub use binary::BinaryOp;
pub use count::CountOp;
pub use question::Question;
pub use unary::UnaryOp;

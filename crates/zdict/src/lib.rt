//! The dictionary: which entry has a word, and which words a line has.
#![tactic(auto)]

mod bytes;
mod entries;
mod laws;
mod splitting;
mod token;

pub use entries::lookup;
pub use laws::{tokens_are_exact, tokens_are_parts};
pub use splitting::tokens;
pub use token::{Token, Tokens};

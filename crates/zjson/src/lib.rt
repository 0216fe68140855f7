//! Answers that a program reads: objects of JSON, each on a line of its own, and the digest of a file.
#![tactic(auto)]

mod answers;
mod digest;
mod laws;
mod object;

pub use answers::{Listed, Verdict, explained_line, instruction_line, listed_line, verdict_line};
pub use digest::digest_text;
pub use laws::{objects_are_lines, objects_read_back};
pub use object::{Member, Value, line_of};

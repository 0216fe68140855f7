//! Arrays of words and bytes in a story's memory.
#![tactic(auto)]

mod width;

pub use width::Width;

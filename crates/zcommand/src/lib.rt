//! The command line: what the words after the program's name ask for.
#![tactic(auto)]

mod commands;
mod words;

pub use words::{Command, Front, command_of, debug_of, front_of, read_words};

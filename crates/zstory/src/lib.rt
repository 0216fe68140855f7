//! A story file as it is loaded: its memory and the numbers of its header.
#![tactic(auto)]

mod bytes;
mod checks;
mod dictionary;
mod header;
mod identity;
mod load_error;
mod loading;
mod objects;
mod story;

pub use header::{DEFAULTS_LENGTH, GLOBALS_LENGTH, OBJECT_ENTRY_LENGTH};
pub use identity::Identity;
pub use load_error::LoadError;
pub use story::Story;

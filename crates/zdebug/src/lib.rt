//! Inform 6's debug information (`gameinfo.dbg`): the line of the source and the routine of an address, and names.
#![tactic(auto)]

mod cutting;
mod draft;
mod element;
mod error;
mod info;
mod laws;
mod lookup;
mod naming;
mod path;
mod place;
mod reader;
mod reading;
mod records;
mod shown;
mod tag;
mod telling;
mod text;

pub use error::DebugError;
pub use info::{DebugInfo, FILE_LIMIT};
pub use laws::{escaped_names_are_strings, shown_names_are_printable};
pub use naming::Named;
pub use place::Place;
pub use telling::{name_text, source_object, source_text};

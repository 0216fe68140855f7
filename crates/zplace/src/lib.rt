//! Which bytes of a story a play may change, which stay as they were loaded, and where the data of properties are.
#![tactic(auto)]

mod bytes;
mod places;
mod property_tables;

pub use bytes::{is_changing, is_unchanging};
pub use places::{data_end, list_place, name_words, table_of};
pub use property_tables::{has_property_tables, read_length};

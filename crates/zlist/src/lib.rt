//! Listings: the instructions of a story that may be played, and its routines.
//!
//! A `Listing` is made from parts in order, and tells of an address what is listed there without a search. `list_story` makes the
//! one of all that constant calls, jumps and both ways of branches lead to.
#![tactic(auto)]

mod leading;
mod list_error;
mod lister;
mod listing;
mod numbers;
mod order;
mod owner;
mod record;
mod standing;
mod walk;

pub use leading::{aside_place, begins, callee, next_place, spelled};
pub use list_error::ListError;
pub use lister::list_story;
pub use listing::Listing;
pub use record::Record;

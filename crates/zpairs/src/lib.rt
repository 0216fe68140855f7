//! What comes of asking any object of a set for the property of any number of a set.
#![tactic(auto)]

mod answering;
mod blocks;
mod cell;
mod closed;
mod columns;
mod ends;
mod finding;
mod fixed;
mod frozen;
mod laws;
mod marked;
mod passing;
mod properties;
mod room;
mod rows;
mod told;

pub use ends::Ends;
pub use frozen::PLACES;
pub use laws::answers_lie_in_their_sets;
pub use marked::Marked;
pub use properties::Properties;
pub use room::PropertyRoom;
pub use told::members;

//! Lines of the player: how they are stored, and what is said of their words.
#![tactic(auto)]

mod laws;
mod storing;

pub use laws::lines_stay_in_their_buffers;
pub use storing::store_line;

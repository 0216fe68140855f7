//! What is known of the elements of arrays, wherever they may lie.
#![tactic(auto)]

mod blocks;
mod cell;
mod element;
mod laws;
mod piece;
mod room;
mod run;
mod runs;
mod sums;
mod tables;
mod text_marks;
mod texts;

pub use cell::Cell;
pub use laws::elements_lie_in_their_sets;
pub use room::Room;
pub use run::Run;
pub use runs::{Runs, are_readable};
pub use tables::Tables;
pub use texts::Texts;

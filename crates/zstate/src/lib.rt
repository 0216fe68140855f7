//! The state of a machine: its memory, frames and place, and the accesses that instructions make.
#![tactic(auto)]

mod arrays;
mod calling;
mod frame;
mod frames;
mod halt;
mod head;
mod laws;
mod laying;
mod mode;
mod objects;
mod saved;
mod saving;
mod state;
mod waiting;

pub use calling::{has_head, local_at};
pub use frame::Frame;
pub use halt::{Halt, Stop};
pub use laws::{runs_join, saves_are_states, steps_keep_states};
pub use mode::RandomMode;
pub use saved::SavedState;
pub use state::{State, Values};

//! The engine: one board on which steps are made, with the tests of the machine's definition where they are asked for, over flat frames
//! and rows that know where their operands lie.
#![tactic(auto)]

mod aside;
mod asking;
mod board;
mod calling;
mod changing;
mod doing;
mod entering;
mod growing;
mod guard;
mod judging;
mod judging_aside;
mod jumping;
mod lines;
mod lying;
mod naming;
mod objects;
mod opening;
mod outside;
mod place;
mod printing;
mod restarting;
mod resuming;
mod row;
mod running;
mod saving;
mod seldom;
mod status;
mod stepping;
mod telling;
mod writing;

pub use aside::{Want, step_aside};
pub use asking::Answer;
pub use board::{Board, Leave};
pub use calling::{called_word, step_call};
pub use doing::{Aside, Asking, Changing, Making, Naming, Nowhere, Printing, Telling, Turning};
pub use growing::grow;
pub use jumping::{jump_spot, step_jump};
pub use lying::{Lying, Spots, caller, find_frames};
pub use naming::{held_slot, landed, result_slot, slot_of};
pub use opening::open;
pub use outside::Outside;
pub use place::{frame_slot, value_at};
pub use printing::Unprinted;
pub use resuming::{grow_to, reload, resume, resume_within, words_wanted};
pub use row::{Action, Callee, Entering, Found, Row, Slot, Spot};
pub use running::{Played, play};
pub use saving::{SavedBoard, lent};
pub use stepping::is_place;

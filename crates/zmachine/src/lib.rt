//! What both machines are made of: a board with its rows, played on until it pauses, faults or wants memory.
#![tactic(auto)]

mod advancing;
mod guard;
mod machine;
mod parts;
mod placing;
mod resuming;
mod returns;
mod room;
mod rows;
mod running;
mod standing;
mod stepping;
mod stuck;
mod taking;

pub use guard::{Guard, Tested, Untested};
pub use machine::Machine;
pub use parts::Parts;
pub use rows::Rows;
pub use running::{Ran, run_on};
pub use stepping::{judge_once, step_once};
pub use stuck::{Lack, Stuck};

//! Doing what the words after the program's name ask for: files, the lister, the checker, the player, and what is said of it.
#![tactic(auto)]

mod accepting;
mod beside;
mod blame;
mod checking;
mod claims;
mod each;
mod excusing;
mod explaining;
mod feeding;
mod files;
mod finding;
mod informing;
mod listing;
mod marking;
mod message;
mod operands;
mod outcome;
mod performing;
mod playing;
mod progress;
mod saves;
mod seeking;
mod showing;
mod told;
mod unpacking;
mod verdict;
mod wording;

pub use blame::{Action, Blame, Cause};
pub use files::{Disk, Files, read_file};
pub use outcome::{Failure, Outcome, Problem, Purpose};
pub use performing::{fail, perform, refuse_bytes, report};
pub use playing::{Asked, Devices};
pub use wording::Speech;

//! Saves judged: whether an accepted story may go on from one, before a byte of its state changes.
#![tactic(auto)]

mod bytes;
mod frames;
mod judging;
mod kept;
mod memory;
mod place;
mod words;

pub use judging::judge_save;

//! The player: it writes what a machine gives out, and hands in what it waits for.
#![tactic(auto)]

mod end;
mod laws;
mod lenient;
mod lines;
mod machine;
mod noting;
mod outside;
mod player;
mod saving;
mod seeded;
mod turns;

pub use end::{End, Options, PlayError};
pub use laws::{lenient_plays_are_runs, plays_are_runs, story_plays_are_runs};
pub use lenient::{Lenience, play_leniently};
pub use lines::Lines;
pub use noting::{Answered, Notes};
pub use outside::{SaveStore, Words, World};
pub use player::{play_checked, play_story};
pub use seeded::Seeded;

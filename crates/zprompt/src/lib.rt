//! The player's own commands: lines at a prompt that a story never sees.
#![tactic(auto)]

mod answer;
mod command;
mod given;
mod machine;
mod manner;
mod playing;
mod prompt;
mod turns;

pub use answer::Answer;
pub use command::{Command, command_of};
pub use manner::Manner;
pub use playing::{play_checked_in, play_story_in};
pub use turns::MOST_TURNS;

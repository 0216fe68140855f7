//! What a player sees: text, and status lines as they are asked for.
#![tactic(auto)]

mod laws;
mod pieces;
mod rendering;
mod status;
mod status_lines;
mod writing;

pub use laws::renderings_join;
pub use rendering::render;
pub use status_lines::StatusLines;
pub use writing::write_items;

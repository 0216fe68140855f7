//! Save files of the Quetzal standard: what they tell, written and read.
#![tactic(auto)]

mod chunk;
mod error;
mod frame;
mod frames;
mod laws;
mod limits;
mod origin;
mod parts;
mod reading;
mod survey;
mod view;
mod writing;

pub use error::SaveError;
pub use frame::{SavedFrame, word, word_count};
pub use frames::Frames;
pub use laws::saves_are_read;
pub use limits::MOST_FRAMES;
pub use origin::Origin;
pub use parts::{FrameParts, SaveParts};
pub use reading::read;
pub use view::SaveView;
pub use writing::{write, write_to};

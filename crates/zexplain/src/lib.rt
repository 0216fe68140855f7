//! What the codes of the program mean, and its manual page.
#![tactic(auto)]

mod certificates;
mod debugging;
mod explaining;
mod faults;
mod manual;
mod playing;
mod rules;
mod short;
mod stories;

pub use certificates::{FINDING, FITTING, READING};
pub use debugging::DEBUGGING;
pub use explaining::explanation;
pub use faults::FAULTS;
pub use manual::MANUAL;
pub use playing::{KEEPING, PLAYING, SAVING, UNPACKING};
pub use rules::RULES;
pub use short::{all_codes, in_short};
pub use stories::{DECODING, LISTING, LOADING, TEXTS};

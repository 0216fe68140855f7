//! Work on many files: the file beside a story's, one piece of work a file, and what all of it came to.
#![tactic(auto)]

mod laws;
mod naming;
mod summary;
mod tally;
mod work;

pub use laws::{names_are_told_by_stems, status_is_the_greatest};
pub use naming::{is_story_name, name_beside};
pub use summary::{Wording, summary_line};
pub use tally::Tally;
pub use work::{Ended, Work, work_through};

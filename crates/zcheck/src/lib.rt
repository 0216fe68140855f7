//! The checker of certificates.
#![tactic(auto)]

mod accepted;
mod checking;
mod examining;
mod judged;
mod listing;
mod marked;
mod objects;
mod refusal;
mod story_rules;
mod stream;
mod tables;

pub use accepted::Accepted;
pub use checking::check;
pub use examining::examine;
pub use judged::{Judged, check_any};
pub use marked::{Marked, check_marked, examine_unmarked};
pub use refusal::{Refusal, StoryRule, StreamRefusal};
pub use stream::CheckStream;

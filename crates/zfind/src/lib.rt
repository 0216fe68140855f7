//! The finder of certificates.
//!
//! `find` walks over what a story lists, and keeps for each place a set of the values of each local and slot, as it does for each global
//! and for what each routine gives. These are intervals, and where they lead to no certificate lists as well. What it answers was accepted
//! by the checker. `find_limited` answers one that names a limit of frames, and `find_marked` one that may mark instructions besides.
//! A search may take long: a `Watch` is told how far it is.
#![tactic(auto)]

mod bytes;
mod certificate;
mod code;
mod effects;
mod error;
mod extending;
mod finding;
mod found;
mod frame;
mod gaps;
mod groups;
mod kind;
mod limited;
mod looking;
mod marking;
mod narrowing;
mod numbered;
mod obstacles;
mod opened;
mod openings;
mod queue;
mod recursion;
mod settling;
mod shelf;
mod span;
mod state;
mod thresholds;
mod visits;
mod walk;
mod watch;

pub use error::{FindError, Obstacle};
pub use finding::find;
pub use found::Found;
pub use limited::find_limited;
pub use marking::{find_marked, find_unmarked};
pub use obstacles::broken_in_all;
pub use visits::{MOST_LIST_WORK, MOST_VISITS, MOST_WORK};
pub use watch::{Unwatched, Watch};

//! Lenient play: where a step is a fault for which interpreters have a customary answer, that answer is given, and the story goes on.
#![tactic(auto)]

mod acting;
mod answer;
mod excusing;
mod front;
mod laws;
mod passing;
mod settling;

pub use answer::is_excusable;
pub use excusing::{Unexcused, excuse};
pub use front::Front;
pub use laws::lenient_steps;

//! The session: it plays an accepted story, and makes no test for a fault.
#![tactic(auto)]

mod keeping;
mod session;

pub use session::Session;

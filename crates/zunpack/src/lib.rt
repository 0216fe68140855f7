//! Saves of compressed memory, rewritten as plain ones.
#![tactic(auto)]

mod chunk;
mod error;
mod laws;
mod limits;
mod memory;
mod parts;
mod run;
mod unpacking;
mod writing;

pub use error::UnpackError;
pub use laws::memory_is_packed;
pub use unpacking::unpack;

//! The machine that tests everything, over rows of its story that are made when play first comes to them.
#![tactic(auto)]

mod excusing;
mod keeping;
mod machine;
mod scope;

pub use excusing::Excuse;
pub use machine::CheckedMachine;
pub use scope::Scope;

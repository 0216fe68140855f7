//! What a certificate must say of a story, and why a story of which it is true never faults.
#![tactic(auto)]

mod arguments;
mod arrays;
mod blocks;
mod callees;
mod choosing;
mod edges;
mod facts;
mod judging;
mod laws;
mod objects;
mod operands;
mod properties;
mod rule;
mod site;
mod texts;
mod wanted;

pub use blocks::Blocks;
pub use facts::hold_anyway;
pub use judging::{instruction_there, judge, judge_in, rule_at};
pub use laws::{each_step_is_safe, saves_are_accepted};
pub use rule::Rule;
pub use site::globals_there;

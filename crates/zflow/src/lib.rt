//! What may come of an instruction, over sets of words: what it asks for, and what is known on each of its edges.
#![tactic(auto)]

mod arguments;
mod asking;
mod flow;
mod global_sets;
mod known;
mod local_sets;
mod outcomes;
mod parts;
mod slot_sets;
mod view;

pub use arguments::argument_set;
pub use flow::{Edge, Flow, first_known, flow_of};
pub use global_sets::{Globals, global_behind};
pub use known::Known;
pub use parts::{Access, Asked, Buffers, Demands, Elements, Kept, Lead, Outcome, Pairs, Texts};

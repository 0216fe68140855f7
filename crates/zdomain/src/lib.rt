//! Sets of words: what a certificate says of the values of a variable, and what instructions make of them.
#![tactic(auto)]

mod arithmetic;
mod domain;
mod edges;
mod few;
mod gathered;
mod interval;
mod interval_domain;
mod marks;
mod rising;
mod values;
mod values_domain;

pub use domain::Domain;
pub use few::{Few, MOST_FEW, turned};
pub use gathered::Gathered;
pub use interval::Interval;
pub use interval_domain::addresses_are_words;
pub use marks::Marks;
pub use values::{Scattered, Values};

//! The tests of what no clause says. A crate that holds tests is proved once more with them, so they stand here.
#![tactic(auto)]

#[cfg(test)]
mod answers;
#[cfg(test)]
mod facts;
#[cfg(test)]
mod many;
#[cfg(test)]
mod messages;

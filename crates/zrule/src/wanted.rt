//! What is wanted of each routine that a call may enter.

use crate::arguments::Arguments;

/// What is wanted of a routine.
#[derive(Clone, Copy)]
pub enum Wanted<V> {
    /// It begins with these arguments.
    Begin(Arguments<V>),
    /// What it gives lies in a set.
    Give(V),
}

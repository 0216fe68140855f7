//! Why no step is made.

use zstate::Halt;

/// What isn't there that a step wants.
#[derive(Clone, Copy)]
pub enum Lack {
    /// Memory for what it gives out.
    Memory,
    /// Memory for the frame that it begins.
    Room,
    /// Its row, or a row to which it leads, in a table that doesn't have all of them.
    Row,
}

/// Why no step is made.
#[derive(Clone, Copy)]
pub enum Stuck {
    /// What keeps it from being made.
    Halt(Halt),
    /// What it wants.
    Lack(Lack),
}

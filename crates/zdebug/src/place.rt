//! What is answered for an address, and what is kept for that.

use std::marker::Model;

/// Where in the source an instruction stands.
#[derive(Clone, Copy, Debug)]
pub struct Place<'a> {
    /// The path of the file, as it was given to the compiler.
    pub file: &'a [u8],
    /// The line in it, of which Inform counts the first as 1.
    pub line: u32,
    /// The name of the routine.
    pub routine: &'a [u8],
}

/// The place of a sequence point.
#[derive(Clone, Copy)]
pub struct Point {
    /// The number of a file.
    pub file: u32,
    pub line: u32,
}

/// A name. Clauses see it as its bytes.
#[derive(Drop)]
pub struct Name {
    pub bytes: Vec<u8>,
}

impl Model for Name {
    ghost use Rattle.std.specs.Prelude.{ℕ, List};

    ghost Value = { List ℕ };

    ghost view = { λ n. n.bytes.items };
}

impl Name {
    ghost use Rattle.std.specs.Prelude.{◌≡◌};

    /// Its bytes.
    pub fn bytes(&self) -> &[u8]
        ensures { result.now ≡ self.now }
    {
        self.bytes.as_slice()
    }
}

/// A routine of which the address is known.
#[derive(Drop)]
pub struct Routine {
    /// How many bytes it has.
    pub length: u32,
    pub name: Name,
}

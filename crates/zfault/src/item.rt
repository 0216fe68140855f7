//! What a machine gives out: bytes of text and status lines.

ghost use Rattle.std.specs.Prelude.{◌≡◌, ◌≤◌, [], IfOk, IsOk, length, nat_eq};
ghost use Rattle.std.specs.Cmp.{partial_equiv_from_equiv};
ghost use Rattle.std.specs.Cmp.Lexicographic.{nat_list_eq_equiv, pointwise};

use smallvec::SmallVec;
use std::alloc::{AllocError, Global};
use std::marker::Model;

/// The bytes of an object's name. Up to 16 of them take no memory.
#[derive(Debug, Drop)]
pub struct Name {
    bytes: SmallVec<u8, 16>,
}

impl Model for Name {
    ghost use Rattle.std.specs.Prelude.{List, ℕ};

    ghost Value = { List ℕ };

    ghost view = { λ name. name.bytes.items };
}

impl Name {
    /// The empty name.
    pub fn new(alloc: Global) -> Name
        ensures { result ≡ [] }
    {
        Name {
            bytes: SmallVec::new(alloc),
        }
    }

    /// The name of these bytes. Want of memory is the only error, and comes only with more than 16 bytes.
    pub fn from_slice(alloc: Global, bytes: &[u8]) -> Result<Name, AllocError>
        ensures ok { IfOk result (λ name. name ≡ bytes.now) }
        ensures inline { length bytes.now ≤ 16 → IsOk result }
    {
        Ok(Name {
            bytes: SmallVec::from_slice(alloc, bytes)?,
        })
    }

    /// The bytes of the name.
    pub fn as_slice(&self) -> &[u8]
        ensures { result.now ≡ self.now }
    {
        self.bytes.as_slice()
    }
}

impl PartialEq for Name {
    ghost eq = { pointwise nat_eq };

    ghost laws = { partial_equiv_from_equiv nat_list_eq_equiv };

    fn eq(&self, other: &Name) -> bool {
        self.as_slice() == other.as_slice()
    }
}

impl Eq for Name {
    ghost laws = { nat_list_eq_equiv };
}

/// What the status line shows (Z 8.2).
#[derive(Debug, Drop, PartialEq, Eq)]
pub struct Status {
    /// The name of the object in variable 16, empty for object 0 (own).
    pub name: Name,
    /// Variable 17: the score, or the hours.
    pub first: i16,
    /// Variable 18: the number of moves, or the minutes.
    pub second: i16,
    /// Whether the numbers are a time of day, and else score and moves.
    pub time: bool,
}

/// One thing given out, in the order of the transcript. What was given out is kept as [`Items`](crate::Items).
#[derive(Drop)]
pub enum Item {
    /// A byte of text, as it is to be written; 10 ends a line.
    Text(u8),
    /// What the status line is to show from here on.
    Status(Status),
}

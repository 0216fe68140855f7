//! The elements that are open.

ghost use Rattle.std.specs.Prelude.{◌≡◌, [], ◌∷◌, MatchOption};
ghost use Rattle.std.specs.Option.{option_map};
ghost use Rattle.std.specs.List.{slice_get};
ghost use Rattle.zdebug.specs.Steps.{Leads};
ghost use Rattle.zdebug.specs.View.{open_of, path_of};

use crate::element::Element;
use crate::error::DebugError;
use std::alloc::Global;

/// An element that is open: the name that its end has to have, and what it is.
#[derive(Clone, Copy)]
pub struct Open<'a> {
    pub name: &'a [u8],
    pub element: Element,
}

/// All that are open, the innermost last.
#[derive(Drop)]
pub struct Path<'a> {
    pub elements: Vec<Open<'a>>,
}

impl<'a> Path<'a> {
    pub fn new(alloc: Global) -> Path<'a>
        ensures { path_of result.elements.items ≡ [] }
    {
        Path {
            elements: Vec::new(alloc),
        }
    }

    /// An element begins.
    pub fn push(&mut self, name: &'a [u8], element: Element) -> Result<(), DebugError>
        ensures { Leads (path_of self.new.elements.items) result (Ok (record { name = name.now; element = element } ∷ path_of self.old.elements.items)) }
    {
        self.elements.push(Open { name, element })?;
        Ok(())
    }

    /// The innermost element ends.
    pub fn pop(&mut self) -> Option<Open<'a>>
        ensures { MatchOption result (path_of self.old.elements.items ≡ []) (λ top. path_of self.old.elements.items ≡ open_of top ∷ path_of self.new.elements.items) }
    {
        self.elements.pop()
    }

    /// The innermost one.
    pub fn innermost(&self) -> Option<Open<'a>>
        ensures { option_map open_of result ≡ slice_get (path_of self.now.elements.items) 0 }
    {
        self.elements.as_slice().last().copied()
    }
}

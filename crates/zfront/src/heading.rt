//! What the line at the top of a screen says, which one device hears and another one draws.

use crate::side::Title;
use std::cell::Cell;

/// What the line at the top of a screen says, or nothing yet: a name on its left and what stands right, each of up to 255 bytes. What is longer
/// is cut.
#[derive(Drop)]
pub struct Heading {
    title: Cell<Option<Title>>,
}

impl Heading {
    /// It says nothing yet.
    pub fn new() -> Heading {
        Heading {
            title: Cell::new(None),
        }
    }

    /// From now on it says this.
    pub(crate) fn says(&self, title: Title) {
        self.title.set(Some(title));
    }

    /// What it says.
    pub(crate) fn title(&self) -> Option<Title> {
        let title = self.title.take();
        let said = match &title {
            None => None,
            Some(title) => Some(title.copied()),
        };
        self.title.set(title);
        said
    }
}

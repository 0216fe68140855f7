//! Where the cursor of a terminal stands, which several devices write to.

use std::cell::Cell;

/// Whether what was shown and typed ended within a line. It is only known where it is heeded, as where all of that is on one terminal.
#[derive(Drop)]
pub struct Cursor {
    heeded: bool,
    within: Cell<bool>,
}

impl Cursor {
    /// A cursor at the beginning of a line.
    pub fn new(heeded: bool) -> Cursor {
        Cursor {
            heeded,
            within: Cell::new(false),
        }
    }

    /// Whether it stands within a line.
    pub fn is_within(&self) -> bool {
        self.within.get()
    }

    /// It moves behind these bytes.
    pub(crate) fn moves(&self, bytes: &[u8]) {
        if let Some(last) = bytes.last() {
            self.within.set(self.heeded && *last != b'\n');
        }
    }
}

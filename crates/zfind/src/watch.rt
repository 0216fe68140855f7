//! Who is told how far a search is.

/// Who is told how far a search is, since that may take long.
pub trait Watch {
    /// So many instructions more were visited.
    fn visited(&self, count: u32);
}

/// One who is told and does nothing.
#[derive(Clone, Copy, Debug)]
pub struct Unwatched;

impl Watch for Unwatched {
    fn visited(&self, _: u32) {}
}

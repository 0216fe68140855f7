//! Where a text stands in a frame.

/// What the next byte of a text belongs to.
#[derive(Clone, Copy, PartialEq, Eq)]
pub(crate) enum Place {
    /// The text outside frames.
    Outside,
    /// The name of a frame.
    Name,
    /// What stands right in a frame.
    Right,
}

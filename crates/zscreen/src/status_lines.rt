//! How status lines are shown.

/// How status lines are shown among the text (Z 8.2).
#[derive(Clone, Copy, Debug, PartialEq, Eq)]
pub enum StatusLines {
    /// None is shown.
    Hidden,
    /// Each is a line of its own, in brackets.
    Bracketed,
    /// Each stands between bytes that no text has, for what draws it.
    Framed,
}

//! The parts of a certificate's file.

/// What comes next of a certificate's file.
#[derive(Clone, Copy)]
pub enum Stage {
    /// The magic.
    Magic,
    /// The version.
    Version,
    /// The field whose turn it is.
    Field,
}

//! Heads of frames.

/// What a frame keeps beside its words.
#[derive(Clone, Copy)]
pub(crate) struct Head {
    /// Where its words begin, of which the first are its locals.
    pub(crate) base: usize,
    /// Where a return from it goes on.
    pub(crate) return_place: u32,
    /// The number of the variable that takes its result.
    pub(crate) result: u8,
    /// How many arguments the call supplied.
    pub(crate) supplied: u8,
    /// How many locals it has.
    pub(crate) count: u8,
}

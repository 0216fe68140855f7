//! A law of the definitions: the contract of a function that does nothing.

ghost use Rattle.zline.specs.Kept.{LinesStay};

/// A line changes no byte but those of its buffers behind their sizes, and memory keeps its length.
pub fn lines_stay_in_their_buffers()
    ensures { LinesStay }
{}

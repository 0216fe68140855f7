//! The byte of a height, and the mark in it.

ghost use Rattle.std.specs.Prelude.{◌≡◌, ◌<◌};
ghost use Rattle.zcert.specs.Marks as spec;

use crate::limits::MARK;

/// Whether such a byte marks its instruction, where that may be.
pub(crate) fn is_mark(marking: bool, byte: u8) -> bool
    ensures { result ≡ spec.is_mark marking byte }
{
    marking && byte >= MARK
}

/// The height that it says.
pub(crate) fn height_in(marking: bool, byte: u8) -> u8
    ensures { result ≡ spec.height_in marking byte }
{
    if is_mark(marking, byte) {
        byte - MARK
    } else {
        byte
    }
}

/// The byte of a height.
pub(crate) fn height_byte(is_marked: bool, height: u8) -> u8
    requires { height < 128 }
    ensures { result ≡ spec.height_byte is_marked height }
{
    if is_marked { height + MARK } else { height }
}

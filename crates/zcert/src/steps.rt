//! Numbers and serial numbers, each from all of its bytes.

ghost use Rattle.std.specs.Prelude.{◌≡◌, [], Ok, length};
ghost use Rattle.zcert.specs.Steps.{serial_at, sized_at};

use byteorder::{BigEndian, ByteOrder};

// A number of one byte, two and four.
#[tactic(auto, using(crate::specs::FormatLaw::Widths::sized_exact))]
pub(crate) fn byte_of(bytes: &[u8]) -> u8
    requires { length bytes.now ≡ 1 }
    ensures { sized_at 1 bytes.now ≡ Ok (result, []) }
{
    bytes[0]
}

#[tactic(auto, using(crate::specs::FormatLaw::Widths::sized_exact))]
pub(crate) fn word_of(bytes: &[u8]) -> u16
    requires { length bytes.now ≡ 2 }
    ensures { sized_at 2 bytes.now ≡ Ok (result, []) }
{
    BigEndian::read_u16(bytes)
}

#[tactic(auto, using(crate::specs::FormatLaw::Widths::sized_exact))]
pub(crate) fn long_of(bytes: &[u8]) -> u32
    requires { length bytes.now ≡ 4 }
    ensures { sized_at 4 bytes.now ≡ Ok (result, []) }
{
    BigEndian::read_u32(bytes)
}

pub(crate) fn serial_of(bytes: &[u8]) -> [u8; 6]
    requires { length bytes.now ≡ 6 }
    ensures { serial_at bytes.now ≡ Ok (result, []) }
{
    [bytes[0], bytes[1], bytes[2], bytes[3], bytes[4], bytes[5]]
}

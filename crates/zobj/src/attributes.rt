//! Attributes of objects.

ghost use Rattle.std.specs.Prelude.{◌≡◌, ◌<◌, true, false};
ghost use Rattle.zobj.specs.Entries.{HasEntry};
ghost use Rattle.zobj.specs.Attributes.{has_attribute, with_attribute};

use crate::entry::{entry_byte, set_entry_byte};

/// Whether an object has an attribute, 0 to 31 (Z 15 test_attr).
#[inline(always)]
pub fn has_attribute(memory: &[u8], object: u8, attribute: u8) -> bool
    requires entry { HasEntry memory.now object }
    requires attribute { attribute < 32 }
    ensures { result ≡ has_attribute memory.now object attribute }
{
    let byte = entry_byte(memory, object, usize::from(attribute / 8));
    (byte >> (7 - attribute % 8)) & 1 == 1
}

/// Gives an object an attribute, 0 to 31 (Z 15 set_attr).
#[inline(always)]
pub fn set_attribute(memory: &mut [u8], object: u8, attribute: u8)
    requires entry { HasEntry memory.old object }
    requires attribute { attribute < 32 }
    ensures { memory.new ≡ with_attribute true object attribute memory.old }
{
    let k = usize::from(attribute / 8);
    let byte = entry_byte(memory, object, k) | 1 << (7 - attribute % 8);
    set_entry_byte(memory, object, k, byte);
}

/// Takes an attribute, 0 to 31, from an object (Z 15 clear_attr).
#[inline(always)]
pub fn clear_attribute(memory: &mut [u8], object: u8, attribute: u8)
    requires entry { HasEntry memory.old object }
    requires attribute { attribute < 32 }
    ensures { memory.new ≡ with_attribute false object attribute memory.old }
{
    let k = usize::from(attribute / 8);
    let byte = entry_byte(memory, object, k) & !(1 << (7 - attribute % 8));
    set_entry_byte(memory, object, k, byte);
}

//! What properties hold.

ghost use Rattle.std.specs.Prelude.{◌≡◌, ◌≤◌, ◌<◌, Ok, Err, OnOk, IfErr, OnErr};
ghost use Rattle.zobj.specs.Entries.{HasEntry, HasDefaults};
ghost use Rattle.zobj.specs.Values.{default_word, property_value, with_property, length_before};

use crate::entry::{OBJECT_TABLE, word_at};
use crate::error::ObjectError;
use crate::property::{Property, find_property};

/// The default of a property, 1 to 31 (Z 12.2).
pub fn default_word(memory: &[u8], number: u16) -> u16
    requires table { HasDefaults memory.now }
    requires least { 1 ≤ number }
    requires most { number < 32 }
    ensures { result ≡ default_word memory.now number }
{
    word_at(
        memory,
        usize::from(word_at(memory, OBJECT_TABLE)) + 2 * (usize::from(number) - 1),
    )
}

impl Property {
    ghost use Rattle.std.specs.Prelude.{◌≡◌, Ok, Err, OnOk, IfErr, OnErr};
    ghost use Rattle.zobj.specs.Properties.{IsReadable};
    ghost use Rattle.zobj.specs.Values.{value_of, with_value};

    /// The value of its one or two bytes of data.
    ///
    /// # Errors
    ///
    /// `PropertyTooLong` where it has more.
    pub fn value(self, memory: &[u8]) -> Result<u16, ObjectError>
        requires { IsReadable memory.now self }
        ensures { result ≡ value_of memory.now self }
    {
        let place = usize::from(self.place);
        match self.length {
            1 => Ok(u16::from(memory[place])),
            2 => Ok(word_at(memory, place)),
            _ => Err(ObjectError::PropertyTooLong),
        }
    }

    /// Puts a word into its two bytes of data, or the low byte of it into its one.
    ///
    /// # Errors
    ///
    /// `PropertyTooLong` where it has more; nothing is changed then.
    pub fn put(self, memory: &mut [u8], word: u16) -> Result<(), ObjectError>
        requires { IsReadable memory.old self }
        ensures ok { OnOk result (with_value word memory.old self ≡ Ok memory.new) }
        ensures err { IfErr result (λ e. with_value word memory.old self ≡ Err e) }
        ensures kept { OnErr result (memory.new ≡ memory.old) }
    {
        let place = usize::from(self.place);
        let [high, low] = word.to_be_bytes();
        match self.length {
            1 => memory[place] = low,
            2 => {
                memory[place] = high;
                memory[place + 1] = low;
            }
            _ => return Err(ObjectError::PropertyTooLong),
        }
        Ok(())
    }
}

/// The value of an object's property, 1 to 31, or its default where the object has none of that number (Z 15 get_prop).
///
/// # Errors
///
/// `PropertyTooLong` where it has more than two bytes of data.
pub fn property_value(memory: &[u8], object: u8, number: u16) -> Result<u16, ObjectError>
    requires entry { HasEntry memory.now object }
    requires least { 1 ≤ number }
    requires most { number < 32 }
    ensures { result ≡ property_value memory.now object number }
{
    match find_property(memory, object, number) {
        Some(property) => property.value(memory),
        None => Ok(default_word(memory, number)),
    }
}

/// Gives an object's property a word, or the low byte of it where its data is one byte (Z 15 put_prop).
///
/// # Errors
///
/// `AbsentProperty` where the object has none of that number, `PropertyTooLong` where it has more than two bytes of data. Nothing
/// is changed then.
pub fn put_property(
    memory: &mut [u8],
    object: u8,
    number: u16,
    word: u16,
) -> Result<(), ObjectError>
    requires { HasEntry memory.old object }
    ensures ok { OnOk result (with_property object number word memory.old ≡ Ok memory.new) }
    ensures err { IfErr result (λ e. with_property object number word memory.old ≡ Err e) }
    ensures kept { OnErr result (memory.new ≡ memory.old) }
{
    match find_property(memory, object, number) {
        Some(property) => property.put(memory, word),
        None => Err(ObjectError::AbsentProperty),
    }
}

/// How many bytes of data there are at the address of a property's data, by the size byte before it, and none at 0 (Z 15
/// get_prop_len). None where that byte isn't in memory.
pub fn data_length_before(memory: &[u8], address: u16) -> Option<u8>
    ensures { result ≡ length_before memory.now address }
{
    if address == 0 {
        return Some(0);
    }
    let size = memory.get(usize::from(address - 1))?;
    Some(*size / 32 + 1)
}

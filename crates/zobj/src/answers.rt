//! Questions about properties, and their answers.

ghost use Rattle.std.specs.Prelude.{◌≡◌, ◌<◌, Ok, Err, Some, None};
ghost use Rattle.zobj.specs.Answers.{address_of, answer_of};
ghost use Rattle.zobj.specs.Entries.{HasEntry, HasDefaults};

use crate::error::ObjectError;
use crate::property::{Property, find_property, next_number};
use crate::values::property_value;

/// The greatest number that a property may have (Z 12.4.1).
const GREATEST_PROPERTY: u16 = 31;

/// What is asked of an object and a property number.
#[derive(Clone, Copy, PartialEq, Eq)]
pub enum PropertyQuestion {
    /// The value of the property, or its default (Z 15 get_prop).
    Value,
    /// The byte address of its data (Z 15 get_prop_addr).
    Address,
    /// The number of the property behind it (Z 15 get_next_prop).
    Next,
}

/// The answer to a question about a property of an object (Z 12.4). The address of a property that the object doesn't have is 0, and so
/// is the number behind its last.
///
/// # Errors
///
/// `AbsentProperty` where the value is asked of a number that isn't 1 to 31, or what is behind a number, not 0, that the object
/// doesn't have; `PropertyTooLong` where the value of more than two bytes of data is asked.
pub fn answer_of(
    question: PropertyQuestion,
    memory: &[u8],
    object: u8,
    number: u16,
) -> Result<u16, ObjectError>
    requires entry { HasEntry memory.now object }
    requires table { HasDefaults memory.now }
    ensures { result ≡ answer_of question memory.now object number }
{
    match question {
        PropertyQuestion::Value => value_asked(memory, object, number),
        PropertyQuestion::Address => Ok(address_of(find_property(memory, object, number))),
        PropertyQuestion::Next => match next_number(memory, object, number) {
            Some(next) => Ok(u16::from(next)),
            None => Err(ObjectError::AbsentProperty),
        },
    }
}

/// The value of a property, where the number is that of one.
fn value_asked(memory: &[u8], object: u8, number: u16) -> Result<u16, ObjectError>
    requires entry { HasEntry memory.now object }
    requires table { HasDefaults memory.now }
    ensures { result ≡ answer_of PropertyQuestion.Value memory.now object number }
{
    if number == 0 || number > GREATEST_PROPERTY {
        return Err(ObjectError::AbsentProperty);
    }
    property_value(memory, object, number)
}

/// The address of a property's data, 0 where there is none.
fn address_of(property: Option<Property>) -> u16
    ensures { result ≡ address_of property }
{
    match property {
        Some(property) => property.place,
        None => 0,
    }
}

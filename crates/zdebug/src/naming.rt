//! What has a name and a number.

ghost use Rattle.std.specs.Prelude.{◌≡◌};
ghost use Rattle.std.specs.Option.{option_map};
ghost use Rattle.zdebug.specs.Telling.{named_in, variable_in};

use crate::info::DebugInfo;

/// The number of the first variable that is global.
const FIRST_GLOBAL: u8 = 16;

/// What a number is of.
#[derive(Clone, Copy, Debug, PartialEq, Eq)]
pub enum Named {
    /// A global variable, by the number that instructions have for it: 16 to 255.
    Global,
    /// An object or a class.
    Object,
    /// An attribute, from 0 on.
    Attribute,
    /// A property, from 1 on.
    Property,
}

/// The name of what has a number.
pub fn named_in(info: &DebugInfo, named: Named, number: u32) -> Option<&[u8]>
    ensures { option_map (λ name. name.now) result ≡ named_in info.now named number }
{
    match named {
        Named::Global => variable_in(info, number),
        Named::Object => info.object(number),
        Named::Attribute => info.attribute(number),
        Named::Property => info.property(number),
    }
}

/// The name of a variable of the machine.
fn variable_in(info: &DebugInfo, variable: u32) -> Option<&[u8]>
    ensures { option_map (λ name. name.now) result ≡ variable_in info.now variable }
{
    match u8::try_from(variable) {
        Ok(variable) if variable >= FIRST_GLOBAL => info.global(variable - FIRST_GLOBAL),
        _ => None,
    }
}

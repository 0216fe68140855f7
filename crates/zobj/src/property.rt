//! Properties of objects.

ghost use Rattle.std.specs.Prelude.{◌≡◌, ◌+◌, ◌<◌, Some, None, IfSome, IfNone, if◌then◌else◌};
ghost use Rattle.std.specs.List.{find};
ghost use Rattle.zstory.specs.Objects.{property_table};
ghost use Rattle.zobj.specs.Entries.{HasEntry};
ghost use Rattle.zobj.specs.Properties.{IsReadable, list_place, is_property, property_there, properties, properties_from, has_number, property_of, after_number, first_number, next_in};

use crate::entry::property_table;

/// Byte addresses are words, so that nothing is read from here on (Z 1.2.1).
const READABLE_LENGTH: usize = 65_536;

/// A property.
#[derive(Clone, Copy)]
pub struct Property {
    /// Its number, at most 31.
    pub number: u8,
    /// The byte address of its data.
    pub place: u16,
    /// How many bytes of data it has, 1 to 8.
    pub length: u8,
}

/// The property whose size byte stands at a place (Z 12.4.1), wholly in readable memory. None where there is none: the list ends.
pub fn property_at(memory: &[u8], at: usize) -> Option<Property>
    ensures value { result ≡ (if is_property memory.now at then Some (property_there memory.now at) else None) }
    ensures readable { IfSome result (IsReadable memory.now) }
    ensures there { IfSome result (λ property. property.place ≡ at + 1) }
    ensures number { IfSome result (λ property. property.number < 32) }
{
    let readable = memory.len().min(READABLE_LENGTH);
    if at >= readable {
        return None;
    }
    let size = memory[at];
    let length = size / 32 + 1;
    if size == 0 || at + 1 + usize::from(length) > readable {
        return None;
    }
    Some(Property {
        number: size % 32,
        place: (at + 1) as u16,
        length,
    })
}

/// Where the list of an object's properties begins: behind the length of its name in words and the name (Z 12.4).
pub fn list_place(memory: &[u8], object: u8) -> usize
    requires { HasEntry memory.now object }
    ensures { result ≡ list_place memory.now (property_table memory.now object) }
{
    let table = property_table(memory, object);
    match memory.get(table) {
        Some(words) => table + 1 + 2 * usize::from(*words),
        None => table + 1,
    }
}

/// The property of a number in a list from the place of a size byte on.
fn find_from(memory: &[u8], first: usize, number: u16) -> Option<Property>
    ensures value { result ≡ find (has_number number) (properties_from memory.now first) }
    ensures readable { IfSome result (IsReadable memory.now) }
    ensures behind { IfSome result (λ property. after_number number (properties_from memory.now first) ≡ Some (properties_from memory.now (property.place + property.length))) }
    ensures absent { IfNone result (after_number number (properties_from memory.now first) ≡ None) }
{
    let mut at = first;
    while let Some(property) = property_at(memory, at) {
        if property.number as u16 == number {
            return Some(property);
        }
        at = property.place as usize + property.length as usize;
    }
    None
}

/// The number of the property at the place of a size byte, 0 where there is none.
fn number_at(memory: &[u8], at: usize) -> u8
    ensures { result ≡ first_number (properties_from memory.now at) }
{
    match property_at(memory, at) {
        Some(property) => property.number,
        None => 0,
    }
}

/// The property of an object with a number, the first where there are several. None where there is none: the list of properties
/// ends at a zero byte, and before a property that isn't wholly in memory below 65,536.
pub fn find_property(memory: &[u8], object: u8, number: u16) -> Option<Property>
    requires { HasEntry memory.now object }
    ensures value { result ≡ property_of memory.now object number }
    ensures readable { IfSome result (IsReadable memory.now) }
{
    find_from(memory, list_place(memory, object), number)
}

/// The number of the property behind that of a number, 0 behind the last; of the first, behind 0 (Z 15 get_next_prop). None where
/// the object has no property of that number.
pub fn next_number(memory: &[u8], object: u8, number: u16) -> Option<u8>
    requires { HasEntry memory.now object }
    ensures { result ≡ next_in (properties memory.now object) number }
{
    let first = list_place(memory, object);
    if number == 0 {
        return Some(number_at(memory, first));
    }
    let property = find_from(memory, first, number)?;
    Some(number_at(memory, property.place as usize + property.length as usize))
}

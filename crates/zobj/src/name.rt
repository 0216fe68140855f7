//! Short names of objects.

ghost use Rattle.std.specs.Prelude.{◌≡◌};
ghost use Rattle.zobj.specs.Entries.{HasEntry};
ghost use Rattle.zobj.specs.Names.{short_name};

use crate::entry::property_table;

/// The short name of an object.
#[derive(Clone, Copy)]
pub enum ShortName {
    /// Its length is 0: it prints nothing.
    Empty,
    /// The place of its text, which is no byte address where it is 65,536.
    At(usize),
    /// Its length or its text isn't in memory, and it can't be decoded.
    Outside,
}

/// The short name of an object (Z 12.4): whether its length is 0, and where its text begins, which may be anywhere in memory (own).
pub fn short_name(memory: &[u8], object: u8) -> ShortName
    requires { HasEntry memory.now object }
    ensures { result ≡ short_name memory.now object }
{
    let table = property_table(memory, object);
    if table >= memory.len() {
        return ShortName::Outside;
    }
    if memory[table] == 0 {
        return ShortName::Empty;
    }
    if table + 1 < memory.len() {
        ShortName::At(table + 1)
    } else {
        ShortName::Outside
    }
}

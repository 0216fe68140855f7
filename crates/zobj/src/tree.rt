//! The tree of objects.

ghost use Rattle.std.specs.Prelude.{◌≡◌, ◌<◌};
ghost use Rattle.zobj.specs.Entries.{HasEntry};
ghost use Rattle.zobj.specs.Tree.{linked, with_link, link_byte};

use crate::entry::{entry_byte, set_entry_byte};

/// What leads from an object to another.
#[derive(Clone, Copy, PartialEq, Eq)]
pub enum Link {
    /// To the object that it is in.
    Parent,
    /// To the next object under the same parent.
    Sibling,
    /// To the first object under it.
    Child,
}

/// The byte of an entry that has the number that a link leads to (Z 12.3.1).
#[inline(always)]
fn link_byte(link: Link) -> usize
    ensures value { result ≡ link_byte link }
    ensures inside { result < 9 }
{
    match link {
        Link::Parent => 4,
        Link::Sibling => 5,
        Link::Child => 6,
    }
}

/// The number of the object that a link of an object leads to, 0 where it leads to none.
#[inline(always)]
pub fn linked(memory: &[u8], link: Link, object: u8) -> u8
    requires { HasEntry memory.now object }
    ensures { result ≡ linked link memory.now object }
{
    entry_byte(memory, object, link_byte(link))
}

/// Leads a link of an object to the object of a number, or to none by 0.
#[inline(always)]
pub fn set_link(memory: &mut [u8], link: Link, object: u8, to: u8)
    requires { HasEntry memory.old object }
    ensures { memory.new ≡ with_link link object to memory.old }
{
    set_entry_byte(memory, object, link_byte(link), to);
}

//! Objects taken out of the tree, and put under others.

ghost use Rattle.std.specs.Prelude.{◌≡◌, ◌≤◌, Ok, Err, OnOk, IfOk, IfSome, IfErr, OnErr};
ghost use Rattle.zobj.specs.Entries.{HasTable, HasEntry};
ghost use Rattle.zobj.specs.Moves.{lead_of, unlinked, inserted, elder, ends_search, row, alone, led_past, first_under, IsLead};
ghost use Rattle.std.specs.List.{find};

use crate::error::ObjectError;
use crate::tree::{Link, linked, set_link};

/// The one link that leads to an object from those under the same parent: the child of its parent, or the sibling of one
/// of them.
#[derive(Clone, Copy)]
pub struct Lead {
    /// Child or sibling.
    pub link: Link,
    /// Whose link it is.
    pub object: u8,
}

/// What leads to an object: a link of its parent or of the sibling before it, which is sought among at most as many siblings
/// as there are objects. None where it has no parent, and where its parent's row of children doesn't lead to it.
///
/// # Errors
///
/// `AbsentObject` where the number of its parent, or a number met in the row, is above that of the objects.
pub fn lead_of(memory: &[u8], objects: u8, object: u8) -> Result<Option<Lead>, ObjectError>
    requires table { HasTable memory.now objects }
    requires least { 1 ≤ object }
    requires most { object ≤ objects }
    ensures value { result ≡ lead_of objects memory.now object }
    ensures within { IfOk result (λ lead. IfSome lead (IsLead objects)) }
{
    let parent = linked(memory, Link::Parent, object);
    if parent == 0 {
        return Ok(None);
    }
    if parent > objects {
        return Err(ObjectError::AbsentObject);
    }
    let child = linked(memory, Link::Child, parent);
    if child == object {
        return Ok(Some(Lead {
            link: Link::Child,
            object: parent,
        }));
    }
    elder(memory, objects, object, child)
}

/// The sibling before an object in a row that begins with a number.
fn elder(memory: &[u8], objects: u8, object: u8, first: u8) -> Result<Option<Lead>, ObjectError>
    requires { HasTable memory.now objects }
    ensures value { result ≡ elder objects (find (ends_search objects memory.now object) (row objects memory.now first)) }
    ensures within { IfOk result (λ lead. IfSome lead (IsLead objects)) }
{
    let mut number = first;
    for _ in 0..objects {
        if number == 0 {
            return Ok(None);
        }
        if number > objects {
            return Err(ObjectError::AbsentObject);
        }
        let next = linked(memory, Link::Sibling, number);
        if next == object {
            return Ok(Some(Lead {
                link: Link::Sibling,
                object: number,
            }));
        }
        number = next;
    }
    Ok(None)
}

/// Takes an object out of the tree, by the link that [`lead_of`] found to lead to it: the first half of a move, which can't fail.
#[tactic(auto, using(crate::proofs::Tables::all_kept))]
pub fn lead_past(memory: &mut [u8], objects: u8, object: u8, lead: Option<Lead>)
    requires table { HasTable memory.old objects }
    requires least { 1 ≤ object }
    requires most { object ≤ objects }
    requires lead { IfSome lead (IsLead objects) }
    ensures value { memory.new ≡ alone object (led_past object lead memory.old) }
    ensures table { HasTable memory.new objects }
{
    if let Some(lead) = lead {
        let sibling = linked(memory, Link::Sibling, object);
        set_link(memory, lead.link, lead.object, sibling);
    }
    set_link(memory, Link::Parent, object, 0);
    set_link(memory, Link::Sibling, object, 0);
}

/// Takes an object out of the tree (Z 15 remove_obj): what leads to it leads to its sibling, and it has no parent and no
/// sibling. Its children stay under it.
///
/// # Errors
///
/// As of [`lead_of`]; nothing is changed then.
pub fn unlink(memory: &mut [u8], objects: u8, object: u8) -> Result<(), ObjectError>
    requires table { HasTable memory.old objects }
    requires least { 1 ≤ object }
    requires most { object ≤ objects }
    ensures ok { OnOk result (unlinked objects object memory.old ≡ Ok memory.new) }
    ensures err { IfErr result (λ e. unlinked objects object memory.old ≡ Err e) }
    ensures kept { OnErr result (memory.new ≡ memory.old) }
    ensures table { HasTable memory.new objects }
{
    let lead = lead_of(memory, objects, object)?;
    lead_past(memory, objects, object, lead);
    Ok(())
}

/// Takes an object out of its place in the tree and puts it, with its children, under another as that one's first child (Z 15
/// insert_obj).
///
/// # Errors
///
/// As of [`lead_of`]; nothing is changed then.
pub fn insert(memory: &mut [u8], objects: u8, object: u8, under: u8) -> Result<(), ObjectError>
    requires table { HasTable memory.old objects }
    requires least { 1 ≤ object }
    requires most { object ≤ objects }
    requires first { 1 ≤ under }
    requires last { under ≤ objects }
    ensures ok { OnOk result (inserted objects object under memory.old ≡ Ok memory.new) }
    ensures err { IfErr result (λ e. inserted objects object under memory.old ≡ Err e) }
    ensures kept { OnErr result (memory.new ≡ memory.old) }
{
    unlink(memory, objects, object)?;
    put_first(memory, object, under);
    Ok(())
}

/// Makes an object, which is out of the tree, the first child of another: the second half of [`insert`], which can't fail.
#[tactic(auto, using(crate::proofs::Tables::entry_kept))]
pub fn put_first(memory: &mut [u8], object: u8, under: u8)
    requires object { HasEntry memory.old object }
    requires under { HasEntry memory.old under }
    ensures { memory.new ≡ first_under object under memory.old }
{
    let first = linked(memory, Link::Child, under);
    set_link(memory, Link::Sibling, object, first);
    set_link(memory, Link::Child, under, object);
    set_link(memory, Link::Parent, object, under);
}

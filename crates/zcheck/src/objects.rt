//! What rules on a story ask of its objects.

ghost use Rattle.std.specs.Prelude.{◌↔◌, ◌≤◌, IsTrue};
ghost use Rattle.zobj.specs.declared.tree.Link.{Link as ALink};
ghost use Rattle.zobj.specs.Tree.{IsTree, linked};

use zobj::{Link, linked};
use zstory::Story;

/// Whether each link of an object leads to an object, or to none.
pub(crate) fn has_tree(story: &Story) -> bool
    ensures { IsTrue result ↔ IsTree story.now.memory story.now.objects }
{
    for below in 0..story.objects() {
        if !has_links(story, below + 1) {
            return false;
        }
    }
    true
}

/// Whether each link of one object does.
#[tactic(auto, using(crate::proofs::Trees::entry_of))]
fn has_links(story: &Story, object: u8) -> bool
    requires least { 1 ≤ object }
    requires most { object ≤ story.now.objects }
    ensures { IsTrue result ↔ ((link : ALink) → linked link story.now.memory object ≤ story.now.objects) }
{
    let memory = story.memory();
    let objects = story.objects();
    linked(memory, Link::Parent, object) <= objects
        && linked(memory, Link::Sibling, object) <= objects
        && linked(memory, Link::Child, object) <= objects
}

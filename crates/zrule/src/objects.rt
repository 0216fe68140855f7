//! What rules ask of the numbers of objects and attributes.

ghost use Rattle.std.specs.Prelude.{◌↔◌, ◌<◌, ℕ, IfSome, IsTrue};
ghost use Rattle.zdomain.specs.Domain.{In};
ghost use Rattle.zrule.specs.Rules.{AreObjects};

use zcert::Spelled;
use zdomain::Domain;
use zflow::Demands;
use zstory::Story;

/// How many attributes an object has (Z 12.3.1).
const ATTRIBUTES: u16 = 32;

/// Whether each value that is taken for an object's number is that of one of the story's objects.
pub(crate) fn names_object<V: Spelled>(story: &Story, demands: &Demands<V>) -> bool
    ensures { IsTrue result ↔ IfSome demands.now.object (AreObjects V.operations story.now) × IfSome demands.now.under (AreObjects V.operations story.now) }
{
    are_objects_if(story, demands.object) && are_objects_if(story, demands.under)
}

/// Whether each value of a set is the number of one of the story's objects, where there is a set.
fn are_objects_if<V: Spelled>(story: &Story, values: Option<V>) -> bool
    ensures { IsTrue result ↔ IfSome values (AreObjects V.operations story.now) }
{
    match values {
        Some(set) => are_objects(story, set),
        None => true,
    }
}

/// Whether each value of a set is the number of one of the story's objects.
fn are_objects<V: Spelled>(story: &Story, set: V) -> bool
    ensures { IsTrue result ↔ AreObjects V.operations story.now set }
{
    !set.contains(0) && are_below(set, u16::from(story.objects()) + 1)
}

/// Whether each value that is taken for an attribute's number is 0 to 31.
pub(crate) fn names_attribute<V: Spelled>(demands: &Demands<V>) -> bool
    ensures { IsTrue result ↔ IfSome demands.now.attribute (λ a. (x : ℕ) → In V.operations a x → x < 32) }
{
    match demands.attribute {
        Some(set) => are_below(set, ATTRIBUTES),
        None => true,
    }
}

/// Whether each word of a set is below a word.
pub(crate) fn are_below<V: Spelled>(set: V, bound: u16) -> bool
    ensures { IsTrue result ↔ ((x : ℕ) → In V.operations set x → x < bound) }
{
    set.least_from(bound).is_none()
}

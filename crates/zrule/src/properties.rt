//! What rules ask of properties of objects.

ghost use Rattle.std.specs.Prelude.{◌≡◌, ◌↔◌, ℕ, false, IfSome, IsTrue, MatchOption, is_some};
ghost use Rattle.std.specs.Bool.{OnTrue};
ghost use Rattle.zdomain.specs.Domain.{In};
ghost use Rattle.zobj.specs.Values.{length_before};
ghost use Rattle.zpairs.specs.Frozen.{frozen_by};
ghost use Rattle.zrule.specs.Rules.{AreObjects, FillsOpen, Finds, gives_by_property};

use crate::objects::names_object;
use zcert::Spelled;
use zdomain::Domain;
use zflow::{Asked, Demands, Pairs};
use zobj::PropertyQuestion;
use zpairs::Properties;
use zstory::Story;

/// Byte addresses are words, so that nothing is read from here on (Z 1.2.1).
const READABLE_LENGTH: usize = 65_536;

/// Whether each property that is asked for has an answer, and each that is given a word can be.
pub(crate) fn finds_property<V: Spelled>(properties: &Properties<'_>, demands: &Demands<V>) -> bool
    ensures { IsTrue result ↔ IfSome demands.now.property (λ p. Finds V.operations properties.now.story p.asked p.objects p.numbers) }
{
    match demands.property {
        Some(pairs) => finds(properties, pairs),
        None => true,
    }
}

/// Whether whatever object and number come together have what is asked of them.
fn finds<V: Spelled>(properties: &Properties<'_>, pairs: Pairs<V>) -> bool
    ensures { IsTrue result ↔ Finds V.operations properties.now.story pairs.asked pairs.objects pairs.numbers }
{
    match pairs.asked {
        Asked::Answered(question) => {
            properties.are_answered(question, pairs.objects, pairs.numbers)
        }
        Asked::Filled => properties.can_be_put(pairs.objects, pairs.numbers),
    }
}

/// Whether all data of properties that are given a word are open.
pub(crate) fn puts_open<V: Spelled>(properties: &Properties<'_>, demands: &Demands<V>) -> bool
    ensures { IsTrue result ↔ IfSome demands.now.property (λ p. FillsOpen V.operations properties.now.story (frozen_by properties.now.ranges) p.asked p.objects p.numbers) }
{
    match demands.property {
        Some(pairs) => fills_open(properties, pairs),
        None => true,
    }
}

/// Whether a property that any object and number make is left alone, or its data are open.
fn fills_open<V: Spelled>(properties: &Properties<'_>, pairs: Pairs<V>) -> bool
    ensures { IsTrue result ↔ FillsOpen V.operations properties.now.story (frozen_by properties.now.ranges) pairs.asked pairs.objects pairs.numbers }
{
    match pairs.asked {
        Asked::Answered(_) => true,
        Asked::Filled => properties.have_open_data(pairs.objects, pairs.numbers),
    }
}

/// Whether the size byte before each address of property data can be read.
pub(crate) fn reads_length<V: Spelled>(story: &Story, demands: &Demands<V>) -> bool
    ensures { IsTrue result ↔ IfSome demands.now.address (λ a. (x : ℕ) → In V.operations a x → IsTrue (is_some (length_before story.now.memory x))) }
{
    match demands.address {
        Some(set) => lie_behind_bytes(story, set),
        None => true,
    }
}

/// Whether each word of a set is 0, or the address behind a byte that can be read.
fn lie_behind_bytes<V: Spelled>(story: &Story, set: V) -> bool
    ensures { IsTrue result ↔ ((x : ℕ) → In V.operations set x → IsTrue (is_some (length_before story.now.memory x))) }
{
    let end = story.length();
    if end >= READABLE_LENGTH - 1 {
        return true;
    }
    set.least_from(end as u16 + 1).is_none()
}

/// Whether it is known what an instruction gives by a property: it is asked of objects, and has an answer.
pub(crate) fn knows_answers<V: Spelled>(properties: &Properties<'_>, demands: &Demands<V>) -> bool
    ensures { IsTrue result ↔ IfSome demands.now.property (λ p. OnTrue (gives_by_property p.asked) ((IfSome demands.now.object (AreObjects V.operations properties.now.story) × IfSome demands.now.under (AreObjects V.operations properties.now.story)) × IfSome demands.now.property (λ q. Finds V.operations properties.now.story q.asked q.objects q.numbers))) }
{
    !gives_property(demands)
        || (names_object(properties.story(), demands) && finds_property(properties, demands))
}

/// Whether what is given is what is found of a property, if one is asked for.
pub(crate) fn gives_property<V: Spelled>(demands: &Demands<V>) -> bool
    ensures { MatchOption demands.now.property (result ≡ false) (λ p. result ≡ gives_by_property p.asked) }
{
    match demands.property {
        Some(pairs) => gives_by_property(pairs.asked),
        None => false,
    }
}

/// Whether what is given is what is found of a property.
fn gives_by_property(asked: Asked) -> bool
    ensures { result ≡ gives_by_property asked }
{
    match asked {
        Asked::Answered(PropertyQuestion::Value | PropertyQuestion::Address) => true,
        Asked::Answered(PropertyQuestion::Next) | Asked::Filled => false,
    }
}

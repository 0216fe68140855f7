//! What is made of words and of memory, or asked of objects, each test first: that of an object's number only where it is wanted.

ghost use Rattle.std.specs.Prelude.{◌≡◌, ◌<◌, ◌≤◌, ◌==◌, ◌&&◌, false, nat_le, nat_lt, true, IsTrue, Ok, IfOk, IfErr, if◌then◌else◌, List, ℕ};
ghost use Rattle.zarray.specs.Arrays.{element_at, place_of};
ghost use Rattle.zobj.specs.Answers.{answer_of};
ghost use Rattle.zobj.specs.Attributes.{has_attribute};
ghost use Rattle.zobj.specs.Entries.{HasEntry, HasTable};
ghost use Rattle.zobj.specs.Tree.{linked, parent};
ghost use Rattle.zobj.specs.Values.{length_before};
ghost use Rattle.zword.specs.Binary.{apply, is_defined};
ghost use Rattle.zfault.specs.declared.fault.Fault.TheVariants.{AbsentAttribute, AbsentObject, ZeroDivisor};
ghost use Rattle.zstory.specs.LoadedStory.{LoadedStory};
ghost use Rattle.zstate.specs.State.{State, Setting, fault};
ghost use Rattle.zstate.specs.Step.{answering, effect_of, fault_of, giving, of_attribute, of_object, reading, testing, is_object, following};
ghost use Rattle.zengine.specs.Doing.{HasObject, IsAmong, asked, followed, given, made_by, operation_made, words_made};

use crate::doing::Making;
use crate::guard::passes;
use zarray::Width;
use zfault::Fault;
use zobj::{
    Link, ObjectError, PropertyQuestion, answer_of, data_length_before, has_attribute, linked,
    objects_have_entries,
};
use zword::BinaryOp;

/// How many attributes an object has (Z 12.3.1).
const ATTRIBUTES: u16 = 32;

/// The word that is made of two, or of the first.
#[inline(never)]
#[tactic(auto, unfolding(zstate::specs::Step::effect_of))]
pub(crate) fn made<const TESTED: bool>(
    making: Making,
    memory: &[u8],
    objects: u8,
    a: u16,
    b: u16,
) -> Result<u16, Fault>
    requires table { HasTable memory.now objects }
    requires able { TESTED ≡ false → HasObject making objects a }
    ensures { (m : Setting) (t : State) → m.story.objects ≡ objects → t.memory ≡ memory.now → made_by making result ≡ effect_of m (operation_made making) (words_made making a b) t }
{
    match making {
        Making::Unary(op) => Ok(op.apply(a)),
        Making::Binary(op) => binary(op, a, b),
        Making::LoadArray(width) => element(width, memory, a, b),
        Making::Property(question) => property::<TESTED>(question, memory, objects, a, b),
        Making::PropertyLength => property_length(memory, a),
        Making::Follow(link) => follow::<TESTED>(link, memory, objects, a),
    }
}

/// An operation on two words, which divides nothing by 0.
fn binary(op: BinaryOp, first: u16, second: u16) -> Result<u16, Fault>
    ensures { given result ≡ (if is_defined op second then Ok (giving (apply op first second)) else fault ZeroDivisor) }
{
    if !op.is_defined(second) {
        return Err(Fault::ZeroDivisor);
    }
    Ok(op.apply(first, second))
}

/// The element of an array at an index.
fn element(width: Width, memory: &[u8], array: u16, index: u16) -> Result<u16, Fault>
    ensures { given result ≡ reading (element_at width memory.now (place_of width array index)) }
{
    match width.element(memory, width.place(array, index)) {
        Some(word) => Ok(word),
        None => Err(Fault::ReadOutside),
    }
}

/// The answer to a question about a property of the object of a number.
fn property<const TESTED: bool>(
    question: PropertyQuestion,
    memory: &[u8],
    objects: u8,
    number: u16,
    property: u16,
) -> Result<u16, Fault>
    requires table { HasTable memory.now objects }
    requires able { TESTED ≡ false → IsAmong objects number }
    ensures { (story : LoadedStory) → story.objects ≡ objects → given result ≡ of_object story number (answering (answer_of question memory.now number property)) }
{
    objects_have_entries();
    let object = object_of::<TESTED>(number, objects)?;
    match answer_of(question, memory, object, property) {
        Ok(answer) => Ok(answer),
        Err(error) => Err(fault_of(error)),
    }
}

/// How many bytes of property data there are at an address.
fn property_length(memory: &[u8], address: u16) -> Result<u16, Fault>
    ensures { given result ≡ reading (length_before memory.now address) }
{
    match data_length_before(memory, address) {
        Some(length) => Ok(u16::from(length)),
        None => Err(Fault::ReadOutside),
    }
}

/// The number that a link of the object of a number leads to.
#[inline(never)]
pub(crate) fn follow<const TESTED: bool>(
    link: Link,
    memory: &[u8],
    objects: u8,
    number: u16,
) -> Result<u16, Fault>
    requires table { HasTable memory.now objects }
    requires able { TESTED ≡ false → IsAmong objects number }
    ensures { (story : LoadedStory) → story.objects ≡ objects → followed result ≡ of_object story number (Ok (following (linked link memory.now number))) }
{
    let object = object_of::<TESTED>(number, objects)?;
    Ok(u16::from(linked(memory, link, object)))
}

/// Whether the object of a number is in that of another, or in none by 0.
#[inline(never)]
pub(crate) fn inside<const TESTED: bool>(
    memory: &[u8],
    objects: u8,
    number: u16,
    other: u16,
) -> Result<bool, Fault>
    requires table { HasTable memory.now objects }
    requires able { TESTED ≡ false → IsAmong objects number }
    ensures { (story : LoadedStory) → story.objects ≡ objects → asked result ≡ of_object story number (Ok (testing (parent memory.now number == other))) }
{
    let object = object_of::<TESTED>(number, objects)?;
    let parent = linked(memory, Link::Parent, object);
    Ok(u16::from(parent) == other)
}

/// Whether the object of a number has the attribute of another.
#[inline(never)]
pub(crate) fn attribute<const TESTED: bool>(
    memory: &[u8],
    objects: u8,
    number: u16,
    attribute: u16,
) -> Result<bool, Fault>
    requires table { HasTable memory.now objects }
    requires able { TESTED ≡ false → IsAmong objects number × (attribute < 32) }
    ensures { (story : LoadedStory) → story.objects ≡ objects → asked result ≡ of_object story number (of_attribute attribute (Ok (testing (has_attribute memory.now number attribute)))) }
{
    let object = object_of::<TESTED>(number, objects)?;
    let attribute = attribute_of::<TESTED>(attribute)?;
    Ok(has_attribute(memory, object, attribute))
}

/// What keeps a call on objects from being made.
pub(crate) fn fault_of(error: ObjectError) -> Fault
    ensures { result ≡ fault_of error }
{
    match error {
        ObjectError::AbsentObject => Fault::AbsentObject,
        ObjectError::AbsentProperty => Fault::AbsentProperty,
        ObjectError::PropertyTooLong => Fault::PropertyTooLong,
    }
}

/// The object of a number, where it is that of one of so many.
#[inline(always)]
pub(crate) fn object_of<const TESTED: bool>(number: u16, objects: u8) -> Result<u8, Fault>
    requires able { TESTED ≡ false → IsAmong objects number }
    ensures same { IfOk result (λ object. object ≡ number) }
    ensures among { IfOk result (λ object. IsAmong objects object) }
    ensures there { (story : LoadedStory) → story.objects ≡ objects → IfOk result (λ _. is_object story number ≡ true) }
    ensures entry { (memory : List ℕ) → HasTable memory objects → IfOk result (HasEntry memory) }
    ensures absent { (story : LoadedStory) → story.objects ≡ objects → IfErr result (λ f. (f ≡ AbsentObject) × (is_object story number ≡ false)) }
{
    if !passes::<TESTED>(is_among(number, objects)) {
        return Err(Fault::AbsentObject);
    }
    Ok(number as u8)
}

/// The attribute of a number, where it is that of one.
#[inline(always)]
pub(crate) fn attribute_of<const TESTED: bool>(number: u16) -> Result<u8, Fault>
    requires able { TESTED ≡ false → number < 32 }
    ensures same { IfOk result (λ attribute. attribute ≡ number) }
    ensures there { IfOk result (λ attribute. attribute < 32) }
    ensures absent { IfErr result (λ f. (f ≡ AbsentAttribute) × (nat_lt number 32 ≡ false)) }
{
    if !passes::<TESTED>(number < ATTRIBUTES) {
        return Err(Fault::AbsentAttribute);
    }
    Ok(number as u8)
}

/// Whether a number is that of one of so many objects.
#[inline(always)]
fn is_among(number: u16, objects: u8) -> bool
    ensures within { IsTrue result → IsAmong objects number }
    ensures value { result ≡ (nat_le 1 number && nat_le number objects) }
{
    0 < number && number <= u16::from(objects)
}

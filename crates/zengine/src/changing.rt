//! Changes of what objects keep. Where one isn't made nothing is changed.

ghost use Rattle.std.specs.Prelude.{◌≡◌, ◌<◌, ◌≤◌, ◌+◌, false, true, length, List, ℕ, Ok, IfErr, IfOk, OnErr};
ghost use Rattle.zobj.specs.Attributes.{with_attribute};
ghost use Rattle.zobj.specs.Entries.{HasEntry, HasTable};
ghost use Rattle.zobj.specs.Moves.{inserted, unlinked};
ghost use Rattle.zobj.specs.Properties.{IsReadable, property_of};
ghost use Rattle.zobj.specs.Values.{with_property, with_value};
ghost use Rattle.zstory.specs.LoadedStory.{LoadedStory, static_base};
ghost use Rattle.zstate.specs.State.{State, Setting, fault};
ghost use Rattle.zstate.specs.Step.{effect_of, filling, is_data_writable, of_attribute, of_object, rearranging, rewriting};
ghost use Rattle.zengine.specs.Doing.{CanChange, IsAmong, MayChange, changed_by, operation_changed, read_changed};

use crate::doing::Changing;
use crate::guard::passes;
use crate::objects::{attribute_of, object_of};
use crate::writing::are_writable;
use zfault::Fault;
use zobj::{
    Property, clear_attribute, find_property, lead_of, objects_have_entries, set_attribute,
};

/// Makes a change, where dynamic memory ends at `fixed`.
#[inline(never)]
#[tactic(auto, unfolding(zstate::specs::Step::effect_of))]
pub(crate) fn change<const TESTED: bool>(
    changing: Changing,
    memory: &mut [u8],
    objects: u8,
    fixed: usize,
    a: u16,
    b: u16,
    c: u16,
) -> Result<(), Fault>
    requires table { HasTable memory.old objects }
    requires header { 64 ≤ fixed }
    requires within { fixed ≤ length memory.old }
    requires able { TESTED ≡ false → CanChange changing objects a b }
    ensures value { (m : Setting) (t : State) → m.story.objects ≡ objects → fixed ≡ static_base m.story → t.memory ≡ memory.old → changed_by result memory.new ≡ effect_of m (operation_changed changing) (read_changed changing a b c) t }
    ensures kept { OnErr result (memory.new ≡ memory.old) }
    ensures size { length memory.new ≡ length memory.old }
{
    match changing {
        Changing::Mark(sets) => mark::<TESTED>(memory, objects, sets, a, b),
        Changing::Insert => insert::<TESTED>(memory, objects, a, b),
        Changing::Remove => remove::<TESTED>(memory, objects, a),
        Changing::SetProperty => set_property::<TESTED>(memory, objects, fixed, a, b, c),
    }
}

/// Sets or clears an attribute of an object.
fn mark<const TESTED: bool>(
    memory: &mut [u8],
    objects: u8,
    sets: bool,
    number: u16,
    attribute: u16,
) -> Result<(), Fault>
    requires table { HasTable memory.old objects }
    requires able { TESTED ≡ false → IsAmong objects number × (attribute < 32) }
    ensures value { (story : LoadedStory) → story.objects ≡ objects → changed_by result memory.new ≡ of_object story number (of_attribute attribute (Ok (rewriting (with_attribute sets number attribute memory.old)))) }
    ensures kept { OnErr result (memory.new ≡ memory.old) }
    ensures size { length memory.new ≡ length memory.old }
{
    let object = object_of::<TESTED>(number, objects)?;
    let attribute = attribute_of::<TESTED>(attribute)?;
    if sets {
        set_attribute(memory, object, attribute);
    } else {
        clear_attribute(memory, object, attribute);
    }
    Ok(())
}

/// Puts an object under another.
fn insert<const TESTED: bool>(
    memory: &mut [u8],
    objects: u8,
    number: u16,
    other: u16,
) -> Result<(), Fault>
    requires table { HasTable memory.old objects }
    requires able { TESTED ≡ false → IsAmong objects number × IsAmong objects other }
    ensures value { (story : LoadedStory) → story.objects ≡ objects → changed_by result memory.new ≡ of_object story number (of_object story other (rearranging (inserted objects number other memory.old))) }
    ensures kept { OnErr result (memory.new ≡ memory.old) }
    ensures size { length memory.new ≡ length memory.old }
{
    let object = object_of::<TESTED>(number, objects)?;
    let under = object_of::<TESTED>(other, objects)?;
    match zobj::insert(memory, objects, object, under) {
        Ok(()) => Ok(()),
        Err(_) => Err(Fault::AbsentObject),
    }
}

/// Takes an object out of the tree.
fn remove<const TESTED: bool>(memory: &mut [u8], objects: u8, number: u16) -> Result<(), Fault>
    requires table { HasTable memory.old objects }
    requires able { TESTED ≡ false → IsAmong objects number }
    ensures value { (story : LoadedStory) → story.objects ≡ objects → changed_by result memory.new ≡ of_object story number (rearranging (unlinked objects number memory.old)) }
    ensures kept { OnErr result (memory.new ≡ memory.old) }
    ensures size { length memory.new ≡ length memory.old }
{
    let object = object_of::<TESTED>(number, objects)?;
    match zobj::unlink(memory, objects, object) {
        Ok(()) => Ok(()),
        Err(_) => Err(Fault::AbsentObject),
    }
}

/// Gives a property of an object a word, where its data may be written.
fn set_property<const TESTED: bool>(
    memory: &mut [u8],
    objects: u8,
    fixed: usize,
    number: u16,
    property: u16,
    word: u16,
) -> Result<(), Fault>
    requires table { HasTable memory.old objects }
    requires header { 64 ≤ fixed }
    requires within { fixed ≤ length memory.old }
    requires able { TESTED ≡ false → IsAmong objects number }
    ensures value { (story : LoadedStory) → story.objects ≡ objects → fixed ≡ static_base story → changed_by result memory.new ≡ of_object story number (filling (with_property number property word memory.old) (is_data_writable story (property_of memory.old number property))) }
    ensures kept { OnErr result (memory.new ≡ memory.old) }
    ensures size { length memory.new ≡ length memory.old }
{
    let property = property_to_set::<TESTED>(memory, objects, fixed, number, property)?;
    match property.put(memory, word) {
        Ok(()) => Ok(()),
        Err(_) => Err(Fault::PropertyTooLong),
    }
}

/// The property of an object that may be given a word.
fn property_to_set<const TESTED: bool>(
    memory: &[u8],
    objects: u8,
    fixed: usize,
    number: u16,
    property: u16,
) -> Result<Property, Fault>
    requires table { HasTable memory.now objects }
    requires header { 64 ≤ fixed }
    requires within { fixed ≤ length memory.now }
    requires able { TESTED ≡ false → IsAmong objects number }
    ensures ok { (story : LoadedStory) (word : ℕ) → story.objects ≡ objects → fixed ≡ static_base story → IfOk result (λ p. of_object story number (filling (with_property number property word memory.now) (is_data_writable story (property_of memory.now number property))) ≡ filling (with_value word memory.now p) true) }
    ensures err { (story : LoadedStory) (word : ℕ) → story.objects ≡ objects → fixed ≡ static_base story → IfErr result (λ f. of_object story number (filling (with_property number property word memory.now) (is_data_writable story (property_of memory.now number property))) ≡ fault f) }
    ensures short { IfOk result (λ p. p.length ≤ 2) }
    ensures readable { IfOk result (IsReadable memory.now) }
{
    objects_have_entries();
    let object = object_of::<TESTED>(number, objects)?;
    let Some(property) = find_property(memory, object, property) else {
        return Err(Fault::AbsentProperty);
    };
    if property.length > 2 {
        return Err(Fault::PropertyTooLong);
    }
    let place = usize::from(property.place);
    if !are_writable(place, u16::from(property.length), fixed) {
        return Err(Fault::WriteOutside);
    }
    Ok(property)
}

/// Whether a change can be made, where none is.
#[tactic(auto, unfolding(zstate::specs::Step::effect_of))]
pub(crate) fn may_change(
    changing: Changing,
    memory: &[u8],
    objects: u8,
    fixed: usize,
    a: u16,
    b: u16,
) -> Result<(), Fault>
    requires table { HasTable memory.now objects }
    requires header { 64 ≤ fixed }
    requires within { fixed ≤ length memory.now }
    ensures { (m : Setting) (t : State) (c : ℕ) → m.story.objects ≡ objects → fixed ≡ static_base m.story → t.memory ≡ memory.now → MayChange result (effect_of m (operation_changed changing) (read_changed changing a b c) t) }
{
    match changing {
        Changing::Mark(_) => may_mark(objects, a, b),
        Changing::Insert => may_insert(memory, objects, a, b),
        Changing::Remove => may_remove(memory, objects, a),
        Changing::SetProperty => may_set(memory, objects, fixed, a, b),
    }
}

/// Whether an object may get an attribute, or lose it.
fn may_mark(objects: u8, number: u16, attribute: u16) -> Result<(), Fault>
    ensures { (story : LoadedStory) (memory : List ℕ) → story.objects ≡ objects → MayChange result (of_object story number (of_attribute attribute (Ok (rewriting memory)))) }
{
    object_of::<true>(number, objects)?;
    attribute_of::<true>(attribute)?;
    Ok(())
}

/// Whether an object may be put under another.
fn may_insert(memory: &[u8], objects: u8, number: u16, other: u16) -> Result<(), Fault>
    requires { HasTable memory.now objects }
    ensures { (story : LoadedStory) → story.objects ≡ objects → MayChange result (of_object story number (of_object story other (rearranging (inserted objects number other memory.now)))) }
{
    let object = object_of::<true>(number, objects)?;
    object_of::<true>(other, objects)?;
    match lead_of(memory, objects, object) {
        Ok(_) => Ok(()),
        Err(_) => Err(Fault::AbsentObject),
    }
}

/// Whether an object may be taken out of the tree.
fn may_remove(memory: &[u8], objects: u8, number: u16) -> Result<(), Fault>
    requires { HasTable memory.now objects }
    ensures { (story : LoadedStory) → story.objects ≡ objects → MayChange result (of_object story number (rearranging (unlinked objects number memory.now))) }
{
    let object = object_of::<true>(number, objects)?;
    match lead_of(memory, objects, object) {
        Ok(_) => Ok(()),
        Err(_) => Err(Fault::AbsentObject),
    }
}

/// Whether a property of an object may be given a word.
fn may_set(
    memory: &[u8],
    objects: u8,
    fixed: usize,
    number: u16,
    property: u16,
) -> Result<(), Fault>
    requires table { HasTable memory.now objects }
    requires header { 64 ≤ fixed }
    requires within { fixed ≤ length memory.now }
    ensures { (story : LoadedStory) (word : ℕ) → story.objects ≡ objects → fixed ≡ static_base story → MayChange result (of_object story number (filling (with_property number property word memory.now) (is_data_writable story (property_of memory.now number property)))) }
{
    match property_to_set::<true>(memory, objects, fixed, number, property) {
        Ok(_) => Ok(()),
        Err(fault) => Err(fault),
    }
}

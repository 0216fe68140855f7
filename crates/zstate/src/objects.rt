//! What a state's memory keeps of objects, changed.

ghost use Rattle.std.specs.Prelude.{◌≡◌, ◌≤◌, ◌<◌, IfSome, true, false};
ghost use Rattle.std.specs.Result.{IsOkAnd};
ghost use Rattle.zobj.specs.Attributes.{with_attribute};
ghost use Rattle.zobj.specs.Entries.{HasEntry, HasTable};
ghost use Rattle.zobj.specs.Moves.{IsLead, alone, first_under, led_past};
ghost use Rattle.zobj.specs.Properties.{IsReadable};
ghost use Rattle.zobj.specs.Values.{with_value};
ghost use Rattle.zstate.specs.State.{with_memory};

use crate::state::State;
use zobj::{Lead, Property};

impl State {
    /// Gives an object an attribute, 0 to 31 (Z 15 set_attr).
    #[inline(always)]
    pub fn set_attribute(&mut self, object: u8, attribute: u8)
        requires entry { HasEntry self.old.memory object }
        requires attribute { attribute < 32 }
        ensures { self.new ≡ with_memory (with_attribute true object attribute self.old.memory) self.old }
    {
        zobj::set_attribute(self.memory.as_mut_slice(), object, attribute);
    }

    /// Takes an attribute, 0 to 31, from an object (Z 15 clear_attr).
    #[inline(always)]
    pub fn clear_attribute(&mut self, object: u8, attribute: u8)
        requires entry { HasEntry self.old.memory object }
        requires attribute { attribute < 32 }
        ensures { self.new ≡ with_memory (with_attribute false object attribute self.old.memory) self.old }
    {
        zobj::clear_attribute(self.memory.as_mut_slice(), object, attribute);
    }

    /// Takes an object out of the tree, by what leads to it (Z 15 remove_obj).
    #[inline(always)]
    pub fn unlink(&mut self, objects: u8, object: u8, lead: Option<Lead>)
        requires table { HasTable self.old.memory objects }
        requires least { 1 ≤ object }
        requires most { object ≤ objects }
        requires lead { IfSome lead (IsLead objects) }
        ensures value { self.new ≡ with_memory (alone object (led_past object lead self.old.memory)) self.old }
        ensures table { HasTable self.new.memory objects }
    {
        zobj::lead_past(self.memory.as_mut_slice(), objects, object, lead);
    }

    /// Makes an object, which is out of the tree, the first child of another (Z 15 insert_obj).
    #[inline(always)]
    pub fn put_first(&mut self, object: u8, under: u8)
        requires object { HasEntry self.old.memory object }
        requires under { HasEntry self.old.memory under }
        ensures { self.new ≡ with_memory (first_under object under self.old.memory) self.old }
    {
        zobj::put_first(self.memory.as_mut_slice(), object, under);
    }

    /// Gives a property of one or two bytes of data a word, or the low byte of it (Z 15 put_prop).
    #[inline(always)]
    pub fn put_property(&mut self, property: Property, word: u16)
        requires readable { IsReadable self.old.memory property }
        requires few { property.length ≤ 2 }
        ensures { IsOkAnd (with_value word self.old.memory property) (λ memory. self.new ≡ with_memory memory self.old) }
    {
        match property.put(self.memory.as_mut_slice(), word) {
            Ok(()) => (),
            Err(_) => unreachable!(),
        }
    }
}

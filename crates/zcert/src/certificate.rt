//! A certificate as it is used.

ghost use Rattle.std.specs.Prelude.{◌≡◌, ◌<◌, ◌≤◌, length, slice_get, true, IfSome, Some};
ghost use Rattle.std.specs.Option.{option_map};
ghost use Rattle.zcert.specs.Certificate.{edition_of, frame_limit};
ghost use Rattle.zcert.specs.Facts.{facts_at};
ghost use Rattle.zcert.specs.Format.{version_of};
ghost use Rattle.zcert.specs.Spelling.{HasSpelling};
ghost use Rattle.zcert.specs.Listed.{Finds, listed_at, routine_at, seen};
ghost use Rattle.zcert.specs.Marks.{marks};

use crate::contents::Contents;
use crate::facts::stated_at;
use crate::limits::USUAL_FRAMES;
use crate::parts::{Fact, Instruction, Range, Routine};
use crate::spelled::{Spelled, version_of};
use std::marker::Model;
use zdomain::Interval;
use zstory::Identity;

/// A certificate, which keeps the order and the limits of its format. Clauses see it as a record of lists.
#[derive(Drop)]
pub struct Certificate<V: Spelled = Interval> {
    contents: Contents<V>,
}

impl<V: Spelled> Model for Certificate<V> {
    ghost use Rattle.zcert.specs.Certificate.{Certificate as Content};
    ghost use Rattle.zcert.specs.Spelling.{HasSpelling};
    ghost use Rattle.zcert.specs.View.{content_of};

    ghost Value = { Content V };

    ghost view = { λ c. content_of c.contents };

    ghost invariant = { λ c. HasSpelling V.format (content_of c.contents) };
}

impl<V: Spelled> Certificate<V> {
    ghost use Rattle.zcert.specs.View.{content_of};

    /// The certificate that has these contents.
    pub(crate) fn new(contents: Contents<V>) -> Certificate<V>
        requires { HasSpelling V.format (content_of contents) }
        ensures { result ≡ content_of contents }
    {
        Certificate { contents }
    }

    /// How it is kept.
    pub(crate) fn contents(&self) -> &Contents<V>
        ensures content { content_of result.now ≡ self.now }
        ensures keeps { HasSpelling V.format self.now }
    {
        &self.contents
    }

    /// The story that it speaks of.
    pub fn identity(&self) -> Identity
        ensures value { result ≡ self.now.identity }
        ensures keeps { HasSpelling V.format self.now }
    {
        self.contents.identity
    }

    /// The version of the format in which it is written.
    pub fn version(&self) -> u8
        ensures value { result ≡ version_of V.format (edition_of self.now) }
        ensures keeps { HasSpelling V.format self.now }
    {
        version_of::<V>(self.contents.edition())
    }

    /// The limit of frames that it names, if it names one.
    pub fn limit(&self) -> Option<u16>
        ensures value { result ≡ self.now.limit }
        ensures keeps { HasSpelling V.format self.now }
    {
        self.contents.limit
    }

    /// How many frames may stand above the first in a play with it: as many as it names, or 1,024.
    pub fn frame_limit(&self) -> u16
        ensures value { result ≡ frame_limit self.now }
        ensures most { result ≤ 4096 }
        ensures keeps { HasSpelling V.format self.now }
    {
        match self.contents.limit {
            Some(limit) => limit,
            None => USUAL_FRAMES,
        }
    }

    /// The certificate, in which this limit of frames is named.
    pub fn with_limit(self, limit: u16) -> Certificate<V>
        requires limited { V.format.limited ≡ true }
        requires low { limit ≤ 4096 }
        ensures { result ≡ record self { limit = Some limit } }
    {
        let mut contents = self.contents;
        contents.limit = Some(limit);
        Certificate::new(contents)
    }

    /// The ranges of bytes that it states to stay as they are, in their order.
    pub fn ranges(&self) -> &[Range]
        ensures value { result.now ≡ self.now.ranges }
        ensures keeps { HasSpelling V.format self.now }
    {
        self.contents.ranges.as_slice()
    }

    /// The values of each global, from variable 16 on.
    pub fn globals(&self) -> &[V]
        ensures value { result.now ≡ self.now.globals }
        ensures count { length result.now ≡ 240 }
        ensures keeps { HasSpelling V.format self.now }
    {
        self.contents.globals.as_slice()
    }

    /// The routines by their addresses. The first has number 1.
    pub fn routines(&self) -> &[Routine<V>]
        ensures value { result.now ≡ self.now.routines }
        ensures keeps { HasSpelling V.format self.now }
    {
        self.contents.routines.as_slice()
    }

    /// The index of the routine at an address, if there is one. The search takes as many steps as the count of routines has binary
    /// digits.
    pub fn routine_index(&self, address: u32) -> Option<usize>
        ensures value { result ≡ routine_at self.now.routines address }
        ensures keeps { HasSpelling V.format self.now }
    {
        self.routines()
            .binary_search_by_key(&address, |routine| routine.address)
            .ok()
    }

    /// How many instructions are listed.
    pub fn instruction_count(&self) -> usize
        ensures value { result ≡ length self.now.instructions }
        ensures keeps { HasSpelling V.format self.now }
    {
        self.contents.instructions.count()
    }

    /// How many of them are marked. The count takes as many steps as instructions are listed.
    pub fn marks(&self) -> usize
        ensures value { result ≡ marks self.now.instructions }
        ensures keeps { HasSpelling V.format self.now }
    {
        self.contents.instructions.marks()
    }

    /// All facts on globals, by their addresses, and at one address by their globals.
    pub fn facts(&self) -> &[Fact<V>]
        ensures value { result.now ≡ self.now.facts }
        ensures keeps { HasSpelling V.format self.now }
    {
        self.contents.facts.as_slice()
    }

    /// The facts on globals at an address, by their globals. The search takes as many steps as the count of all facts has binary digits.
    pub fn facts_at(&self, address: u32) -> &[Fact<V>]
        ensures value { result.now ≡ facts_at self.now.facts address }
        ensures keeps { HasSpelling V.format self.now }
    {
        stated_at(self.facts(), address)
    }

    /// The listed instruction of an index, in the order of their addresses. Its sets are lent, or made in the room.
    pub fn instruction<'a>(&'a self, index: usize, room: &'a mut V::Room) -> Instruction<'a, V>
        requires { index < length self.now.instructions }
        ensures value { slice_get self.now.instructions index ≡ Some (seen result) }

        // No other is listed at its address.
        ensures listed { listed_at self.now.instructions result.address ≡ Some (seen result) }
        ensures keeps { HasSpelling V.format self.now }
    {
        self.contents.instructions.get(index, room)
    }

    /// The address of the listed instruction of an index.
    pub fn address_of(&self, index: usize) -> u32
        requires { index < length self.now.instructions }
        ensures value { IfSome (slice_get self.now.instructions index) (λ i. i.address ≡ result) }

        // It is the one that is listed there.
        ensures listed { listed_at self.now.instructions result ≡ slice_get self.now.instructions index }
        ensures keeps { HasSpelling V.format self.now }
    {
        self.contents.instructions.address_of(index)
    }

    /// Whether the listed instruction of an index is marked.
    pub fn is_marked(&self, index: usize) -> bool
        requires { index < length self.now.instructions }
        ensures value { IfSome (slice_get self.now.instructions index) (λ i. i.is_marked ≡ result) }
        ensures keeps { HasSpelling V.format self.now }
    {
        self.contents.instructions.is_marked(index)
    }

    /// The index of the instruction that is listed at an address, if one is. The search takes as many steps as the count of
    /// instructions has binary digits.
    pub fn instruction_index(&self, address: u32) -> Option<usize>
        ensures value { Finds self.now.instructions address result }
        ensures keeps { HasSpelling V.format self.now }
    {
        self.contents.instructions.index_of(address)
    }

    /// The instruction that is listed at an address, if one is, found by such a search.
    pub fn instruction_at<'a>(
        &'a self,
        address: u32,
        room: &'a mut V::Room,
    ) -> Option<Instruction<'a, V>>
        ensures value { option_map seen result ≡ listed_at self.now.instructions address }
        ensures keeps { HasSpelling V.format self.now }
    {
        let index = self.instruction_index(address)?;
        Some(self.instruction(index, room))
    }
}

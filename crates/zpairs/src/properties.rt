//! What comes of asking objects for properties.

use crate::blocks::{BLOCK_CELLS, BLOCK_LENGTH, COLUMNS, OBJECT_CELLS, fill_blocks};
use crate::cell::{Cell, Test};
use crate::closed::mark_closed;
use crate::columns::NUMBERS;
use crate::ends::Ends;
use crate::finding::{answer_ends, passes};
use crate::fixed::mark_fixed;
use crate::frozen::MARK_BYTES;
use crate::marked::Marked;
use crate::room::PropertyRoom;
use crate::rows::find_properties;
use std::marker::Model;
use zcert::Range;
use zdomain::{Domain, Marks};
use zobj::{Property, PropertyQuestion};
use zstory::Story;

/// The properties of a story's objects, with the ranges of bytes that stay as they are. Each object's property of each number is kept in a
/// room, and what is known of 16 objects side by side, so that a question about many is answered by blocks.
#[derive(Drop)]
pub struct Properties<'a> {
    pub(crate) story: &'a Story,
    ranges: &'a [Range],
    closed: &'a Marks<MARK_BYTES>,
    fixed: &'a Marks<MARK_BYTES>,
    found: &'a [Option<Property>; OBJECT_CELLS],
    blocks: &'a [Cell; BLOCK_CELLS],
}

impl<'a> Model for Properties<'a> {
    ghost use Rattle.zpairs.specs.Frozen.{FrozenStory};

    ghost Value = { FrozenStory };

    ghost view = { λ p. record { story = p.story.now; ranges = p.ranges.now } };

    ghost use Rattle.zpairs.specs.Blocks.{AreBlocks};
    ghost use Rattle.zpairs.specs.Rows.{AreFound};
    ghost use Rattle.zpairs.specs.Fixed.{AreClosed, AreFixed};

    ghost invariant = { λ p. AreClosed (record { story = p.story.now; ranges = p.ranges.now }) p.closed.now × AreFixed p.story.now p.closed.now p.fixed.now × AreFound p.story.now p.found.now × AreBlocks (record { story = p.story.now; ranges = p.ranges.now }) p.blocks.now };
}

impl<'a> Properties<'a> {
    ghost use Rattle.std.specs.Prelude.{◌≡◌, ◌↔◌, ◌≤◌, ◌<◌, ◌*◌, ℕ, IsTrue};
    ghost use Rattle.std.specs.Prelude.{IfSome};
    ghost use Rattle.zobj.specs.Properties.{IsReadable, property_of};
    ghost use Rattle.zdomain.specs.Domain.{In};
    ghost use Rattle.zpairs.specs.Blocks.{EachInBlock, block_cell};
    ghost use Rattle.zpairs.specs.Cells.{cell_at, passes};
    ghost use Rattle.zpairs.specs.Frozen.{frozen_by};
    ghost use Rattle.zpairs.specs.Pairs.{AreAnswered, HaveOpenData, CanBePut, answer_ends, answers};

    /// Those of a story, of which the bytes in some ranges stay as they are, in a room. Each of the story's own tables is gone over once, and
    /// each place of each range.
    pub fn new(story: &'a Story, ranges: &'a [Range], room: &'a mut PropertyRoom) -> Properties<'a>
        ensures { result ≡ record { story = story.now; ranges = ranges.now } }
    {
        mark_closed(&mut room.closed, story, ranges);
        mark_fixed(&mut room.fixed, story, &room.closed);
        find_properties(&mut room.found, story);
        let marked = Marked {
            story,
            base: story.static_base(),
            ranges,
            closed: &room.closed,
            fixed: &room.fixed,
        };
        fill_blocks(&mut room.blocks, marked, &room.found);
        Properties {
            story,
            ranges,
            closed: &room.closed,
            fixed: &room.fixed,
            found: &room.found,
            blocks: &room.blocks,
        }
    }

    /// The story and the ranges, with the marks of closed bytes.
    pub fn marked(&self) -> Marked<'_>
        ensures story { result.story.now ≡ self.now.story }
        ensures ranges { result.ranges.now ≡ self.now.ranges }
    {
        Marked {
            story: self.story,
            base: self.story.static_base(),
            ranges: self.ranges,
            closed: self.closed,
            fixed: self.fixed,
        }
    }

    /// The story.
    pub fn story(&self) -> &'a Story
        ensures { result.now ≡ self.now.story }
    {
        self.story
    }

    /// Whether a question has an answer, whatever object of the story and whatever number of two sets it is asked of
    /// (Z 15 get_prop, get_prop_addr, get_next_prop).
    pub fn are_answered<V: Domain>(
        &self,
        question: PropertyQuestion,
        objects: V,
        numbers: V,
    ) -> bool
        ensures { IsTrue result ↔ AreAnswered V.operations self.now.story question objects numbers }
    {
        self.pass(Test::Answered(question), objects, numbers)
    }

    /// Whether each object of a set has the property of each number of a set, with at most two bytes of data, so that it can be given
    /// a word (Z 15 put_prop).
    pub fn can_be_put<V: Domain>(&self, objects: V, numbers: V) -> bool
        ensures { IsTrue result ↔ CanBePut V.operations self.now.story objects numbers }
    {
        self.pass(Test::Put, objects, numbers)
    }

    /// Whether each byte of the data of such properties is open, so that stores may write it.
    pub fn have_open_data<V: Domain>(&self, objects: V, numbers: V) -> bool
        ensures { IsTrue result ↔ HaveOpenData V.operations self.now.story (frozen_by self.now.ranges) objects numbers }
    {
        self.pass(Test::Open, objects, numbers)
    }

    /// A set of whatever may be answered of an object of the story and a number of two sets. A value is known where it is a default, or no
    /// play changes a byte of it.
    pub fn answers<V: Domain>(&self, question: PropertyQuestion, objects: V, numbers: V) -> V
        ensures { result ≡ answers V.operations self.now question objects numbers }
    {
        match question {
            PropertyQuestion::Value | PropertyQuestion::Address => {
                self.known_answers(question, objects, numbers)
            }
            PropertyQuestion::Next => V::between(0, NUMBERS - 1),
        }
    }

    /// How many blocks have an object.
    pub(crate) fn block_count(&self) -> u8
        ensures few { result ≤ 16 }
        ensures all { self.now.story.objects ≤ 16 * result }
        ensures needed { (block : ℕ) → block < result → 16 * block < self.now.story.objects }
    {
        let objects = u16::from(self.story.objects());
        ((objects + 15) / 16) as u8
    }

    /// Whether a set has each object of a block.
    pub(crate) fn has_whole<V: Domain>(&self, block: u8, objects: V) -> bool
        requires few { block < 16 }
        ensures { IsTrue result → EachInBlock self.now block (In V.operations objects) }
    {
        let before = u16::from(BLOCK_LENGTH) * u16::from(block);
        let last = u16::from(self.story.objects()).min(before + u16::from(BLOCK_LENGTH));
        V::between(before + 1, last).is_within(objects)
    }

    /// What is known of the objects of a block and a number.
    pub(crate) fn block_cell(&self, block: u8, number: u16) -> Cell
        requires few { block < 16 }
        requires small { number ≤ 32 }
        ensures { result ≡ block_cell self.now block number }
    {
        self.blocks[COLUMNS * usize::from(block) + usize::from(number)]
    }

    /// Whether an object passes a test with a number.
    #[inline(always)]
    pub(crate) fn passes(&self, test: Test, object: u8, number: u16) -> bool
        requires least { 1 ≤ object }
        requires most { object ≤ self.now.story.objects }
        requires small { number ≤ 32 }
        ensures { result ≡ passes test number (cell_at self.now object number) }
    {
        passes(&self.marked(), test, number, self.property(object, number))
    }

    /// The ends of what it may answer of one.
    #[inline(always)]
    pub(crate) fn answer_ends(&self, question: PropertyQuestion, object: u8, number: u16) -> Ends
        requires least { 1 ≤ object }
        requires most { object ≤ self.now.story.objects }
        requires small { number ≤ 32 }
        ensures { result ≡ answer_ends question (cell_at self.now object number) }
    {
        answer_ends(
            &self.marked(),
            question,
            number,
            self.property(object, number),
        )
    }

    /// The first property of an object that has a number.
    #[inline(always)]
    pub(crate) fn property(&self, object: u8, number: u16) -> &Option<Property>
        requires least { 1 ≤ object }
        requires most { object ≤ self.now.story.objects }
        requires small { number ≤ 32 }
        ensures found { result.now ≡ property_of self.now.story.memory object number }
        ensures readable { IfSome result.now (IsReadable self.now.story.memory) }
    {
        &self.found[COLUMNS * (usize::from(object) - 1) + usize::from(number)]
    }
}

//! What is known of the elements at any array and any index of two sets.

ghost use Rattle.std.specs.Prelude.{◌≡◌, ◌<◌, ◌≤◌, ◌+◌, ◌↔◌, IsTrue};
ghost use Rattle.zarray.specs.Arrays.{span};
ghost use Rattle.zruns.specs.Blocks.{step_length};
ghost use Rattle.zruns.specs.Runs.{AreReadable, EachAddress, any_element};

use crate::blocks::{BLOCK_LENGTH, BLOCKS, cell_in, fill_blocks};
use crate::cell::Cell;
use crate::element::byte_at;
use crate::piece::piece_cell;
use crate::room::RunRoom;
use crate::run::Run;
use crate::sums::{add_sums, are_sums_open, begin_sums_by};
use std::marker::Model;
use zarray::Width;
use zdomain::{Domain, Gathered, turned};
use zpairs::{Marked, PLACES, Properties, members};
use zstory::Story;

/// The least size of a text buffer: room for a letter, and for the zero behind it (own).
const LEAST_TEXT: u8 = 2;

/// The least number of words that a parse buffer takes (own).
const LEAST_WORDS: u8 = 1;

/// How many bytes a parse buffer has for a word (Z 15 sread).
const WORD_LENGTH: usize = 4;

/// The runs of addresses of a story, with the ranges of bytes that stay as they are, over its properties. What is known of 256 addresses side by side is kept,
/// so that a question about many is answered by blocks.
#[derive(Drop)]
pub struct Runs<'a> {
    properties: Properties<'a>,
    bytes: &'a [Cell; BLOCKS],
    words: &'a [Cell; BLOCKS],
}

impl<'a> Model for Runs<'a> {
    ghost use Rattle.zpairs.specs.Frozen.{FrozenStory};

    ghost Value = { FrozenStory };

    ghost view = { λ p. p.properties };

    ghost use Rattle.zarray.specs.declared.width.Width.TheVariants.{Byte, Word};
    ghost use Rattle.zruns.specs.Blocks.{AreBlocks};

    ghost invariant = { λ p. AreBlocks p.properties Byte p.bytes.now × AreBlocks p.properties Word p.words.now };
}

impl<'a> Runs<'a> {
    ghost use Rattle.std.specs.Prelude.{◌≡◌, ◌↔◌, ◌≤◌, ◌<◌, ◌+◌, ◌-◌, IsTrue};
    ghost use Rattle.zpairs.specs.Frozen.{frozen_by};
    ghost use Rattle.zruns.specs.Blocks.{block_cell, piece_cell, step_length};
    ghost use Rattle.zpairs.specs.Fixed.{is_fixed};
    ghost use Rattle.zruns.specs.Runs.{AreOpen, elements, elements_at, elements_in, run_cell, sums};
    ghost use Rattle.std.specs.Prelude.{◌*◌, ℕ};
    ghost use Rattle.zstory.specs.Bytes.{byte_at};
    ghost use Rattle.zplace.specs.Bytes.{IsOpen, IsWithin};
    ghost use Rattle.zruns.specs.Buffers.{AreBuffers, IsBuffer, IsParseBuffer, IsTextBuffer};

    /// Those of a story, of which the bytes in some ranges stay as they are, over its properties, in a room. Memory is gone over once for each
    /// width.
    pub(crate) fn new(properties: Properties<'a>, room: &'a mut RunRoom) -> Runs<'a>
        ensures { result ≡ properties.entry }
    {
        let marked = properties.marked();
        fill_blocks(&mut room.bytes, marked, Width::Byte);
        fill_blocks(&mut room.words, marked, Width::Word);
        Runs {
            properties,
            bytes: &room.bytes,
            words: &room.words,
        }
    }

    /// The properties of the story's objects.
    pub(crate) fn properties(&self) -> &Properties<'a>
        ensures { result.now ≡ self.now }
    {
        &self.properties
    }

    /// Whether each byte of each element at any array and any index of two sets is open, so that stores may write it.
    pub fn are_open<V: Domain>(&self, width: Width, arrays: V, indices: V) -> bool
        ensures { IsTrue result ↔ AreOpen V.operations self.now.story (frozen_by self.now.ranges) width arrays indices }
    {
        match members(arrays, indices) {
            Some((few, others)) => {
                are_sums_open(&self.marked(), width, few.as_slice(), others.as_slice())
            }
            None => {
                self.run_cell(width, Run::of(width, arrays, indices))
                    .is_open
            }
        }
    }

    /// A set of whatever may be read at any array and any index of two sets: what stands there, where both tell their words, and else the words
    /// from the least element to the greatest, by their signed readings. It is known where no play changes a byte of any.
    pub fn elements<V: Domain>(&self, width: Width, arrays: V, indices: V) -> V
        ensures { result ≡ elements V.operations self.now width arrays indices }
    {
        match members(arrays, indices) {
            Some((few, others)) => self.elements_at(width, few.as_slice(), others.as_slice()),
            None => self.elements_in(width, Run::of(width, arrays, indices)),
        }
    }

    /// That of each array of one list and each index of another.
    fn elements_at<V: Domain>(&self, width: Width, arrays: &[u16], indices: &[u16]) -> V
        ensures { result ≡ elements_at V.operations self.now width (sums width arrays.now indices.now) }
    {
        let mut all = Gathered::none();
        let memory = self.properties.story().memory();
        if add_sums(&mut all, &self.marked(), memory, width, arrays, indices) {
            V::packed(&all)
        } else {
            any_element(width)
        }
    }

    /// That of a run.
    fn elements_in<V: Domain>(&self, width: Width, run: Run) -> V
        ensures { result ≡ elements_in V.operations width (run_cell self.now width run) }
    {
        let cell = self.run_cell(width, run);
        if cell.fixed {
            V::between(turned(cell.ends.least), turned(cell.ends.greatest))
        } else {
            any_element(width)
        }
    }

    /// The story and the ranges, with the marks of closed bytes.
    fn marked(&self) -> Marked<'_>
        ensures { record { story = result.story.now; ranges = result.ranges.now } ≡ self.now }
    {
        self.properties.marked()
    }

    /// Whether each of two sets has but one word, and a text buffer begins at that of the first, a parse buffer at that of the second, in
    /// both of which a line can always be stored.
    pub fn are_buffers<V: Domain>(&self, texts: V, parses: V) -> bool
        ensures { IsTrue result ↔ AreBuffers V.operations self.now.story (frozen_by self.now.ranges) texts parses }
    {
        match (texts.known(), parses.known()) {
            (Some(text), Some(parse)) => self.is_text_buffer(text) && self.is_parse_buffer(parse),
            _ => false,
        }
    }

    /// Whether a text buffer begins at an address: its first byte says how many bytes it takes.
    fn is_text_buffer(&self, address: u16) -> bool
        ensures { IsTrue result ↔ IsTextBuffer self.now.story (frozen_by self.now.ranges) address }
    {
        let size = usize::from(self.byte_at(address));
        self.is_buffer(address, LEAST_TEXT, size)
    }

    /// Whether a parse buffer begins there: its first byte says how many words it takes, behind their count.
    fn is_parse_buffer(&self, address: u16) -> bool
        ensures { IsTrue result ↔ IsParseBuffer self.now.story (frozen_by self.now.ranges) address }
    {
        let words = usize::from(self.byte_at(address));
        self.is_buffer(address, LEAST_WORDS, 1 + WORD_LENGTH * words)
    }

    /// Whether no play changes the first byte of a buffer, which is at least so much, and so many bytes behind it are open.
    fn is_buffer(&self, address: u16, least: u8, size: usize) -> bool
        requires { size ≤ 1021 }
        ensures { IsTrue result ↔ IsBuffer self.now.story (frozen_by self.now.ranges) address least size }
    {
        if !self.is_fixed(address) {
            return false;
        }
        self.byte_at(address) >= least && self.are_free(usize::from(address) + 1, size)
    }

    /// Whether no play changes the byte at an address.
    fn is_fixed(&self, address: u16) -> bool
        ensures { result ≡ is_fixed self.now address }
    {
        self.marked().is_fixed(usize::from(address))
    }

    /// Whether so many bytes from a place on are open. Behind the last byte address none is.
    fn are_free(&self, from: usize, size: usize) -> bool
        requires from { from ≤ 65536 }
        requires size { size ≤ 1021 }
        ensures { IsTrue result ↔ ((p : ℕ) → IsWithin from size p → IsOpen self.now.story (frozen_by self.now.ranges) p) }
    {
        let _memory = self.properties.story().memory(); // a word says where static memory begins
        let end = from + size;
        end <= PLACES && self.piece_cell(Width::Byte, from, end).is_open
    }

    /// The byte at an address, and 0 where memory has ended.
    fn byte_at(&self, address: u16) -> u8
        ensures { result ≡ byte_at self.now.story.memory address }
    {
        byte_at(self.properties.story().memory(), usize::from(address))
    }

    /// What is known of the elements of a run: it is a piece up to the last byte address at most, and one from 0 on.
    fn run_cell(&self, width: Width, run: Run) -> Cell
        ensures { result ≡ run_cell self.now width run }
    {
        let first = usize::from(run.first);
        let end = first + usize::from(run.more) + 1;
        let front = self.piece_cell(width, first, end.min(PLACES));
        front.merge(self.piece_cell(width, 0, end.saturating_sub(PLACES)))
    }

    /// What is known of the elements from one address up to an end: by whole blocks, as far as there are some.
    fn piece_cell(&self, width: Width, from: usize, end: usize) -> Cell
        requires order { from ≤ end }
        requires few { end ≤ 65536 }
        ensures { result ≡ piece_cell self.now width from (end - from) }
    {
        let mut cell = Cell::NONE;
        let mut at = from;
        while at < end {
            cell = cell.merge(self.step_cell(width, at, end));
            at += step_length(at, end);
        }
        cell
    }

    /// What is known of as many of them as are taken in one step.
    fn step_cell(&self, width: Width, at: usize, end: usize) -> Cell
        requires some { at < end }
        requires few { end ≤ 65536 }
        ensures { result ≡ piece_cell self.now width at (step_length at end) }
    {
        let size = step_length(at, end);
        if size == BLOCK_LENGTH {
            self.block_cell(width, at / BLOCK_LENGTH)
        } else {
            self.part_cell(width, at, size)
        }
    }

    /// What is known of the elements of a block.
    fn block_cell(&self, width: Width, block: usize) -> Cell
        requires { block < 256 }
        ensures { result ≡ block_cell self.now width block }
    {
        match width {
            Width::Byte => cell_in(self.bytes, block),
            Width::Word => cell_in(self.words, block),
        }
    }

    /// What is known of those of a part of a block.
    fn part_cell(&self, width: Width, from: usize, size: usize) -> Cell
        requires { from + size ≤ 65536 }
        ensures { result ≡ piece_cell self.now width from size }
    {
        piece_cell(self.marked(), width, from, size)
    }
}

/// How many addresses are taken in one step from one before an end on: those up to the end of its block, and not beyond the other.
fn step_length(at: usize, end: usize) -> usize
    requires { at < end }
    ensures { result ≡ step_length at end }
{
    (BLOCK_LENGTH - at % BLOCK_LENGTH).min(end - at)
}

/// A set of whatever may be read where that isn't known.
fn any_element<V: Domain>(width: Width) -> V
    ensures { result ≡ any_element V.operations width }
{
    match width {
        Width::Byte => V::between(0, 0xff),
        Width::Word => V::any(),
    }
}

/// Whether each byte of each element at any array and any index of two sets can be read: it lies in memory, and no further than 65,535.
pub fn are_readable<V: Domain>(story: &Story, width: Width, arrays: V, indices: V) -> bool
    ensures { IsTrue result ↔ AreReadable V.operations story.now width arrays indices }
{
    let end = story.length().min(PLACES);
    match members(arrays, indices) {
        Some((few, others)) => {
            let last = last_place(end, width);
            begin_sums_by(last, width, few.as_slice(), others.as_slice())
        }
        None => ends_run_by(end, width, Run::of(width, arrays, indices)),
    }
}

/// The last place at which an element may begin, so that it ends no later than another.
fn last_place(end: usize, width: Width) -> u16
    requires least { 2 ≤ end }
    requires greatest { end ≤ 65536 }
    ensures { result + span width ≡ end }
{
    (end - usize::from(width.span())) as u16
}

/// Whether each element of a run ends no later than a place.
fn ends_run_by(end: usize, width: Width, run: Run) -> bool
    ensures { IsTrue result ↔ EachAddress run (λ p. p + span width ≤ end) }
{
    usize::from(run.greatest()) + usize::from(width.span()) <= end
}

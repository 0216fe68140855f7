//! What tables don't say: which bytes were opened since they were made.

use crate::bytes::{Bytes, Span};
use crate::code::Code;
use crate::openings::{NUMBERS, run_length};
use std::alloc::{AllocError, Global};
use zarray::Width;
use zdomain::{Domain, Interval};
use zflow::{Access, Asked, Demands, Elements, Pairs};
use zobj::{Property, PropertyQuestion, property_at};
use zpairs::PLACES;
use zplace::{list_place, table_of};
use zruns::{Room, Run, Tables};
use zstory::Story;

/// How many places a block has.
const BLOCK_LENGTH: usize = 256;

/// How many objects there may be, with 0.
const OBJECTS: usize = 256;

/// What is no longer known of a property's data.
#[derive(Clone, Copy, PartialEq, Eq)]
enum Lost {
    /// Nothing: tables say what is known.
    Nothing,
    /// Its only byte.
    Byte,
    /// A byte of its two.
    Word,
}

/// The bytes that were opened since tables were made, of those that were closed for no other cause. What tables say is right but for these,
/// so that none have to be made anew for each of them.
#[derive(Drop)]
pub(crate) struct Opened {
    /// Whether each place is one. As all that follows, this is made once places were opened.
    marks: Vec<bool>,
    /// How many are in each block of places.
    counts: Vec<u16>,
    /// Whether each place is closed for another cause, once that was asked.
    closed: Vec<bool>,
    /// What is lost of the property of each number of each object, those of a number one behind the other.
    lost: Vec<Lost>,
    /// Whether anything is, of each number.
    lost_numbers: Vec<bool>,
}

impl Opened {
    /// None.
    pub(crate) fn new(alloc: Global) -> Opened {
        Opened {
            marks: Vec::new(alloc),
            counts: Vec::new(alloc),
            closed: Vec::new(alloc),
            lost: Vec::new(alloc),
            lost_numbers: Vec::new(alloc),
        }
    }

    /// Notes what was opened since this was last done. Answers how much was gone over.
    pub(crate) fn note(
        &mut self,
        alloc: Global,
        code: &Code<'_>,
        bytes: &mut Bytes,
    ) -> Result<usize, AllocError> {
        let Some(span) = bytes.take_stale() else {
            return Ok(0);
        };
        if self.closed.is_empty() {
            self.make_marks(alloc, code.story)?;
        }
        for place in span.first..span.last.saturating_add(1) {
            if bytes.was_opened(place) {
                self.mark(place);
            }
        }
        Ok(
            span.length()
                .saturating_add(self.note_properties(code, span)),
        )
    }

    /// Makes the marks of the places of dynamic memory and of its properties, and asks which places are closed for another cause than that
    /// they are frozen.
    fn make_marks(&mut self, alloc: Global, story: &Story) -> Result<(), AllocError> {
        let count = story.static_base().min(PLACES);
        self.marks = vec![in alloc; false; count]?;
        self.counts = vec![in alloc; 0; count.div_ceil(BLOCK_LENGTH)]?;
        self.lost = vec![in alloc; Lost::Nothing; NUMBERS * OBJECTS]?;
        self.lost_numbers = vec![in alloc; false; NUMBERS]?;
        self.closed = closed_places(alloc, story, count)?;
        Ok(())
    }

    /// Marks a place, unless it is closed all the same.
    fn mark(&mut self, place: usize) {
        if self.closed.get(place).copied().unwrap_or(true) {
            return;
        }
        match self.marks.get_mut(place) {
            Some(mark) if !*mark => *mark = true,
            _ => return,
        }
        if let Some(count) = self.counts.get_mut(place / BLOCK_LENGTH) {
            *count = count.saturating_add(1);
        }
    }

    /// Notes of which properties something is lost, where places were opened among them. Answers how much was gone over.
    fn note_properties(&mut self, code: &Code<'_>, span: Span) -> usize {
        if !span.meets(code.properties()) {
            return 0;
        }
        for below in 0..code.story.objects() {
            self.note_list(code.story, below, table_of(code.story, below + 1));
        }
        NUMBERS * usize::from(code.story.objects())
    }

    /// Notes that of the properties of an object, less 1, in its table.
    fn note_list(&mut self, story: &Story, below: u8, table: usize) {
        let memory = story.memory();
        let mut at = list_place(memory, table.min(0xffff));
        let mut before = NUMBERS;
        for _ in 0..NUMBERS {
            let Some(property) = property_at(memory, at) else {
                return;
            };
            if usize::from(property.number) < before {
                self.note_property(below, property);
            }
            before = before.min(usize::from(property.number));
            at = usize::from(property.place) + usize::from(property.length);
        }
    }

    /// Notes that of one property.
    fn note_property(&mut self, below: u8, property: Property) {
        let lost = self.lost_of(property);
        let number = usize::from(property.number);
        if lost == Lost::Nothing || number == 0 {
            return;
        }
        if let Some(there) = self.lost.get_mut(OBJECTS * number + usize::from(below)) {
            *there = lost;
        }
        if let Some(mark) = self.lost_numbers.get_mut(number) {
            *mark = true;
        }
    }

    /// What is lost of a property's data.
    fn lost_of(&self, property: Property) -> Lost {
        let place = usize::from(property.place);
        match property.length {
            1 if self.is_marked(place) => Lost::Byte,
            2 if self.is_marked(place) || self.is_marked(place + 1) => Lost::Word,
            _ => Lost::Nothing,
        }
    }

    /// Whether a place is marked.
    fn is_marked(&self, place: usize) -> bool {
        self.marks.get(place).copied().unwrap_or(false)
    }

    /// What an instruction may read besides what tables say.
    pub(crate) fn more_read<V: Domain>(&self, demands: &Demands<V>) -> Option<V> {
        if let Some(elements) = demands.elements {
            return self.more_in(elements);
        }
        self.more_of(demands.property?)
    }

    /// What it may read of elements.
    fn more_in<V: Domain>(&self, elements: Elements<V>) -> Option<V> {
        match elements.access {
            Access::Reading if self.meets(elements) => Some(any_element(elements.width)),
            _ => None,
        }
    }

    /// Whether a byte of elements is marked.
    fn meets<V: Domain>(&self, elements: Elements<V>) -> bool {
        let width = elements.width;
        let run = Run::of(width, elements.arrays, elements.indices);
        if !self.meets_places(usize::from(run.first), run_length(width, run)) {
            return false;
        }
        match (elements.arrays.few(), elements.indices.few()) {
            (Some(arrays), Some(indices)) => {
                self.meets_any(width, arrays.as_slice(), indices.as_slice())
            }
            _ => true,
        }
    }

    /// Whether a byte of the element at an array and an index of two lists is marked.
    fn meets_any(&self, width: Width, arrays: &[u16], indices: &[u16]) -> bool {
        for array in arrays {
            for index in indices {
                let first = usize::from(width.place(*array, *index));
                if self.meets_places(first, usize::from(width.span())) {
                    return true;
                }
            }
        }
        false
    }

    /// Whether one of so many places from one on is marked, of which the first follows the last byte address.
    fn meets_places(&self, first: usize, count: usize) -> bool {
        let end = first.saturating_add(count);
        self.meets_piece(first, end.min(PLACES)) || self.meets_piece(0, end.saturating_sub(PLACES))
    }

    /// Whether one of the places from one up to an end is marked.
    fn meets_piece(&self, from: usize, end: usize) -> bool {
        for block in from / BLOCK_LENGTH..end.div_ceil(BLOCK_LENGTH) {
            if self.has_count(block) && self.meets_block(block, from, end) {
                return true;
            }
        }
        false
    }

    /// Whether a place of a block is marked.
    fn has_count(&self, block: usize) -> bool {
        self.counts.get(block).copied().unwrap_or(0) > 0
    }

    /// Whether one of the places of a block, from one up to an end, is marked.
    fn meets_block(&self, block: usize, from: usize, end: usize) -> bool {
        let first = block.saturating_mul(BLOCK_LENGTH);
        for place in first.max(from)..first.saturating_add(BLOCK_LENGTH).min(end) {
            if self.is_marked(place) {
                return true;
            }
        }
        false
    }

    /// What may be answered of the properties that objects and numbers make.
    fn more_of<V: Domain>(&self, pairs: Pairs<V>) -> Option<V> {
        let Asked::Answered(PropertyQuestion::Value) = pairs.asked else {
            return None;
        };
        match self.lost_of_pairs(pairs) {
            Lost::Nothing => None,
            Lost::Byte => Some(any_element(Width::Byte)),
            Lost::Word => Some(any_element(Width::Word)),
        }
    }

    /// What is lost of those properties.
    fn lost_of_pairs<V: Domain>(&self, pairs: Pairs<V>) -> Lost {
        let mut lost = Lost::Nothing;
        for number in 0..NUMBERS {
            lost = lost.join(self.lost_at(number, pairs));
        }
        lost
    }

    /// What is lost of those that have a number.
    fn lost_at<V: Domain>(&self, number: usize, pairs: Pairs<V>) -> Lost {
        let has_lost = self.lost_numbers.get(number).copied().unwrap_or(false);
        if has_lost && pairs.numbers.contains(number.min(31) as u16) {
            self.lost_of_number(number, pairs.objects)
        } else {
            Lost::Nothing
        }
    }

    /// What is lost of the properties of a number that objects have.
    fn lost_of_number<V: Domain>(&self, number: usize, objects: V) -> Lost {
        let first = number.saturating_mul(OBJECTS);
        let row = self
            .lost
            .as_slice()
            .get(first..first.saturating_add(OBJECTS))
            .unwrap_or(&[]);
        let mut lost = Lost::Nothing;
        for (below, more) in row.iter().enumerate() {
            lost = lost.join(more.if_in(objects, below));
        }
        lost
    }
}

impl Lost {
    /// The same, if an object, less 1, is one of a set.
    fn if_in<V: Domain>(self, objects: V, below: usize) -> Lost {
        if self != Lost::Nothing && objects.contains((below.min(254) + 1) as u16) {
            self
        } else {
            Lost::Nothing
        }
    }

    /// What is lost of either.
    fn join(self, other: Lost) -> Lost {
        match (self, other) {
            (Lost::Word, _) | (_, Lost::Word) => Lost::Word,
            (Lost::Byte, _) | (_, Lost::Byte) => Lost::Byte,
            _ => Lost::Nothing,
        }
    }
}

/// Whether each of so many places is closed where nothing is frozen. A function of its own, since its tables lie on the stack.
#[inline(never)]
fn closed_places(alloc: Global, story: &Story, count: usize) -> Result<Vec<bool>, AllocError> {
    let mut room = Room::new();
    let tables = Tables::new(story, &[], &mut room);
    let mut closed = Vec::with_capacity(alloc, count)?;
    for place in 0..count {
        closed.push(is_closed(&tables, place))?;
    }
    Ok(closed)
}

/// Whether the byte at a place is closed where nothing is frozen.
fn is_closed(tables: &Tables<'_>, place: usize) -> bool {
    let address = Interval::single(place.min(0xffff) as u16);
    !tables
        .runs()
        .are_open(Width::Byte, address, Interval::single(0))
}

/// Whatever an element may be.
fn any_element<V: Domain>(width: Width) -> V {
    match width {
        Width::Byte => V::between(0, 0xff),
        Width::Word => V::any(),
    }
}

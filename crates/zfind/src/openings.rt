//! Which bytes an instruction may write.

use crate::bytes::{Bytes, Span};
use crate::code::Code;
use zarray::Width;
use zdomain::Domain;
use zflow::{Access, Asked, Buffers, Demands, Elements, Pairs};
use zobj::{PropertyQuestion, property_at};
use zpairs::PLACES;
use zplace::{list_place, table_of};
use zruns::Run;

/// How many bytes a parse buffer has for a word (Z 15 sread).
const WORD_LENGTH: usize = 4;

/// How many blocks of objects tables have.
const BLOCKS: usize = 16;

/// Of a long run tables go over this part of its addresses at most.
const RUN_PIECES: usize = 128;

/// How many numbers properties have, with 0 (Z 12.4.1).
pub(crate) const NUMBERS: usize = 32;

/// Opens the bytes that an instruction may write. Answers how much was gone over.
pub(crate) fn open_written<V: Domain>(
    code: &Code<'_>,
    bytes: &mut Bytes,
    demands: &Demands<V>,
) -> usize {
    if let Some(elements) = demands.elements {
        if code.marks() && is_astray(code, elements) {
            return 0;
        }
        return open_elements(bytes, elements);
    }
    if let Some(pairs) = demands.property {
        return open_properties(code, bytes, pairs);
    }
    match demands.buffers {
        Some(buffers) => open_buffers(code, bytes, buffers),
        None => 0,
    }
}

/// Whether elements are written that may lie outside dynamic memory, whatever is open: so the instruction is marked, and opens nothing.
fn is_astray<V: Domain>(code: &Code<'_>, elements: Elements<V>) -> bool {
    let run = Run::of(elements.width, elements.arrays, elements.indices);
    let end = usize::from(run.first).saturating_add(run_length(elements.width, run));
    matches!(elements.access, Access::Writing) && end > code.story.static_base()
}

/// Opens elements that are written. Of those that are read, blocks are gone over.
fn open_elements<V: Domain>(bytes: &mut Bytes, elements: Elements<V>) -> usize {
    let run = Run::of(elements.width, elements.arrays, elements.indices);
    let length = run_length(elements.width, run);
    if let Access::Reading = elements.access {
        return length.min(PLACES / RUN_PIECES);
    }
    match (elements.arrays.few(), elements.indices.few()) {
        (Some(arrays), Some(indices)) => {
            open_each(bytes, elements.width, arrays.as_slice(), indices.as_slice())
        }
        _ => open_places(bytes, usize::from(run.first), length),
    }
}

/// Opens the element at each array and each index of two lists.
fn open_each(bytes: &mut Bytes, width: Width, arrays: &[u16], indices: &[u16]) -> usize {
    let mut passed = 0usize;
    for array in arrays {
        for index in indices {
            let first = usize::from(width.place(*array, *index));
            let length = usize::from(width.span());
            passed = passed.saturating_add(open_places(bytes, first, length));
        }
    }
    passed
}

/// How many bytes the elements of a run have.
pub(crate) fn run_length(width: Width, run: Run) -> usize {
    usize::from(run.more) + usize::from(width.span())
}

/// Opens so many bytes from a place on, of which the first follows the last byte address.
fn open_places(bytes: &mut Bytes, first: usize, count: usize) -> usize {
    let from = first % PLACES;
    let end = from + count.min(PLACES);
    let front = bytes.open_piece(from, end.min(PLACES));
    front.saturating_add(bytes.open_piece(0, end.saturating_sub(PLACES)))
}

/// Opens buffers that are known.
fn open_buffers<V: Domain>(code: &Code<'_>, bytes: &mut Bytes, buffers: Buffers<V>) -> usize {
    let mut passed = 0usize;
    if let Some(text) = buffers.texts.known() {
        let text = usize::from(text);
        passed = open_places(bytes, text + 1, usize::from(code.byte_at(text)));
    }
    if let Some(parse) = buffers.parses.known() {
        let parse = usize::from(parse);
        let words = usize::from(code.byte_at(parse));
        passed = passed.saturating_add(open_places(bytes, parse + 1, 1 + WORD_LENGTH * words));
    }
    passed
}

/// Opens the data of properties that are given a word. Of those that are asked for, blocks are gone over.
fn open_properties<V: Domain>(code: &Code<'_>, bytes: &mut Bytes, pairs: Pairs<V>) -> usize {
    match pairs.asked {
        Asked::Answered(_) => NUMBERS * BLOCKS,
        Asked::Filled => open_filled(code, bytes, pairs.objects, pairs.numbers),
    }
}

/// Opens the data of each property that an object and a number of two sets make.
fn open_filled<V: Domain>(code: &Code<'_>, bytes: &mut Bytes, objects: V, numbers: V) -> usize {
    let mut passed = 0usize;
    for below in 0..code.story.objects() {
        if objects.contains(u16::from(below) + 1) {
            open_list(code, bytes, table_of(code.story, below + 1), numbers);
            passed = passed.saturating_add(NUMBERS);
        }
    }
    passed
}

/// Opens the data of those properties in a table that have a number of a set.
fn open_list<V: Domain>(code: &Code<'_>, bytes: &mut Bytes, table: usize, numbers: V) {
    let memory = code.story.memory();
    let mut at = list_place(memory, table.min(0xffff));
    for _ in 0..NUMBERS {
        let Some(property) = property_at(memory, at) else {
            return;
        };
        let place = usize::from(property.place);
        let length = usize::from(property.length);
        if numbers.contains(u16::from(property.number)) {
            open_places(bytes, place, length);
        }
        at = place + length;
    }
}

/// Where an instruction may look for values that are known only where bytes stay as they are.
pub(crate) fn reach_of<V: Domain>(code: &Code<'_>, demands: &Demands<V>) -> Option<Span> {
    if let Some(elements) = demands.elements {
        return elements_reach(elements);
    }
    match demands.property?.asked {
        Asked::Answered(PropertyQuestion::Value) => Some(code.properties()),
        _ => None,
    }
}

/// Where elements are read.
fn elements_reach<V: Domain>(elements: Elements<V>) -> Option<Span> {
    let run = Run::of(elements.width, elements.arrays, elements.indices);
    let first = usize::from(run.first);
    let last = first.saturating_add(run_length(elements.width, run));
    match elements.access {
        Access::Writing => None,
        Access::Reading if last < PLACES => Some(Span { first, last }),
        Access::Reading => Some(Span {
            first: 0,
            last: PLACES,
        }),
    }
}

//! What is known of one object and the number of a property.

ghost use Rattle.std.specs.Prelude.{◌≡◌, ◌<◌, ◌+◌, IfSome, length};
ghost use Rattle.zobj.specs.Answers.{address_of};
ghost use Rattle.zobj.specs.Properties.{IsReadable};
ghost use Rattle.zpairs.specs.Cells.{asked_values, cell_of, has_none, has_open_data, is_short, passes};
ghost use Rattle.zpairs.specs.Pairs.{answer_ends};
ghost use Rattle.zpairs.specs.Ends.{byte_ends, data_ends, word_ends};
ghost use Rattle.zpairs.specs.Fixed.{is_closed, is_fixed};
ghost use Rattle.zpairs.specs.Frozen.{told_by};

use crate::cell::{Cell, Test};
use crate::ends::Ends;
use crate::marked::Marked;
use zobj::{Property, PropertyQuestion, default_word};

/// What is known of an object's property of a number, by the one that it has.
pub(crate) fn cell_of(marked: &Marked<'_>, number: u16, found: &Option<Property>) -> Cell
    requires { IfSome found.now (IsReadable marked.now.story.now.memory) }
    ensures { result ≡ cell_of (is_closed (told_by marked.now.story.now marked.now.ranges.now)) (is_fixed (told_by marked.now.story.now marked.now.ranges.now)) marked.now.story.now.memory number found.now }
{
    Cell {
        has: found.is_some(),
        short: is_short(found),
        is_open: has_open_data(marked, found),
        values: asked_values(marked, number, found),
        addresses: Ends::exactly(address_of(found)),
    }
}

/// Whether an object passes a test with a number, by its property of that number: no more is asked of it than the test does.
#[inline(always)]
pub(crate) fn passes(marked: &Marked<'_>, test: Test, number: u16, found: &Option<Property>) -> bool
    requires { IfSome found.now (IsReadable marked.now.story.now.memory) }
    ensures { result ≡ passes test number (cell_of (is_closed (told_by marked.now.story.now marked.now.ranges.now)) (is_fixed (told_by marked.now.story.now marked.now.ranges.now)) marked.now.story.now.memory number found.now) }
{
    match test {
        Test::Answered(PropertyQuestion::Value) => 0 < number && number < 32 && is_short(found),
        Test::Answered(PropertyQuestion::Address) => true,
        Test::Answered(PropertyQuestion::Next) => number == 0 || found.is_some(),
        Test::Put => found.is_some() && is_short(found),
        Test::Open => has_open_data(marked, found),
    }
}

/// The ends of what may be answered of an object and a number, by its property of that number.
#[inline(always)]
pub(crate) fn answer_ends(
    marked: &Marked<'_>,
    question: PropertyQuestion,
    number: u16,
    found: &Option<Property>,
) -> Ends
    requires { IfSome found.now (IsReadable marked.now.story.now.memory) }
    ensures { result ≡ answer_ends question (cell_of (is_closed (told_by marked.now.story.now marked.now.ranges.now)) (is_fixed (told_by marked.now.story.now marked.now.ranges.now)) marked.now.story.now.memory number found.now) }
{
    match question {
        PropertyQuestion::Value => asked_values(marked, number, found),
        PropertyQuestion::Address => Ends::exactly(address_of(found)),
        PropertyQuestion::Next => Ends::NONE,
    }
}

/// Whether a property, if there is one, has at most two bytes of data.
#[inline(always)]
fn is_short(found: &Option<Property>) -> bool
    ensures { result ≡ is_short found.now }
{
    match found {
        Some(property) => property.length <= 2,
        None => true,
    }
}

/// The address of a property's data, 0 where there is none.
pub(crate) fn address_of(found: &Option<Property>) -> u16
    ensures { result ≡ address_of found.now }
{
    match found {
        Some(property) => property.place,
        None => 0,
    }
}

/// Whether each byte of a property's data is open, if there is one.
fn has_open_data(marked: &Marked<'_>, found: &Option<Property>) -> bool
    ensures { result ≡ has_open_data (is_closed (told_by marked.now.story.now marked.now.ranges.now)) found.now }
{
    match found {
        Some(property) => are_open(marked, usize::from(property.place), property.length),
        None => true,
    }
}

/// Whether so many bytes from a place on are open.
#[tactic(auto, unfolding(crate::specs::Cells::has_none))]
fn are_open(marked: &Marked<'_>, place: usize, size: u8) -> bool
    requires { place < 65536 }
    ensures { result ≡ has_none (is_closed (told_by marked.now.story.now marked.now.ranges.now)) place size }
{
    let mut free = true;
    for behind in 0..size {
        free = free && !marked.is_closed(place + usize::from(behind));
    }
    free
}

/// The ends of what the value of a property may be: of no word, where the number isn't that of a property.
#[tactic(auto, using(crate::proofs::Tables::defaults_there))]
#[inline(always)]
fn asked_values(marked: &Marked<'_>, number: u16, found: &Option<Property>) -> Ends
    requires { IfSome found.now (IsReadable marked.now.story.now.memory) }
    ensures { result ≡ asked_values (is_fixed (told_by marked.now.story.now marked.now.ranges.now)) marked.now.story.now.memory number found.now }
{
    if number == 0 || number >= 32 {
        return Ends::NONE;
    }
    match found {
        Some(property) => data_ends(marked, *property),
        None => Ends::exactly(default_word(marked.story.memory(), number)),
    }
}

/// The ends of what a property's data may be.
#[inline(always)]
fn data_ends(marked: &Marked<'_>, property: Property) -> Ends
    requires { IsReadable marked.now.story.now.memory property }
    ensures { result ≡ data_ends (is_fixed (told_by marked.now.story.now marked.now.ranges.now)) marked.now.story.now.memory property }
{
    let place = usize::from(property.place);
    match property.length {
        1 => byte_ends(marked, place),
        2 => word_ends(marked, place),
        _ => Ends::ANY,
    }
}

/// Those of a byte.
#[inline(always)]
fn byte_ends(marked: &Marked<'_>, place: usize) -> Ends
    requires { place < length marked.now.story.now.memory }
    ensures { result ≡ byte_ends (is_fixed (told_by marked.now.story.now marked.now.ranges.now)) marked.now.story.now.memory place }
{
    if !marked.is_fixed(place) {
        return Ends::BYTE;
    }
    Ends::exactly(u16::from(marked.story.memory()[place]))
}

/// Those of two bytes.
#[inline(always)]
fn word_ends(marked: &Marked<'_>, place: usize) -> Ends
    requires small { place < 65536 }
    requires within { place + 1 < length marked.now.story.now.memory }
    ensures { result ≡ word_ends (is_fixed (told_by marked.now.story.now marked.now.ranges.now)) marked.now.story.now.memory place }
{
    let memory = marked.story.memory();
    if !marked.is_word_fixed(place) {
        return Ends::ANY;
    }
    Ends::exactly(u16::from_be_bytes([memory[place], memory[place + 1]]))
}

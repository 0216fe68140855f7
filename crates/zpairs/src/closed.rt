//! Which bytes are closed.

ghost use Rattle.std.specs.Prelude.{◌≡◌, ◌+◌, ◌≤◌, ◌<◌, ◌&&◌, ◌||◌, length, not, nat_lt};
ghost use Rattle.zstory.specs.Objects.{property_table};
ghost use Rattle.ztext.specs.Abbreviations.{readable_word};
ghost use Rattle.zpairs.specs.Fixed.{AreClosed, AreMarkedBelow, AreMarkedToo, any_below, is_flags, is_in_abbreviation, is_in_frame, is_in_text, is_size_place, is_within};

use crate::frozen::{MARK_BYTES, PLACES, mark_ranges};
use zcert::Range;
use zdomain::Marks;
use zplace::{data_end, list_place, name_words, read_length, table_of};
use zstory::{DEFAULTS_LENGTH, GLOBALS_LENGTH, OBJECT_ENTRY_LENGTH, Story};

/// The length of the header (Z 1.1.1.1).
const HEADER_LENGTH: usize = 64;

/// Where Flags 2 stands in the header, a word (Z 11.1).
pub(crate) const FLAGS_2: usize = 0x10;

/// How many abbreviations there are (Z 3.3).
const ABBREVIATIONS: u8 = 96;

/// Marks each byte of dynamic memory that is closed: what the story's own tables take up, and what lies in a range. Each table is gone over
/// once, and each place of each range; static memory, all of which is closed, isn't.
pub(crate) fn mark_closed(marks: &mut Marks<MARK_BYTES>, story: &Story, ranges: &[Range])
    ensures { AreClosed (record { story = story.now; ranges = ranges.now }) marks.new }
{
    let memory = story.memory();
    let entries = OBJECT_ENTRY_LENGTH * usize::from(story.objects());
    mark_ranges(marks, ranges);
    mark_header(marks);
    mark(marks, story.globals(), GLOBALS_LENGTH);
    mark(marks, story.object_table(), DEFAULTS_LENGTH + entries);
    mark_frames(marks, story);
    mark_abbreviations(marks, memory, story.abbreviations(), story.static_base());
}

/// Marks so many places from one on.
pub(crate) fn mark(marks: &mut Marks<MARK_BYTES>, from: usize, size: usize)
    ensures { AreMarkedToo marks.old marks.new (is_within from size) }
{
    for place in from..from.saturating_add(size).min(PLACES) {
        marks.add(place);
    }
}

/// Marks the header without Flags 2.
fn mark_header(marks: &mut Marks<MARK_BYTES>)
    ensures { AreMarkedToo marks.old marks.new (λ p. nat_lt p 64 && not (is_flags p)) }
{
    mark(marks, 0, FLAGS_2);
    mark(marks, FLAGS_2 + 2, HEADER_LENGTH - FLAGS_2 - 2);
}

/// Marks what the property tables of all objects are beside their data.
fn mark_frames(marks: &mut Marks<MARK_BYTES>, story: &Story)
    ensures { AreMarkedToo marks.old marks.new (λ p. any_below story.now.objects (λ below. is_in_frame story.now.memory (property_table story.now.memory (below + 1)) p)) }
{
    for below in 0..story.objects() {
        mark_frame(marks, story, table_of(story, below + 1));
    }
}

/// Marks what one property table is beside its data.
fn mark_frame(marks: &mut Marks<MARK_BYTES>, story: &Story, table: usize)
    requires { table ≤ 65535 }
    ensures { AreMarkedToo marks.old marks.new (is_in_frame story.now.memory table) }
{
    let memory = story.memory();
    let words = usize::from(name_words(memory, table));
    mark(marks, table, 1 + 2 * words);
    mark_sizes(marks, memory, list_place(memory, table));
}

/// Marks the size bytes of a list of properties, with the zero byte at its end.
fn mark_sizes(marks: &mut Marks<MARK_BYTES>, memory: &[u8], first: usize)
    ensures { AreMarkedToo marks.old marks.new (is_size_place (length memory.now) memory.now first) }
{
    let mut at = first;
    while let Some(end) = data_end(memory, at) {
        mark(marks, at, 1);
        at = end;
    }
    if at < memory.len() {
        mark(marks, at, 1);
    }
}

/// Marks all abbreviations of a table, up to an end.
fn mark_abbreviations(marks: &mut Marks<MARK_BYTES>, memory: &[u8], table: usize, end: usize)
    requires table { table < 65536 }
    requires end { end ≤ 65536 }
    ensures { AreMarkedBelow end marks.old marks.new (λ p. any_below 96 (λ n. is_in_abbreviation memory.now table n p)) }
{
    for number in 0..ABBREVIATIONS {
        mark_abbreviation(marks, memory, table + 2 * usize::from(number), end);
    }
}

/// Marks a word of the table, which leads to an abbreviation, and what a reading of its text goes over, up to an end.
fn mark_abbreviation(marks: &mut Marks<MARK_BYTES>, memory: &[u8], entry: usize, end: usize)
    requires { end ≤ 65536 }
    ensures { AreMarkedBelow end marks.old marks.new (λ p. is_within entry 2 p || is_in_text memory.now (readable_word memory.now entry) p) }
{
    mark(marks, entry, 2);
    mark_text(marks, memory, readable_word(memory, entry), end);
}

/// Marks what a reading goes over of the text that a word leads to, up to an end. A text that begins behind it isn't read.
fn mark_text(marks: &mut Marks<MARK_BYTES>, memory: &[u8], found: Option<u16>, end: usize)
    requires { end ≤ 65536 }
    ensures { AreMarkedBelow end marks.old marks.new (is_in_text memory.now found) }
{
    let Some(word) = found else {
        return;
    };
    let place = 2 * usize::from(word);
    if place < end {
        mark(marks, place, read_length(memory, place).min(end - place));
    }
}

/// The word at a place of readable memory.
fn readable_word(memory: &[u8], at: usize) -> Option<u16>
    ensures { result ≡ readable_word memory.now at }
{
    match memory[..memory.len().min(PLACES)].get(at..)? {
        [high, low, ..] => Some(u16::from_be_bytes([*high, *low])),
        _ => None,
    }
}

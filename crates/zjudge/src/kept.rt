//! Bytes that no play changes: in a save they are as loaded.
//!
//! The story's own tables are gone over once, and each place of each range. Only where a byte differs is it asked whether instructions
//! change it.

ghost use Rattle.std.specs.Prelude.{◌≡◌, ◌↔◌, ◌+◌, ◌*◌, ◌≤◌, All, IsTrue};
ghost use Rattle.zstory.specs.LoadedStory.{object_table};
ghost use Rattle.zplace.specs.Bytes.{IsAbbreviation, IsClosed, IsPropertyFrame, IsSizePlace, IsTableFrame, IsWithin};
ghost use Rattle.zpairs.specs.Frozen.{frozen_by};
ghost use Rattle.ztext.specs.Abbreviations.{readable_word};
ghost use Rattle.zjudge.specs.Memory.{AreKept, IsKept};
ghost use Rattle.zjudge.specs.Parts.{IsInText, IsLedTo, IsRangeKept};

use crate::bytes::byte_at;
use zcert::Range;
use zplace::{data_end, is_changing, list_place, name_words, read_length, table_of};
use zstory::{DEFAULTS_LENGTH, OBJECT_ENTRY_LENGTH, Story};

/// The length of the header (Z 1.1.1.1).
const HEADER_LENGTH: usize = 64;

/// How many abbreviations there are (Z 3.3).
const ABBREVIATIONS: u8 = 96;

/// How many bytes of memory a byte address reaches (Z 1.2.1).
const READABLE_LENGTH: usize = 65_536;

/// Whether each byte is as loaded that is closed, unless instructions change it: of the object table, of property tables beside their
/// data, of abbreviations, and of the ranges. Instructions change all globals.
pub(crate) fn are_closed_kept(story: &Story, ranges: &[Range], saved: &[u8]) -> bool
    ensures { IsTrue result ↔ AreKept story.now saved.now (IsClosed story.now (frozen_by ranges.now)) }
{
    if !are_objects_kept(story, saved) {
        return false;
    }
    are_abbreviations_kept(story, saved) && are_ranges_kept(story, ranges, saved)
}

/// Whether the object table and what property tables are beside their data are.
fn are_objects_kept(story: &Story, saved: &[u8]) -> bool
    ensures { IsTrue result ↔ (AreKept story.now saved.now (IsWithin (object_table story.now) (62 + 9 * story.now.objects)) × AreKept story.now saved.now (IsPropertyFrame story.now)) }
{
    are_entries_kept(story, saved) && are_frames_kept(story, saved)
}

/// Whether a byte is.
fn is_kept(story: &Story, saved: &[u8], place: usize) -> bool
    ensures { IsTrue result ↔ IsKept story.now saved.now place }
{
    place < HEADER_LENGTH
        || place >= story.static_base()
        || byte_at(saved, place) == byte_at(story.memory(), place)
        || is_changing(story, place)
}

/// Whether each of so many bytes from a place on is.
fn are_kept(story: &Story, saved: &[u8], from: usize, size: usize) -> bool
    ensures { IsTrue result ↔ AreKept story.now saved.now (IsWithin from size) }
{
    for place in from..from.saturating_add(size).min(story.static_base()) {
        if !is_kept(story, saved, place) {
            return false;
        }
    }
    true
}

/// Whether the object table with its entries is.
fn are_entries_kept(story: &Story, saved: &[u8]) -> bool
    ensures { IsTrue result ↔ AreKept story.now saved.now (IsWithin (object_table story.now) (62 + 9 * story.now.objects)) }
{
    let entries = OBJECT_ENTRY_LENGTH * usize::from(story.objects());
    are_kept(
        story,
        saved,
        story.object_table(),
        DEFAULTS_LENGTH + entries,
    )
}

/// Whether what the property tables of all objects are beside their data is.
fn are_frames_kept(story: &Story, saved: &[u8]) -> bool
    ensures { IsTrue result ↔ AreKept story.now saved.now (IsPropertyFrame story.now) }
{
    for below in 0..story.objects() {
        if !is_frame_kept(story, saved, table_of(story, below + 1)) {
            return false;
        }
    }
    true
}

/// Whether what one property table is beside its data is.
fn is_frame_kept(story: &Story, saved: &[u8], table: usize) -> bool
    requires { table ≤ 65535 }
    ensures { IsTrue result ↔ AreKept story.now saved.now (IsTableFrame story.now.memory table) }
{
    let memory = story.memory();
    let words = usize::from(name_words(memory, table));
    are_kept(story, saved, table, 1 + 2 * words)
        && are_sizes_kept(story, saved, list_place(memory, table))
}

/// Whether the size bytes of a list of properties are, with the zero byte at its end.
fn are_sizes_kept(story: &Story, saved: &[u8], first: usize) -> bool
    ensures { IsTrue result ↔ AreKept story.now saved.now (λ p. IsSizePlace story.now.memory p first) }
{
    let mut at = first;
    while let Some(end) = data_end(story.memory(), at) {
        if !is_kept(story, saved, at) {
            return false;
        }
        at = end;
    }
    is_kept(story, saved, at)
}

/// Whether all abbreviations are.
fn are_abbreviations_kept(story: &Story, saved: &[u8]) -> bool
    ensures { IsTrue result ↔ AreKept story.now saved.now (IsAbbreviation story.now) }
{
    for number in 0..ABBREVIATIONS {
        let entry = story.abbreviations() + 2 * usize::from(number);
        if !is_abbreviation_kept(story, saved, entry) {
            return false;
        }
    }
    true
}

/// Whether a word that leads to an abbreviation is, and what a reading of its text goes over.
fn is_abbreviation_kept(story: &Story, saved: &[u8], entry: usize) -> bool
    ensures { IsTrue result ↔ AreKept story.now saved.now (IsLedTo story.now.memory entry) }
{
    let word = readable_word(story.memory(), entry);
    are_kept(story, saved, entry, 2) && is_text_kept(story, saved, word)
}

/// Whether what a reading goes over of the text that a word leads to is.
fn is_text_kept(story: &Story, saved: &[u8], found: Option<u16>) -> bool
    ensures { IsTrue result ↔ AreKept story.now saved.now (IsInText story.now.memory found) }
{
    match found {
        Some(word) => {
            let place = 2 * usize::from(word);
            are_kept(story, saved, place, read_length(story.memory(), place))
        }
        None => true,
    }
}

/// The word at a place of readable memory.
fn readable_word(memory: &[u8], at: usize) -> Option<u16>
    ensures { result ≡ readable_word memory.now at }
{
    match memory[..memory.len().min(READABLE_LENGTH)].get(at..)? {
        [high, low, ..] => Some(u16::from_be_bytes([*high, *low])),
        _ => None,
    }
}

/// Whether each place of each range is.
fn are_ranges_kept(story: &Story, ranges: &[Range], saved: &[u8]) -> bool
    ensures { IsTrue result ↔ All (IsRangeKept story.now saved.now) ranges.now }
{
    for index in 0..ranges.len() {
        if !is_range_kept(story, ranges[index], saved) {
            return false;
        }
    }
    true
}

/// Whether each place of one range is.
fn is_range_kept(story: &Story, range: Range, saved: &[u8]) -> bool
    ensures { IsTrue result ↔ IsRangeKept story.now saved.now range }
{
    let first = usize::from(range.first);
    let end = usize::from(range.last) + 1;
    are_kept(story, saved, first, end.saturating_sub(first))
}

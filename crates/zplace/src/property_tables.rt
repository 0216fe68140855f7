//! What is asked of the property tables of a story's objects.

ghost use Rattle.std.specs.Prelude.{◌≡◌, ◌↔◌, ◌+◌, ◌*◌, ◌≤◌, ◌<◌, ℕ, IsTrue, length};
ghost use Rattle.zstory.specs.LoadedStory.{globals, object_table};
ghost use Rattle.zstory.specs.Objects.{property_table};
ghost use Rattle.zobj.specs.Properties.{list_place};
ghost use Rattle.ztext.specs.Local.{read_length};
ghost use Rattle.zplace.specs.Bytes.{IsAbbreviation, IsChanging, IsPropertyFrame, IsSizePlace, IsTableFrame};
ghost use Rattle.zplace.specs.Places.{AbbreviationLeavesData, AreDataApart, LeavesData, TextLeavesData};
ghost use Rattle.zplace.specs.declared.places.Places.TheVariants.{Run};
ghost use Rattle.zplace.specs.Tables.{HasName, HasPropertyTables, IsList, IsPropertyData, IsPropertyTable};

use crate::bytes::{is_changing, is_unchanging};
use crate::places::{Places, data_end, leaves_data, list_place, name_words, table_of};
use zstory::{DEFAULTS_LENGTH, GLOBALS_LENGTH, OBJECT_ENTRY_LENGTH, Story};
use ztext::text_length;

/// The length of the header (Z 1.1.1.1).
const HEADER_LENGTH: usize = 64;

/// A number above those of all properties, which are 1 to 31 (Z 12.2).
const PROPERTY_NUMBERS: u8 = 32;

/// How many abbreviations there are (Z 3.3).
const ABBREVIATIONS: u8 = 96;

/// How many bytes of memory a byte address reaches (Z 1.2.1).
const READABLE_LENGTH: usize = 65_536;

/// Whether each object of a story has a property table: in dynamic memory behind the header, a name of as many words as are
/// stated, and properties with falling numbers from 1 to 31 and a zero byte behind them (Z 12.4). No instruction changes a byte
/// of one without asking, and stores may write each byte of its data that isn't frozen (own).
pub fn has_property_tables(story: &Story) -> bool
    ensures { IsTrue result ↔ HasPropertyTables story.now }
{
    if !are_tables(story) {
        return false;
    }
    are_frames_still(story) && are_data_apart(story)
}

/// Whether each object has a property table.
fn are_tables(story: &Story) -> bool
    ensures { IsTrue result ↔ ((object : ℕ) → 1 ≤ object → object ≤ story.now.objects → IsPropertyTable story.now (property_table story.now.memory object)) }
{
    for below in 0..story.objects() {
        if !is_table(story, table_of(story, below + 1)) {
            return false;
        }
    }
    true
}

/// Whether a property table stands at a place.
fn is_table(story: &Story, table: usize) -> bool
    requires { table ≤ 65535 }
    ensures { IsTrue result ↔ IsPropertyTable story.now table }
{
    let memory = story.memory();
    table >= HEADER_LENGTH
        && has_name(memory, table)
        && is_list(memory, story.static_base(), list_place(memory, table))
}

/// Whether a property table has no name, or one of just as many words as it states.
fn has_name(memory: &[u8], table: usize) -> bool
    requires { table ≤ 65535 }
    ensures { IsTrue result ↔ HasName memory.now table }
{
    let words = name_words(memory, table);
    words == 0 || text_length(memory, table + 1) == Some(2 * usize::from(words))
}

/// Whether a list of properties stands at a place, wholly below an end.
fn is_list(memory: &[u8], end: usize, first: usize) -> bool
    requires { end ≤ length memory.now }
    ensures { IsTrue result ↔ IsList memory.now end 32 first }
{
    let mut bound = PROPERTY_NUMBERS;
    let mut at = first;
    while at < end {
        let size = memory[at];
        let number = size % PROPERTY_NUMBERS;
        if size == 0 {
            return true;
        }
        if number == 0 || number >= bound {
            return false;
        }
        bound = number;
        at += 2 + usize::from(size / PROPERTY_NUMBERS);
    }
    false
}

/// Whether no instruction changes, without asking, a byte of a property table beside its data.
fn are_frames_still(story: &Story) -> bool
    ensures { IsTrue result ↔ ((p : ℕ) → IsPropertyFrame story.now p → IsChanging story.now p → ⊥) }
{
    for below in 0..story.objects() {
        if !is_frame_still(story, table_of(story, below + 1)) {
            return false;
        }
    }
    true
}

/// Whether none does of one property table.
fn is_frame_still(story: &Story, table: usize) -> bool
    requires { table ≤ 65535 }
    ensures { IsTrue result ↔ ((p : ℕ) → IsTableFrame story.now.memory table p → IsChanging story.now p → ⊥) }
{
    let memory = story.memory();
    let words = usize::from(name_words(memory, table));
    is_unchanging(story, table, 1 + 2 * words) && are_sizes_still(story, list_place(memory, table))
}

/// Whether none changes a size byte of a list of properties.
fn are_sizes_still(story: &Story, first: usize) -> bool
    ensures { IsTrue result ↔ ((p : ℕ) → IsSizePlace story.now.memory p first → IsChanging story.now p → ⊥) }
{
    let mut at = first;
    while let Some(end) = data_end(story.memory(), at) {
        if !is_still(story, at) {
            return false;
        }
        at = end;
    }
    is_still(story, at) // the zero byte at its end
}

/// Whether none changes the byte at a place, or it lies outside memory.
fn is_still(story: &Story, at: usize) -> bool
    ensures { IsTrue result ↔ (at < length story.now.memory → IsChanging story.now at → ⊥) }
{
    at >= story.length() || !is_changing(story, at)
}

/// Whether property data lie apart from all that isn't theirs: the globals, the object table, abbreviations, and what property
/// tables are beside their data.
fn are_data_apart(story: &Story) -> bool
    ensures { IsTrue result ↔ AreDataApart story.now }
{
    if !tables_leave_data(story) {
        return false;
    }
    abbreviations_leave_data(story) && frames_leave_data(story)
}

/// Whether they lie apart from the globals and the object table.
fn tables_leave_data(story: &Story) -> bool
    ensures { IsTrue result ↔ (LeavesData story.now (Run (globals story.now) 480) × LeavesData story.now (Run (object_table story.now) (62 + 9 * story.now.objects))) }
{
    leaves_data(story, Places::Run(story.globals(), GLOBALS_LENGTH))
        && leaves_data(story, object_entries(story))
}

/// The object table with its entries.
fn object_entries(story: &Story) -> Places
    ensures { result ≡ Run (object_table story.now) (62 + 9 * story.now.objects) }
{
    let entries = OBJECT_ENTRY_LENGTH * usize::from(story.objects());
    Places::Run(story.object_table(), DEFAULTS_LENGTH + entries)
}

/// Whether property data lie apart from what property tables are beside them.
fn frames_leave_data(story: &Story) -> bool
    ensures { IsTrue result ↔ ((p : ℕ) → IsPropertyFrame story.now p → IsPropertyData story.now p → ⊥) }
{
    for below in 0..story.objects() {
        if !frame_leaves_data(story, table_of(story, below + 1)) {
            return false;
        }
    }
    true
}

/// Whether they lie apart from what one property table is beside its data.
fn frame_leaves_data(story: &Story, table: usize) -> bool
    requires { table ≤ 65535 }
    ensures { IsTrue result ↔ ((p : ℕ) → IsTableFrame story.now.memory table p → IsPropertyData story.now p → ⊥) }
{
    let memory = story.memory();
    let words = usize::from(name_words(memory, table));
    leaves_data(story, Places::Run(table, 1 + 2 * words))
        && leaves_data(story, Places::Sizes(list_place(memory, table)))
}

/// Whether property data lie apart from abbreviations and the words that lead to them.
fn abbreviations_leave_data(story: &Story) -> bool
    ensures { IsTrue result ↔ ((p : ℕ) → IsAbbreviation story.now p → IsPropertyData story.now p → ⊥) }
{
    for number in 0..ABBREVIATIONS {
        if !abbreviation_leaves_data(story, number) {
            return false;
        }
    }
    true
}

/// Whether they lie apart from one abbreviation and the word that leads to it.
fn abbreviation_leaves_data(story: &Story, number: u8) -> bool
    requires { number < 96 }
    ensures { IsTrue result ↔ AbbreviationLeavesData story.now number }
{
    let entry = story.abbreviations() + 2 * usize::from(number);
    leaves_data(story, Places::Run(entry, 2)) && text_leaves_data(story, entry)
}

/// Whether they lie apart from what a reading goes over of the text that the word at a place leads to.
fn text_leaves_data(story: &Story, entry: usize) -> bool
    requires { entry ≤ 1000000 }
    ensures { IsTrue result ↔ TextLeavesData story.now entry }
{
    let memory = story.memory();
    if entry + 1 >= memory.len().min(READABLE_LENGTH) {
        return true;
    }
    let place = 2 * usize::from(u16::from_be_bytes([memory[entry], memory[entry + 1]]));
    let size = read_length(memory, place);
    leaves_data(story, Places::Run(place, size))
}

/// How many bytes a reading of the text at a place goes over: all that is left of memory, where the text has no end.
pub fn read_length(memory: &[u8], at: usize) -> usize
    ensures { result ≡ read_length memory.now at }
{
    match text_length(memory, at) {
        Some(size) => size,
        None => memory.len().saturating_sub(at),
    }
}

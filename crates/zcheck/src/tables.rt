//! What rules on a story ask of its globals, its abbreviations and its tables.

ghost use Rattle.std.specs.Prelude.{◌≡◌, ◌↔◌, ◌+◌, ◌*◌, ◌≤◌, ◌<◌, IsTrue};
ghost use Rattle.std.specs.List.{All};
ghost use Rattle.zrule.specs.Claims.{claims_of, frozen_in};
ghost use Rattle.zstory.specs.LoadedStory.{abbreviations};
ghost use Rattle.zplace.specs.Bytes.{IsUnchanging};
ghost use Rattle.zrule.specs.Rules.{global_in, HasAbbreviations, HasDisjointTables, HasGlobals};
ghost use Rattle.zcheck.specs.Tables.{HasAbbreviation, IsFrozenApart, AreApart};

use zcert::{Certificate, Range, Spelled};
use zplace::is_unchanging;
use zstory::{DEFAULTS_LENGTH, GLOBALS_LENGTH, OBJECT_ENTRY_LENGTH, Story};
use ztext::plain_abbreviation;

/// How many abbreviations there are (Z 3.3).
const ABBREVIATIONS: u8 = 96;

/// The length of the header, behind which ranges may be frozen (Z 1.1.1.1).
const HEADER_LENGTH: usize = 64;

/// Whether each global lies in its set as it is loaded.
pub(crate) fn has_globals<V: Spelled>(story: &Story, certificate: &Certificate<V>) -> bool
    ensures { IsTrue result ↔ HasGlobals V.operations (claims_of V.operations certificate.now) story.now story.now.memory }
{
    let sets = certificate.globals();
    for index in 0..sets.len() {
        if !sets[index].contains(global_at(story, index)) {
            return false;
        }
    }
    true
}

/// The value of a global as it is loaded, counted from variable 16.
fn global_at(story: &Story, index: usize) -> u16
    requires { index < 240 }
    ensures { result ≡ global_in story.now story.now.memory index }
{
    let memory = story.memory();
    let place = story.globals() + 2 * index;
    u16::from_be_bytes([memory[place], memory[place + 1]])
}

/// Whether each abbreviation is whole, uses none, and stays as it is.
pub(crate) fn has_abbreviations(story: &Story) -> bool
    ensures { IsTrue result ↔ HasAbbreviations story.now }
{
    for number in 0..ABBREVIATIONS {
        if !has_abbreviation(story, number) {
            return false;
        }
    }
    true
}

/// Whether an abbreviation is whole and uses none, and no instruction changes its text or the word that leads to it.
fn has_abbreviation(story: &Story, number: u8) -> bool
    requires { number < 96 }
    ensures { IsTrue result ↔ HasAbbreviation story.now number }
{
    match plain_abbreviation(story.memory(), number) {
        Some(text) => {
            is_entry_unchanging(story, number) && is_unchanging(story, text.place, text.size)
        }
        None => false,
    }
}

/// Whether no instruction changes the word that leads to an abbreviation.
fn is_entry_unchanging(story: &Story, number: u8) -> bool
    requires { number < 96 }
    ensures { IsTrue result ↔ IsUnchanging story.now (abbreviations story.now + 2 * number) 2 }
{
    let entry = story.abbreviations() + 2 * usize::from(number);
    is_unchanging(story, entry, 2)
}

/// Whether the globals and the object table share no byte, and each range lies where it may be frozen.
pub(crate) fn has_disjoint_tables<V: Spelled>(story: &Story, certificate: &Certificate<V>) -> bool
    ensures { IsTrue result ↔ HasDisjointTables story.now (frozen_in (claims_of V.operations certificate.now)) }
{
    are_tables_apart(story) && are_frozen_apart(story, certificate.ranges())
}

/// Whether each of these ranges lies where it may be frozen.
fn are_frozen_apart(story: &Story, ranges: &[Range]) -> bool
    ensures { IsTrue result ↔ All (IsFrozenApart story.now) ranges.now }
{
    ranges.iter().all(|range| is_frozen_apart(story, *range))
}

/// Whether the globals, and the object table with its entries, share no byte.
fn are_tables_apart(story: &Story) -> bool
    ensures { IsTrue result ↔ AreApart story.now }
{
    let globals = story.globals();
    let objects = story.object_table();
    let entries = OBJECT_ENTRY_LENGTH * usize::from(story.objects());
    is_before(globals, GLOBALS_LENGTH, objects)
        || is_before(objects, DEFAULTS_LENGTH + entries, globals)
}

/// Whether so many bytes from one place on end at another or before it.
fn is_before(from: usize, size: usize, to: usize) -> bool
    ensures { IsTrue result ↔ from + size ≤ to }
{
    from <= to && size <= to - from
}

/// Whether a range lies in dynamic memory behind the header, where no instruction changes it.
fn is_frozen_apart(story: &Story, range: Range) -> bool
    ensures { IsTrue result ↔ IsFrozenApart story.now range }
{
    let first = usize::from(range.first);
    let end = usize::from(range.last) + 1;
    if first < HEADER_LENGTH || end > story.static_base() {
        return false;
    }
    let size = end.saturating_sub(first);
    is_unchanging(story, first, size)
}

//! What is known of a single element.

ghost use Rattle.std.specs.Prelude.{◌≡◌, ◌≤◌, ◌<◌, length, not};
ghost use Rattle.zstory.specs.LoadedStory.{static_base};
ghost use Rattle.zstory.specs.Bytes.{byte_at, word_at};
ghost use Rattle.zarray.specs.Arrays.{value_at};
ghost use Rattle.zpairs.specs.Fixed.{is_closed, is_fixed};
ghost use Rattle.zpairs.specs.Frozen.{told_by};
ghost use Rattle.zarray.specs.declared.width.Width.TheVariants.{Byte, Word};
ghost use Rattle.zruns.specs.Runs.{each_byte, fixed_value};

use zarray::Width;
use zpairs::Marked;

/// Whether each byte of an element is open.
#[inline(always)]
pub(crate) fn are_open(marked: Marked<'_>, width: Width, place: usize) -> bool
    requires { place < 65536 }
    ensures { result ≡ each_byte width (λ q. not (is_closed (record { story = marked.entry.story.now; ranges = marked.entry.ranges.now }) q)) place }
{
    match width {
        Width::Byte => !marked.is_closed(place),
        Width::Word => !marked.is_closed(place) && !marked.is_closed(place + 1),
    }
}

/// Whether no play changes a byte of it.
#[inline(always)]
pub(crate) fn are_fixed(marked: Marked<'_>, width: Width, place: usize) -> bool
    requires { place < 65536 }
    ensures { result ≡ each_byte width (is_fixed (record { story = marked.entry.story.now; ranges = marked.entry.ranges.now })) place }
{
    match width {
        Width::Byte => marked.is_fixed(place),
        Width::Word => marked.is_fixed(place) && marked.is_fixed(place + 1),
    }
}

/// The element at a place, if no play changes a byte of it.
#[inline(always)]
pub(crate) fn fixed_value(
    marked: &Marked<'_>,
    memory: &[u8],
    width: Width,
    place: usize,
) -> Option<u16>
    requires place { place < 65536 }
    requires long { static_base marked.now.story.now ≤ length memory.now }
    ensures { result ≡ fixed_value (is_fixed (told_by marked.now.story.now marked.now.ranges.now)) width memory.now place }
{
    match width {
        Width::Byte => fixed_byte(marked, memory, place),
        Width::Word => fixed_word(marked, memory, place),
    }
}

/// The byte there, if no play changes it.
#[inline(always)]
fn fixed_byte(marked: &Marked<'_>, memory: &[u8], place: usize) -> Option<u16>
    ensures { result ≡ fixed_value (is_fixed (told_by marked.now.story.now marked.now.ranges.now)) Byte memory.now place }
{
    if marked.is_fixed(place) {
        Some(u16::from(byte_at(memory, place)))
    } else {
        None
    }
}

/// The word there, if no play changes a byte of it. Where both lie in dynamic memory, one look at the marks tells it, and memory has them.
#[inline(always)]
fn fixed_word(marked: &Marked<'_>, memory: &[u8], place: usize) -> Option<u16>
    requires place { place < 65536 }
    requires long { static_base marked.now.story.now ≤ length memory.now }
    ensures { result ≡ fixed_value (is_fixed (told_by marked.now.story.now marked.now.ranges.now)) Word memory.now place }
{
    if !marked.is_word_fixed(place) {
        return None;
    }
    if place + 1 < marked.base {
        return Some(u16::from_be_bytes([memory[place], memory[place + 1]]));
    }
    Some(word_at(memory, place))
}

/// The element at a place, where memory may have ended.
#[inline(always)]
pub(crate) fn value_at(width: Width, memory: &[u8], place: usize) -> u16
    requires { place < 65536 }
    ensures { result ≡ value_at width memory.now place }
{
    match width {
        Width::Byte => u16::from(byte_at(memory, place)),
        Width::Word => word_at(memory, place),
    }
}

/// The word at a place, where memory may have ended. It is one test where it hasn't.
#[inline(always)]
fn word_at(memory: &[u8], place: usize) -> u16
    requires { place < 65536 }
    ensures { result ≡ word_at memory.now place }
{
    if place + 1 < memory.len() {
        return u16::from_be_bytes([memory[place], memory[place + 1]]);
    }
    u16::from_be_bytes([byte_at(memory, place), byte_at(memory, place + 1)])
}

/// The byte at a place, and 0 outside memory.
#[inline(always)]
pub(crate) fn byte_at(memory: &[u8], place: usize) -> u8
    ensures { result ≡ byte_at memory.now place }
{
    match memory.get(place) {
        Some(byte) => *byte,
        None => 0,
    }
}

//! Reading a save.

ghost use Rattle.std.specs.Prelude.{◌≡◌, ◌<◌, ◌^◌, length, drop, IfErr, IfOk, OnOk, Ok};
ghost use Rattle.byteorder.specs.Endian.{big_number};
ghost use Rattle.zquetzal.specs.Saved.{Saved};
ghost use Rattle.zquetzal.specs.Grammar.{ReadsAs};
ghost use Rattle.zquetzal.specs.Reading.{body_of, parts_at, is_of, reading};
ghost use Rattle.zquetzal.specs.Causes.{IsCause, IsLowest, HasNone};
ghost use Rattle.zquetzal.specs.View.{Gives, seen_parts};

use crate::error::SaveError;
use crate::frames::count_frames;
use crate::limits::{FORM, FORM_HEAD, IFZS};
use crate::survey::{Parts, surveyed};
use crate::view::SaveView;
use byteorder::{BigEndian, ByteOrder};
use zstory::Story;

/// The chunks of the form that the bytes are.
#[tactic(auto, unfolding(crate::specs::Reading::body_of))]
fn body_of(bytes: &[u8]) -> Result<&[u8], SaveError>
    ensures { Gives (λ x. x.now) result (body_of bytes.now) }
{
    if bytes.len() < FORM_HEAD
        || BigEndian::read_u32(bytes) != FORM
        || BigEndian::read_u32(&bytes[8..]) != IFZS
    {
        return Err(SaveError::NotForm);
    }
    if BigEndian::read_u32(&bytes[4..]) as usize + 8 != bytes.len() {
        return Err(SaveError::Length);
    }
    Ok(&bytes[FORM_HEAD..])
}

/// The data of the chunks that are read.
fn parts_of(body: &[u8]) -> Result<Parts<'_>, SaveError>
    ensures value { Gives seen_parts result (parts_at body.now) }
    ensures header { IfOk result (λ p. length p.header.now ≡ 13) }
{
    surveyed(body)?.parts()
}

/// Whether the data of `IFhd` are of the story (Q 5). Either checksum is taken (own).
fn is_of(story: &Story, header: &[u8]) -> bool
    requires { length header.now ≡ 13 }
    ensures { result ≡ is_of story.now header.now }
{
    let identity = story.identity();
    let checksum = BigEndian::read_u16(&header[8..]);
    BigEndian::read_u16(header) == identity.release
        && &header[2..8] == identity.serial.as_slice()
        && (checksum == story.save_checksum() || checksum == identity.checksum)
}

/// The place of `IFhd` (Q 5).
fn place_of(header: &[u8]) -> u32
    requires { length header.now ≡ 13 }
    ensures value { result ≡ big_number 3 (drop 10 header.now) }
    ensures low { result < 2 ^ 24 }
{
    let (_, place) = header.split_at(10);
    BigEndian::read_u24(place)
}

/// What the bytes tell, or the first refusal.
#[tactic(auto, unfolding(crate::specs::Reading::reading))]
fn view_of<'a>(story: &Story, bytes: &'a [u8]) -> Result<SaveView<'a>, SaveError>
    ensures { result ≡ reading story.now bytes.now }
{
    let parts = parts_of(body_of(bytes)?)?;
    if !is_of(story, parts.header) {
        return Err(SaveError::OtherStory);
    }
    if parts.memory.len() != story.static_base() {
        return Err(SaveError::MemoryLength);
    }
    let frame_count = count_frames(parts.stacks)?;
    let place = place_of(parts.header);
    Ok(SaveView::new(parts.memory, place, parts.stacks, frame_count))
}

/// Reads a save of a story. It goes over the bytes once and takes no memory.
///
/// # Errors
///
/// The first cause in the order of [`SaveError`] that holds of the bytes.
pub fn read<'a>(story: &Story, bytes: &'a [u8]) -> Result<SaveView<'a>, SaveError>
    // What is read stands in the bytes.
    ensures found { IfOk result (ReadsAs story.now bytes.now) }
    // A save is read.
    ensures only { (s : Saved) → ReadsAs story.now bytes.now s → result ≡ Ok s }
    // Of the causes that hold, the lowest.
    ensures lowest_cause { IfErr result (IsLowest (IsCause story.now bytes.now)) }
    ensures no_cause { OnOk result (HasNone (IsCause story.now bytes.now)) }
    // Which refusal it is, as the reader finds it.
    ensures exact { result ≡ reading story.now bytes.now }
{
    view_of(story, bytes)
}

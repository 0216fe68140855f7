//! Unpacking a save.

ghost use Rattle.std.specs.Prelude.{◌≡◌, ◌≤◌, true, length, Ok, IfErr, IfOk, OnOk};
ghost use Rattle.zstory.specs.LoadedStory.{static_base};
ghost use Rattle.zquetzal.specs.declared.error.SaveError.TheVariants.{Compressed};
ghost use Rattle.zquetzal.specs.Saved.{Saved, origin_of};
ghost use Rattle.zquetzal.specs.Grammar.{save_text};
ghost use Rattle.zquetzal.specs.Reading.{reading};
ghost use Rattle.zquetzal.specs.Causes.{IsCause as IsSaveCause, IsLowest as IsLowestOfSave};
ghost use Rattle.zunpack.specs.declared.error.UnpackError.TheVariants.{OutOfMemory};
ghost use Rattle.zunpack.specs.PackedSave.{PackedAs};
ghost use Rattle.zunpack.specs.View.{AreTaken, FailsFor, HasParts, ReadsBack, plain_bytes, refusal_of, seen_parts, told};
ghost use Rattle.zunpack.specs.Causes.{IsCause, IsLowest, IsRefused, HasNone};

use crate::error::UnpackError;
use crate::limits::FORM_HEAD;
use crate::parts::{Parts, check_parts, parts_of};
use crate::writing::plain_text;
use std::alloc::Global;
use zquetzal::SaveError;
use zstory::Story;

/// Why a file can't be unpacked that is refused so as a save. Nothing speaks against it where only its memory is compressed; else it is plain.
fn refusal_of(error: SaveError) -> Option<UnpackError>
    ensures { result ≡ refusal_of error }
{
    match error {
        SaveError::NotForm => Some(UnpackError::NotForm),
        SaveError::Length => Some(UnpackError::Length),
        SaveError::ChunkMissing => Some(UnpackError::ChunkMissing),
        SaveError::ChunkTwice => Some(UnpackError::ChunkTwice),
        SaveError::Compressed => None,
        SaveError::OtherStory
        | SaveError::MemoryLength
        | SaveError::Frames
        | SaveError::Place
        | SaveError::NotDescribed
        | SaveError::OutOfMemory => Some(UnpackError::Plain),
    }
}

/// Whether the file would be a save but for its memory, which is compressed.
fn check_form(story: &Story, file: &[u8]) -> Result<(), UnpackError>
    ensures ok { OnOk result (IsLowestOfSave (IsSaveCause story.now file.now) Compressed) }
    ensures err { IfErr result (IsLowest (IsCause story.now file.now)) }
{
    let Err(error) = zquetzal::read(story, file) else {
        return Err(UnpackError::Plain);
    };
    match refusal_of(error) {
        Some(refusal) => Err(refusal),
        None => Ok(()),
    }
}

/// The parts of a file that would be a save but for its memory, which is compressed.
fn packed_parts<'a>(story: &Story, file: &'a [u8]) -> Result<Parts<'a>, UnpackError>
    ensures ok { IfOk result (λ parts. HasParts file.now (seen_parts parts)) }
    ensures err { IfErr result (IsLowest (IsCause story.now file.now)) }
{
    check_form(story, file)?;
    parts_of(&file[FORM_HEAD..])
}

/// Those parts, where they are of the story and their memory can be unpacked. Their frames are unread.
fn taken_parts<'a>(story: &Story, file: &'a [u8]) -> Result<Parts<'a>, UnpackError>
    ensures parts { IfOk result (λ parts. HasParts file.now (seen_parts parts)) }
    ensures taken { IfOk result (λ parts. AreTaken story.now (seen_parts parts)) }
    ensures err { IfErr result (IsRefused (IsCause story.now file.now)) }
{
    let parts = packed_parts(story, file)?;
    check_parts(story, parts)?;
    Ok(parts)
}

/// Whether a text is read as a save.
fn is_save(story: &Story, text: &[u8]) -> bool
    ensures { ReadsBack story.now text.now result }
{
    zquetzal::read(story, text).is_ok()
}

/// The plain save that is made of the parts of a compressed one, if their frames can be read.
fn rewritten(alloc: Global, story: &Story, parts: Parts<'_>) -> Result<Vec<u8>, UnpackError>
    requires long { length parts.header.now ≡ 13 }
    requires short { length parts.stacks.now ≤ 537149476 }
    requires fits { length (told parts.packed.now) ≤ static_base story.now }
    ensures text { IfOk result (λ text. text.items ≡ plain_bytes story.now (seen_parts parts.entry)) }
    ensures read { OnOk result (ReadsBack story.now (plain_bytes story.now (seen_parts parts.entry)) true) }
    ensures err { IfErr result (FailsFor story.now (plain_bytes story.now (seen_parts parts.entry))) }
{
    let text = plain_text(alloc, story, parts)?;
    if !is_save(story, &text) {
        return Err(UnpackError::Frames);
    }
    Ok(text)
}

/// Rewrites a save whose memory is compressed (`CMem`) as a plain one: what a save of the same state is, as it is written here. Other chunks
/// are left out. It goes over the file some times, and takes memory for what it answers alone: no more than the file, the story's dynamic
/// memory and 64 bytes.
///
/// # Errors
///
/// The first cause in the order of [`UnpackError`] that holds of the file; `OutOfMemory` where memory was refused, if none before
/// `Frames` holds.
pub fn unpack(alloc: Global, story: &Story, file: &[u8]) -> Result<Vec<u8>, UnpackError>
    // The file is a compressed save, and what is answered is the plain one that tells the same.
    ensures found { IfOk result (λ text. (s : Saved) × PackedAs story.now file.now s × (text.items ≡ save_text (origin_of story.now) s)) }
    // It is read as what the file tells.
    ensures read { (s : Saved) → PackedAs story.now file.now s → IfOk result (λ text. reading story.now text.items ≡ Ok s) }
    // A compressed save is refused for want of memory alone.
    ensures only { (s : Saved) → PackedAs story.now file.now s → IfErr result (λ e. e ≡ OutOfMemory) }
    // Of the causes that hold, the lowest.
    ensures lowest_cause { IfErr result (IsRefused (IsCause story.now file.now)) }
    ensures no_cause { OnOk result (HasNone (IsCause story.now file.now)) }
{
    let parts = taken_parts(story, file)?;
    rewritten(alloc, story, parts)
}

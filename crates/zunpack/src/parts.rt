//! The parts of a compressed save.

ghost use Rattle.std.specs.Prelude.{◌≡◌, ◌<◌, ◌≤◌, List, length, IfErr, IfOk, OnOk};
ghost use Rattle.zstory.specs.LoadedStory.{IsSound, static_base};
ghost use Rattle.zquetzal.specs.Grammar.{Chunk as SavedChunk};
ghost use Rattle.zquetzal.specs.Reading.{is_of};
ghost use Rattle.zunpack.specs.declared.error.UnpackError.TheVariants.{ChunkTwice};
ghost use Rattle.zunpack.specs.Causes.{RepeatsPart};
ghost use Rattle.zunpack.specs.PackedSave.{dynamic_of};
ghost use Rattle.zunpack.specs.View.{AreTaken, ArePartsOf, ArgueAgainst, IsCut, IsJudged, seen_parts};

use crate::chunk::only;
use crate::error::UnpackError;
use crate::limits::{CMEM, IFHD, LONGEST_STACKS, STKS, UMEM};
use crate::memory::check_memory;
use byteorder::{BigEndian, ByteOrder};
use zstory::Story;

/// The data of the chunks that are read.
#[derive(Clone, Copy)]
pub(crate) struct Parts<'a> {
    pub(crate) header: &'a [u8],
    pub(crate) packed: &'a [u8],
    pub(crate) stacks: &'a [u8],
}

/// The parts of a form whose memory is compressed. Each has to be there once, and no memory beside the compressed one.
pub(crate) fn parts_of(body: &[u8]) -> Result<Parts<'_>, UnpackError>
    requires { IsJudged body.now }
    ensures found { IfOk result (λ parts. (chunks : List SavedChunk) → IsCut body.now chunks → ArePartsOf chunks (seen_parts parts)) }
    ensures twice { IfErr result (λ e. (e ≡ ChunkTwice) × ((chunks : List SavedChunk) → IsCut body.now chunks → RepeatsPart chunks)) }
{
    if only(body, UMEM).is_some() {
        return Err(UnpackError::ChunkTwice);
    }
    let Some(header) = only(body, IFHD) else {
        return Err(UnpackError::ChunkTwice);
    };
    let Some(packed) = only(body, CMEM) else {
        return Err(UnpackError::ChunkTwice);
    };
    let Some(stacks) = only(body, STKS) else {
        return Err(UnpackError::ChunkTwice);
    };
    Ok(Parts {
        header,
        packed,
        stacks,
    })
}

/// Whether the data of `IFhd` are of the story (Q 5). Either checksum is taken (own).
fn is_of(story: &Story, header: &[u8]) -> bool
    requires { length header.now ≡ 13 }
    ensures { result ≡ is_of story.now header.now }
{
    let identity = story.identity();
    let checksum = BigEndian::read_u16(&header[8..]);
    BigEndian::read_u16(header) == identity.release
        && &header[2..8] == identity.serial.as_slice()
        && (checksum == story.save_checksum() || checksum == identity.checksum)
}

/// Dynamic memory as the story was loaded (Z 1.1).
pub(crate) fn dynamic_memory(story: &Story) -> &[u8]
    ensures value { result.now ≡ dynamic_of story.now }
    ensures long { length result.now ≡ static_base story.now }
    ensures few { length result.now ≤ 131072 }
    ensures sound { IsSound story.now.memory }
{
    &story.memory()[..story.static_base()]
}

/// Whether the parts are of the story, with memory that can be unpacked, and frames that aren't longer than any can be.
pub(crate) fn check_parts(story: &Story, parts: Parts<'_>) -> Result<(), UnpackError>
    requires long { length parts.header.now ≡ 13 }
    requires short { length parts.packed.now < 4294967296 }
    ensures ok { OnOk result (AreTaken story.now (seen_parts parts.entry)) }
    ensures err { IfErr result (ArgueAgainst story.now (seen_parts parts.entry)) }
{
    if !is_of(story, parts.header) {
        return Err(UnpackError::OtherStory);
    }
    check_memory(dynamic_memory(story), parts.packed)?;
    if parts.stacks.len() > LONGEST_STACKS {
        return Err(UnpackError::Frames);
    }
    Ok(())
}

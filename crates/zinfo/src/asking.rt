//! The facts of a story.

ghost use Rattle.std.specs.Prelude.{◌≡◌, IfOk};
ghost use Rattle.zstory.specs.Dictionary.{entry_count};
ghost use Rattle.zinfo.specs.Info.{IsCodeOf, IsInfoOf, checksum_by, heading_of};

use crate::counting::unplayed;
use crate::facts::{Checksum, Code, Heading, Info};
use byteorder::{BigEndian, ByteOrder};
use std::alloc::{AllocError, Global};
use zlist::{ListError, list_story};
use zstory::Story;

/// What is told of a story: what its header states (Z 11.1), whether its checksum is right (Z 15), how many objects and words of the
/// dictionary it has, how many routines and instructions it lists, or what is at fault lowest where it has no listing, and at how many
/// addresses code meets each of the opcodes that aren't played. Fails only for want of memory.
pub fn info(alloc: Global, story: &Story) -> Result<Info, AllocError>
    ensures { IfOk result (IsInfoOf story.now) }
{
    let identity = story.identity();
    let serial = identity.serial;
    let code = code_of(alloc, story)?;
    Ok(Info {
        release: identity.release,
        serial,
        length: identity.length,
        checksum: checksum_by(identity.checksum, story.file_sum()),
        objects: story.objects(),
        words: word_count(story),
        code,
        unplayed: unplayed(alloc, story)?,
    })
}

/// What names a story: what its header states (Z 11.1). No memory is wanted, and nothing is listed.
pub fn heading(story: &Story) -> Heading
    ensures { result ≡ heading_of story.now }
{
    let identity = story.identity();
    let serial = identity.serial;
    Heading {
        release: identity.release,
        serial,
        checksum: identity.checksum,
    }
}

fn checksum_by(stated: u16, sum: u16) -> Checksum
    ensures { result ≡ checksum_by stated sum }
{
    if stated == sum {
        Checksum::Right(stated)
    } else if stated == 0 {
        Checksum::Unstated(sum)
    } else {
        Checksum::Wrong(stated, sum)
    }
}

/// How many words the dictionary has: the word behind its separators and the length of an entry (Z 13.2).
fn word_count(story: &Story) -> u16
    ensures { result ≡ entry_count story.now.memory }
{
    let memory = story.memory();
    let place = story.dictionary();
    let separators = usize::from(memory[place]);
    BigEndian::read_u16(&memory[place + 2 + separators..])
}

/// How much code a story lists.
fn code_of(alloc: Global, story: &Story) -> Result<Code, AllocError>
    ensures { IfOk result (IsCodeOf story.now) }
{
    match list_story(alloc, story) {
        Ok(listing) => Ok(Code::Listed(listing.routines().len(), listing.records().len())),
        Err(ListError::OutOfMemory) => Err(AllocError),
        Err(error) => Ok(Code::Unlisted(error)),
    }
}

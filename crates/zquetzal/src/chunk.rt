//! One chunk of a save.

ghost use Rattle.std.specs.Prelude.{◌<◌, ◌≤◌, length, IfOk};
ghost use Rattle.zquetzal.specs.Reading.{chunk_at, sized_chunk};
ghost use Rattle.zquetzal.specs.View.{Gives, seen_chunk};

use crate::error::SaveError;
use crate::limits::{CHUNK_HEAD, HEADER_LENGTH, IFHD};
use byteorder::{BigEndian, ByteOrder};

/// A chunk: its letters, and its data (Q 8).
#[derive(Clone, Copy)]
pub(crate) struct Chunk<'a> {
    pub(crate) id: u32,
    pub(crate) contents: &'a [u8],
}

/// The chunk at the front of the bytes, and what follows it.
#[tactic(auto, unfolding(crate::specs::Reading::chunk_at))]
pub(crate) fn chunk_of(bytes: &[u8]) -> Result<(Chunk<'_>, &[u8]), SaveError>
    ensures value { Gives (λ x. (seen_chunk x.0, x.1.now)) result (chunk_at bytes.now) }
    ensures shorter { IfOk result (λ x. length x.1.now < length bytes.now) }
{
    if bytes.len() < CHUNK_HEAD {
        return Err(SaveError::Length);
    }
    let id = BigEndian::read_u32(bytes);
    let size = BigEndian::read_u32(&bytes[4..]) as usize;
    sized_chunk(id, size, &bytes[CHUNK_HEAD..])
}

/// The chunk whose data are the first bytes of `body`, and what follows its pad byte.
#[tactic(auto, unfolding(crate::specs::Reading::sized_chunk))]
fn sized_chunk(id: u32, size: usize, body: &[u8]) -> Result<(Chunk<'_>, &[u8]), SaveError>
    requires { size < 4294967296 }
    ensures value { Gives (λ x. (seen_chunk x.0, x.1.now)) result (sized_chunk id size body.now) }
    ensures shorter { IfOk result (λ x. length x.1.now ≤ length body.now) }
{
    let padded = size + size % 2;
    if body.len() < padded {
        return Err(SaveError::Length);
    }
    if size % 2 != 0 && body[size] != 0 {
        return Err(SaveError::Length);
    }
    if id == IFHD && size != HEADER_LENGTH {
        return Err(SaveError::Length);
    }
    let contents = &body[..size];
    Ok((Chunk { id, contents }, &body[padded..]))
}

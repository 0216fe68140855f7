//! The chunks of a form that was judged.

ghost use Rattle.std.specs.Prelude.{◌≡◌, ◌<◌, ℕ, List, length};
ghost use Rattle.zquetzal.specs.Grammar.{Chunk as SavedChunk};
ghost use Rattle.zquetzal.specs.Causes.{of_kind};
ghost use Rattle.zquetzal.specs.Reading.{found_then, found_in, found};
ghost use Rattle.zunpack.specs.View.{GivesSome, BeginsWith, HasChunk, HasChunks, IsCut, seen_chunk, seen_found, the_only};

use crate::limits::CHUNK_HEAD;
use byteorder::{BigEndian, ByteOrder};

/// A chunk: its letters, and its data (Q 8).
#[derive(Clone, Copy)]
pub(crate) struct Chunk<'a> {
    id: u32,
    contents: &'a [u8],
}

/// The chunk at the front of bytes that begin with one, and what follows its pad byte.
fn chunk_of(bytes: &[u8]) -> (Chunk<'_>, &[u8])
    requires { HasChunk bytes.now }
    ensures value { (c : SavedChunk) (rest : List ℕ) → BeginsWith bytes.now c rest → (seen_chunk result.0 ≡ c) × (result.1.now ≡ rest) }
    ensures shorter { length result.1.now < length bytes.now }
{
    let id = BigEndian::read_u32(bytes);
    let size = BigEndian::read_u32(&bytes[4..]) as usize;
    let body = &bytes[CHUNK_HEAD..];
    let contents = &body[..size];
    (Chunk { id, contents }, &body[size + size % 2..])
}

/// How often a chunk was found.
#[derive(Clone, Copy)]
pub(crate) enum Found<'a> {
    Absent,
    Once(&'a [u8]),
    Often,
}

impl<'a> Found<'a> {
    /// With one chunk more, which counts where it has the letters that are looked for.
    fn then(self, id: u32, chunk: Chunk<'a>) -> Found<'a>
        ensures { seen_found result ≡ found_then (seen_found self.entry) (found_in id (seen_chunk chunk.entry)) }
    {
        if chunk.id != id {
            return self;
        }
        match self {
            Found::Absent => Found::Once(chunk.contents),
            Found::Once(_) | Found::Often => Found::Often,
        }
    }
}

/// How often a chunk with these letters is among those that the bytes are.
fn survey(body: &[u8], id: u32) -> Found<'_>
    requires { HasChunks body.now }
    ensures { (chunks : List SavedChunk) → IsCut body.now chunks → seen_found result ≡ found id chunks }
{
    let mut found = Found::Absent;
    let mut rest = body;
    while !rest.is_empty() {
        let (chunk, after) = chunk_of(rest);
        found = found.then(id, chunk);
        rest = after;
    }
    found
}

/// The data of the chunk with these letters, where there is just one among those that the bytes are.
pub(crate) fn only(body: &[u8], id: u32) -> Option<&[u8]>
    requires { HasChunks body.now }
    ensures { (chunks : List SavedChunk) → IsCut body.now chunks → GivesSome (λ x. x.now) result (the_only (of_kind id chunks)) }
{
    match survey(body, id) {
        Found::Once(contents) => Some(contents),
        Found::Absent | Found::Often => None,
    }
}

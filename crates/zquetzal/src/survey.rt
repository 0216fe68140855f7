//! Going over the chunks of a save.

ghost use Rattle.std.specs.Prelude.{◌≡◌, Ok, []};
ghost use Rattle.zquetzal.specs.Reading.{chosen, found_in, found_then, is_absent, is_often, once};
ghost use Rattle.zquetzal.specs.Grammar.{is_known};
ghost use Rattle.zquetzal.specs.Survey.{survey_of, survey_at, noted, first_then, chosen_in};
ghost use Rattle.zquetzal.specs.View.{Gives, seen_chunk, seen_found, seen_survey, seen_parts};

use crate::chunk::{Chunk, chunk_of};
use crate::error::SaveError;
use crate::limits::{CMEM, IFHD, STKS, UMEM};

/// How often a chunk was found.
#[derive(Clone, Copy)]
pub(crate) enum Found<'a> {
    Absent,
    Once(&'a [u8]),
    Often,
}

impl<'a> Found<'a> {
    /// With one chunk more, which counts where it has the letters that are looked for.
    fn then(self, id: u32, chunk: Chunk<'a>) -> Found<'a>
        ensures { seen_found result ≡ found_then (seen_found self.entry) (found_in id (seen_chunk chunk.entry)) }
    {
        if chunk.id != id {
            return self;
        }
        match self {
            Found::Absent => Found::Once(chunk.contents),
            Found::Once(_) | Found::Often => Found::Often,
        }
    }

    fn is_absent(self) -> bool
        ensures { result ≡ is_absent (seen_found self.entry) }
    {
        matches!(self, Found::Absent)
    }

    fn is_often(self) -> bool
        ensures { result ≡ is_often (seen_found self.entry) }
    {
        matches!(self, Found::Often)
    }

    /// The data of the chunk, which has to be there once.
    fn once(self) -> Result<&'a [u8], SaveError>
        ensures { Gives (λ x. x.now) result (once (seen_found self.entry)) }
    {
        match self {
            Found::Absent => Err(SaveError::ChunkMissing),
            Found::Once(contents) => Ok(contents),
            Found::Often => Err(SaveError::ChunkTwice),
        }
    }
}

/// What was found of the chunks that are known.
#[derive(Clone, Copy)]
pub(crate) struct Survey<'a> {
    /// The letters of the first of them.
    first: Option<u32>,
    header: Found<'a>,
    memory: Found<'a>,
    compressed: Found<'a>,
    stacks: Found<'a>,
}

/// The data of the chunks that are read.
#[derive(Clone, Copy)]
pub(crate) struct Parts<'a> {
    pub(crate) header: &'a [u8],
    pub(crate) memory: &'a [u8],
    pub(crate) stacks: &'a [u8],
}

fn is_known(id: u32) -> bool
    ensures { result ≡ is_known id }
{
    id == IFHD || id == UMEM || id == CMEM || id == STKS
}

impl<'a> Survey<'a> {
    /// What is found of no chunks.
    fn new() -> Survey<'a>
        ensures { seen_survey result ≡ survey_of [] }
    {
        Survey {
            first: None,
            header: Found::Absent,
            memory: Found::Absent,
            compressed: Found::Absent,
            stacks: Found::Absent,
        }
    }

    /// With one chunk more.
    fn noted(self, chunk: Chunk<'a>) -> Survey<'a>
        ensures { seen_survey result ≡ noted (seen_survey self.entry) (seen_chunk chunk.entry) }
    {
        Survey {
            first: first_then(self.first, chunk.id),
            header: self.header.then(IFHD, chunk),
            memory: self.memory.then(UMEM, chunk),
            compressed: self.compressed.then(CMEM, chunk),
            stacks: self.stacks.then(STKS, chunk),
        }
    }

    /// The three chunks that are read.
    ///
    /// # Errors
    ///
    /// That one is missing or comes before `IFhd`, then that one is there twice, then that the memory is compressed.
    #[tactic(auto, unfolding(crate::specs::Reading::chosen))]
    pub(crate) fn parts(self) -> Result<Parts<'a>, SaveError>
        ensures { Gives seen_parts result (chosen_in (seen_survey self.entry)) }
    {
        let has_memory = !self.memory.is_absent() || !self.compressed.is_absent();
        if self.first != Some(IFHD) || self.stacks.is_absent() || !has_memory {
            return Err(SaveError::ChunkMissing);
        }
        let header = self.header.once()?;
        let stacks = self.stacks.once()?;
        if self.memory.is_often() {
            return Err(SaveError::ChunkTwice);
        }
        if !self.compressed.is_absent() {
            return Err(SaveError::Compressed);
        }
        let memory = self.memory.once()?;
        Ok(Parts {
            header,
            memory,
            stacks,
        })
    }
}

fn first_then(first: Option<u32>, id: u32) -> Option<u32>
    ensures { result ≡ first_then first id }
{
    match first {
        Some(first) => Some(first),
        None if is_known(id) => Some(id),
        None => None,
    }
}

/// What is found of all the chunks that the bytes are.
pub(crate) fn surveyed(bytes: &[u8]) -> Result<Survey<'_>, SaveError>
    ensures { Gives seen_survey result (survey_at bytes.now) }
{
    let mut survey = Survey::new();
    let mut rest = bytes;
    while !rest.is_empty() {
        let (chunk, after) = chunk_of(rest)?;
        survey = survey.noted(chunk);
        rest = after;
    }
    Ok(survey)
}

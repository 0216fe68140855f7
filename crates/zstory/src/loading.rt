//! From a file's bytes to those that are loaded.

ghost use Rattle.std.specs.Prelude.{◌≡◌, ◌%◌, ◌≤◌, length, drop, sum, OnOk, IfOk, IfErr};
ghost use Rattle.zstory.specs.Header.{version};
ghost use Rattle.zstory.specs.Loading.{stated_part, with_flags_cleared};
ghost use Rattle.zstory.specs.LoadedStory.{IsSound};
ghost use Rattle.zstory.specs.Refusal.{IsCause, IsLowest, NoneBelow};

use crate::bytes::word_at;
use crate::header;
use crate::load_error::LoadError;
use std::alloc::{AllocError, Global};

/// The length that no version 3 story exceeds (Z 1.1.4).
const GREATEST_LENGTH: usize = 131_072;

/// The bits of Flags 1 that are kept: all but 4, 5 and 6, by which an interpreter tells what it can do (Z 11.1, own).
const KEPT_FLAGS: u8 = 0b1000_1111;

/// The file without the bytes behind its stated length, where length and version are those of a story (Z 11.1.6).
pub(crate) fn stated_part(file: &[u8]) -> Result<&[u8], LoadError>
    ensures part { IfOk result (λ part. part.now ≡ stated_part file.now) }
    ensures least { IfOk result (λ part. 64 ≤ length part.now) }
    ensures greatest { IfOk result (λ part. length part.now ≤ 131072) }
    ensures version { IfOk result (λ part. version part.now ≡ 3) }
    ensures before { OnOk result (NoneBelow (IsCause file.now) LoadError.StaticBase) }
    ensures lowest { IfErr result (IsLowest (IsCause file.now)) }
{
    if file.len() < header::LENGTH {
        return Err(LoadError::TooShort);
    }
    if file.len() > GREATEST_LENGTH {
        return Err(LoadError::TooLong);
    }
    if file[header::VERSION] != 3 {
        return Err(LoadError::NotVersion3);
    }
    let stated = 2 * usize::from(word_at(file, header::LENGTH_WORD));
    if stated == 0 {
        return Ok(file);
    }
    if stated < header::LENGTH || file.len() < stated {
        return Err(LoadError::LengthWord);
    }
    Ok(&file[..stated])
}

/// Copies a file's stated part, and in the same pass sums the bytes behind its header (Z 15).
pub(crate) fn copied(alloc: Global, part: &[u8]) -> Result<(Vec<u8>, u16), AllocError>
    requires { 64 ≤ length part.now }
    ensures copy { IfOk result (λ copied. copied.0.items ≡ part.now) }
    ensures sum { IfOk result (λ copied. copied.1 ≡ sum (drop 0x40 part.now) % 65536) }
{
    let (header, behind) = part.split_at(header::LENGTH);
    let mut memory = Vec::with_capacity(alloc, part.len())?;
    memory.extend_from_slice(header)?;
    let mut sum: u16 = 0;
    for byte in behind {
        memory.push_reserved(*byte);
        sum = sum.wrapping_add(u16::from(*byte));
    }
    Ok((memory, sum))
}

/// Clears what an interpreter would say of itself in Flags 1 (Z 11.1, own).
pub(crate) fn with_flags_cleared(mut memory: Vec<u8>) -> Vec<u8>
    requires { IsSound memory.items }
    ensures cleared { result.items ≡ with_flags_cleared memory.items }
    ensures sound { IsSound result.items }
{
    memory[header::FLAGS] &= KEPT_FLAGS;
    memory
}

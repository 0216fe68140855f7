//! Reading a file.

ghost use Rattle.std.specs.Prelude.{◌≡◌};
ghost use Rattle.std.specs.List.{list_all};
ghost use Rattle.zdebug.specs.Cutting.{is_blank};
ghost use Rattle.zdebug.specs.Steps.{Answers};
ghost use Rattle.zdebug.specs.Reading.{reading, whole};
ghost use Rattle.zdebug.specs.View.{found_of, kept_of};

use crate::cutting::{cut, is_blank};
use crate::error::DebugError;
use crate::reader::Reader;
use crate::records::Records;
use std::alloc::Global;

/// Whether each byte is a blank.
fn are_blanks(bytes: &[u8]) -> bool
    ensures { result ≡ list_all is_blank bytes.now }
{
    bytes.iter().all(|byte| is_blank(*byte))
}

/// The records that were read, if each element is closed.
fn whole_of(reader: Reader) -> Result<Records, DebugError>
    ensures { Answers found_of result (whole (kept_of reader.entry)) }
{
    if !reader.begun {
        return Err(DebugError::NotDebug);
    }
    if reader.path.innermost().is_some() {
        return Err(DebugError::Unclosed);
    }
    Ok(reader.records)
}

/// What a file says, or the first thing that is wrong with it.
pub fn records_of(alloc: Global, bytes: &[u8]) -> Result<Records, DebugError>
    ensures { Answers found_of result (reading bytes.now) }
{
    match cut(bytes, b'<') {
        None => Err(DebugError::NotDebug),
        Some((lead, rest)) => {
            if !are_blanks(lead) {
                return Err(DebugError::NotDebug);
            }
            let mut reader = Reader::new(alloc);
            reader.take_all(rest)?;
            whole_of(reader)
        }
    }
}

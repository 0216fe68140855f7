//! The file of debug information, by which the source's lines and names are told.

use arrayvec::ArrayString;
use clap::error::ErrorKind;
use itoa::Buffer;
use std::alloc::Global;
use zcommand::{debug_of, read_words};
use zdebug::{DebugError, DebugInfo, FILE_LIMIT};
use zexplain::in_short;
use zfault::{Failed, Sink, write_whole};
use zperform::{Failure, Files, Problem, Speech, read_file};

/// How a word begins that may name the file.
const OPTION: &str = "--debug";

/// The most letters of a code.
const CODE: usize = 4;

/// Why there is no debug information, though it was asked for.
#[derive(Drop)]
pub enum Undebugged {
    /// Its file can't be read, or memory was refused.
    Unread(Problem),
    /// Its file is no debug information.
    Refused(DebugError),
}

/// The debug information of the file that the words name, if they do and nothing is wrong with them.
pub fn debug_info<F: Files>(
    alloc: Global,
    words: &[&str],
    files: &mut F,
) -> Result<Option<DebugInfo>, Undebugged> {
    match file_named(alloc, words) {
        Ok(Some(name)) => Ok(Some(info_of(alloc, name, files)?)),
        Ok(None) => Ok(None),
        Err(problem) => Err(Undebugged::Unread(problem)),
    }
}

/// The name of that file. The words are read only where one of them may name it.
fn file_named<'a>(alloc: Global, words: &'a [&'a str]) -> Result<Option<&'a str>, Problem> {
    if !words.iter().any(|word| word.starts_with(OPTION)) {
        return Ok(None);
    }
    match read_words(alloc, words) {
        Ok(matches) => Ok(debug_of(&matches)),
        Err(error) if error.kind() == ErrorKind::OutOfMemory => {
            Err(Problem::Failed(Failure::Memory))
        }
        Err(_) => Ok(None),
    }
}

/// The debug information of a file.
fn info_of<F: Files>(alloc: Global, name: &str, files: &mut F) -> Result<DebugInfo, Undebugged> {
    // A byte more than is allowed tells that there are too many.
    match read_file(alloc, files, name, FILE_LIMIT + 1) {
        Ok(bytes) => match DebugInfo::read(alloc, &bytes) {
            Ok(info) => Ok(info),
            Err(DebugError::OutOfMemory) => Err(Undebugged::Unread(Problem::Failed(
                Failure::Memory,
            ))),
            Err(error) => Err(Undebugged::Refused(error)),
        },
        Err(problem) => Err(Undebugged::Unread(problem)),
    }
}

/// Tells that a file is no debug information, and answers the exit status of a refusal.
pub fn refuse<E: Sink>(error: DebugError, speech: Speech, errors: &mut E) -> u8 {
    let _ = tell_refusal(error, speech, errors);
    1
}

/// Writes the code of what is wrong, and for a person what that means.
fn tell_refusal<E: Sink>(error: DebugError, speech: Speech, errors: &mut E) -> Result<(), Failed> {
    let code = code_of(error);
    write_whole(errors, b"refused: ")?;
    write_whole(errors, code.as_bytes())?;
    if let (Speech::Words, Some(meaning)) = (speech, in_short(code.as_str())) {
        write_whole(errors, b": ")?;
        write_whole(errors, meaning.as_bytes())?;
    }
    write_whole(errors, b"\n")?;
    errors.flush()
}

/// The code of what is wrong.
fn code_of(error: DebugError) -> ArrayString<CODE> {
    let mut code = ArrayString::new();
    for part in ["B", Buffer::new().format(error.number())] {
        let _ = code.try_push_str(part);
    }
    code
}

//! What the words ask of the devices of a play.

ghost use Rattle.std.specs.Prelude.{◌≡◌, OnErr, OnOk, map, string_bytes};
ghost use Rattle.zpc.specs.Words.{behind_first};

use clap::error::ErrorKind;
use std::alloc::{AllocError, Global};
use zbatch::name_beside;
use zcommand::{Command, Front, command_of, front_of, read_words};
use zscreen::StatusLines;

/// The ending of the name of the file for saves, where none is named on a terminal.
const SAVE_ENDING: &str = "qzl";

/// What a play asks of its devices, and of the files that these write.
#[derive(Clone, Copy)]
pub struct Asked<'a> {
    /// The name of the story's file.
    pub story: &'a str,
    /// Whether a file for saves is named.
    pub has_save: bool,
    /// Whether a file is written over that holds something.
    pub force: bool,
    /// How status lines are to be shown.
    pub status: StatusLines,
    /// How text is shown, and the files of text and lines.
    pub front: Front<'a>,
}

/// What the words ask of the devices of a play, if they are those of a play and nothing is wrong with them. Want of memory is the only error.
pub fn asked_by<'a>(alloc: Global, words: &'a [&'a str]) -> Result<Option<Asked<'a>>, AllocError> {
    match words.first() {
        Some(first) if *first == "play" => {}
        _ => return Ok(None),
    }
    let matches = match read_words(alloc, words) {
        Ok(matches) => matches,
        Err(error) if error.kind() == ErrorKind::OutOfMemory => return Err(AllocError),
        Err(_) => return Ok(None),
    };
    let front = front_of(&matches);
    match command_of(&matches) {
        Command::Play {
            story,
            save,
            force,
            status,
            ..
        } => Ok(Some(Asked {
            story,
            has_save: save.is_some(),
            force,
            status,
            front,
        })),
        _ => Ok(None),
    }
}

/// The name of the file for the saves of a play whose lines are typed, where none is named.
pub fn save_beside(alloc: Global, words: &[&str]) -> Result<Option<String>, AllocError> {
    match asked_by(alloc, words)? {
        Some(asked) if !asked.has_save && !asked.front.no_save => {
            Ok(Some(name_beside(alloc, asked.story, SAVE_ENDING)?))
        }
        _ => Ok(None),
    }
}

/// Whether the words are those of a play whose status lines may stand at the top of a terminal: where nothing else is asked of them, nor of the text.
pub fn may_be_headed(alloc: Global, words: &[&str]) -> Result<bool, AllocError> {
    match asked_by(alloc, words)? {
        Some(asked) => Ok(asked.status == StatusLines::Hidden && !asked.front.plain),
        None => Ok(false),
    }
}

/// Names the file for saves behind the command's own word. Want of memory is the only error.
pub fn put_save(
    alloc: Global,
    arguments: &mut Vec<String>,
    name: String,
) -> Result<(), AllocError> {
    let option = String::from_str(alloc, "--save")?;
    put_behind(arguments, name)?;
    put_behind(arguments, option)
}

/// Asks for status lines in frames, behind the command's own word. Want of memory is the only error.
pub fn put_frames(alloc: Global, arguments: &mut Vec<String>) -> Result<(), AllocError> {
    put_behind(arguments, String::from_str(alloc, "--framed-status")?)
}

/// Puts an argument behind the command's own word, if there is one. Want of memory is the only error, and changes nothing.
fn put_behind(arguments: &mut Vec<String>, argument: String) -> Result<(), AllocError>
    ensures ok { OnOk result (map string_bytes arguments.new.items ≡ behind_first (string_bytes argument) (map string_bytes arguments.old.items)) }
    ensures err { OnErr result (map string_bytes arguments.new.items ≡ map string_bytes arguments.old.items) }
{
    if !arguments.is_empty() {
        arguments.insert(1, argument)?;
    }
    Ok(())
}

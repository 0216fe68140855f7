//! The words after the program's name.

ghost use Rattle.std.specs.Prelude.{◌≡◌, ◌<◌, ◌≤◌, IfOk, IfSome, IsSomeAnd, codes, false, map, option_and_then, option_map};
ghost use Rattle.clap.specs.Walk.{texts};
ghost use Rattle.clap.specs.Words.{FailsBy, fault_of, found_of, rows_of, subcommand_name_of, subcommand_of, subcommand_rows_of};
ghost use Rattle.zcommand.specs.CommandLine.{IsCommand, IsLow, IsReadFrom, debug_asked, files_of, fitting, frames_of, front_asked, front_named, front_of, is_json_asked, is_width, low_limit, no_front, pair_of, status_lines_of, target_of, width_of, zpc_app};

use crate::commands::program;
use clap::{ArgMatches, Error};
use std::alloc::Global;
use zbatch::is_story_name;
use zscreen::StatusLines;

/// The greatest limit of frames that a certificate may name.
pub(crate) const MOST_FRAMES: u16 = 4096;

/// The most columns that text is wrapped at.
pub(crate) const MOST_WIDTH: u16 = 1000;

/// How a play shows its text, and which files lines and text go to and come from.
#[derive(Clone, Copy, Debug, PartialEq, Eq)]
pub struct Front<'a> {
    /// How many columns text is wrapped at, from 1 to 1,000, if that is said.
    pub width: Option<u16>,
    /// Whether nothing is wrapped, on a terminal too.
    pub plain: bool,
    /// The name of the file that the text and the lines typed are kept in, if there is one.
    pub transcript: Option<&'a str>,
    /// The name of the file that the lines typed are kept in, if there is one.
    pub record: Option<&'a str>,
    /// The name of a file whose lines are read before those typed, if there is one.
    pub replay: Option<&'a str>,
    /// Whether no saves are kept, on a terminal too.
    pub no_save: bool,
    /// Whether lines that begin with a `/` are commands of the player's own, which the story doesn't see.
    pub commands: bool,
}

impl<'a> Front<'a> {
    /// The front that asks for nothing.
    pub fn none() -> Front<'a>
        ensures { front_named result ≡ no_front }
    {
        Front {
            width: None,
            plain: false,
            transcript: None,
            record: None,
            replay: None,
            no_save: false,
            commands: false,
        }
    }
}

/// What the words ask for.
#[derive(Clone, Copy, Debug, PartialEq, Eq)]
pub enum Command<'s, 'a> {
    /// Lists the instructions of a story, or those of its certificate.
    List {
        /// The name of the story's file.
        story: &'a str,
        /// The name of the certificate's file, if its instructions are listed and not the story's own.
        certificate: Option<&'a str>,
        /// Whether each line is an object of JSON.
        json: bool,
    },
    /// Finds a certificate.
    Find {
        /// The name of the story's file.
        story: &'a str,
        /// The name of the file that the certificate is kept in.
        certificate: &'a str,
        /// How many frames may stand above the first, if the certificate is to name that.
        frames: Option<u16>,
        /// Whether only a certificate is asked for that marks no instruction.
        strict: bool,
        /// Whether each instruction that is marked is told, with the reason.
        places: bool,
        /// Whether that file may hold something else now.
        force: bool,
        /// Whether the answer is an object of JSON.
        json: bool,
    },
    /// Finds a certificate of each of some stories, which is kept beside it.
    FindEach {
        /// The names of the stories' files.
        stories: &'s [&'a str],
        /// How many frames may stand above the first, if each certificate is to name that.
        frames: Option<u16>,
        /// Whether only certificates are asked for that mark no instruction.
        strict: bool,
        /// Whether each instruction that is marked is told, with the reason.
        places: bool,
        /// Whether the files that the certificates are kept in may hold something else now.
        force: bool,
        /// Whether each answer is an object of JSON.
        json: bool,
    },
    /// Nothing that can be done: `find` names one file for a certificate, and several stories.
    OneForMany,
    /// Checks a certificate.
    Check {
        /// The name of the story's file.
        story: &'a str,
        /// The name of the certificate's file.
        certificate: &'a str,
        /// Whether the answer is an object of JSON.
        json: bool,
    },
    /// Checks the certificate beside each of some stories.
    CheckEach {
        /// The names of the stories' files.
        stories: &'s [&'a str],
        /// Whether each answer is an object of JSON.
        json: bool,
    },
    /// Shows what a certificate says.
    Show {
        /// The name of the story's file.
        story: &'a str,
        /// The name of the certificate's file.
        certificate: &'a str,
        /// The address of the instruction that is looked at, if one is; the word needn't be one.
        address: Option<&'a str>,
    },
    /// Plays a story.
    Play {
        /// The name of the story's file.
        story: &'a str,
        /// The name of the certificate's file, if one is named. Else the story is played by the one beside it, or by testing everything.
        certificate: Option<&'a str>,
        /// What decides the random words.
        seed: u64,
        /// The most steps that are made.
        budget: u32,
        /// How status lines are shown.
        status: StatusLines,
        /// The name of the file that saves are kept in, if there is one.
        save: Option<&'a str>,
        /// Whether each save that is refused is told on the errors.
        tell: bool,
        /// Whether the file for saves may hold something else now.
        force: bool,
        /// Whether play goes on after a fault as interpreters do, where something is customary.
        lenient: bool,
    },
    /// Tells what a story says of itself, and what it has.
    Info {
        /// The name of the story's file.
        story: &'a str,
        /// Whether it is told as an object of JSON.
        json: bool,
    },
    /// Says what a code means, or each of them.
    Explain {
        /// The code, which needn't be one, if not all are explained.
        code: Option<&'a str>,
        /// Whether each answer is an object of JSON.
        json: bool,
    },
    /// Rewrites a save whose memory is compressed as a plain one.
    Unpack {
        /// The name of the story's file.
        story: &'a str,
        /// The name of the file that has the save.
        save: &'a str,
        /// The name of the file that the plain save goes to.
        out: &'a str,
        /// Whether that file may hold something else now.
        force: bool,
    },
}

/// Reads the words after the program's name: what `command_of` takes a command from.
pub fn read_words<'a>(alloc: Global, words: &'a [&'a str]) -> Result<ArgMatches<'a>, Error>
    ensures read { IfOk result (λ matches. subcommand_rows_of matches ≡ subcommand_of zpc_app (texts words.entry.now)) }
    ensures named { IfOk result (λ matches. IsSomeAnd (subcommand_name_of matches) IsCommand) }
    ensures fails { FailsBy (fault_of zpc_app (texts words.entry.now)) result }
{
    let matches = program(alloc)?.try_get_matches_from(words)?;
    Ok(matches)
}

/// The command that the matches name, with its values.
pub fn command_of<'s, 'a>(matches: &'s ArgMatches<'a>) -> Command<'s, 'a>
    requires { IsSomeAnd (subcommand_name_of matches.now) IsCommand }
    ensures read { IsSomeAnd (subcommand_rows_of matches.now) (λ matches. IsReadFrom matches result) }
    // No certificate is asked for that names more frames than it may.
    ensures low { IsLow result }
{
    if let Some(list) = matches.subcommand_matches("list") {
        return list_of(list);
    }
    if let Some(find) = matches.subcommand_matches("find") {
        return find_of(find);
    }
    if let Some(check) = matches.subcommand_matches("check") {
        return check_of(check);
    }
    if let Some(show) = matches.subcommand_matches("show") {
        return show_of(show);
    }
    if let Some(play) = matches.subcommand_matches("play") {
        return play_of(play);
    }
    if let Some(info) = matches.subcommand_matches("info") {
        return info_of(info);
    }
    if let Some(explain) = matches.subcommand_matches("explain") {
        return explain_of(explain);
    }
    match matches.subcommand_matches("unpack") {
        Some(unpack) => unpack_of(unpack),
        None => unreachable!(),
    }
}

/// How the play that the matches name shows its text, and its files of lines. Where they name another command, it asks for nothing.
pub fn front_of<'a>(matches: &ArgMatches<'a>) -> Front<'a>
    ensures read { front_named result ≡ front_asked (subcommand_rows_of matches.now) }
    ensures fits { IfSome result.width (λ width. (0 < width) × (width ≤ 1000)) }
{
    match matches.subcommand_matches("play") {
        Some(play) => play_front_of(play),
        None => Front::none(),
    }
}

/// The name of the file of debug information that the command named is to tell of the source by; `None` where none is named, and of a
/// command that tells of none.
pub fn debug_of<'a>(matches: &ArgMatches<'a>) -> Option<&'a str>
    ensures { option_map (λ name. name.now) result ≡ debug_asked (subcommand_rows_of matches.now) }
{
    match matches.subcommand() {
        Some((_, command)) => command.get_str("debug"),
        None => None,
    }
}

/// `list`, with the values that are among its matches.
fn list_of<'s, 'a>(matches: &'s ArgMatches<'a>) -> Command<'s, 'a>
    ensures { IsReadFrom (codes "list", rows_of (found_of matches.now)) result }
{
    let story = matches.get_str("STORY").unwrap_or("");
    let certificate = matches.get_str("CERT");
    let json = is_json_asked(matches);
    Command::List {
        story,
        certificate,
        json,
    }
}

/// `find`, with the values that are among its matches: of a story and the file of its certificate, or of stories each.
fn find_of<'s, 'a>(matches: &'s ArgMatches<'a>) -> Command<'s, 'a>
    ensures { IsReadFrom (codes "find", rows_of (found_of matches.now)) result }
{
    let stories = files_of(matches);
    let output = matches.get_str("output");
    let target = target_of(stories, output);
    if target.is_none() && output.is_some() {
        return Command::OneForMany;
    }
    let frames = frames_of(matches);
    let strict = matches.get_one("strict").unwrap_or(false);
    let places = matches.get_one("places").unwrap_or(false);
    let force = matches.get_one("force").unwrap_or(false);
    let json = is_json_asked(matches);
    match target {
        Some((story, certificate)) => Command::Find {
            story,
            certificate,
            frames,
            strict,
            places,
            force,
            json,
        },
        None => Command::FindEach {
            stories,
            frames,
            strict,
            places,
            force,
            json,
        },
    }
}

/// Whether objects of JSON are asked for.
fn is_json_asked(matches: &ArgMatches<'_>) -> bool
    ensures { result ≡ is_json_asked (rows_of (found_of matches.now)) }
{
    matches.get_one("json").unwrap_or(false)
}

/// The limit of frames among the matches of `find`, if there is one. clap lets none through that is above the greatest.
fn frames_of(matches: &ArgMatches<'_>) -> Option<u16>
    ensures { result ≡ frames_of (rows_of (found_of matches.now)) }
{
    limit_of(matches.get_one("frames"))
}

/// The limit of frames, where it isn't above the greatest.
fn limit_of(frames: Option<u16>) -> Option<u16>
    ensures { result ≡ option_and_then low_limit frames }
{
    let Some(frames) = frames else {
        return None;
    };
    if frames <= MOST_FRAMES {
        Some(frames)
    } else {
        None
    }
}

/// The files among the matches of `check` or `find`.
fn files_of<'s, 'a>(matches: &'s ArgMatches<'a>) -> &'s [&'a str]
    ensures { map (λ name. name.now) result.now ≡ files_of (rows_of (found_of matches.now)) }
{
    matches.get_strs("FILE").unwrap_or_default()
}

/// A story and the file of its certificate, where two files are named and the second isn't named as a story.
fn pair_of<'a>(files: &[&'a str]) -> Option<(&'a str, &'a str)>
    ensures { option_map (λ pair. (pair.0.now, pair.1.now)) result ≡ pair_of (map (λ name. name.now) files.now) }
{
    if files.len() != 2 {
        return None;
    }
    let (story, certificate) = (files[0], files[1]);
    if is_story_name(certificate) {
        None
    } else {
        Some((story, certificate))
    }
}

/// A story and the file of its certificate: the one file and the one that `-o` names, or without that the two of a pair.
fn target_of<'a>(files: &[&'a str], output: Option<&'a str>) -> Option<(&'a str, &'a str)>
    ensures { option_map (λ pair. (pair.0.now, pair.1.now)) result ≡ target_of (map (λ name. name.now) files.now) (option_map (λ name. name.now) output.entry) }
{
    let Some(certificate) = output else {
        return pair_of(files);
    };
    if files.len() == 1 {
        Some((files[0], certificate))
    } else {
        None
    }
}

/// `check`, with the values that are among its matches: of a story and the file of its certificate, or of stories each.
fn check_of<'s, 'a>(matches: &'s ArgMatches<'a>) -> Command<'s, 'a>
    ensures { IsReadFrom (codes "check", rows_of (found_of matches.now)) result }
{
    let stories = files_of(matches);
    let json = is_json_asked(matches);
    match pair_of(stories) {
        Some((story, certificate)) => Command::Check {
            story,
            certificate,
            json,
        },
        None => Command::CheckEach { stories, json },
    }
}

/// `show`, with the values that are among its matches.
fn show_of<'s, 'a>(matches: &'s ArgMatches<'a>) -> Command<'s, 'a>
    ensures { IsReadFrom (codes "show", rows_of (found_of matches.now)) result }
{
    let story = matches.get_str("STORY").unwrap_or("");
    let certificate = matches.get_str("CERT").unwrap_or("");
    let address = matches.get_str("ADDRESS");
    Command::Show {
        story,
        certificate,
        address,
    }
}

/// `play`, with the values that are among its matches.
fn play_of<'s, 'a>(matches: &'s ArgMatches<'a>) -> Command<'s, 'a>
    ensures { IsReadFrom (codes "play", rows_of (found_of matches.now)) result }
{
    let story = matches.get_str("STORY").unwrap_or("");
    let certificate = matches.get_str("CERT");
    // What the words leave out clap fills in, so that no 0 comes of that.
    let seed = matches.get_one("seed").unwrap_or(0);
    let budget = matches.get_one("budget").unwrap_or(0);
    let status = status_lines_of(matches);
    let save = matches.get_str("save");
    let tell = matches.get_one("tell").unwrap_or(false);
    let force = matches.get_one("force").unwrap_or(false);
    let lenient = matches.get_one("lenient").unwrap_or(false);
    Command::Play {
        story,
        certificate,
        seed,
        budget,
        status,
        save,
        tell,
        force,
        lenient,
    }
}

/// How status lines are shown, by the matches of `play`.
fn status_lines_of<'a>(matches: &ArgMatches<'a>) -> StatusLines
    ensures { result ≡ status_lines_of (rows_of (found_of matches.now)) }
{
    if matches.get_one("framed-status").unwrap_or(false) {
        StatusLines::Framed
    } else if matches.get_one("status").unwrap_or(false) {
        StatusLines::Bracketed
    } else {
        StatusLines::Hidden
    }
}

/// How text is shown, and the files of lines, by the matches of `play`.
fn play_front_of<'a>(matches: &ArgMatches<'a>) -> Front<'a>
    ensures { front_named result ≡ front_of (rows_of (found_of matches.now)) }
{
    let width = width_of(matches);
    let plain = matches.get_one("plain").unwrap_or(false);
    let transcript = matches.get_str("transcript");
    let record = matches.get_str("record");
    let replay = matches.get_str("replay");
    let no_save = matches.get_one("no-save").unwrap_or(false);
    let commands = matches.get_one("commands").unwrap_or(false);
    Front {
        width,
        plain,
        transcript,
        record,
        replay,
        no_save,
        commands,
    }
}

/// The width among the matches of `play`, if there is one. clap lets none through that doesn't fit.
fn width_of(matches: &ArgMatches<'_>) -> Option<u16>
    ensures { result ≡ width_of (rows_of (found_of matches.now)) }
{
    fit_width(matches.get_one("width"))
}

/// The width, where it is of one column at least and isn't above the most.
fn fit_width(width: Option<u16>) -> Option<u16>
    ensures { result ≡ option_and_then (fitting is_width) width }
{
    let Some(width) = width else {
        return None;
    };
    if width > 0 && width <= MOST_WIDTH {
        Some(width)
    } else {
        None
    }
}

/// `info`, with the values that are among its matches.
fn info_of<'s, 'a>(matches: &'s ArgMatches<'a>) -> Command<'s, 'a>
    ensures { IsReadFrom (codes "info", rows_of (found_of matches.now)) result }
{
    let story = matches.get_str("STORY").unwrap_or("");
    let json = is_json_asked(matches);
    Command::Info { story, json }
}

/// `explain`, with the values that are among its matches.
fn explain_of<'s, 'a>(matches: &'s ArgMatches<'a>) -> Command<'s, 'a>
    ensures { IsReadFrom (codes "explain", rows_of (found_of matches.now)) result }
{
    let code = matches.get_str("CODE");
    let json = is_json_asked(matches);
    Command::Explain { code, json }
}

/// `unpack`, with the values that are among its matches.
fn unpack_of<'s, 'a>(matches: &'s ArgMatches<'a>) -> Command<'s, 'a>
    ensures { IsReadFrom (codes "unpack", rows_of (found_of matches.now)) result }
{
    let story = matches.get_str("STORY").unwrap_or("");
    let save = matches.get_str("SAVE").unwrap_or("");
    let out = matches.get_str("OUT").unwrap_or("");
    let force = matches.get_one("force").unwrap_or(false);
    Command::Unpack {
        story,
        save,
        out,
        force,
    }
}

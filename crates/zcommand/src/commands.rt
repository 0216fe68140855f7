//! The program's commands and their words, as clap is told them.

ghost use Rattle.std.specs.Prelude.{◌≡◌, IfOk, false};
ghost use Rattle.clap.specs.Words.{app_of, rule_of};
ghost use Rattle.clap.specs.declared.builder.command.Command.TheViews.{out-Command as fields_of};
ghost use Rattle.zcommand.specs.CommandLine.{counted_app, frames_rule, framed_status_rule, framing_app, frontless_app, bare_app, budget_rule, certificate_rule, address_rule, certifying_app, check_app, code_rule, commands_rule, debug_rule, explain_app, file_rule, files_app, files_rule, find_app, force_rule, info_app, json_rule, lenient_rule, list_app, many_app, marking_app, naming_app, no_save_rule, out_rule, output_rule, packed_rule, places_rule, plain_rule, play_app, playing_app, record_rule, recording_app, replay_rule, save_rule, saveless_app, seed_rule, show_app, showing_app, status_rule, story_rule, strict_app, strict_rule, tell_rule, transcript_rule, unpack_app, width_rule, word_rule, zpc_app};

use crate::words::{MOST_FRAMES, MOST_WIDTH};
use clap::builder::ValueParser;
use clap::{Arg, ArgAction, value_parser};
use std::alloc::{AllocError, Global};

/// The version of the program, which `--version` prints.
const VERSION: &str = "0.1.0";

/// The steps that `play` makes at most where no budget is named.
const BUDGET: &str = "1000000000";

/// The seed of `play` where none is named.
const SEED: &str = "1";

/// What is behind the help of the program.
const ENDING: &str =
    "A certificate is a file that says which values a play of a story may meet. It is found once, and may come from anyone: whoever
has it checks it. A play of a story that is accepted with it never meets a fault, but where it marks instructions.

check and find take many stories: the certificate of story.z3 is story.cert, and where two files are named of which the second ends
in neither .z3 nor .Z3, that is the certificate's. With --json a command answers with one object of JSON a line.

zpc help man prints the manual page.

Exit status:
  0  done
  1  refused: a story, a certificate, a save, or a file that would be written over; or no certificate is found
  2  the words are wrong, or -o names one certificate for several stories
  3  the story met a fault
  4  a file or device failed, or memory was refused

Example:
  zpc find story.z3 story.cert && zpc play story.z3 story.cert";

/// What is behind the help of `find`.
const FIND_ENDING: &str =
    "Where no CERT is named, the certificate's name is the story's with .cert for .z3. Two files of which the second ends in neither
.z3 nor .Z3 are a story's and its certificate's.

Examples:
  zpc find story.z3
  zpc find story.z3 story.cert
  zpc find story.z3 -o story.cert
  zpc find --json *.z3";

/// What is behind the help of `check`.
const CHECK_ENDING: &str =
    "Where no CERT is named, the certificate's name is the story's with .cert for .z3. Two files of which the second ends in neither
.z3 nor .Z3 are a story's and its certificate's.

Examples:
  zpc check story.z3
  zpc check story.z3 story.cert
  zpc check --json *.z3";

/// What is behind the help of `play`.
const PLAY_ENDING: &str =
    "Where no CERT is named, the story is played by the certificate beside it, whose name is the story's with .cert for .z3, if the story
is accepted with that. One that isn't used is told of first.

With --lenient everything is tested, and no certificate beside the story is looked for; with a CERT the story has to be accepted all
the same. What is done in the place of each fault is in docs/MACHINE.md.

Examples:
  zpc play story.z3
  zpc play --lenient story.z3
  zpc play --save my.qzl story.z3 story.cert";

/// What is behind the help of `unpack`.
const UNPACK_ENDING: &str =
    "Other interpreters keep the memory of a save compressed, which zpc doesn't restore. OUT then has the same save with its memory as it
is.

Example:
  zpc unpack story.z3 theirs.qzl mine.qzl && zpc play --save mine.qzl story.z3";

/// The program with all its commands.
pub(crate) fn program<'a>(alloc: Global) -> Result<clap::Command<'a>, AllocError>
    ensures { IfOk result (λ program. app_of program ≡ zpc_app) }
{
    let program = playing_program(alloc)?;
    let program = program.subcommand(explain(alloc)?)?;
    program.subcommand(unpack(alloc)?)
}

/// The program with its commands on stories too.
fn playing_program<'a>(alloc: Global) -> Result<clap::Command<'a>, AllocError>
    ensures app { IfOk result (λ program. app_of program ≡ playing_app) }
{
    let program = certifying_program(alloc)?;
    let program = program.subcommand(show(alloc)?)?;
    let program = program.subcommand(play(alloc)?)?;
    program.subcommand(info(alloc)?)
}

/// The program with its commands on listings and certificates.
fn certifying_program<'a>(alloc: Global) -> Result<clap::Command<'a>, AllocError>
    ensures app { IfOk result (λ program. app_of program ≡ certifying_app) }
{
    let program = bare_program(alloc)?;
    let program = program.subcommand(list(alloc)?)?;
    let program = program.subcommand(find(alloc)?)?;
    program.subcommand(check(alloc)?)
}

/// The program before its commands.
fn bare_program<'a>(alloc: Global) -> Result<clap::Command<'a>, AllocError>
    ensures app { IfOk result (λ program. app_of program ≡ bare_app) }
{
    clap::Command::new(alloc, "zpc")
        .about("Lists, checks and plays Z-machine version 3 stories, and finds certificates")
        .after_help(ENDING)
        .version(VERSION)
        .no_binary_name(true)
        .subcommand_required(true)
        .bin_name("zpc")
}

fn list<'a>(alloc: Global) -> Result<clap::Command<'a>, AllocError>
    ensures app { IfOk result (λ list. app_of list ≡ list_app) }
    ensures local { IfOk result (λ list. (fields_of list).has_globals ≡ false) }
{
    let list = on_files(
        alloc,
        "list",
        "Lists the instructions of a story, or of a certificate",
        false,
    )?;
    list.after_help(
        "Examples:
  zpc list story.z3
  zpc list story.z3 story.cert
  zpc list --json story.z3",
    )
    .arg(json(alloc))?
    .arg(debug(alloc))
}

fn find<'a>(alloc: Global) -> Result<clap::Command<'a>, AllocError>
    ensures app { IfOk result (λ find. app_of find ≡ find_app) }
    ensures local { IfOk result (λ find. (fields_of find).has_globals ≡ false) }
{
    let find = marking(alloc)?.arg(force(alloc))?;
    find.arg(json(alloc))?.arg(debug(alloc))
}

/// `find` without what is said of the file of the certificate, of the answer and of the source.
fn marking<'a>(alloc: Global) -> Result<clap::Command<'a>, AllocError>
    ensures app { IfOk result (λ find. app_of find ≡ marking_app) }
    ensures local { IfOk result (λ find. (fields_of find).has_globals ≡ false) }
{
    framing(alloc)?.arg(strict(alloc))?.arg(places(alloc))
}

/// `find` without its flags.
fn framing<'a>(alloc: Global) -> Result<clap::Command<'a>, AllocError>
    ensures app { IfOk result (λ find. app_of find ≡ framing_app) }
    ensures local { IfOk result (λ find. (fields_of find).has_globals ≡ false) }
{
    let find = on_many(alloc, "find", "Finds certificates of stories")?;
    let find = find.after_help(FIND_ENDING).arg(output(alloc))?;
    find.arg(frames(alloc))
}

fn check<'a>(alloc: Global) -> Result<clap::Command<'a>, AllocError>
    ensures app { IfOk result (λ check. app_of check ≡ check_app) }
    ensures local { IfOk result (λ check. (fields_of check).has_globals ≡ false) }
{
    let check = on_many(alloc, "check", "Checks certificates of stories")?;
    let check = check.after_help(CHECK_ENDING).arg(json(alloc))?;
    check.arg(debug(alloc))
}

fn show<'a>(alloc: Global) -> Result<clap::Command<'a>, AllocError>
    ensures app { IfOk result (λ show. app_of show ≡ show_app) }
    ensures local { IfOk result (λ show. (fields_of show).has_globals ≡ false) }
{
    let show = on_files(alloc, "show", "Shows what a certificate says", true)?;
    show.after_help(
        "Examples:
  zpc show story.z3 story.cert
  zpc show story.z3 story.cert 00325",
    )
    .arg(address(alloc))?
    .arg(debug(alloc))
}

fn play<'a>(alloc: Global) -> Result<clap::Command<'a>, AllocError>
    ensures app { IfOk result (λ play. app_of play ≡ play_app) }
    ensures local { IfOk result (λ play. (fields_of play).has_globals ≡ false) }
{
    let play = recording(alloc)?.arg(no_save(alloc))?;
    play.arg(commands(alloc))?.arg(debug(alloc))
}

/// `play` without what is said of keeping no saves, of the player's own commands, and of the source.
fn recording<'a>(alloc: Global) -> Result<clap::Command<'a>, AllocError>
    ensures app { IfOk result (λ play. app_of play ≡ recording_app) }
    ensures local { IfOk result (λ play. (fields_of play).has_globals ≡ false) }
{
    let play = showing(alloc)?.arg(recorded(alloc))?;
    play.arg(replayed(alloc))
}

/// The same without what is said of the lines typed.
fn showing<'a>(alloc: Global) -> Result<clap::Command<'a>, AllocError>
    ensures app { IfOk result (λ play. app_of play ≡ showing_app) }
    ensures local { IfOk result (λ play. (fields_of play).has_globals ≡ false) }
{
    let play = frontless(alloc)?.arg(width(alloc))?;
    play.arg(plain(alloc))?.arg(transcript(alloc))
}

/// `play` without what is said of how text is shown too.
fn frontless<'a>(alloc: Global) -> Result<clap::Command<'a>, AllocError>
    ensures app { IfOk result (λ play. app_of play ≡ frontless_app) }
    ensures local { IfOk result (λ play. (fields_of play).has_globals ≡ false) }
{
    strict_play(alloc)?.arg(lenient(alloc))
}

/// `play` without what is said of faults.
fn strict_play<'a>(alloc: Global) -> Result<clap::Command<'a>, AllocError>
    ensures app { IfOk result (λ play. app_of play ≡ strict_app) }
    ensures local { IfOk result (λ play. (fields_of play).has_globals ≡ false) }
{
    let play = saveless(alloc)?.arg(save(alloc))?;
    play.arg(tell(alloc))?.arg(force(alloc))
}

/// `play` without what is said of saves.
fn saveless<'a>(alloc: Global) -> Result<clap::Command<'a>, AllocError>
    ensures app { IfOk result (λ play. app_of play ≡ saveless_app) }
    ensures local { IfOk result (λ play. (fields_of play).has_globals ≡ false) }
{
    let play = counted(alloc)?.arg(status(alloc))?;
    play.arg(framed_status(alloc))
}

/// `play` with its story, its certificate and its numbers alone.
fn counted<'a>(alloc: Global) -> Result<clap::Command<'a>, AllocError>
    ensures app { IfOk result (λ play. app_of play ≡ counted_app) }
    ensures local { IfOk result (λ play. (fields_of play).has_globals ≡ false) }
{
    let play = on_files(
        alloc,
        "play",
        "Plays a story, with a certificate or without",
        false,
    )?;
    let play = play.after_help(PLAY_ENDING).arg(seed(alloc))?;
    play.arg(budget(alloc))
}

fn info<'a>(alloc: Global) -> Result<clap::Command<'a>, AllocError>
    ensures app { IfOk result (λ info. app_of info ≡ info_app) }
    ensures local { IfOk result (λ info. (fields_of info).has_globals ≡ false) }
{
    let info = clap::Command::new(alloc, "info").about(
        "Tells what a story says of itself, and what it has",
    );
    let info = info.after_help("Examples:\n  zpc info story.z3\n  zpc info --json story.z3");
    info.arg(story(alloc))?.arg(json(alloc))
}

fn explain<'a>(alloc: Global) -> Result<clap::Command<'a>, AllocError>
    ensures app { IfOk result (λ explain. app_of explain ≡ explain_app) }
    ensures local { IfOk result (λ explain. (fields_of explain).has_globals ≡ false) }
{
    let explain = clap::Command::new(alloc, "explain").about(
        "Says what a code means, or each of them",
    );
    let explain = explain.after_help(
        "Examples:
  zpc explain
  zpc explain I5
  zpc explain --json I5",
    );
    explain.arg(code(alloc))?.arg(json(alloc))
}

fn unpack<'a>(alloc: Global) -> Result<clap::Command<'a>, AllocError>
    ensures app { IfOk result (λ unpack. app_of unpack ≡ unpack_app) }
    ensures local { IfOk result (λ unpack. (fields_of unpack).has_globals ≡ false) }
{
    let unpack = naming(alloc)?.arg(out(alloc))?;
    unpack.arg(force(alloc))
}

/// `unpack` without the file that it makes.
fn naming<'a>(alloc: Global) -> Result<clap::Command<'a>, AllocError>
    ensures app { IfOk result (λ unpack. app_of unpack ≡ naming_app) }
    ensures local { IfOk result (λ unpack. (fields_of unpack).has_globals ≡ false) }
{
    let unpack = clap::Command::new(alloc, "unpack").about(
        "Rewrites a save of another interpreter as one that zpc restores",
    );
    let unpack = unpack.after_help(UNPACK_ENDING);
    unpack.arg(story(alloc))?.arg(packed(alloc))
}

/// A command on a story and a certificate, which has to be there or may be.
fn on_files<'a>(
    alloc: Global,
    name: &'a str,
    about: &'a str,
    required: bool,
) -> Result<clap::Command<'a>, AllocError>
    ensures app { IfOk result (λ command. app_of command ≡ files_app name.now required) }
    ensures local { IfOk result (λ command. (fields_of command).has_globals ≡ false) }
{
    let command = clap::Command::new(alloc, name).about(about);
    command.arg(story(alloc))?.arg(certificate(alloc, required))
}

/// A command on files, of which there is at least one.
fn on_many<'a>(
    alloc: Global,
    name: &'a str,
    about: &'a str,
) -> Result<clap::Command<'a>, AllocError>
    ensures app { IfOk result (λ command. app_of command ≡ many_app name.now) }
    ensures local { IfOk result (λ command. (fields_of command).has_globals ≡ false) }
{
    let command = clap::Command::new(alloc, name).about(about);
    command.arg(files(alloc))
}

/// A word without a name before it, which has to be there or may be.
fn word<'a>(alloc: Global, name: &'a str, help: &'a str, required: bool) -> Arg<'a>
    ensures rule { rule_of result ≡ word_rule name.now required }
    ensures local { result.global ≡ false }
{
    Arg::new(alloc, name).help(help).required(required)
}

fn story<'a>(alloc: Global) -> Arg<'a>
    ensures rule { rule_of result ≡ story_rule }
    ensures local { result.global ≡ false }
{
    word(alloc, "STORY", "The story's file", true)
}

fn certificate<'a>(alloc: Global, required: bool) -> Arg<'a>
    ensures rule { rule_of result ≡ certificate_rule required }
    ensures local { result.global ≡ false }
{
    word(alloc, "CERT", "The certificate's file", required)
}

fn files<'a>(alloc: Global) -> Arg<'a>
    ensures rule { rule_of result ≡ files_rule }
    ensures local { result.global ≡ false }
{
    word(
        alloc,
        "FILE",
        "Stories' files, or a story's file and its certificate's",
        true,
    )
    .action(ArgAction::Append)
}

fn output<'a>(alloc: Global) -> Arg<'a>
    ensures rule { rule_of result ≡ output_rule }
    ensures local { result.global ≡ false }
{
    kept_in(
        alloc,
        "output",
        "The file that the certificate of one story is kept in",
        "CERT",
    )
    .short('o')
}

fn packed<'a>(alloc: Global) -> Arg<'a>
    ensures rule { rule_of result ≡ packed_rule }
    ensures local { result.global ≡ false }
{
    word(alloc, "SAVE", "The file of a save", true)
}

fn out<'a>(alloc: Global) -> Arg<'a>
    ensures rule { rule_of result ≡ out_rule }
    ensures local { result.global ≡ false }
{
    word(alloc, "OUT", "The file that the plain save goes to", true)
}

fn address<'a>(alloc: Global) -> Arg<'a>
    ensures rule { rule_of result ≡ address_rule }
    ensures local { result.global ≡ false }
{
    word(
        alloc,
        "ADDRESS",
        "The address of an instruction, as zpc list writes it: 00325",
        false,
    )
}

fn code<'a>(alloc: Global) -> Arg<'a>
    ensures rule { rule_of result ≡ code_rule }
    ensures local { result.global ≡ false }
{
    word(
        alloc,
        "CODE",
        "The code of a refusal, a fault or a failure, as I5 or F11; all, where none is named",
        false,
    )
}

fn seed<'a>(alloc: Global) -> Arg<'a>
    ensures rule { rule_of result ≡ seed_rule }
    ensures local { result.global ≡ false }
{
    Arg::new(alloc, "seed")
        .long("seed")
        .help("Decides the random words; random draws it")
        .value_name("N")
        .value_parser(value_parser!(u64))
        .default_value(SEED)
}

fn budget<'a>(alloc: Global) -> Arg<'a>
    ensures rule { rule_of result ≡ budget_rule }
    ensures local { result.global ≡ false }
{
    Arg::new(alloc, "budget")
        .long("budget")
        .help("The most steps that are made")
        .value_name("N")
        .value_parser(value_parser!(u32))
        .default_value(BUDGET)
}

fn frames<'a>(alloc: Global) -> Arg<'a>
    ensures rule { rule_of result ≡ frames_rule }
    ensures local { result.global ≡ false }
{
    Arg::new(alloc, "frames")
        .long("frames")
        .help("The most frames above the first, at most 4096")
        .value_name("N")
        .value_parser(ValueParser::signed(0, i64::from(MOST_FRAMES)))
}

fn strict<'a>(alloc: Global) -> Arg<'a>
    ensures rule { rule_of result ≡ strict_rule }
    ensures local { result.global ≡ false }
{
    Arg::new(alloc, "strict")
        .long("strict")
        .help("Finds only a certificate that marks no instruction")
        .action(ArgAction::SetTrue)
}

fn places<'a>(alloc: Global) -> Arg<'a>
    ensures rule { rule_of result ≡ places_rule }
    ensures local { result.global ≡ false }
{
    Arg::new(alloc, "places")
        .long("places")
        .help("Lists the instructions that are marked, and why")
        .action(ArgAction::SetTrue)
}

fn status<'a>(alloc: Global) -> Arg<'a>
    ensures rule { rule_of result ≡ status_rule }
    ensures local { result.global ≡ false }
{
    Arg::new(alloc, "status")
        .long("status")
        .help("Writes status lines too")
        .action(ArgAction::SetTrue)
}

fn framed_status<'a>(alloc: Global) -> Arg<'a>
    ensures rule { rule_of result ≡ framed_status_rule }
    ensures local { result.global ≡ false }
{
    Arg::new(alloc, "framed-status")
        .long("framed-status")
        .help("Writes status lines too, each between bytes that no text has: 2, 31, 3")
        .action(ArgAction::SetTrue)
}

fn save<'a>(alloc: Global) -> Arg<'a>
    ensures rule { rule_of result ≡ save_rule }
    ensures local { result.global ≡ false }
{
    kept_in(alloc, "save", "The file that saves are kept in", "FILE")
}

fn width<'a>(alloc: Global) -> Arg<'a>
    ensures rule { rule_of result ≡ width_rule }
    ensures local { result.global ≡ false }
{
    Arg::new(alloc, "width")
        .long("width")
        .help("Wraps text at so many columns, from 1 to 1000")
        .value_name("N")
        .value_parser(ValueParser::signed(1, i64::from(MOST_WIDTH)))
}

fn plain<'a>(alloc: Global) -> Arg<'a>
    ensures rule { rule_of result ≡ plain_rule }
    ensures local { result.global ≡ false }
{
    Arg::new(alloc, "plain")
        .long("plain")
        .help("Wraps nothing, stops nowhere and draws no status line, on a terminal too")
        .action(ArgAction::SetTrue)
}

fn transcript<'a>(alloc: Global) -> Arg<'a>
    ensures rule { rule_of result ≡ transcript_rule }
    ensures local { result.global ≡ false }
{
    let help = "The file that the text and the lines typed are kept in";
    kept_in(alloc, "transcript", help, "FILE")
}

fn recorded<'a>(alloc: Global) -> Arg<'a>
    ensures rule { rule_of result ≡ record_rule }
    ensures local { result.global ≡ false }
{
    let help = "The file that the lines typed are kept in";
    kept_in(alloc, "record", help, "FILE")
}

fn replayed<'a>(alloc: Global) -> Arg<'a>
    ensures rule { rule_of result ≡ replay_rule }
    ensures local { result.global ≡ false }
{
    let help = "A file whose lines are read before those typed";
    kept_in(alloc, "replay", help, "FILE")
}

fn no_save<'a>(alloc: Global) -> Arg<'a>
    ensures rule { rule_of result ≡ no_save_rule }
    ensures local { result.global ≡ false }
{
    Arg::new(alloc, "no-save")
        .long("no-save")
        .help("Keeps no saves, on a terminal too")
        .action(ArgAction::SetTrue)
}

fn commands<'a>(alloc: Global) -> Arg<'a>
    ensures rule { rule_of result ≡ commands_rule }
    ensures local { result.global ≡ false }
{
    Arg::new(alloc, "commands")
        .long("commands")
        .help("Does /undo, /quit and /help itself, each prompt with a budget of its own")
        .action(ArgAction::SetTrue)
}

fn debug<'a>(alloc: Global) -> Arg<'a>
    ensures rule { rule_of result ≡ debug_rule }
    ensures local { result.global ≡ false }
{
    let help = "Tells the source's lines and names by this file, which Inform 6 writes with -k";
    kept_in(alloc, "debug", help, "FILE")
}

/// An option whose value is the name of a file, which isn't empty.
fn kept_in<'a>(alloc: Global, name: &'a str, help: &'a str, value: &'a str) -> Arg<'a>
    ensures rule { rule_of result ≡ file_rule name.now }
    ensures local { result.global ≡ false }
{
    Arg::new(alloc, name)
        .long(name)
        .help(help)
        .value_name(value)
        .value_parser(ValueParser::NonEmptyString)
}

fn json<'a>(alloc: Global) -> Arg<'a>
    ensures rule { rule_of result ≡ json_rule }
    ensures local { result.global ≡ false }
{
    Arg::new(alloc, "json")
        .long("json")
        .help("Answers with one object of JSON a line")
        .action(ArgAction::SetTrue)
}

fn tell<'a>(alloc: Global) -> Arg<'a>
    ensures rule { rule_of result ≡ tell_rule }
    ensures local { result.global ≡ false }
{
    Arg::new(alloc, "tell")
        .long("tell")
        .help("Tells of each save that is refused why it is")
        .action(ArgAction::SetTrue)
}

fn lenient<'a>(alloc: Global) -> Arg<'a>
    ensures rule { rule_of result ≡ lenient_rule }
    ensures local { result.global ≡ false }
{
    Arg::new(alloc, "lenient")
        .long("lenient")
        .help("Goes on after faults as interpreters do, and tells of them")
        .action(ArgAction::SetTrue)
}

fn force<'a>(alloc: Global) -> Arg<'a>
    ensures rule { rule_of result ≡ force_rule }
    ensures local { result.global ≡ false }
{
    Arg::new(alloc, "force")
        .long("force")
        .help("Writes over a file that holds something else")
        .action(ArgAction::SetTrue)
}

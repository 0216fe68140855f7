//! Doing what the words ask for.

ghost use Rattle.std.specs.Prelude.{◌≡◌, ◌≢◌, [], false, true, IfSome, List, None, option_map};
ghost use Rattle.clap.specs.Kinds.{HasKind, Kinds};
ghost use Rattle.clap.specs.Walk.{texts};
ghost use Rattle.clap.specs.Words.{fault_of};
ghost use Rattle.zcommand.specs.CommandLine.{IsLow, request_of, zpc_app};
ghost use Rattle.zplayer.specs.Outside.{Blames};
ghost use Rattle.zperform.specs.Blaming.{IsUnreadOf};
ghost use Rattle.zperform.specs.Accepting.{CheckComesTo, IsOfEither};
ghost use Rattle.zperform.specs.Beside.{Aside};
ghost use Rattle.zperform.specs.Devices.{Ends, FlushesUnless, Held, ReadsUnless, Says, Told, UsesUnless, Writes, devices, held, seen, told};
ghost use Rattle.zperform.specs.Keeping.{IsOccupied, MayWrite, kept_in};
ghost use Rattle.zperform.specs.Performing.{Begins, Comes, Explains, IsBlamed, IsToldOf, Performs, Reports, SaysFor, SaysOutcome, is_each, is_quiet, spared_in, spoken, written_by};
ghost use Rattle.zperform.specs.Report.{line_of, no_text, outcome_of, text_of};
ghost use Rattle.zquetzal.specs.declared.error.SaveError.{SaveError as ARefusal};

use crate::accepting::accept;
use crate::blame::Blame;
use crate::checking::check_each;
use crate::excusing::play_excused;
use crate::explaining::explain_code;
use crate::files::Files;
use crate::finding::Search;
use crate::informing::inform;
use crate::listing::{list_certificate, list_file};
use crate::message::Message;
use crate::outcome::{Failure, Outcome, Problem, Purpose};
use crate::playing::{Asked, Devices, play, play_by_certificate};
use crate::seeking::{find_each, find_one};
use crate::showing::show_files;
use crate::unpacking::unpack_file;
use crate::wording::{Speech, worded};
use clap::Error;
use clap::error::ErrorKind;
use std::alloc::Global;
use zcommand::{Command, command_of, read_words};
use zfault::{Failed, Sink, Source, write_whole};
use zplayer::{End, Options};
use zprompt::Manner;

/// The exit status where the words are wrong.
const USAGE: u8 = 2;

/// What is said of arguments that are no text.
const NO_TEXT: &[u8] = b"error: invalid UTF-8 was detected in one or more arguments

Usage: zpc <COMMAND>

For more information, try '--help'.
";

/// Does what the words after the program's name ask for, and answers the exit status. What a story shows, and help
/// that was asked for, go to the writer; a line on anything else goes to `errors`, where a failure is ignored. Both are flushed. Where a
/// play is to tell of saves that are refused, as it is on a terminal, their lines come before that of its end.
/// The reader gives a story its lines, and isn't touched but for a play. With `commands` a line of it that begins with a `/` is a command of
/// the player's own, which the story never sees; a lenient play has none.
///
/// What is wrong is found in this order: the words, a file that isn't to be written over, the story, its certificate, the work.
pub fn perform<F: Files, R: Source, W: Sink, E: Sink>(
    alloc: Global,
    words: &[&str],
    speech: Speech,
    commands: bool,
    files: &mut F,
    reader: &mut R,
    writer: &mut W,
    errors: &mut E,
) -> u8
    ensures performs { fault_of zpc_app (texts words.entry.now) ≡ [] → Performs (texts words.entry.now) speech commands result (devices (held F.known F.failures F.can_fail F.blamed files.old) (told R.remaining R.failures reader.old) (seen W.contents W.failures W.waits writer.old) (seen E.contents E.failures E.waits errors.old)) (devices (held F.known F.failures F.can_fail F.blamed files.new) (told R.remaining R.failures reader.new) (seen W.contents W.failures W.waits writer.new) (seen E.contents E.failures E.waits errors.new)) }
    ensures explains { fault_of zpc_app (texts words.entry.now) ≢ [] → Explains (fault_of zpc_app (texts words.entry.now)) result (devices (held F.known F.failures F.can_fail F.blamed files.old) (told R.remaining R.failures reader.old) (seen W.contents W.failures W.waits writer.old) (seen E.contents E.failures E.waits errors.old)) (devices (held F.known F.failures F.can_fail F.blamed files.new) (told R.remaining R.failures reader.new) (seen W.contents W.failures W.waits writer.new) (seen E.contents E.failures E.waits errors.new)) }
{
    match read_words(alloc, words) {
        Ok(matches) => {
            let asked = command_of(&matches);
            let command = spoken(asked, speech);
            let outcome = carry_out(alloc, command, commands, files, reader, writer, errors);
            files.clear();
            report(alloc, &outcome, speech, files.blame(), errors)
        }
        Err(error) => explain(alloc, &error, writer, errors),
    }
}

/// What is done of a command: where words are told, as on a terminal, a play tells of each save that is refused.
fn spoken<'s, 'a>(command: Command<'s, 'a>, speech: Speech) -> Command<'s, 'a>
    ensures request { request_of result ≡ spoken speech (request_of command.entry) }
    ensures low { IsLow command.entry → IsLow result }
{
    match (speech, command) {
        (
            Speech::Words,
            Command::Play {
                story,
                certificate,
                seed,
                budget,
                status,
                save,
                force,
                lenient,
                ..
            },
        ) => Command::Play {
            story,
            certificate,
            seed,
            budget,
            status,
            save,
            tell: true,
            force,
            lenient,
        },
        _ => command,
    }
}

/// Does what a command asks for, unless its file isn't to be written over.
fn carry_out<F: Files, R: Source, W: Sink, E: Sink>(
    alloc: Global,
    command: Command<'_, '_>,
    commands: bool,
    files: &mut F,
    reader: &mut R,
    writer: &mut W,
    errors: &mut E,
) -> Outcome
    requires low { IsLow command }
    ensures comes { (aside : Aside) × (refusals : List ARefusal) × Begins commands (request_of command.entry) (held F.known F.failures F.can_fail F.blamed files.old) (held F.known F.failures F.can_fail F.blamed files.new) (R.remaining reader.old) aside refusals (W.contents writer.old) (W.contents writer.new) result × SaysFor (request_of command.entry) aside refusals (seen E.contents E.failures E.waits errors.old) (seen E.contents E.failures E.waits errors.new) }
    ensures writer { FlushesUnless W.failures W.waits writer.old writer.new (result ≡ Outcome.Stopped (Problem.Failed Failure.Write)) }
    ensures files { is_each (request_of command.entry) ≡ false → UsesUnless F.known F.failures files.old files.new (spared_in (request_of command.entry)) (written_by (request_of command.entry)) (result ≡ Outcome.Stopped (Problem.Failed Failure.File)) }
    ensures could { result ≡ Outcome.Stopped (Problem.Failed Failure.File) → IsBlamed (request_of command.entry) (held F.known F.failures F.can_fail F.blamed files.old) }
    ensures blamed { result ≡ Outcome.Stopped (Problem.Failed Failure.File) → IsToldOf (request_of command.entry) (F.blamed files.new) }
    ensures reader { Blames (result ≡ Outcome.Stopped (Problem.Failed Failure.Read)) (R.failures reader.old) (R.failures reader.new) }
    ensures unasked { is_quiet (request_of command.entry) ≡ true → reader.new ≡ reader.old }
{
    match occupied(command, files) {
        Some(purpose) => Outcome::Stopped(Problem::Occupied(purpose)),
        None => fulfil(alloc, command, commands, files, reader, writer, errors),
    }
}

/// What the file is for that a command may write, where it holds something else.
fn occupied<F: Files>(command: Command<'_, '_>, files: &F) -> Option<Purpose>
    ensures occupied { IfSome result (λ purpose. IsOccupied (request_of command.entry) (F.known files.now) (Problem.Occupied purpose)) }
    ensures free { result ≡ None → MayWrite (request_of command.entry) (F.known files.now) }
{
    let (name, purpose) = kept_by(command)?;
    if files.may_replace(name, purpose.magic()) {
        None
    } else {
        Some(purpose)
    }
}

/// The file that a command may write and what it is for, unless it may be written over whatever it holds.
fn kept_by<'a>(command: Command<'_, 'a>) -> Option<(&'a str, Purpose)>
    ensures { option_map (λ file. (file.0.now, file.1)) result ≡ kept_in (request_of command.entry) }
{
    match command {
        Command::Find {
            certificate,
            force: false,
            json: false,
            ..
        } => Some((certificate, Purpose::Certificate)),
        Command::Play {
            save: Some(save),
            force: false,
            ..
        } => Some((save, Purpose::Save)),
        Command::Unpack {
            out,
            force: false,
            ..
        } => Some((out, Purpose::Save)),
        _ => None,
    }
}

/// Does what a command asks for.
fn fulfil<F: Files, R: Source, W: Sink, E: Sink>(
    alloc: Global,
    command: Command<'_, '_>,
    commands: bool,
    files: &mut F,
    reader: &mut R,
    writer: &mut W,
    errors: &mut E,
) -> Outcome
    requires low { IsLow command }
    ensures comes { (aside : Aside) × (refusals : List ARefusal) × Comes commands (request_of command.entry) (held F.known F.failures F.can_fail F.blamed files.old) (held F.known F.failures F.can_fail F.blamed files.new) (R.remaining reader.old) aside refusals (W.contents writer.old) (W.contents writer.new) result × SaysFor (request_of command.entry) aside refusals (seen E.contents E.failures E.waits errors.old) (seen E.contents E.failures E.waits errors.new) }
    ensures writer { FlushesUnless W.failures W.waits writer.old writer.new (result ≡ Outcome.Stopped (Problem.Failed Failure.Write)) }
    ensures files { is_each (request_of command.entry) ≡ false → UsesUnless F.known F.failures files.old files.new (spared_in (request_of command.entry)) (written_by (request_of command.entry)) (result ≡ Outcome.Stopped (Problem.Failed Failure.File)) }
    ensures could { result ≡ Outcome.Stopped (Problem.Failed Failure.File) → IsBlamed (request_of command.entry) (held F.known F.failures F.can_fail F.blamed files.old) }
    ensures blamed { result ≡ Outcome.Stopped (Problem.Failed Failure.File) → IsToldOf (request_of command.entry) (F.blamed files.new) }
    ensures reader { Blames (result ≡ Outcome.Stopped (Problem.Failed Failure.Read)) (R.failures reader.old) (R.failures reader.new) }
    ensures unasked { is_quiet (request_of command.entry) ≡ true → reader.new ≡ reader.old }
{
    match command {
        Command::List {
            story,
            certificate: None,
            json,
        } => list_file(alloc, story, json, files, writer),
        Command::List {
            story,
            certificate: Some(certificate),
            json,
        } => list_certificate(alloc, story, certificate, json, files, writer),
        Command::Find {
            story,
            certificate,
            frames,
            strict,
            places,
            force,
            json,
        } => {
            let search = Search {
                frames,
                strict,
                places,
                json,
            };
            find_one(alloc, story, certificate, search, force, files, writer)
        }
        Command::FindEach {
            stories,
            frames,
            strict,
            places,
            force,
            json,
        } => {
            let search = Search {
                frames,
                strict,
                places,
                json,
            };
            find_each(alloc, stories, None, search, force, files, writer)
        }
        Command::OneForMany => Outcome::OneForMany,
        Command::Check {
            story,
            certificate,
            json: false,
        } => check_files(alloc, story, certificate, files, writer),
        Command::Check {
            story,
            certificate,
            json: true,
        } => check_each(alloc, &[story], Some(certificate), true, files, writer),
        Command::CheckEach { stories, json } => {
            check_each(alloc, stories, None, json, files, writer)
        }
        Command::Show {
            story,
            certificate,
            address,
        } => show_files(alloc, story, certificate, address, files, writer),
        Command::Play {
            story,
            certificate,
            seed,
            budget,
            status,
            save,
            tell,
            lenient,
            ..
        } => {
            let manner = Manner {
                options: Options { budget, status },
                commands,
            };
            let asked = Asked {
                seed,
                manner,
                save,
                tell,
            };
            let mut devices = Devices::new(files, reader, writer, errors);
            match certificate {
                _ if lenient => outcome_of(play_excused(
                    alloc,
                    story,
                    certificate,
                    asked,
                    &mut devices,
                )),
                None => outcome_of(play(alloc, story, asked, &mut devices)),
                Some(certificate) => outcome_of(play_by_certificate(
                    alloc,
                    story,
                    certificate,
                    asked,
                    &mut devices,
                )),
            }
        }
        Command::Info { story, json } => inform(alloc, story, json, files, writer),
        Command::Explain { code, json } => explain_code(alloc, code, json, writer),
        Command::Unpack {
            story,
            save,
            out,
            ..
        } => unpack_file(alloc, story, save, out, files),
    }
}

/// Says whether a story is accepted with a certificate, each in its file, and how many instructions are marked, if any are.
fn check_files<F: Files, W: Sink>(
    alloc: Global,
    story: &str,
    certificate: &str,
    files: &mut F,
    writer: &mut W,
) -> Outcome
    ensures comes { CheckComesTo (F.known files.old story.now) (F.known files.old certificate.now) (W.contents writer.old) (W.contents writer.new) result }
    ensures writer { FlushesUnless W.failures W.waits writer.old writer.new (result ≡ Outcome.Stopped (Problem.Failed Failure.Write)) }
    ensures files { ReadsUnless F.known F.failures F.can_fail files.old files.new (result ≡ Outcome.Stopped (Problem.Failed Failure.File)) }
    ensures could { result ≡ Outcome.Stopped (Problem.Failed Failure.File) → IsOfEither (held F.known F.failures F.can_fail F.blamed files.old) story.now certificate.now }
    ensures blamed { result ≡ Outcome.Stopped (Problem.Failed Failure.File) → IsUnreadOf story.now certificate.now (F.blamed files.new) }
{
    let accepted = match accept(alloc, story, certificate, files) {
        Ok(accepted) => accepted,
        Err(problem) => return Outcome::Stopped(problem),
    };
    let line = Message::of_accepted(accepted.marks());
    write_done(line.as_slice(), Outcome::Accepted, writer)
}

/// Writes a text, and answers this outcome of it, or that writing failed.
pub fn write_done<W: Sink>(text: &[u8], done: Outcome, writer: &mut W) -> Outcome
    requires { done ≢ Outcome.Stopped (Problem.Failed Failure.Write) }
    ensures ends { Ends (seen W.contents W.failures W.waits writer.old) (seen W.contents W.failures W.waits writer.new) text.now done result }
    ensures writer { FlushesUnless W.failures W.waits writer.old writer.new (result ≡ Outcome.Stopped (Problem.Failed Failure.Write)) }
{
    match write_and_flush(writer, text) {
        Ok(()) => done,
        Err(Failed) => Outcome::Stopped(Problem::Failed(Failure::Write)),
    }
}

/// Writes a text, and sees that it is through.
pub fn write_and_flush<W: Sink>(writer: &mut W, text: &[u8]) -> Result<(), Failed>
    ensures { Writes (seen W.contents W.failures W.waits writer.old) (seen W.contents W.failures W.waits writer.new) text.now result }
{
    write_whole(writer, text)?;
    writer.flush()
}

fn outcome_of(played: Result<End, Problem>) -> Outcome
    ensures { result ≡ outcome_of played }
{
    match played {
        Ok(end) => Outcome::Played(end),
        Err(problem) => Outcome::Stopped(problem),
    }
}

/// Says what a command came to, and answers the exit status.
pub fn report<E: Sink>(
    alloc: Global,
    outcome: &Outcome,
    speech: Speech,
    blame: Option<&Blame>,
    errors: &mut E,
) -> u8
    ensures { Reports speech (option_map (λ b. b.now) blame.entry) outcome.now result (seen E.contents E.failures E.waits errors.old) (seen E.contents E.failures E.waits errors.new) }
{
    match speech {
        Speech::Codes => say(Message::of(outcome).as_slice(), errors),
        Speech::Words => say_worded(alloc, outcome, blame, errors),
    }
    outcome.status()
}

/// Says it in words, and by its code alone where memory for words is wanting.
fn say_worded<E: Sink>(alloc: Global, outcome: &Outcome, blame: Option<&Blame>, errors: &mut E)
    ensures { SaysOutcome Speech.Words (option_map (λ b. b.now) blame.entry) outcome.now (seen E.contents E.failures E.waits errors.old) (seen E.contents E.failures E.waits errors.new) }
{
    match worded(alloc, outcome, blame) {
        Ok(text) => say(&text, errors),
        Err(_) => say(Message::of(outcome).as_slice(), errors),
    }
}

/// Writes a text and flushes it, where a failure is ignored. With no text nothing is called.
pub fn say<E: Sink>(text: &[u8], errors: &mut E)
    ensures { Says (seen E.contents E.failures E.waits errors.old) (seen E.contents E.failures E.waits errors.new) text.now }
{
    if !text.is_empty() {
        let _ = write_and_flush(errors, text);
    }
}

/// Writes clap's answer to words that name no command: to the writer where they ask for help or for the version.
fn explain<W: Sink, E: Sink>(alloc: Global, error: &Error, writer: &mut W, errors: &mut E) -> u8
    ensures { (kinds : Kinds) (files : Held) (reader : Told) → HasKind kinds error.now → Explains kinds result (devices files reader (seen W.contents W.failures W.waits writer.old) (seen E.contents E.failures E.waits errors.old)) (devices files reader (seen W.contents W.failures W.waits writer.new) (seen E.contents E.failures E.waits errors.new)) }
{
    if error.kind() == ErrorKind::OutOfMemory {
        return fail(Failure::Memory, errors);
    }
    let Ok(text) = error.to_string(alloc) else {
        return fail(Failure::Memory, errors);
    };
    if error.use_stderr() {
        say(text.as_bytes(), errors);
        return USAGE;
    }
    match write_and_flush(writer, text.as_bytes()) {
        Ok(()) => 0,
        Err(_) => fail(Failure::Write, errors),
    }
}

/// Says that an argument is no text, and so no word, and answers the exit status.
pub fn refuse_bytes<E: Sink>(errors: &mut E) -> u8
    ensures status { result ≡ 2 }
    ensures said { Says (seen E.contents E.failures E.waits errors.old) (seen E.contents E.failures E.waits errors.new) no_text }
{
    say(NO_TEXT, errors);
    USAGE
}

/// Says what failed, and answers the exit status.
pub fn fail<E: Sink>(failure: Failure, errors: &mut E) -> u8
    ensures status { result ≡ 4 }
    ensures said { Says (seen E.contents E.failures E.waits errors.old) (seen E.contents E.failures E.waits errors.new) (line_of (text_of (Outcome.Stopped (Problem.Failed failure)))) }
{
    let outcome = Outcome::Stopped(Problem::Failed(failure));
    say(Message::of(&outcome).as_slice(), errors);
    outcome.status()
}

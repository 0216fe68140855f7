//! The front of a command: the streams of the process, and the files of a play's text and lines, as devices that stand over one another.

use crate::asking::Asked;
use crate::keeping::{open, open_again};
use crate::sources::{Undebugged, debug_info, refuse};
use crate::terminal::{Shape, shape_of};
use std::alloc::Global;
use std::io::{self, IsTerminal, Write};
use std::rt::Runtime;
use zdebug::DebugInfo;
use zfault::{FromRead, Sink, Source, ToWrite};
use zfront::{
    Aside, Copied, Cursor, Followed, Headed, Heading, Lined, Paged, Recorded, Screen, Shown,
    Sourced, Typed, Unframed,
};
use zperform::{
    Action, Blame, Cause, Disk, Failure, Files, Outcome, Problem, Speech, fail, perform, read_file,
    report,
};

/// The most bytes that are read of a file of lines.
const REPLAY_LIMIT: usize = 1 << 24;

/// The files that text and lines are kept in, as far as there are any.
#[derive(Drop)]
struct KeptFiles<F> {
    /// The lines.
    record: Option<ToWrite<F>>,
    /// The text, and the lines in it.
    transcript: Option<ToWrite<F>>,
    /// The same file, for the lines.
    transcript_lines: Option<ToWrite<F>>,
}

/// What the devices of a command need to know.
#[derive(Clone, Copy)]
struct Context<'a> {
    rt: &'a HostRuntime,
    words: &'a [&'a str],
    /// What a play asks for, if the command is one.
    asked: Option<Asked<'a>>,
    /// The source's lines and names, if they are told.
    info: Option<&'a DebugInfo>,
    /// How the text of a play is shown.
    shape: Shape,
    /// Where the cursor of a terminal stands.
    cursor: &'a Cursor,
    /// What the status line at the top says.
    heading: &'a Heading,
}

impl<'a> Context<'a> {
    /// The source's lines and names in what is written: a play's text tells none.
    fn written_info(self) -> Option<&'a DebugInfo> {
        match self.asked {
            Some(_) => None,
            None => self.info,
        }
    }

    /// What the status line at the top says, where there is one.
    fn drawn_heading(self) -> Option<&'a Heading> {
        match self.shape.heading {
            Some(_) => Some(self.heading),
            None => None,
        }
    }
}

/// Does what the words ask for, and answers the exit status: with the devices that it asks for, whose files are opened first.
pub fn carry_out<E: Sink>(
    rt: &HostRuntime,
    words: &[&str],
    asked: Option<Asked<'_>>,
    errors: &mut E,
) -> u8 {
    let mut files = Disk::new(rt, shows_progress(rt, words));
    let info = match debug_info(rt.alloc(), words, &mut files) {
        Ok(info) => info,
        Err(Undebugged::Unread(problem)) => return stop(rt, problem, files.blame(), errors),
        Err(Undebugged::Refused(error)) => return refuse(error, speech_to(rt), errors),
    };
    let replayed = match replayed(rt.alloc(), asked, &mut files) {
        Ok(replayed) => replayed,
        Err(problem) => return stop(rt, problem, files.blame(), errors),
    };
    match kept(rt, asked) {
        Ok(kept) => {
            let cursor = Cursor::new(is_one_terminal(rt));
            let heading = Heading::new();
            let context = Context {
                rt,
                words,
                asked,
                info: info.as_ref(),
                shape: shape_of(rt, asked),
                cursor: &cursor,
                heading: &heading,
            };
            with_output(context, replayed, kept, &mut files, errors)
        }
        Err(blame) => stop(rt, Problem::Failed(Failure::File), Some(&blame), errors),
    }
}

/// Says why a command isn't begun, and answers the exit status.
fn stop<E: Sink>(rt: &HostRuntime, problem: Problem, blame: Option<&Blame>, errors: &mut E) -> u8 {
    let outcome = Outcome::Stopped(problem);
    report(rt.alloc(), &outcome, speech_to(rt), blame, errors)
}

/// The bytes of the file whose lines are read before those typed.
fn replayed<F: Files>(
    alloc: Global,
    asked: Option<Asked<'_>>,
    files: &mut F,
) -> Result<Vec<u8>, Problem> {
    match asked {
        Some(Asked { front, .. }) => match front.replay {
            Some(name) => read_file(alloc, files, name, REPLAY_LIMIT),
            None => Ok(Vec::new(alloc)),
        },
        None => Ok(Vec::new(alloc)),
    }
}

/// The files that text and lines are kept in.
fn kept<R: Runtime>(rt: &R, asked: Option<Asked<'_>>) -> Result<KeptFiles<R::File>, Blame> {
    let mut kept = KeptFiles {
        record: None,
        transcript: None,
        transcript_lines: None,
    };
    let Some(asked) = asked else {
        return Ok(kept);
    };
    if let Some(name) = asked.front.record {
        kept.record = Some(open(rt, name, asked.force)?);
    }
    if let Some(name) = asked.front.transcript {
        kept.transcript = Some(open(rt, name, asked.force)?);
        kept.transcript_lines = Some(open_again(rt, name)?);
    }
    Ok(kept)
}

/// How a command ended, and whether the files of a play are whole.
#[derive(Clone, Copy)]
struct Ended {
    status: u8,
    is_transcribed: bool,
    is_recorded: bool,
}

/// Does what the words ask for with text that goes to the output, below a status line if there is one.
fn with_output<K: Write + Drop, F: Files, E: Sink>(
    context: Context<'_>,
    replayed: Vec<u8>,
    kept: KeptFiles<K>,
    files: &mut F,
    errors: &mut E,
) -> u8 {
    let mut output = ToWrite::new(context.rt.stdout());
    let mut headed = Headed::new(&mut output, context.heading, context.shape.heading);
    let status = with_told(context, replayed, kept, files, &mut headed, errors);
    let _ = headed.close();
    status
}

/// Does it with text that tells of the source.
fn with_told<K: Write + Drop, F: Files, W: Sink, E: Sink>(
    context: Context<'_>,
    replayed: Vec<u8>,
    kept: KeptFiles<K>,
    files: &mut F,
    output: &mut W,
    errors: &mut E,
) -> u8 {
    let mut sourced = Sourced::new(context.rt.alloc(), output, context.written_info());
    with_shown(context, replayed, kept, files, &mut sourced, errors)
}

/// Does it with text that moves the cursor.
fn with_shown<K: Write + Drop, F: Files, W: Sink, E: Sink>(
    context: Context<'_>,
    replayed: Vec<u8>,
    kept: KeptFiles<K>,
    files: &mut F,
    output: &mut W,
    errors: &mut E,
) -> u8 {
    let mut shown = Shown::new(output, context.cursor);
    with_errors(context, replayed, kept, files, &mut shown, errors)
}

/// Does it with errors that begin a line.
fn with_errors<K: Write + Drop, F: Files, W: Sink, E: Sink>(
    context: Context<'_>,
    replayed: Vec<u8>,
    kept: KeptFiles<K>,
    files: &mut F,
    shown: &mut W,
    errors: &mut E,
) -> u8 {
    let mut told = Aside::new(errors, context.cursor);
    with_sources(context, replayed, kept, files, shown, &mut told)
}

/// Does it with errors that tell of the source.
fn with_sources<K: Write + Drop, F: Files, W: Sink, E: Sink>(
    context: Context<'_>,
    replayed: Vec<u8>,
    kept: KeptFiles<K>,
    files: &mut F,
    shown: &mut W,
    errors: &mut E,
) -> u8 {
    let mut sourced = Sourced::new(context.rt.alloc(), errors, context.info);
    with_pages(context, replayed, kept, files, shown, &mut sourced)
}

/// Does it with text that stops behind each screenful, if it is to.
fn with_pages<K: Write + Drop, F: Files, W: Sink, E: Sink>(
    context: Context<'_>,
    replayed: Vec<u8>,
    kept: KeptFiles<K>,
    files: &mut F,
    shown: &mut W,
    errors: &mut E,
) -> u8 {
    let mut keys = if context.shape.rows > 0 {
        Some(FromRead::new(context.rt.stdin()))
    } else {
        None
    };
    let mut paged = Paged::new(shown, keys.as_mut(), context.shape.rows);
    with_screen(context, replayed, kept, files, &mut paged, errors)
}

/// Does it with text that is shown as a play asks, and says at the end where a file isn't whole.
fn with_screen<K: Write + Drop, F: Files, W: Sink, E: Sink>(
    context: Context<'_>,
    replayed: Vec<u8>,
    kept: KeptFiles<K>,
    files: &mut F,
    shown: &mut W,
    errors: &mut E,
) -> u8 {
    let Ok(mut screen) = Screen::new(context.rt.alloc(), shown, context.shape.width) else {
        return fail(Failure::Memory, errors);
    };
    let ended = with_copy(context, replayed, kept, files, &mut screen, errors);
    say_unkept(context, ended, errors)
}

/// Does it with text of which a copy is kept, if it is to be.
fn with_copy<K: Write + Drop, F: Files, W: Sink, E: Sink>(
    context: Context<'_>,
    replayed: Vec<u8>,
    kept: KeptFiles<K>,
    files: &mut F,
    screen: &mut W,
    errors: &mut E,
) -> Ended {
    let KeptFiles {
        record,
        mut transcript,
        transcript_lines,
    } = kept;
    let lines = Lines {
        replayed,
        record,
        transcript: transcript_lines,
    };
    let mut writer = Copied::new(screen, transcript.as_mut());
    let mut ended = with_text(context, lines, files, &mut writer, errors);
    ended.is_transcribed = ended.is_transcribed && writer.is_whole();
    ended
}

/// Does it with text out of which the status lines are taken, if they stand at the top.
fn with_text<K: Write + Drop, F: Files, W: Sink, E: Sink>(
    context: Context<'_>,
    lines: Lines<K>,
    files: &mut F,
    writer: &mut W,
    errors: &mut E,
) -> Ended {
    let mut text = Unframed::new(writer, context.drawn_heading());
    with_lines(context, lines, files, &mut text, errors)
}

/// The lines of a file, which come first, and where lines are kept.
#[derive(Drop)]
struct Lines<F> {
    replayed: Vec<u8>,
    record: Option<ToWrite<F>>,
    transcript: Option<ToWrite<F>>,
}

/// Does it with lines of the input, which a terminal shows as they are typed.
fn with_lines<K: Write + Drop, F: Files, W: Sink, E: Sink>(
    context: Context<'_>,
    lines: Lines<K>,
    files: &mut F,
    writer: &mut W,
    errors: &mut E,
) -> Ended {
    let mut input = FromRead::new(context.rt.stdin());
    let mut typed = Typed::new(&mut input, context.cursor);
    with_replay(context, lines, files, &mut typed, writer, errors)
}

/// Does it with lines of a file before those.
fn with_replay<K: Write + Drop, F: Files, R: Source, W: Sink, E: Sink>(
    context: Context<'_>,
    lines: Lines<K>,
    files: &mut F,
    typed: &mut R,
    writer: &mut W,
    errors: &mut E,
) -> Ended {
    let Lines {
        replayed,
        record,
        transcript,
    } = lines;
    let mut before = FromRead::new(io::Cursor::new(replayed));
    let mut lines = Lined::new(&mut before);
    let mut echo = if context.shape.echoes {
        Some(ToWrite::new(context.rt.stdout()))
    } else {
        None
    };
    let mut shown = Recorded::new(&mut lines, echo.as_mut());
    let mut replayed = Typed::new(&mut shown, context.cursor);
    let mut reader = Followed::new(&mut replayed, typed);
    one_by_one(
        context,
        record,
        transcript,
        files,
        &mut reader,
        writer,
        errors,
    )
}

/// Does it with lines that come one by one.
fn one_by_one<K: Write + Drop, F: Files, R: Source, W: Sink, E: Sink>(
    context: Context<'_>,
    record: Option<ToWrite<K>>,
    transcript: Option<ToWrite<K>>,
    files: &mut F,
    lines: &mut R,
    writer: &mut W,
    errors: &mut E,
) -> Ended {
    let mut reader = Lined::new(lines);
    with_record(
        context,
        record,
        transcript,
        files,
        &mut reader,
        writer,
        errors,
    )
}

/// Does it with lines that are recorded, if they are to be.
fn with_record<K: Write + Drop, F: Files, R: Source, W: Sink, E: Sink>(
    context: Context<'_>,
    mut record: Option<ToWrite<K>>,
    transcript: Option<ToWrite<K>>,
    files: &mut F,
    lines: &mut R,
    writer: &mut W,
    errors: &mut E,
) -> Ended {
    let mut reader = Recorded::new(lines, record.as_mut());
    let mut ended = with_transcript(context, transcript, files, &mut reader, writer, errors);
    ended.is_recorded = reader.is_whole();
    ended
}

/// Does it with lines that the transcript has too, if there is one.
fn with_transcript<K: Write + Drop, F: Files, R: Source, W: Sink, E: Sink>(
    context: Context<'_>,
    mut transcript: Option<ToWrite<K>>,
    files: &mut F,
    lines: &mut R,
    writer: &mut W,
    errors: &mut E,
) -> Ended {
    let mut reader = Recorded::new(lines, transcript.as_mut());
    let status = perform(
        context.rt.alloc(),
        context.words,
        speech_to(context.rt),
        has_commands(context),
        files,
        &mut reader,
        writer,
        errors,
    );
    Ended {
        status,
        is_transcribed: reader.is_whole(),
        is_recorded: true,
    }
}

/// Says which of the files isn't whole, and answers the exit status of it, or the one that there was.
fn say_unkept<E: Sink>(context: Context<'_>, ended: Ended, errors: &mut E) -> u8 {
    let name = match context.asked {
        Some(Asked { front, .. }) if !ended.is_transcribed => front.transcript,
        Some(Asked { front, .. }) if !ended.is_recorded => front.record,
        _ => None,
    };
    match name {
        Some(name) => {
            let blame = Blame::new(name, Action::Write, Cause::Other);
            let problem = Problem::Failed(Failure::File);
            stop(context.rt, problem, Some(&blame), errors)
        }
        None => ended.status,
    }
}

/// Whether it is shown how far a command is: one that may take long, where errors are read on a terminal.
fn shows_progress(rt: &HostRuntime, words: &[&str]) -> bool {
    match words.first() {
        Some(first) => (*first == "find" || *first == "check") && rt.stderr().is_terminal(),
        None => false,
    }
}

/// Whether a play has the player's own commands: where that is asked for, or lines are typed and text shown on terminals.
fn has_commands(context: Context<'_>) -> bool {
    let Some(asked) = context.asked else {
        return false;
    };
    let rt = context.rt;
    let is_typed = rt.stdin().is_terminal() && rt.stdout().is_terminal();
    asked.front.commands || (is_typed && !asked.front.plain)
}

/// Whether lines are typed, and text and errors shown, on terminals.
fn is_one_terminal(rt: &HostRuntime) -> bool {
    rt.stdin().is_terminal() && rt.stdout().is_terminal() && rt.stderr().is_terminal()
}

/// How a line on the errors is told: a person who reads them on a terminal gets words, and anything else codes.
fn speech_to(rt: &HostRuntime) -> Speech {
    if rt.stderr().is_terminal() {
        Speech::Words
    } else {
        Speech::Codes
    }
}

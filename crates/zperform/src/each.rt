//! Many stories, one after another, each told of when it is done.

ghost use Rattle.std.specs.Prelude.{◌≡◌, ◌≢◌, ◌⊎◌, ◌<◌, ◌^◌, ℕ, false, true, length, List, Option, map, option_map, IfOk, IfSome};
ghost use Rattle.zbatch.specs.Summary.{total};
ghost use Rattle.zbatch.specs.declared.work.Ended.{Ended as Way};
ghost use Rattle.zperform.specs.Devices.{FlushesUnless, Held, Writes, held, seen};
ghost use Rattle.zperform.specs.Each.{EachComesTo, WritesText, ended_by, last_text, unmade_text};
ghost use Rattle.zbatch.specs.Working.{Runs, tally_of};
ghost use Rattle.zfault.specs.Devices.{RisesByOne};

use crate::files::Files;
use crate::outcome::{Failure, Outcome, Problem};
use crate::performing::{write_and_flush, write_done};
use std::alloc::{AllocError, Global};
use zbatch::{Ended, Tally, Wording, Work, summary_line, work_through};
use zfault::{Failed, Sink, write_whole};

/// What is told where memory for an object is wanting.
const UNMADE: &[u8] = b"{\"outcome\":\"failed\",\"code\":\"memory\"}\n";

/// What is done of each of many stories, and told of it.
pub trait Telling {
    /// By the files before and behind it and by its name, how that ends, and what is told, if there is memory for that.
    ghost Tells: { Self → Held → Held → List ℕ → Option (Way × List ℕ) → Type 0 };

    /// Does it of the story of a name, and answers how it ended and what is told; `None` where memory for that is wanting.
    fn tell<F: Files>(&self, alloc: Global, name: &str, files: &mut F) -> Option<(Ended, Vec<u8>)>
        ensures tells { Tells self.now (held F.known F.failures F.can_fail F.blamed files.old) (held F.known F.failures F.can_fail F.blamed files.new) name.now (option_map (λ told. (told.0, told.1.items)) result) }
        ensures written { IfSome result (λ told. told.0 ≢ Ended.Unwritten) };
}

/// What the work on each story needs.
#[derive(Drop)]
struct Each<'a, T: Telling, F: Files, W: Sink> {
    alloc: Global,
    telling: &'a T,
    json: bool,
    files: &'a mut F,
    writer: &'a mut W,
}

impl<'a, T: Telling, F: Files, W: Sink> Work for Each<'a, T, F, W> {
    ghost use Rattle.std.specs.Prelude.{◌≡◌};
    ghost use Rattle.zperform.specs.Devices.{held, seen};
    ghost use Rattle.zperform.specs.Each.{Steps};

    ghost Does = { λ old name ended new. (new.telling ≡ old.telling) × (new.json ≡ old.json) × (new.files.ghost_name ≡ old.files.ghost_name) × (new.writer.ghost_name ≡ old.writer.ghost_name) × Steps (T.Tells old.telling.now) old.json (held F.known F.failures F.can_fail F.blamed old.files.now) (held F.known F.failures F.can_fail F.blamed new.files.now) (seen W.contents W.failures W.waits old.writer.now) (seen W.contents W.failures W.waits new.writer.now) name ended };

    fn work(&mut self, name: &str) -> Ended {
        let told = self.telling.tell(self.alloc, name, self.files);
        self.files.clear();
        match told {
            Some((ended, text)) => match write_and_flush(self.writer, &text) {
                Ok(()) => ended,
                Err(Failed) => Ended::Unwritten,
            },
            None => match write_unmade(self.json, name, self.writer) {
                Ok(()) => Ended::Failed,
                Err(Failed) => Ended::Unwritten,
            },
        }
    }
}

/// Goes through these stories and writes what is told of each when it is done, and at the end how many ended in each way, but behind
/// objects. Nothing that is wrong with one ends the work on the others; only where a text can't be written no other is looked at.
pub fn tell_each<T: Telling, F: Files, W: Sink>(
    alloc: Global,
    stories: &[&str],
    telling: &T,
    json: bool,
    wording: Wording,
    files: &mut F,
    writer: &mut W,
) -> Outcome
    ensures comes { EachComesTo (T.Tells telling.now) json (last_text json wording) (map (λ story. story.now) stories.now) (held F.known F.failures F.can_fail F.blamed files.old) (held F.known F.failures F.can_fail F.blamed files.new) (W.contents writer.old) (W.contents writer.new) result }
    ensures writer { FlushesUnless W.failures W.waits writer.old writer.new (result ≡ Outcome.Stopped (Problem.Failed Failure.Write)) }
    ensures no_file { result ≢ Outcome.Stopped (Problem.Failed Failure.File) }
    ensures no_input { result ≢ Outcome.Stopped (Problem.Failed Failure.Read) }
{
    let tally = go_through(alloc, stories, telling, json, files, writer);
    if tally.unwritten {
        return Outcome::Stopped(Problem::Failed(Failure::Write));
    }
    match last_line(alloc, json, &tally, wording) {
        Ok(line) => write_done(&line, Outcome::Through(tally), writer),
        Err(_) => Outcome::Stopped(Problem::Failed(Failure::Memory)),
    }
}

/// Goes through these stories, and writes what is told of each when it is done.
fn go_through<'a, T: Telling, F: Files, W: Sink>(
    alloc: Global,
    stories: &[&str],
    telling: &'a T,
    json: bool,
    files: &'a mut F,
    writer: &'a mut W,
) -> Tally
    ensures told { (ends : List Way) × Runs (WritesText (T.Tells telling.now) json) (map (λ story. story.now) stories.now) (held F.known F.failures F.can_fail F.blamed files.old, W.contents writer.old) ends (held F.known F.failures F.can_fail F.blamed files.new, W.contents writer.new) × (result ≡ tally_of ends) }
    ensures counted { result.unwritten ≡ false → total result ≡ length stories.now }
    ensures blamed { result.unwritten ≡ true → RisesByOne (W.failures writer.old) (W.failures writer.new) }
    ensures free { result.unwritten ≡ false → (W.failures writer.new ≡ W.failures writer.old) × ((W.waits writer.new ≡ false) ⊎ (writer.new ≡ writer.old)) }
{
    let mut work = Each {
        alloc,
        telling,
        json,
        files,
        writer,
    };
    work_through(&mut work, stories)
}

/// What is told at the end: nothing behind objects.
fn last_line(
    alloc: Global,
    json: bool,
    tally: &Tally,
    wording: Wording,
) -> Result<Vec<u8>, AllocError>
    requires { total tally.now < 2 ^ 64 }
    ensures { IfOk result (λ line. line.items ≡ last_text json wording tally.now) }
{
    if json {
        Ok(Vec::new(alloc))
    } else {
        summary_line(alloc, tally, wording)
    }
}

/// Writes that memory was wanting to tell of a story.
fn write_unmade<W: Sink>(json: bool, name: &str, writer: &mut W) -> Result<(), Failed>
    ensures { Writes (seen W.contents W.failures W.waits writer.old) (seen W.contents W.failures W.waits writer.new) (unmade_text json name.now) result }
{
    if json {
        return write_and_flush(writer, UNMADE);
    }
    write_whole(writer, name.as_bytes())?;
    write_and_flush(writer, b": failed: memory\n")
}

/// How the work on a story ended that didn't go well.
pub fn ended_by(problem: &Problem) -> Ended
    ensures ended { result ≡ ended_by problem.now }
    ensures written { result ≢ Ended.Unwritten }
{
    match problem {
        Problem::Failed(_) => Ended::Failed,
        _ => Ended::Refused,
    }
}

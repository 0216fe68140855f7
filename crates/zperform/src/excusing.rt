//! Lenient play: what interpreters customarily do is done in the place of faults, and these are told of at the end.

ghost use Rattle.std.specs.Prelude.{◌≡◌, ◌≢◌, ℕ, IfOk, IsErrOf, List, None, Option, option_map};
ghost use Rattle.zquetzal.specs.declared.error.SaveError.{SaveError as ARefusal};
ghost use Rattle.zplayer.specs.Leniently.{Noted};
ghost use Rattle.zplayer.specs.Outside.{Blames};
ghost use Rattle.zperform.specs.Accepting.{HoldsStory};
ghost use Rattle.zperform.specs.Beside.{Aside};
ghost use Rattle.zperform.specs.Devices.{FlushesUnless, Says, UsesUnless, held, seen};
ghost use Rattle.zperform.specs.Excusing.{CanFailOf, ExcusedOut, IsUnreadOfThose, IsWarning, PlaysExcused, SaysBoth, SaysExcused, SaysNoted, SaysWarnings, warning_line};
ghost use Rattle.zperform.specs.Performing.{given, store_of};
ghost use Rattle.zperform.specs.Played.{SameDevices, file_of};
ghost use Rattle.zperform.specs.Report.{outcome_of};
ghost use Rattle.zperform.specs.Telling.{said_of};

use crate::accepting::{accept, open_story};
use crate::files::Files;
use crate::message::Message;
use crate::outcome::{Failure, Problem};
use crate::performing::say;
use crate::playing::{Asked, Devices, Playable, play_saving};
use crate::wording::add_short;
use std::alloc::{AllocError, Global};
use zfault::{Sink, Source};
use zplayer::{Answered, End, Lenience, Notes, SaveStore, Words, World, play_leniently};
use zprompt::Manner;
use zref::{CheckedMachine, Scope};
use zstory::Story;

/// A story of which faults are answered while it is played.
#[derive(Clone, Copy)]
struct Excused<'a> {
    story: &'a Story,
}

/// It is checked as it is played, with no commands of the player's own.
impl Playable for Excused<'_> {
    ghost Comes = { λ excused manner noted given refusals before now outcome. (known : Option (List ℕ)) → HoldsStory known excused.story.now → ExcusedOut known manner.options noted given refusals before now outcome };

    fn play<R: Source, W: Sink, S: SaveStore, G: Words>(
        &self,
        alloc: Global,
        manner: Manner,
        lenience: &mut Lenience,
        world: &mut World<'_, R, W, S, G>,
    ) -> Result<End, Problem> {
        let mut machine = CheckedMachine::new(alloc, self.story, Scope::All)?;
        let end = play_leniently(alloc, &mut machine, world, lenience, manner.options)?;
        Ok(end)
    }
}

/// Plays a story from its file with everything tested, and goes on after faults for which something is customary. With a certificate named the
/// story has to be accepted with it. At the end it tells of the faults that were answered: of the first of each place, and how many they were.
pub fn play_excused<F: Files, R: Source, W: Sink, E: Sink>(
    alloc: Global,
    story: &str,
    certificate: Option<&str>,
    asked: Asked<'_>,
    devices: &mut Devices<'_, F, R, W, E>,
) -> Result<End, Problem>
    ensures devices { SameDevices devices.old devices.new }
    ensures comes { (aside : Aside) × (refusals : List ARefusal) × PlaysExcused (held F.known F.failures F.can_fail F.blamed devices.old.files.now) story.now (option_map (λ c. c.now) certificate.entry) aside asked.entry.manner.options (given (R.remaining devices.old.reader.now) asked.entry.seed (store_of (file_of asked.entry))) refusals (W.contents devices.old.writer.now) (W.contents devices.new.writer.now) (outcome_of result) × SaysExcused aside (said_of asked.entry.tell (file_of asked.entry) refusals) (seen E.contents E.failures E.waits devices.old.errors.now) (seen E.contents E.failures E.waits devices.new.errors.now) }
    ensures writer { FlushesUnless W.failures W.waits devices.old.writer.now devices.new.writer.now (IsErrOf result (Problem.Failed Failure.Write)) }
    ensures files { UsesUnless F.known F.failures devices.old.files.now devices.new.files.now (file_of asked.entry) (file_of asked.entry) (IsErrOf result (Problem.Failed Failure.File)) }
    ensures could { IsErrOf result (Problem.Failed Failure.File) → CanFailOf (held F.known F.failures F.can_fail F.blamed devices.old.files.now) story.now (option_map (λ c. c.now) certificate.entry) }
    ensures blamed { IsErrOf result (Problem.Failed Failure.File) → IsUnreadOfThose story.now (option_map (λ c. c.now) certificate.entry) (F.blamed devices.new.files.now) }
    ensures reader { Blames (IsErrOf result (Problem.Failed Failure.Read)) (R.failures devices.old.reader.now) (R.failures devices.new.reader.now) }
{
    match certificate {
        None => {
            let story = open_story(alloc, story, devices.files)?;
            play_noting(alloc, &story, asked, devices)
        }
        Some(certificate) => {
            let accepted = accept(alloc, story, certificate, devices.files)?;
            play_noting(alloc, accepted.story(), asked, devices)
        }
    }
}

/// Plays a story so, and tells of the faults that were answered.
fn play_noting<F: Files, R: Source, W: Sink, E: Sink>(
    alloc: Global,
    story: &Story,
    asked: Asked<'_>,
    devices: &mut Devices<'_, F, R, W, E>,
) -> Result<End, Problem>
    ensures devices { SameDevices devices.old devices.new }
    ensures comes { (known : Option (List ℕ)) → HoldsStory known story.now → (noted : Noted) × (refusals : List ARefusal) × ExcusedOut known asked.entry.manner.options noted (given (R.remaining devices.old.reader.now) asked.entry.seed (store_of (file_of asked.entry))) refusals (W.contents devices.old.writer.now) (W.contents devices.new.writer.now) (outcome_of result) × SaysBoth (said_of asked.entry.tell (file_of asked.entry) refusals) noted (seen E.contents E.failures E.waits devices.old.errors.now) (seen E.contents E.failures E.waits devices.new.errors.now) }
    ensures writer { FlushesUnless W.failures W.waits devices.old.writer.now devices.new.writer.now (IsErrOf result (Problem.Failed Failure.Write)) }
    ensures no_file { ¬ IsErrOf result (Problem.Failed Failure.File) }
    ensures reader { Blames (IsErrOf result (Problem.Failed Failure.Read)) (R.failures devices.old.reader.now) (R.failures devices.new.reader.now) }
    ensures unsaved { file_of asked.entry ≡ None → devices.new.files.now ≡ devices.old.files.now }
    ensures spared { (other : List ℕ) → file_of asked.entry ≢ Some other → F.known devices.new.files.now other ≡ F.known devices.old.files.now other }
{
    let mut lenience = Lenience::opened(alloc);
    let played = play_saving(alloc, &Excused { story }, asked, &mut lenience, devices);
    say_noted(alloc, &lenience.notes, devices.errors);
    played
}

/// Tells of the faults that were answered, in lines of which a failure is ignored.
fn say_noted<E: Sink>(alloc: Global, notes: &Notes, errors: &mut E)
    ensures { SaysNoted notes.now (seen E.contents E.failures E.waits errors.old) (seen E.contents E.failures E.waits errors.new) }
{
    say_warnings(alloc, notes.firsts(), errors);
    say(Message::of_count(notes.count()).as_slice(), errors);
}

/// Tells of each of these faults.
fn say_warnings<E: Sink>(alloc: Global, firsts: &[Answered], errors: &mut E)
    ensures { SaysWarnings firsts.now (seen E.contents E.failures E.waits errors.old) (seen E.contents E.failures E.waits errors.new) }
{
    for answered in firsts {
        say_warning(alloc, *answered, errors);
    }
}

/// Tells of a fault, with what it is if there is memory for that.
fn say_warning<E: Sink>(alloc: Global, answered: Answered, errors: &mut E)
    ensures { (text : List ℕ) × IsWarning answered text × Says (seen E.contents E.failures E.waits errors.old) (seen E.contents E.failures E.waits errors.new) text }
{
    match warning(alloc, answered) {
        Ok(text) => say(&text, errors),
        Err(AllocError) => say(Message::of_warning(answered).as_slice(), errors),
    }
}

/// The line of a fault that was answered.
fn warning(alloc: Global, answered: Answered) -> Result<Vec<u8>, AllocError>
    ensures { IfOk result (λ text. text.items ≡ warning_line answered) }
{
    let mut text = Vec::new(alloc);
    text.extend_from_slice(Message::of_answered(answered).as_slice())?;
    add_short(alloc, "F", answered.fault.number(), &mut text)?;
    text.push(b'\n')?;
    Ok(text)
}

//! Playing a story from its opening.

ghost use Rattle.std.specs.Prelude.{◌≡◌, ◌≢◌, ℕ, true, IsErrOf, List, None, Option, Some, take};
ghost use Rattle.zplayer.specs.Devices.{SameDevices as SameWorld};
ghost use Rattle.zlenient.specs.Front.{opened};
ghost use Rattle.zplayer.specs.Leniently.{Noted};
ghost use Rattle.zplayer.specs.Outside.{Blames};
ghost use Rattle.zprompt.specs.declared.manner.Manner.{Manner as HowToPlay};
ghost use Rattle.zperform.specs.Blaming.{IsUnread, IsUnreadOf};
ghost use Rattle.zperform.specs.Accepting.{IsAccepted, IsAcceptedStory, IsMarkedOf, IsOfEither, PlayComesTo, PlayEnds};
ghost use Rattle.zperform.specs.Beside.{Aside, PlaysBeside, SaysAll, spared_beside};
ghost use Rattle.zperform.specs.Devices.{FlushesUnless, UsesUnless, held, seen};
ghost use Rattle.zperform.specs.Excusing.{none_noted};
ghost use Rattle.zperform.specs.Performing.{given, store_of};
ghost use Rattle.zperform.specs.Played.{Account, ComesOfEither, ComesOut, ComesOutIn, ComesOutOf, SameDevices, file_of};
ghost use Rattle.zperform.specs.Playing.{ComesTo, Holds};
ghost use Rattle.zperform.specs.Report.{outcome_of};
ghost use Rattle.zperform.specs.Telling.{said_of};
ghost use Rattle.zquetzal.specs.declared.error.SaveError.{SaveError as ARefusal};

use crate::accepting::{AcceptedStory, STORY_LIMIT, accept, load_bytes};
use crate::beside::{CertificateBeside, look_beside, say_unused};
use crate::files::{Files, read_file};
use crate::outcome::{Failure, Problem};
use crate::saves::{FileSaves, NoSaves};
use std::alloc::Global;
use zcert::Spelled;
use zcheck::{Accepted, Judged, Marked};
use zfault::{Sink, Source};
use zplay::Session;
use zplayer::{End, Lenience, SaveStore, Seeded, Words, World};
use zprompt::{Manner, play_checked_in, play_story_in};
use zref::{CheckedMachine, Scope};
use zstory::Story;

/// What is asked of a play.
#[derive(Clone, Copy)]
pub struct Asked<'a> {
    /// What its random words come of.
    pub seed: u64,
    /// How it is played, with the player's own commands or with none.
    pub manner: Manner,
    /// The name of the file for its saves. With none each save fails.
    pub save: Option<&'a str>,
    /// Whether it tells of saves that are refused.
    pub tell: bool,
}

/// The devices of a command, all of them lent.
#[derive(Drop)]
pub struct Devices<'a, F, R, W, E> {
    /// The files that it reads and writes.
    pub files: &'a mut F,
    /// What a player's lines are read from.
    pub reader: &'a mut R,
    /// What a story's text and a command's answers are written to.
    pub writer: &'a mut W,
    /// What goes wrong, and what a play came to, is written to.
    pub errors: &'a mut E,
}

impl<'a, F, R, W, E> Devices<'a, F, R, W, E> {
    /// These devices.
    pub fn new(
        files: &'a mut F,
        reader: &'a mut R,
        writer: &'a mut W,
        errors: &'a mut E,
    ) -> Devices<'a, F, R, W, E>
        ensures files { result.files ≡ files.entry }
        ensures reader { result.reader ≡ reader.entry }
        ensures writer { result.writer ≡ writer.entry }
        ensures errors { result.errors ≡ errors.entry }
    {
        Devices {
            files,
            reader,
            writer,
            errors,
        }
    }
}

/// What can be played from its opening.
pub trait Playable {
    /// What is said of how a play of it comes out, by the faults that were answered.
    ghost Comes: { Self → HowToPlay → Noted → Account };

    /// Plays it with the devices of a world. What is answered of faults is noted, if any are.
    fn play<R: Source, W: Sink, S: SaveStore, G: Words>(
        &self,
        alloc: Global,
        manner: Manner,
        lenience: &mut Lenience,
        world: &mut World<'_, R, W, S, G>,
    ) -> Result<End, Problem>
        requires opened { lenience.old ≡ record { front = opened; notes = none_noted } }
        ensures devices { SameWorld world.old world.new }
        ensures comes { ComesOutIn R.remaining G.coming S.kept S.failures W.contents S.Follows (Comes self.now manner lenience.new.notes) world.old world.new result }
        ensures writer { FlushesUnless W.failures W.waits world.old.writer.now world.new.writer.now (IsErrOf result (Problem.Failed Failure.Write)) }
        ensures no_file { ¬ IsErrOf result (Problem.Failed Failure.File) }
        ensures reader { Blames (IsErrOf result (Problem.Failed Failure.Read)) (R.failures world.old.reader.now) (R.failures world.new.reader.now) };
}

/// A story is checked as it is played.
impl Playable for Story {
    ghost Comes = { λ story manner noted given refusals before now outcome. (file : List ℕ) → Holds file story → ComesTo (Some file) manner given refusals before now outcome };

    fn play<R: Source, W: Sink, S: SaveStore, G: Words>(
        &self,
        alloc: Global,
        manner: Manner,
        _lenience: &mut Lenience,
        world: &mut World<'_, R, W, S, G>,
    ) -> Result<End, Problem> {
        let mut machine = CheckedMachine::new(alloc, self, Scope::All)?;
        let end = play_checked_in(alloc, &mut machine, world, manner)?;
        Ok(end)
    }
}

/// One that is accepted meets no fault.
impl<V: Spelled> Playable for Accepted<V> {
    ghost Comes = { λ accepted manner noted given refusals before now outcome. (story certificate : Option (List ℕ)) → IsAccepted V.operations V.format story certificate accepted → PlayEnds V.operations V.format story certificate manner given refusals before now outcome };

    fn play<R: Source, W: Sink, S: SaveStore, G: Words>(
        &self,
        alloc: Global,
        manner: Manner,
        _lenience: &mut Lenience,
        world: &mut World<'_, R, W, S, G>,
    ) -> Result<End, Problem> {
        let mut session = Session::start(alloc, self)?;
        let end = play_story_in(alloc, &mut session, world, manner)?;
        Ok(end)
    }
}

/// One that is accepted but where it is marked is checked as it is played, with as many frames as its certificate says.
impl<V: Spelled> Playable for Marked<V> {
    ghost Comes = { λ marked manner noted given refusals before now outcome. (story certificate : Option (List ℕ)) → IsMarkedOf V.operations V.format story certificate marked → PlayEnds V.operations V.format story certificate manner given refusals before now outcome };

    fn play<R: Source, W: Sink, S: SaveStore, G: Words>(
        &self,
        alloc: Global,
        manner: Manner,
        _lenience: &mut Lenience,
        world: &mut World<'_, R, W, S, G>,
    ) -> Result<End, Problem> {
        let limit = self.certificate().frame_limit();
        let mut machine = CheckedMachine::new(alloc, self.story(), Scope::Within(limit))?;
        let end = play_checked_in(alloc, &mut machine, world, manner)?;
        Ok(end)
    }
}

/// The one or the other.
impl<A: Playable, M: Playable> Playable for Judged<A, M> {
    ghost Comes = { ComesOfEither A.Comes M.Comes };

    fn play<R: Source, W: Sink, S: SaveStore, G: Words>(
        &self,
        alloc: Global,
        manner: Manner,
        lenience: &mut Lenience,
        world: &mut World<'_, R, W, S, G>,
    ) -> Result<End, Problem> {
        match self {
            Judged::Whole(accepted) => accepted.play(alloc, manner, lenience, world),
            Judged::Marked(marked) => marked.play(alloc, manner, lenience, world),
        }
    }
}

/// Plays a story from its file: by the certificate beside it, where one is there and the story is accepted with it, and else with everything
/// tested. Of a certificate that isn't used that is said first.
pub fn play<F: Files, R: Source, W: Sink, E: Sink>(
    alloc: Global,
    name: &str,
    asked: Asked<'_>,
    devices: &mut Devices<'_, F, R, W, E>,
) -> Result<End, Problem>
    ensures devices { SameDevices devices.old devices.new }
    ensures comes { (aside : Aside) × (refusals : List ARefusal) × PlaysBeside (held F.known F.failures F.can_fail F.blamed devices.old.files.now) (held F.known F.failures F.can_fail F.blamed devices.new.files.now) name.now (file_of asked.entry) aside asked.entry.manner (given (R.remaining devices.old.reader.now) asked.entry.seed (store_of (file_of asked.entry))) refusals (W.contents devices.old.writer.now) (W.contents devices.new.writer.now) (outcome_of result) × SaysAll name.now aside (said_of asked.entry.tell (file_of asked.entry) refusals) (seen E.contents E.failures E.waits devices.old.errors.now) (seen E.contents E.failures E.waits devices.new.errors.now) }
    ensures writer { FlushesUnless W.failures W.waits devices.old.writer.now devices.new.writer.now (IsErrOf result (Problem.Failed Failure.Write)) }
    ensures files { UsesUnless F.known F.failures devices.old.files.now devices.new.files.now (spared_beside (file_of asked.entry) name.now) (file_of asked.entry) (IsErrOf result (Problem.Failed Failure.File)) }
    ensures could { IsErrOf result (Problem.Failed Failure.File) → F.can_fail devices.old.files.now name.now ≡ true }
    ensures blamed { IsErrOf result (Problem.Failed Failure.File) → IsUnread name.now (F.blamed devices.new.files.now) }
    ensures reader { Blames (IsErrOf result (Problem.Failed Failure.Read)) (R.failures devices.old.reader.now) (R.failures devices.new.reader.now) }
{
    let file = read_file(alloc, devices.files, name, STORY_LIMIT)?;
    match look_beside(alloc, &file, name, devices.files)? {
        CertificateBeside::Accepted(accepted) => play_accepted(alloc, &accepted, asked, devices),
        CertificateBeside::Absent => play_file(alloc, &file, asked, devices),
        CertificateBeside::Unaccepted {
            certificate,
            problem,
        } => {
            let blame = devices.files.blame();
            say_unused(alloc, certificate.as_str(), problem, blame, devices.errors);
            play_file(alloc, &file, asked, devices)
        }
    }
}

/// Plays a story of which this is the file, or what was read of it, with everything tested.
fn play_file<F: Files, R: Source, W: Sink, E: Sink>(
    alloc: Global,
    file: &[u8],
    asked: Asked<'_>,
    devices: &mut Devices<'_, F, R, W, E>,
) -> Result<End, Problem>
    ensures devices { SameDevices devices.old devices.new }
    ensures comes { (known : Option (List ℕ)) → ((bytes : List ℕ) → known ≡ Some bytes → file.now ≡ take 131073 bytes) → ComesOut R.remaining W.contents (seen E.contents E.failures E.waits) (ComesTo known asked.entry.manner) asked.entry devices.old devices.new result }
    ensures writer { FlushesUnless W.failures W.waits devices.old.writer.now devices.new.writer.now (IsErrOf result (Problem.Failed Failure.Write)) }
    ensures no_file { ¬ IsErrOf result (Problem.Failed Failure.File) }
    ensures reader { Blames (IsErrOf result (Problem.Failed Failure.Read)) (R.failures devices.old.reader.now) (R.failures devices.new.reader.now) }
    ensures unsaved { file_of asked.entry ≡ None → devices.new.files.now ≡ devices.old.files.now }
    ensures spared { (other : List ℕ) → file_of asked.entry ≢ Some other → F.known devices.new.files.now other ≡ F.known devices.old.files.now other }
{
    let story = load_bytes(alloc, file)?;
    play_saving(alloc, &story, asked, &mut Lenience::opened(alloc), devices)
}

/// Plays a story that is accepted with a certificate, each in its file.
pub fn play_by_certificate<F: Files, R: Source, W: Sink, E: Sink>(
    alloc: Global,
    story: &str,
    certificate: &str,
    asked: Asked<'_>,
    devices: &mut Devices<'_, F, R, W, E>,
) -> Result<End, Problem>
    ensures devices { SameDevices devices.old devices.new }
    ensures comes { ComesOut R.remaining W.contents (seen E.contents E.failures E.waits) (PlayComesTo (F.known devices.old.files.now story.now) (F.known devices.old.files.now certificate.now) asked.entry.manner) asked.entry devices.old devices.new result }
    ensures writer { FlushesUnless W.failures W.waits devices.old.writer.now devices.new.writer.now (IsErrOf result (Problem.Failed Failure.Write)) }
    ensures files { UsesUnless F.known F.failures devices.old.files.now devices.new.files.now (file_of asked.entry) (file_of asked.entry) (IsErrOf result (Problem.Failed Failure.File)) }
    ensures could { IsErrOf result (Problem.Failed Failure.File) → IsOfEither (held F.known F.failures F.can_fail F.blamed devices.old.files.now) story.now certificate.now }
    ensures blamed { IsErrOf result (Problem.Failed Failure.File) → IsUnreadOf story.now certificate.now (F.blamed devices.new.files.now) }
    ensures reader { Blames (IsErrOf result (Problem.Failed Failure.Read)) (R.failures devices.old.reader.now) (R.failures devices.new.reader.now) }
{
    let accepted = accept(alloc, story, certificate, devices.files)?;
    play_accepted(alloc, &accepted, asked, devices)
}

/// Plays a story that is accepted.
fn play_accepted<F: Files, R: Source, W: Sink, E: Sink>(
    alloc: Global,
    accepted: &AcceptedStory,
    asked: Asked<'_>,
    devices: &mut Devices<'_, F, R, W, E>,
) -> Result<End, Problem>
    ensures devices { SameDevices devices.old devices.new }
    ensures comes { (story certificate : Option (List ℕ)) → IsAcceptedStory story certificate accepted.now → ComesOut R.remaining W.contents (seen E.contents E.failures E.waits) (PlayComesTo story certificate asked.entry.manner) asked.entry devices.old devices.new result }
    ensures writer { FlushesUnless W.failures W.waits devices.old.writer.now devices.new.writer.now (IsErrOf result (Problem.Failed Failure.Write)) }
    ensures no_file { ¬ IsErrOf result (Problem.Failed Failure.File) }
    ensures reader { Blames (IsErrOf result (Problem.Failed Failure.Read)) (R.failures devices.old.reader.now) (R.failures devices.new.reader.now) }
    ensures unsaved { file_of asked.entry ≡ None → devices.new.files.now ≡ devices.old.files.now }
    ensures spared { (other : List ℕ) → file_of asked.entry ≢ Some other → F.known devices.new.files.now other ≡ F.known devices.old.files.now other }
{
    let mut lenience = Lenience::opened(alloc);
    match accepted {
        AcceptedStory::Intervals(judged) => {
            play_saving(alloc, judged, asked, &mut lenience, devices)
        }
        AcceptedStory::Lists(judged) => play_saving(alloc, judged, asked, &mut lenience, devices),
    }
}

/// Plays from an opening, with the saves in the file of a name, or nowhere.
pub fn play_saving<P: Playable, F: Files, R: Source, W: Sink, E: Sink>(
    alloc: Global,
    playable: &P,
    asked: Asked<'_>,
    lenience: &mut Lenience,
    devices: &mut Devices<'_, F, R, W, E>,
) -> Result<End, Problem>
    requires opened { lenience.old ≡ record { front = opened; notes = none_noted } }
    ensures devices { SameDevices devices.old devices.new }
    ensures comes { ComesOut R.remaining W.contents (seen E.contents E.failures E.waits) (P.Comes playable.now asked.entry.manner lenience.new.notes) asked.entry devices.old devices.new result }
    ensures writer { FlushesUnless W.failures W.waits devices.old.writer.now devices.new.writer.now (IsErrOf result (Problem.Failed Failure.Write)) }
    ensures no_file { ¬ IsErrOf result (Problem.Failed Failure.File) }
    ensures reader { Blames (IsErrOf result (Problem.Failed Failure.Read)) (R.failures devices.old.reader.now) (R.failures devices.new.reader.now) }
    ensures unsaved { file_of asked.entry ≡ None → devices.new.files.now ≡ devices.old.files.now }
    ensures spared { (other : List ℕ) → file_of asked.entry ≢ Some other → F.known devices.new.files.now other ≡ F.known devices.old.files.now other }
{
    match asked.save {
        Some(name) => {
            let mut store = FileSaves::new(alloc, devices.files, name, asked.tell, devices.errors);
            play_keeping(
                alloc,
                playable,
                asked,
                lenience,
                &mut store,
                devices.reader,
                devices.writer,
            )
        }
        None => play_keeping(
            alloc,
            playable,
            asked,
            lenience,
            &mut NoSaves::new(),
            devices.reader,
            devices.writer,
        ),
    }
}

/// Plays from an opening, with the saves in a store, and with the words of the seed.
fn play_keeping<P: Playable, S: SaveStore, R: Source, W: Sink>(
    alloc: Global,
    playable: &P,
    asked: Asked<'_>,
    lenience: &mut Lenience,
    store: &mut S,
    reader: &mut R,
    writer: &mut W,
) -> Result<End, Problem>
    requires opened { lenience.old ≡ record { front = opened; notes = none_noted } }
    ensures comes { ComesOutOf S.kept S.failures S.Follows (λ s. P.Comes playable.now asked.entry.manner lenience.new.notes (given (R.remaining reader.old) asked.entry.seed s)) store.old store.new (W.contents writer.old) (W.contents writer.new) result }
    ensures writer { FlushesUnless W.failures W.waits writer.old writer.new (IsErrOf result (Problem.Failed Failure.Write)) }
    ensures no_file { ¬ IsErrOf result (Problem.Failed Failure.File) }
    ensures reader { Blames (IsErrOf result (Problem.Failed Failure.Read)) (R.failures reader.old) (R.failures reader.new) }
{
    let mut words = Seeded::new(asked.seed);
    let mut world = World::new(reader, writer, store, &mut words);
    playable.play(alloc, asked.manner, lenience, &mut world)
}

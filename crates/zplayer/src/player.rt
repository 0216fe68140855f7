//! The player of a machine.

ghost use Rattle.std.specs.Prelude.{◌≡◌, ◌≢◌, ℤ, false, [], ◌++◌, List, Some, IsErrOf, IfErr, IfOk, OnErr, ⊤};
ghost use Rattle.std.specs.Io.KnownBytes.{Keeps};
ghost use Rattle.zfault.specs.declared.fault.Fault.{Fault as AFault};
ghost use Rattle.zstate.specs.Run.{Stands, awaited};
ghost use Rattle.zquetzal.specs.declared.error.SaveError.{SaveError as ARefusal};
ghost use Rattle.zref.specs.Machine.{setting, SamePlay};
ghost use Rattle.zplay.specs.Session.{setting_of};
ghost use Rattle.zplayer.specs.Devices.{ComesOf, SameDevices, seen};
ghost use Rattle.zplayer.specs.Lines.{BlamesReader, Hears, KnowsEnd, unused};
ghost use Rattle.zplayer.specs.Outside.{Blames, BlamesWriter};
ghost use Rattle.zplayer.specs.Playing.{GivesOrSaves, Supplies, WantsOrSaves};
ghost use Rattle.zplayer.specs.Stories.{Describes};
ghost use Rattle.zplayer.specs.World.{Asks, told};

use crate::end::{End, Options, PlayError};
use crate::lines::Lines;
use crate::machine::Machine;
use crate::outside::{SaveStore, Words, World};
use crate::saving::{resume, save};
use crate::turns::{HELD, flush, turn};
use std::alloc::Global;
use zcert::Spelled;
use zfault::{Event, Items, Line, Need, Sink, Source};
use zplay::Session;
use zref::CheckedMachine;
use zstate::Stop;

/// Plays the machine from the state that it is in, with the devices of a world: makes at most the budget's steps, writes what they give out,
/// with status lines where the options ask for them, and hands in what they need. A line comes from the reader, of which more may be read
/// than was used, and before it is read all that was given out is written and flushed. A random word comes from the words. A save goes
/// to the store, and comes from it: what doesn't go there, or from where the machine doesn't go on, the story is told, and plays on; of bytes that
/// the machine refuses the store is told why.
///
/// What a turn of at most 1,024 steps gives out is written before the next turn's first step, and of it no more is held than 64 KiB, or than
/// one step gives out: a step that finds no room beside what is held ends its turn, and is the next one's first. So after P2 the machine
/// stands where a turn ended, all that was given out before that turn was written, and a beginning of what the turn gave out, and the writer
/// isn't called again; after P1 and P3 all of it was. After P1 the machine awaits a line, and after P3 the next step gives something out or
/// makes a stack longer, or it is a save or a restore. At any other end than P2 what was written is flushed.
///
/// A later call goes on from there, with the next words and saves. What a call read behind the last line that it used, at most 255 bytes,
/// is lost when the call ends; so is the beginning of a line whose reading fails. A reader that gives no more than a line at once, as a
/// terminal does, loses no more than that.
pub fn play_checked<R: Source, W: Sink, S: SaveStore, G: Words>(
    alloc: Global,
    machine: &mut CheckedMachine,
    world: &mut World<'_, R, W, S, G>,
    options: Options,
) -> Result<End, PlayError>
    ensures play { SamePlay machine.old machine.new }
    ensures devices { SameDevices world.old world.new }
    ensures comes { ComesOf R.remaining G.coming S.kept S.failures W.contents S.Follows (setting machine.old) (λ _. ⊤) (WantsOrSaves (setting machine.old)) options world.old machine.old.state world.new machine.new.state result }
    ensures reads { Blames (IsErrOf result PlayError.Read) (R.failures world.old.reader.now) (R.failures world.new.reader.now) }
    ensures writes { BlamesWriter W.failures W.waits world.old.writer.now world.new.writer.now (IsErrOf result PlayError.Write) (¬ IsErrOf result PlayError.Write) }
{
    play_machine(alloc, machine, world, options)
}

/// Plays the session from the state that it is in, as `play_checked` does a machine. It meets no fault. It goes on from those saves
/// alone whose state its certificate describes, and takes no memory for that.
pub fn play_story<V: Spelled, R: Source, W: Sink, S: SaveStore, G: Words>(
    alloc: Global,
    session: &mut Session<'_, V>,
    world: &mut World<'_, R, W, S, G>,
    options: Options,
) -> Result<End, PlayError>
    ensures play { session.new.accepted ≡ session.old.accepted }
    ensures devices { SameDevices world.old world.new }
    ensures comes { ComesOf R.remaining G.coming S.kept S.failures W.contents S.Follows (setting_of session.old.accepted) (Describes V.operations session.old.accepted) (GivesOrSaves (setting_of session.old.accepted)) options world.old session.old.state world.new session.new.state result }
    ensures no_fault { IfOk result (λ end. (fault : AFault) (place : ℤ) → end ≢ End.Fault fault place) }
    ensures reads { Blames (IsErrOf result PlayError.Read) (R.failures world.old.reader.now) (R.failures world.new.reader.now) }
    ensures writes { BlamesWriter W.failures W.waits world.old.writer.now world.new.writer.now (IsErrOf result PlayError.Write) (¬ IsErrOf result PlayError.Write) }
{
    let played = play_machine(alloc, session, world, options);
    session.never_faults();
    played
}

/// Plays a machine, and flushes what was written, but for a failed write, which is the last call of the writer.
fn play_machine<M: Machine, R: Source, W: Sink, S: SaveStore, G: Words>(
    alloc: Global,
    machine: &mut M,
    world: &mut World<'_, R, W, S, G>,
    options: Options,
) -> Result<End, PlayError>
    ensures play { M.IsSamePlay machine.old machine.new }
    ensures devices { SameDevices world.old world.new }
    ensures comes { ComesOf R.remaining G.coming S.kept S.failures W.contents S.Follows (M.setting machine.old) (M.Takes machine.old) (M.Wants (M.setting machine.old)) options world.old (M.state machine.old) world.new (M.state machine.new) result }
    ensures reads { Blames (IsErrOf result PlayError.Read) (R.failures world.old.reader.now) (R.failures world.new.reader.now) }
    ensures writes { BlamesWriter W.failures W.waits world.old.writer.now world.new.writer.now (IsErrOf result PlayError.Write) (¬ IsErrOf result PlayError.Write) }
{
    match play_turns(alloc, machine, world, options) {
        // At a failed read all was flushed before it.
        Err(error @ (PlayError::Write | PlayError::Read)) => Err(error),
        played => {
            flush(world.writer)?;
            played
        }
    }
}

/// Makes steps in turns, and hands in what they need.
fn play_turns<M: Machine, R: Source, W: Sink, S: SaveStore, G: Words>(
    alloc: Global,
    machine: &mut M,
    world: &mut World<'_, R, W, S, G>,
    options: Options,
) -> Result<End, PlayError>
    ensures play { M.IsSamePlay machine.old machine.new }
    ensures devices { SameDevices world.old world.new }
    ensures comes { ComesOf R.remaining G.coming S.kept S.failures W.contents S.Follows (M.setting machine.old) (M.Takes machine.old) (M.Wants (M.setting machine.old)) options world.old (M.state machine.old) world.new (M.state machine.new) result }
    ensures reads { Blames (IsErrOf result PlayError.Read) (R.failures world.old.reader.now) (R.failures world.new.reader.now) }
    ensures writes { BlamesWriter W.failures W.waits world.old.writer.now world.new.writer.now (IsErrOf result PlayError.Write) (IsErrOf result PlayError.Read) }
{
    let mut items = Items::bounded(alloc, HELD);
    let mut lines = Lines::new();
    let mut left = options.budget;
    'turns: loop {
        if let Some(stop) = turn(machine, world.writer, options.status, &mut left, &mut items)? {
            if !supply(alloc, stop, machine, &mut lines, world)? {
                return Ok(End::from(stop));
            }
        }
    }
}

/// Hands in what the machine awaits, which stands still so. Answers whether the world had it.
pub(crate) fn supply<M: Machine, R: Source, W: Sink, S: SaveStore, G: Words>(
    alloc: Global,
    stop: Stop,
    machine: &mut M,
    lines: &mut Lines,
    world: &mut World<'_, R, W, S, G>,
) -> Result<bool, PlayError>
    requires stands { Stands (M.setting machine.old) stop (M.state machine.old) }
    requires ended { KnowsEnd lines.old (R.remaining world.old.reader.now) }
    ensures play { M.IsSamePlay machine.old machine.new }
    ensures devices { SameDevices world.old world.new }
    ensures supplied { IfOk result (λ some. (refusals : List ARefusal) × S.Follows world.old.store.now world.new.store.now refusals × ((before : List ARefusal) → Supplies (M.setting machine.old) (M.Takes machine.old) (M.state machine.old) (seen R.remaining G.coming S.kept S.failures lines.old world.old before) some (M.state machine.new) (seen R.remaining G.coming S.kept S.failures lines.new world.new (refusals ++ before)))) }
    ensures same { OnErr result ((M.state machine.new ≡ M.state machine.old) × (G.coming world.new.words.now ≡ G.coming world.old.words.now) × S.Follows world.old.store.now world.new.store.now [] × ((before : List ARefusal) → told S.kept S.failures world.new.store.now before ≡ told S.kept S.failures world.old.store.now before)) }
    ensures kept { Keeps (W.contents world.old.writer.now) (W.contents world.new.writer.now) }
    ensures at_line { IsErrOf result PlayError.Read → awaited (M.setting machine.old) (M.state machine.old) ≡ Some Need.Line }
    ensures wanted { IsErrOf result PlayError.OutOfMemory → M.Wants (M.setting machine.old) (M.state machine.old) }
    ensures reads { BlamesReader R.remaining R.failures world.old.reader.now world.new.reader.now lines.new (IsErrOf result PlayError.Read) }
    ensures writes { BlamesWriter W.failures W.waits world.old.writer.now world.new.writer.now (IsErrOf result PlayError.Write) (IsErrOf result PlayError.Read) }
{
    let Some(need) = machine.awaits() else {
        return Ok(false);
    };
    if let Need::Restore = need {
        resume(alloc, machine, world.store)?;
        return Ok(true);
    }
    match ask(alloc, need, machine, lines, world)? {
        Some(event) => {
            machine.give(event);
            Ok(true)
        }
        None => Ok(false),
    }
}

/// What answers a need of an event, if anything does. Before a line is read, all that was written is flushed.
fn ask<M: Machine, R: Source, W: Sink, S: SaveStore, G: Words>(
    alloc: Global,
    need: Need,
    machine: &M,
    lines: &mut Lines,
    world: &mut World<'_, R, W, S, G>,
) -> Result<Option<Event>, PlayError>
    requires awaits { awaited (M.setting machine.now) (M.state machine.now) ≡ Some need }
    requires event { need ≢ Need.Restore }
    requires ended { KnowsEnd lines.old (R.remaining world.old.reader.now) }
    ensures devices { SameDevices world.old world.new }
    ensures asked { IfOk result (λ event. (before : List ARefusal) → Asks (M.setting machine.now) (M.Takes machine.now) (M.state machine.now) need (seen R.remaining G.coming S.kept S.failures lines.old world.old before) event (seen R.remaining G.coming S.kept S.failures lines.new world.new before)) }
    ensures same { OnErr result ((G.coming world.new.words.now ≡ G.coming world.old.words.now) × (world.new.store.now ≡ world.old.store.now)) }
    ensures kept { Keeps (W.contents world.old.writer.now) (W.contents world.new.writer.now) }
    ensures at_line { IsErrOf result PlayError.Read → need ≡ Need.Line }
    ensures wanted { IsErrOf result PlayError.OutOfMemory → M.Wants (M.setting machine.now) (M.state machine.now) }
    ensures reads { BlamesReader R.remaining R.failures world.old.reader.now world.new.reader.now lines.new (IsErrOf result PlayError.Read) }
    ensures writes { BlamesWriter W.failures W.waits world.old.writer.now world.new.writer.now (IsErrOf result PlayError.Write) (IsErrOf result PlayError.Read) }
    ensures follows { S.Follows world.old.store.now world.new.store.now [] }
{
    match need {
        Need::Line => {
            flush(world.writer)?;
            let line = hear(lines, world.reader, world.writer)?;
            Ok(line.map(Event::Line))
        }
        Need::Random => Ok(Some(Event::Random(world.words.next()))),
        Need::Saved => Ok(Some(Event::Saved(save(alloc, machine, world.store)?))),
        Need::Restore => unreachable!(),
    }
}

/// The next line of a player who has seen all that was written.
fn hear<R: Source, W: Sink>(
    lines: &mut Lines,
    reader: &mut R,
    _writer: &W,
) -> Result<Option<Line>, PlayError>
    requires flushed { W.waits _writer.now ≡ false }
    requires ended { KnowsEnd lines.old (R.remaining reader.old) }
    ensures heard { IfOk result (λ line. Hears (unused lines.old (R.remaining reader.old)) line (unused lines.new (R.remaining reader.new))) }
    ensures reads { BlamesReader R.remaining R.failures reader.old reader.new lines.new (IsErrOf result PlayError.Read) }
    ensures only { IfErr result (λ error. error ≡ PlayError.Read) }
{
    lines.next_line(reader)
}

//! Lenient play: where a step is a fault for which something is customary, that is done, it is told, and play goes on.

ghost use Rattle.std.specs.Prelude.{◌≡◌, ◌<◌, [], Err, None, Ok, IfErr, IfOk, IfSome, IsErr, IsErrOf, OnErr, OnOk, true};
ghost use Rattle.zstate.specs.Run.{Stands, WantsMemory};
ghost use Rattle.zstate.specs.declared.halt.Halt.TheVariants.{Fault as AFault};
ghost use Rattle.zstate.specs.Step.{step};
ghost use Rattle.zlenient.specs.Customary.{is_excusable};
ghost use Rattle.zlenient.specs.Front.{opened};
ghost use Rattle.zref.specs.Machine.{setting, SamePlay};
ghost use Rattle.zplayer.specs.Devices.{SameDevices};
ghost use Rattle.zplayer.specs.LenientCalls.{AnswersFault, ComesLeniently, EndsSo, WritesSeen, WritesSeenInPart};
ghost use Rattle.zplayer.specs.Outside.{Blames, BlamesWriter};

use crate::end::{End, Options, PlayError};
use crate::lines::Lines;
use crate::noting::{Answered, Notes};
use crate::outside::{SaveStore, Words, World};
use crate::player::supply;
use crate::turns::{HELD, TURN, flush, standstill};
use std::alloc::{AllocError, Global};
use zfault::{Fault, Items, Pause, Sink, Source};
use zlenient::{Front, is_excusable};
use zref::{CheckedMachine, Excuse};
use zscreen::{StatusLines, write_items};
use zstate::{Halt, Stop};

/// What lenient play keeps beside the machine: which of its text is seen, and what faults were answered.
#[derive(Drop)]
pub struct Lenience {
    /// What is shown.
    pub front: Front,
    /// The faults that were answered.
    pub notes: Notes,
}

impl Lenience {
    /// As a story opens.
    pub fn opened(alloc: Global) -> Lenience
        ensures { result ≡ record { front = opened; notes = record { firsts = []; count = 0 } } }
    {
        Lenience {
            front: Front::opened(),
            notes: Notes::new(alloc),
        }
    }
}

/// Plays the machine from the state that it is in, as `play_checked` does, but that a fault for which something is customary doesn't end play:
/// that is done in its place, as a step of the budget, and it is noted. What is given out while the upper window is selected or the screen's
/// stream is closed isn't written.
pub fn play_leniently<R: Source, W: Sink, S: SaveStore, G: Words>(
    alloc: Global,
    machine: &mut CheckedMachine,
    world: &mut World<'_, R, W, S, G>,
    lenience: &mut Lenience,
    options: Options,
) -> Result<End, PlayError>
    ensures play { SamePlay machine.old machine.new }
    ensures devices { SameDevices world.old world.new }
    ensures comes { ComesLeniently R.remaining G.coming S.kept S.failures W.contents S.Follows (setting machine.old) options world.old machine.old.state lenience.old world.new machine.new.state lenience.new result }
    ensures reads { Blames (IsErrOf result PlayError.Read) (R.failures world.old.reader.now) (R.failures world.new.reader.now) }
    ensures writes { BlamesWriter W.failures W.waits world.old.writer.now world.new.writer.now (IsErrOf result PlayError.Write) (¬ IsErrOf result PlayError.Write) }
{
    match play_turns(alloc, machine, world, lenience, options) {
        // At a failed read all was flushed before it.
        Err(error @ (PlayError::Write | PlayError::Read)) => Err(error),
        played => {
            flush(world.writer)?;
            played
        }
    }
}

/// Makes steps in turns, hands in what they need, and answers faults.
fn play_turns<R: Source, W: Sink, S: SaveStore, G: Words>(
    alloc: Global,
    machine: &mut CheckedMachine,
    world: &mut World<'_, R, W, S, G>,
    lenience: &mut Lenience,
    options: Options,
) -> Result<End, PlayError>
    ensures play { SamePlay machine.old machine.new }
    ensures devices { SameDevices world.old world.new }
    ensures comes { ComesLeniently R.remaining G.coming S.kept S.failures W.contents S.Follows (setting machine.old) options world.old machine.old.state lenience.old world.new machine.new.state lenience.new result }
    ensures reads { Blames (IsErrOf result PlayError.Read) (R.failures world.old.reader.now) (R.failures world.new.reader.now) }
    ensures writes { BlamesWriter W.failures W.waits world.old.writer.now world.new.writer.now (IsErrOf result PlayError.Write) (IsErrOf result PlayError.Read) }
{
    let mut items = Items::bounded(alloc, HELD);
    let mut lines = Lines::new();
    let mut left = options.budget;
    'turns: loop {
        let seen = lenience.front.is_seen();
        let still = turn(
            machine,
            world.writer,
            options.status,
            seen,
            &mut left,
            &mut items,
        )?;
        let end = match still {
            None => None,
            Some(Stop::Fault(fault, place)) => {
                answer(alloc, machine, lenience, fault, place, &mut left)?
            }
            Some(stop) => {
                if supply(alloc, stop, machine, &mut lines, world)? {
                    None
                } else {
                    Some(End::from(stop))
                }
            }
        };
        if let Some(end) = end {
            return Ok(end);
        }
    }
}

/// As a turn of play, but that what is given out is written only where it is seen.
fn turn<W: Sink>(
    machine: &mut CheckedMachine,
    writer: &mut W,
    status: StatusLines,
    seen: bool,
    left: &mut u32,
    items: &mut Items,
) -> Result<Option<Stop>, PlayError>
    ensures play { SamePlay machine.old machine.new }
    ensures stands { IfOk result (λ still. IfSome still (λ stop. Stands (setting machine.old) stop machine.new.state × (stop ≡ Stop.Paused Pause.Budget → left.new ≡ 0))) }
    ensures fewer { result ≡ Ok None → left.new < left.old }
    ensures ok { OnOk result (WritesSeen (setting machine.old) status seen left.old left.new machine.old.state machine.new.state (W.contents writer.old) (W.contents writer.new)) }
    ensures blamed { Blames (IsErrOf result PlayError.Write) (W.failures writer.old) (W.failures writer.new) }
    ensures no_read { ¬ IsErrOf result PlayError.Read }
    ensures finished { IsErrOf result PlayError.OutOfMemory → WritesSeen (setting machine.old) status seen left.old left.new machine.old.state machine.new.state (W.contents writer.old) (W.contents writer.new) }
    ensures wanted { IsErrOf result PlayError.OutOfMemory → WantsMemory (setting machine.old) machine.new.state }
    ensures in_part { IsErrOf result PlayError.Write → WritesSeenInPart (setting machine.old) status seen left.old left.new machine.old.state machine.new.state (W.contents writer.old) (W.contents writer.new) }
{
    let mut steps = TURN.min(*left);
    let rest = *left - steps;
    items.clear();
    let ran = machine.run_down(&mut steps, items);
    *left = rest + steps;
    let is_held = !items.is_empty();
    if !seen {
        items.clear();
    }
    write_items(writer, items, status).map_err(|_| PlayError::Write)?;
    match ran {
        Ok(stop) => Ok(standstill(stop, *left)),
        Err(AllocError) if is_held => Ok(None),
        Err(AllocError) => Err(PlayError::OutOfMemory),
    }
}

/// Answers the fault that the next step is, and notes it. Answers how play ends, where it does. Memory is wanted only where something is
/// customary in its place.
fn answer(
    alloc: Global,
    machine: &mut CheckedMachine,
    lenience: &mut Lenience,
    fault: Fault,
    place: i32,
    left: &mut u32,
) -> Result<Option<End>, PlayError>
    requires fault { step (setting machine.old) machine.old.state ≡ Err (AFault fault) }
    requires place { place ≡ machine.old.state.place }
    ensures play { SamePlay machine.old machine.new }
    ensures answers { IfOk result (λ end. AnswersFault (setting machine.old) fault machine.old.state lenience.old left.old end machine.new.state lenience.new left.new) }
    ensures same { OnErr result ((machine.new.state ≡ machine.old.state) × (lenience.new ≡ lenience.old) × (left.new ≡ left.old)) }
    ensures only { IfErr result (λ error. error ≡ PlayError.OutOfMemory) }
    ensures wanted { IsErr result → is_excusable fault ≡ true }
{
    if !is_excusable(fault) {
        return Ok(Some(End::Fault(fault, place)));
    }
    let is_first = lenience.notes.keep(Answered { fault, place })?;
    let excused = machine.excuse(alloc, fault, &mut lenience.front, left);
    if let Ok(Excuse::Done) = excused {
        lenience.notes.add();
    } else if is_first {
        lenience.notes.drop_last();
    }
    Ok(end_of(excused?, place))
}

/// How play ends where what is customary isn't done.
fn end_of(excuse: Excuse, place: i32) -> Option<End>
    ensures { EndsSo excuse place result }
{
    match excuse {
        Excuse::Done => None,
        Excuse::Spent => Some(End::Budget),
        Excuse::Halted(Halt::Fault(fault)) => Some(End::Fault(fault, place)),
        Excuse::Halted(Halt::Quit) => Some(End::Quit),
        Excuse::Halted(Halt::FrameLimit) => Some(End::FrameLimit),
        Excuse::Halted(Halt::Need(_)) => Some(End::NoInput),
    }
}

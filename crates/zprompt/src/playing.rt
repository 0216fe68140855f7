//! Play in a manner: with the player's own commands, or without.

ghost use Rattle.std.specs.Prelude.{◌≡◌, ◌≢◌, ℤ, IfOk, IsErrOf, ⊤};
ghost use Rattle.zfault.specs.declared.fault.Fault.{Fault as AFault};
ghost use Rattle.zref.specs.Machine.{setting, SamePlay};
ghost use Rattle.zplay.specs.Session.{setting_of};
ghost use Rattle.zplayer.specs.Devices.{SameDevices};
ghost use Rattle.zplayer.specs.Outside.{Blames, BlamesWriter};
ghost use Rattle.zplayer.specs.Playing.{GivesOrSaves, WantsOrSaves};
ghost use Rattle.zplayer.specs.Stories.{Describes};
ghost use Rattle.zprompt.specs.Manners.{ComesOf};

use crate::machine::Promptable;
use crate::manner::Manner;
use crate::prompt::play_prompted;
use std::alloc::Global;
use zcert::Spelled;
use zfault::{Sink, Source};
use zplay::Session;
use zplayer::{End, PlayError, SaveStore, Words, World};
use zref::CheckedMachine;

/// Plays the machine from the state that it is in, as zplayer's `play_checked` does, but that with commands a line which begins with a `/` is a
/// command of the player's own, which the story never sees: it is done and answered, and play stands at its prompt again.
pub fn play_checked_in<R: Source, W: Sink, S: SaveStore, G: Words>(
    alloc: Global,
    machine: &mut CheckedMachine,
    world: &mut World<'_, R, W, S, G>,
    manner: Manner,
) -> Result<End, PlayError>
    ensures play { SamePlay machine.old machine.new }
    ensures devices { SameDevices world.old world.new }
    ensures comes { ComesOf R.remaining G.coming S.kept S.failures W.contents S.Follows (setting machine.old) (λ _. ⊤) (WantsOrSaves (setting machine.old)) manner world.old machine.old.state world.new machine.new.state result }
    ensures reads { Blames (IsErrOf result PlayError.Read) (R.failures world.old.reader.now) (R.failures world.new.reader.now) }
    ensures writes { BlamesWriter W.failures W.waits world.old.writer.now world.new.writer.now (IsErrOf result PlayError.Write) (¬ IsErrOf result PlayError.Write) }
{
    play_in(alloc, machine, world, manner)
}

/// Plays the session from the state that it is in, as `play_checked_in` does a machine. It meets no fault, and every state that a command leads
/// back to is one that its certificate describes.
pub fn play_story_in<V: Spelled, R: Source, W: Sink, S: SaveStore, G: Words>(
    alloc: Global,
    session: &mut Session<'_, V>,
    world: &mut World<'_, R, W, S, G>,
    manner: Manner,
) -> Result<End, PlayError>
    ensures play { session.new.accepted ≡ session.old.accepted }
    ensures devices { SameDevices world.old world.new }
    ensures comes { ComesOf R.remaining G.coming S.kept S.failures W.contents S.Follows (setting_of session.old.accepted) (Describes V.operations session.old.accepted) (GivesOrSaves (setting_of session.old.accepted)) manner world.old session.old.state world.new session.new.state result }
    ensures no_fault { IfOk result (λ end. (fault : AFault) (place : ℤ) → end ≢ End.Fault fault place) }
    ensures reads { Blames (IsErrOf result PlayError.Read) (R.failures world.old.reader.now) (R.failures world.new.reader.now) }
    ensures writes { BlamesWriter W.failures W.waits world.old.writer.now world.new.writer.now (IsErrOf result PlayError.Write) (¬ IsErrOf result PlayError.Write) }
{
    play_in(alloc, session, world, manner)
}

/// Plays a machine in a manner.
fn play_in<M: Promptable, R: Source, W: Sink, S: SaveStore, G: Words>(
    alloc: Global,
    machine: &mut M,
    world: &mut World<'_, R, W, S, G>,
    manner: Manner,
) -> Result<End, PlayError>
    ensures play { M.IsSamePlay machine.old machine.new }
    ensures devices { SameDevices world.old world.new }
    ensures comes { ComesOf R.remaining G.coming S.kept S.failures W.contents S.Follows (M.setting machine.old) (M.Takes machine.old) (M.Wants (M.setting machine.old)) manner world.old (M.state machine.old) world.new (M.state machine.new) result }
    ensures ends { IfOk result M.MayEnd }
    ensures reads { Blames (IsErrOf result PlayError.Read) (R.failures world.old.reader.now) (R.failures world.new.reader.now) }
    ensures writes { BlamesWriter W.failures W.waits world.old.writer.now world.new.writer.now (IsErrOf result PlayError.Write) (¬ IsErrOf result PlayError.Write) }
{
    if manner.commands {
        play_prompted(alloc, machine, world, manner.options)
    } else {
        machine.play(alloc, world, manner.options)
    }
}

//! Play that stops at each prompt, where the player may say something to the program.

ghost use Rattle.std.specs.Prelude.{◌≡◌, [], All, IfErr, IfOk, IfSome, IsErrOf, MatchOption, OnOk, false};
ghost use Rattle.std.specs.Io.KnownBytes.{Appends};
ghost use Rattle.zfault.specs.Devices.{AppendsBeginning, RisesByOne};
ghost use Rattle.zplayer.specs.Devices.{SameDevices};
ghost use Rattle.zplayer.specs.Lines.{KnowsEnd};
ghost use Rattle.zplayer.specs.Outside.{Blames, BlamesWriter};
ghost use Rattle.zprompt.specs.Answers.{text_of};
ghost use Rattle.zprompt.specs.Commands.{Obeys};
ghost use Rattle.zprompt.specs.Prompts.{Answers, ComesFromPrompts, ComesOfLine, ComesPrompted, ComesWith, Plays, at_first, at_line, at_prompt, played_of};

use crate::answer::Answer;
use crate::command::{Command, command_of};
use crate::given::{Given, given_of};
use crate::machine::Promptable;
use crate::turns::{Turns, undo};
use std::alloc::Global;
use zfault::{Sink, Source, write_whole};
use zplayer::{End, Lines, Options, PlayError, SaveStore, Words, World};

/// Plays the machine from the state that it is in, as zplayer does, but that a line which begins with a `/` is a command of the player's own,
/// which the story never sees: it is done and answered, and play stands at its prompt again. The steps of the options are those from one prompt to
/// the next.
pub(crate) fn play_prompted<M: Promptable, R: Source, W: Sink, S: SaveStore, G: Words>(
    alloc: Global,
    machine: &mut M,
    world: &mut World<'_, R, W, S, G>,
    options: Options,
) -> Result<End, PlayError>
    ensures play { M.IsSamePlay machine.old machine.new }
    ensures devices { SameDevices world.old world.new }
    ensures comes { ComesWith S.Follows world.old.store.now world.new.store.now (λ before after. ComesPrompted (M.setting machine.old) (M.Takes machine.old) (M.Wants (M.setting machine.old)) options (at_first R.remaining G.coming S.kept S.failures W.contents (M.state machine.old) world.old before) (at_first R.remaining G.coming S.kept S.failures W.contents (M.state machine.new) world.new after) result) }
    ensures reads { Blames (IsErrOf result PlayError.Read) (R.failures world.old.reader.now) (R.failures world.new.reader.now) }
    ensures ends { IfOk result M.MayEnd }
    ensures writes { BlamesWriter W.failures W.waits world.old.writer.now world.new.writer.now (IsErrOf result PlayError.Write) (¬ IsErrOf result PlayError.Write) }
{
    match play_on(alloc, machine, &[], world, options) {
        Ok(None) => answer_prompts(alloc, machine, world, options),
        Ok(Some(end)) => Ok(end),
        Err(error) => Err(error),
    }
}

/// Answers prompts one after another, from the first on.
fn answer_prompts<M: Promptable, R: Source, W: Sink, S: SaveStore, G: Words>(
    alloc: Global,
    machine: &mut M,
    world: &mut World<'_, R, W, S, G>,
    options: Options,
) -> Result<End, PlayError>
    requires flushed { W.waits world.old.writer.now ≡ false }
    ensures play { M.IsSamePlay machine.old machine.new }
    ensures devices { SameDevices world.old world.new }
    ensures comes { ComesWith S.Follows world.old.store.now world.new.store.now (λ before after. ComesFromPrompts (M.setting machine.old) (M.Takes machine.old) (M.Wants (M.setting machine.old)) options (at_first R.remaining G.coming S.kept S.failures W.contents (M.state machine.old) world.old before) (at_first R.remaining G.coming S.kept S.failures W.contents (M.state machine.new) world.new after) result) }
    ensures reads { Blames (IsErrOf result PlayError.Read) (R.failures world.old.reader.now) (R.failures world.new.reader.now) }
    ensures ends { IfOk result M.MayEnd }
    ensures writes { BlamesWriter W.failures W.waits world.old.writer.now world.new.writer.now (IsErrOf result PlayError.Write) (¬ IsErrOf result PlayError.Write) }
{
    let mut turns = Turns::new(alloc);
    let mut lines = Lines::new();
    let mut left = u64::MAX;
    'prompts: while left > 0 {
        left -= 1;
        match answer_line(alloc, machine, &mut turns, &mut lines, world, options) {
            Ok(None) => {}
            Ok(Some(end)) => return Ok(end),
            Err(error) => return Err(error),
        }
    }
    // Nobody types so many lines.
    Ok(End::NoInput)
}

/// Hears a line, and gives it to the story or does what it says. Answers how play ended, if it doesn't stand at a prompt.
fn answer_line<M: Promptable, R: Source, W: Sink, S: SaveStore, G: Words>(
    alloc: Global,
    machine: &mut M,
    turns: &mut Turns,
    lines: &mut Lines,
    world: &mut World<'_, R, W, S, G>,
    options: Options,
) -> Result<Option<End>, PlayError>
    requires kept { All (M.IsKept machine.old) turns.old }
    requires ended { KnowsEnd lines.old (R.remaining world.old.reader.now) }
    requires flushed { W.waits world.old.writer.now ≡ false }
    ensures play { M.IsSamePlay machine.old machine.new }
    ensures devices { SameDevices world.old world.new }
    ensures kept { All (M.IsKept machine.new) turns.new }
    ensures ended { KnowsEnd lines.new (R.remaining world.new.reader.now) }
    ensures answers { ComesWith S.Follows world.old.store.now world.new.store.now (λ before after. Answers (M.setting machine.old) (M.Takes machine.old) (M.Wants (M.setting machine.old)) options (at_prompt R.remaining G.coming S.kept S.failures W.contents (M.state machine.old) turns.old lines.old world.old before) (at_prompt R.remaining G.coming S.kept S.failures W.contents (M.state machine.new) turns.new lines.new world.new after) result) }
    ensures reads { Blames (IsErrOf result PlayError.Read) (R.failures world.old.reader.now) (R.failures world.new.reader.now) }
    ensures ends { IfOk result (λ ended. IfSome ended M.MayEnd) }
    ensures writes { BlamesWriter W.failures W.waits world.old.writer.now world.new.writer.now (IsErrOf result PlayError.Write) (¬ IsErrOf result PlayError.Write) }
{
    let line = match lines.next_line(world.reader) {
        Ok(Some(line)) => line,
        Ok(None) => return Ok(Some(End::NoInput)),
        Err(error) => return Err(error),
    };
    let command = command_of(line.as_slice());
    do_line(
        alloc,
        line.as_slice(),
        command,
        machine,
        turns,
        world,
        options,
    )
}

/// Gives a line to the story, or does what it says where it is a command.
fn do_line<M: Promptable, R: Source, W: Sink, S: SaveStore, G: Words>(
    alloc: Global,
    line: &[u8],
    command: Option<Command>,
    machine: &mut M,
    turns: &mut Turns,
    world: &mut World<'_, R, W, S, G>,
    options: Options,
) -> Result<Option<End>, PlayError>
    requires kept { All (M.IsKept machine.old) turns.old }
    requires flushed { W.waits world.old.writer.now ≡ false }
    ensures play { M.IsSamePlay machine.old machine.new }
    ensures devices { SameDevices world.old world.new }
    ensures same { world.new.reader.now ≡ world.old.reader.now }
    ensures kept { All (M.IsKept machine.new) turns.new }
    ensures comes { ComesWith S.Follows world.old.store.now world.new.store.now (λ before after. ComesOfLine (M.setting machine.old) (M.Takes machine.old) (M.Wants (M.setting machine.old)) options line.now command (at_line R.remaining G.coming S.kept S.failures W.contents (M.state machine.old) turns.old world.old before) (at_line R.remaining G.coming S.kept S.failures W.contents (M.state machine.new) turns.new world.new after) result) }
    ensures ends { IfOk result (λ ended. IfSome ended M.MayEnd) }
    ensures writes { BlamesWriter W.failures W.waits world.old.writer.now world.new.writer.now (IsErrOf result PlayError.Write) (¬ IsErrOf result PlayError.Write) }
    ensures unread { ¬ IsErrOf result PlayError.Read }
{
    match command {
        None => {
            turns.keep(alloc, machine);
            play_on(alloc, machine, given_of(line), world, options)
        }
        Some(command) => match obey(alloc, command, machine, turns) {
            None => Ok(Some(End::Quit)),
            Some(answer) => match tell(world.writer, answer) {
                Ok(()) => Ok(None),
                Err(error) => Err(error),
            },
        },
    }
}

/// Does what a command says, and tells how it is answered: one that ends play isn't.
fn obey<M: Promptable>(
    alloc: Global,
    command: Command,
    machine: &mut M,
    turns: &mut Turns,
) -> Option<Answer>
    requires { All (M.IsKept machine.old) turns.old }
    ensures play { M.IsSamePlay machine.old machine.new }
    ensures kept { All (M.IsKept machine.new) turns.new }
    ensures obeys { MatchOption result ((command ≡ Command.Quit) × (turns.new ≡ turns.old) × (M.state machine.new ≡ M.state machine.old)) (λ answer. Obeys command answer turns.old (M.state machine.old) turns.new (M.state machine.new)) }
{
    match command {
        Command::Undo => Some(undo(alloc, machine, turns)),
        Command::Help => Some(Answer::Commands),
        Command::Unknown => Some(Answer::NoSuch),
        Command::Quit => None,
    }
}

/// Writes an answer, and sees that it is through.
fn tell<W: Sink>(writer: &mut W, answer: Answer) -> Result<(), PlayError>
    ensures ok { OnOk result (Appends (W.contents writer.old) (W.contents writer.new) (text_of answer) × (W.waits writer.new ≡ false) × (W.failures writer.new ≡ W.failures writer.old)) }
    ensures err { IfErr result (λ error. (error ≡ PlayError.Write) × AppendsBeginning (W.contents writer.old) (W.contents writer.new) (text_of answer) × RisesByOne (W.failures writer.old) (W.failures writer.new)) }
{
    match write_whole(writer, answer.text()) {
        Ok(()) => {}
        Err(_) => return Err(PlayError::Write),
    }
    match writer.flush() {
        Ok(()) => Ok(()),
        Err(_) => Err(PlayError::Write),
    }
}

/// Plays on to the next prompt, with these bytes for a line. Answers how play ended, if it doesn't stand at a prompt.
fn play_on<M: Promptable, R: Source, W: Sink, S: SaveStore, G: Words>(
    alloc: Global,
    machine: &mut M,
    bytes: &[u8],
    world: &mut World<'_, R, W, S, G>,
    options: Options,
) -> Result<Option<End>, PlayError>
    ensures play { M.IsSamePlay machine.old machine.new }
    ensures devices { SameDevices world.old world.new }
    ensures same { world.new.reader.now ≡ world.old.reader.now }
    ensures comes { ComesWith S.Follows world.old.store.now world.new.store.now (λ before after. Plays (M.setting machine.old) (M.Takes machine.old) (M.Wants (M.setting machine.old)) options bytes.now (at_first R.remaining G.coming S.kept S.failures W.contents (M.state machine.old) world.old before) (at_first R.remaining G.coming S.kept S.failures W.contents (M.state machine.new) world.new after) (played_of result)) }
    ensures ends { IfOk result (λ ended. IfSome ended M.MayEnd) }
    ensures writes { BlamesWriter W.failures W.waits world.old.writer.now world.new.writer.now (IsErrOf result PlayError.Write) (¬ IsErrOf result PlayError.Write) }
    ensures unread { ¬ IsErrOf result PlayError.Read }
{
    let mut given = Given::new(bytes);
    let mut there = World::new(&mut given, world.writer, world.store, world.words);
    match machine.play(alloc, &mut there, options) {
        Ok(End::NoInput) => Ok(None),
        Ok(end) => Ok(Some(end)),
        Err(error) => Err(error),
    }
}

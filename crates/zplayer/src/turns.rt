//! Steps in turns: what a turn gives out is written before the next.

ghost use Rattle.std.specs.Prelude.{◌≡◌, ◌<◌, [], false, Ok, None, IsErrOf, IfErr, IfNone, IfOk, IfSome, OnOk};
ghost use Rattle.std.specs.Io.KnownBytes.{Keeps};
ghost use Rattle.zfault.specs.Devices.{RisesByOne};
ghost use Rattle.zstate.specs.Run.{Stands};
ghost use Rattle.zplayer.specs.Outside.{Blames};
ghost use Rattle.zplayer.specs.Playing.{Writes, WritesInPart};

use crate::end::PlayError;
use crate::machine::Machine;
use std::alloc::AllocError;
use zfault::{Failed, Items, Pause, Sink};
use zscreen::{StatusLines, write_items};
use zstate::Stop;

/// The most steps that are made before what they gave out is written.
pub(crate) const TURN: u32 = 1024;

/// How much is held until it is written, but for what one step gives out: 64 KiB.
pub(crate) const HELD: usize = 65_536;

/// Makes at most `TURN` of the steps that are left, and writes what they gave out. Answers where playing then stands
/// still, if it does. A failed write is the last call of the writer: it leaves the machine where the turn ended.
///
/// A step that finds no room beside what is held ends the turn, and is the first of the next one. Memory is wanting only where a step
/// finds none with nothing held.
pub(crate) fn turn<M: Machine, W: Sink>(
    machine: &mut M,
    writer: &mut W,
    status: StatusLines,
    left: &mut u32,
    items: &mut Items,
) -> Result<Option<Stop>, PlayError>
    ensures play { M.IsSamePlay machine.old machine.new }
    ensures stands { IfOk result (λ still. IfSome still (λ stop. Stands (M.setting machine.old) stop (M.state machine.new) × (stop ≡ Stop.Paused Pause.Budget → left.new ≡ 0))) }
    ensures fewer { result ≡ Ok None → left.new < left.old }
    ensures ok { OnOk result (Writes (M.setting machine.old) status left.old left.new (M.state machine.old) (M.state machine.new) (W.contents writer.old) (W.contents writer.new)) }
    ensures blamed { Blames (IsErrOf result PlayError.Write) (W.failures writer.old) (W.failures writer.new) }
    ensures no_read { ¬ IsErrOf result PlayError.Read }
    ensures finished { IsErrOf result PlayError.OutOfMemory → Writes (M.setting machine.old) status left.old left.new (M.state machine.old) (M.state machine.new) (W.contents writer.old) (W.contents writer.new) }
    ensures wanted { IsErrOf result PlayError.OutOfMemory → M.Wants (M.setting machine.old) (M.state machine.new) }
    ensures held { IsErrOf result PlayError.OutOfMemory → items.new.items ≡ [] }
    ensures in_part { IsErrOf result PlayError.Write → WritesInPart (M.setting machine.old) status left.old left.new (M.state machine.old) (M.state machine.new) (W.contents writer.old) (W.contents writer.new) }
{
    let mut steps = TURN.min(*left);
    let rest = *left - steps;
    items.clear();
    let ran = machine.run_down(&mut steps, items);
    *left = rest + steps;
    write_items(writer, items, status).map_err(|_| PlayError::Write)?;
    match ran {
        Ok(stop) => Ok(standstill(stop, *left)),
        Err(AllocError) if items.is_empty() => Err(PlayError::OutOfMemory),
        Err(AllocError) => Ok(None),
    }
}

/// Where playing stands still: not where a turn's steps were made and more are left.
pub(crate) fn standstill(stop: Stop, left: u32) -> Option<Stop>
    ensures none { IfNone result ((stop ≡ Stop.Paused Pause.Budget) × (0 < left)) }
    ensures some { IfSome result (λ s. (s ≡ stop) × (stop ≡ Stop.Paused Pause.Budget → left ≡ 0)) }
{
    match stop {
        Stop::Paused(Pause::Budget) if left > 0 => None,
        _ => Some(stop),
    }
}

/// Hands on what was written.
pub(crate) fn flush<W: Sink>(writer: &mut W) -> Result<(), PlayError>
    ensures kept { Keeps (W.contents writer.old) (W.contents writer.new) }
    ensures ok { OnOk result (W.waits writer.new ≡ false) }
    ensures quiet { OnOk result (W.failures writer.new ≡ W.failures writer.old) }
    ensures failed { IfErr result (λ error. (error ≡ PlayError.Write) × RisesByOne (W.failures writer.old) (W.failures writer.new)) }
{
    match writer.flush() {
        Ok(()) => Ok(()),
        Err(Failed) => Err(PlayError::Write),
    }
}

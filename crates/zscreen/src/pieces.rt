//! Writing a piece, and what waits to be handed on then.

ghost use Rattle.std.specs.Prelude.{◌≡◌, OnErr, OnOk};
ghost use Rattle.zfault.specs.Devices.{BreaksOff, LeavesWaiting, RisesByOne};

use zfault::{Failed, Sink, write_whole};

/// Writes a piece whole, as `write_whole` does.
pub(crate) fn write_piece<W: Sink>(sink: &mut W, piece: &[u8]) -> Result<(), Failed>
    ensures ok { OnOk result (LeavesWaiting (W.contents sink.old) (W.contents sink.new) (W.waits sink.old) (W.waits sink.new) piece.now) }
    ensures begun { OnErr result (BreaksOff (W.contents sink.old) (W.contents sink.new) (W.waits sink.old) (W.waits sink.new) piece.now) }
    ensures quiet { OnOk result (W.failures sink.new ≡ W.failures sink.old) }
    ensures blamed { OnErr result (RisesByOne (W.failures sink.old) (W.failures sink.new)) }
{
    write_whole(sink, piece)
}

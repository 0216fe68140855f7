//! Writing a piece whole, to a sink that may take less at a time.

ghost use Rattle.std.specs.Prelude.{◌≡◌, [], true, OnErr, OnOk};
ghost use Rattle.std.specs.Io.KnownBytes.{Appends};
ghost use Rattle.zfault.specs.Devices.{AppendsBeginning, BreaksOff, RisesByOne, waits_after};

use crate::devices::{Failed, Sink};

/// Writes all of the bytes, however few the sink takes in one call, and takes no memory. Where a write fails, it
/// stops: those before were taken. What was taken waits for a flush, and with no bytes the sink isn't called.
pub fn write_whole<W: Sink>(sink: &mut W, bytes: &[u8]) -> Result<(), Failed>
    ensures ok { OnOk result (Appends (W.contents sink.old) (W.contents sink.new) bytes.now) }
    ensures begun { OnErr result (AppendsBeginning (W.contents sink.old) (W.contents sink.new) bytes.now) }
    ensures waiting { OnOk result (W.waits sink.new ≡ waits_after (W.waits sink.old) bytes.now) }
    ensures broken_off { OnErr result (BreaksOff (W.contents sink.old) (W.contents sink.new) (W.waits sink.old) (W.waits sink.new) bytes.now) }
    ensures unflushed { W.waits sink.old ≡ true → W.waits sink.new ≡ true }
    ensures none { bytes.now ≡ [] → sink.new ≡ sink.old }

    // The sink is blamed where a write of this call failed, and only there.
    ensures quiet { OnOk result (W.failures sink.new ≡ W.failures sink.old) }
    ensures blamed { OnErr result (RisesByOne (W.failures sink.old) (W.failures sink.new)) }
{
    let mut at = 0;
    while at < bytes.len() {
        at += sink.write(&bytes[at..])?;
    }
    Ok(())
}

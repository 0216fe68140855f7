//! Giving bytes to a sink, as far as it takes them.

ghost use Rattle.std.specs.Prelude.{◌≡◌, ◌<◌, ◌≤◌, length, take};
ghost use Rattle.std.specs.Io.KnownBytes.{Appends};
ghost use Rattle.zfault.specs.Devices.{RisesByOne, waits_after};

use zfault::Sink;

/// Writes bytes until a write fails, and answers how many were taken: all of them where none failed.
pub(crate) fn write_some<W: Sink>(sink: &mut W, bytes: &[u8]) -> usize
    ensures within { result ≤ length bytes.now }
    ensures taken { Appends (W.contents sink.old) (W.contents sink.new) (take result bytes.now) }
    ensures waiting { W.waits sink.new ≡ waits_after (W.waits sink.old) (take result bytes.now) }
    ensures quiet { length bytes.now ≤ result → W.failures sink.new ≡ W.failures sink.old }
    ensures blamed { result < length bytes.now → RisesByOne (W.failures sink.old) (W.failures sink.new) }
{
    let mut at = 0;
    while at < bytes.len() {
        match sink.write(&bytes[at..]) {
            Ok(count) => at += count,
            Err(_) => return at,
        }
    }
    at
}

//! The manual page.

ghost use Rattle.std.specs.Prelude.{◌≡◌, ◌⊎◌, map, string_bytes};
ghost use Rattle.std.specs.Io.KnownBytes.{Appends};
ghost use Rattle.zfault.specs.Devices.{RisesByOne};
ghost use Rattle.zexplain.specs.declared.manual.TheConstants.{MANUAL};
ghost use Rattle.zpc.specs.Words.{is_manual};

use zexplain::MANUAL;
use zfault::{Sink, write_whole};
use zperform::{Failure, fail};

/// Whether the words ask for the manual page: `help man`, and nothing else.
pub fn is_manual_asked(words: &[String]) -> bool
    ensures { result ≡ is_manual (map string_bytes words.now) }
{
    match words {
        [first, second] => first.as_str() == "help" && second.as_str() == "man",
        _ => false,
    }
}

/// Writes the manual page, and answers the exit status: 4 where the writer failed, and else 0.
pub fn tell_manual<W: Sink, E: Sink>(writer: &mut W, errors: &mut E) -> u8
    ensures status { (result ≡ 0) ⊎ (result ≡ 4) }
    ensures quiet { result ≡ 0 → W.failures writer.new ≡ W.failures writer.old }
    ensures blamed { result ≡ 4 → RisesByOne (W.failures writer.old) (W.failures writer.new) }
    ensures told { result ≡ 0 → Appends (W.contents writer.old) (W.contents writer.new) MANUAL.now }
{
    if write_whole(writer, MANUAL.as_bytes()).is_err() || writer.flush().is_err() {
        return fail(Failure::Write, errors);
    }
    0
}

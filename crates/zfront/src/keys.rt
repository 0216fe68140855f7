//! Stops, at which a key is waited for.

ghost use Rattle.std.specs.Prelude.{◌≡◌, ◌++◌, OnErr, OnOk};
ghost use Rattle.std.specs.Io.KnownBytes.{Appends};
ghost use Rattle.zfault.specs.Devices.{AppendsBeginning, CountsFailure};
ghost use Rattle.zfront.specs.Pages.{erased, more};

use zfault::{Failed, Sink, Source, write_whole};

/// What is written where a text stops.
const MORE: [u8; 6] = *b"[more]";

/// What takes it away, once the return key has moved the cursor a line down: up a line, to its beginning, erase that line.
const ERASED: [u8; 7] = *b"\x1b[A\r\x1b[K";

/// Stops until the player ends a line, and answers whether one ended: not where there are no keys any more, or they fail.
pub(crate) fn stop<W: Sink, S: Source>(below: &mut W, keys: &mut S) -> Result<bool, Failed>
    ensures ok { OnOk result (Appends (W.contents below.old) (W.contents below.new) (more ++ erased)) }
    ensures err { OnErr result (AppendsBeginning (W.contents below.old) (W.contents below.new) (more ++ erased)) }
    ensures counts { CountsFailure (W.failures below.old) (W.failures below.new) result }
{
    write_whole(below, &MORE)?;
    below.flush()?;
    let ended = line_ends(keys);
    write_whole(below, &ERASED)?;
    Ok(ended)
}

/// Reads up to and with an end of line, and no byte behind it, and answers whether there was one.
fn line_ends<S: Source>(keys: &mut S) -> bool {
    let mut key = [0];
    for _ in 0..u64::MAX {
        match keys.read(&mut key) {
            Ok(0) | Err(_) => return false,
            Ok(_) if key[0] == b'\n' => return true,
            Ok(_) => {}
        }
    }
    false
}

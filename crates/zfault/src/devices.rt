//! Where bytes come from and where they go: devices that count their failures.

ghost use Rattle.std.specs.Prelude.{◌≡◌, ℕ, ◌<◌, ◌≤◌, Bool, IfOk, List, None, Ok, Option, length};
ghost use Rattle.std.specs.Io.KnownBytes.{Keeps, ReadConsumes, WriteAppends};
ghost use Rattle.zfault.specs.Devices.{ChangesFront, CountsFailure, HandsOn, LetsWait};

use thiserror::Error;

/// A device refused a call. The call then has moved no byte, and the device's count of failures is greater by one.
#[derive(Clone, Copy, Debug, PartialEq, Eq, Error)]
#[error("the device failed")]
pub struct Failed;

/// Where bytes come from.
pub trait Source {
    /// The bytes that are left, where they are known.
    ghost remaining: { Self → Option (List ℕ) } = { λ _. None };

    /// How often a call failed so far, a `u64` that stays at its last value.
    ghost failures: { Self → ℕ };

    /// Reads bytes to the front of the buffer and answers how many: 0 of a buffer with room is the end. What is behind
    /// those bytes stays as it was. A buffer with no room gets none, and the source isn't asked.
    fn read(&mut self, buffer: &mut [u8]) -> Result<usize, Failed>
        ensures bound { IfOk result (λ count. count ≤ length buffer.new) }
        ensures no_room { length buffer.old ≡ 0 → (result ≡ Ok 0) × (self.new ≡ self.old) }
        ensures front { ChangesFront buffer.old buffer.new result }
        ensures bytes { ReadConsumes (remaining self.old) (remaining self.new) result buffer.new }
        ensures counts { CountsFailure (failures self.old) (failures self.new) result };
}

/// Where bytes go.
pub trait Sink {
    /// The bytes that were taken, where they are known.
    ghost contents: { Self → Option (List ℕ) } = { λ _. None };

    /// How often a call failed so far, a `u64` that stays at its last value.
    ghost failures: { Self → ℕ };

    /// Whether bytes were taken that no flush has handed on.
    ghost waits: { Self → Bool };

    /// Takes a beginning of the piece, at least one byte where it has one, and answers how many bytes.
    fn write(&mut self, piece: &[u8]) -> Result<usize, Failed>
        ensures bound { IfOk result (λ count. count ≤ length piece.now) }
        ensures takes { IfOk result (λ count. 0 < length piece.now → 0 < count) }
        ensures bytes { WriteAppends (contents self.old) (contents self.new) result piece.now }
        ensures waiting { LetsWait (waits self.old) (waits self.new) result piece.now }
        ensures counts { CountsFailure (failures self.old) (failures self.new) result };

    /// Hands on what was taken.
    fn flush(&mut self) -> Result<(), Failed>
        ensures bytes { Keeps (contents self.old) (contents self.new) }
        ensures through { HandsOn (waits self.old) (waits self.new) result }
        ensures counts { CountsFailure (failures self.old) (failures self.new) result };
}

//! Rendering items to bytes in memory.

ghost use Rattle.std.specs.Prelude.{◌≡◌, ◌≢◌, [], IfOk, OnErr};
ghost use Rattle.zscreen.specs.Rendering.{render};

use crate::status_lines::StatusLines;
use crate::writing::write_items;
use std::alloc::{AllocError, Global};
use zfault::{Failed, Items, Sink};

// Bytes that are kept in memory. A write that finds none fails.
#[derive(Drop)]
struct Kept {
    bytes: Vec<u8>,
    failures: u64,
    waits: bool,
}

impl Sink for Kept {
    ghost use Rattle.std.specs.Prelude.{Some};

    ghost contents = { λ kept. Some kept.bytes.items };

    ghost failures = { λ kept. kept.failures };

    ghost waits = { λ kept. kept.waits };

    fn write(&mut self, piece: &[u8]) -> Result<usize, Failed> {
        if self.bytes.extend_from_slice(piece).is_err() {
            self.failures = self.failures.saturating_add(1);
            return Err(Failed);
        }
        self.waits = self.waits || !piece.is_empty();
        Ok(piece.len())
    }

    fn flush(&mut self) -> Result<(), Failed> {
        self.waits = false;
        Ok(())
    }
}

/// The bytes of all items, with status lines as they are asked for. Want of memory is the only error, and comes only where
/// there is a byte to be shown.
pub fn render(alloc: Global, items: &Items, lines: StatusLines) -> Result<Vec<u8>, AllocError>
    ensures ok { IfOk result (λ bytes. bytes.items ≡ render lines items.now.items) }
    ensures wanted { OnErr result (render lines items.now.items ≢ []) }
{
    let mut kept = Kept {
        bytes: Vec::new(alloc),
        failures: 0,
        waits: false,
    };
    match write_items(&mut kept, items, lines) {
        Ok(()) => Ok(kept.bytes),
        Err(Failed) => Err(AllocError),
    }
}

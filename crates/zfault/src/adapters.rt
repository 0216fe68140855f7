//! Devices over the readers and writers of the standard library.

ghost use Rattle.std.specs.Prelude.{◌≡◌, false};
ghost use Rattle.zfault.specs.Adapters.{reader_of, read_failures, unflushed, writer_of, write_failures};
ghost use Rattle.zfault.specs.Devices.{RisesByOne};

use crate::devices::{Failed, Sink, Source};
use std::io::{Read, Write};

/// The most bytes that a source reads in one call.
const PIECE: usize = 256;

/// A reader that counts its failures. Any error counts, an interrupted call among them.
#[derive(Drop)]
pub struct FromRead<R> {
    reader: R,
    failed_reads: u64,
}

impl<R> FromRead<R> {
    /// The reader, with no failure yet.
    pub fn new(reader: R) -> FromRead<R>
        ensures reader { reader_of result ≡ reader }
        ensures failures { read_failures result ≡ 0 }
    {
        FromRead {
            reader,
            failed_reads: 0,
        }
    }

    /// How many reads failed; stays at `u64::MAX`.
    pub fn failures(&self) -> u64
        ensures { result ≡ read_failures self.now }
    {
        self.failed_reads
    }
}

impl<R: Read> Source for FromRead<R> {
    ghost remaining = { λ source. R.remaining (reader_of source) };

    ghost failures = { read_failures };

    fn read(&mut self, buffer: &mut [u8]) -> Result<usize, Failed> {
        if buffer.is_empty() {
            return Ok(0);
        }
        // What a reader does to a buffer behind the bytes that it gives isn't known, so it gets one of its own.
        let mut piece = [0; PIECE];
        let room = buffer.len().min(PIECE);
        match self.reader.read(&mut piece[..room]) {
            Ok(count) => {
                buffer[..count].copy_from_slice(&piece[..count]);
                Ok(count)
            }
            Err(_) => Err(failed(&mut self.failed_reads)),
        }
    }
}

/// A writer that counts its failures. Any error counts, and so does a write that takes no byte of a piece.
#[derive(Drop)]
pub struct ToWrite<W> {
    writer: W,
    failed_calls: u64,
    unflushed: bool,
}

impl<W> ToWrite<W> {
    /// The writer, with no failure yet and nothing to flush.
    pub fn new(writer: W) -> ToWrite<W>
        ensures writer { writer_of result ≡ writer }
        ensures failures { write_failures result ≡ 0 }
        ensures flushed { unflushed result ≡ false }
    {
        ToWrite {
            writer,
            failed_calls: 0,
            unflushed: false,
        }
    }

    /// How many writes and flushes failed; stays at `u64::MAX`.
    pub fn failures(&self) -> u64
        ensures { result ≡ write_failures self.now }
    {
        self.failed_calls
    }
}

impl<W: Write> Sink for ToWrite<W> {
    ghost contents = { λ sink. W.contents (writer_of sink) };

    ghost failures = { write_failures };

    ghost waits = { unflushed };

    fn write(&mut self, piece: &[u8]) -> Result<usize, Failed> {
        match self.writer.write(piece) {
            Ok(count) if count > 0 || piece.is_empty() => {
                self.unflushed = self.unflushed || count > 0;
                Ok(count)
            }
            _ => Err(failed(&mut self.failed_calls)),
        }
    }

    fn flush(&mut self) -> Result<(), Failed> {
        match self.writer.flush() {
            Ok(()) => {
                self.unflushed = false;
                Ok(())
            }
            Err(_) => Err(failed(&mut self.failed_calls)),
        }
    }
}

/// Counts a failure.
fn failed(failures: &mut u64) -> Failed
    ensures { RisesByOne failures.old failures.new }
{
    *failures = failures.saturating_add(1);
    Failed
}

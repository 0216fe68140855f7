//! A certificate that comes in pieces, read, and checked with a story.

use crate::accepting::{load, wanted};
use std::io;
use zcert::{CertError, CertStream, Certificate};
use zcheck::{Accepted, CheckStream, Refusal, StreamRefusal};
use zstory::Story;

/// How many bytes each piece has.
const PIECE: usize = 7;

/// Reads a certificate, and once more where it is refused memory. A stream that is refused it answers so from then on.
pub fn read_pieces(rt: &HostRuntime, file: &[u8]) -> io::Result<Certificate> {
    match read_fed(rt, file) {
        Err(CertError::OutOfMemory) => {
            println!(rt; "refused: stream")?;
            wanted(read_fed(rt, file))
        }
        answer => wanted(answer),
    }
}

/// What a stream answers that is fed a certificate.
fn read_fed(rt: &HostRuntime, file: &[u8]) -> Result<Certificate, CertError> {
    let mut stream = CertStream::new(rt.alloc());
    for piece in file.chunks(PIECE) {
        if let Err(error) = stream.feed(piece) {
            let stays = stream.feed(piece) == Err(error);
            let end = stream.finish();
            return refused_thrice(stays, error, end);
        }
    }
    stream.finish()
}

/// The error that three calls answered, or another where they did not.
fn refused_thrice<T: Drop>(
    stays: bool,
    error: CertError,
    end: Result<T, CertError>,
) -> Result<T, CertError> {
    match end {
        Err(last) if stays && last == error => Err(error),
        _ => Err(CertError::Magic),
    }
}

/// Checks a story with a certificate, and once more where it is refused memory, as it is read or as it is checked.
pub fn check_pieces(rt: &HostRuntime, story: &[u8], file: &[u8]) -> io::Result<Accepted> {
    match check_fed(rt, load(rt, story)?, file) {
        Err(StreamRefusal::Cert(CertError::OutOfMemory)) => {
            println!(rt; "refused: feed")?;
            wanted(check_fed(rt, load(rt, story)?, file))
        }
        Err(StreamRefusal::Check(Refusal::OutOfMemory)) => {
            println!(rt; "refused: finish")?;
            wanted(check_fed(rt, load(rt, story)?, file))
        }
        answer => wanted(answer),
    }
}

/// What a stream answers of a story that is fed a certificate.
fn check_fed(rt: &HostRuntime, story: Story, file: &[u8]) -> Result<Accepted, StreamRefusal> {
    let mut stream = CheckStream::new(rt.alloc(), story);
    for piece in file.chunks(PIECE) {
        if let Err(error) = stream.feed(piece) {
            let stays = stream.feed(piece) == Err(error);
            return match stream.finish(rt.alloc()) {
                Err(StreamRefusal::Cert(last)) if stays && last == error => {
                    Err(StreamRefusal::Cert(error))
                }
                _ => Err(StreamRefusal::Cert(CertError::Magic)),
            };
        }
    }
    stream.finish(rt.alloc())
}

//! From the files to an accepted story.

use std::fs;
use std::io::{self, ErrorKind};
use zcert::{
    CertError, Certificate, FACT_VERSION, LIMIT_VERSION, LIST_VERSION, MARK_VERSION, Spelled,
};
use zcheck::{Accepted, Refusal, check};
use zstory::{LoadError, Story};

/// Whether the file of a certificate is of version 2, 3, 4 or 5.
pub fn has_lists(file: &[u8]) -> bool {
    let version = file.get(4);
    version == Some(&LIST_VERSION)
        || version == Some(&LIMIT_VERSION)
        || version == Some(&MARK_VERSION)
        || version == Some(&FACT_VERSION)
}

/// Accepts the story of a file with the certificate of another.
pub fn accept<V: Spelled>(
    rt: &HostRuntime,
    story: &str,
    certificate: &str,
) -> io::Result<Accepted<V>> {
    let story = file(rt, story)?;
    let certificate = file(rt, certificate)?;
    checked(rt, &story, &certificate)
}

/// Checks what the two files hold.
fn checked<V: Spelled>(
    rt: &HostRuntime,
    story: &[u8],
    certificate: &[u8],
) -> io::Result<Accepted<V>> {
    match attempt(rt, story, certificate)? {
        Err(Refusal::OutOfMemory) => {
            println!(rt; "refused: check")?;
            wanted(attempt(rt, story, certificate)?)
        }
        answer => wanted(answer),
    }
}

/// What one call of the checker answers.
fn attempt<V: Spelled>(
    rt: &HostRuntime,
    story: &[u8],
    certificate: &[u8],
) -> io::Result<Result<Accepted<V>, Refusal>> {
    let story = load(rt, story)?;
    let certificate = read(rt, certificate)?;
    Ok(check(rt.alloc(), story, certificate))
}

/// The value of a call whose answer is to be one.
pub fn wanted<T: Drop, E: Drop>(answer: Result<T, E>) -> io::Result<T> {
    match answer {
        Ok(value) => Ok(value),
        Err(_) => Err(io::Error::from(ErrorKind::InvalidData)),
    }
}

/// The bytes of a file.
fn file(rt: &HostRuntime, name: &str) -> io::Result<Vec<u8>> {
    match fs::read(rt, name) {
        Err(error) => match error.kind() {
            ErrorKind::OutOfMemory => file_again(rt, name),
            _ => Err(error),
        },
        bytes => bytes,
    }
}

/// The bytes of a file whose reading was refused memory.
fn file_again(rt: &HostRuntime, name: &str) -> io::Result<Vec<u8>> {
    println!(rt; "refused: file")?;
    fs::read(rt, name)
}

/// Loads a story.
pub fn load(rt: &HostRuntime, file: &[u8]) -> io::Result<Story> {
    match Story::load(rt.alloc(), file) {
        Err(LoadError::OutOfMemory) => {
            println!(rt; "refused: load")?;
            wanted(Story::load(rt.alloc(), file))
        }
        answer => wanted(answer),
    }
}

/// Reads a certificate.
fn read<V: Spelled>(rt: &HostRuntime, file: &[u8]) -> io::Result<Certificate<V>> {
    match zcert::read(rt.alloc(), file) {
        Err(CertError::OutOfMemory) => {
            println!(rt; "refused: read")?;
            wanted(zcert::read(rt.alloc(), file))
        }
        answer => wanted(answer),
    }
}

//! Calls that no play makes by itself.

use crate::accepting::wanted;
use crate::pieces::sum;
use crate::streams::{check_pieces, read_pieces};
use std::alloc::AllocError;
use std::{io, str};
use zcert::{Certificate, write};
use zcheck::Accepted;
use zfind::{FindError, Found, find};
use zlist::{ListError, Listing, list_story};
use zplay::Session;
use zstory::Story;
use ztext::{TextError, decode_into};

/// Makes each of them, and once more where it is refused memory.
pub fn call_each(rt: &HostRuntime, accepted: &Accepted) -> io::Result<()> {
    let story = accepted.story();
    decode(rt, story)?;
    let listed = list(rt, story)?.records().len();
    println!(rt; "listed {listed}")?;
    let found = search(rt, story)?;
    tell(rt, "found", &written_found(rt, &found)?)?;
    let certificate = written(rt, accepted.certificate())?;
    tell(rt, "accepted", &certificate)?;
    feed_each(rt, story.memory(), &certificate)
}

/// Reads a certificate from its pieces, and checks a story with it.
fn feed_each(rt: &HostRuntime, story: &[u8], certificate: &[u8]) -> io::Result<()> {
    tell(rt, "fed", &written(rt, &read_pieces(rt, certificate)?)?)?;
    let accepted = check_pieces(rt, story, certificate)?;
    tell(rt, "fed and checked", &written(rt, accepted.certificate())?)
}

/// Decodes what would be the text of the first instruction, once and behind that once more.
fn decode(rt: &HostRuntime, story: &Story) -> io::Result<()> {
    let mut text = Vec::new(rt.alloc());
    append(rt, story, &mut text)?;
    append(rt, story, &mut text)?;
    let decoded = str::from_utf8(&text).unwrap_or("no text");
    println!(rt; "decoded {decoded}")
}

/// Decodes it behind what is there.
fn append(rt: &HostRuntime, story: &Story, text: &mut Vec<u8>) -> io::Result<()> {
    let at = story.first_instruction().saturating_add(1);
    if let Err(TextError::OutOfMemory) = decode_into(story.memory(), at, text) {
        let kept = text.len();
        println!(rt; "refused: decode, with {kept} bytes kept")?;
        wanted(decode_into(story.memory(), at, text))?;
    }
    Ok(())
}

/// Lists a story.
fn list(rt: &HostRuntime, story: &Story) -> io::Result<Listing> {
    match list_story(rt.alloc(), story) {
        Err(ListError::OutOfMemory) => {
            println!(rt; "refused: list")?;
            wanted(list_story(rt.alloc(), story))
        }
        answer => wanted(answer),
    }
}

/// Searches a certificate.
fn search(rt: &HostRuntime, story: &Story) -> io::Result<Found> {
    match find(rt.alloc(), story) {
        Err(FindError::OutOfMemory) => {
            println!(rt; "refused: find")?;
            wanted(find(rt.alloc(), story))
        }
        answer => wanted(answer),
    }
}

/// The bytes of a certificate that was found.
fn written_found(rt: &HostRuntime, found: &Found) -> io::Result<Vec<u8>> {
    match found.write(rt.alloc()) {
        Ok(bytes) => Ok(bytes),
        Err(AllocError) => {
            println!(rt; "refused: write")?;
            Ok(found.write(rt.alloc())?)
        }
    }
}

/// The bytes of a certificate.
fn written(rt: &HostRuntime, certificate: &Certificate) -> io::Result<Vec<u8>> {
    match write(rt.alloc(), certificate) {
        Ok(bytes) => Ok(bytes),
        Err(AllocError) => {
            println!(rt; "refused: write")?;
            Ok(write(rt.alloc(), certificate)?)
        }
    }
}

/// Says how long a file is, and what its bytes add up to.
pub fn tell(rt: &HostRuntime, what: &str, bytes: &[u8]) -> io::Result<()> {
    let (length, sum) = (bytes.len(), sum(bytes));
    println!(rt; "{what} {length} bytes, sum {sum}")
}

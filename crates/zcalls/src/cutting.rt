//! Certificates that come in pieces, by the names of their files: piece by piece, and cut in many ways.

use crate::accepting::{has_lists, load};
use std::{fs, io};
use zcert::{CertError, Certificate, Spelled, read, write};
use zcheck::{Accepted, CheckStream, Judged, Marked, Refusal, StreamRefusal, check_any};
use zdomain::{Interval, Values};
use zstory::Story;

/// The most bytes of a piece.
const MOST: usize = 9;

/// Feeds files to a stream that checks a story, one after another, and says what it answers of each, and at the end.
pub fn feed_files(rt: &HostRuntime, story: &str, pieces: &[String]) -> io::Result<()> {
    let story = fs::read(rt, story)?;
    let mut whole = Vec::new(rt.alloc());
    for name in pieces {
        whole.extend_from_slice(&fs::read(rt, name)?)?;
    }
    if has_lists(&whole) {
        let stream: CheckStream<Values> = CheckStream::new(rt.alloc(), load(rt, &story)?);
        feed(rt, stream, pieces)
    } else {
        let stream: CheckStream<Interval> = CheckStream::new(rt.alloc(), load(rt, &story)?);
        feed(rt, stream, pieces)
    }
}

/// Feeds them to a stream of either kind.
fn feed<V: Spelled>(
    rt: &HostRuntime,
    mut stream: CheckStream<V>,
    pieces: &[String],
) -> io::Result<()> {
    for name in pieces {
        match stream.feed(&fs::read(rt, name)?) {
            Ok(()) => println!(rt; "open")?,
            Err(error) => tell_error(rt, error)?,
        }
    }
    tell(rt, &stream.judge(rt.alloc()))
}

/// Says of each of the certificates whether a story is accepted with it, or why not, and that it is so wherever it is cut.
pub fn compare_cuts(rt: &HostRuntime, story: &str, certificates: &[String]) -> io::Result<()> {
    let story = fs::read(rt, story)?;
    for name in certificates {
        let file = fs::read(rt, name)?;
        if has_lists(&file) {
            let whole: Result<Judged<Accepted<Values>, Marked<Values>>, StreamRefusal> = whole(
                rt,
                load(rt, &story)?,
                &file,
            );
            compare_each(rt, &story, &file, &whole)?;
        } else {
            let whole: Result<Judged<Accepted<Interval>, Marked<Interval>>, StreamRefusal> = whole(
                rt,
                load(rt, &story)?,
                &file,
            );
            compare_each(rt, &story, &file, &whole)?;
        }
    }
    Ok(())
}

/// Says what was answered of a certificate, and where another answer comes of it in pieces.
fn compare_each<V: Spelled>(
    rt: &HostRuntime,
    story: &[u8],
    file: &[u8],
    whole: &Result<Judged<Accepted<V>, Marked<V>>, StreamRefusal>,
) -> io::Result<()> {
    tell(rt, whole)?;
    for size in 1..=MOST {
        let cut = cut(rt, load(rt, story)?, file, size);
        if !is_same(rt, whole, &cut)? {
            println!(rt; "another answer, in pieces of {size}")?;
            tell(rt, &cut)?;
        }
    }
    Ok(())
}

/// What is answered of a certificate that is read whole.
fn whole<V: Spelled>(
    rt: &HostRuntime,
    story: Story,
    file: &[u8],
) -> Result<Judged<Accepted<V>, Marked<V>>, StreamRefusal> {
    let certificate: Certificate<V> = read(rt.alloc(), file)?;
    Ok(check_any(rt.alloc(), story, certificate)?)
}

/// What is answered of one that comes in pieces of a size, with an empty one behind each.
fn cut<V: Spelled>(
    rt: &HostRuntime,
    story: Story,
    file: &[u8],
    size: usize,
) -> Result<Judged<Accepted<V>, Marked<V>>, StreamRefusal> {
    let mut stream = CheckStream::new(rt.alloc(), story);
    for piece in file.chunks(size.max(1)) {
        let _ = stream.feed(piece);
        let _ = stream.feed(&[]);
    }
    stream.judge(rt.alloc())
}

/// Whether both are the same answer: the same certificate, or the same refusal.
fn is_same<V: Spelled>(
    rt: &HostRuntime,
    one: &Result<Judged<Accepted<V>, Marked<V>>, StreamRefusal>,
    other: &Result<Judged<Accepted<V>, Marked<V>>, StreamRefusal>,
) -> io::Result<bool> {
    match (one, other) {
        (Ok(one), Ok(other)) => {
            let bytes = write(rt.alloc(), certificate_of(one))?;
            Ok(bytes == write(rt.alloc(), certificate_of(other))?)
        }
        (Err(one), Err(other)) => Ok(one == other),
        _ => Ok(false),
    }
}

/// The certificate of a story that is accepted.
fn certificate_of<V: Spelled>(judged: &Judged<Accepted<V>, Marked<V>>) -> &Certificate<V> {
    match judged {
        Judged::Whole(accepted) => accepted.certificate(),
        Judged::Marked(marked) => marked.certificate(),
    }
}

/// Says what was answered.
fn tell<V: Spelled>(
    rt: &HostRuntime,
    answer: &Result<Judged<Accepted<V>, Marked<V>>, StreamRefusal>,
) -> io::Result<()> {
    match answer {
        Ok(judged) => match certificate_of(judged).marks() {
            0 => println!(rt; "accepted"),
            marks => println!(rt; "accepted, marked: {marks}"),
        },
        Err(StreamRefusal::Cert(error)) => tell_error(rt, *error),
        Err(StreamRefusal::Check(refusal)) => tell_refusal(rt, *refusal),
    }
}

/// Says why bytes are no certificate.
fn tell_error(rt: &HostRuntime, error: CertError) -> io::Result<()> {
    println!(rt; "K{}", error.number())
}

/// Says why a story isn't accepted with a certificate.
fn tell_refusal(rt: &HostRuntime, refusal: Refusal) -> io::Result<()> {
    match refusal {
        Refusal::Story(rule) => println!(rt; "S{}", rule.number()),
        Refusal::Instruction(place, rule) => println!(rt; "I{} at {place:05x}", rule.number()),
        Refusal::OutOfMemory => println!(rt; "out of memory"),
    }
}

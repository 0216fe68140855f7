//! The files that a play's text and lines are kept in.

use std::rt::Runtime;
use std::{fs, io};
use zfault::ToWrite;
use zperform::{Action, Blame, Cause};

/// Opens the file of a name with nothing in it, unless it is a plain file that holds something and isn't to be written over. What is written
/// goes behind all that is there then, so that two can write to it.
pub fn open<R: Runtime>(rt: &R, name: &str, force: bool) -> Result<ToWrite<R::File>, Blame> {
    if !force && holds_something(rt, name) {
        return Err(Blame::new(name, Action::Write, Cause::NotEmpty));
    }
    blaming(name, emptied(rt, name))
}

/// Opens a file again that was opened so.
pub fn open_again<R: Runtime>(rt: &R, name: &str) -> Result<ToWrite<R::File>, Blame> {
    blaming(name, appended(rt, name))
}

/// A file that was opened to be written, or the blame of it.
fn blaming<F>(name: &str, opened: io::Result<F>) -> Result<ToWrite<F>, Blame> {
    match opened {
        Ok(file) => Ok(ToWrite::new(file)),
        Err(error) => Err(Blame::new(name, Action::Write, Cause::of(error.kind()))),
    }
}

/// Whether a name leads to a plain file that isn't empty.
fn holds_something<R: Runtime>(rt: &R, name: &str) -> bool {
    match fs::metadata(rt, name) {
        Ok(there) => there.is_file() && there.len() > 0,
        Err(_) => false,
    }
}

/// A file with nothing in it, which is appended to.
fn emptied<R: Runtime>(rt: &R, name: &str) -> io::Result<R::File> {
    let _ = fs::File::create(rt, name)?;
    appended(rt, name)
}

/// A file that is appended to.
fn appended<R: Runtime>(rt: &R, name: &str) -> io::Result<R::File> {
    fs::File::options().append(true).open(rt, name)
}

//! How far a command is, for who waits at a terminal.

use std::cell::Cell;
use std::io;
use std::rt::Runtime;
use std::time::Instant;

/// How many milliseconds a command takes before anything is shown.
const PATIENCE: u128 = 1_000;

/// How many milliseconds what is shown stays as it is, at least.
const PAUSE: u128 = 200;

/// What goes over all that may be shown.
const BLANK: &str = "\r                                                            \r";

/// How many files a command began to read, and how many instructions it visited looking for a certificate: shown on the errors while it
/// works, on a line that goes when anything else is told.
#[derive(Drop)]
pub struct Progress<'a, R> {
    rt: &'a R,
    begun: Option<Instant>,
    files: Cell<u64>,
    visits: Cell<u64>,
    next: Cell<u128>,
    is_shown: Cell<bool>,
}

impl<'a, R: Runtime> Progress<'a, R> {
    /// The beginning of a command, which shows something or never does.
    pub fn new(rt: &'a R, shows: bool) -> Progress<'a, R> {
        let begun = if shows { Instant::now(rt).ok() } else { None };
        Progress {
            rt,
            begun,
            files: Cell::new(0),
            visits: Cell::new(0),
            next: Cell::new(PATIENCE),
            is_shown: Cell::new(false),
        }
    }

    /// A file more is read.
    pub fn opened(&self) {
        self.files.set(self.files.get().saturating_add(1));
        self.show();
    }

    /// So many instructions more were visited.
    pub fn visited(&self, count: u32) {
        self.visits
            .set(self.visits.get().saturating_add(u64::from(count)));
        self.show();
    }

    /// What is shown goes.
    pub fn clear(&self) {
        if self.is_shown.get() {
            self.is_shown.set(false);
            let _ = self.rt.eprint(BLANK);
        }
    }

    /// Shows how far the command is, where that is due. What can't be shown isn't.
    fn show(&self) {
        if self.is_due() {
            self.is_shown.set(true);
            let _ = self.write();
        }
    }

    /// Whether the command has taken long, and what is shown stood for a while.
    fn is_due(&self) -> bool {
        let Some(begun) = self.begun else {
            return false;
        };
        let Ok(taken) = begun.elapsed(self.rt) else {
            return false;
        };
        let taken = taken.as_millis();
        let due = self.next.get() <= taken;
        if due {
            self.next.set(taken.saturating_add(PAUSE));
        }
        due
    }

    /// Writes how far it is.
    fn write(&self) -> io::Result<()> {
        let files = self.files.get();
        match self.visits.get() {
            0 => eprint!(self.rt; "\rfiles read: {files}"),
            visits => eprint!(self.rt; "\rfiles read: {files}, instructions visited: {visits}"),
        }
    }
}

//! What a player is handed, with no memory taken.

ghost use Rattle.std.specs.Prelude.{Some, ⊤};

use arrayvec::ArrayVec;
use std::io::{self, Read};
use zfault::{Failed, FromRead, Items, Sink};
use zplayer::{SaveStore, Words};
use zquetzal::SaveError;

/// How many bytes a page has room for.
pub const ROOM: usize = 256;

/// What was written, or given out, so far.
#[derive(Drop)]
pub struct Page {
    bytes: ArrayVec<u8, ROOM>,
    failures: u64,
    waits: bool,
    /// How many flushes come before the one that fails.
    flushes: u8,
}

impl Page {
    /// A page with nothing on it.
    pub fn new() -> Page {
        Page {
            bytes: ArrayVec::new(),
            failures: 0,
            waits: false,
            flushes: u8::MAX,
        }
    }

    /// A page of which one flush fails, after so many that don't.
    pub fn blocked_after(flushes: u8) -> Page {
        Page {
            flushes,
            ..Page::new()
        }
    }

    /// A page with the text of these items, as far as it has room.
    pub fn of(items: &Items) -> Page {
        let mut page = Page::new();
        for byte in items.text() {
            let _ = page.bytes.try_push(*byte);
        }
        page
    }

    /// What is on the page.
    pub fn bytes(&self) -> &[u8] {
        self.bytes.as_slice()
    }
}

impl Sink for Page {
    ghost contents = { λ page. Some page.bytes.items };

    ghost failures = { λ page. page.failures };

    ghost waits = { λ page. page.waits };

    fn write(&mut self, piece: &[u8]) -> Result<usize, Failed> {
        if self.bytes.try_extend_from_slice(piece).is_ok() {
            self.waits = self.waits || !piece.is_empty();
            return Ok(piece.len());
        }
        self.failures = self.failures.saturating_add(1);
        Err(Failed)
    }

    fn flush(&mut self) -> Result<(), Failed> {
        let left = self.flushes;
        self.flushes = left.wrapping_sub(1);
        if left == 0 {
            self.failures = self.failures.saturating_add(1);
            return Err(Failed);
        }
        self.waits = false;
        Ok(())
    }
}

/// What a player takes from outside, over all calls of a play.
#[derive(Drop)]
pub struct World {
    pub reader: FromRead<Typed>,
    pub store: Shelf,
    pub words: Rising,
}

impl World {
    /// One whose reader gives at most so many bytes at once.
    pub fn new(most: usize) -> World {
        World {
            reader: FromRead::new(Typed { place: 0, most }),
            store: Shelf {
                save: ArrayVec::new(),
                left: 2,
                failures: 0,
            },
            words: Rising { next: 5 },
        }
    }
}

/// What is typed.
const LINES: &[u8] = b"look,at\nlook,at\nlook,at\n";

/// How many bytes a line of it has.
pub const LINE: usize = 8;

/// A reader of lines that gives at most so many bytes at once.
#[derive(Drop)]
pub struct Typed {
    /// Where in the lines it is.
    place: usize,
    most: usize,
}

impl Read for Typed {
    fn read(&mut self, buffer: &mut [u8]) -> io::Result<usize> {
        let room = buffer.len().min(self.most);
        let mut left = LINES.get(self.place..).unwrap_or(&[]);
        let count = left.read(&mut buffer[..room])?;
        self.place = self.place.saturating_add(count);
        Ok(count)
    }
}

/// A store that keeps one save, and gives it so often.
#[derive(Drop)]
pub struct Shelf {
    save: ArrayVec<u8, 700>,
    left: u8,
    failures: u64,
}

impl SaveStore for Shelf {
    ghost failures = { λ shelf. shelf.failures };

    ghost Follows = { λ _ _ _. ⊤ };

    fn put(&mut self, save: &[u8]) -> bool {
        self.save.clear();
        if self.save.try_extend_from_slice(save).is_ok() {
            return true;
        }
        self.failures = self.failures.saturating_add(1);
        false
    }

    fn get(&mut self, save: &mut Vec<u8>) -> bool {
        save.clear();
        if self.left > 0 && save.extend_from_slice(self.save.as_slice()).is_ok() {
            self.left -= 1;
            return true;
        }
        self.failures = self.failures.saturating_add(1);
        false
    }

    fn refused(&mut self, _error: SaveError) {}

    ghost itself = { λ _. tt };

    ghost through = { λ _ _ _ _ _ _ _. tt };
}

/// Words that rise by one.
#[derive(Drop)]
pub struct Rising {
    next: u16,
}

impl Words for Rising {
    fn next(&mut self) -> u16 {
        let word = self.next;
        self.next = word.wrapping_add(1);
        word
    }
}

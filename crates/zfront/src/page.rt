//! How much of a page was shown.

ghost use Rattle.std.specs.Prelude.{◌≡◌, ◌+◌, ◌-◌, ◌<◌, ◌≤◌, length, nat_lt, not};
ghost use Rattle.zfront.specs.Pages.{ends_in, first_page, from_first, page_front};

use std::marker::Model;

/// How many lines were shown of a page, and whether the text stops behind a full one.
#[derive(Drop)]
pub(crate) struct Page {
    /// How many ends of lines fill it: at least one.
    lines: usize,
    shown: usize,
    stops: bool,
}

impl Model for Page {
    ghost use Rattle.zfront.specs.Pages.{IsPaging, Paging};

    ghost Value = { Paging };

    ghost view = { λ page. record { lines = page.lines; shown = page.shown; stops = page.stops } };

    ghost invariant = { λ page. IsPaging page.lines page.shown };
}

impl Page {
    /// The first page of a screen with so many rows, of which the last is that of a stop.
    pub(crate) fn new(rows: u16) -> Page
        requires { 1 < rows }
        ensures { result ≡ first_page rows }
    {
        Page {
            lines: usize::from(rows) - 1,
            shown: 0,
            stops: true,
        }
    }

    /// Whether all of its lines were shown.
    pub(crate) fn is_full(&self) -> bool
        ensures { result ≡ not (nat_lt self.now.shown self.now.lines) }
    {
        self.shown >= self.lines
    }

    /// Whether the text stops behind it.
    pub(crate) fn stops(&self) -> bool
        ensures { result ≡ self.now.stops }
    {
        self.stops
    }

    /// A new page begins, at a flush.
    pub(crate) fn begin(&mut self)
        ensures { self.new ≡ from_first self.old }
    {
        self.shown = 0;
    }

    /// A new page begins behind a full one, and from now on the text stops, or not.
    pub(crate) fn turn(&mut self, stops: bool)
        ensures lines { self.new.lines ≡ self.old.lines }
        ensures shown { self.new.shown ≡ 0 }
        ensures stops { self.new.stops ≡ stops }
        ensures room { self.new.shown < self.new.lines }
    {
        self.shown = 0;
        self.stops = stops;
    }

    /// How much of a piece goes onto it: up to and with the end of line that fills it.
    pub(crate) fn front(&self, piece: &[u8]) -> usize
        requires { self.now.shown < self.now.lines }
        ensures count { result ≡ length (page_front (self.now.lines - self.now.shown) piece.now) }
        ensures within { result ≤ length piece.now }
        ensures some { 0 < length piece.now → 0 < result }
    {
        page_length(piece, self.lines - self.shown)
    }

    /// These bytes were shown on it.
    pub(crate) fn shows(&mut self, bytes: &[u8])
        requires { self.old.shown + ends_in bytes.now ≤ self.old.lines }
        ensures lines { self.new.lines ≡ self.old.lines }
        ensures shown { self.new.shown ≡ self.old.shown + ends_in bytes.now }
        ensures stops { self.new.stops ≡ self.old.stops }
    {
        self.shown += ends(bytes);
    }
}

/// How much of a piece there is up to and with so many ends of lines.
fn page_length(piece: &[u8], room: usize) -> usize
    requires { 0 < room }
    ensures count { result ≡ length (page_front room piece.now) }
    ensures within { result ≤ length piece.now }
    ensures some { 0 < length piece.now → 0 < result }
{
    let mut left = room;
    for (at, byte) in piece.iter().enumerate() {
        if *byte == b'\n' {
            left -= 1;
            if left == 0 {
                return at + 1;
            }
        }
    }
    piece.len()
}

/// How many ends of lines there are.
fn ends(bytes: &[u8]) -> usize
    ensures { result ≡ ends_in bytes.now }
{
    bytes.iter().filter(|byte| **byte == b'\n').count()
}

//! A sink that stops behind each page.

ghost use Rattle.std.specs.Prelude.{◌≡◌, ◌<◌, ◌≤◌, false, IfOk, None, OnErr, OnOk, length, take};
ghost use Rattle.std.specs.Io.KnownBytes.{Keeps, WriteAppends};
ghost use Rattle.zfault.specs.Devices.{CountsFailure, HandsOn, LetsWait};
ghost use Rattle.zfront.specs.PagedSinks.{keys_name, page_of, pages_below, pages_name, pages_wait};
ghost use Rattle.zfront.specs.Pages.{BeginsPage, ShowsNone, ShowsPiece, StopsShort, TurnsPage, first_page};

use crate::keys::stop;
use crate::page::Page;
use zfault::{Failed, Sink, Source};

/// A sink over another one, which stops once all rows of a screen but the last were shown since a flush or a stop, and more comes: it writes
/// `[more]`, waits until the player ends a line, and takes that away again. Where the keys end or fail it goes on, and doesn't stop any more.
///
/// A failure of the sink below is one of its own, and counts there; one of the keys isn't.
#[derive(Drop)]
pub struct Pages<'a, 'k, W, S> {
    below: &'a mut W,
    keys: &'k mut S,
    page: Page,
    waits: bool,
}

impl<'a, 'k, W, S> Pages<'a, 'k, W, S> {
    /// A sink over this one, with a screen of so many rows, at least 2, on which nothing is shown, and with nothing to flush.
    pub fn new(below: &'a mut W, keys: &'k mut S, rows: u16) -> Pages<'a, 'k, W, S>
        requires { 1 < rows }
        ensures reference { pages_name result ≡ below.entry.ghost_name }
        ensures keys { keys_name result ≡ keys.entry.ghost_name }
        ensures below { pages_below result ≡ below.old }
        ensures page { page_of result ≡ first_page rows }
        ensures flushed { pages_wait result ≡ false }
    {
        Pages {
            below,
            keys,
            page: Page::new(rows),
            waits: false,
        }
    }
}

impl<W: Sink, S: Source> Sink for Pages<'_, '_, W, S> {
    ghost failures = { λ pages. W.failures (pages_below pages) };

    ghost waits = { λ pages. pages_wait pages };

    /// Stops where the page is full, and takes a piece up to and with the end of line that fills the next one.
    fn write(&mut self, piece: &[u8]) -> Result<usize, Failed>
        ensures bound { IfOk result (λ count. count ≤ length piece.now) }
        ensures takes { IfOk result (λ count. 0 < length piece.now → 0 < count) }
        ensures bytes { WriteAppends None None result piece.now }
        ensures waiting { LetsWait (pages_wait self.old) (pages_wait self.new) result piece.now }
        ensures counts { CountsFailure (W.failures (pages_below self.old)) (W.failures (pages_below self.new)) result }
        ensures reference { pages_name self.new ≡ pages_name self.old }
        ensures keys { keys_name self.new ≡ keys_name self.old }
        ensures ok { IfOk result (λ count. 0 < length piece.now → ShowsPiece (W.contents (pages_below self.old)) (W.contents (pages_below self.new)) (page_of self.old) (page_of self.new) (take count piece.now)) }
        ensures err { OnErr result (ShowsNone (W.contents (pages_below self.old)) (W.contents (pages_below self.new)) (page_of self.old) (page_of self.new)) }
        ensures none { length piece.now ≡ 0 → self.new ≡ self.old }
    {
        if piece.is_empty() {
            return Ok(0);
        }
        self.turn()?;
        let front = &piece[..self.page.front(piece)];
        let count = self.below.write(front)?;
        self.page.shows(&front[..count]);
        self.waits = true;
        Ok(count)
    }

    /// Hands on what was taken, and begins a page.
    fn flush(&mut self) -> Result<(), Failed>
        ensures bytes { Keeps None None }
        ensures through { HandsOn (pages_wait self.old) (pages_wait self.new) result }
        ensures handed { OnOk result (W.waits (pages_below self.new) ≡ false) }
        ensures counts { CountsFailure (W.failures (pages_below self.old)) (W.failures (pages_below self.new)) result }
        ensures reference { pages_name self.new ≡ pages_name self.old }
        ensures keys { keys_name self.new ≡ keys_name self.old }
        ensures kept { Keeps (W.contents (pages_below self.old)) (W.contents (pages_below self.new)) }
        ensures begins { BeginsPage (page_of self.old) (page_of self.new) result }
    {
        self.below.flush()?;
        self.page.begin();
        self.waits = false;
        Ok(())
    }
}

impl<W: Sink, S: Source> Pages<'_, '_, W, S> {
    #[tactic(auto, using(crate::proofs::Paging::breaks_short))]
    /// Begins a page behind a full one, with a stop where the text stops at all.
    fn turn(&mut self) -> Result<(), Failed>
        ensures counts { CountsFailure (W.failures (pages_below self.old)) (W.failures (pages_below self.new)) result }
        ensures reference { pages_name self.new ≡ pages_name self.old }
        ensures keys { keys_name self.new ≡ keys_name self.old }
        ensures waits { pages_wait self.new ≡ pages_wait self.old }
        ensures ok { OnOk result (TurnsPage (W.contents (pages_below self.old)) (W.contents (pages_below self.new)) (page_of self.old) (page_of self.new)) }
        ensures room { OnOk result ((page_of self.new).shown < (page_of self.new).lines) }
        ensures err { OnErr result (StopsShort (W.contents (pages_below self.old)) (W.contents (pages_below self.new)) (page_of self.old) (page_of self.new)) }
    {
        if !self.page.is_full() {
            return Ok(());
        }
        if !self.page.stops() {
            self.page.turn(false);
            return Ok(());
        }
        let stops = stop(&mut *self.below, &mut *self.keys)?;
        self.page.turn(stops);
        Ok(())
    }
}

//! A sink that draws a line at the top of a screen.

ghost use Rattle.std.specs.Prelude.{◌≡◌, ◌<◌, ◌≤◌, false, true, IfOk, None, OnErr, OnOk, length, take};
ghost use Rattle.std.specs.Io.KnownBytes.{Appends, Keeps, WriteAppends};
ghost use Rattle.zfault.specs.Devices.{AppendsBeginning, CountsFailure, HandsOn, LetsWait};
ghost use Rattle.zfront.specs.HeadedSinks.{top_below, top_name, top_of, top_waits};
ghost use Rattle.zfront.specs.Headings.{Closes, ClosesShort, Draws, DrawsShort, FlushesTop, FlushesTopShort, Tops, TopsNone, closing_of, opened_so, opening_of};

use crate::drawing::draw;
use crate::heading::Heading;
use zfault::{Failed, Sink, write_whole};

/// What is written before all else: clear the screen, scroll from line 2 on, go there.
const OPENING: [u8; 17] = *b"\x1b[H\x1b[2J\x1b[2r\x1b[2;1H";

/// What is written at the end: the whole screen scrolls, go to its bottom.
const CLOSING: [u8; 12] = *b"\x1b[r\x1b[999;1H\n";

/// A sink over another one, which draws what a heading says in line 1 of a screen, at each flush. Text is shown from line 2 on: before all else the
/// screen is opened for that.
#[derive(Drop)]
pub struct TopLine<'a, 'h, W> {
    below: &'a mut W,
    heading: &'h Heading,
    width: usize,
    opened: bool,
    waits: bool,
}

impl<'a, 'h, W> TopLine<'a, 'h, W> {
    /// A sink over this one, with a screen of so many columns, at least 2, which isn't opened, and with nothing to flush.
    pub fn new(below: &'a mut W, heading: &'h Heading, width: u16) -> TopLine<'a, 'h, W>
        ensures reference { top_name result ≡ below.entry.ghost_name }
        ensures below { top_below result ≡ below.old }
        ensures top { top_of result ≡ record { width = width; opened = false } }
        ensures flushed { top_waits result ≡ false }
    {
        TopLine {
            below,
            heading,
            width: usize::from(width),
            opened: false,
            waits: false,
        }
    }
}

impl<W: Sink> Sink for TopLine<'_, '_, W> {
    ghost failures = { λ top. W.failures (top_below top) };

    ghost waits = { λ top. top_waits top };

    /// Opens the screen, if it isn't, and writes a piece.
    fn write(&mut self, piece: &[u8]) -> Result<usize, Failed>
        ensures bound { IfOk result (λ count. count ≤ length piece.now) }
        ensures takes { IfOk result (λ count. 0 < length piece.now → 0 < count) }
        ensures bytes { WriteAppends None None result piece.now }
        ensures waiting { LetsWait (top_waits self.old) (top_waits self.new) result piece.now }
        ensures counts { CountsFailure (W.failures (top_below self.old)) (W.failures (top_below self.new)) result }
        ensures reference { top_name self.new ≡ top_name self.old }
        ensures ok { IfOk result (λ count. 0 < length piece.now → Tops (W.contents (top_below self.old)) (W.contents (top_below self.new)) (top_of self.old) (top_of self.new) (take count piece.now)) }
        ensures err { OnErr result (TopsNone (W.contents (top_below self.old)) (W.contents (top_below self.new)) (top_of self.old) (top_of self.new)) }
        ensures none { length piece.now ≡ 0 → self.new ≡ self.old }
    {
        if piece.is_empty() {
            return Ok(0);
        }
        self.open()?;
        let count = self.below.write(piece)?;
        self.waits = true;
        Ok(count)
    }

    /// Draws what the heading says, if it says anything, and hands on what was taken.
    fn flush(&mut self) -> Result<(), Failed>
        ensures bytes { Keeps None None }
        ensures through { HandsOn (top_waits self.old) (top_waits self.new) result }
        ensures handed { OnOk result (W.waits (top_below self.new) ≡ false) }
        ensures counts { CountsFailure (W.failures (top_below self.old)) (W.failures (top_below self.new)) result }
        ensures reference { top_name self.new ≡ top_name self.old }
        ensures ok { OnOk result (FlushesTop (W.contents (top_below self.old)) (W.contents (top_below self.new)) (top_of self.old) (top_of self.new)) }
        ensures err { OnErr result (FlushesTopShort (W.contents (top_below self.old)) (W.contents (top_below self.new)) (top_of self.old) (top_of self.new)) }
    {
        self.open()?;
        self.draw()?;
        self.below.flush()?;
        self.waits = false;
        Ok(())
    }
}

impl<W: Sink> TopLine<'_, '_, W> {
    /// Gives the whole screen back, if it was opened, and flushes the sink below. What is written behind that opens it anew.
    pub fn close(&mut self) -> Result<(), Failed>
        ensures through { HandsOn (top_waits self.old) (top_waits self.new) result }
        ensures handed { OnOk result (W.waits (top_below self.new) ≡ false) }
        ensures counts { CountsFailure (W.failures (top_below self.old)) (W.failures (top_below self.new)) result }
        ensures reference { top_name self.new ≡ top_name self.old }
        ensures ok { OnOk result (Closes (W.contents (top_below self.old)) (W.contents (top_below self.new)) (top_of self.old) (top_of self.new)) }
        ensures err { OnErr result (ClosesShort (W.contents (top_below self.old)) (W.contents (top_below self.new)) (top_of self.old) (top_of self.new)) }
    {
        self.shut()?;
        self.below.flush()?;
        self.waits = false;
        Ok(())
    }

    /// Opens the screen, if it isn't.
    fn open(&mut self) -> Result<(), Failed>
        ensures counts { CountsFailure (W.failures (top_below self.old)) (W.failures (top_below self.new)) result }
        ensures reference { top_name self.new ≡ top_name self.old }
        ensures waits { top_waits self.new ≡ top_waits self.old }
        ensures ok { OnOk result (Appends (W.contents (top_below self.old)) (W.contents (top_below self.new)) (opening_of (top_of self.old))) }
        ensures opened { OnOk result (top_of self.new ≡ opened_so (top_of self.old) true) }
        ensures err { OnErr result (AppendsBeginning (W.contents (top_below self.old)) (W.contents (top_below self.new)) (opening_of (top_of self.old))) }
        ensures same { OnErr result (top_of self.new ≡ top_of self.old) }
    {
        if self.opened {
            return Ok(());
        }
        write_whole(&mut *self.below, &OPENING)?;
        self.opened = true;
        Ok(())
    }

    /// Closes it, if it was opened.
    fn shut(&mut self) -> Result<(), Failed>
        ensures counts { CountsFailure (W.failures (top_below self.old)) (W.failures (top_below self.new)) result }
        ensures reference { top_name self.new ≡ top_name self.old }
        ensures waits { top_waits self.new ≡ top_waits self.old }
        ensures ok { OnOk result (Appends (W.contents (top_below self.old)) (W.contents (top_below self.new)) (closing_of (top_of self.old))) }
        ensures closed { OnOk result (top_of self.new ≡ opened_so (top_of self.old) false) }
        ensures err { OnErr result (AppendsBeginning (W.contents (top_below self.old)) (W.contents (top_below self.new)) (closing_of (top_of self.old))) }
        ensures same { OnErr result (top_of self.new ≡ top_of self.old) }
    {
        if !self.opened {
            return Ok(());
        }
        write_whole(&mut *self.below, &CLOSING)?;
        self.opened = false;
        Ok(())
    }

    /// Draws what the heading says, if it says anything.
    fn draw(&mut self) -> Result<(), Failed>
        ensures counts { CountsFailure (W.failures (top_below self.old)) (W.failures (top_below self.new)) result }
        ensures reference { top_name self.new ≡ top_name self.old }
        ensures waits { top_waits self.new ≡ top_waits self.old }
        ensures same { top_of self.new ≡ top_of self.old }
        ensures ok { OnOk result (Draws (W.contents (top_below self.old)) (W.contents (top_below self.new)) (top_of self.old).width) }
        ensures err { OnErr result (DrawsShort (W.contents (top_below self.old)) (W.contents (top_below self.new)) (top_of self.old).width) }
    {
        match self.heading.title() {
            None => Ok(()),
            Some(title) => draw(&mut *self.below, &title, self.width),
        }
    }
}

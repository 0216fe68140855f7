//! Where a text is shown that may stop behind each page.

ghost use Rattle.std.specs.Option.{ghost_name_of, option_copied_mut};
ghost use Rattle.std.specs.Prelude.{◌≡◌, ◌≢◌, ◌<◌, ◌≤◌, IfOk, None, OnErr, length, take, false, OnOk};
ghost use Rattle.std.specs.Io.KnownBytes.{Keeps, WriteAppends};
ghost use Rattle.zfault.specs.Devices.{CountsFailure, HandsOn, LetsWait};
ghost use Rattle.zfront.specs.PagedSinks.{BeginsHere, ShowsHere, ShowsNoneHere, begins_with, below_name, below_of, keys_here, known_bytes, page_here, waits_of};

use crate::pages::Pages;
use zfault::{Failed, Sink, Source};

/// A sink that hands a text on as it is, or stops behind each page.
#[derive(Drop)]
pub enum Paged<'a, 'k, W, S> {
    /// Text goes to this sink as it is.
    Plain(&'a mut W),
    /// Text stops behind each page.
    Stopping(Pages<'a, 'k, W, S>),
}

impl<'a, 'k, W, S> Paged<'a, 'k, W, S> {
    /// A sink over this one, with a screen of so many rows, on which nothing is shown. With no keys, or on fewer rows than 3, it never stops, and
    /// hands on a text as it is.
    pub fn new(below: &'a mut W, keys: Option<&'k mut S>, rows: u16) -> Paged<'a, 'k, W, S>
        ensures reference { below_name result ≡ below.entry.ghost_name }
        ensures keys { page_here result ≢ None → keys_here result ≡ ghost_name_of keys.entry }
        ensures below { below_of result ≡ below.old }
        ensures page { page_here result ≡ begins_with (option_copied_mut keys.entry) rows }
    {
        match keys {
            Some(keys) if rows >= 3 => Paged::Stopping(Pages::new(below, keys, rows)),
            _ => Paged::Plain(below),
        }
    }
}

impl<W: Sink, S: Source> Sink for Paged<'_, '_, W, S> {
    ghost contents = { λ paged. known_bytes (page_here paged) (W.contents (below_of paged)) };

    ghost failures = { λ paged. W.failures (below_of paged) };

    ghost waits = { λ paged. waits_of W.waits paged };

    /// Writes a piece as it is, or as much of it as goes onto a page.
    fn write(&mut self, piece: &[u8]) -> Result<usize, Failed>
        ensures bound { IfOk result (λ count. count ≤ length piece.now) }
        ensures takes { IfOk result (λ count. 0 < length piece.now → 0 < count) }
        ensures bytes { WriteAppends (known_bytes (page_here self.old) (W.contents (below_of self.old))) (known_bytes (page_here self.new) (W.contents (below_of self.new))) result piece.now }
        ensures waiting { LetsWait (waits_of W.waits self.old) (waits_of W.waits self.new) result piece.now }
        ensures counts { CountsFailure (W.failures (below_of self.old)) (W.failures (below_of self.new)) result }
        ensures reference { below_name self.new ≡ below_name self.old }
        ensures keys { keys_here self.new ≡ keys_here self.old }
        ensures ok { IfOk result (λ count. 0 < length piece.now → ShowsHere (W.contents (below_of self.old)) (W.contents (below_of self.new)) (page_here self.old) (page_here self.new) (take count piece.now)) }
        ensures err { OnErr result (ShowsNoneHere (W.contents (below_of self.old)) (W.contents (below_of self.new)) (page_here self.old) (page_here self.new)) }
    {
        match self {
            Paged::Plain(below) => below.write(piece),
            Paged::Stopping(pages) => pages.write(piece),
        }
    }

    /// Hands on what was taken, and begins a page.
    fn flush(&mut self) -> Result<(), Failed>
        ensures bytes { Keeps (known_bytes (page_here self.old) (W.contents (below_of self.old))) (known_bytes (page_here self.new) (W.contents (below_of self.new))) }
        ensures through { HandsOn (waits_of W.waits self.old) (waits_of W.waits self.new) result }
        ensures handed { OnOk result (W.waits (below_of self.new) ≡ false) }
        ensures counts { CountsFailure (W.failures (below_of self.old)) (W.failures (below_of self.new)) result }
        ensures reference { below_name self.new ≡ below_name self.old }
        ensures keys { keys_here self.new ≡ keys_here self.old }
        ensures kept { Keeps (W.contents (below_of self.old)) (W.contents (below_of self.new)) }
        ensures begins { BeginsHere (page_here self.old) (page_here self.new) result }
    {
        match self {
            Paged::Plain(below) => below.flush(),
            Paged::Stopping(pages) => pages.flush(),
        }
    }
}

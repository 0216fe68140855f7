//! What a sink that tells the source's lines has taken and hasn't given out.

ghost use Rattle.std.specs.Prelude.{◌≡◌, ◌≤◌, ◌++◌, [], false, true, IfOk, OnErr, OnOk, not, take, length, ◌⊎◌};
ghost use Rattle.std.specs.List.{list_any};
ghost use Rattle.std.specs.Io.BufRead.{take_through};
ghost use Rattle.std.specs.Io.KnownBytes.{Appends};
ghost use Rattle.zfault.specs.Devices.{RisesByOne};
ghost use Rattle.zfront.specs.Sourced.{is_end, known_of, line_told};
ghost use Rattle.zfront.specs.ToldLines.{GivesDecided, holding, nothing_untold};

use crate::ahead::line_length;
use crate::giving::write_some;
use crate::telling::line_told;
use std::alloc::{AllocError, Global};
use std::marker::Model;
use zdebug::DebugInfo;
use zfault::{Failed, Sink};

/// What is decided, and what is held of a line.
#[derive(Drop)]
pub(crate) struct Untold {
    decided: Vec<u8>,
    /// How many of the decided bytes were given out.
    given: usize,
    held: Vec<u8>,
    /// Whether the rest of the line goes out as it is.
    passing: bool,
}

impl Model for Untold {
    ghost use Rattle.std.specs.Prelude.{drop};
    ghost use Rattle.zfront.specs.ToldLines.{IsUntold, Untold as State};

    ghost Value = { State };

    ghost view = { λ u. record { decided = drop u.given u.decided.items; held = u.held.items; passing = u.passing } };

    ghost invariant = { λ u. IsUntold u.decided.items u.given };
}

impl Untold {
    /// Nothing, at the beginning of a line. This takes no memory.
    pub(crate) fn new(alloc: Global) -> Untold
        ensures { result ≡ nothing_untold }
    {
        Untold {
            decided: Vec::new(alloc),
            given: 0,
            held: Vec::new(alloc),
            passing: false,
        }
    }

    /// Whether the rest of the line goes out as it is.
    pub(crate) fn is_passing(&self) -> bool
        ensures { result ≡ self.now.passing }
    {
        self.passing
    }

    /// Gives out what is decided, until a write fails.
    pub(crate) fn give<W: Sink>(&mut self, sink: &mut W) -> Result<(), Failed>
        ensures given { GivesDecided (W.contents sink.old) (W.contents sink.new) self.old self.new }
        ensures ok { OnOk result (self.new.decided ≡ []) }
        ensures quiet { OnOk result (W.failures sink.new ≡ W.failures sink.old) }
        ensures blamed { OnErr result (RisesByOne (W.failures sink.old) (W.failures sink.new)) }
    {
        let left = self.decided.len() - self.given;
        let count = write_some(sink, &self.decided[self.given..]);
        self.given += count;
        if count < left {
            return Err(Failed);
        }
        Ok(())
    }

    /// Holds the line at the front of a piece, or a beginning of one, where nothing decided is left and the line doesn't pass, and tells it where
    /// it ends. Want of memory is the only error, which leaves everything as it was.
    pub(crate) fn hold(
        &mut self,
        alloc: Global,
        info: &DebugInfo,
        piece: &[u8],
    ) -> Result<usize, AllocError>
        requires nothing_decided { self.old.decided ≡ [] }
        requires telling { self.old.passing ≡ false }
        ensures count { IfOk result (λ count. count ≡ length (take_through 10 piece.now)) }
        ensures within { IfOk result (λ count. count ≤ length piece.now) }
        ensures held { IfOk result (λ count. self.new ≡ holding (known_of info.now) self.old.held (take count piece.now)) }
        ensures kept { OnErr result (self.new ≡ self.old) }
    {
        let count = line_length(piece, piece.len());
        let before = self.held.len();
        self.held.extend_from_slice(&piece[..count])?;
        if piece[..count].contains(&b'\n') && self.tell(alloc, info).is_err() {
            self.held.truncate(before);
            return Err(AllocError);
        }
        Ok(count)
    }

    /// Decides on what is held, told. Want of memory is the only error, which leaves everything as it was.
    fn tell(&mut self, alloc: Global, info: &DebugInfo) -> Result<(), AllocError>
        ensures decided { OnOk result (self.new.decided ≡ line_told (known_of info.now) self.old.held) }
        ensures held { OnOk result (self.new.held ≡ []) }
        ensures passing { self.new.passing ≡ self.old.passing }
        ensures kept { OnErr result (self.new ≡ self.old) }
    {
        self.decided = line_told(alloc, info, &self.held)?;
        self.given = 0;
        self.held.clear();
        Ok(())
    }

    /// Decides on what is held, as it is, where nothing decided is left.
    fn keep_as_it_is(&mut self)
        ensures decided { self.new.decided ≡ self.old.held }
        ensures held { self.new.held ≡ [] }
        ensures passing { self.new.passing ≡ self.old.passing }
    {
        std::mem::swap(&mut self.decided, &mut self.held);
        self.given = 0;
        self.held.clear();
    }

    /// Lets the rest of the line go out as it is, and decides on what is held so.
    pub(crate) fn let_pass(&mut self)
        ensures decided { self.new.decided ≡ self.old.held }
        ensures held { self.new.held ≡ [] }
        ensures passing { self.new.passing ≡ true }
    {
        self.keep_as_it_is();
        self.passing = true;
    }

    /// A piece of the line went out as it is.
    pub(crate) fn passed(&mut self, piece: &[u8])
        ensures decided { self.new.decided ≡ self.old.decided }
        ensures held { self.new.held ≡ self.old.held }
        ensures passing { self.new.passing ≡ not (list_any is_end piece.now) }
    {
        self.passing = !piece.contains(&b'\n');
    }

    /// Decides on what is held, told, or as it is where memory is refused.
    pub(crate) fn settle(&mut self, alloc: Global, info: &DebugInfo)
        ensures decided { (self.new.decided ≡ line_told (known_of info.now) self.old.held) ⊎ (self.new.decided ≡ self.old.held) }
        ensures held { self.new.held ≡ [] }
        ensures passing { self.new.passing ≡ self.old.passing }
    {
        if self.tell(alloc, info).is_err() {
            self.keep_as_it_is();
        }
    }
}

//! Where texts end, for many of them in turn.

ghost use Rattle.std.specs.Prelude.{◌≡◌, ◌+◌, ◌≤◌, length, IfSome};
ghost use Rattle.ztext.specs.Words.{length_at};
ghost use Rattle.ztext.specs.Ends.{IsKnown};

use crate::length::text_length;
use std::marker::Model;

// What is known of the texts that begin at every second place from one on.
#[derive(Clone, Copy)]
struct Known {
    from: usize,
    // where each of those ends that begins before; none of them ends where this is None
    end: Option<usize>,
}

// What is known where nothing is.
const NOTHING: Known = Known {
    from: 0,
    end: Some(0),
};

impl Known {
    ghost use Rattle.std.specs.Prelude.{◌≡◌, ◌↔◌, ◌-◌, IsTrue, option_map};
    ghost use Rattle.ztext.specs.Ends.{Tells};

    // Whether it tells of the text at a place.
    fn tells(self, at: usize) -> bool
        ensures { IsTrue result ↔ Tells self at }
    {
        if at < self.from || (at - self.from) % 2 == 1 {
            return false;
        }
        match self.end {
            Some(end) => at < end,
            None => true,
        }
    }

    // How long the text at such a place is.
    fn size(self, at: usize) -> Option<usize>
        requires { Tells self at }
        ensures { result ≡ option_map (λ end. end - at) self.end }
    {
        match self.end {
            Some(end) => Some(end - at),
            None => None,
        }
    }
}

// What is known of texts since that at a place was looked for.
#[tactic(auto, using(crate::proofs::KnownEnds::kept_known))]
fn known_from(memory: &[u8], at: usize, found: Option<usize>) -> Known
    requires found { found ≡ length_at memory.now at }
    requires within { IfSome found (λ size. at + size ≤ length memory.now) }
    ensures { IsKnown memory.now result }
{
    let end = match found {
        Some(size) => Some(at + size),
        None => None,
    };
    Known { from: at, end }
}

/// The ends of the texts of a memory, of which the last one found is kept for even places and for odd ones. Texts that overlap
/// share an end, so that texts asked for by rising places take no longer together than going over memory twice. Contracts see
/// the memory.
#[derive(Drop)]
pub struct TextEnds<'a> {
    memory: &'a [u8],
    even: Known,
    odd: Known,
}

impl<'a> Model for TextEnds<'a> {
    ghost use Rattle.std.specs.Prelude.{ℕ, List};
    ghost use Rattle.ztext.specs.Ends.{IsKnown};

    ghost Value = { List ℕ };

    ghost view = { λ e. e.memory.now };

    ghost invariant = { λ e. IsKnown e.memory.now e.even × IsKnown e.memory.now e.odd };
}

impl<'a> TextEnds<'a> {
    ghost use Rattle.std.specs.Prelude.{◌≡◌, ◌+◌, ◌≤◌, length, drop, IfSome, option_map};
    ghost use Rattle.ztext.specs.Words.{after_text, length_at};

    /// Those of a memory, of which none is known.
    pub fn new(memory: &'a [u8]) -> TextEnds<'a>
        ensures { result ≡ memory.now }
    {
        TextEnds {
            memory,
            even: NOTHING,
            odd: NOTHING,
        }
    }

    /// The memory.
    pub fn memory(&self) -> &'a [u8]
        ensures { result.now ≡ self.now }
    {
        self.memory
    }

    /// What `text_length` answers of the memory: the length in bytes of the text at a place, up to and with its end word
    /// (Z 3.2), and `None` where memory holds no end word from there on.
    #[tactic(auto, using(crate::proofs::KnownEnds::after_by_length, crate::proofs::KnownEnds::within_by_length))]
    pub fn text_length(&mut self, at: usize) -> Option<usize>
        ensures memory { self.new ≡ self.old }
        ensures length { result ≡ length_at self.old at }
        ensures after { after_text (drop at self.old) ≡ option_map (λ size. drop (at + size) self.old) result }
        ensures within { IfSome result (λ size. at + size ≤ length self.old) }
    {
        let known = self.known(at);
        if known.tells(at) {
            return known.size(at);
        }
        let found = text_length(self.memory, at);
        self.keep(at, found);
        found
    }

    // What is known that may tell of the text at a place.
    fn known(&self, at: usize) -> Known
        ensures { IsKnown self.now result }
    {
        if at % 2 == 0 { self.even } else { self.odd }
    }

    // Keeps what was found of the text at a place.
    fn keep(&mut self, at: usize, found: Option<usize>)
        requires found { found ≡ length_at self.old at }
        requires within { IfSome found (λ size. at + size ≤ length self.old) }
        ensures { self.new ≡ self.old }
    {
        let known = known_from(self.memory, at, found);
        if at % 2 == 0 {
            self.even = known;
        } else {
            self.odd = known;
        }
    }
}

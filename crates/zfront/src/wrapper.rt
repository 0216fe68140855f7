//! A text, wrapped piece by piece.

ghost use Rattle.std.specs.Prelude.{◌≡◌, ◌<◌, ◌≤◌, ◌+◌, ◌++◌, ◌∷◌, [], false, IsOk, IfOk, OnErr, OnOk, length, vec_len};
ghost use Rattle.std.specs.Vec.{vec_capacity};
ghost use Rattle.zfront.specs.Wrapping.{FeedsTo, IsHeld, ends_word, settled};

use std::alloc::{AllocError, Global};
use std::marker::Model;

/// A text that is being wrapped at a width. It is fed piece by piece, and gives out what is decided: it holds a space and the word
/// behind it, while they fit in the line, and nothing else.
///
/// A space becomes an end of line where it and the word behind it would go past the width. All other bytes stay as they are. At width 0
/// nothing is wrapped. A byte takes a column.
#[derive(Drop)]
pub struct Wrapper {
    width: u16,
    /// The column behind what was given out, which is the width where the line is full.
    column: u16,
    /// Never more than `width` bytes, for which room is made once.
    held: Vec<u8>,
}

impl Model for Wrapper {
    ghost use Rattle.std.specs.Prelude.{◌≤◌};
    ghost use Rattle.std.specs.Vec.{vec_capacity};
    ghost use Rattle.zfront.specs.Wrapping.{IsWrapping, Wrapping};

    ghost Value = { Wrapping };

    ghost view = { λ w. record { width = w.width; column = w.column; held = w.held.items } };

    ghost invariant = { λ w. IsWrapping w.width w.column w.held.items (vec_capacity w.held) };
}

impl Wrapper {
    /// No text, at the beginning of a line. Want of memory is the only error.
    pub fn new(alloc: Global, width: u16) -> Result<Wrapper, AllocError>
        ensures { IfOk result (λ wrapper. wrapper ≡ record { width = width; column = 0; held = [] }) }
    {
        Ok(Wrapper {
            width,
            column: 0,
            held: Vec::with_capacity(alloc, usize::from(width))?,
        })
    }

    /// What is held.
    pub fn held(&self) -> &[u8]
        ensures bytes { result.now ≡ self.now.held }
        ensures fits { IsHeld self.now.width self.now.column self.now.held }
    {
        self.held.as_slice()
    }

    /// Wraps a piece, and appends what is decided of it. Want of memory is the only error, and comes only where there was no room for
    /// what is held and the piece.
    pub fn feed(&mut self, piece: &[u8], out: &mut Vec<u8>) -> Result<(), AllocError>
        ensures ok { OnOk result (FeedsTo self.old self.new piece.now out.old.items out.new.items) }
        ensures held { IsHeld self.new.width self.new.column self.new.held }
        ensures err { OnErr result ((self.new ≡ self.old) × (out.new.items ≡ out.old.items)) }
        ensures room { vec_len out.old + length self.old.held + length piece.now ≤ vec_capacity out.old → IsOk result }
        ensures capacity { vec_capacity out.old ≤ vec_capacity out.new }
    {
        out.reserve(self.held.len() + piece.len())?;
        for byte in piece {
            self.take(*byte, out);
        }
        Ok(())
    }

    /// Appends what is held: nothing more is to come before it is seen. Want of memory is the only error, and comes only where there was
    /// no room for it.
    pub fn finish(&mut self, out: &mut Vec<u8>) -> Result<(), AllocError>
        ensures ok { OnOk result ((self.new ≡ settled self.old) × (out.new.items ≡ out.old.items ++ self.old.held)) }
        ensures err { OnErr result ((self.new ≡ self.old) × (out.new.items ≡ out.old.items)) }
        ensures room { vec_len out.old + length self.old.held ≤ vec_capacity out.old → IsOk result }
        ensures capacity { vec_capacity out.old ≤ vec_capacity out.new }
    {
        out.reserve(self.held.len())?;
        self.settle(out);
        Ok(())
    }

    /// The player ended a line: what comes is at the beginning of one.
    pub fn line_was_read(&mut self)
        ensures column { self.new ≡ record self.old { column = 0 } }
        ensures held { IsHeld self.new.width self.new.column self.new.held }
    {
        self.column = 0;
    }

    /// Takes a byte.
    fn take(&mut self, byte: u8, out: &mut Vec<u8>)
        requires { vec_len out.old + length self.old.held + 1 ≤ vec_capacity out.old }
        ensures fed { FeedsTo self.old self.new (byte ∷ []) out.old.items out.new.items }
        ensures held { IsHeld self.new.width self.new.column self.new.held }
        ensures capacity { vec_capacity out.old ≤ vec_capacity out.new }
    {
        match byte {
            b' ' => self.space(out),
            b'\n' => self.end_line(out),
            _ => self.letter(byte, out),
        }
    }

    /// Takes a space: what is held fits.
    #[tactic(auto, using(crate::proofs::Feeding::held_within, crate::proofs::Feeding::held_more))]
    fn space(&mut self, out: &mut Vec<u8>)
        requires { vec_len out.old + length self.old.held + 1 ≤ vec_capacity out.old }
        ensures fed { FeedsTo self.old self.new (32 ∷ []) out.old.items out.new.items }
        ensures held { IsHeld self.new.width self.new.column self.new.held }
        ensures capacity { vec_capacity out.old ≤ vec_capacity out.new }
    {
        self.settle(out);
        if self.column < self.width {
            self.held.push_reserved(b' ');
        } else if self.width == 0 {
            out.push_reserved(b' ');
        } else {
            self.end_here(out);
        }
    }

    /// Takes an end of line: what is held fits.
    #[tactic(auto, using(crate::proofs::Feeding::held_within, crate::proofs::Feeding::held_more))]
    fn end_line(&mut self, out: &mut Vec<u8>)
        requires { vec_len out.old + length self.old.held + 1 ≤ vec_capacity out.old }
        ensures fed { FeedsTo self.old self.new (10 ∷ []) out.old.items out.new.items }
        ensures held { IsHeld self.new.width self.new.column self.new.held }
        ensures capacity { vec_capacity out.old ≤ vec_capacity out.new }
    {
        self.settle(out);
        self.end_here(out);
    }

    /// Takes a letter: it is held where it and what is held fit, and passes on where nothing is held.
    #[tactic(auto, using(crate::proofs::Feeding::held_within, crate::proofs::Feeding::held_more))]
    fn letter(&mut self, byte: u8, out: &mut Vec<u8>)
        requires room { vec_len out.old + length self.old.held + 1 ≤ vec_capacity out.old }
        requires letter { ends_word byte ≡ false }
        ensures fed { FeedsTo self.old self.new (byte ∷ []) out.old.items out.new.items }
        ensures held { IsHeld self.new.width self.new.column self.new.held }
        ensures capacity { vec_capacity out.old ≤ vec_capacity out.new }
    {
        if self.held.is_empty() {
            out.push_reserved(byte);
            if self.column < self.width {
                self.column += 1;
            }
        } else if usize::from(self.column) + self.held.len() < usize::from(self.width) {
            self.held.push_reserved(byte);
        } else {
            self.break_line(byte, out);
        }
    }

    /// Takes a letter with which the word goes past the width: the space before the word is an end of line.
    #[tactic(auto, using(crate::proofs::Feeding::held_within, crate::proofs::Feeding::held_more))]
    fn break_line(&mut self, byte: u8, out: &mut Vec<u8>)
        requires room { vec_len out.old + length self.old.held + 1 ≤ vec_capacity out.old }
        requires letter { ends_word byte ≡ false }
        requires held { 0 < length self.old.held }
        requires full { self.old.width ≤ self.old.column + length self.old.held }
        ensures fed { FeedsTo self.old self.new (byte ∷ []) out.old.items out.new.items }
        ensures held { self.new.held ≡ [] }
        ensures capacity { vec_capacity out.old ≤ vec_capacity out.new }
    {
        out.push_reserved(b'\n');
        append(out, &self.held[1..]);
        out.push_reserved(byte);
        self.column = self.held.len() as u16;
        self.held.clear();
    }

    /// Ends the line.
    fn end_here(&mut self, out: &mut Vec<u8>)
        requires { vec_len out.old < vec_capacity out.old }
        ensures column { self.new ≡ record self.old { column = 0 } }
        ensures given { out.new.items ≡ out.old.items ++ 10 ∷ [] }
        ensures capacity { vec_capacity out.old ≤ vec_capacity out.new }
    {
        out.push_reserved(b'\n');
        self.line_was_read();
    }

    /// Gives out what is held.
    #[tactic(auto, using(crate::proofs::Feeding::held_within))]
    fn settle(&mut self, out: &mut Vec<u8>)
        requires { vec_len out.old + length self.old.held ≤ vec_capacity out.old }
        ensures fits { IsHeld self.old.width self.old.column self.old.held }
        ensures settled { self.new ≡ settled self.old }
        ensures given { out.new.items ≡ out.old.items ++ self.old.held }
        ensures capacity { vec_capacity out.old ≤ vec_capacity out.new }
    {
        self.column += self.held.len() as u16;
        append(out, &self.held);
        self.held.clear();
    }
}

/// Appends bytes for which there is room.
fn append(out: &mut Vec<u8>, bytes: &[u8])
    requires { vec_len out.old + length bytes.now ≤ vec_capacity out.old }
    ensures items { out.new.items ≡ out.old.items ++ bytes.now }
    ensures capacity { vec_capacity out.old ≤ vec_capacity out.new }
{
    if out.extend_from_slice(bytes).is_err() {
        unreachable!()
    }
}

//! A certificate that comes in pieces.

ghost use Rattle.std.specs.Prelude.{◌≡◌, ℕ, ◌++◌, List, [], Some, None, Ok, Err, IfOk, IfErr, OnOk};
ghost use Rattle.zcert.specs.Reading.{reading};
ghost use Rattle.zcert.specs.Streaming.{unfed, IsFed, IsOpen, IsRefusal, IsUnread};
ghost use Rattle.zcert.specs.declared.error.CertError.{CertError as AnError};

use crate::certificate::Certificate;
use crate::error::CertError;
use crate::reader::Reader;
use crate::spelled::Spelled;
use std::alloc::Global;
use std::marker::Model;
use zdomain::Interval;

/// Reads a certificate whose file comes in pieces, as `read` reads it whole, wherever it is cut. Of the bytes it keeps no more than
/// eight, beside what has come of a set. Once they are refused, it answers each call so. Clauses see what is kept of the bytes.
#[derive(Drop)]
pub struct CertStream<V: Spelled = Interval> {
    reader: Reader<V>,
    refused: Option<CertError>,
}

impl<V: Spelled> Model for CertStream<V> {
    ghost use Rattle.std.specs.Prelude.{◌≡◌, ◌++◌, ℕ, List, None};
    ghost use Rattle.zcert.specs.Streaming.{Stream, IsFed};
    ghost use Rattle.zcert.specs.Turns.{IsAwaiting};

    ghost Value = { Stream V };

    ghost view = { λ s. record { stage = s.reader.stage; progress = s.reader.builder; kept = V.turns.came s.reader.partial ++ s.reader.kept.items; refused = s.refused } };

    ghost invariant = { λ s. ((fed : List ℕ) × IsFed V.format (record { stage = s.reader.stage; progress = s.reader.builder; kept = V.turns.came s.reader.partial ++ s.reader.kept.items; refused = s.refused }) fed) × (s.refused ≡ None → IsAwaiting V.turns s.reader.stage s.reader.builder.turn s.reader.partial s.reader.kept.items) };
}

impl<V: Spelled> CertStream<V> {
    /// A stream before the first byte.
    pub fn new(alloc: Global) -> CertStream<V>
        ensures value { result ≡ unfed }
        ensures fed { IsFed V.format result [] }
    {
        CertStream {
            reader: Reader::new(alloc),
            refused: None,
        }
    }

    /// Takes the next piece of the file, which may be empty. It is refused for what `read` refuses all bytes so far for, unless
    /// that is that they are cut off, and whatever follows them. Memory is taken for what has been read alone.
    pub fn feed(&mut self, piece: &[u8]) -> Result<(), CertError>
        ensures fed { (fed : List ℕ) → IsFed V.format self.old fed → IsFed V.format self.new (fed ++ piece.now) }

        // The bytes so far are a certificate or the beginning of one, or they are refused.
        ensures open { OnOk result ((fed : List ℕ) → IsFed V.format self.old fed → IsOpen (reading V.format (fed ++ piece.now))) }
        ensures refused { IfErr result (λ e. (fed : List ℕ) → IsFed V.format self.old fed → IsRefusal V.format (fed ++ piece.now) e) }

        // What is refused stays so.
        ensures taken { OnOk result (self.new.refused ≡ None) }
        ensures kept { IfErr result (λ e. self.new.refused ≡ Some e) }
        ensures stays { (e : AnError) → self.old.refused ≡ Some e → (result ≡ Err e) × (self.new ≡ self.old) }
    {
        if let Some(error) = self.refused {
            return Err(error);
        }
        let taken = self.reader.take(piece);
        self.refused = taken.err();
        taken
    }

    /// The certificate that all bytes spell that were fed; else why they are refused, or that they are cut off.
    pub fn finish(self) -> Result<Certificate<V>, CertError>
        ensures read { IfOk result (λ certificate. (fed : List ℕ) → IsFed V.format self fed → reading V.format fed ≡ Ok certificate) }
        ensures unread { IfErr result (λ e. (fed : List ℕ) → IsFed V.format self fed → IsUnread V.format fed e) }
        ensures stays { (e : AnError) → self.refused ≡ Some e → result ≡ Err e }
    {
        match self.refused {
            Some(error) => Err(error),
            None => self.reader.finish(),
        }
    }
}

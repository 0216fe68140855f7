//! A story that is checked with a certificate that comes in pieces.

ghost use Rattle.std.specs.Prelude.{◌≡◌, ℕ, ◌++◌, List, [], None, Some, Ok, Err, IfOk, IfErr, OnOk};
ghost use Rattle.zcert.specs.Reading.{reading};
ghost use Rattle.zcert.specs.Streaming.{unfed, IsFed, IsOpen, IsRefusal, IsUnread};
ghost use Rattle.zcert.specs.declared.error.CertError.{CertError as AnError};
ghost use Rattle.zcheck.specs.Acceptance.{IsListingOf, NeverChanges, NeverFaults, PlaysAlike, PlaysSafely};
ghost use Rattle.zcheck.specs.Judged.{IsJudged, IsUnjudgedWith, OfWhole, certificate_of, story_of};
ghost use Rattle.zcheck.specs.Passes.{Passes};
ghost use Rattle.zcheck.specs.Streaming.{IsRefusedWith};

use crate::accepted::Accepted;
use crate::checking::check;
use crate::judged::{Judged, check_any};
use crate::marked::Marked;
use crate::refusal::StreamRefusal;
use std::alloc::Global;
use std::marker::Model;
use zcert::{CertError, CertStream, Certificate, Spelled};
use zdomain::Interval;
use zstory::Story;

/// Checks a story with a certificate whose file comes in pieces, as `check` does with what `read` reads of it whole, wherever it is
/// cut. Of the bytes it keeps no more than eight. Once they are refused, it answers each call so. Clauses see the story, and what is
/// kept of the bytes.
#[derive(Drop)]
pub struct CheckStream<V: Spelled = Interval> {
    story: Story,
    stream: CertStream<V>,
}

impl<V: Spelled> Model for CheckStream<V> {
    ghost use Rattle.zcheck.specs.Streaming.{Checking};

    ghost Value = { Checking V };

    ghost view = { λ s. record { story = s.story; stream = s.stream } };
}

impl<V: Spelled> CheckStream<V> {
    /// A stream before the first byte of the certificate.
    pub fn new(alloc: Global, story: Story) -> CheckStream<V>
        ensures value { result ≡ record { story = story; stream = unfed } }
        ensures fed { IsFed V.format result.stream [] }
    {
        CheckStream {
            story,
            stream: CertStream::new(alloc),
        }
    }

    /// Takes the next piece of the certificate's file, which may be empty. It is refused for what `read` refuses all bytes so far
    /// for, unless that is that they are cut off, and whatever follows them. Memory is taken for what has been read alone.
    pub fn feed(&mut self, piece: &[u8]) -> Result<(), CertError>
        ensures story { self.new.story ≡ self.old.story }
        ensures fed { (fed : List ℕ) → IsFed V.format self.old.stream fed → IsFed V.format self.new.stream (fed ++ piece.now) }

        // The bytes so far are a certificate or the beginning of one, or they are refused.
        ensures open { OnOk result ((fed : List ℕ) → IsFed V.format self.old.stream fed → IsOpen (reading V.format (fed ++ piece.now))) }
        ensures refused { IfErr result (λ e. (fed : List ℕ) → IsFed V.format self.old.stream fed → IsRefusal V.format (fed ++ piece.now) e) }

        // What is refused stays so.
        ensures taken { OnOk result (self.new.stream.refused ≡ None) }
        ensures kept { IfErr result (λ e. self.new.stream.refused ≡ Some e) }
        ensures stays { (e : AnError) → self.old.stream.refused ≡ Some e → (result ≡ Err e) × (self.new ≡ self.old) }
    {
        self.stream.feed(piece)
    }

    /// Accepts the story with the certificate that all bytes spell that were fed, of which all holds that `check` says; else says
    /// why they are refused, that they are cut off, or what is wrong first. A refusal hands nothing back.
    pub fn finish(self, alloc: Global) -> Result<Accepted<V>, StreamRefusal>
        ensures story { IfOk result (λ a. a.story ≡ self.story) }
        ensures read { IfOk result (λ a. (fed : List ℕ) → IsFed V.format self.stream fed → reading V.format fed ≡ Ok a.certificate) }
        ensures lists { IfOk result (λ a. IsListingOf a.story a.certificate a.listing) }
        ensures passes { IfOk result (λ a. Passes V.operations a.story a.certificate) }
        ensures refused { IfErr result (λ refusal. (fed : List ℕ) → IsFed V.format self.stream fed → IsRefusedWith V.operations V.format self.story fed refusal) }
        ensures stays { (e : AnError) → self.stream.refused ≡ Some e → result ≡ Err (StreamRefusal.Cert e) }
        ensures never_faults { IfOk result (NeverFaults V.operations) }
        ensures never_changes { IfOk result (NeverChanges V.operations) }
        ensures plays_alike { IfOk result (PlaysAlike V.operations) }
        ensures plays_safely { IfOk result (PlaysSafely V.operations) }
    {
        let CheckStream { story, stream } = self;
        let certificate = stream.finish()?;
        Ok(check(alloc, story, certificate)?)
    }

    /// Accepts the story with the certificate that all bytes spell that were fed, whether it marks instructions or not, as `check_any`
    /// does; else says why they are refused, that they are cut off, or what is wrong first. A refusal hands nothing back.
    pub fn judge(self, alloc: Global) -> Result<Judged<Accepted<V>, Marked<V>>, StreamRefusal>
        ensures story { IfOk result (λ j. story_of j ≡ self.story) }
        ensures read { IfOk result (λ j. (fed : List ℕ) → IsFed V.format self.stream fed → reading V.format fed ≡ Ok (certificate_of j)) }
        ensures judged { IfOk result (IsJudged V.operations) }
        ensures refused { IfErr result (λ refusal. (fed : List ℕ) → IsFed V.format self.stream fed → IsUnjudgedWith V.operations V.format self.story fed refusal) }
        ensures stays { (e : AnError) → self.stream.refused ≡ Some e → result ≡ Err (StreamRefusal.Cert e) }
        ensures never_faults { IfOk result (OfWhole (NeverFaults V.operations)) }
        ensures never_changes { IfOk result (OfWhole (NeverChanges V.operations)) }
        ensures plays_alike { IfOk result (OfWhole (PlaysAlike V.operations)) }
        ensures plays_safely { IfOk result (OfWhole (PlaysSafely V.operations)) }
    {
        let CheckStream { story, stream } = self;
        let certificate = stream.finish()?;
        Ok(check_any(alloc, story, certificate)?)
    }

    /// The story, and the certificate that all bytes spell that were fed, which needn't be accepted with it; else why they are
    /// refused, or that they are cut off.
    pub fn read(self) -> Result<(Story, Certificate<V>), CertError>
        ensures story { IfOk result (λ parts. parts.0 ≡ self.story) }
        ensures read { IfOk result (λ parts. (fed : List ℕ) → IsFed V.format self.stream fed → reading V.format fed ≡ Ok parts.1) }
        ensures unread { IfErr result (λ e. (fed : List ℕ) → IsFed V.format self.stream fed → IsUnread V.format fed e) }
        ensures stays { (e : AnError) → self.stream.refused ≡ Some e → result ≡ Err e }
    {
        let CheckStream { story, stream } = self;
        Ok((story, stream.finish()?))
    }
}

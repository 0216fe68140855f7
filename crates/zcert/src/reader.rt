//! How far the file of a certificate has come.

ghost use Rattle.std.specs.Prelude.{◌≡◌, ◌≢◌, ◌+◌, ◌<◌, ◌≤◌, ◌++◌, ℕ, List, [], IfOk, IfErr, IfSome, OnOk, Ok, None, length};
ghost use Rattle.zcert.specs.Building.{opening};
ghost use Rattle.zcert.specs.Streaming.{Leads, IsRefusal};
ghost use Rattle.zcert.specs.Turns.{IsAwaiting, IsPartOf, next_width, field_width};
ghost use Rattle.zcert.specs.declared.edition.Edition.TheVariants as editions;
ghost use Rattle.zcert.specs.declared.stage.Stage.{Stage as AStage};
ghost use Rattle.zcert.specs.declared.stage.Stage.TheVariants as stages;

use crate::builder::CertBuilder;
use crate::certificate::Certificate;
use crate::error::CertError;
use crate::field::Turn;
use crate::next::{magic_of, next_of, version_of};
use crate::spelled::Spelled;
use crate::stage::Stage;
use arrayvec::ArrayVec;
use std::alloc::Global;
use std::mem;

/// The most bytes that are kept of a number.
const KEPT: usize = 8;

/// What comes next of a file, the fields before it, what has come of a set, the bytes that came of its next number, and where memory
/// is taken.
#[derive(Drop)]
pub struct Reader<V: Spelled> {
    pub stage: Stage,
    pub builder: CertBuilder<V>,
    pub partial: V::Partial,
    pub kept: ArrayVec<u8, KEPT>,
    alloc: Global,
}

impl<V: Spelled> Reader<V> {
    /// Before the first byte.
    pub fn new(alloc: Global) -> Reader<V>
        ensures stage { result.stage ≡ stages.Magic }
        ensures builder { result.builder ≡ opening editions.Plain }
        ensures partial { V.turns.came result.partial ≡ [] }
        ensures kept { result.kept.items ≡ [] }
    {
        Reader {
            stage: Stage::Magic,
            builder: CertBuilder::new(alloc),
            partial: V::unbegun(),
            kept: ArrayVec::new(),
            alloc,
        }
    }

    /// How many bytes the number takes that comes next.
    fn width(&self) -> usize
        ensures value { result ≡ next_width V.turns self.now.stage self.now.builder.turn self.now.partial }
        ensures some { 0 < result }
        ensures few { result ≤ 8 }
    {
        match self.stage {
            Stage::Magic => 4,
            Stage::Version => 1,
            Stage::Field => width_of::<V>(self.builder.turn(), &self.partial),
        }
    }

    /// Reads the number that comes next from all of its bytes.
    fn step(&mut self, number: &[u8]) -> Result<(), CertError>
        requires some { 0 < length number.now }
        requires fits { length number.now ≡ next_width V.turns self.old.stage self.old.builder.turn self.old.partial }
        requires part { IsPartOf V.turns self.old.stage self.old.builder.turn self.old.partial }
        ensures led { OnOk result ((fed : List ℕ) → Leads V.format self.old.stage self.old.builder fed (V.turns.came self.old.partial ++ number.now) → Leads V.format self.new.stage self.new.builder fed (V.turns.came self.new.partial)) }
        ensures part { OnOk result (IsPartOf V.turns self.new.stage self.new.builder.turn self.new.partial) }
        ensures kept { self.new.kept ≡ self.old.kept }
        ensures refused { IfErr result (λ e. (fed : List ℕ) → Leads V.format self.old.stage self.old.builder fed (V.turns.came self.old.partial ++ number.now) → IsRefusal V.format fed e) }
    {
        match self.stage {
            Stage::Magic => {
                magic_of(number)?;
                self.stage = Stage::Version;
                Ok(())
            }
            Stage::Version => {
                self.builder = CertBuilder::of_version(self.alloc, version_of::<V>(number)?);
                self.stage = Stage::Field;
                Ok(())
            }
            Stage::Field => next_of(&mut self.builder, &mut self.partial, number),
        }
    }

    /// Reads the number that comes next, unless it is cut off, and answers what follows it.
    fn next_whole<'a>(&mut self, bytes: &'a [u8]) -> Result<Option<&'a [u8]>, CertError>
        requires part { IsPartOf V.turns self.old.stage self.old.builder.turn self.old.partial }
        ensures led { IfOk result (λ found. IfSome found (λ rest. (fed : List ℕ) → Leads V.format self.old.stage self.old.builder fed (V.turns.came self.old.partial ++ bytes.now) → Leads V.format self.new.stage self.new.builder fed (V.turns.came self.new.partial ++ rest.now))) }
        ensures part { OnOk result (IsPartOf V.turns self.new.stage self.new.builder.turn self.new.partial) }
        ensures shorter { IfOk result (λ found. IfSome found (λ rest. length rest.now < length bytes.now)) }
        ensures cut { result ≡ Ok None → (length bytes.now < next_width V.turns self.new.stage self.new.builder.turn self.new.partial) × (self.new ≡ self.old) }
        ensures kept { self.new.kept ≡ self.old.kept }
        ensures refused { IfErr result (λ e. (fed : List ℕ) → Leads V.format self.old.stage self.old.builder fed (V.turns.came self.old.partial ++ bytes.now) → IsRefusal V.format fed e) }
    {
        let width = self.width();
        if bytes.len() < width {
            return Ok(None);
        }
        let (number, rest) = bytes.split_at(width);
        self.step(number)?;
        Ok(Some(V::read_more(&mut self.partial, rest)))
    }

    /// Reads on as long as what comes next is whole, and answers what is left.
    fn read_on<'a>(&mut self, bytes: &'a [u8]) -> Result<&'a [u8], CertError>
        requires part { IsPartOf V.turns self.old.stage self.old.builder.turn self.old.partial }
        ensures led { IfOk result (λ rest. (fed : List ℕ) → Leads V.format self.old.stage self.old.builder fed (V.turns.came self.old.partial ++ bytes.now) → Leads V.format self.new.stage self.new.builder fed (V.turns.came self.new.partial ++ rest.now)) }
        ensures awaiting { IfOk result (λ rest. IsAwaiting V.turns self.new.stage self.new.builder.turn self.new.partial rest.now) }
        ensures kept { self.new.kept ≡ self.old.kept }
        ensures refused { IfErr result (λ e. (fed : List ℕ) → Leads V.format self.old.stage self.old.builder fed (V.turns.came self.old.partial ++ bytes.now) → IsRefusal V.format fed e) }
    {
        let mut rest = bytes;
        while let Some(after) = self.next_whole(rest)? {
            rest = after;
        }
        Ok(rest)
    }

    /// Reads on where no bytes are kept, and keeps those that are left.
    fn read_rest(&mut self, bytes: &[u8]) -> Result<(), CertError>
        requires none { self.old.kept.items ≡ [] }
        requires part { IsPartOf V.turns self.old.stage self.old.builder.turn self.old.partial }
        ensures led { OnOk result ((fed : List ℕ) → Leads V.format self.old.stage self.old.builder fed (V.turns.came self.old.partial ++ bytes.now) → Leads V.format self.new.stage self.new.builder fed (V.turns.came self.new.partial ++ self.new.kept.items)) }
        ensures awaiting { OnOk result (IsAwaiting V.turns self.new.stage self.new.builder.turn self.new.partial self.new.kept.items) }
        ensures refused { IfErr result (λ e. (fed : List ℕ) → Leads V.format self.old.stage self.old.builder fed (V.turns.came self.old.partial ++ bytes.now) → IsRefusal V.format fed e) }
    {
        let rest = self.read_on(bytes)?;
        let _width = self.width();
        let _kept = self.kept.try_extend_from_slice(rest);
        Ok(())
    }

    /// Takes a piece of the file.
    pub fn take(&mut self, piece: &[u8]) -> Result<(), CertError>
        requires { IsAwaiting V.turns self.old.stage self.old.builder.turn self.old.partial self.old.kept.items }
        ensures led { OnOk result ((fed : List ℕ) → Leads V.format self.old.stage self.old.builder fed (V.turns.came self.old.partial ++ self.old.kept.items) → Leads V.format self.new.stage self.new.builder (fed ++ piece.now) (V.turns.came self.new.partial ++ self.new.kept.items)) }
        ensures awaiting { OnOk result (IsAwaiting V.turns self.new.stage self.new.builder.turn self.new.partial self.new.kept.items) }
        ensures refused { IfErr result (λ e. (fed : List ℕ) → Leads V.format self.old.stage self.old.builder fed (V.turns.came self.old.partial ++ self.old.kept.items) → IsRefusal V.format (fed ++ piece.now) e) }
    {
        if self.kept.is_empty() {
            return self.read_rest(piece);
        }
        let missing = self.width() - self.kept.len();
        if piece.len() < missing {
            let _kept = self.kept.try_extend_from_slice(piece);
            return Ok(());
        }
        let (front, rest) = piece.split_at(missing);
        self.complete(front)?;
        self.read_rest(rest)
    }

    /// Reads the number that comes next, of which these are the bytes that lack.
    fn complete(&mut self, front: &[u8]) -> Result<(), CertError>
        requires some { 0 < length self.old.kept.items }
        requires fits { length self.old.kept.items + length front.now ≡ next_width V.turns self.old.stage self.old.builder.turn self.old.partial }
        requires part { IsPartOf V.turns self.old.stage self.old.builder.turn self.old.partial }
        ensures led { OnOk result ((fed : List ℕ) → Leads V.format self.old.stage self.old.builder fed (V.turns.came self.old.partial ++ self.old.kept.items) → Leads V.format self.new.stage self.new.builder (fed ++ front.now) (V.turns.came self.new.partial)) }
        ensures part { OnOk result (IsPartOf V.turns self.new.stage self.new.builder.turn self.new.partial) }
        ensures kept { self.new.kept.items ≡ [] }
        ensures refused { IfErr result (λ e. (fed : List ℕ) → Leads V.format self.old.stage self.old.builder fed (V.turns.came self.old.partial ++ self.old.kept.items) → IsRefusal V.format (fed ++ front.now) e) }
    {
        let _width = self.width();
        let mut whole = mem::replace(&mut self.kept, ArrayVec::new());
        let _kept = whole.try_extend_from_slice(front);
        self.step(whole.as_slice())
    }

    /// The certificate, where the file has come whole; else it is cut off.
    pub fn finish(self) -> Result<Certificate<V>, CertError>
        ensures whole { IfOk result (λ certificate. (self.stage ≡ stages.Field) × (self.builder.turn ≡ Turn.Complete) × (certificate ≡ self.builder.content)) }
        ensures cut { IfErr result (λ e. (e ≡ CertError.Truncated) × (self.stage ≡ stages.Field → self.builder.turn ≢ Turn.Complete)) }
    {
        match self.stage {
            Stage::Field => self.builder.finish(),
            _ => Err(CertError::Truncated),
        }
    }
}

// How many bytes the number takes that comes next of the field whose turn it is. Where none comes, one byte is too many.
fn width_of<V: Spelled>(turn: Turn, partial: &V::Partial) -> usize
    ensures value { result ≡ field_width V.turns turn partial.now }
    ensures some { 0 < result }
    ensures few { result ≤ 8 }
{
    match turn {
        Turn::Serial => 6,
        Turn::Release
        | Turn::Checksum
        | Turn::FrameLimit
        | Turn::RangeCount
        | Turn::RangeFirst { .. }
        | Turn::RangeLast { .. }
        | Turn::RoutineCount
        | Turn::RoutineNumber { .. } => 2,
        Turn::LoadedLength
        | Turn::RoutineAddress { .. }
        | Turn::InstructionCount
        | Turn::InstructionAddress { .. }
        | Turn::FactCount
        | Turn::FactAddress { .. } => 4,
        Turn::LocalCount { .. } | Turn::Height { .. } | Turn::FactGlobal { .. } | Turn::Complete =>
            1,
        Turn::Global { .. }
        | Turn::RoutineResult { .. }
        | Turn::Value { .. }
        | Turn::FactValues { .. } => V::awaited(partial),
    }
}

//! Making a certificate field by field.

ghost use Rattle.std.specs.Prelude.{◌≡◌, ◌≢◌, ◌↔◌, true, IsTrue, OnOk, OnErr, IfOk, IfErr, Ok, Err};
ghost use Rattle.zcert.specs.declared.edition.Edition.TheVariants as editions;
ghost use Rattle.zcert.specs.Building.{opening, taken, Adds};
ghost use Rattle.zcert.specs.Format.{IsAllowed};
ghost use Rattle.zcert.specs.View.{RefusesField};

use crate::building::Building;
use crate::certificate::Certificate;
use crate::edition::Edition;
use crate::error::CertError;
use crate::field::{Field, Turn};
use crate::spelled::Spelled;
use std::alloc::Global;
use std::marker::Model;
use zdomain::Interval;

/// Takes the fields of a certificate in the order of the file, and refuses what a reader of the file would. A field out of turn
/// is out of order. Clauses see how far it has come.
#[derive(Drop)]
pub struct CertBuilder<V: Spelled = Interval> {
    building: Building<V>,
}

impl<V: Spelled> Model for CertBuilder<V> {
    ghost use Rattle.zcert.specs.Building.{Progress};
    ghost use Rattle.zcert.specs.Fields.{IsReached};
    ghost use Rattle.zcert.specs.View.{progress_of};

    ghost Value = { Progress V };

    ghost view = { λ b. progress_of b.building };

    ghost invariant = { λ b. IsReached V.format (progress_of b.building) };
}

impl<V: Spelled> CertBuilder<V> {
    /// A builder before the first field of a certificate that names no limit of frames.
    pub fn new(alloc: Global) -> CertBuilder<V>
        ensures { result ≡ opening editions.Plain }
    {
        CertBuilder {
            building: Building::new(alloc, Edition::Plain),
        }
    }

    /// A builder before the first field of one that does, behind the loaded length.
    pub fn limited(alloc: Global) -> CertBuilder<V>
        requires { V.format.limited ≡ true }
        ensures { result ≡ opening editions.Limited }
    {
        CertBuilder {
            building: Building::new(alloc, Edition::Limited),
        }
    }

    /// A builder before the first field of one that does, and may mark instructions: by bit 7 of the byte that a height is given as.
    pub fn marking(alloc: Global) -> CertBuilder<V>
        requires { V.format.limited ≡ true }
        ensures { result ≡ opening editions.Marking }
    {
        CertBuilder {
            building: Building::new(alloc, Edition::Marking),
        }
    }

    /// A builder before the first field of one that does both, and states facts on globals behind the instructions.
    pub fn stating(alloc: Global) -> CertBuilder<V>
        requires { V.format.limited ≡ true }
        ensures { result ≡ opening editions.Stating }
    {
        CertBuilder {
            building: Building::new(alloc, Edition::Stating),
        }
    }

    /// The one of these that a version has.
    pub(crate) fn of_version(alloc: Global, edition: Edition) -> CertBuilder<V>
        requires { IsAllowed V.format edition }
        ensures { result ≡ opening edition }
    {
        CertBuilder {
            building: Building::new(alloc, edition),
        }
    }

    /// Which field comes next.
    pub fn turn(&self) -> Turn
        ensures { result ≡ self.now.turn }
    {
        self.building.turn
    }

    /// Whether all fields have come.
    pub fn is_complete(&self) -> bool
        ensures { IsTrue result ↔ (self.now.turn ≡ Turn.Complete) }
    {
        matches!(self.turn(), Turn::Complete)
    }

    /// Takes the next field. An error changes nothing, and is the first of these that holds: `Order`, where the field is out of turn,
    /// an address or a range doesn't rise, or a range ends before its first byte; `Limit`, where a number is above its limit;
    /// `OutOfMemory`, where a growth was refused.
    pub fn take(&mut self, field: Field<V>) -> Result<(), CertError>
        ensures ok { OnOk result (taken self.old field ≡ Ok self.new) }

        // What is refused is refused for what is wrong with it, and changes nothing. Memory is wanted only for a field that would be
        // taken, and that adds a part.
        ensures refused { IfErr result (λ e. RefusesField e (taken self.old field)) }
        ensures memory { result ≡ Err CertError.OutOfMemory → Adds self.old field }
        ensures err { OnErr result (self.new ≡ self.old) }
    {
        self.building.take(field)
    }

    /// The certificate, where all fields have come; else it is cut off.
    pub fn finish(self) -> Result<Certificate<V>, CertError>
        ensures whole { IfOk result (λ certificate. (self.turn ≡ Turn.Complete) × (certificate ≡ self.content)) }
        ensures cut { IfErr result (λ e. (self.turn ≢ Turn.Complete) × (e ≡ CertError.Truncated)) }
    {
        match self.building.turn {
            Turn::Complete => Ok(Certificate::new(self.building.contents)),
            _ => Err(CertError::Truncated),
        }
    }
}

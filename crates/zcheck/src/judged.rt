//! Stories that are accepted, whether their certificates mark instructions or not.

ghost use Rattle.std.specs.Prelude.{◌≡◌, IfErr, IfOk};
ghost use Rattle.zcheck.specs.Acceptance.{NeverChanges, NeverFaults, PlaysAlike, PlaysSafely};
ghost use Rattle.zcheck.specs.Judged.{IsJudged, IsUnjudged, OfWhole, certificate_of, story_of};

use crate::accepted::Accepted;
use crate::checking::check;
use crate::marked::{Marked, check_marked};
use crate::refusal::Refusal;
use std::alloc::Global;
use zcert::{Certificate, Spelled};
use zstory::Story;

/// A story that is accepted with its certificate, as `Accepted` or as `Marked`.
#[derive(Drop)]
pub enum Judged<A, M> {
    /// No instruction is marked: it meets no fault.
    Whole(A),
    /// Some are: a fault is at one of them, or behind one.
    Marked(M),
}

/// Accepts a story with a certificate, and else says what is wrong first (own): as `check` does where it marks no instruction, and as
/// `check_marked` where it marks some, with all that each says of what it accepts. Both are taken over; a refusal hands nothing back.
pub fn check_any<V: Spelled>(
    alloc: Global,
    story: Story,
    certificate: Certificate<V>,
) -> Result<Judged<Accepted<V>, Marked<V>>, Refusal>
    ensures story { IfOk result (λ j. story_of j ≡ story) }
    ensures certificate { IfOk result (λ j. certificate_of j ≡ certificate) }
    ensures judged { IfOk result (IsJudged V.operations) }
    ensures refused { IfErr result (IsUnjudged V.operations story certificate) }
    ensures never_faults { IfOk result (OfWhole (NeverFaults V.operations)) }
    ensures never_changes { IfOk result (OfWhole (NeverChanges V.operations)) }
    ensures plays_alike { IfOk result (OfWhole (PlaysAlike V.operations)) }
    ensures plays_safely { IfOk result (OfWhole (PlaysSafely V.operations)) }
{
    if certificate.marks() == 0 {
        match check(alloc, story, certificate) {
            Ok(accepted) => Ok(Judged::Whole(accepted)),
            Err(refusal) => Err(refusal),
        }
    } else {
        match check_marked(alloc, story, certificate) {
            Ok(marked) => Ok(Judged::Marked(marked)),
            Err(refusal) => Err(refusal),
        }
    }
}

//! The checker.

ghost use Rattle.std.specs.Prelude.{◌≡◌, IfOk, IfErr};
ghost use Rattle.zcert.specs.Spelling.{HasSpelling};
ghost use Rattle.zrule.specs.Described.{IsLoadedStory};
ghost use Rattle.zcheck.specs.Acceptance.{IsListingOf, NeverChanges, NeverFaults, PlaysAlike, PlaysSafely};
ghost use Rattle.zcheck.specs.Passes.{IsRefused, Passes};

use crate::accepted::Accepted;
use crate::listing::judged_listing;
use crate::refusal::Refusal;
use std::alloc::Global;
use zcert::{Certificate, Spelled};
use zstory::Story;

/// Accepts a story with a certificate that passes, and else says what is wrong first (own).
///
/// Whatever is typed, drawn or answered, and however long it is played, a story that is accepted meets no fault, and no
/// byte changes that is fixed or that the certificate says is frozen. It is the same play with every place in scope as
/// with the certificate's listing. That holds of play from saves too, where each leads to states alone that the
/// certificate describes; so does every save that is accepted, as `plays_safely` says in one sentence. Both are taken over; a
/// refusal hands nothing back. `OutOfMemory` is answered only for a certificate that passes.
pub fn check<V: Spelled>(
    alloc: Global,
    story: Story,
    certificate: Certificate<V>,
) -> Result<Accepted<V>, Refusal>
    ensures story { IfOk result (λ a. a.story ≡ story) }
    ensures certificate { IfOk result (λ a. a.certificate ≡ certificate) }
    ensures lists { IfOk result (λ a. IsListingOf story certificate a.listing) }
    ensures passes { IfOk result (λ a. Passes V.operations story certificate) }
    ensures refused { IfErr result (IsRefused V.operations story certificate) }
    ensures never_faults { IfOk result (NeverFaults V.operations) }
    ensures never_changes { IfOk result (NeverChanges V.operations) }
    ensures plays_alike { IfOk result (PlaysAlike V.operations) }
    ensures plays_safely { IfOk result (PlaysSafely V.operations) }
{
    let listing = judged_listing(alloc, &story, &certificate)?;
    loaded_soundly(&story);
    well_spelled(&certificate);
    Ok(Accepted::new(story, certificate, listing))
}

/// Every loaded story is sound.
pub(crate) fn loaded_soundly(story: &Story)
    ensures { IsLoadedStory story.now }
{
    let _memory = story.memory();
}

/// Every certificate has a spelling.
pub(crate) fn well_spelled<V: Spelled>(certificate: &Certificate<V>)
    ensures { HasSpelling V.format certificate.now }
{
    let _ranges = certificate.ranges();
}

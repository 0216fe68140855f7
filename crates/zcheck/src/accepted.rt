//! Stories that are accepted with a certificate.

ghost use Rattle.std.specs.Prelude.{◌≡◌};
ghost use Rattle.zcheck.specs.Acceptance.{IsListingOf};
ghost use Rattle.zcheck.specs.Passes.{Passes};

use std::marker::Model;
use zcert::{Certificate, Spelled};
use zdomain::Interval;
use zlist::Listing;
use zstory::Story;

/// A story with a certificate that passes, of any kind of sets, and the certificate's listing. Contracts see it as an
/// `AcceptanceOver V`.
#[derive(Drop)]
pub struct Accepted<V: Spelled = Interval> {
    story: Story,
    certificate: Certificate<V>,
    listing: Listing,
}

impl<V: Spelled> Model for Accepted<V> {
    ghost use Rattle.zcheck.specs.Acceptance.{AcceptanceOver, IsListingOf};
    ghost use Rattle.zcheck.specs.Passes.{Passes};

    ghost Value = { AcceptanceOver V };

    ghost view = { λ a. record { story = a.story; certificate = a.certificate; listing = a.listing } };

    ghost invariant = { λ a. Passes V.operations a.story a.certificate × IsListingOf a.story a.certificate a.listing };
}

impl<V: Spelled> Accepted<V> {
    /// These parts, which belong together.
    pub(crate) fn new(story: Story, certificate: Certificate<V>, listing: Listing) -> Accepted<V>
        requires passes { Passes V.operations story certificate }
        requires lists { IsListingOf story certificate listing }
        ensures { result ≡ record { story = story; certificate = certificate; listing = listing } }
    {
        Accepted {
            story,
            certificate,
            listing,
        }
    }

    /// The story.
    pub fn story(&self) -> &Story
        ensures value { result.now ≡ self.now.story }
        ensures passes { Passes V.operations self.now.story self.now.certificate }
    {
        &self.story
    }

    /// Its certificate.
    pub fn certificate(&self) -> &Certificate<V>
        ensures value { result.now ≡ self.now.certificate }
        ensures passes { Passes V.operations self.now.story self.now.certificate }
    {
        &self.certificate
    }

    /// The instructions and routines that the certificate lists, the instructions as the story spells them.
    pub fn listing(&self) -> &Listing
        ensures value { result.now ≡ self.now.listing }
        ensures lists { IsListingOf self.now.story self.now.certificate self.now.listing }
        ensures passes { Passes V.operations self.now.story self.now.certificate }
    {
        &self.listing
    }
}

//! How a certificate is kept.

ghost use Rattle.std.specs.Prelude.{◌≡◌};
ghost use Rattle.zcert.specs.Certificate.{edition_of};
ghost use Rattle.zcert.specs.View.{content_of};

use crate::edition::Edition;
use crate::instructions::Instructions;
use crate::parts::{Fact, Range, Routine};
use crate::spelled::Spelled;
use zstory::Identity;

/// A certificate, or as much of one as has come.
#[derive(Drop)]
pub struct Contents<V: Spelled> {
    pub identity: Identity,
    /// How many frames may stand above the first, where that is named.
    pub limit: Option<u16>,
    /// Whether instructions may be marked.
    pub marking: bool,
    /// Whether facts on globals may be stated.
    pub stating: bool,
    pub ranges: Vec<Range>,
    pub globals: Vec<V>,
    pub routines: Vec<Routine<V>>,
    pub instructions: Instructions<V>,
    pub facts: Vec<Fact<V>>,
}

impl<V: Spelled> Contents<V> {
    /// What it has beside what all certificates have.
    pub fn edition(&self) -> Edition
        ensures { result ≡ edition_of (content_of self.now) }
    {
        Edition::by(self.limit, self.marking, self.stating)
    }
}

//! A certificate as it is found.

ghost use Rattle.std.specs.Prelude.{◌≡◌, IfOk};
ghost use Rattle.zfind.specs.Found.{marks_of, spelling_of};

use std::alloc::{AllocError, Global};
use zcert::{Certificate, write};
use zdomain::{Interval, Values};

/// A certificate that was found.
#[derive(Drop)]
pub enum Found {
    /// Of intervals alone.
    Intervals(Certificate<Interval>),
    /// Of intervals and lists, where none of intervals alone was found, or a limit of frames is named.
    Lists(Certificate<Values>),
    /// Of intervals and lists, which marks where a rule is broken, and passes elsewhere.
    Marked(Certificate<Values>),
}

impl Found {
    /// Its bytes, by the version of the format that has its kind of sets.
    pub fn write(&self, alloc: Global) -> Result<Vec<u8>, AllocError>
        ensures { IfOk result (λ bytes. bytes.items ≡ spelling_of self.now) }
    {
        match self {
            Found::Intervals(certificate) => write(alloc, certificate),
            Found::Lists(certificate) => write(alloc, certificate),
            Found::Marked(certificate) => write(alloc, certificate),
        }
    }

    /// How many instructions it marks.
    pub fn marks(&self) -> usize
        ensures { result ≡ marks_of self.now }
    {
        match self {
            Found::Intervals(certificate) => certificate.marks(),
            Found::Lists(certificate) => certificate.marks(),
            Found::Marked(certificate) => certificate.marks(),
        }
    }
}

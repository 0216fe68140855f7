//! Why bytes or fields are no certificate.

ghost use Rattle.std.specs.Prelude.{◌≡◌};
ghost use Rattle.zcert.specs.declared.error.CertError.TheVariants.{OutOfMemory};

use std::alloc::{AllocError, AllocFailed};
use thiserror::Error;

/// The first wrong field in the order of the file. Where several things are wrong with one field it is the cut
/// (`Truncated`), and else the first that is named here.
#[derive(Clone, Copy, Debug, PartialEq, Eq, Error)]
#[error("{}", self.text())]
pub enum CertError {
    /// K1: the file does not begin with `ZPCC`.
    Magic,
    /// K2: another version of the format.
    Version,
    /// K3: the file ends within this field, or before it.
    Truncated,
    /// K4: bytes follow the last field.
    Trailing,
    /// K5: ranges, addresses or words of a list that do not rise, a range that ends before its first byte, or a field out of turn.
    Order,
    /// K6: an interval whose lower end is above its upper end.
    EmptyInterval,
    /// K7: a number above its limit.
    Limit,
    /// K8: a growth was refused.
    OutOfMemory,
    /// K9: no list: a kind above 1, a count outside 2 to 64, or an interval spelled as a list.
    ListForm,
}

impl CertError {
    ghost use Rattle.zcert.specs.Refusal.{number_of};

    /// The number after the `K` of its code.
    pub fn number(self) -> u8
        ensures { result ≡ number_of self }
    {
        match self {
            CertError::Magic => 1,
            CertError::Version => 2,
            CertError::Truncated => 3,
            CertError::Trailing => 4,
            CertError::Order => 5,
            CertError::EmptyInterval => 6,
            CertError::Limit => 7,
            CertError::OutOfMemory => 8,
            CertError::ListForm => 9,
        }
    }

    // What is printed of it.
    fn text(self) -> &'static str {
        match self {
            CertError::Magic => "not a certificate",
            CertError::Version => "the version is not known",
            CertError::Truncated => "the certificate is cut off",
            CertError::Trailing => "bytes follow the certificate",
            CertError::Order => "a field is out of order",
            CertError::EmptyInterval => "an interval is empty",
            CertError::Limit => "a number is above its limit",
            CertError::OutOfMemory => "out of memory",
            CertError::ListForm => "a list is not spelled as one",
        }
    }
}

impl From<AllocError> for CertError {
    ghost from_gives = { λ _ e. e ≡ OutOfMemory };

    fn from(_e: AllocError) -> CertError {
        CertError::OutOfMemory
    }
}

impl<T: Drop> From<AllocFailed<T>> for CertError {
    ghost from_gives = { λ _ e. e ≡ OutOfMemory };

    fn from(_e: AllocFailed<T>) -> CertError {
        CertError::OutOfMemory
    }
}

//! Reading a certificate.

ghost use Rattle.std.specs.Prelude.{◌≡◌, IfOk, Ok, Err};
ghost use Rattle.zcert.specs.Certificate.{Certificate as Content};
ghost use Rattle.zcert.specs.Fields.{LeadsToPart};
ghost use Rattle.zcert.specs.Reading.{reading};
ghost use Rattle.zcert.specs.Spelling.{spelling, HasSpelling};
ghost use Rattle.zcert.specs.View.{Answers};

use crate::certificate::Certificate;
use crate::error::CertError;
use crate::spelled::Spelled;
use crate::stream::CertStream;
use std::alloc::Global;

// The certificate that the bytes spell, or the first wrong field.
fn certificate_of<V: Spelled>(alloc: Global, bytes: &[u8]) -> Result<Certificate<V>, CertError>
    ensures exact { Answers result (reading V.format bytes.now) }
    ensures memory { result ≡ Err CertError.OutOfMemory → LeadsToPart V.format bytes.now }
{
    let mut stream = CertStream::new(alloc);
    stream.feed(bytes)?;
    stream.finish()
}

/// The certificate that all of the bytes spell. It is refused for the first wrong field.
///
/// Memory is taken for what has been read alone, never for what a count says, and wanted only where fields up to one that adds a
/// part could all be taken.
pub fn read<V: Spelled>(alloc: Global, bytes: &[u8]) -> Result<Certificate<V>, CertError>
    // What is read is spelled by the bytes.
    ensures found { IfOk result (λ c. (bytes.now ≡ spelling V.format c) × HasSpelling V.format c) }
    // A certificate that they spell is read.
    ensures only { (c : Content V) → HasSpelling V.format c → bytes.now ≡ spelling V.format c → Answers result (Ok c) }
    // Which refusal it is.
    ensures exact { Answers result (reading V.format bytes.now) }

    // Memory is wanted only for a part that the bytes have.
    ensures memory { result ≡ Err CertError.OutOfMemory → LeadsToPart V.format bytes.now }
{
    certificate_of(alloc, bytes)
}

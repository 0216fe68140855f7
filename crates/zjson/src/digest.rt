//! The digest of a file.

ghost use Rattle.std.specs.Prelude.{◌≡◌, IfOk, string_bytes};
ghost use Rattle.zjson.specs.Digest.{digest_text};

use sha2::{Digest, Sha256};
use std::alloc::{AllocError, Global};

/// The SHA-256 of bytes (FIPS 180-4), as 64 hexadecimal digits in lower case. Fails only for want of memory.
pub fn digest_text(alloc: Global, bytes: &[u8]) -> Result<String, AllocError>
    ensures { IfOk result (λ text. string_bytes text ≡ digest_text bytes.now) }
{
    hex::encode(alloc, Sha256::digest(bytes))
}

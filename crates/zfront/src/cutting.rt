//! Lines, cut at a byte.

ghost use Rattle.std.specs.Prelude.{◌≡◌, ◌==◌, ◌<◌, [], ◌∷◌, IfNone, IfSome, drop, length, position, take};
ghost use Rattle.std.specs.Str.{bytes_eq};
ghost use Rattle.zfront.specs.Sourced.{parts};

/// Whether bytes are those of a word.
pub(crate) fn is(bytes: &[u8], word: &[u8]) -> bool
    ensures { result ≡ bytes_eq bytes.now word.now }
{
    bytes == word
}

/// Where the first such byte stands.
pub(crate) fn place_of(bytes: &[u8], byte: u8) -> Option<usize>
    ensures place { result ≡ position (λ other. other == byte) bytes.now }
    ensures within { IfSome result (λ place. place < length bytes.now) }
{
    bytes.iter().position(|other| *other == byte)
}

/// What stands before the first such byte and what stands behind it, or None where there is none.
#[tactic(auto, using(crate::proofs::Cuts::parts_uncut, crate::proofs::Cuts::parts_cut))]
pub(crate) fn cut(bytes: &[u8], byte: u8) -> Option<(&[u8], &[u8])>
    ensures uncut { IfNone result (parts byte bytes.now ≡ bytes.now ∷ []) }
    ensures parts { IfSome result (λ p. parts byte bytes.now ≡ p.0.now ∷ parts byte p.1.now) }
    ensures shorter { IfSome result (λ p. length p.1.now < length bytes.now) }
{
    match place_of(bytes, byte) {
        None => None,
        Some(place) => Some((&bytes[..place], &bytes[place + 1..])),
    }
}

/// As many bytes from the front, or all of fewer.
pub(crate) fn front(bytes: &[u8], count: usize) -> &[u8]
    ensures { result.now ≡ take count bytes.now }
{
    &bytes[..bytes.len().min(count)]
}

/// What stands behind as many bytes.
pub(crate) fn behind(bytes: &[u8], count: usize) -> &[u8]
    ensures { result.now ≡ drop count bytes.now }
{
    &bytes[bytes.len().min(count)..]
}

//! Cutting bytes at a byte.

ghost use Rattle.std.specs.Prelude.{◌≡◌, ◌==◌, ◌<◌, ◌≤◌, IfSome, length};
ghost use Rattle.std.specs.Option.{option_map};
ghost use Rattle.std.specs.List.{position, prefix_len};
ghost use Rattle.std.specs.Str.{bytes_eq};
ghost use Rattle.zdebug.specs.Cutting.{cut, before, behind, is_blank, unblanked};

/// Whether bytes are those of a word.
pub fn is(bytes: &[u8], word: &[u8]) -> bool
    ensures { result ≡ bytes_eq bytes.now word.now }
{
    bytes == word
}

/// Where the first such byte stands.
fn place_of(bytes: &[u8], byte: u8) -> Option<usize>
    ensures value { result ≡ position (λ b. b == byte) bytes.now }
    ensures within { IfSome result (λ i. i < length bytes.now) }
{
    bytes.iter().position(|other| *other == byte)
}

/// What stands before the first such byte and what stands behind it, or None where there is none.
pub fn cut(bytes: &[u8], byte: u8) -> Option<(&[u8], &[u8])>
    ensures value { option_map (λ p. (p.0.now, p.1.now)) result ≡ cut byte bytes.now }
    ensures shorter { IfSome result (λ p. length p.1.now < length bytes.now) }
{
    match place_of(bytes, byte) {
        None => None,
        Some(place) => Some((&bytes[..place], &bytes[place + 1..])),
    }
}

/// The same, with nothing behind all of the bytes where there is no such byte.
pub fn until(bytes: &[u8], byte: u8) -> (&[u8], &[u8])
    ensures before { result.0.now ≡ before byte bytes.now }
    ensures behind { result.1.now ≡ behind byte bytes.now }
    ensures fits { length result.1.now ≤ length bytes.now }
{
    match cut(bytes, byte) {
        None => (bytes, &[]),
        Some(parts) => parts,
    }
}

/// Whether a byte is a space, a tab or an end of a line.
pub fn is_blank(byte: u8) -> bool
    ensures { result ≡ is_blank byte }
{
    byte == b' ' || byte == b'\t' || byte == b'\n' || byte == b'\r'
}

/// How many blanks bytes begin with.
fn blanks(bytes: &[u8]) -> usize
    ensures value { result ≡ prefix_len is_blank bytes.now }
    ensures within { result ≤ length bytes.now }
{
    for (at, byte) in bytes.iter().enumerate() {
        if !is_blank(*byte) {
            return at;
        }
    }
    bytes.len()
}

/// Bytes without the blanks that they begin with.
pub fn unblanked(bytes: &[u8]) -> &[u8]
    ensures { result.now ≡ unblanked bytes.now }
{
    &bytes[blanks(bytes)..]
}

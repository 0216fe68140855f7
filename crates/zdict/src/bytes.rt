//! Which bytes of a line belong together.

ghost use Rattle.std.specs.Prelude.{◌≡◌, ◌≤◌, length};
ghost use Rattle.std.specs.List.{prefix_len};
ghost use Rattle.zdict.specs.Tokens.{is_space, is_separator, is_letter, token_length};

/// Whether a byte is a space.
fn is_space(byte: u8) -> bool
    ensures { result ≡ is_space byte }
{
    byte == b' '
}

/// Whether a byte is a token of its own.
fn is_separator(separators: &[u8], byte: u8) -> bool
    ensures { result ≡ is_separator separators.now byte }
{
    !is_space(byte) && separators.contains(&byte)
}

/// Whether a byte is neither a space nor a separator.
fn is_letter(separators: &[u8], byte: u8) -> bool
    ensures { result ≡ is_letter separators.now byte }
{
    !is_space(byte) && !separators.contains(&byte)
}

/// How many spaces a part of a line begins with.
pub(crate) fn spaces(part: &[u8]) -> usize
    ensures value { result ≡ prefix_len is_space part.now }
    ensures within { result ≤ length part.now }
{
    for (at, byte) in part.iter().enumerate() {
        if !is_space(*byte) {
            return at;
        }
    }
    part.len()
}

/// How many letters a part of a line begins with.
fn letters(separators: &[u8], part: &[u8]) -> usize
    ensures value { result ≡ prefix_len (is_letter separators.now) part.now }
    ensures within { result ≤ length part.now }
{
    for (at, byte) in part.iter().enumerate() {
        if !is_letter(separators, *byte) {
            return at;
        }
    }
    part.len()
}

/// The length of the token that a part of a line begins with. 0 where it is empty, or begins with a space.
pub(crate) fn token_length(separators: &[u8], part: &[u8]) -> usize
    ensures value { result ≡ token_length separators.now part.now }
    ensures within { result ≤ length part.now }
{
    match part.first() {
        Some(byte) if is_separator(separators, *byte) => 1,
        _ => letters(separators, part),
    }
}

//! Numbers in front of what else a word has.

ghost use Rattle.std.specs.Prelude.{◌≡◌, ◌≤◌, ◌==◌, [], ◌∷◌, length};
ghost use Rattle.std.specs.List.{prefix_len};
ghost use Rattle.zfront.specs.Sourced.{address_at, begins_with, goes_on, is_digit, is_hex, is_letter, number_at};

/// The limit of numbers.
const LIMIT: u64 = 0x1_0000_0000;

/// How many digits an address has.
pub(crate) const ADDRESS_DIGITS: usize = 5;

fn is_digit(byte: u8) -> bool
    ensures { result ≡ is_digit byte }
{
    byte >= b'0' && byte <= b'9'
}

fn is_hex(byte: u8) -> bool
    ensures { result ≡ is_hex byte }
{
    is_digit(byte) || (byte >= b'a' && byte <= b'f')
}

fn is_letter(byte: u8) -> bool
    ensures { result ≡ is_letter byte }
{
    (byte >= b'A' && byte <= b'Z') || (byte >= b'a' && byte <= b'z')
}

/// How many decimal digits are in front.
pub(crate) fn digits(bytes: &[u8]) -> usize
    ensures count { result ≡ prefix_len is_digit bytes.now }
    ensures within { result ≤ length bytes.now }
{
    for (at, byte) in bytes.iter().enumerate() {
        if !is_digit(*byte) {
            return at;
        }
    }
    bytes.len()
}

/// How many hexadecimal digits are in front.
fn hex_digits(bytes: &[u8]) -> usize
    ensures count { result ≡ prefix_len is_hex bytes.now }
    ensures within { result ≤ length bytes.now }
{
    for (at, byte) in bytes.iter().enumerate() {
        if !is_hex(*byte) {
            return at;
        }
    }
    bytes.len()
}

/// Whether this byte is in front.
pub(crate) fn begins_with(bytes: &[u8], byte: u8) -> bool
    ensures { result ≡ begins_with (λ b. b == byte) bytes.now }
{
    match bytes.first() {
        None => false,
        Some(first) => *first == byte,
    }
}

fn begins_with_letter(bytes: &[u8]) -> bool
    ensures { result ≡ begins_with is_letter bytes.now }
{
    match bytes.first() {
        None => false,
        Some(first) => is_letter(*first),
    }
}

fn begins_with_digit(bytes: &[u8]) -> bool
    ensures { result ≡ begins_with is_digit bytes.now }
{
    match bytes.first() {
        None => false,
        Some(first) => is_digit(*first),
    }
}

/// The number that a digit makes of the digits before it, if it is below 2 ^ 32.
fn with_digit(base: u32, number: u32, byte: u8) -> Option<u32>
    ensures { result ≡ goes_on base number (byte ∷ []) }
{
    let value = if is_digit(byte) {
        byte - b'0'
    } else {
        byte.saturating_sub(b'a' - 10)
    };
    let next = u64::from(number) * u64::from(base) + u64::from(value);
    if next >= LIMIT {
        return None;
    }
    Some(next as u32)
}

/// The number that digits are, if it is below 2 ^ 32.
fn number(base: u32, digits: &[u8]) -> Option<u32>
    ensures { result ≡ goes_on base 0 digits.now }
{
    let mut number = 0;
    for byte in digits {
        number = with_digit(base, number, *byte)?;
    }
    Some(number)
}

/// The address in front: five hexadecimal digits, and no further one.
pub(crate) fn address_at(bytes: &[u8]) -> Option<u32>
    ensures { result ≡ address_at bytes.now }
{
    if hex_digits(bytes) != ADDRESS_DIGITS {
        return None;
    }
    number(16, &bytes[..ADDRESS_DIGITS])
}

/// The decimal number in front, behind which no letter stands.
pub(crate) fn number_at(bytes: &[u8]) -> Option<u32>
    ensures { result ≡ number_at bytes.now }
{
    let count = digits(bytes);
    if !begins_with_digit(bytes) || begins_with_letter(&bytes[count..]) {
        return None;
    }
    number(10, &bytes[..count])
}

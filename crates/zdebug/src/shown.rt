//! Bytes that needn't be text, as text.

ghost use Rattle.std.specs.Prelude.{◌≡◌, ◌<◌, ◌==◌, ◌||◌, ◌++◌, [], ◌∷◌, OnOk, not, string_bytes};
ghost use Rattle.zdebug.specs.Shown.{escaped, hex_digit, is_plain, shown, shown_byte};

use std::alloc::AllocError;

/// Adds bytes, each told: a printable character of ASCII but the backslash as it is, any other byte as `\x` and two lower-case hexadecimal
/// digits.
pub fn push_shown(bytes: &[u8], text: &mut String) -> Result<(), AllocError>
    ensures { OnOk result (string_bytes text.new ≡ string_bytes text.old ++ shown bytes.now) }
{
    for byte in bytes {
        push_byte(*byte, text)?;
    }
    Ok(())
}

fn push_byte(byte: u8, text: &mut String) -> Result<(), AllocError>
    ensures { OnOk result (string_bytes text.new ≡ string_bytes text.old ++ shown_byte byte) }
{
    if is_plain(byte) {
        text.push(char::from(byte))?;
    } else {
        text.push_str("\\x")?;
        push_digit(byte / 16, text)?;
        push_digit(byte % 16, text)?;
    }
    Ok(())
}

/// Adds bytes, each told, for a string of JSON: a quotation mark and a backslash have a backslash in front.
pub fn push_escaped(bytes: &[u8], text: &mut String) -> Result<(), AllocError>
    ensures { OnOk result (string_bytes text.new ≡ string_bytes text.old ++ escaped (shown bytes.now)) }
{
    for byte in bytes {
        push_escaped_byte(*byte, text)?;
    }
    Ok(())
}

fn push_escaped_byte(byte: u8, text: &mut String) -> Result<(), AllocError>
    ensures { OnOk result (string_bytes text.new ≡ string_bytes text.old ++ escaped (shown_byte byte)) }
{
    if begins_escaped(byte) {
        text.push_str("\\")?;
    }
    push_byte(byte, text)?;
    Ok(())
}

/// Whether what is told of a byte begins with a quotation mark or a backslash.
fn begins_escaped(byte: u8) -> bool
    ensures { result ≡ (byte == 34 || not (is_plain byte)) }
{
    byte == b'"' || !is_plain(byte)
}

/// Whether a byte stands for itself.
fn is_plain(byte: u8) -> bool
    ensures { result ≡ is_plain byte }
{
    b' ' <= byte && byte <= b'~' && byte != b'\\'
}

/// Adds the lower-case hexadecimal digit of a number below 16.
fn push_digit(n: u8, text: &mut String) -> Result<(), AllocError>
    requires { n < 16 }
    ensures { OnOk result (string_bytes text.new ≡ string_bytes text.old ++ hex_digit n ∷ []) }
{
    text.push(char::from(b"0123456789abcdef"[usize::from(n)]))?;
    Ok(())
}

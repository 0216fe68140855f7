//! Bytes that needn't be text, as text.

ghost use Rattle.std.specs.Prelude.{◌≡◌, ◌<◌, ◌++◌, [], ◌∷◌, IfOk, OnOk, string_bytes};
ghost use Rattle.zinfo.specs.Shown.{five_digits, hex_digit, is_plain, shown, shown_byte};

use std::alloc::{AllocError, Global};

/// Bytes as a text that tells each: a printable character of ASCII but the backslash as it is, any other byte as `\x` and two lower-case
/// hexadecimal digits. Fails only for want of memory.
pub fn shown_text(alloc: Global, bytes: &[u8]) -> Result<String, AllocError>
    ensures { IfOk result (λ text. string_bytes text ≡ shown bytes.now) }
{
    let mut text = String::new(alloc);
    for byte in bytes {
        push_shown(*byte, &mut text)?;
    }
    Ok(text)
}

fn push_shown(byte: u8, text: &mut String) -> Result<(), AllocError>
    ensures { OnOk result (string_bytes text.new ≡ string_bytes text.old ++ shown_byte byte) }
{
    if is_plain(byte) {
        text.push(char::from(byte))?;
    } else {
        text.push_str("\\x")?;
        push_digit(u16::from(byte / 16), text)?;
        push_digit(u16::from(byte % 16), text)?;
    }
    Ok(())
}

/// Whether a byte stands for itself.
fn is_plain(byte: u8) -> bool
    ensures { result ≡ is_plain byte }
{
    b' ' <= byte && byte <= b'~' && byte != b'\\'
}

/// Adds the lower-case hexadecimal digit of a number below 16.
pub(crate) fn push_digit(n: u16, text: &mut String) -> Result<(), AllocError>
    requires { n < 16 }
    ensures { OnOk result (string_bytes text.new ≡ string_bytes text.old ++ hex_digit n ∷ []) }
{
    text.push(char::from(hex_digit(u32::from(n))))?;
    Ok(())
}

/// Adds the five hexadecimal digits of an address.
pub(crate) fn push_five_digits(address: u32, text: &mut String) -> Result<(), AllocError>
    requires { address < 0x100000 }
    ensures { OnOk result (string_bytes text.new ≡ string_bytes text.old ++ five_digits address) }
{
    let digits = five_digits(address);
    for digit in &digits {
        text.push(char::from(*digit))?;
    }
    Ok(())
}

/// The five lower-case hexadecimal digits of an address below 0x100000, as `00325`. No memory is wanted.
pub fn five_digits(address: u32) -> [u8; 5]
    requires { address < 0x100000 }
    ensures { result ≡ five_digits address }
{
    [
        hex_digit(address / 0x10000),
        hex_digit(address / 0x1000 % 0x10),
        hex_digit(address / 0x100 % 0x10),
        hex_digit(address / 0x10 % 0x10),
        hex_digit(address % 0x10),
    ]
}

/// The lower-case hexadecimal digit of a number below 16.
fn hex_digit(n: u32) -> u8
    requires { n < 16 }
    ensures { result ≡ hex_digit n }
{
    b"0123456789abcdef"[n as usize]
}

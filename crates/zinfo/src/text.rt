//! What is told of a story, as lines.

ghost use Rattle.std.specs.Prelude.{◌≡◌, ◌++◌, ◌<◌, codes, pos, IfOk, OnOk, string_bytes};
ghost use Rattle.zlist.specs.Listed.{place_of};
ghost use Rattle.zinfo.specs.Text.{cause_code, checksum_text, code_text, entries_text, entry_text, fault_code, four_digits, line_of, number_line, or_none, place_text, text_of_info, unlisted_text, unplayed_line, with_entry};

use crate::facts::{Checksum, Code, Info, Unplayed};
use crate::shown::{push_digit, push_five_digits, shown_text};
use itoa::Buffer;
use std::alloc::{AllocError, Global};
use zcode::{DecodeError, Excluded};
use zlist::ListError;

/// One fact a line. Fails only for want of memory.
pub fn text_of_info(alloc: Global, info: &Info) -> Result<String, AllocError>
    ensures { IfOk result (λ text. string_bytes text ≡ text_of_info info.now) }
{
    let mut text = String::new(alloc);
    push_number("release", u64::from(info.release), &mut text)?;
    let serial = shown_text(alloc, &info.serial)?;
    push_line("serial", serial.as_str(), &mut text)?;
    push_number("length", u64::from(info.length), &mut text)?;
    push_checksum(info.checksum, &mut text)?;
    push_number("objects", u64::from(info.objects), &mut text)?;
    push_number("words", u64::from(info.words), &mut text)?;
    push_code(info.code, &mut text)?;
    push_unplayed(alloc, info.unplayed, &mut text)?;
    Ok(text)
}

fn push_line(name: &str, value: &str, text: &mut String) -> Result<(), AllocError>
    ensures { OnOk result (string_bytes text.new ≡ string_bytes text.old ++ line_of name.now value.now) }
{
    text.push_str(name)?;
    text.push_str(": ")?;
    text.push_str(value)?;
    text.push_str("\n")?;
    Ok(())
}

fn push_number(name: &str, number: u64, text: &mut String) -> Result<(), AllocError>
    ensures { OnOk result (string_bytes text.new ≡ string_bytes text.old ++ number_line name.now number) }
{
    push_line(name, Buffer::new().format(number), text)
}

fn push_checksum(checksum: Checksum, text: &mut String) -> Result<(), AllocError>
    ensures { OnOk result (string_bytes text.new ≡ string_bytes text.old ++ line_of (codes "checksum") (checksum_text checksum)) }
{
    text.push_str("checksum: ")?;
    push_verdict(checksum, text)?;
    text.push_str("\n")?;
    Ok(())
}

/// Whether a checksum is right.
fn push_verdict(checksum: Checksum, text: &mut String) -> Result<(), AllocError>
    ensures { OnOk result (string_bytes text.new ≡ string_bytes text.old ++ checksum_text checksum) }
{
    match checksum {
        Checksum::Right(sum) => {
            push_word(sum, text)?;
            text.push_str(", right")?;
        }
        Checksum::Unstated(sum) => {
            text.push_str("none, the sum is ")?;
            push_word(sum, text)?;
        }
        Checksum::Wrong(stated, sum) => {
            push_word(stated, text)?;
            text.push_str(", wrong, the sum is ")?;
            push_word(sum, text)?;
        }
    }
    Ok(())
}

fn push_code(code: Code, text: &mut String) -> Result<(), AllocError>
    ensures { OnOk result (string_bytes text.new ≡ string_bytes text.old ++ code_text code) }
{
    match code {
        Code::Listed(routines, instructions) => {
            push_number("routines", routines as u64, text)?;
            push_number("instructions", instructions as u64, text)?;
        }
        Code::Unlisted(error) => {
            text.push_str("unlisted: ")?;
            push_fault(error, text)?;
            text.push_str("\n")?;
        }
    }
    Ok(())
}

/// How often the opcodes are met that aren't played.
fn push_unplayed(alloc: Global, counts: Unplayed, text: &mut String) -> Result<(), AllocError>
    ensures { OnOk result (string_bytes text.new ≡ string_bytes text.old ++ unplayed_line counts) }
{
    let entries = entries_of(alloc, counts)?;
    push_entries(entries.as_str(), text)?;
    Ok(())
}

/// Those entries, or that there are none.
fn push_entries(entries: &str, text: &mut String) -> Result<(), AllocError>
    ensures { OnOk result (string_bytes text.new ≡ string_bytes text.old ++ line_of (codes "opcodes not played") (or_none entries.now)) }
{
    if entries.is_empty() {
        push_line("opcodes not played", "none", text)
    } else {
        push_line("opcodes not played", entries, text)
    }
}

/// How often those are met that are.
fn entries_of(alloc: Global, counts: Unplayed) -> Result<String, AllocError>
    ensures { IfOk result (λ entries. string_bytes entries ≡ entries_text counts) }
{
    let mut entries = String::new(alloc);
    push_entry(Excluded::SplitWindow, counts.split_window, &mut entries)?;
    push_entry(Excluded::SetWindow, counts.set_window, &mut entries)?;
    push_entry(Excluded::OutputStream, counts.output_stream, &mut entries)?;
    push_entry(Excluded::InputStream, counts.input_stream, &mut entries)?;
    push_entry(Excluded::SoundEffect, counts.sound_effect, &mut entries)?;
    Ok(entries)
}

/// How often one of them is met, if it is, behind others.
fn push_entry(opcode: Excluded, count: usize, entries: &mut String) -> Result<(), AllocError>
    ensures { OnOk result (string_bytes entries.new ≡ with_entry (string_bytes entries.old) (entry_text opcode count)) }
{
    if count == 0 {
        return Ok(());
    }
    if !entries.is_empty() {
        entries.push_str(", ")?;
    }
    entries.push_str(opcode.name())?;
    entries.push_str(" ")?;
    entries.push_str(Buffer::new().format(count as u64))
}

/// What is at fault with a listing.
fn push_fault(error: ListError, text: &mut String) -> Result<(), AllocError>
    ensures { OnOk result (string_bytes text.new ≡ string_bytes text.old ++ unlisted_text error) }
{
    text.push_str(fault_code(error))?;
    text.push_str(" at ")?;
    push_fault_place(error, text)?;
    if let ListError::Decode(_, cause) = error {
        text.push_str(", ")?;
        text.push_str(cause_code(cause))?;
        if let DecodeError::NotInProfile(opcode) = cause {
            text.push_str(" ")?;
            text.push_str(opcode.name())?;
        }
    }
    Ok(())
}

/// The code of what is at fault with a listing: `U1` to `U4`.
pub fn fault_code(error: ListError) -> &'static str
    ensures { result.now ≡ fault_code error }
{
    match error {
        ListError::Decode(_, _) => "U1",
        ListError::TwoRoutines(_) => "U2",
        ListError::ComputedJump(_) => "U3",
        ListError::OutOfMemory => "U4",
    }
}

/// Adds where it is.
pub(crate) fn push_fault_place(error: ListError, text: &mut String) -> Result<(), AllocError>
    ensures { OnOk result (string_bytes text.new ≡ string_bytes text.old ++ place_text (place_of error)) }
{
    match error {
        ListError::Decode(place, _) => push_place(place, text),
        ListError::TwoRoutines(address) | ListError::ComputedJump(address) => {
            push_address(address, text)
        }
        ListError::OutOfMemory => push_address(0, text),
    }
}

/// The code of what keeps bytes from being an instruction.
pub(crate) fn cause_code(cause: DecodeError) -> &'static str
    ensures { result.now ≡ cause_code cause }
{
    match cause {
        DecodeError::Truncated => "J1",
        DecodeError::NoSuchOpcode => "J2",
        DecodeError::NotInProfile(_) => "J3",
        DecodeError::Operands => "J4",
        DecodeError::Text => "J5",
    }
}

/// Adds a place: five hexadecimal digits, or the number in decimal where it is no address below 0x100000. Fails only for want of memory.
pub fn push_place(place: i32, text: &mut String) -> Result<(), AllocError>
    ensures { OnOk result (string_bytes text.new ≡ string_bytes text.old ++ place_text place) }
{
    if 0 <= place && place < 0x100000 {
        push_five_digits(place as u32, text)
    } else {
        text.push_str(Buffer::new().format(place))
    }
}

/// Adds the place that an address is. Fails only for want of memory.
pub fn push_address(address: u32, text: &mut String) -> Result<(), AllocError>
    ensures { OnOk result (string_bytes text.new ≡ string_bytes text.old ++ place_text (pos address)) }
{
    if address < 0x100000 {
        push_five_digits(address, text)
    } else {
        text.push_str(Buffer::new().format(address))
    }
}

/// Adds the four hexadecimal digits of a word.
fn push_word(word: u16, text: &mut String) -> Result<(), AllocError>
    ensures { OnOk result (string_bytes text.new ≡ string_bytes text.old ++ four_digits word) }
{
    push_digit(word / 0x1000, text)?;
    push_digit(word / 0x100 % 0x10, text)?;
    push_digit(word / 0x10 % 0x10, text)?;
    push_digit(word % 0x10, text)
}

//! What is told of a story, as an object of JSON.

ghost use Rattle.std.specs.Prelude.{◌≡◌, IfOk, option_map, string_bytes};
ghost use Rattle.zinfo.specs.Beside.{code_of};
ghost use Rattle.zinfo.specs.Object.{address_of, cause_of, facts_of, fault_of, frames_of, instructions_of, kept_of, listed_of, marks_of, name_of, object_of_info, opcode_of, parts_of, readable_of, right_of, routines_of, stated_of, sum_of, version_of};
ghost use Rattle.zjson.specs.Objects.{value_of};

use crate::facts::{Beside, Checksum, Code, Info, Kept};
use crate::shown::shown_text;
use crate::text::{cause_code, fault_code, push_fault_place};
use itoa::Buffer;
use std::alloc::{AllocError, Global};
use zcode::DecodeError;
use zjson::{Member, Value, line_of};
use zlist::ListError;

/// The facts of a story as one object on a line, of the file of a name whose bytes have a digest: `file`, `sha256`, `release`, `serial`
/// as `shown_text` shows it, `length`, `checksum` (0 where none is stated), `sum`, `checksum_right` (null where none is stated),
/// `objects`, `words`, and `routines` and `instructions`, or in their place what is at fault: `code`, `address`, and of an instruction
/// `cause` and `opcode`; then how often code meets each opcode that isn't played, as `unplayed_set_window`. Then comes what stands beside it: `certificate`, the name of the file if there is one, `certificate_code` where it
/// is no certificate of the story, `certificate_readable`, whether it can be read, and of a certificate of the story `certificate_version`, `certificate_frames`, `certificate_routines`,
/// `certificate_instructions`, `certificate_marks` and `certificate_facts`. What there isn't is null. Fails only for want of memory.
pub fn object_of_info(
    alloc: Global,
    file: &str,
    digest: &str,
    info: &Info,
    certificate: &str,
    beside: &Beside,
) -> Result<Vec<u8>, AllocError>
    ensures { IfOk result (λ line. line.items ≡ object_of_info file.now digest.now info.now certificate.now beside.now) }
{
    let file = String::from_str(alloc, file)?;
    let digest = String::from_str(alloc, digest)?;
    let certificate = String::from_str(alloc, certificate)?;
    let code = code_of(alloc, *beside)?;
    let kept = kept_of(*beside);
    let serial = shown_text(alloc, &info.serial)?;
    let address = address_of(alloc, info.code)?;
    let members = [
        Member::new("file", Value::Text(file.as_str())),
        Member::new("sha256", Value::Text(digest.as_str())),
        Member::new("release", Value::Number(u64::from(info.release))),
        Member::new("serial", Value::Text(serial.as_str())),
        Member::new("length", Value::Number(u64::from(info.length))),
        Member::new("checksum", Value::Number(stated_of(info.checksum))),
        Member::new("sum", Value::Number(sum_of(info.checksum))),
        Member::new("checksum_right", right_of(info.checksum)),
        Member::new("objects", Value::Number(u64::from(info.objects))),
        Member::new("words", Value::Number(u64::from(info.words))),
        Member::new("routines", Value::of_number(routines_of(info.code))),
        Member::new("instructions", Value::of_number(instructions_of(info.code))),
        Member::new("code", Value::of_text(fault_of(info.code))),
        Member::new("address", Value::of_text(borrowed(&address))),
        Member::new("cause", Value::of_text(cause_of(info.code))),
        Member::new("opcode", Value::of_text(opcode_of(info.code))),
        Member::new(
            "unplayed_split_window",
            Value::Number(info.unplayed.split_window as u64),
        ),
        Member::new(
            "unplayed_set_window",
            Value::Number(info.unplayed.set_window as u64),
        ),
        Member::new(
            "unplayed_output_stream",
            Value::Number(info.unplayed.output_stream as u64),
        ),
        Member::new(
            "unplayed_input_stream",
            Value::Number(info.unplayed.input_stream as u64),
        ),
        Member::new(
            "unplayed_sound_effect",
            Value::Number(info.unplayed.sound_effect as u64),
        ),
        Member::new("certificate", name_of(certificate.as_str(), *beside)),
        Member::new("certificate_code", Value::of_text(borrowed(&code))),
        Member::new("certificate_readable", readable_of(*beside)),
        Member::new("certificate_version", Value::of_number(version_of(kept))),
        Member::new("certificate_frames", Value::of_number(frames_of(kept))),
        Member::new("certificate_routines", Value::of_number(parts_of(kept))),
        Member::new(
            "certificate_instructions",
            Value::of_number(listed_of(kept)),
        ),
        Member::new("certificate_marks", Value::of_number(marks_of(kept))),
        Member::new("certificate_facts", Value::of_number(facts_of(kept))),
    ];
    line_of(alloc, &members)
}

fn stated_of(checksum: Checksum) -> u64
    ensures { result ≡ stated_of checksum }
{
    match checksum {
        Checksum::Right(sum) => u64::from(sum),
        Checksum::Unstated(_) => 0,
        Checksum::Wrong(stated, _) => u64::from(stated),
    }
}

fn sum_of(checksum: Checksum) -> u64
    ensures { result ≡ sum_of checksum }
{
    match checksum {
        Checksum::Right(sum) | Checksum::Unstated(sum) | Checksum::Wrong(_, sum) => {
            u64::from(sum)
        }
    }
}

fn right_of(checksum: Checksum) -> Value<'static>
    ensures { value_of result ≡ right_of checksum }
{
    match checksum {
        Checksum::Right(_) => Value::Flag(true),
        Checksum::Unstated(_) => Value::Nothing,
        Checksum::Wrong(_, _) => Value::Flag(false),
    }
}

fn routines_of(code: Code) -> Option<u64>
    ensures { result ≡ routines_of code }
{
    match code {
        Code::Listed(routines, _) => Some(routines as u64),
        Code::Unlisted(_) => None,
    }
}

fn instructions_of(code: Code) -> Option<u64>
    ensures { result ≡ instructions_of code }
{
    match code {
        Code::Listed(_, instructions) => Some(instructions as u64),
        Code::Unlisted(_) => None,
    }
}

fn fault_of(code: Code) -> Option<&'static str>
    ensures { option_map (λ text. text.now) result ≡ fault_of code }
{
    match code {
        Code::Listed(_, _) => None,
        Code::Unlisted(error) => Some(fault_code(error)),
    }
}

fn address_of(alloc: Global, code: Code) -> Result<Option<String>, AllocError>
    ensures { IfOk result (λ address. option_map string_bytes address ≡ address_of code) }
{
    match code {
        Code::Listed(_, _) => Ok(None),
        Code::Unlisted(error) => {
            let mut address = String::new(alloc);
            push_fault_place(error, &mut address)?;
            Ok(Some(address))
        }
    }
}

/// A text that there may be, as it is lent.
fn borrowed(text: &Option<String>) -> Option<&str>
    ensures { option_map (λ text. text.now) result ≡ option_map string_bytes text.now }
{
    match text {
        Some(text) => Some(text.as_str()),
        None => None,
    }
}

fn cause_of(code: Code) -> Option<&'static str>
    ensures { option_map (λ text. text.now) result ≡ cause_of code }
{
    match code {
        Code::Unlisted(ListError::Decode(_, cause)) => Some(cause_code(cause)),
        _ => None,
    }
}

fn opcode_of(code: Code) -> Option<&'static str>
    ensures { option_map (λ text. text.now) result ≡ opcode_of code }
{
    match code {
        Code::Unlisted(ListError::Decode(_, DecodeError::NotInProfile(opcode))) => {
            Some(opcode.name())
        }
        _ => None,
    }
}

/// The name of the file beside a story, if there is one.
fn name_of<'a>(name: &'a str, beside: Beside) -> Value<'a>
    ensures { value_of result ≡ name_of name.now beside }
{
    match beside {
        Beside::Nothing => Value::Nothing,
        Beside::Unreadable(_) | Beside::Closed | Beside::OfAnother | Beside::Own(_) => {
            Value::Text(name)
        }
    }
}

/// Whether it can be read, if it is there.
fn readable_of(beside: Beside) -> Value<'static>
    ensures { value_of result ≡ readable_of beside }
{
    match beside {
        Beside::Nothing => Value::Nothing,
        Beside::Closed => Value::Flag(false),
        Beside::Unreadable(_) | Beside::OfAnother | Beside::Own(_) => Value::Flag(true),
    }
}

/// The code of why it is no certificate of the story, if it isn't.
fn code_of(alloc: Global, beside: Beside) -> Result<Option<String>, AllocError>
    ensures { IfOk result (λ code. option_map string_bytes code ≡ code_of beside) }
{
    match beside {
        Beside::Nothing | Beside::Closed | Beside::Own(_) => Ok(None),
        Beside::Unreadable(number) => {
            let mut code = String::from_str(alloc, "K")?;
            code.push_str(Buffer::new().format(number))?;
            Ok(Some(code))
        }
        Beside::OfAnother => Ok(Some(String::from_str(alloc, "S1")?)),
    }
}

/// What the certificate of the story has, if there is one.
fn kept_of(beside: Beside) -> Option<Kept>
    ensures { result ≡ kept_of beside }
{
    match beside {
        Beside::Own(kept) => Some(kept),
        Beside::Nothing | Beside::Unreadable(_) | Beside::Closed | Beside::OfAnother => None,
    }
}

fn version_of(kept: Option<Kept>) -> Option<u64>
    ensures { result ≡ version_of kept }
{
    Some(u64::from(kept?.version))
}

fn frames_of(kept: Option<Kept>) -> Option<u64>
    ensures { result ≡ frames_of kept }
{
    Some(u64::from(kept?.frames?))
}

fn parts_of(kept: Option<Kept>) -> Option<u64>
    ensures { result ≡ parts_of kept }
{
    Some(kept?.routines as u64)
}

fn listed_of(kept: Option<Kept>) -> Option<u64>
    ensures { result ≡ listed_of kept }
{
    Some(kept?.instructions as u64)
}

fn marks_of(kept: Option<Kept>) -> Option<u64>
    ensures { result ≡ marks_of kept }
{
    Some(kept?.marks as u64)
}

fn facts_of(kept: Option<Kept>) -> Option<u64>
    ensures { result ≡ facts_of kept }
{
    Some(kept?.facts as u64)
}

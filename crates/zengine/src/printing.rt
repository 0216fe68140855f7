//! What is printed.

ghost use Rattle.std.specs.Prelude.{◌≡◌, ◌∷◌, [], ℕ, List, Ok, Err, IfErr, IfOk, length};
ghost use Rattle.std.specs.Fmt.{signed_decimal};
ghost use Rattle.zobj.specs.Entries.{HasTable};
ghost use Rattle.zobj.specs.Names.{short_name};
ghost use Rattle.ztext.specs.Output.{output_at, output_of_code};
ghost use Rattle.zword.specs.Binary.{signed};
ghost use Rattle.zstory.specs.LoadedStory.{LoadedStory};
ghost use Rattle.zstate.specs.State.{State, Setting, fault};
ghost use Rattle.zstate.specs.Step.{effect_of, naming, of_object, printed, printing};
ghost use Rattle.zengine.specs.Doing.{IsPrinted, IsTextAt, MayPrint, named_at, operation_printed, read_printed};
ghost use Rattle.zengine.specs.declared.doing.Printing.TheVariants as printings;

use crate::doing::Printing;
use crate::objects::object_of;
use itoa::Buffer;
use zfault::Fault;
use zobj::{ShortName, short_name};
use ztext::{TextError, decode_into, judge_text, output_byte};

/// Why nothing is printed.
#[derive(Clone, Copy)]
pub enum Unprinted {
    /// It can't be.
    Fault(Fault),
    /// Memory is wanted for it.
    Memory,
}

/// Makes a buffer the bytes of what is printed.
#[tactic(auto, unfolding(zstate::specs::Step::effect_of))]
pub(crate) fn print(
    printing: Printing,
    memory: &[u8],
    objects: u8,
    at: usize,
    word: u16,
    text: &mut Vec<u8>,
) -> Result<(), Unprinted>
    requires table { HasTable memory.now objects }
    ensures { (m : Setting) (t : State) → m.story.objects ≡ objects → t.memory ≡ memory.now → IsTextAt printing t.place at → IsPrinted result text.new.items (effect_of m (operation_printed printing) (read_printed printing word) t) }
{
    text.clear();
    match printing {
        Printing::Text => decoded(memory, at, text),
        Printing::Character => character(word, text),
        Printing::Number => number(word, text),
        Printing::Line => byte(b'\n', text),
        Printing::Name => name(memory, objects, word, text),
        Printing::At(addressing) => decoded(memory, addressing.place(word), text),
    }
}

/// The text at a place of memory is decoded.
pub(crate) fn decoded(memory: &[u8], place: usize, text: &mut Vec<u8>) -> Result<(), Unprinted>
    requires { text.old.items ≡ [] }
    ensures { IsPrinted result text.new.items (printed (output_at memory.now place)) }
{
    match decode_into(memory, place, text) {
        Ok(_) => Ok(()),
        Err(TextError::OutOfMemory) => Err(Unprinted::Memory),
        Err(_) => Err(Unprinted::Fault(Fault::TextOutside)),
    }
}

/// Whether something can be printed, of which no byte is made.
#[tactic(auto, unfolding(zstate::specs::Step::effect_of))]
pub(crate) fn may_print(
    printing: Printing,
    memory: &[u8],
    objects: u8,
    at: usize,
    word: u16,
) -> Result<(), Fault>
    requires table { HasTable memory.now objects }
    ensures { (m : Setting) (t : State) → m.story.objects ≡ objects → t.memory ≡ memory.now → IsTextAt printing t.place at → MayPrint result (effect_of m (operation_printed printing) (read_printed printing word) t) }
{
    match printing {
        Printing::Text => may_decode(memory, at),
        Printing::Character => Ok(()),
        Printing::Number => Ok(()),
        Printing::Line => Ok(()),
        Printing::Name => may_name(memory, objects, word),
        Printing::At(addressing) => may_decode(memory, addressing.place(word)),
    }
}

/// Whether the text at a place of memory can be decoded.
pub(crate) fn may_decode(memory: &[u8], place: usize) -> Result<(), Fault>
    ensures { MayPrint result (printed (output_at memory.now place)) }
{
    match judge_text(memory, place) {
        Ok(()) => Ok(()),
        Err(_) => Err(Fault::TextOutside),
    }
}

/// Whether the short name of the object of a number can be decoded.
pub(crate) fn may_name(memory: &[u8], objects: u8, number: u16) -> Result<(), Fault>
    requires { HasTable memory.now objects }
    ensures { (story : LoadedStory) → story.objects ≡ objects → MayPrint result (of_object story number (naming (short_name memory.now number) memory.now)) }
{
    match name_place(memory, objects, number) {
        Ok(Some(place)) => may_decode(memory, place),
        Ok(None) => Ok(()),
        Err(fault) => Err(fault),
    }
}

/// The character of a code.
fn character(code: u16, text: &mut Vec<u8>) -> Result<(), Unprinted>
    requires { text.old.items ≡ [] }
    ensures { IsPrinted result text.new.items (Ok (printing (output_of_code code))) }
{
    match output_byte(code) {
        Some(printed) => byte(printed, text),
        None => Ok(()),
    }
}

/// A number in signed decimals.
fn number(word: u16, text: &mut Vec<u8>) -> Result<(), Unprinted>
    requires { text.old.items ≡ [] }
    ensures { IsPrinted result text.new.items (Ok (printing (signed_decimal (signed word)))) }
{
    let mut buffer = Buffer::new();
    let digits = buffer.format(word.cast_signed());
    match text.extend_from_slice(digits.as_bytes()) {
        Ok(()) => Ok(()),
        Err(_) => Err(Unprinted::Memory),
    }
}

/// One byte.
fn byte(byte: u8, text: &mut Vec<u8>) -> Result<(), Unprinted>
    requires { text.old.items ≡ [] }
    ensures { IsPrinted result text.new.items (Ok (printing (byte ∷ []))) }
{
    match text.push(byte) {
        Ok(()) => Ok(()),
        Err(_) => Err(Unprinted::Memory),
    }
}

/// The short name of the object of a number.
pub(crate) fn name(
    memory: &[u8],
    objects: u8,
    number: u16,
    text: &mut Vec<u8>,
) -> Result<(), Unprinted>
    requires objects { HasTable memory.now objects }
    requires clear { text.old.items ≡ [] }
    ensures { (story : LoadedStory) → story.objects ≡ objects → IsPrinted result text.new.items (of_object story number (naming (short_name memory.now number) memory.now)) }
{
    match name_place(memory, objects, number) {
        Ok(Some(place)) => decoded(memory, place, text),
        Ok(None) => Ok(()),
        Err(fault) => Err(Unprinted::Fault(fault)),
    }
}

/// Where the text of the short name of the object of a number begins, or none where the name is empty.
fn name_place(memory: &[u8], objects: u8, number: u16) -> Result<Option<usize>, Fault>
    requires { HasTable memory.now objects }
    ensures ok { (story : LoadedStory) → story.objects ≡ objects → IfOk result (λ place. of_object story number (naming (short_name memory.now number) memory.now) ≡ named_at place memory.now) }
    ensures err { (story : LoadedStory) → story.objects ≡ objects → IfErr result (λ f. of_object story number (naming (short_name memory.now number) memory.now) ≡ fault f) }
{
    let object = object_of::<true>(number, objects)?;
    match short_name(memory, object) {
        ShortName::Empty => Ok(None),
        ShortName::At(place) => Ok(Some(place)),
        ShortName::Outside => Err(Fault::TextOutside),
    }
}

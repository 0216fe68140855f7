//! The operands of an instruction, in words.

ghost use Rattle.std.specs.Prelude.{◌≡◌, ◌++◌, IfOk, decimal};
ghost use Rattle.std.specs.Fmt.{signed_decimal};
ghost use Rattle.zdomain.specs.Interval.{signed};
ghost use Rattle.zperform.specs.Operands.{constant_text, meaning_at, number_text, operand_part, operand_text, operands_text, separator, variable_text};
ghost use Rattle.zcert.specs.Listed.{seen};
ghost use Rattle.zperform.specs.Showing.{told_line, whole_line};

use crate::claims::{FIRST_GLOBAL, add_unspelled};
use crate::listing::add_address;
use crate::told::{Told, add_number};
use itoa::Buffer;
use std::alloc::AllocError;
use zcert::Instruction;
use zcode::{Instr, Opcode, Operand};

/// What an operand stands for (Z 15).
#[derive(Clone, Copy, Debug, PartialEq, Eq)]
pub enum Meaning {
    /// A number, or what isn't said here.
    Number,
    /// An object.
    Object,
    /// An attribute of an object.
    Attribute,
    /// A property of an object.
    Property,
    /// A variable, by its number.
    Variable,
    /// A routine, by its packed address.
    Routine,
}

/// Adds the line of a listed instruction as `list` writes it, with its operands, where one stands there.
pub fn add_told<V: Told>(
    listed: &Instruction<'_, V>,
    there: Option<Instr>,
    text: &mut Vec<u8>,
) -> Result<(), AllocError>
    ensures { IfOk result (λ _. text.new.items ≡ text.old.items ++ told_line (seen listed.now) there) }
{
    match there {
        Some(instruction) => add_whole(listed.address, listed.routine, &instruction, text),
        None => add_unspelled(listed.address, listed.routine, text),
    }
}

/// Adds the line of an instruction with its operands.
fn add_whole(
    address: u32,
    routine: u16,
    instruction: &Instr,
    text: &mut Vec<u8>,
) -> Result<(), AllocError>
    ensures { IfOk result (λ _. text.new.items ≡ text.old.items ++ whole_line address routine instruction.now) }
{
    add_address(address, text)?;
    text.push(b' ')?;
    text.extend_from_slice(Buffer::new().format(routine).as_bytes())?;
    text.push(b' ')?;
    text.extend_from_slice(instruction.opcode().name().as_bytes())?;
    add_operands(instruction, text)?;
    text.push(b'\n')?;
    Ok(())
}

/// Adds the operands of an instruction, with a space before the first and a comma between two.
fn add_operands(instruction: &Instr, text: &mut Vec<u8>) -> Result<(), AllocError>
    ensures { IfOk result (λ _. text.new.items ≡ text.old.items ++ operands_text instruction.now.opcode instruction.now.operands) }
{
    let operands = instruction.operands();
    add_parts(instruction.opcode(), operands.as_slice(), text)
}

/// Adds the operands of an opcode, each behind what stands before it.
fn add_parts(opcode: Opcode, operands: &[Operand], text: &mut Vec<u8>) -> Result<(), AllocError>
    ensures { IfOk result (λ _. text.new.items ≡ text.old.items ++ operands_text opcode operands.now) }
{
    for place in 0..operands.len() {
        add_part(opcode, place, operands[place], text)?;
    }
    Ok(())
}

/// Adds the operand of an opcode at a place, behind what stands before it.
fn add_part(
    opcode: Opcode,
    place: usize,
    operand: Operand,
    text: &mut Vec<u8>,
) -> Result<(), AllocError>
    ensures { IfOk result (λ _. text.new.items ≡ text.old.items ++ operand_part opcode place operand) }
{
    add_separator(place, text)?;
    add_operand(meaning_at(opcode, place), operand, text)
}

/// Adds what stands before the operand at a place.
fn add_separator(place: usize, text: &mut Vec<u8>) -> Result<(), AllocError>
    ensures { IfOk result (λ _. text.new.items ≡ text.old.items ++ separator place) }
{
    if place == 0 {
        text.extend_from_slice(b" ")
    } else {
        text.extend_from_slice(b", ")
    }
}

/// What the operand at a place stands for, of which the first is 0.
fn meaning_at(opcode: Opcode, place: usize) -> Meaning
    ensures { result ≡ meaning_at opcode place }
{
    match place {
        0 => first_meaning(opcode),
        1 => second_meaning(opcode),
        _ => Meaning::Number,
    }
}

/// What the first operand stands for.
fn first_meaning(opcode: Opcode) -> Meaning
    ensures { result ≡ meaning_at opcode 0 }
{
    match opcode {
        Opcode::Jin
        | Opcode::InsertObj
        | Opcode::TestAttr
        | Opcode::SetAttr
        | Opcode::ClearAttr
        | Opcode::GetProp
        | Opcode::GetPropAddr
        | Opcode::GetNextProp
        | Opcode::PutProp
        | Opcode::GetSibling
        | Opcode::GetChild
        | Opcode::GetParent
        | Opcode::RemoveObj
        | Opcode::PrintObj => Meaning::Object,
        Opcode::Inc
        | Opcode::Dec
        | Opcode::IncChk
        | Opcode::DecChk
        | Opcode::Load
        | Opcode::Store
        | Opcode::Pull => Meaning::Variable,
        Opcode::Call => Meaning::Routine,
        _ => Meaning::Number,
    }
}

/// What the second operand stands for.
fn second_meaning(opcode: Opcode) -> Meaning
    ensures { result ≡ meaning_at opcode 1 }
{
    match opcode {
        Opcode::Jin | Opcode::InsertObj => Meaning::Object,
        Opcode::TestAttr | Opcode::SetAttr | Opcode::ClearAttr => Meaning::Attribute,
        Opcode::GetProp | Opcode::GetPropAddr | Opcode::GetNextProp | Opcode::PutProp => {
            Meaning::Property
        }
        _ => Meaning::Number,
    }
}

/// Adds an operand that stands for something.
fn add_operand(meaning: Meaning, operand: Operand, text: &mut Vec<u8>) -> Result<(), AllocError>
    ensures { IfOk result (λ _. text.new.items ≡ text.old.items ++ operand_text meaning operand) }
{
    match operand {
        Operand::Constant(value) => add_constant(meaning, value, text),
        Operand::Variable(number) if meaning == Meaning::Variable => {
            text.push(b'[')?;
            add_variable(number, text)?;
            text.push(b']')?;
            Ok(())
        }
        Operand::Variable(number) => add_variable(number, text),
    }
}

/// Adds a constant that stands for something.
fn add_constant(meaning: Meaning, value: u16, text: &mut Vec<u8>) -> Result<(), AllocError>
    ensures { IfOk result (λ _. text.new.items ≡ text.old.items ++ constant_text meaning value) }
{
    match meaning {
        Meaning::Number => add_number(value, text),
        Meaning::Object => add_named(b"object ", value, text),
        Meaning::Attribute => add_named(b"attribute ", value, text),
        Meaning::Property => add_named(b"property ", value, text),
        Meaning::Variable => add_variable_number(value, text),
        Meaning::Routine => {
            text.extend_from_slice(b"routine ")?;
            add_address(2 * u32::from(value), text)
        }
    }
}

/// Adds a word and a number behind it.
fn add_named(name: &[u8], number: u16, text: &mut Vec<u8>) -> Result<(), AllocError>
    ensures { IfOk result (λ _. text.new.items ≡ text.old.items ++ name.now ++ decimal number) }
{
    text.extend_from_slice(name)?;
    text.extend_from_slice(Buffer::new().format(number).as_bytes())
}

/// Adds what a number that is taken for a variable's names.
fn add_variable_number(number: u16, text: &mut Vec<u8>) -> Result<(), AllocError>
    ensures { IfOk result (λ _. text.new.items ≡ text.old.items ++ number_text number) }
{
    match u8::try_from(number) {
        Ok(number) => add_variable(number, text),
        Err(_) => add_named(b"variable ", number, text),
    }
}

/// Adds a variable: the stack, a local, or a global.
fn add_variable(number: u8, text: &mut Vec<u8>) -> Result<(), AllocError>
    ensures { IfOk result (λ _. text.new.items ≡ text.old.items ++ variable_text number) }
{
    match number {
        0 => text.extend_from_slice(b"stack"),
        1..FIRST_GLOBAL => add_named(b"local ", u16::from(number), text),
        _ => add_named(b"global ", u16::from(number), text),
    }
}

//! Reading an instruction, in one pass. Each function hands on the bytes after what it read.

ghost use Rattle.std.specs.Prelude.{◌≡◌, ◌/◌, ◌%◌, ◌<◌, ◌≤◌, ◌+◌, ◌-◌, length, drop, IfOk, Ok};
ghost use Rattle.zcode.specs.Instruction.{Instruction};
ghost use Rattle.zcode.specs.Spelling.{IsAtFront, type_of, types_of};
ghost use Rattle.zcode.specs.Reading.{Gives, first_byte, long_head, short_head, variable_head, checked_head, head_at, operand_at, operands_at, store_if, branch_at, branch_if, text_if, instruction_at};

use crate::error::DecodeError;
use crate::instr::{Branch, Instr, Operand};
use crate::opcode::Opcode;
use crate::operands::Operands;
use crate::table::{OperandCount, opcode_of};
use crate::types::{OperandType, long_types, short_types, type_count, type_of};
use std::marker::Model;
use ztext::TextEnds;

/// What the bytes before the operands say: the types as a type byte names them.
#[derive(Drop)]
struct Head {
    opcode: Opcode,
    types: u8,
}

impl Model for Head {
    ghost use Rattle.zcode.specs.Reading.{Head as HeadValue};

    ghost Value = { HeadValue };

    ghost use Rattle.zcode.specs.Spelling.{types_of};

    ghost view = { λ h. record { opcode = h.opcode; operand_types = types_of h.types } };
}

#[inline(always)]
fn first_byte(bytes: &[u8]) -> Result<(u8, &[u8]), DecodeError>
    ensures { Gives (λ x. (x.0, x.1.now)) result (first_byte bytes.now) }
{
    match bytes {
        [] => Err(DecodeError::Truncated),
        [first, rest @ ..] => Ok((*first, rest)),
    }
}

/// The head of an opcode with so many types, as a type byte names them, if it takes so many operands.
#[inline(always)]
#[tactic(auto, unfolding(crate::specs::Reading::checked_head))]
fn checked_head(opcode: Opcode, types: u8, count: usize) -> Result<Head, DecodeError>
    requires { count ≡ length (types_of types) }
    ensures { result ≡ checked_head opcode (types_of types) }
{
    let (fewest, most) = opcode.operand_bounds();
    if count < fewest || most < count {
        return Err(DecodeError::Operands);
    }
    Ok(Head { opcode, types })
}

#[inline(always)]
#[tactic(auto, unfolding(crate::specs::Reading::long_head))]
fn long_head(first: u8) -> Result<Head, DecodeError>
    ensures { result ≡ long_head first }
{
    let opcode = opcode_of(OperandCount::Two, first & 0x1f)?;
    checked_head(opcode, long_types(first), 2)
}

#[inline(always)]
#[tactic(auto, unfolding(crate::specs::Reading::short_head))]
fn short_head(first: u8) -> Result<Head, DecodeError>
    ensures { result ≡ short_head first (type_of (first / 16 % 4)) }
{
    let bits = (first >> 4) & 3;
    let types = short_types(bits);
    match type_of(bits) {
        Some(_) => {
            let opcode = opcode_of(OperandCount::One, first & 0x0f)?;
            checked_head(opcode, types, 1)
        }
        None => {
            let opcode = opcode_of(OperandCount::Zero, first & 0x0f)?;
            checked_head(opcode, types, 0)
        }
    }
}

#[inline(always)]
#[tactic(auto, unfolding(crate::specs::Reading::variable_head))]
fn variable_head(count: OperandCount, first: u8, bytes: &[u8]) -> Result<(Head, &[u8]), DecodeError>
    ensures { Gives (λ x. (x.0, x.1.now)) result (variable_head count first bytes.now) }
{
    let opcode = opcode_of(count, first & 0x1f)?;
    let (types, rest) = first_byte(bytes)?;
    Ok((checked_head(opcode, types, type_count(types))?, rest))
}

#[inline(always)]
#[tactic(auto, unfolding(crate::specs::Reading::head_at))]
fn head_at(bytes: &[u8]) -> Result<(Head, &[u8]), DecodeError>
    ensures { Gives (λ x. (x.0, x.1.now)) result (head_at bytes.now) }
{
    let (first, rest) = first_byte(bytes)?;
    match first {
        0..0x80 => Ok((long_head(first)?, rest)),
        0x80..0xc0 => Ok((short_head(first)?, rest)),
        0xc0..0xe0 => variable_head(OperandCount::Two, first, rest),
        _ => variable_head(OperandCount::Many, first, rest),
    }
}

#[inline(always)]
#[tactic(auto, unfolding(crate::specs::Reading::operand_at))]
fn operand_at(operand_type: OperandType, bytes: &[u8]) -> Result<(Operand, &[u8]), DecodeError>
    ensures { Gives (λ x. (x.0, x.1.now)) result (operand_at operand_type bytes.now) }
{
    let (first, rest) = first_byte(bytes)?;
    match operand_type {
        OperandType::Large => {
            let (low, rest) = first_byte(rest)?;
            Ok((Operand::Constant(u16::from_be_bytes([first, low])), rest))
        }
        OperandType::Small => Ok((Operand::Constant(u16::from(first)), rest)),
        OperandType::Variable => Ok((Operand::Variable(first), rest)),
    }
}

/// The operands of these types, as a type byte names them. What is omitted costs nothing.
#[inline(always)]
#[tactic(auto, unfolding(crate::specs::Reading::operands_at))]
fn operands_at(types: u8, bytes: &[u8]) -> Result<(Operands, &[u8]), DecodeError>
    ensures { Gives (λ x. (x.0, x.1.now)) result (operands_at (types_of types) bytes.now) }
{
    let Some(first) = type_of(types >> 6) else {
        return Ok((Operands::none(), bytes));
    };
    let (a, rest) = operand_at(first, bytes)?;
    let Some(second) = type_of((types >> 4) & 3) else {
        return Ok((Operands::one(a), rest));
    };
    let (b, rest) = operand_at(second, rest)?;
    let Some(third) = type_of((types >> 2) & 3) else {
        return Ok((Operands::two(a, b), rest));
    };
    let (c, rest) = operand_at(third, rest)?;
    let Some(fourth) = type_of(types & 3) else {
        return Ok((Operands::three(a, b, c), rest));
    };
    let (d, rest) = operand_at(fourth, rest)?;
    Ok((Operands::four(a, b, c, d), rest))
}

#[inline(always)]
#[tactic(auto, unfolding(crate::specs::Reading::store_if))]
fn store_if(stores: bool, bytes: &[u8]) -> Result<(Option<u8>, &[u8]), DecodeError>
    ensures { Gives (λ x. (x.0, x.1.now)) result (store_if stores bytes.now) }
{
    if !stores {
        return Ok((None, bytes));
    }
    let (byte, rest) = first_byte(bytes)?;
    Ok((Some(byte), rest))
}

#[inline(always)]
#[tactic(auto, unfolding(crate::specs::Reading::branch_at))]
fn branch_at(bytes: &[u8]) -> Result<(Branch, &[u8]), DecodeError>
    ensures { Gives (λ x. (x.0, x.1.now)) result (branch_at bytes.now) }
{
    let (first, rest) = first_byte(bytes)?;
    let sense = first >> 7 == 1;
    if (first >> 6) & 1 == 1 {
        let offset = i16::from(first & 0x3f);
        return Ok((Branch { sense, offset }, rest));
    }
    let (second, rest) = first_byte(rest)?;
    let bits = u16::from_be_bytes([first & 0x3f, second]);
    // Bit 13 is the sign.
    let offset = if bits < 0x2000 {
        bits as i16
    } else {
        bits as i16 - 0x4000
    };
    Ok((Branch { sense, offset }, rest))
}

#[inline(always)]
#[tactic(auto, unfolding(crate::specs::Reading::branch_if))]
fn branch_if(branches: bool, bytes: &[u8]) -> Result<(Option<Branch>, &[u8]), DecodeError>
    ensures { Gives (λ x. (x.0, x.1.now)) result (branch_if branches bytes.now) }
{
    if !branches {
        return Ok((None, bytes));
    }
    let (branch, rest) = branch_at(bytes)?;
    Ok((Some(branch), rest))
}

/// Where the text ends that begins with these bytes of the memory, the last ones.
#[inline(always)]
#[tactic(auto, unfolding(crate::specs::Reading::text_if))]
fn text_if<'a>(
    prints: bool,
    ends: &mut TextEnds<'a>,
    bytes: &'a [u8],
) -> Result<&'a [u8], DecodeError>
    requires { bytes.now ≡ drop (length ends.old - length bytes.now) ends.old }
    ensures memory { ends.new ≡ ends.old }
    ensures reads { Gives (λ x. x.now) result (text_if prints bytes.now) }
{
    if !prints {
        return Ok(bytes);
    }
    let place = ends.memory().len().saturating_sub(bytes.len());
    match ends.text_length(place) {
        Some(size) => Ok(&bytes[size..]),
        None => Err(DecodeError::Text),
    }
}

/// The instruction at the front of the last bytes of the memory.
#[inline(always)]
#[tactic(auto, unfolding(crate::specs::Reading::instruction_at))]
fn instruction_at<'a>(ends: &mut TextEnds<'a>, bytes: &'a [u8]) -> Result<Instr, DecodeError>
    requires { bytes.now ≡ drop (length ends.old - length bytes.now) ends.old }
    ensures memory { ends.new ≡ ends.old }
    ensures reads { result ≡ instruction_at bytes.now }
{
    let (head, rest) = head_at(bytes)?;
    let opcode = head.opcode;
    let (operands, rest) = match operands_at(head.types, rest) {
        Ok(read) => read,
        Err(error) => return Err(error),
    };
    let (store, rest) = store_if(opcode.stores(), rest)?;
    let (branch, rest) = branch_if(opcode.branches(), rest)?;
    let rest = text_if(opcode.prints_text(), ends, rest)?;
    let length = bytes.len().saturating_sub(rest.len());
    Ok(Instr::new(opcode, operands, store, branch, length))
}

/// The instruction at the place `at` of `memory` (Z 4), or the first thing that is wrong there. It takes no memory.
///
/// The opcode is judged first: J2 where no opcode has the number, J3 where the profile leaves it out. Then come, in
/// reading order, J1 where the bytes end, J4 at the type byte, and J5 at the text.
pub fn decode(memory: &[u8], at: usize) -> Result<Instr, DecodeError>
    // What is read is spelled there.
    ensures found { IfOk result (λ i. IsAtFront (drop at memory.now) i) }
    // What is spelled there is read.
    ensures only { (i : Instruction) → IsAtFront (drop at memory.now) i → result ≡ Ok i }
    // Which fault it is.
    ensures exact { result ≡ instruction_at (drop at memory.now) }
    ensures within { IfOk result (λ i. at + i.size ≤ length memory.now) }
{
    decode_by(&mut TextEnds::new(memory), at)
}

/// What `decode` answers of the memory of these texts. An inline text whose end is known isn't gone over again, so that
/// instructions that are read by rising places take no longer together than going over memory a few times.
pub fn decode_by(ends: &mut TextEnds<'_>, at: usize) -> Result<Instr, DecodeError>
    ensures memory { ends.new ≡ ends.old }
    ensures found { IfOk result (λ i. IsAtFront (drop at ends.old) i) }
    ensures only { (i : Instruction) → IsAtFront (drop at ends.old) i → result ≡ Ok i }
    ensures exact { result ≡ instruction_at (drop at ends.old) }
    ensures within { IfOk result (λ i. at + i.size ≤ length ends.old) }
{
    let memory = ends.memory();
    if memory.len() <= at {
        return Err(DecodeError::Truncated);
    }
    instruction_at(ends, &memory[at..])
}

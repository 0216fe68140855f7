//! The opcodes by operand count and number.

ghost use Rattle.std.specs.Prelude.{◌≡◌, Err};
ghost use Rattle.zcode.specs.Opcodes.{opcode_of};

use crate::error::DecodeError;
use crate::opcode::{Excluded, Opcode};

/// The operand counts by which opcodes are numbered (Z 4.3). How many operands an opcode takes is
/// `Opcode::operand_bounds`.
#[derive(Clone, Copy, Debug, PartialEq, Eq)]
pub enum OperandCount {
    /// 2OP.
    Two,
    /// 1OP.
    One,
    /// 0OP.
    Zero,
    /// VAR.
    Many,
}

/// The opcode of a number, or why there is none.
#[inline(always)]
pub(crate) fn opcode_of(count: OperandCount, number: u8) -> Result<Opcode, DecodeError>
    ensures { result ≡ opcode_of count number }
{
    match count {
        OperandCount::Two => two_operands(number),
        OperandCount::One => one_operand(number),
        OperandCount::Zero => no_operand(number),
        OperandCount::Many => many_operands(number),
    }
}

#[inline(always)]
fn two_operands(number: u8) -> Result<Opcode, DecodeError>
    ensures { result ≡ opcode_of OperandCount.Two number }
{
    match number {
        0 => Err(DecodeError::NoSuchOpcode),
        1 => Ok(Opcode::Je),
        2 => Ok(Opcode::Jl),
        3 => Ok(Opcode::Jg),
        4 => Ok(Opcode::DecChk),
        5 => Ok(Opcode::IncChk),
        6 => Ok(Opcode::Jin),
        7 => Ok(Opcode::Test),
        8 => Ok(Opcode::Or),
        9 => Ok(Opcode::And),
        10 => Ok(Opcode::TestAttr),
        11 => Ok(Opcode::SetAttr),
        12 => Ok(Opcode::ClearAttr),
        13 => Ok(Opcode::Store),
        14 => Ok(Opcode::InsertObj),
        15 => Ok(Opcode::Loadw),
        16 => Ok(Opcode::Loadb),
        17 => Ok(Opcode::GetProp),
        18 => Ok(Opcode::GetPropAddr),
        19 => Ok(Opcode::GetNextProp),
        20 => Ok(Opcode::Add),
        21 => Ok(Opcode::Sub),
        22 => Ok(Opcode::Mul),
        23 => Ok(Opcode::Div),
        24 => Ok(Opcode::Mod),
        _ => Err(DecodeError::NoSuchOpcode),
    }
}

#[inline(always)]
fn one_operand(number: u8) -> Result<Opcode, DecodeError>
    ensures { result ≡ opcode_of OperandCount.One number }
{
    match number {
        0 => Ok(Opcode::Jz),
        1 => Ok(Opcode::GetSibling),
        2 => Ok(Opcode::GetChild),
        3 => Ok(Opcode::GetParent),
        4 => Ok(Opcode::GetPropLen),
        5 => Ok(Opcode::Inc),
        6 => Ok(Opcode::Dec),
        7 => Ok(Opcode::PrintAddr),
        9 => Ok(Opcode::RemoveObj),
        10 => Ok(Opcode::PrintObj),
        11 => Ok(Opcode::Ret),
        12 => Ok(Opcode::Jump),
        13 => Ok(Opcode::PrintPaddr),
        14 => Ok(Opcode::Load),
        15 => Ok(Opcode::Not),
        _ => Err(DecodeError::NoSuchOpcode),
    }
}

#[inline(always)]
fn no_operand(number: u8) -> Result<Opcode, DecodeError>
    ensures { result ≡ opcode_of OperandCount.Zero number }
{
    match number {
        0 => Ok(Opcode::Rtrue),
        1 => Ok(Opcode::Rfalse),
        2 => Ok(Opcode::Print),
        3 => Ok(Opcode::PrintRet),
        4 => Ok(Opcode::Nop),
        5 => Ok(Opcode::Save),
        6 => Ok(Opcode::Restore),
        7 => Ok(Opcode::Restart),
        8 => Ok(Opcode::RetPopped),
        9 => Ok(Opcode::Pop),
        10 => Ok(Opcode::Quit),
        11 => Ok(Opcode::NewLine),
        12 => Ok(Opcode::ShowStatus),
        13 => Ok(Opcode::Verify),
        _ => Err(DecodeError::NoSuchOpcode),
    }
}

#[inline(always)]
fn many_operands(number: u8) -> Result<Opcode, DecodeError>
    ensures { result ≡ opcode_of OperandCount.Many number }
{
    match number {
        0 => Ok(Opcode::Call),
        1 => Ok(Opcode::Storew),
        2 => Ok(Opcode::Storeb),
        3 => Ok(Opcode::PutProp),
        4 => Ok(Opcode::Sread),
        5 => Ok(Opcode::PrintChar),
        6 => Ok(Opcode::PrintNum),
        7 => Ok(Opcode::Random),
        8 => Ok(Opcode::Push),
        9 => Ok(Opcode::Pull),
        10 => excluded(Excluded::SplitWindow),
        11 => excluded(Excluded::SetWindow),
        19 => excluded(Excluded::OutputStream),
        20 => excluded(Excluded::InputStream),
        21 => excluded(Excluded::SoundEffect),
        _ => Err(DecodeError::NoSuchOpcode),
    }
}

/// The refusal of an opcode that the profile leaves out.
fn excluded(opcode: Excluded) -> Result<Opcode, DecodeError>
    ensures { result ≡ Err (DecodeError.NotInProfile opcode) }
{
    Err(DecodeError::NotInProfile(opcode))
}

//! The messages of errors, of which no clause says anything.

use std::alloc::Global;
use std::fmt::Display;
use std::test::Fail;
use zcert::CertError;
use zcode::{DecodeError, Excluded};
use zfault::Fault;
use zstory::LoadError;

/// Whether each of these has the message that stands beside it.
pub(crate) fn are_told<T: Display>(alloc: Global, told: &[(T, &str)]) -> Result<bool, Fail> {
    for (error, text) in told {
        let message = format!(in alloc; "{}", error)?;
        if message.as_str() != *text {
            return Ok(false);
        }
    }
    Ok(true)
}

#[test]
fn faults_are_told(rt: HostRuntime) -> Result<(), Fail> {
    let told = [
        (
            Fault::UnlistedInstruction,
            "no instruction is listed at the place",
        ),
        (
            Fault::IllegalOpcode,
            "the bytes at the place spell no instruction",
        ),
        (
            Fault::UnlistedCall,
            "no routine is listed at the called address",
        ),
        (Fault::StackUnderflow, "the stack is empty"),
        (Fault::AbsentLocal, "the routine has no such local variable"),
        (Fault::AbsentObject, "no object has this number"),
        (Fault::AbsentAttribute, "no attribute has this number"),
        (Fault::AbsentProperty, "the object has no such property"),
        (Fault::PropertyTooLong, "the property is longer than a word"),
        (Fault::ZeroDivisor, "the divisor is zero"),
        (
            Fault::WriteOutside,
            "a write to memory that may not be written",
        ),
        (Fault::ReadOutside, "a read of memory that may not be read"),
        (Fault::TextOutside, "the text can't be decoded"),
        (Fault::SmallBuffer, "the buffer is too small"),
        (Fault::ReturnFromMain, "a return from the main routine"),
        (Fault::BadVariable, "no variable has this number"),
    ];
    assert!(rt; are_told(rt.alloc(), &told)?);
    Ok(())
}

#[test]
fn refused_files_are_told(rt: HostRuntime) -> Result<(), Fail> {
    let told = [
        (LoadError::TooShort, "the file is shorter than 64 bytes"),
        (LoadError::TooLong, "the file is longer than 131072 bytes"),
        (LoadError::NotVersion3, "the story is not of version 3"),
        (
            LoadError::LengthWord,
            "the stated length does not fit the file",
        ),
        (
            LoadError::StaticBase,
            "the base of static memory is out of range",
        ),
        (LoadError::Globals, "the globals are not in dynamic memory"),
        (
            LoadError::Objects,
            "the property defaults are not in dynamic memory",
        ),
        (
            LoadError::Dictionary,
            "the dictionary is not in readable static memory",
        ),
        (
            LoadError::EntryLength,
            "the dictionary entries are too short",
        ),
        (LoadError::DictionaryOrder, "the dictionary is not in order"),
        (
            LoadError::FirstInstruction,
            "the first instruction is out of range",
        ),
        (LoadError::OutOfMemory, "out of memory"),
    ];
    assert!(rt; are_told(rt.alloc(), &told)?);
    Ok(())
}

#[test]
fn refused_certificates_are_told(rt: HostRuntime) -> Result<(), Fail> {
    let told = [
        (CertError::Magic, "not a certificate"),
        (CertError::Version, "the version is not known"),
        (CertError::Truncated, "the certificate is cut off"),
        (CertError::Trailing, "bytes follow the certificate"),
        (CertError::Order, "a field is out of order"),
        (CertError::EmptyInterval, "an interval is empty"),
        (CertError::Limit, "a number is above its limit"),
        (CertError::OutOfMemory, "out of memory"),
    ];
    assert!(rt; are_told(rt.alloc(), &told)?);
    Ok(())
}

#[test]
fn refused_opcodes_are_told(rt: HostRuntime) -> Result<(), Fail> {
    let told = [
        (
            DecodeError::Truncated,
            "the bytes end within the instruction",
        ),
        (DecodeError::NoSuchOpcode, "no opcode has this number"),
        (
            DecodeError::NotInProfile(Excluded::SetWindow),
            "the opcode set_window is not played",
        ),
        (
            DecodeError::Operands,
            "the opcode does not take this number of operands",
        ),
        (DecodeError::Text, "the text has no end"),
    ];
    assert!(rt; are_told(rt.alloc(), &told)?);
    Ok(())
}

//! The fields of a certificate, and which of them comes next.

ghost use Rattle.std.specs.Prelude.{◌≡◌, ⊤};

use std::alloc::AllocError;

/// A field, in the order of the file. Magic and version stand before the first.
#[derive(Copy)]
pub enum Field<V> {
    /// The release number of the story.
    Release(u16),
    /// Its serial number.
    Serial([u8; 6]),
    /// The checksum in its header.
    Checksum(u16),
    /// Its loaded length in bytes.
    LoadedLength(u32),
    /// How many frames may stand above the first, where a limit is named.
    FrameLimit(u16),
    /// How many frozen ranges follow.
    RangeCount(u16),
    /// The first byte of a range.
    RangeFirst(u16),
    /// Its last byte.
    RangeLast(u16),
    /// The values of a global.
    Global(V),
    /// How many routines follow.
    RoutineCount(u16),
    /// Where a routine stands.
    RoutineAddress(u32),
    /// How many locals it has.
    LocalCount(u8),
    /// The values that it may give.
    RoutineResult(V),
    /// How many instructions follow.
    InstructionCount(u32),
    /// Where an instruction stands.
    InstructionAddress(u32),
    /// The number of its routine, from 1 on, or 0 for the main code.
    RoutineNumber(u16),
    /// How many slots the stack of its frame has before it, and where a certificate may mark instructions the mark in bit 7.
    Height(u8),
    /// The values of a local, or, after the locals, of a slot, the bottom first.
    Value(V),
    /// How many facts follow, where facts may be stated.
    FactCount(u32),
    /// Where a fact holds.
    FactAddress(u32),
    /// Of which global it is, counted from variable 16 on.
    FactGlobal(u8),
    /// The values that the global may have there.
    FactValues(V),
}

// By hand, since a derived one goes through all kinds of fields.
impl<V: Copy> Clone for Field<V> {
    ghost is_clone = { λ field copy. copy ≡ field };

    ghost is_infallible = { λ _. ⊤ };

    fn clone(&self) -> Result<Field<V>, AllocError> {
        Ok(*self)
    }
}

/// What is said of an instruction before its values.
#[derive(Clone, Copy)]
pub struct Header {
    /// The byte address of the instruction.
    pub address: u32,
    /// The number of its routine, 0 for the main code.
    pub routine: u16,
    /// How many locals that has.
    pub locals: u8,
    /// How many slots the stack has there.
    pub height: u8,
    /// Whether it is marked.
    pub is_marked: bool,
}

/// The field that comes next, with what is known of an unfinished part. `more` counts what follows after the part that
/// this field belongs to.
#[derive(Clone, Copy)]
pub enum Turn {
    Release,
    Serial,
    Checksum,
    LoadedLength,
    FrameLimit,
    RangeCount,
    RangeFirst {
        more: u16,
    },
    RangeLast {
        more: u16,
        first: u16,
    },
    Global {
        more: u8,
    },
    RoutineCount,
    RoutineAddress {
        more: u16,
    },
    LocalCount {
        more: u16,
        address: u32,
    },
    RoutineResult {
        more: u16,
        address: u32,
        locals: u8,
    },
    InstructionCount,
    InstructionAddress {
        more: u32,
    },
    RoutineNumber {
        more: u32,
        address: u32,
    },
    Height {
        more: u32,
        address: u32,
        routine: u16,
    },
    Value {
        more: u32,
        header: Header,
        left: u16,
    },
    FactCount,
    /// `least` is the least global that may be stated at the address of the fact before.
    FactAddress {
        more: u32,
        least: u8,
    },
    /// `least` is the least global that may be stated at this address.
    FactGlobal {
        more: u32,
        address: u32,
        least: u8,
    },
    FactValues {
        more: u32,
        address: u32,
        global: u8,
    },
    /// No field: the certificate is whole.
    Complete,
}

//! The parts of a certificate.

/// A range of bytes that the certificate states to stay as they are, both ends included.
#[derive(Clone, Copy, Debug, PartialEq, Eq)]
pub struct Range {
    pub first: u16,
    pub last: u16,
}

/// What is said of a routine: its address, how many locals it has, and which values it may give.
#[derive(Clone, Copy, Debug, PartialEq, Eq)]
pub struct Routine<V> {
    pub address: u32,
    pub locals: u8,
    pub result: V,
}

/// What is said of a listed instruction: its address, the number of its routine, from 1 on, or 0 for the main code, whether it is
/// marked, so that its rules aren't asked and it is tested in play, and the values that each local and each slot of the stack may have
/// before it, the bottom slot first.
#[derive(Clone, Copy, Debug)]
pub struct Instruction<'a, V> {
    pub address: u32,
    pub routine: u16,
    pub is_marked: bool,
    pub locals: &'a [V],
    pub slots: &'a [V],
}

/// What is stated of a global at a place: before the instruction at this address its value lies in this set, which may be narrower than
/// the global's own.
#[derive(Clone, Copy, Debug, PartialEq, Eq)]
pub struct Fact<V> {
    pub address: u32,
    /// Which global, counted from variable 16 on: 0 to 239.
    pub global: u8,
    pub values: V,
}

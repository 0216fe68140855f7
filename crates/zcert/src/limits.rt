//! The numbers of the format, and how far a certificate may go (own).

/// The first four bytes of a file: `ZPCC`.
pub const MAGIC: u32 = 0x5A50_4343;

/// The version of the format in which a set of values is an interval.
pub const VERSION: u8 = 1;

/// The version of the format in which it is an interval or a list.
pub const LIST_VERSION: u8 = 2;

/// The version in which it is so too, and a limit of frames is named.
pub const LIMIT_VERSION: u8 = 3;

/// The version in which instructions may be marked besides.
pub const MARK_VERSION: u8 = 4;

/// The version in which facts on globals may be stated too.
pub const FACT_VERSION: u8 = 5;

/// The mark of an instruction: bit 7 of the byte of its height.
pub const MARK: u8 = 0x80;

/// How many globals there are, from variable 16 on (Z 6.2).
pub const GLOBALS: u8 = 240;

/// Addresses are below this number.
pub const ADDRESS_LIMIT: u32 = 131_072;

/// The greatest number of locals of a routine (Z 5.2).
pub const MAX_LOCALS: u8 = 15;

/// The greatest number of instructions that are listed.
pub const MAX_INSTRUCTIONS: u32 = 131_072;

/// The greatest number of frozen ranges, which is any of two bytes.
pub const MAX_RANGES: u16 = 65_535;

/// The greatest number of routines, which is any of two bytes.
pub const MAX_ROUTINES: u16 = 65_535;

/// The greatest height of the stack before an instruction.
pub const MAX_HEIGHT: u8 = 64;

/// The most sets of an instruction: those of its locals, and of its slots.
pub const MAX_SETS: usize = 79;

/// How many frames may stand above the first where a certificate names no limit.
pub const USUAL_FRAMES: u16 = 1024;

/// The greatest limit of frames that a certificate may name.
pub const MAX_FRAMES: u16 = 4096;

/// The bytes of a limit of frames.
pub const LIMIT_BYTES: usize = 2;

/// The bytes of magic, version and identity, and of the three counts.
pub const FIXED_BYTES: usize = 27;

/// The bytes of a range.
pub const RANGE_BYTES: usize = 4;

/// The bytes of an end of an interval.
pub const END_BYTES: usize = 2;

/// The bytes of an interval.
pub const VALUE_BYTES: usize = 2 * END_BYTES;

/// The bytes of the kind of a set.
pub const KIND_BYTES: usize = 1;

/// The bytes of the count of a list's words.
pub const COUNT_BYTES: usize = 1;

/// The bytes of a word of a list.
pub const WORD_BYTES: usize = 2;

/// The bytes of a routine before its result.
pub const ROUTINE_BYTES: usize = 5;

/// The bytes of an instruction before its values.
pub const HEADER_BYTES: usize = 7;

/// The greatest number of facts that are stated.
pub const MAX_FACTS: u32 = 1_048_576;

/// The bytes of the count of facts.
pub const FACT_COUNT_BYTES: usize = 4;

/// The bytes of a fact before its set.
pub const FACT_BYTES: usize = 5;

//! Where the header keeps its numbers (Z 11.1), and the sizes of what it points to.

/// The header's length, and the least length of a story and of dynamic memory (Z 1.1.1).
pub(crate) const LENGTH: usize = 64;

/// The version, a byte.
pub(crate) const VERSION: usize = 0x00;

/// Flags 1, a byte.
pub(crate) const FLAGS: usize = 0x01;

/// The release, a word.
pub(crate) const RELEASE: usize = 0x02;

/// The byte address of the first instruction.
pub(crate) const FIRST_INSTRUCTION: usize = 0x06;

/// The byte address of the dictionary.
pub(crate) const DICTIONARY: usize = 0x08;

/// The byte address of the object table.
pub(crate) const OBJECT_TABLE: usize = 0x0a;

/// The byte address of the globals.
pub(crate) const GLOBALS: usize = 0x0c;

/// The base of static memory.
pub(crate) const STATIC_BASE: usize = 0x0e;

/// The serial number, six bytes.
pub(crate) const SERIAL: usize = 0x12;

/// The byte address of the abbreviations table.
pub(crate) const ABBREVIATIONS: usize = 0x18;

/// Half the length of the file, or 0.
pub(crate) const LENGTH_WORD: usize = 0x1a;

/// The checksum, a word.
pub(crate) const CHECKSUM: usize = 0x1c;

/// The length of the globals in bytes, 240 words (Z 6.2).
pub const GLOBALS_LENGTH: usize = 480;

/// The length of the property defaults in bytes, 31 words, with which the object table begins (Z 12.2).
pub const DEFAULTS_LENGTH: usize = 62;

/// The length of an object's entry in bytes (Z 12.3.1).
pub const OBJECT_ENTRY_LENGTH: usize = 9;

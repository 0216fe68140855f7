//! The numbers of the format (Q 2, 3, 5, 8).

/// `FORM`, with which the file begins.
pub const FORM: u32 = 0x464F_524D;

/// `IFZS`, the kind of the form.
pub const IFZS: u32 = 0x4946_5A53;

/// `IFhd`: the story, and the place.
pub const IFHD: u32 = 0x4946_6864;

/// `UMem`: dynamic memory, as it is.
pub const UMEM: u32 = 0x554D_656D;

/// `CMem`: dynamic memory, compressed.
pub const CMEM: u32 = 0x434D_656D;

/// `Stks`: the frames.
pub const STKS: u32 = 0x5374_6B73;

/// The bytes before the chunks: `FORM`, a length, `IFZS`.
pub const FORM_HEAD: usize = 12;

/// The bytes of a chunk before its data: its letters, and a length.
pub const CHUNK_HEAD: usize = 8;

/// The bytes of `IFhd`.
pub const HEADER_LENGTH: usize = 13;

/// The most bytes that frames take: 4,097 of them, each of 8 bytes, 15 locals and 65,535 words of stack.
pub const LONGEST_STACKS: usize = 537_149_476;

//! The numbers of the format (Q 2, 4, 5, 8).

/// `FORM`, with which the file begins.
pub const FORM: u32 = 0x464F_524D;

/// `IFZS`, the kind of the form.
pub const IFZS: u32 = 0x4946_5A53;

/// `IFhd`: the story, and the place.
pub const IFHD: u32 = 0x4946_6864;

/// `UMem`: dynamic memory, as it is.
pub const UMEM: u32 = 0x554D_656D;

/// `CMem`: dynamic memory, compressed.
pub const CMEM: u32 = 0x434D_656D;

/// `Stks`: the frames.
pub const STKS: u32 = 0x5374_6B73;

/// The bytes before the chunks: `FORM`, a length, `IFZS`.
pub const FORM_HEAD: usize = 12;

/// The bytes of a chunk before its data: its letters, and a length.
pub const CHUNK_HEAD: usize = 8;

/// The bytes of `IFhd`.
pub const HEADER_LENGTH: usize = 13;

/// The bytes of a frame before its words.
pub const FRAME_HEAD: usize = 8;

/// How many locals a frame has at most (Z 5.2).
pub const MOST_LOCALS: u8 = 15;

/// How many frames there may be: 4,096 above the first (own).
pub const MOST_FRAMES: usize = 4097;

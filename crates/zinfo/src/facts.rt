//! Facts of a story, and of the certificate beside it.

use zlist::ListError;

/// What names a story: fields of its header (Z 11.1).
#[derive(Clone, Copy, Debug, PartialEq, Eq)]
pub struct Heading {
    /// The release number.
    pub release: u16,
    /// The serial number, six bytes that needn't be digits.
    pub serial: [u8; 6],
    /// The checksum that is stated, 0 in early files.
    pub checksum: u16,
}

/// The checksum that a header states (Z 11.1), beside the sum that `verify` forms (Z 15).
#[derive(Clone, Copy, Debug, PartialEq, Eq)]
pub enum Checksum {
    /// It is the sum.
    Right(u16),
    /// None is stated, as in early files; the sum.
    Unstated(u16),
    /// The checksum, and another sum.
    Wrong(u16, u16),
}

/// What a story lists.
#[derive(Clone, Copy, Debug, PartialEq, Eq)]
pub enum Code {
    /// How many routines that constant calls name, and how many instructions.
    Listed(usize, usize),
    /// It has no listing, for what is at fault lowest.
    Unlisted(ListError),
}

/// At how many addresses each opcode that isn't played is met, where code leads if they are passed over.
#[derive(Clone, Copy, Debug, PartialEq, Eq)]
pub struct Unplayed {
    /// Dividing the screen.
    pub split_window: usize,
    /// Choosing a window of the screen.
    pub set_window: usize,
    /// Choosing where output goes.
    pub output_stream: usize,
    /// Choosing where input comes from.
    pub input_stream: usize,
    /// Playing a sound.
    pub sound_effect: usize,
}

/// What is told of a story.
#[derive(Clone, Copy, Debug, PartialEq, Eq)]
pub struct Info {
    /// The release number.
    pub release: u16,
    /// The serial number, six bytes that needn't be digits.
    pub serial: [u8; 6],
    /// The loaded length in bytes, 64 to 131,072.
    pub length: u32,
    /// Whether the checksum is right.
    pub checksum: Checksum,
    /// How many objects there are.
    pub objects: u8,
    /// How many words the dictionary has.
    pub words: u16,
    /// What code is listed.
    pub code: Code,
    /// How often code meets what isn't played.
    pub unplayed: Unplayed,
}

/// What a certificate has.
#[derive(Clone, Copy, Debug, PartialEq, Eq)]
pub struct Kept {
    /// The version of its format.
    pub version: u8,
    /// How many frames may stand above the first, where it names that.
    pub frames: Option<u16>,
    /// How many routines it has.
    pub routines: usize,
    /// How many instructions it lists.
    pub instructions: usize,
    /// How many of them it marks.
    pub marks: usize,
    /// How many facts on globals it states.
    pub facts: usize,
}

/// What stands beside a story, by the name of a certificate.
#[derive(Clone, Copy, Debug, PartialEq, Eq)]
pub enum Beside {
    /// No file.
    Nothing,
    /// A file that is no certificate, by the number of what is wrong with it.
    Unreadable(u8),
    /// A file, or a folder or a device, that can't be read.
    Closed,
    /// The certificate of another story.
    OfAnother,
    /// A certificate of this story, accepted or not.
    Own(Kept),
}

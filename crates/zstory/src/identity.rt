//! What tells one story from another.

/// What a certificate or a save says of the story that it belongs to (Z 11.1).
#[derive(Clone, Copy, Debug, PartialEq, Eq)]
pub struct Identity {
    /// The release number, of the word at 0x02.
    pub release: u16,
    /// The serial number, six bytes from 0x12 on.
    pub serial: [u8; 6],
    /// The checksum word at 0x1C, as it stands in the header.
    pub checksum: u16,
    /// The loaded length in bytes, 64 to 131,072.
    pub length: u32,
}

//! What a save says of its story.

ghost use Rattle.std.specs.Prelude.{◌≡◌};
ghost use Rattle.zquetzal.specs.Saved.{origin_of};

use zstory::Story;

/// What a save says of the story that it belongs to (Q 5).
#[derive(Clone, Copy)]
pub struct Origin {
    /// The release number.
    pub release: u16,
    /// The serial number.
    pub serial: [u8; 6],
    /// The header's checksum or, where that is 0, the file's sum (own).
    pub checksum: u16,
}

impl Origin {
    /// What saves of a story say of it.
    pub fn of(story: &Story) -> Origin
        ensures { result ≡ origin_of story.now }
    {
        let identity = story.identity();
        let serial = identity.serial;
        Origin {
            release: identity.release,
            serial,
            checksum: story.save_checksum(),
        }
    }
}

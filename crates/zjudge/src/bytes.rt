//! Bytes of a memory.

ghost use Rattle.std.specs.Prelude.{◌≡◌};
ghost use Rattle.zstory.specs.Bytes.{byte_at};

/// The byte at a place, and 0 outside.
pub(crate) fn byte_at(memory: &[u8], place: usize) -> u8
    ensures { result ≡ byte_at memory.now place }
{
    match memory.get(place) {
        Some(byte) => *byte,
        None => 0,
    }
}

//! Tags: what stands between `<` and `>`.

ghost use Rattle.std.specs.Prelude.{◌≡◌, ◌≤◌, codes, length};
ghost use Rattle.std.specs.Option.{option_map, option_copied};
ghost use Rattle.std.specs.List.{prefix_len};
ghost use Rattle.zdebug.specs.Reading.{is_of_name, name_of, attribute, is_known, is_whole};

use crate::cutting::{cut, is, is_blank, until};

fn is_of_name(byte: u8) -> bool
    ensures { result ≡ is_of_name byte }
{
    !(is_blank(byte) || byte == b'/')
}

/// How long the name is that bytes begin with.
fn name_length(bytes: &[u8]) -> usize
    ensures value { result ≡ prefix_len is_of_name bytes.now }
    ensures within { result ≤ length bytes.now }
{
    for (at, byte) in bytes.iter().enumerate() {
        if !is_of_name(*byte) {
            return at;
        }
    }
    bytes.len()
}

/// The name that a tag begins with.
pub fn name_of(tag: &[u8]) -> &[u8]
    ensures { result.now ≡ name_of tag.now }
{
    &tag[..name_length(tag)]
}

/// The value of an attribute, by its name with a space before it and a `=` behind it.
pub fn attribute<'a>(tag: &'a [u8], name: &[u8]) -> Option<&'a [u8]>
    ensures { option_copied result ≡ attribute name.now tag.now }
{
    let mut rest = tag;
    while let Some((before, behind)) = cut(rest, b'"') {
        let (value, others) = until(behind, b'"');
        if before.ends_with(name) {
            return Some(value);
        }
        rest = others;
    }
    None
}

/// Whether the tag of the outermost element names a version that is known.
pub fn has_known_version(tag: &[u8]) -> bool
    ensures { result ≡ is_known (attribute (codes " version=") tag.now) }
{
    match attribute(tag, b" version=") {
        None => false,
        Some(version) => is(version, b"1.0") || is(version, b"1.1"),
    }
}

/// Whether a tag is that of a whole element.
pub fn is_whole(tag: &[u8]) -> bool
    ensures { result ≡ is_whole tag.now }
{
    tag.ends_with(b"/")
}

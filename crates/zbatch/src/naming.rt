//! The name of the file beside a story's.

ghost use Rattle.std.specs.Prelude.{◌≡◌, IfOk, string_bytes};
ghost use Rattle.zbatch.specs.Naming.{is_story_name, name_beside, stem};

use std::alloc::{AllocError, Global};

/// The length of `.z3`.
const ENDING_LENGTH: usize = 3;

/// The name of a file beside a story's: the story's name with another ending in the place of `.z3` or `.Z3`, or behind it where it has
/// neither. So `zork.z3`, `zork.Z3` and `zork` have the same file beside them. The ending is given without its dot. Fails only for want
/// of memory.
pub fn name_beside(alloc: Global, story: &str, ending: &str) -> Result<String, AllocError>
    ensures { IfOk result (λ name. string_bytes name ≡ name_beside story.now ending.now) }
{
    let mut name = String::from_str(alloc, stem(story))?;
    name.push('.')?;
    name.push_str(ending)?;
    Ok(name)
}

/// Whether a name ends as a story's does, in `.z3` or `.Z3`.
pub fn is_story_name(name: &str) -> bool
    ensures { result ≡ is_story_name name.now }
{
    let Some(at) = name.len().checked_sub(ENDING_LENGTH) else {
        return false;
    };
    match name.as_bytes().get(at..) {
        Some(ending) => ending == b".z3".as_slice() || ending == b".Z3".as_slice(),
        None => false,
    }
}

/// A name without the ending of stories.
fn stem(name: &str) -> &str
    ensures { result.now ≡ stem name.now }
{
    let Some(at) = name.len().checked_sub(ENDING_LENGTH) else {
        return name;
    };
    match name.split_at_checked(at) {
        Some((front, ending)) if ending == ".z3" || ending == ".Z3" => front,
        _ => name,
    }
}

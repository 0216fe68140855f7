//! Splitting a line at the separators of the dictionary.

ghost use Rattle.std.specs.Prelude.{◌≡◌};
ghost use Rattle.zdict.specs.Tokens.{separators, tokens};
ghost use Rattle.zdict.specs.Left.{tokens_left};

use crate::token::Tokens;
use zstory::Story;

/// The tokens of a line: each byte that the dictionary lists as a separator, and each run of others that is as long as can be
/// (Z 13.6.1). A space is in none, listed or not.
pub fn tokens<'a>(story: &'a Story, line: &'a [u8]) -> Tokens<'a>
    ensures { tokens_left result ≡ tokens (separators story.now.memory) line.now }
{
    let memory = story.memory();
    let codes = story.dictionary() + 1;
    let count = usize::from(memory[codes - 1]);
    Tokens::new(&memory[codes..codes + count], line)
}

//! The board on which a story opens (Z 6.1.3).

ghost use Rattle.std.specs.Prelude.{IfOk};
ghost use Rattle.zengine.specs.Opening.{HasOneFrame, Opens};

use crate::board::Board;
use crate::outside::Outside;
use crate::restarting::NOWHERE;
use std::alloc::{AllocError, Global};
use zstate::RandomMode;
use zstory::Story;

/// How many words there are at first: as many as the largest frame may want, and room for a few small ones below it.
const WORDS: usize = 69_632;

/// Nothing came from outside yet.
const OUTSIDE: Outside = Outside {
    random: RandomMode::Words,
    prompted: false,
    waiting: None,
};

/// The board on which a story opens, at the row of an index. Want of memory is the only error.
pub fn open(alloc: Global, story: &Story, first: u32) -> Result<Board, AllocError>
    ensures { IfOk result (Opens story.now first) }
{
    with_one_frame(alloc, story, first)
}

/// A board with the first frame alone, and memory as it was loaded.
fn with_one_frame(alloc: Global, story: &Story, first: u32) -> Result<Board, AllocError>
    ensures { IfOk result (HasOneFrame story.now first) }
{
    let mut words = vec![in alloc; 0; WORDS]?;
    words[0] = NOWHERE;
    words[1] = NOWHERE;
    Ok(Board {
        words,
        base: 5,
        above: 0,
        memory: story.memory().to_vec(alloc)?,
        at: first as usize,
        outside: Box::new(alloc, OUTSIDE)?,
    })
}

//! The story begun anew.

ghost use Rattle.std.specs.Prelude.{◌≡◌, ◌≤◌, slice_index, length, false, None};
ghost use Rattle.zstate.specs.State.{keeping_flags};
ghost use Rattle.zengine.specs.View.{body_of};

use crate::board::Board;
use zstory::Story;

/// The low byte of Flags 2, whose two low bits a story can't lose (Z 11.1).
const FLAGS: usize = 0x11;

/// What no row has for its index: so the first frame returns to nothing.
pub(crate) const NOWHERE: u16 = 0xFFFF;

impl Board {
    /// The story begins anew, at the row of an index (Z 15 restart).
    pub(crate) fn begin_anew(&mut self, story: &Story, first: u32)
        requires { length self.old.memory.items ≡ length story.now.memory }
        ensures body { body_of self.new ≡ record { words = self.new.words.items; base = 5; above = 0; memory = keeping_flags self.old.memory.items story.now.memory; outside = record self.old.outside.value { prompted = false; waiting = None } } }
        ensures size { length self.new.words.items ≡ length self.old.words.items }
        ensures low { slice_index self.new.words.items 0 ≡ 65535 }
        ensures high { slice_index self.new.words.items 1 ≡ 65535 }
        ensures marks { slice_index self.new.words.items 4 ≡ 0 }
        ensures at { self.new.at ≡ first }
    {
        reload(&mut self.memory, story);
        self.words[0] = NOWHERE;
        self.words[1] = NOWHERE;
        self.words[4] = 0;
        self.base = 5;
        self.above = 0;
        self.outside.prompted = false;
        self.outside.waiting = None;
        self.at = first as usize;
    }
}

/// Memory as it was loaded, but for the two low bits of Flags 2 (Z 6.1.3).
fn reload(memory: &mut [u8], story: &Story)
    requires { length memory.old ≡ length story.now.memory }
    ensures { memory.new ≡ keeping_flags memory.old story.now.memory }
{
    story.length();
    let loaded = story.memory();
    let kept = memory[FLAGS] % 4;
    memory.copy_from_slice(loaded);
    memory[FLAGS] = loaded[FLAGS] / 4 * 4 + kept;
}

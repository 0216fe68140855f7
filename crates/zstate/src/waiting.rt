//! What waits in a state, an event or a prompt, and what is done with it.

ghost use Rattle.std.specs.Prelude.{◌≡◌, ℕ, List, MatchOption, Some, None, true, false};
ghost use Rattle.zfault.specs.declared.event.Event.TheVariants as events;
ghost use Rattle.zline.specs.Storing.{HasBuffers, with_line};
ghost use Rattle.zstate.specs.State.{with_memory};

use crate::mode::RandomMode;
use crate::state::State;
use zfault::{Event, Line};
use zstory::Story;

impl State {
    /// The random word that waits, if one does.
    pub fn waiting_word(&self) -> Option<u16>
        ensures { MatchOption result ((word : ℕ) → self.now.waiting ≡ Some (events.Random word) → ⊥) (λ word. self.now.waiting ≡ Some (events.Random word)) }
    {
        match self.waiting {
            Some(Event::Random(word)) => Some(word),
            _ => None,
        }
    }

    /// The line that waits, if one does.
    pub fn waiting_line(&self) -> Option<Line>
        ensures { MatchOption result ((line : List ℕ) → self.now.waiting ≡ Some (events.Line line) → ⊥) (λ line. self.now.waiting ≡ Some (events.Line line)) }
    {
        match self.waiting {
            Some(Event::Line(line)) => Some(line),
            _ => None,
        }
    }

    /// Random numbers come from elsewhere from here on.
    pub fn set_random(&mut self, mode: RandomMode)
        ensures { self.new ≡ record self.old { random = mode } }
    {
        self.random = mode;
    }

    /// The word that waits is used up.
    pub fn use_word(&mut self)
        ensures { self.new ≡ record self.old { waiting = None } }
    {
        self.waiting = None;
    }

    /// The line that waits is used up, and with it the mark of the prompt is gone.
    pub fn use_line(&mut self)
        ensures { self.new ≡ record self.old { waiting = None; prompted = false } }
    {
        self.use_word();
        self.prompted = false;
    }

    /// Marks that the `sread` at the place has shown its status line.
    pub fn prompt(&mut self)
        ensures { self.new ≡ record self.old { prompted = true } }
    {
        self.prompted = true;
    }

    /// Stores a line in the text buffer and the parse buffer at two places (Z 15 sread).
    pub fn store_line(&mut self, story: &Story, text: usize, parse: usize, line: &[u8])
        requires { HasBuffers self.old.memory text parse }
        ensures { self.new ≡ with_memory (with_line story.now.memory text parse line.now self.old.memory) self.old }
    {
        zline::store_line(story, self.memory.as_mut_slice(), text, parse, line);
    }
}

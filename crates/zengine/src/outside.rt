//! What comes to a game from outside: random numbers, lines of the player, and what is told of saves.

ghost use Rattle.std.specs.Prelude.{◌≡◌, ◌<◌, ◌≤◌, ℕ, Some, None};
ghost use Rattle.zstate.specs.declared.mode.RandomMode.TheVariants.{Words};
ghost use Rattle.zstate.specs.State.{State};
ghost use Rattle.zstate.specs.Step.{drawing, random_of};
ghost use Rattle.zengine.specs.Outer.{IsDrawn, LacksWord};

use zfault::Event;
use zstate::RandomMode;

/// What comes from outside.
#[derive(Drop)]
pub struct Outside {
    /// Where random numbers come from.
    pub random: RandomMode,
    /// Whether it was shown that a line is wanted.
    pub prompted: bool,
    /// The event that waits, if one was given that isn't used yet.
    pub waiting: Option<Event>,
}

impl Outside {
    /// Draws a number up to another, or, with 0 or a negative number, changes where they come from and answers 0. None where a word is
    /// needed that isn't there; nothing is changed then (Z 2.4, 15 random).
    pub(crate) fn draw(&mut self, range: u16) -> Option<u16>
        ensures { (s : State) → s.random ≡ self.old.random → s.waiting ≡ self.old.waiting → IsDrawn result (random_of range s) self.old self.new }
    {
        match range {
            0 => {
                self.random = RandomMode::Words;
                Some(0)
            }
            1..=32767 => self.number(range),
            _ => {
                self.random = RandomMode::Counting {
                    seed: range.wrapping_neg(),
                    next: 1,
                };
                Some(0)
            }
        }
    }

    /// Whether a number up to another can't be drawn, since a word is needed for it that isn't there.
    pub(crate) fn lacks_word(&self, range: u16) -> bool
        ensures { (s : State) → s.random ≡ self.now.random → s.waiting ≡ self.now.waiting → LacksWord result (random_of range s) }
    {
        match range {
            1..=32767 => self.lacks_number(range),
            _ => false,
        }
    }

    /// The same of a number from 1 to another.
    fn lacks_number(&self, range: u16) -> bool
        requires least { 1 ≤ range }
        requires most { range < 32768 }
        ensures { LacksWord result (drawing range self.now.random self.now.waiting) }
    {
        match self.random {
            RandomMode::Counting { .. } => false,
            RandomMode::Words => self.lacks_event(range),
        }
    }

    /// The same where numbers are made of words.
    fn lacks_event(&self, range: u16) -> bool
        ensures { LacksWord result (drawing range Words self.now.waiting) }
    {
        match self.waiting {
            Some(event) => is_no_word(event),
            None => true,
        }
    }

    /// The number from 1 to another that comes next.
    fn number(&mut self, range: u16) -> Option<u16>
        requires least { 1 ≤ range }
        requires most { range < 32768 }
        ensures { IsDrawn result (drawing range self.old.random self.old.waiting) self.old self.new }
    {
        match (self.random, self.waiting) {
            (RandomMode::Counting { seed, next }, _) => {
                self.random = RandomMode::Counting {
                    seed,
                    next: if next < seed { next + 1 } else { 1 },
                };
                Some(1 + next % range)
            }
            (RandomMode::Words, Some(Event::Random(word))) => {
                self.waiting = None;
                Some(1 + word % range)
            }
            (RandomMode::Words, _) => None,
        }
    }
}

/// Whether an event is no word for a number.
fn is_no_word(event: Event) -> bool
    ensures { (range : ℕ) → LacksWord result (drawing range Words (Some event)) }
{
    match event {
        Event::Random(_) => false,
        _ => true,
    }
}

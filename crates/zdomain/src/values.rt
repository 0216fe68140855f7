//! Sets of words that are intervals or short lists.

ghost use Rattle.zdomain.specs.Few.{IsScattered};

use crate::few::{Few, is_scattered};
use crate::interval::Interval;

/// 2 to 64 words, in the order of their signed readings, that are no interval.
#[derive(Clone, Copy)]
pub struct Scattered {
    pub few: Few,
    pub ghost scattered: { IsScattered few },
}

impl Scattered {
    ghost use Rattle.std.specs.Prelude.{◌≡◌, IfSome, IfNone, false};
    ghost use Rattle.zdomain.specs.Few.{is_scattered};

    /// These words, where they rise by their signed readings, are 2 to 64, and are no interval.
    #[tactic(auto, unfolding(crate::specs::Few::is_scattered))]
    pub fn new(words: &[u16]) -> Option<Scattered>
        ensures some { IfSome result (λ s. s.few ≡ words.now) }
        ensures none { IfNone result (is_scattered words.now ≡ false) }
    {
        if !is_scattered(words) {
            return None;
        }
        Some(Scattered {
            few: Few::of(words),
        })
    }
}

/// An interval, or a list that is none.
#[derive(Clone, Copy)]
pub enum Values {
    Run(Interval),
    List(Scattered),
}

/// What stands in a place that holds no set: the word 0.
impl Default for Values {
    ghost use Rattle.std.specs.Prelude.{◌≡◌};
    ghost use Rattle.zdomain.specs.Interval.{point};
    ghost use Rattle.zdomain.specs.declared.values.Values.TheVariants.{Run};

    ghost is_default = { λ values. values ≡ Run (point 0) };

    fn default() -> Values {
        Values::Run(Interval::of_word(0))
    }
}

//! One piece of work for each of many files.

ghost use Rattle.std.specs.Prelude.{◌≡◌, ℕ, List, false, length, map};
ghost use Rattle.zbatch.specs.Summary.{total};
ghost use Rattle.zbatch.specs.Working.{Runs, is_unwritten, tally_of};
ghost use Rattle.zbatch.specs.declared.work.Ended.{Ended};

use crate::tally::Tally;

/// How a piece of work ended.
#[derive(Clone, Copy, Debug, PartialEq, Eq)]
pub enum Ended {
    /// It went well.
    Well,
    /// What the file holds is refused.
    Refused,
    /// It couldn't be done, as with a file that can't be read.
    Failed,
    /// The answer couldn't be written, so that no other one can be.
    Unwritten,
}

impl Ended {
    /// Whether no other answer can be written behind it.
    fn is_unwritten(self) -> bool
        ensures { result ≡ is_unwritten self }
    {
        matches!(self, Ended::Unwritten)
    }
}

/// What is done of each file.
pub trait Work {
    /// From a state, the work on a file of a name can end so, in another state.
    ghost Does: { Self → List ℕ → Ended → Self → Type 0 };

    /// Does the work on one file.
    fn work(&mut self, name: &str) -> Ended
        ensures { Does self.old name.now result self.new };
}

/// Does the work on each file in turn, also behind one that is refused or that failed, and counts how they ended. Only an answer that
/// isn't written ends it before the last.
pub fn work_through<W: Work>(work: &mut W, names: &[&str]) -> Tally
    ensures runs { (ends : List Ended) × Runs W.Does (map (λ name. name.now) names.now) work.old ends work.new × (result ≡ tally_of ends) }
    ensures counted { result.unwritten ≡ false → total result ≡ length names.now }
{
    let mut tally = Tally::new();
    for name in names {
        let ended = work.work(name);
        tally.count(ended);
        if ended.is_unwritten() {
            return tally;
        }
    }
    tally
}

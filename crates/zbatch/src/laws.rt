//! Laws of the definitions: the contracts of these functions, which do nothing.

ghost use Rattle.std.specs.Prelude.{◌≡◌, List, ℕ};
ghost use Rattle.zbatch.specs.Naming.{name_beside, stem};
ghost use Rattle.zbatch.specs.Summary.{greatest_status, status_of};
ghost use Rattle.zbatch.specs.Working.{tally_of};
ghost use Rattle.zbatch.specs.declared.work.Ended.{Ended};

/// Two names have the same file beside them only where they are the same but for the ending of stories.
#[tactic(auto, using(crate::proofs::Names::by_stem))]
pub fn names_are_told_by_stems()
    ensures { (first second ending : List ℕ) → name_beside first ending ≡ name_beside second ending → stem first ≡ stem second }
{}

/// The exit status of all is the greatest that one of them would have alone.
#[tactic(auto, using(crate::proofs::Counts::greatest))]
pub fn status_is_the_greatest()
    ensures { (ends : List Ended) → status_of (tally_of ends) ≡ greatest_status ends }
{}

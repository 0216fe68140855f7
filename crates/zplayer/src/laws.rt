//! Laws of the definitions: the contracts of these functions, which do nothing.

ghost use Rattle.std.specs.Prelude.{⊤};
ghost use Rattle.zstate.specs.State.{Setting};
ghost use Rattle.zplay.specs.Session.{setting_of};
ghost use Rattle.zplayer.specs.Leniently.{IsLenientRunOf};
ghost use Rattle.zplayer.specs.Playing.{IsRunOf};
ghost use Rattle.zplayer.specs.Stories.{Describes};

use zcert::Spelled;
use zcheck::Accepted;

/// A play of a checked machine is the beginning of the run over what the world answered, and whatever else comes behind it.
#[tactic(auto, using(crate::proofs::Stages::leads_run))]
pub fn plays_are_runs()
    ensures { (m : Setting) → IsRunOf m (λ _. ⊤) }
{}

/// And so is a play of a session.
#[tactic(auto, using(crate::proofs::Stages::leads_run))]
pub fn story_plays_are_runs<V: Spelled>(_accepted: &Accepted<V>)
    ensures { IsRunOf (setting_of _accepted.now) (Describes V.operations _accepted.now) }
{}

/// A lenient play of a checked machine is the beginning of the lenient run over what the world answered, and whatever else comes behind it.
#[tactic(auto, using(crate::proofs::Reaches::leads_lenient_run))]
pub fn lenient_plays_are_runs()
    ensures { (m : Setting) → IsLenientRunOf m (λ _. ⊤) }
{}

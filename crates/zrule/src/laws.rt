//! Why a story never faults of which the claims of a certificate hold.

ghost use Rattle.zrule.specs.Claims.{Claims};
ghost use Rattle.zrule.specs.Described.{AcceptedAreFine, NeverFaults, OpensDescribed, PlaysAlike, RestartsDescribed, RunsSafely, RunsSafelyWhereMarked, SavedAreAccepted, StepsSafely};

use zdomain::Domain;

/// Where the claims of a certificate hold of a story, its opening state is one that they describe, and so is the state
/// after a restart. A step from a described state meets no fault and leads to a described state. So no run meets one,
/// whatever the events and however many the steps, in any scope that has the listed places, as long as each save that is
/// handed in leads to described states alone. And where two scopes have the listed places, it is the same run in both.
pub fn each_step_is_safe<V: Domain>()
    ensures opening { (claims : Claims V) → OpensDescribed V.operations claims }
    ensures restart { (claims : Claims V) → RestartsDescribed V.operations claims }
    ensures step { (claims : Claims V) → StepsSafely V.operations claims }
    ensures runs { (claims : Claims V) → RunsSafely V.operations claims }
    ensures marked { (claims : Claims V) → RunsSafelyWhereMarked V.operations claims }
    ensures never_faults { (claims : Claims V) → NeverFaults V.operations claims }
    ensures alike { (claims : Claims V) → PlaysAlike V.operations claims }
{}

/// A save that is accepted in one state of a story leads to described states alone, wherever and in whatever scope it is handed in. What is
/// saved of a described state is accepted in every state.
pub fn saves_are_accepted<V: Domain>()
    ensures fine { (claims : Claims V) → AcceptedAreFine V.operations claims }
    ensures saved { (claims : Claims V) → SavedAreAccepted V.operations claims }
{}

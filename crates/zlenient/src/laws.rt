//! Laws of lenient play, each the contract of a function that does nothing.

ghost use Rattle.zlenient.specs.Laws.{AnswersAreOfTheTable, NotesAreFew, OthersStay, RunsStay, StepsStay};

/// A step that can be made is the lenient step, and a run that no fault stops is lenient play, of which nothing is noted. A lenient step is
/// the step, or in the place of a fault what the table has for it; where that has nothing, it stays a fault. No more is noted than steps are made.
pub fn lenient_steps()
    ensures steps { StepsStay }
    ensures runs { RunsStay }
    ensures answers { AnswersAreOfTheTable }
    ensures others { OthersStay }
    ensures notes { NotesAreFew }
{}

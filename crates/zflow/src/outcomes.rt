//! What may come of an operation, by families.

ghost use Rattle.std.specs.Prelude.{◌≡◌, List, [], Some, None, true, false, option_map};
ghost use Rattle.zcode.specs.declared.instr.Operand.{Operand as AnOperand};
ghost use Rattle.zcode.specs.declared.operation.Operation.TheVariants.{Count};
ghost use Rattle.zflow.specs.Transfer.{asks, assigns_in, called_outcome, compared_kept, counted_kept, counts_in, drawn_set, followed_outcome, follows_in, gives_in, goes_on, is_local, jumps, local_kept, once_known, operand_global, operand_kept, outcome_of, returns_in, small, unrestored, untold, variable_set};
ghost use Rattle.zflow.specs.Kept.{both};
ghost use Rattle.zflow.specs.Lent.{globals_seen};
ghost use Rattle.zflow.specs.View.{seen};
ghost use Rattle.zpairs.specs.Frozen.{FrozenStory};
ghost use Rattle.zpairs.specs.Pairs.{answers};
ghost use Rattle.zruns.specs.Runs.{elements};

use crate::asking::named;
use crate::parts::{Kept, Lead, Outcome};
use crate::view::View;
use zarray::Width;
use zcode::{Operand, Operation};
use zdomain::Domain;
use zobj::PropertyQuestion;
use zruns::Tables;
use zword::{BinaryOp, CountOp, Question, UnaryOp};

/// How many bytes of data a property has at most (Z 12.4.1).
const LONGEST_DATA: u16 = 8;

/// What may come of an operation, by the answers of its condition.
#[derive(Clone, Copy)]
pub(crate) struct Outcomes<V> {
    /// Where it holds, or where there is none.
    pub(crate) held: Option<Outcome<V>>,
    /// Where it doesn't hold.
    pub(crate) failed: Option<Outcome<V>>,
}

/// What may come of an operation on operands whose first two have these sets. `view` is what is known once they were read.
#[tactic(auto, unfolding(crate::specs::Transfer::outcome_of))]
pub(crate) fn outcomes_of<V: Domain>(
    tables: &Tables<'_>,
    operation: Operation,
    operands: &[Operand],
    first: V,
    second: V,
    view: View<'_, V>,
) -> Outcomes<V>
    ensures held { result.held ≡ outcome_of V.operations (globals_seen view.entry.globals) tables.now operation operands.now (both first second) (seen view.entry) true }
    ensures failed { result.failed ≡ outcome_of V.operations (globals_seen view.entry.globals) tables.now operation operands.now (both first second) (seen view.entry) false }
{
    match operation {
        Operation::Unary(op) => transformed(op, first),
        Operation::Binary(op) => computed(op, first, second),
        Operation::Compare(question) => compared(question, operands, first, second),
        Operation::Count(op, question) => counted(op, question, first, second, view),
        Operation::Store => stored(first, second),
        Operation::Load => loaded(first, view),
        Operation::Jump => jumped(first),
        Operation::Verify => either(),
        Operation::PrintChar
        | Operation::PrintNumber
        | Operation::Print
        | Operation::NewLine
        | Operation::Nop
        | Operation::SetAttribute
        | Operation::ClearAttribute
        | Operation::Insert
        | Operation::Remove
        | Operation::SetProperty
        | Operation::PrintObject
        | Operation::PrintAt(_)
        | Operation::ShowStatus
        | Operation::StoreArray(_)
        | Operation::ReadLine => going_on(),
        Operation::Quit | Operation::Restart => never(),
        Operation::Return => returned(first),
        Operation::PrintReturn => returned_true(),
        Operation::Call => called(first),
        Operation::Inside | Operation::TestAttribute => either(),
        Operation::Save => saved(),
        Operation::Restore => unrestored(),
        Operation::Follow(_) => followed(tables.story().objects()),
        Operation::Property(question) => answered(tables, question, first, second),
        Operation::LoadArray(width) => element_read(tables, width, first, second),
        Operation::PropertyLength => measured(),
        Operation::Random => number_drawn(first),
    }
}

// Each family has a function of its own, so that the room for what it makes is taken where its operation comes alone.

/// What a unary operation makes is given.
#[inline(never)]
fn transformed<V: Domain>(op: UnaryOp, first: V) -> Outcomes<V>
    ensures held { result.held ≡ Some (gives_in (V.operations.unary op first)) }
    ensures failed { result.failed ≡ None }
{
    once(gives_in(V::unary(op, first)))
}

/// What a binary one makes is.
#[inline(never)]
fn computed<V: Domain>(op: BinaryOp, first: V, second: V) -> Outcomes<V>
    ensures held { result.held ≡ Some (gives_in (V.operations.binary op first second)) }
    ensures failed { result.failed ≡ None }
{
    once(gives_in(V::binary(op, first, second)))
}

/// What properties answer is.
#[inline(never)]
fn answered<V: Domain>(
    tables: &Tables<'_>,
    question: PropertyQuestion,
    first: V,
    second: V,
) -> Outcomes<V>
    ensures held { result.held ≡ Some (gives_in (answers V.operations tables.now question first second)) }
    ensures failed { result.failed ≡ None }
{
    once(gives_in(tables.properties().answers(question, first, second)))
}

/// What elements of arrays may be is.
#[inline(never)]
fn element_read<V: Domain>(tables: &Tables<'_>, width: Width, first: V, second: V) -> Outcomes<V>
    ensures held { result.held ≡ Some (gives_in (elements V.operations tables.now width first second)) }
    ensures failed { result.failed ≡ None }
{
    once(gives_in(tables.runs().elements(width, first, second)))
}

/// A length of a property's data is.
#[inline(never)]
fn measured<V: Domain>() -> Outcomes<V>
    ensures held { result.held ≡ Some (gives_in (V.operations.between 0 8)) }
    ensures failed { result.failed ≡ None }
{
    once(gives_in(V::between(0, LONGEST_DATA)))
}

/// What is drawn is.
#[inline(never)]
fn number_drawn<V: Domain>(first: V) -> Outcomes<V>
    ensures held { result.held ≡ Some (gives_in (drawn_set V.operations first)) }
    ensures failed { result.failed ≡ None }
{
    once(gives_in(drawn(first)))
}

/// The next instruction comes.
#[inline(never)]
fn going_on<V: Domain>() -> Outcomes<V>
    ensures held { result.held ≡ Some goes_on }
    ensures failed { result.failed ≡ None }
{
    once(goes_on())
}

/// The routine ends, with a value of the set.
#[inline(never)]
fn returned<V: Domain>(set: V) -> Outcomes<V>
    ensures held { result.held ≡ Some (returns_in set) }
    ensures failed { result.failed ≡ None }
{
    once(returns_in(set))
}

/// The routine ends, with 1.
#[inline(never)]
fn returned_true<V: Domain>() -> Outcomes<V>
    ensures held { result.held ≡ Some (returns_in (V.operations.single 1)) }
    ensures failed { result.failed ≡ None }
{
    once(returns_in(V::single(1)))
}

/// What asks nothing has one outcome.
fn once<V: Domain>(outcome: Outcome<V>) -> Outcomes<V>
    ensures held { result.held ≡ Some outcome }
    ensures failed { result.failed ≡ None }
{
    Outcomes {
        held: Some(outcome),
        failed: None,
    }
}

/// There is no outcome.
fn never<V: Domain>() -> Outcomes<V>
    ensures held { result.held ≡ None }
    ensures failed { result.failed ≡ None }
{
    Outcomes {
        held: None,
        failed: None,
    }
}

/// A branch says nothing of locals and globals.
fn untold<V: Domain>() -> Kept<V>
    ensures { result ≡ untold }
{
    Kept {
        first: None,
        second: None,
        first_global: None,
        second_global: None,
    }
}

/// Nothing but that the next instruction comes.
fn goes_on<V: Domain>() -> Outcome<V>
    ensures { result ≡ goes_on }
{
    Outcome {
        gives: None,
        assigns: None,
        tests: None,
        kept: untold(),
        leads: Lead::Ahead(0),
    }
}

/// A value goes to the result variable.
fn gives_in<V: Domain>(set: V) -> Outcome<V>
    ensures { result ≡ gives_in set }
{
    Outcome {
        gives: Some(set),
        ..goes_on()
    }
}

/// A variable is given a value in place.
fn assigns_in<V: Domain>(variable: u8, set: V) -> Outcome<V>
    ensures { result ≡ assigns_in variable set }
{
    Outcome {
        assigns: Some((variable, set)),
        ..goes_on()
    }
}

/// A value of the set is returned.
fn returns_in<V: Domain>(set: V) -> Outcome<V>
    ensures { result ≡ returns_in set }
{
    Outcome {
        leads: Lead::Returning(set),
        ..goes_on()
    }
}

/// The branch data asks for a condition.
fn asks<V: Domain>(answer: bool, kept: Kept<V>) -> Outcome<V>
    ensures { result ≡ asks answer kept }
{
    Outcome {
        tests: Some(answer),
        kept,
        ..goes_on()
    }
}

/// A question on the first operand and one of the others.
#[tactic(auto, unfolding(crate::specs::Transfer::outcome_of))]
fn compared<V: Domain>(question: Question, operands: &[Operand], first: V, second: V) -> Outcomes<V>
    ensures held { result.held ≡ option_map (asks true) (compared_kept V.operations [] question true operands.now (both first second)) }
    ensures failed { result.failed ≡ option_map (asks false) (compared_kept V.operations [] question false operands.now (both first second)) }
{
    Outcomes {
        held: compared_edge(question, true, operands, first, second),
        failed: compared_edge(question, false, operands, first, second),
    }
}

/// Where that is answered so.
fn compared_edge<V: Domain>(
    question: Question,
    answer: bool,
    operands: &[Operand],
    first: V,
    second: V,
) -> Option<Outcome<V>>
    ensures { result ≡ option_map (asks answer) (compared_kept V.operations [] question answer operands.now (both first second)) }
{
    match operands {
        [a, b] => {
            let (of_first, of_second) = V::narrow(question, answer, first, second)?;
            let kept = Kept {
                first: operand_kept(*a, of_first),
                second: operand_kept(*b, of_second),
                first_global: operand_global(*a, of_first),
                second_global: operand_global(*b, of_second),
            };
            Some(asks(answer, kept))
        }
        _ => Some(asks(answer, untold())),
    }
}

/// An operand that is a local keeps what a branch says of it.
fn operand_kept<V: Domain>(operand: Operand, set: V) -> Option<(u8, V)>
    ensures { result ≡ operand_kept (Some operand) set }
{
    match operand {
        Operand::Constant(_) => None,
        Operand::Variable(variable) => local_kept(variable, set),
    }
}

/// An operand that is a global does too.
fn operand_global<V: Domain>(operand: Operand, set: V) -> Option<(u8, V)>
    ensures { result ≡ operand_global (Some operand) set }
{
    match operand {
        Operand::Variable(variable) if variable >= 16 => Some((variable, set)),
        _ => None,
    }
}

/// A variable that is a local keeps what a branch says of it.
fn local_kept<V: Domain>(variable: u8, set: V) -> Option<(u8, V)>
    ensures { result ≡ local_kept variable set }
{
    if is_local(variable) {
        Some((variable, set))
    } else {
        None
    }
}

fn is_local(variable: u8) -> bool
    ensures { result ≡ is_local variable }
{
    1 <= variable && variable < 16
}

/// The variable that the first operand names is counted, and its new value asked against the second, if at all.
#[tactic(auto, unfolding(crate::specs::Transfer::outcome_of))]
fn counted<V: Domain>(
    op: CountOp,
    question: Option<Question>,
    first: V,
    second: V,
    view: View<'_, V>,
) -> Outcomes<V>
    ensures held { (told : FrozenStory) (operands : List AnOperand) → result.held ≡ outcome_of V.operations (globals_seen view.entry.globals) told (Count op question) operands (both first second) (seen view.entry) true }
    ensures failed { (told : FrozenStory) (operands : List AnOperand) → result.failed ≡ outcome_of V.operations (globals_seen view.entry.globals) told (Count op question) operands (both first second) (seen view.entry) false }
{
    let Some(variable) = named(first) else {
        return never();
    };
    let new = V::binary(op.operation(), view.variable_set(variable), V::single(1));
    match question {
        None => once(assigns_in(variable, new)),
        Some(question) => Outcomes {
            held: counted_edge(question, true, variable, new, second),
            failed: counted_edge(question, false, variable, new, second),
        },
    }
}

/// Where its new value answers so.
fn counted_edge<V: Domain>(
    question: Question,
    answer: bool,
    variable: u8,
    new: V,
    second: V,
) -> Option<Outcome<V>>
    ensures { result ≡ option_map (counts_in variable new answer) (counted_kept V.operations [] question answer variable new second) }
{
    Some(Outcome {
        assigns: Some((variable, new)),
        tests: Some(answer),
        kept: counted_kept(question, answer, variable, new, second)?,
        ..goes_on()
    })
}

/// What that says of the new value, which a local alone keeps: of another variable either answer may come.
fn counted_kept<V: Domain>(
    question: Question,
    answer: bool,
    variable: u8,
    new: V,
    second: V,
) -> Option<Kept<V>>
    ensures { result ≡ counted_kept V.operations [] question answer variable new second }
{
    if !is_local(variable) {
        return Some(untold());
    }
    let (of_new, _) = V::narrow(question, answer, new, second)?;
    Some(Kept {
        first: Some((variable, of_new)),
        ..untold()
    })
}

/// The variable that the first operand names is given the second.
#[tactic(auto, unfolding(crate::specs::Transfer::outcome_of))]
fn stored<V: Domain>(first: V, second: V) -> Outcomes<V>
    ensures held { result.held ≡ once_known true (small (V.operations.known first)) (λ v. assigns_in v second) }
    ensures failed { result.failed ≡ None }
{
    match named(first) {
        None => never(),
        Some(variable) => once(assigns_in(variable, second)),
    }
}

/// The variable that the first operand names gives its value.
fn loaded<V: Domain>(first: V, view: View<'_, V>) -> Outcomes<V>
    ensures held { result.held ≡ once_known true (small (V.operations.known first)) (λ v. gives_in (variable_set V.operations (globals_seen view.entry.globals) v (seen view.entry))) }
    ensures failed { result.failed ≡ None }
{
    match named(first) {
        None => never(),
        Some(variable) => once(gives_in(view.variable_set(variable))),
    }
}

/// The next instruction is as far away as the value says.
fn jumped<V: Domain>(first: V) -> Outcomes<V>
    ensures held { result.held ≡ once_known true (V.operations.known first) jumps }
    ensures failed { result.failed ≡ None }
{
    match first.known() {
        None => never(),
        Some(word) => once(Outcome {
            leads: Lead::Ahead(i32::from(word.cast_signed()) - 2),
            ..goes_on()
        }),
    }
}

/// A routine is called where the address isn't 0; a call of 0 gives 0.
fn called<V: Domain>(first: V) -> Outcomes<V>
    ensures held { result.held ≡ called_outcome V.operations [] true first }
    ensures failed { result.failed ≡ called_outcome V.operations [] false first }
{
    Outcomes {
        held: entered(first),
        failed: missed(first),
    }
}

/// The routine at an address of the set that isn't 0.
fn entered<V: Domain>(first: V) -> Option<Outcome<V>>
    ensures { result ≡ called_outcome V.operations [] true first }
{
    let (routine, _) = V::narrow(Question::Equal, false, first, V::single(0))?;
    Some(Outcome {
        leads: Lead::Entering(routine),
        ..goes_on()
    })
}

/// What a call gives whose address may be 0.
fn missed<V: Domain>(first: V) -> Option<Outcome<V>>
    ensures { result ≡ called_outcome V.operations [] false first }
{
    let (nothing, _) = V::narrow(Question::Equal, true, first, V::single(0))?;
    Some(gives_in(V::single(0)))
}

/// What is drawn from ranges: a number from 1 to the range, where that is above 0, and else 0.
fn drawn<V: Domain>(ranges: V) -> V
    ensures { result ≡ drawn_set V.operations ranges }
{
    let greatest = ranges.highest();
    if ranges.lowest().cast_signed() > 0 {
        V::between(1, greatest)
    } else if greatest.cast_signed() > 0 {
        V::between(0, greatest)
    } else {
        V::single(0)
    }
}

/// It isn't known what the answer is, and it says nothing of locals.
fn either<V: Domain>() -> Outcomes<V>
    ensures held { result.held ≡ Some (asks true untold) }
    ensures failed { result.failed ≡ Some (asks false untold) }
{
    Outcomes {
        held: Some(asks(true, untold())),
        failed: Some(asks(false, untold())),
    }
}

/// It isn't known whether a save is kept.
fn saved<V: Domain>() -> Outcomes<V>
    ensures held { result.held ≡ Some (asks true untold) }
    ensures failed { result.failed ≡ Some (asks false untold) }
{
    either()
}

/// A save that is taken is no step: what comes is that there is none.
fn unrestored<V: Domain>() -> Outcomes<V>
    ensures held { result.held ≡ unrestored true }
    ensures failed { result.failed ≡ unrestored false }
{
    Outcomes {
        held: None,
        ..either()
    }
}

/// A link leads to one of so many objects, or to none.
fn followed<V: Domain>(objects: u8) -> Outcomes<V>
    ensures held { result.held ≡ followed_outcome V.operations [] objects true }
    ensures failed { result.failed ≡ followed_outcome V.operations [] objects false }
{
    let object = match objects {
        0 => None,
        _ => Some(follows_in(true, V::between(1, u16::from(objects)))),
    };
    Outcomes {
        held: object,
        failed: Some(follows_in(false, V::single(0))),
    }
}

/// A value goes to the result variable, and the branch data asks whether it is an object.
fn follows_in<V: Domain>(answer: bool, set: V) -> Outcome<V>
    ensures { result ≡ follows_in answer set }
{
    Outcome {
        gives: Some(set),
        ..asks(answer, untold())
    }
}

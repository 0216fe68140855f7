//! What may come of an instruction, on each of its edges.

ghost use Rattle.std.specs.Prelude.{◌≡◌, Some, option_map, IfSome};
ghost use Rattle.zflow.specs.Transfer.{leading, narrowed, read_set, with_assigned, with_result};
ghost use Rattle.zcode.specs.Operation.{target};
ghost use Rattle.zflow.specs.Kept.{shape_of};
ghost use Rattle.zflow.specs.Flow.{IsFlow};
ghost use Rattle.zflow.specs.Lent.{globals_seen};

use crate::asking::demands_of;
use crate::global_sets::Globals;
use crate::known::Known;
use crate::outcomes::outcomes_of;
use crate::parts::{Demands, Lead, Outcome};
use crate::view::{View, below, pops};
use zcode::{Branch, Destination, Instr};
use zdomain::Domain;
use zruns::Tables;

/// What comes of an instruction where its condition is answered so.
#[derive(Drop)]
pub struct Edge<'a, V> {
    /// What it does.
    pub outcome: Outcome<V>,
    /// Where it leads.
    pub lead: Lead<V>,
    /// What is known of the frame behind it; `None` where what a branch says leaves a local no value, so that it can't be taken.
    pub after: Option<Known<'a, V>>,
}

/// All that may come of an instruction.
#[derive(Drop)]
pub struct Flow<'a, V> {
    /// How many slots it takes off the stack.
    pub popped: usize,
    /// What it asks for.
    pub demands: Demands<V>,
    /// Where its condition holds, or where it asks for none.
    pub held: Option<Edge<'a, V>>,
    /// Where its condition doesn't hold.
    pub failed: Option<Edge<'a, V>>,
}

/// What may come of an instruction of a story before which this is known: sets of the globals, of the frame's locals and of its slots,
/// the top slot last. Each set is computed once. What properties answer and what arrays have is taken from `tables`.
pub fn flow_of<'a, V: Domain>(
    tables: &Tables<'_>,
    globals: Globals<'_, V>,
    locals: &'a [V],
    slots: &'a [V],
    instruction: &Instr,
) -> Flow<'a, V>
    ensures { IsFlow V.operations (globals_seen globals.entry) tables.now instruction.now (shape_of locals.now slots.now) result }
{
    let before = View {
        globals,
        locals,
        slots,
    };
    let inputs = instruction.inputs();
    let operands = inputs.as_slice();
    let popped = pops(operands);
    let operation = instruction.opcode().operation();
    let (first, second) = before.read(operands);
    let outcomes = outcomes_of(
        tables,
        operation,
        operands,
        first,
        second,
        before.below(popped),
    );
    let left = below(popped, slots);
    Flow {
        popped,
        demands: demands_of(operation, first, second),
        held: edge_of(locals, left, instruction, &outcomes.held),
        failed: edge_of(locals, left, instruction, &outcomes.failed),
    }
}

/// The word that an instruction reads first, where what is known leaves it but one: sets of the globals, of the frame's locals
/// and of its slots, the top slot last.
pub fn first_known<V: Domain>(
    globals: Globals<'_, V>,
    locals: &[V],
    slots: &[V],
    instruction: &Instr,
) -> Option<u16>
    ensures { result ≡ V.operations.known (read_set V.operations (globals_seen globals.entry) instruction.now (shape_of locals.now slots.now) 0) }
{
    let before = View {
        globals,
        locals,
        slots,
    };
    let inputs = instruction.inputs();
    let (first, _second) = before.read(inputs.as_slice());
    first.known()
}

/// The edge on which an outcome comes, if it may come. The locals and the slots, the top last, are those that the operands left.
#[inline(never)]
fn edge_of<'a, V: Domain>(
    locals: &'a [V],
    slots: &'a [V],
    instruction: &Instr,
    outcome: &Option<Outcome<V>>,
) -> Option<Edge<'a, V>>
    ensures outcome { option_map (λ x. x.outcome) result ≡ outcome.now }
    ensures lead { IfSome result (λ x. x.lead ≡ leading V.operations x.outcome instruction.now.branch) }
    ensures after { IfSome result (λ x. x.after ≡ narrowed V.operations x.outcome.kept (with_result x.outcome.gives (target instruction.now) (with_assigned x.outcome.assigns (shape_of locals.now slots.now)))) }
{
    match outcome {
        Some(outcome) => edge_with(locals, slots, instruction, outcome),
        None => None,
    }
}

/// The edge on which an outcome comes. It stands apart so that no room is taken for an edge where none is.
fn edge_with<'a, V: Domain>(
    locals: &'a [V],
    slots: &'a [V],
    instruction: &Instr,
    outcome: &Outcome<V>,
) -> Option<Edge<'a, V>>
    ensures outcome { option_map (λ x. x.outcome) result ≡ Some outcome.now }
    ensures lead { IfSome result (λ x. x.lead ≡ leading V.operations x.outcome instruction.now.branch) }
    ensures after { IfSome result (λ x. x.after ≡ narrowed V.operations x.outcome.kept (with_result x.outcome.gives (target instruction.now) (with_assigned x.outcome.assigns (shape_of locals.now slots.now)))) }
{
    Some(Edge {
        outcome: *outcome,
        lead: leading(outcome, instruction.branch()),
        after: Known::after(locals, slots, outcome, instruction.target()),
    })
}

/// Where an outcome leads: along the branch, where that is taken.
fn leading<V: Domain>(outcome: &Outcome<V>, branch: Option<Branch>) -> Lead<V>
    ensures { result ≡ leading V.operations outcome.now branch }
{
    let (Some(condition), Some(branch)) = (outcome.tests, branch) else {
        return outcome.leads;
    };
    if condition != branch.sense {
        return outcome.leads;
    }
    match branch.destination() {
        Destination::Relative(distance) => Lead::Ahead(distance),
        Destination::ReturnFalse => Lead::Returning(V::single(0)),
        Destination::ReturnTrue => Lead::Returning(V::single(1)),
    }
}

//! The sets of the arguments of a call.

ghost use Rattle.std.specs.Prelude.{◌≡◌, slice_get};
ghost use Rattle.zflow.specs.Kept.{shape_of};
ghost use Rattle.zflow.specs.Lent.{globals_seen};
ghost use Rattle.zflow.specs.Transfer.{argument_sets};

use crate::global_sets::Globals;
use crate::view::View;
use zcode::Instr;
use zdomain::Domain;

/// The set of an argument of a call, by its place among them, if there is one; a call has at most three. What is known before it: sets
/// of the globals, of the frame's locals and of its slots, the top slot last.
pub fn argument_set<V: Domain>(
    globals: Globals<'_, V>,
    locals: &[V],
    slots: &[V],
    instruction: &Instr,
    index: usize,
) -> Option<V>
    ensures { result ≡ slice_get (argument_sets V.operations (globals_seen globals.entry) instruction.now (shape_of locals.now slots.now)) index }
{
    let before = View {
        globals,
        locals,
        slots,
    };
    let inputs = instruction.inputs();
    let operands = inputs.as_slice();
    if index < operands.len().saturating_sub(1) {
        Some(before.set_at(operands, index + 1))
    } else {
        None
    }
}

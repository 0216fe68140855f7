//! What rules ask of operands: that they are there, and known.

ghost use Rattle.std.specs.Prelude.{◌≡◌, ◌↔◌, ◌≤◌, IfSome, IsTrue, length};
ghost use Rattle.std.specs.List.{AllByRecursion};
ghost use Rattle.zcode.specs.Operation.{inputs, target};
ghost use Rattle.zcert.specs.Listed.{seen};
ghost use Rattle.zflow.specs.Transfer.{mid_shape, pops};
ghost use Rattle.zrule.specs.Claims.{claims_of, entry_of};
ghost use Rattle.zrule.specs.Rules.{demands_at, FirstThere, HasTop, IsKnown, IsNamed, IsVariable};

use zcert::{Certificate, Instruction, Spelled};
use zcode::{Instr, Operand};
use zflow::Demands;

/// Whether a variable exists.
fn is_variable<V: Spelled>(
    certificate: &Certificate<V>,
    listed: &Instruction<'_, V>,
    variable: u8,
) -> bool
    ensures { IsTrue result ↔ IsVariable V.operations (claims_of V.operations certificate.now) (entry_of (seen listed.now)).shape variable }
{
    let _globals = certificate.globals(); // 240
    variable >= 16 || usize::from(variable) <= listed.locals.len()
}

/// Whether a variable exists, if there is one.
fn is_variable_if<V: Spelled>(
    certificate: &Certificate<V>,
    listed: &Instruction<'_, V>,
    variable: Option<u8>,
) -> bool
    ensures { IsTrue result ↔ IfSome variable (IsVariable V.operations (claims_of V.operations certificate.now) (entry_of (seen listed.now)).shape) }
{
    match variable {
        Some(variable) => is_variable(certificate, listed, variable),
        None => true,
    }
}

/// Whether an operand is a word or names a variable that exists.
fn is_named<V: Spelled>(
    certificate: &Certificate<V>,
    listed: &Instruction<'_, V>,
    operand: Operand,
) -> bool
    ensures { IsTrue result ↔ IsNamed V.operations (claims_of V.operations certificate.now) (entry_of (seen listed.now)).shape operand }
{
    match operand {
        Operand::Constant(_) => true,
        Operand::Variable(variable) => is_variable(certificate, listed, variable),
    }
}

/// Whether each operand does.
fn are_named<V: Spelled>(
    certificate: &Certificate<V>,
    listed: &Instruction<'_, V>,
    operands: &[Operand],
) -> bool
    ensures { IsTrue result ↔ AllByRecursion (IsNamed V.operations (claims_of V.operations certificate.now) (entry_of (seen listed.now)).shape) operands.now }
{
    match operands {
        [] => true,
        [operand, rest @ ..] => {
            is_named(certificate, listed, *operand) && are_named(certificate, listed, rest)
        }
    }
}

/// Whether every variable exists that an instruction names.
pub(crate) fn has_locals<V: Spelled>(
    certificate: &Certificate<V>,
    listed: &Instruction<'_, V>,
    instruction: &Instr,
    demands: &Demands<V>,
) -> bool
    ensures { IsTrue result ↔ (AllByRecursion (IsNamed V.operations (claims_of V.operations certificate.now) (entry_of (seen listed.now)).shape) (inputs instruction.now) × IsVariable V.operations (claims_of V.operations certificate.now) (entry_of (seen listed.now)).shape (target instruction.now) × IfSome demands.now.variable (IsVariable V.operations (claims_of V.operations certificate.now) (entry_of (seen listed.now)).shape)) }
{
    are_named(certificate, listed, instruction.inputs().as_slice())
        && is_variable(certificate, listed, instruction.target())
        && is_variable_if(certificate, listed, demands.variable)
}

/// Whether the stack has what an instruction takes off it, and then what it uses in place.
pub(crate) fn has_height<V: Spelled>(
    certificate: &Certificate<V>,
    listed: &Instruction<'_, V>,
    instruction: &Instr,
    popped: usize,
    demands: &Demands<V>,
) -> bool
    requires { popped ≡ pops (inputs instruction.now) }
    ensures { IsTrue result ↔ ((pops (inputs instruction.now) ≤ length (entry_of (seen listed.now)).shape.slots) × IfSome demands.now.variable (HasTop V.operations (claims_of V.operations certificate.now) (mid_shape V.operations certificate.now.globals instruction.now (entry_of (seen listed.now)).shape))) }
{
    let height = listed.slots.len();
    match demands.variable {
        Some(0) => popped < height,
        _ => popped <= height,
    }
}

/// Whether the first operand has a value, if there is one.
fn is_first_there<V: Spelled>(
    certificate: &Certificate<V>,
    listed: &Instruction<'_, V>,
    instruction: &Instr,
) -> bool
    ensures { IsTrue result ↔ FirstThere V.operations (claims_of V.operations certificate.now) instruction.now (entry_of (seen listed.now)).shape }
{
    match instruction.inputs().as_slice() {
        [] => true,
        [Operand::Variable(0), ..] => !listed.slots.is_empty(),
        [first, ..] => is_named(certificate, listed, *first),
    }
}

/// Whether a variable is known that an operand names, where that operand has a value.
pub(crate) fn is_known<V: Spelled>(
    certificate: &Certificate<V>,
    listed: &Instruction<'_, V>,
    instruction: &Instr,
    demands: &Demands<V>,
) -> bool
    requires { demands.now ≡ demands_at V.operations (claims_of V.operations certificate.now) listed.now.address instruction.now (entry_of (seen listed.now)).shape }
    ensures { IsTrue result ↔ IsKnown V.operations (claims_of V.operations certificate.now) listed.now.address instruction.now (entry_of (seen listed.now)).shape }
{
    !demands.indirect
        || demands.variable.is_some()
        || !is_first_there(certificate, listed, instruction)
}

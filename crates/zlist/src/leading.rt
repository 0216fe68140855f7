//! What stands at a place, where an instruction leads, and where a routine begins.

ghost use Rattle.std.specs.Prelude.{◌≡◌, ◌<◌, ◌≤◌, ◌+◌, ◌^◌, IfOk, IfSome, length, if◌then◌else◌, None};
ghost use Rattle.zcode.specs.Instruction.{destination};
ghost use Rattle.zlist.specs.Listed.{aside, aside_place, begins, branched, callee, calls, ends, goes_on, may_answer, next_place, routine_named, spelled};
ghost use Rattle.zlist.specs.Labels.{IsInside, IsNear};

use zcode::{Branch, DecodeError, Destination, Instr, Opcode, Operand, decode_by};
use ztext::TextEnds;

/// What stands at a place, or why nothing does. `ends` are those of the texts of the memory.
pub fn spelled(ends: &mut TextEnds<'_>, place: i32) -> Result<Instr, DecodeError>
    requires { length ends.old ≤ 131072 }
    ensures memory { ends.new ≡ ends.old }
    ensures value { result ≡ spelled ends.old place }
    ensures inside { IfOk result (IsInside place) }
{
    match usize::try_from(place) {
        Ok(at) => decode_by(ends, at),
        Err(_) => Err(DecodeError::Truncated),
    }
}

/// Whether play never goes on behind such an instruction.
fn ends(opcode: Opcode) -> bool
    ensures { result ≡ ends opcode }
{
    matches!(
        opcode,
        Opcode::Ret
            | Opcode::Rtrue
            | Opcode::Rfalse
            | Opcode::PrintRet
            | Opcode::RetPopped
            | Opcode::Jump
            | Opcode::Restart
            | Opcode::Quit
    )
}

/// Whether its condition can come out so, as far as the opcode tells.
fn may_answer(opcode: Opcode, answer: bool) -> bool
    ensures { result ≡ may_answer opcode answer }
{
    !(answer && matches!(opcode, Opcode::Restore))
}

/// Whether play may go on behind an instruction.
fn goes_on(instruction: &Instr) -> bool
    ensures { result ≡ goes_on instruction.now.opcode instruction.now.branch }
{
    let opcode = instruction.opcode();
    match instruction.branch() {
        None => !ends(opcode),
        Some(branch) => may_answer(opcode, !branch.sense),
    }
}

/// The place behind an instruction, if play may go on there.
pub fn next_place(place: i32, instruction: &Instr) -> Option<i32>
    requires { IsInside place instruction.now }
    ensures { result ≡ next_place place instruction.now }
{
    if goes_on(instruction) {
        Some(place + instruction.length() as i32)
    } else {
        None
    }
}

/// How far behind itself an instruction may lead elsewhere: by a branch, or a jump by a constant.
fn aside(instruction: &Instr) -> Option<i32>
    ensures value { result ≡ aside instruction.now.opcode instruction.now.operands instruction.now.branch }
    ensures near { IfSome result IsNear }
{
    let opcode = instruction.opcode();
    match (opcode, instruction.operands().as_slice()) {
        (Opcode::Jump, [Operand::Constant(word)]) => Some(i32::from(word.cast_signed()) - 2),
        _ => branched(opcode, instruction.branch()?),
    }
}

/// The place to which it may so lead.
pub fn aside_place(place: i32, instruction: &Instr) -> Option<i32>
    requires { IsInside place instruction.now }
    ensures { result ≡ aside_place place instruction.now }
{
    let distance = aside(instruction)?;
    Some(place + instruction.length() as i32 + distance)
}

/// How far a branch leads that may be taken, where it doesn't return.
fn branched(opcode: Opcode, branch: Branch) -> Option<i32>
    ensures value { result ≡ (if may_answer opcode branch.sense then branched (destination branch.offset) else None) }
    ensures near { IfSome result IsNear }
{
    match branch.destination() {
        Destination::Relative(distance) if may_answer(opcode, branch.sense) => Some(distance),
        _ => None,
    }
}

/// Whether such an instruction calls a routine.
fn calls(opcode: Opcode) -> bool
    ensures { result ≡ calls opcode }
{
    matches!(opcode, Opcode::Call)
}

/// The address of the routine that a first operand names, if it is a constant.
fn routine_named(operands: &[Operand]) -> Option<u32>
    ensures value { result ≡ routine_named operands.now }
    ensures low { IfSome result (λ a. a < 131072) }
{
    match operands {
        [Operand::Constant(packed), ..] if *packed > 0 => Some(2 * u32::from(*packed)),
        _ => None,
    }
}

/// The address of the routine that an instruction calls by a constant.
pub fn callee(instruction: &Instr) -> Option<u32>
    ensures value { result ≡ callee instruction.now.opcode instruction.now.operands }
    ensures low { IfSome result (λ a. a < 131072) }
{
    if calls(instruction.opcode()) {
        routine_named(instruction.operands().as_slice())
    } else {
        None
    }
}

/// Where the code of the routine at an address begins, or what is wrong with its head.
pub fn begins(memory: &[u8], address: u32) -> Result<u32, DecodeError>
    requires { address < 2 ^ 24 }
    ensures value { result ≡ begins memory.now address }
    ensures inside { IfOk result (λ q. q ≤ length memory.now) }
{
    let Some(count) = memory.get(address as usize) else {
        return Err(DecodeError::Truncated);
    };
    if *count > 15 {
        return Err(DecodeError::Operands);
    }
    let first = address + 1 + 2 * u32::from(*count);
    if memory.len() < first as usize {
        return Err(DecodeError::Truncated);
    }
    Ok(first)
}

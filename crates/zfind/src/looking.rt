//! What is seen of an instruction.

use crate::bytes::Span;
use crate::code::Code;
use crate::effects::{Calls, Effect, Effects, Naming, Visit, WORDS, naming_of, next_callee};
use crate::frame::narrower;
use crate::kind::Kind;
use crate::narrowing::let_through;
use crate::opened::Opened;
use crate::openings::reach_of;
use crate::state::State;
use std::alloc::{AllocError, Global};
use zcert::Fact;
use zcode::{Operand, Operation};
use zdomain::Domain;
use zflow::{Demands, Flow, Globals, first_known};
use zlist::Record;
use zruns::Tables;

/// How many pairs of words are gone over in a step of work.
const PAIRS_OF_STEP: usize = 4;

/// What is seen of an instruction.
#[derive(Drop)]
pub(crate) struct Seen<V> {
    pub(crate) effects: Effects<V>,
    /// Words that it compares with.
    pub(crate) learned: [Option<u16>; 2],
    /// Where it looks for values.
    pub(crate) reach: Option<Span>,
    pub(crate) demands: Demands<V>,
    /// How much work it is to go over each two words of its first two operands, where both tell their words.
    pub(crate) work: usize,
}

/// What is known of bytes: what tables say, and which bytes were opened since they were made.
#[derive(Clone, Copy)]
pub(crate) struct Known<'a, 'b, 'c> {
    pub(crate) tables: &'a Tables<'b>,
    pub(crate) opened: &'c Opened,
}

/// What is seen of an instruction of an index, where that was reached; and what it called when it was visited last.
pub(crate) fn look<V: Kind>(
    alloc: Global,
    code: &Code<'_>,
    known: Known<'_, '_, '_>,
    state: &State<V>,
    record: &Record,
    index: usize,
    before: Option<&Calls<V>>,
) -> Result<Option<Seen<V>>, AllocError> {
    let Some(frame) = state.frame_at(alloc, index)? else {
        return Ok(None);
    };
    let facts = facts_of(alloc, record.address, state.globals(), frame.told())?;
    let visit = Visit {
        alloc,
        code,
        state,
        record,
        globals: Globals {
            own: state.globals(),
            facts: &facts,
        },
        locals: frame.locals(),
        slots: frame.slots(),
        told: frame.told(),
        before,
    };
    let flow = visit.flow(known.tables);
    if let Some(narrowed) = let_through(visit, &flow.demands)? {
        let facts = facts_of(alloc, record.address, state.globals(), narrowed.told())?;
        let visit = Visit {
            globals: Globals {
                own: state.globals(),
                facts: &facts,
            },
            locals: narrowed.locals(),
            slots: narrowed.slots(),
            told: narrowed.told(),
            ..visit
        };
        return Ok(Some(seen_of(visit, &visit.flow(known.tables), known)?));
    }
    Ok(Some(seen_of(visit, &flow, known)?))
}

/// What is known of globals at an address beside their own sets, as facts.
fn facts_of<V: Kind>(
    alloc: Global,
    address: u32,
    globals: &[V],
    told: &[(u8, V)],
) -> Result<Vec<Fact<V>>, AllocError> {
    let mut facts = Vec::new(alloc);
    for (global, set) in told {
        if let Some(values) = stated_of(globals, *global, *set) {
            facts.push(Fact {
                address,
                global: *global,
                values,
            })?;
        }
    }
    Ok(facts)
}

/// What a set says of a global that its own doesn't.
pub(crate) fn stated_of<V: Kind>(globals: &[V], global: u8, set: V) -> Option<V> {
    narrower(*globals.get(usize::from(global))?, set)
}

/// What is seen by what may come of an instruction.
fn seen_of<V: Kind>(
    visit: Visit<'_, V>,
    flow: &Flow<'_, V>,
    known: Known<'_, '_, '_>,
) -> Result<Seen<V>, AllocError> {
    let more = known.opened.more_read(&flow.demands);
    Ok(Seen {
        effects: visit.effects(flow, more)?,
        learned: learned_at(visit),
        reach: reach_of(visit.code, &flow.demands),
        demands: flow.demands,
        work: work_of_pairs(visit),
    })
}

/// How many routines are followed by what an instruction does, behind the first.
pub(crate) fn followed_by<V: Domain>(code: &Code<'_>, effects: &Effects<V>) -> u32 {
    match &effects.held {
        Some(effect) => followed_on(code, effect).saturating_sub(1),
        None => 0,
    }
}

/// How many are followed on an edge.
fn followed_on<V: Domain>(code: &Code<'_>, effect: &Effect<V>) -> u32 {
    match &effect.calls {
        Some(calls) => followed(code, calls.callees),
        None => 0,
    }
}

/// How many of the routines are followed at the packed addresses of a set.
fn followed<V: Domain>(code: &Code<'_>, callees: V) -> u32 {
    let naming = naming_of(code, callees);
    let mut count = 0u32;
    let mut callee = callees.least_from(1);
    for _ in 0..WORDS {
        let Some(packed) = callee else {
            return count;
        };
        if naming == Naming::Headless && code.routine_of(packed).is_none() {
            return count;
        }
        count = count.saturating_add(1);
        callee = next_callee(callees, packed);
    }
    count
}

/// The words that an instruction compares with what else it compares, where they are known of variables.
fn learned_at<V: Kind>(visit: Visit<'_, V>) -> [Option<u16>; 2] {
    let instruction = &visit.record.instruction;
    let inputs = instruction.inputs();
    let [first, second, ..] = inputs.as_slice() else {
        return [None, None];
    };
    match instruction.opcode().operation() {
        Operation::Compare(_) => [first_word(visit, *first), second_word(visit, *second)],
        Operation::Count(_, Some(_)) => [None, second_word(visit, *second)],
        _ => [None, None],
    }
}

/// The word that a first operand has, if it is a variable of which one is known.
fn first_word<V: Kind>(visit: Visit<'_, V>, operand: Operand) -> Option<u16> {
    match operand {
        Operand::Constant(_) => None,
        Operand::Variable(_) => first_known(
            visit.globals,
            visit.locals,
            visit.slots,
            &visit.record.instruction,
        ),
    }
}

/// The word that a second one has.
fn second_word<V: Kind>(visit: Visit<'_, V>, operand: Operand) -> Option<u16> {
    match operand {
        Operand::Constant(_) => None,
        Operand::Variable(_) => visit.argument(0)?.known(),
    }
}

/// How many steps of work it is to go over each two words of the first two operands, where both tell their words.
fn work_of_pairs<V: Kind>(visit: Visit<'_, V>) -> usize {
    let inputs = visit.record.instruction.inputs();
    match (inputs.as_slice().first(), visit.argument(0)) {
        (Some(first), Some(second)) => {
            first_told(visit, *first).saturating_mul(second.told()) / PAIRS_OF_STEP
        }
        _ => 0,
    }
}

/// How many words a first operand has, where it tells them.
fn first_told<V: Kind>(visit: Visit<'_, V>, operand: Operand) -> usize {
    let place = match operand {
        Operand::Constant(_) => return 1,
        Operand::Variable(variable) => usize::from(variable),
    };
    let set = match place {
        0 => visit.slots.last().copied(),
        1..16 => visit.locals.get(place.saturating_sub(1)).copied(),
        _ => visit.globals.get(place.saturating_sub(16)),
    };
    match set {
        Some(set) => set.told(),
        None => 0,
    }
}

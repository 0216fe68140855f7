//! What a test in play lets through, where an instruction may break a rule.

use crate::code::Code;
use crate::effects::Visit;
use crate::frame::Frame;
use crate::kind::Kind;
use std::alloc::AllocError;
use zarray::Width;
use zcode::Operand;
use zdomain::Domain;
use zflow::{Access, Asked, Demands, Elements};
use zobj::PropertyQuestion;
use zpairs::PLACES;
use zword::Question;

/// The last number of an attribute, and of a property (Z 12.3.1, 12.4.1).
const LAST_NUMBER: u16 = 31;

/// Where the set of an operand is kept.
#[derive(Clone, Copy)]
enum Place {
    /// Among those of the frame.
    Frame(usize),
    /// Among those of the globals.
    Global(usize),
}

/// What is known before an instruction that is marked, where it then does what it does: each object is one, no divisor is 0, and an
/// element of a known array lies in memory. `None` where that is no more than is known, or nothing is marked.
pub(crate) fn let_through<V: Kind>(
    visit: Visit<'_, V>,
    demands: &Demands<V>,
) -> Result<Option<Frame<V>>, AllocError> {
    if !visit.code.marks() {
        return Ok(None);
    }
    let first = narrower_at(visit, demands, 0);
    let second = narrower_at(visit, demands, 1);
    if first.is_none() && second.is_none() {
        return Ok(None);
    }
    let mut narrowed = frame_of(visit)?;
    put(&mut narrowed, first)?;
    put(&mut narrowed, second)?;
    Ok(Some(narrowed))
}

/// What is known of the frame, and of globals beside their own sets.
fn frame_of<V: Kind>(visit: Visit<'_, V>) -> Result<Frame<V>, AllocError> {
    let mut sets = Vec::from_slice(visit.alloc, visit.locals)?;
    sets.extend_from_slice(visit.slots)?;
    let mut frame = Frame::of(visit.alloc, visit.locals.len(), sets);
    frame.tell_all(visit.told)?;
    Ok(frame)
}

/// Puts a narrower set in its place, if there is one.
fn put<V: Kind>(frame: &mut Frame<V>, narrower: Option<(Place, V)>) -> Result<(), AllocError> {
    match narrower {
        Some((Place::Frame(index), set)) => {
            frame.put(index, set);
            Ok(())
        }
        Some((Place::Global(index), set)) => frame.tell(index.min(239) as u8, set),
        None => Ok(()),
    }
}

/// What is let through of an operand, by its index, where that is less than is known of it.
fn narrower_at<V: Kind>(
    visit: Visit<'_, V>,
    demands: &Demands<V>,
    index: usize,
) -> Option<(Place, V)> {
    let place = place_of(visit, index)?;
    let set = set_at(visit, place)?;
    let left = match index {
        0 => first_left(visit.code, demands, set),
        _ => second_left(visit.code, demands, set),
    }?;
    if set.is_within(left) {
        None
    } else {
        Some((place, left))
    }
}

/// Where the set of an operand is kept, if it is a variable.
fn place_of<V: Kind>(visit: Visit<'_, V>, index: usize) -> Option<Place> {
    let inputs = visit.record.instruction.inputs();
    let Operand::Variable(variable) = *inputs.as_slice().get(index)? else {
        return None;
    };
    match usize::from(variable) {
        0 => {
            let above = popped_before(inputs.as_slice(), index);
            let slot = visit.slots.len().checked_sub(above.saturating_add(1))?;
            Some(Place::Frame(visit.locals.len().saturating_add(slot)))
        }
        local if local < 16 => Some(Place::Frame(local.saturating_sub(1))),
        global => Some(Place::Global(global.saturating_sub(16))),
    }
}

/// How many operands before one are taken off the stack.
fn popped_before(operands: &[Operand], index: usize) -> usize {
    match (index, operands.first()) {
        (1, Some(Operand::Variable(0))) => 1,
        _ => 0,
    }
}

/// The set that is kept there.
fn set_at<V: Kind>(visit: Visit<'_, V>, place: Place) -> Option<V> {
    let local_count = visit.locals.len();
    match place {
        Place::Frame(index) if index < local_count => visit.locals.get(index).copied(),
        Place::Frame(index) => visit.slots.get(index.saturating_sub(local_count)).copied(),
        Place::Global(index) => visit.globals.get(index),
    }
}

/// What is let through of a first operand, if something is asked of it: an object.
fn first_left<V: Kind>(code: &Code<'_>, demands: &Demands<V>, set: V) -> Option<V> {
    demands.object?;
    set.meet(objects(code))
}

/// What is let through of a second one, if something is asked of it: an object, the number of an attribute or a property, a divisor or an
/// index.
fn second_left<V: Kind>(code: &Code<'_>, demands: &Demands<V>, set: V) -> Option<V> {
    if demands.under.is_some() {
        return set.meet(objects(code));
    }
    if demands.attribute.is_some() {
        return set.meet(V::between(0, LAST_NUMBER));
    }
    if demands.divisor.is_some() {
        let (left, _) = V::narrow(Question::Equal, false, set, V::single(0))?;
        return Some(left);
    }
    if let Some(pairs) = demands.property {
        return numbers_left(pairs.asked, set);
    }
    indices_left(code, demands.elements?, set)
}

/// The numbers of objects.
fn objects<V: Kind>(code: &Code<'_>) -> V {
    V::between(1, u16::from(code.story.objects()).max(1))
}

/// The numbers of properties that are let through.
fn numbers_left<V: Kind>(asked: Asked, set: V) -> Option<V> {
    match asked {
        Asked::Answered(PropertyQuestion::Value) | Asked::Filled => {
            set.meet(V::between(1, LAST_NUMBER))
        }
        _ => None,
    }
}

/// The indices that are let through where arrays are known: those of elements in memory, behind where the arrays begin.
fn indices_left<V: Kind>(code: &Code<'_>, elements: Elements<V>, set: V) -> Option<V> {
    let arrays = elements.arrays.few()?;
    let highest = arrays.as_slice().iter().max().copied()?;
    let end = match elements.access {
        Access::Reading => code.story.memory().len().min(PLACES),
        Access::Writing => code.story.static_base(),
    };
    let room = end.checked_sub(usize::from(highest))?;
    let last = (room / usize::from(elements.width.span())).checked_sub(1)?;
    set.meet(V::between(0, last.min(0x7fff) as u16))
}

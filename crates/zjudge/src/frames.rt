//! The frames of a save.

ghost use Rattle.std.specs.Prelude.{◌≡◌, ◌↔◌, ◌+◌, ◌<◌, ◌≤◌, ℕ, IsTrue, IfNone, IfSome, [], length, map, option_map};
ghost use Rattle.zcert.specs.Certificate.{Certificate as ACertificate};
ghost use Rattle.zcert.specs.Listed.{seen};
ghost use Rattle.zdomain.specs.Domain.{In};
ghost use Rattle.std.specs.List.{AllByRecursion};
ghost use Rattle.zquetzal.specs.Reading.{words_of};
ghost use Rattle.zquetzal.specs.View.{frames_left, seen_frame};
ghost use Rattle.zstate.specs.Saves.{taken_frame};
ghost use Rattle.zrule.specs.Claims.{Entry, claims_of, entry_of};
ghost use Rattle.zrule.specs.Described.{Fits, FitsWith};
ghost use Rattle.zjudge.specs.Frames.{AreDescribed, AreDescribedFrom, GoesOnAt, IsCalled};
ghost use Rattle.zjudge.specs.View.{entry_at, waiting_of};

use crate::words::{are_in, are_in_with, has_word};
use zcert::{Certificate, Instruction, Spelled};
use zdomain::Domain;
use zquetzal::{Frames, SavedFrame, word_count};
use zrule::hold_anyway;

/// The least variable that is a global (Z 4.2.2).
const FIRST_GLOBAL: u8 = 16;

/// A frame that waits for what the routine above it gives, with the index of what is listed at the place to which that returns.
#[derive(Clone, Copy)]
pub(crate) struct Caller<'a> {
    index: usize,
    frame: SavedFrame<'a>,
}

/// Whether all frames of a save are described, the newest at a place. They are gone over once, from the oldest up: when the place is
/// known where a frame goes on, so is its routine, and the frame below can be judged under every value that this may give. The facts on
/// globals where a frame waits have to hold of all that the globals may have.
pub(crate) fn are_frames_described<V: Spelled>(
    certificate: &Certificate<V>,
    frames: Frames<'_>,
    place: u32,
) -> bool
    ensures low { IsTrue result → AllByRecursion (λ f. length f.stack ≤ 64) (frames_left frames.entry) }
    ensures value { IsTrue result ↔ AreDescribed V.operations (claims_of V.operations certificate.now) (map taken_frame (frames_left frames.entry)) place }
{
    let mut above = frames;
    let Some(mut frame) = above.next() else {
        return false;
    };
    let mut below = None;
    let mut room = V::room();
    while let Some(next) = above.next() {
        let place = next.return_place;
        if !hold_anyway(certificate, place) {
            return false;
        }
        let Some(index) = going_on_at(certificate, below, frame, place, &mut room) else {
            return false;
        };
        below = Some(Caller { index, frame });
        frame = next;
    }
    is_newest_described(certificate, below, frame, place, &mut room)
}

/// Whether the newest frame is described at a place. The sets of one instruction at a time may be made in the room.
fn is_newest_described<V: Spelled>(
    certificate: &Certificate<V>,
    below: Option<Caller<'_>>,
    frame: SavedFrame<'_>,
    place: u32,
    room: &mut V::Room,
) -> bool
    requires { IfSome below (λ c. c.index < length certificate.now.instructions) }
    ensures low { IsTrue result → IfSome below.entry (λ c. length (words_of c.frame.stack.now) ≤ 64) × (length (words_of frame.entry.stack.now) ≤ 64) }
    ensures value { IsTrue result ↔ AreDescribedFrom V.operations (claims_of V.operations certificate.now) (option_map (waiting_of certificate.now.instructions) below.entry) (taken_frame (seen_frame frame.entry)) [] place }
{
    match going_on_at(certificate, below, frame, place, room) {
        Some(index) => fits(&certificate.instruction(index, room), frame),
        None => false,
    }
}

/// The index of what is listed at a place where a frame goes on, if it may have been called in that routine.
fn going_on_at<V: Spelled>(
    certificate: &Certificate<V>,
    below: Option<Caller<'_>>,
    frame: SavedFrame<'_>,
    place: u32,
    room: &mut V::Room,
) -> Option<usize>
    requires { IfSome below (λ c. c.index < length certificate.now.instructions) }
    ensures there { IfSome result (λ i. i < length certificate.now.instructions) }
    ensures low { IfSome result (λ i. IfSome below.entry (λ c. length (words_of c.frame.stack.now) ≤ 64)) }
    ensures some { IfSome result (λ i. GoesOnAt V.operations (claims_of V.operations certificate.now) (option_map (waiting_of certificate.now.instructions) below.entry) (taken_frame (seen_frame frame.entry)) place (entry_at certificate.now.instructions i)) }
    ensures none { IfNone result ((e : Entry V) → GoesOnAt V.operations (claims_of V.operations certificate.now) (option_map (waiting_of certificate.now.instructions) below.entry) (taken_frame (seen_frame frame.entry)) place e → ⊥) }
{
    let index = certificate.instruction_index(place)?;
    let routine = certificate.instruction(index, room).routine;
    if is_called(certificate, below, frame.result, routine, room) {
        Some(index)
    } else {
        None
    }
}

/// Whether a frame of a routine, whose result goes to a variable, may stand above another, or above none.
fn is_called<V: Spelled>(
    certificate: &Certificate<V>,
    below: Option<Caller<'_>>,
    variable: u8,
    routine: u16,
    room: &mut V::Room,
) -> bool
    requires { IfSome below (λ c. c.index < length certificate.now.instructions) }
    ensures low { IsTrue result → IfSome below.entry (λ c. length (words_of c.frame.stack.now) ≤ 64) }
    ensures value { IsTrue result ↔ IsCalled V.operations (claims_of V.operations certificate.now) (option_map (waiting_of certificate.now.instructions) below.entry) variable routine }
{
    match below {
        Some(caller) => routine > 0 && calls(certificate, caller, variable, routine, room),
        None => routine == 0,
    }
}

/// Whether a frame waits so that a routine may give any of its values to a variable.
fn calls<V: Spelled>(
    certificate: &Certificate<V>,
    caller: Caller<'_>,
    variable: u8,
    routine: u16,
    room: &mut V::Room,
) -> bool
    requires there { caller.index < length certificate.now.instructions }
    requires some { 0 < routine }
    ensures low { IsTrue result → length (words_of caller.entry.frame.stack.now) ≤ 64 }
    ensures value { IsTrue result ↔ ((x : ℕ) → In V.operations ((claims_of V.operations certificate.now).result routine) x → FitsWith V.operations (claims_of V.operations certificate.now) variable x (waiting_of certificate.now.instructions caller.entry).entry.shape (waiting_of certificate.now.instructions caller.entry).frame) }
{
    let listed = certificate.instruction(caller.index, room);
    let values = result_of(certificate, usize::from(routine) - 1);
    fits_with(certificate, &listed, caller.frame, variable, values)
}

/// The values that a routine may give, by its index: any, where there is none of the index.
fn result_of<V: Spelled>(certificate: &Certificate<V>, index: usize) -> V
    ensures { result ≡ (claims_of V.operations certificate.now).result (index + 1) }
{
    match certificate.routines().get(index) {
        Some(routine) => routine.result,
        None => V::any(),
    }
}

/// Whether the words of a frame lie in the sets that are listed, and are as many.
fn fits<V: Spelled>(listed: &Instruction<'_, V>, frame: SavedFrame<'_>) -> bool
    ensures low { IsTrue result → length (words_of frame.entry.stack.now) ≤ length listed.now.slots.now }
    ensures value { (certificate : ACertificate V) → IsTrue result ↔ Fits V.operations (claims_of V.operations certificate) (entry_of (seen listed.now)).shape (taken_frame (seen_frame frame.entry)).locals (taken_frame (seen_frame frame.entry)).stack }
{
    are_in(listed.locals, frame.locals) && are_in(listed.slots, frame.stack)
}

/// Whether a caller fits, whichever value of a set goes to a variable, and a global that takes it has it in its set.
fn fits_with<V: Spelled>(
    certificate: &Certificate<V>,
    listed: &Instruction<'_, V>,
    frame: SavedFrame<'_>,
    variable: u8,
    values: V,
) -> bool
    ensures low { IsTrue result → length (words_of frame.entry.stack.now) ≤ length listed.now.slots.now }
    ensures value { IsTrue result ↔ ((x : ℕ) → In V.operations values x → FitsWith V.operations (claims_of V.operations certificate.now) variable x (entry_of (seen listed.now)).shape (taken_frame (seen_frame frame.entry))) }
{
    if variable == 0 {
        fits_pushed(listed, frame, values)
    } else if variable < FIRST_GLOBAL {
        fits_stored(listed, frame, usize::from(variable) - 1, values)
    } else {
        let global = usize::from(variable - FIRST_GLOBAL);
        fits_beside(certificate, listed, frame, global, values)
    }
}

/// Whether a frame fits, and a global has each value of a set in its own.
fn fits_beside<V: Spelled>(
    certificate: &Certificate<V>,
    listed: &Instruction<'_, V>,
    frame: SavedFrame<'_>,
    global: usize,
    values: V,
) -> bool
    requires { global < 240 }
    ensures low { IsTrue result → length (words_of frame.entry.stack.now) ≤ length listed.now.slots.now }
    ensures value { IsTrue result ↔ ((x : ℕ) → In V.operations values x → FitsWith V.operations (claims_of V.operations certificate.now) (global + 16) x (entry_of (seen listed.now)).shape (taken_frame (seen_frame frame.entry))) }
{
    has_word(values);
    values.is_within(certificate.globals()[global]) && fits(listed, frame)
}

/// Whether a frame fits with any value of a set on top of its stack.
fn fits_pushed<V: Spelled>(listed: &Instruction<'_, V>, frame: SavedFrame<'_>, values: V) -> bool
    ensures low { IsTrue result → length (words_of frame.entry.stack.now) ≤ length listed.now.slots.now }
    ensures value { (certificate : ACertificate V) → IsTrue result ↔ ((x : ℕ) → In V.operations values x → FitsWith V.operations (claims_of V.operations certificate) 0 x (entry_of (seen listed.now)).shape (taken_frame (seen_frame frame.entry))) }
{
    has_word(values);
    match listed.slots.split_last() {
        Some((top, slots)) => {
            values.is_within(*top)
                && are_in(slots, frame.stack)
                && are_in(listed.locals, frame.locals)
        }
        None => false,
    }
}

/// Whether it does with any of them in the place of a local, if it has that.
fn fits_stored<V: Spelled>(
    listed: &Instruction<'_, V>,
    frame: SavedFrame<'_>,
    local: usize,
    values: V,
) -> bool
    requires { local < 15 }
    ensures low { IsTrue result → length (words_of frame.entry.stack.now) ≤ length listed.now.slots.now }
    ensures value { (certificate : ACertificate V) → IsTrue result ↔ ((x : ℕ) → In V.operations values x → FitsWith V.operations (claims_of V.operations certificate) (local + 1) x (entry_of (seen listed.now)).shape (taken_frame (seen_frame frame.entry))) }
{
    has_word(values);
    local < word_count(frame.locals)
        && are_in_with(listed.locals, frame.locals, local, values)
        && are_in(listed.slots, frame.stack)
}

//! What an instruction does to what is known.

use crate::code::{Code, short};
use crate::frame::{Frame, MOST_HEIGHT};
use crate::kind::Kind;
use crate::span::span;
use crate::state::State;
use std::alloc::{AllocError, Global};
use zdomain::Domain;
use zflow::{Edge, Flow, Globals, Lead, Outcome, argument_set, flow_of};
use zlist::Record;
use zruns::Tables;

/// How many words there are: a call names as many routines at most.
pub(crate) const WORDS: usize = 65_536;

/// What an instruction does, by its edges that can be taken.
#[derive(Drop)]
pub(crate) struct Effects<V> {
    pub(crate) held: Option<Effect<V>>,
    pub(crate) failed: Option<Effect<V>>,
}

/// What comes on an edge.
#[derive(Drop)]
pub(crate) struct Effect<V> {
    /// Where it leads in its routine, by the index of the instruction there, with what is known of the frame.
    pub(crate) to: Option<usize>,
    pub(crate) frame: Frame<V>,
    /// What goes to globals, by their variables: the result, and what is stored in place.
    pub(crate) given: Option<(u8, V)>,
    pub(crate) assigned: Option<(u8, V)>,
    /// What is returned.
    pub(crate) returned: Option<V>,
    /// The routines that are called, with their arguments.
    pub(crate) calls: Option<Calls<V>>,
}

/// A call of each routine at a packed address of a set, with its arguments. The sets may be those that are kept.
#[derive(Clone, Copy)]
pub(crate) struct Calls<S> {
    pub(crate) callees: S,
    /// Whether they are listed.
    pub(crate) naming: Naming,
    first: Option<S>,
    second: Option<S>,
    third: Option<S>,
    /// What comes back, as far as is known.
    given: Option<S>,
    /// How often results had grown when that was asked.
    growths: u32,
    /// How many routines were asked for it.
    pub(crate) asked: u32,
}

impl<S> Calls<S> {
    /// Whether it is known of anything that it comes back.
    pub(crate) fn comes_back(&self) -> bool {
        self.given.is_some()
    }
}

impl<V: Kind> Calls<V> {
    /// Keeps its sets.
    pub(crate) fn keep(self, shelf: &mut V::Shelf) -> Result<Calls<V::Kept>, AllocError> {
        Ok(Calls {
            callees: self.callees.shelve(shelf)?,
            naming: self.naming,
            first: keep_any(self.first, shelf)?,
            second: keep_any(self.second, shelf)?,
            third: keep_any(self.third, shelf)?,
            given: keep_any(self.given, shelf)?,
            growths: self.growths,
            asked: self.asked,
        })
    }

    /// The call whose sets are kept so.
    pub(crate) fn kept(calls: &Calls<V::Kept>, shelf: &V::Shelf) -> Calls<V> {
        Calls {
            callees: V::kept(calls.callees, shelf),
            naming: calls.naming,
            first: kept_any(calls.first, shelf),
            second: kept_any(calls.second, shelf),
            third: kept_any(calls.third, shelf),
            given: kept_any(calls.given, shelf),
            growths: calls.growths,
            asked: calls.asked,
        }
    }

    /// Whether what comes back of these routines is known by this call, where results have grown so often.
    fn is_as_given(&self, callees: V, growths: u32) -> bool {
        self.growths == growths && are_same(self.callees, callees)
    }

    /// Whether the call whose sets are kept so may be given more by the routine at a packed address.
    pub(crate) fn awaits(calls: &Calls<V::Kept>, shelf: &V::Shelf, packed: u16) -> bool {
        V::kept(calls.callees, shelf).contains(packed)
            && !Calls::<V>::kept(calls, shelf).gives_any()
    }

    /// Whether any word may come back, so that no more can.
    fn gives_any(&self) -> bool {
        match self.given {
            Some(set) => V::any().is_within(set),
            None => false,
        }
    }

    /// The routines that another call entered with the same or more arguments: all that it names, or those of them that are listed, where
    /// what breaks a rule may be marked.
    pub(crate) fn entered_by(&self, code: &Code<'_>, before: Option<&Calls<V>>) -> Option<V> {
        match before {
            Some(before) if before.enters_all(code) && self.gives_less(before) => {
                Some(before.callees)
            }
            _ => None,
        }
    }

    /// Whether each listed routine is entered that it names.
    fn enters_all(&self, code: &Code<'_>) -> bool {
        code.marks() || self.naming == Naming::Listed
    }

    /// Whether the arguments of another call have all values of these.
    fn gives_less(&self, before: &Calls<V>) -> bool {
        is_given_by(self.first, before.first)
            && is_given_by(self.second, before.second)
            && is_given_by(self.third, before.third)
    }

    /// An argument, by its index, if there is one.
    pub(crate) fn argument(&self, index: u8) -> Option<V> {
        match index {
            0 => self.first,
            1 => self.second,
            2 => self.third,
            _ => None,
        }
    }
}

/// An instruction, with what is known where it is visited.
#[derive(Clone, Copy)]
pub(crate) struct Visit<'a, V: Kind> {
    pub(crate) alloc: Global,
    pub(crate) code: &'a Code<'a>,
    pub(crate) state: &'a State<V>,
    pub(crate) record: &'a Record,
    /// What is known of the globals, the locals and the slots.
    pub(crate) globals: Globals<'a, V>,
    pub(crate) locals: &'a [V],
    pub(crate) slots: &'a [V],
    /// What is told of globals beside their own sets.
    pub(crate) told: &'a [(u8, V)],
    /// What it called when it was visited last, if it was visited and calls.
    pub(crate) before: Option<&'a Calls<V>>,
}

impl<'a, V: Kind> Visit<'a, V> {
    /// What may come of the instruction.
    pub(crate) fn flow(self, tables: &Tables<'_>) -> Flow<'a, V> {
        flow_of(
            tables,
            self.globals,
            self.locals,
            self.slots,
            &self.record.instruction,
        )
    }

    /// What the instruction does, where it may read more besides.
    pub(crate) fn effects(
        self,
        flow: &Flow<'_, V>,
        more: Option<V>,
    ) -> Result<Effects<V>, AllocError> {
        let count = self.slots.len().saturating_sub(flow.popped);
        let left = self.slots.get(..count).unwrap_or(&[]);
        Ok(Effects {
            held: self.effect_of(left, &flow.held, more)?,
            failed: self.effect_of(left, &flow.failed, more)?,
        })
    }

    /// What comes on an edge, if there is one that can be taken, on which the stack isn't too high. These slots aren't taken.
    fn effect_of(
        self,
        left: &[V],
        edge: &Option<Edge<'_, V>>,
        more: Option<V>,
    ) -> Result<Option<Effect<V>>, AllocError> {
        let Some(edge) = edge else {
            return Ok(None);
        };
        let target = self.record.instruction.target();
        let outcome = with_more(edge.outcome, more);
        let behind = Frame::behind(self.alloc, self.locals, left, &outcome, target)?;
        let Some(mut frame) = behind else {
            return Ok(None);
        };
        if self.code.tells() {
            frame.tell_behind(self.told, &outcome, target)?;
        }
        if frame.height() > MOST_HEIGHT {
            return Ok(None);
        }
        let mut effect = Effect {
            to: None,
            frame,
            given: global_given(target, outcome.gives),
            assigned: assigned_global(outcome.assigns),
            returned: None,
            calls: None,
        };
        self.lead(&mut effect, edge.lead)?;
        Ok(Some(effect))
    }

    /// Says where it leads.
    fn lead(self, effect: &mut Effect<V>, lead: Lead<V>) -> Result<(), AllocError> {
        match lead {
            Lead::Ahead(distance) => {
                effect.to = self.code.index_behind(self.next(), distance);
                Ok(())
            }
            Lead::Returning(set) => {
                effect.returned = Some(set);
                Ok(())
            }
            Lead::Entering(callees) => {
                effect.frame.forget();
                self.call(effect, callees)
            }
        }
    }

    /// Says what is called, and what comes back as far as is known.
    fn call(self, effect: &mut Effect<V>, callees: V) -> Result<(), AllocError> {
        let calls = self.calls(callees);
        effect.calls = Some(calls);
        let target = self.record.instruction.target();
        let Some(result) = calls.given else {
            return Ok(());
        };
        if target == 0 && effect.frame.height() >= MOST_HEIGHT {
            return Ok(());
        }
        effect.frame.give(target, result)?;
        effect.given = global_given(target, Some(result));
        effect.to = self.code.index_behind(self.next(), 0);
        Ok(())
    }

    /// Its call of these routines.
    fn calls(self, callees: V) -> Calls<V> {
        let (given, asked) = self.given_by(callees);
        Calls {
            callees,
            naming: naming_of(self.code, callees),
            first: self.argument(0),
            second: self.argument(1),
            third: self.argument(2),
            given,
            growths: self.state.result_growths(),
            asked,
        }
    }

    /// What they give, as far as is known, and how many were asked: none, where nothing has changed since the last visit.
    fn given_by(self, callees: V) -> (Option<V>, u32) {
        match self.before {
            Some(before) if before.is_as_given(callees, self.state.result_growths()) => {
                (before.given, 0)
            }
            Some(before) if self.code.marks() && before.gives_any() => (before.given, 0),
            _ => given_by(self.code, self.state, callees),
        }
    }

    /// The place behind the instruction.
    fn next(self) -> usize {
        (self.record.address as usize).saturating_add(self.record.instruction.length())
    }

    /// An operand behind the first, by its place among those.
    pub(crate) fn argument(self, index: usize) -> Option<V> {
        argument_set(
            self.globals,
            self.locals,
            self.slots,
            &self.record.instruction,
            index,
        )
    }
}

/// How many routines a set of packed addresses names.
pub(crate) fn callee_count<V: Kind>(callees: V) -> u32 {
    match callees.told() {
        0 => span(callees),
        told => short(told),
    }
}

/// Keeps a set, if there is one.
fn keep_any<V: Kind>(set: Option<V>, shelf: &mut V::Shelf) -> Result<Option<V::Kept>, AllocError> {
    match set {
        Some(set) => Ok(Some(set.shelve(shelf)?)),
        None => Ok(None),
    }
}

/// The set that is kept so, if there is one.
fn kept_any<V: Kind>(kept: Option<V::Kept>, shelf: &V::Shelf) -> Option<V> {
    Some(V::kept(kept?, shelf))
}

/// What is stored in place, if that is to a global.
fn assigned_global<V: Domain>(assigns: Option<(u8, V)>) -> Option<(u8, V)> {
    match assigns {
        Some((variable, set)) => global_given(variable, Some(set)),
        None => None,
    }
}

/// What goes to a variable, if that is a global.
fn global_given<V: Domain>(variable: u8, set: Option<V>) -> Option<(u8, V)> {
    match set {
        Some(set) if variable >= 16 => Some((variable, set)),
        _ => None,
    }
}

/// Whether the routines are listed that a call may name.
#[derive(Clone, Copy, PartialEq, Eq)]
pub(crate) enum Naming {
    /// All are.
    Listed,
    /// Not all, and heads stand at those that aren't, so that a certificate may list them.
    Listable,
    /// At one of these no head stands, so that none can.
    Headless,
}

/// Whether the routines at the packed addresses of a set are listed.
pub(crate) fn naming_of<V: Domain>(code: &Code<'_>, callees: V) -> Naming {
    if !code.has_unlisted(callees) {
        Naming::Listed
    } else if code.has_headless(callees) {
        Naming::Headless
    } else {
        Naming::Listable
    }
}

/// What the routines at the packed addresses of a set give, as far as is known: anything, where one of them is none, and nothing yet,
/// where they are still to be listed. And how many were asked.
fn given_by<V: Kind>(code: &Code<'_>, state: &State<V>, callees: V) -> (Option<V>, u32) {
    match naming_of(code, callees) {
        Naming::Listed => returned_by(code, state, callees),
        Naming::Listable if code.waits() => (None, 0),
        _ if code.marks() => returned_by_listed(code, state, callees),
        _ => (Some(V::any()), 0),
    }
}

/// What those of the routines gave so far that are listed, and how many routines were asked.
fn returned_by_listed<V: Kind>(code: &Code<'_>, state: &State<V>, callees: V) -> (Option<V>, u32) {
    let mut given = None;
    let count = code.routines().len().min(0xffff) as u16;
    for below in 0..count {
        if callees.contains(code.packed_of(below + 1)) {
            given = joined(given, state.result(below + 1));
        }
    }
    (given, u32::from(count))
}

/// What those routines gave so far, and how many there are.
fn returned_by<V: Kind>(code: &Code<'_>, state: &State<V>, callees: V) -> (Option<V>, u32) {
    let mut given = None;
    let mut asked = 0u32;
    let mut callee = callees.least_from(1);
    for _ in 0..WORDS {
        let Some(packed) = callee else {
            return (given, asked);
        };
        if let Some(number) = code.routine_of(packed) {
            given = joined(given, state.result(number));
        }
        asked = asked.saturating_add(1);
        callee = next_callee(callees, packed);
    }
    (given, asked)
}

/// Whether nothing is known that one of those routines gives.
pub(crate) fn is_awaited<V: Kind>(code: &Code<'_>, state: &State<V>, callees: V) -> bool {
    let mut callee = callees.least_from(1);
    for _ in 0..WORDS {
        let Some(packed) = callee else {
            return false;
        };
        match code.routine_of(packed) {
            Some(number) if state.result(number).is_some() => {}
            _ => return true,
        }
        callee = next_callee(callees, packed);
    }
    false
}

/// The next word of a set behind one.
pub(crate) fn next_callee<V: Domain>(callees: V, packed: u16) -> Option<u16> {
    callees.least_from(packed.checked_add(1)?)
}

/// Whether a word is one of a set, if there is one.
pub(crate) fn has<V: Domain>(set: Option<V>, word: u16) -> bool {
    match set {
        Some(set) => set.contains(word),
        None => false,
    }
}

/// Whether all words are of a set, if there is one.
pub(crate) fn has_all<V: Domain>(set: Option<V>, words: V) -> bool {
    match set {
        Some(set) => words.is_within(set),
        None => false,
    }
}

/// Whether nothing is known to come back of calls.
pub(crate) fn is_stuck<S>(calls: &Option<Calls<S>>) -> bool {
    match calls {
        Some(calls) => !calls.comes_back(),
        None => false,
    }
}

/// Whether each set is within the other.
fn are_same<V: Domain>(one: V, other: V) -> bool {
    one.is_within(other) && other.is_within(one)
}

/// Whether an argument has no value that it hasn't in another call; there, too, it is none where it is none here.
fn is_given_by<V: Domain>(now: Option<V>, before: Option<V>) -> bool {
    match (now, before) {
        (Some(now), Some(before)) => now.is_within(before),
        (None, None) => true,
        _ => false,
    }
}

/// What may come, where more may be read besides.
fn with_more<V: Domain>(outcome: Outcome<V>, more: Option<V>) -> Outcome<V> {
    match more {
        Some(_) => Outcome {
            gives: joined(outcome.gives, more),
            ..outcome
        },
        None => outcome,
    }
}

/// The words of either, where there are some.
fn joined<V: Domain>(one: Option<V>, other: Option<V>) -> Option<V> {
    match (one, other) {
        (Some(one), Some(other)) if other.is_within(one) => Some(one),
        (Some(one), Some(other)) => Some(one.join(other)),
        (Some(set), None) | (None, Some(set)) => Some(set),
        (None, None) => None,
    }
}

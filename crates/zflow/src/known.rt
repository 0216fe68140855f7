//! What is known of a frame.

ghost use Rattle.std.specs.Prelude.{◌≡◌, ◌↔◌, ◌≤◌, IsTrue, Some, length, reverse};
ghost use Rattle.std.specs.List.{AllZip};
ghost use Rattle.zdomain.specs.Domain.{Within};
ghost use Rattle.zflow.specs.Transfer.{narrowed, with_assigned, with_result};
ghost use Rattle.zflow.specs.Kept.{shape_of};

use crate::local_sets::{LocalSets, change_of};
use crate::parts::Outcome;
use crate::slot_sets::{SlotSets, pushed_by};
use std::marker::Model;
use zdomain::Domain;

/// What is known of a frame behind an instruction: the values that each local may have, and each slot of its stack. The sets that are
/// stated before the instruction are lent, with the few that it changes. Contracts see the shape, with the top slot first.
#[derive(Drop)]
pub struct Known<'a, V> {
    locals: LocalSets<'a, V>,
    slots: SlotSets<'a, V>,
}

impl<'a, V> Model for Known<'a, V> {
    ghost use Rattle.zflow.specs.Transfer.{Shape};
    ghost use Rattle.zflow.specs.Lent.{locals_seen, slots_seen};

    ghost Value = { Shape V };

    ghost view = { λ known. record { locals = locals_seen known.locals; slots = slots_seen known.slots } };
}

impl<'a, V: Domain> Known<'a, V> {
    /// What is known behind an outcome that gives its result to the variable `target`, where what a branch says leaves each local a
    /// value. The locals and the slots, the top last, are those that the operands left.
    pub(crate) fn after(
        locals: &'a [V],
        slots: &'a [V],
        outcome: &Outcome<V>,
        target: u8,
    ) -> Option<Known<'a, V>>
        ensures { result ≡ narrowed V.operations outcome.now.kept (with_result outcome.now.gives target (with_assigned outcome.now.assigns (shape_of locals.now slots.now))) }
    {
        Some(Known {
            locals: LocalSets::after(locals, outcome, target)?,
            slots: SlotSets::after(slots, outcome, target),
        })
    }

    /// Whether its stack has at most so many slots.
    pub fn is_at_most(&self, height: usize) -> bool
        ensures { IsTrue result ↔ (length self.now.slots ≤ height) }
    {
        self.slots.are_at_most(height)
    }

    /// Whether sets of locals and of slots, the top last, say no more than this: as many, and each contains its own.
    pub fn is_within(&self, locals: &[V], slots: &[V]) -> bool
        ensures { IsTrue result ↔ (AllZip (Within V.operations) self.now.locals locals.now × AllZip (Within V.operations) self.now.slots (reverse slots.now)) }
    {
        self.locals.are_within(&None, locals) && self.slots.are_within(&None, slots)
    }

    /// Whether they say no more than this does once the variable `target` is given a value of a set.
    pub fn is_within_given(&self, set: V, target: u8, locals: &[V], slots: &[V]) -> bool
        ensures { IsTrue result ↔ (AllZip (Within V.operations) (with_result (Some set) target self.now).locals locals.now × AllZip (Within V.operations) (with_result (Some set) target self.now).slots (reverse slots.now)) }
    {
        self.locals.are_within(&change_of(target, set), locals)
            && self.slots.are_within(&pushed_by(Some(set), target), slots)
    }
}

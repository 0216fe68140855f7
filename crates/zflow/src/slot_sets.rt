//! The sets of a frame's slots, lent, with those that an instruction changes.

ghost use Rattle.std.specs.Prelude.{◌≡◌, ◌↔◌, ◌≤◌, IsTrue, List, MatchOption, None, length, reverse, slice_set};
ghost use Rattle.std.specs.List.{AllZip};
ghost use Rattle.zdomain.specs.Domain.{Within};
ghost use Rattle.zflow.specs.Transfer.{slots_with, with_assigned, with_result};
ghost use Rattle.zflow.specs.Kept.{shape_of};
ghost use Rattle.zflow.specs.Lent.{on_top, slots_seen};

use crate::parts::Outcome;
use zdomain::Domain;

/// The sets of slots: those that are lent, the top last, and at most two above them.
#[derive(Drop)]
pub(crate) struct SlotSets<'a, V> {
    lent: &'a [V],
    /// In the place of the top slot, which is then not lent.
    replaced: Option<V>,
    pushed: Option<V>,
}

impl<'a, V: Domain> SlotSets<'a, V> {
    /// The sets with what is given in place and then to the variable `target`.
    pub(crate) fn after(lent: &'a [V], outcome: &Outcome<V>, target: u8) -> SlotSets<'a, V>
        ensures { (locals : List V) → slots_seen result ≡ (with_result outcome.now.gives target (with_assigned outcome.now.assigns (shape_of locals lent.now))).slots }
    {
        SlotSets {
            pushed: pushed_by(outcome.gives, target),
            ..SlotSets::assigned(lent, outcome.assigns)
        }
    }

    /// The sets with what is given in place.
    fn assigned(lent: &'a [V], assigns: Option<(u8, V)>) -> SlotSets<'a, V>
        ensures sets { (locals : List V) → slots_seen result ≡ (with_assigned assigns (shape_of locals lent.now)).slots }
        ensures pushed { result.pushed ≡ None }
    {
        match assigns {
            Some((0, set)) => SlotSets::topped(lent, set),
            _ => SlotSets::of(lent, None),
        }
    }

    /// The sets with another in the place of the top, if there is one.
    fn topped(lent: &'a [V], set: V) -> SlotSets<'a, V>
        ensures sets { slots_seen result ≡ slice_set (reverse lent.now) 0 set }
        ensures pushed { result.pushed ≡ None }
    {
        match lent {
            [] => SlotSets::of(lent, None),
            [below @ .., _] => SlotSets::of(below, Some(set)),
        }
    }

    /// The sets that are lent, and above them one, if there is one.
    fn of(lent: &'a [V], replaced: Option<V>) -> SlotSets<'a, V>
        ensures sets { slots_seen result ≡ on_top replaced (reverse lent.now) }
        ensures pushed { result.pushed ≡ None }
    {
        SlotSets {
            lent,
            replaced,
            pushed: None,
        }
    }

    /// Whether there are at most so many slots.
    pub(crate) fn are_at_most(&self, most: usize) -> bool
        ensures { IsTrue result ↔ (length (slots_seen self.now) ≤ most) }
    {
        let above = usize::from(self.replaced.is_some()) + usize::from(self.pushed.is_some());
        match most.checked_sub(above) {
            Some(room) => self.lent.len() <= room,
            None => false,
        }
    }

    /// Whether each set, with one more on top, is within the one in the same place, where the top is the last.
    pub(crate) fn are_within(&self, top: &Option<V>, to: &[V]) -> bool
        ensures { IsTrue result ↔ AllZip (Within V.operations) (on_top top.now (slots_seen self.now)) (reverse to.now) }
    {
        let Some(below_top) = below(top, to) else {
            return false;
        };
        let Some(below_pushed) = below(&self.pushed, below_top) else {
            return false;
        };
        let Some(below_replaced) = below(&self.replaced, below_pushed) else {
            return false;
        };
        each_within(self.lent, below_replaced)
    }
}

/// What is pushed, where a result goes to the stack.
pub(crate) fn pushed_by<V: Domain>(gives: Option<V>, target: u8) -> Option<V>
    ensures { (slots : List V) → on_top result slots ≡ slots_with gives target slots }
{
    match gives {
        Some(set) if target == 0 => Some(set),
        _ => None,
    }
}

/// The sets below the top one, where a set is within that; all, where there is none to compare.
fn below<'a, V: Domain>(set: &Option<V>, to: &'a [V]) -> Option<&'a [V]>
    ensures { (sets : List V) → AllZip (Within V.operations) (on_top set.now sets) (reverse to.now) ↔ MatchOption result ⊥ (λ rest. AllZip (Within V.operations) sets (reverse rest.now)) }
{
    match (set, to) {
        (None, _) => Some(to),
        (Some(set), [rest @ .., top]) if set.is_within(*top) => Some(rest),
        _ => None,
    }
}

/// Whether each set is within the one in the same place.
fn each_within<V: Domain>(from: &[V], to: &[V]) -> bool
    ensures { IsTrue result ↔ AllZip (Within V.operations) from.now to.now }
{
    match (from, to) {
        ([], []) => true,
        ([inner, from @ ..], [outer, to @ ..]) => inner.is_within(*outer) && each_within(from, to),
        _ => false,
    }
}

//! The sets of a frame's locals, lent, with those that an instruction changes.

ghost use Rattle.std.specs.Prelude.{◌≡◌, ◌↔◌, IsTrue, List, None, Some, drop, option_map, slice_get, slice_index_or};
ghost use Rattle.std.specs.List.{AllZip};
ghost use Rattle.zdomain.specs.Domain.{Within};
ghost use Rattle.zflow.specs.Transfer.{locals_with, narrowed, narrowed_by, with_assigned, with_result};
ghost use Rattle.zflow.specs.Kept.{shape_of};
ghost use Rattle.zflow.specs.Lent.{locals_seen, put};

use crate::parts::Outcome;
use zdomain::Domain;

/// The sets of locals, with at most four in the place of those that are lent. Each is kept with the index of its local; of two for one
/// local, that of the later field counts.
#[derive(Drop)]
pub(crate) struct LocalSets<'a, V> {
    lent: &'a [V],
    assigned: Option<(u8, V)>,
    given: Option<(u8, V)>,
    first_kept: Option<(u8, V)>,
    second_kept: Option<(u8, V)>,
}

impl<'a, V: Domain> LocalSets<'a, V> {
    /// The sets behind an instruction, where what a branch says leaves each local a value.
    pub(crate) fn after(lent: &'a [V], outcome: &Outcome<V>, target: u8) -> Option<LocalSets<'a, V>>
        ensures { (slots : List V) → option_map (λ l. record { locals = locals_seen l; slots = slots }) result ≡ narrowed V.operations outcome.now.kept (record { locals = (with_result outcome.now.gives target (with_assigned outcome.now.assigns (shape_of lent.now slots))).locals; slots = slots }) }
    {
        let mut sets = LocalSets::changed(lent, outcome.assigns, outcome.gives, target);
        sets.first_kept = sets.narrowed_by(outcome.kept.first)?;
        sets.second_kept = sets.narrowed_by(outcome.kept.second)?;
        Some(sets)
    }

    /// The sets with what is given in place and then to the variable `target`.
    fn changed(
        lent: &'a [V],
        assigns: Option<(u8, V)>,
        gives: Option<V>,
        target: u8,
    ) -> LocalSets<'a, V>
        ensures sets { (slots : List V) → locals_seen result ≡ (with_result gives target (with_assigned assigns (shape_of lent.now slots))).locals }
        ensures first { result.first_kept ≡ None }
        ensures second { result.second_kept ≡ None }
    {
        let assigned = match assigns {
            Some((variable, set)) => change_of(variable, set),
            None => None,
        };
        let given = match gives {
            Some(set) => change_of(target, set),
            None => None,
        };
        LocalSets {
            lent,
            assigned,
            given,
            first_kept: None,
            second_kept: None,
        }
    }

    /// What a branch says of a local, if of one, where that leaves it a value.
    fn narrowed_by(&self, kept: Option<(u8, V)>) -> Option<Option<(u8, V)>>
        ensures { (slots : List V) → option_map (λ change. record { locals = put change (locals_seen self.now); slots = slots }) result ≡ narrowed_by V.operations kept (record { locals = locals_seen self.now; slots = slots }) }
    {
        let Some((variable, set)) = kept else {
            return Some(None);
        };
        let index = variable.saturating_sub(1);
        let before = self.at_or_any(usize::from(index));
        Some(Some((index, before.meet(set)?)))
    }

    /// The set of a local, by its index; one that isn't there may have any value.
    fn at_or_any(&self, index: usize) -> V
        ensures { result ≡ slice_index_or (locals_seen self.now) index V.operations.any }
    {
        match self.at(index) {
            Some(set) => *set,
            None => V::any(),
        }
    }

    /// The set of a local, by its index. It is lent, since a set may be a long list.
    fn at(&self, index: usize) -> Option<&V>
        ensures { option_map (λ set. set.now) result ≡ slice_get (locals_seen self.now) index }
    {
        let lent = self.lent.get(index)?;
        let assigned = at_or(&self.assigned, index, lent);
        let given = at_or(&self.given, index, assigned);
        let first_kept = at_or(&self.first_kept, index, given);
        Some(at_or(&self.second_kept, index, first_kept))
    }

    /// The set of a local, by its index, with one more change.
    fn at_with<'s>(&'s self, change: &'s Option<(u8, V)>, index: usize) -> Option<&'s V>
        ensures { option_map (λ set. set.now) result ≡ slice_get (put change.now (locals_seen self.now)) index }
    {
        let set = self.at(index)?;
        Some(at_or(change, index, set))
    }

    /// Whether each set, with one more change, is within the one in the same place.
    pub(crate) fn are_within(&self, change: &Option<(u8, V)>, to: &[V]) -> bool
        ensures { IsTrue result ↔ AllZip (Within V.operations) (put change.now (locals_seen self.now)) to.now }
    {
        self.are_within_from(change, 0, to)
    }

    /// Whether each of them from an index on is within the one in the same place.
    fn are_within_from(&self, change: &Option<(u8, V)>, index: usize, to: &[V]) -> bool
        ensures { IsTrue result ↔ AllZip (Within V.operations) (drop index (put change.now (locals_seen self.now))) to.now }
    {
        let _count = self.lent.len();
        match ((&*self).at_with(&*change, index), to) {
            (None, []) => true,
            (Some(inner), [outer, to @ ..]) => {
                inner.is_within(*outer) && self.are_within_from(change, index + 1, to)
            }
            _ => false,
        }
    }
}

/// A local that a variable's number names, by its index, with its set. A global and the stack are no locals.
pub(crate) fn change_of<V: Domain>(variable: u8, set: V) -> Option<(u8, V)>
    ensures { (locals : List V) → put result locals ≡ locals_with (Some set) variable locals }
{
    if 1 <= variable && variable < 16 {
        Some((variable - 1, set))
    } else {
        None
    }
}

/// The set at an index where a change was made, and `set` where that was at another.
pub(crate) fn at_or<'s, V: Domain>(change: &'s Option<(u8, V)>, index: usize, set: &'s V) -> &'s V
    ensures { (sets : List V) → slice_get sets index ≡ Some set.now → slice_get (put change.now sets) index ≡ Some result.now }
{
    match change {
        Some((changed, new)) if usize::from(*changed) == index => new,
        _ => set,
    }
}

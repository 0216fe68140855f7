//! The sets of globals, before and behind an instruction.

ghost use Rattle.std.specs.Prelude.{◌≡◌, List, Some, slice_get};
ghost use Rattle.zflow.specs.Lent.{globals_seen, put};
ghost use Rattle.zflow.specs.Transfer.{globals_after, globals_named, globals_with, with_facts};

use crate::local_sets::at_or;
use crate::parts::Outcome;
use zcert::Fact;
use zdomain::Domain;

/// The sets that globals have at a place: those of their own, and in their place those of the facts that are stated there.
#[derive(Clone, Copy)]
pub struct Globals<'a, V> {
    /// The sets of their own, from variable 16 on.
    pub own: &'a [V],
    /// The facts that are stated at the place.
    pub facts: &'a [Fact<V>],
}

impl<'a, V: Domain> Globals<'a, V> {
    /// The sets of their own, where no fact is stated.
    pub fn of(own: &'a [V]) -> Globals<'a, V>
        ensures { globals_seen result ≡ own.now }
    {
        Globals { own, facts: &[] }
    }

    /// The set of a global, by its index.
    pub fn get(self, index: usize) -> Option<V>
        ensures { result ≡ slice_get (globals_seen self.entry) index }
    {
        let own = self.own.get(index)?;
        Some(*stated(self.facts, index, own))
    }
}

/// The set that facts state for a global, by its index, and `before` where none of them is of it. Sets are lent, since one may be a long
/// list, and is asked of each fact.
fn stated<'a, V: Domain>(facts: &'a [Fact<V>], index: usize, before: &'a V) -> &'a V
    ensures { (globals : List V) → slice_get globals index ≡ Some before.now → slice_get (with_facts globals facts.now) index ≡ Some result.now }
{
    match facts {
        [] => before,
        [fact, rest @ ..] => stated(rest, index, told_or(fact, index, before)),
    }
}

/// The set of a fact, where it is of the global of this index, and else the other.
fn told_or<'a, V: Domain>(fact: &'a Fact<V>, index: usize, other: &'a V) -> &'a V
    ensures { (globals : List V) → slice_get globals index ≡ Some other.now → slice_get (put (Some (fact.now.global, fact.now.values)) globals) index ≡ Some result.now }
{
    if usize::from(fact.global) == index {
        &fact.values
    } else {
        other
    }
}

/// The set of a global behind an outcome that gives its result to the variable `target`, by its index, where the globals have these sets
/// before it.
pub fn global_behind<V: Domain>(
    globals: Globals<'_, V>,
    outcome: &Outcome<V>,
    target: u8,
    index: u8,
) -> Option<V>
    ensures { result ≡ slice_get (globals_after (globals_seen globals.entry) target outcome.now) index }
{
    let index = usize::from(index);
    let before = globals.get(index)?;
    let assigned = named_global(outcome.assigns);
    let given = given_global(outcome.gives, target);
    let first_kept = named_global(outcome.kept.first_global);
    let second_kept = named_global(outcome.kept.second_global);
    let with_assigned = at_or(&assigned, index, &before);
    let with_given = at_or(&given, index, with_assigned);
    let with_first = at_or(&first_kept, index, with_given);
    Some(*at_or(&second_kept, index, with_first))
}

/// A global that a variable's number names, by its index, with its set. A local and the stack are no globals.
fn named_global<V: Domain>(change: Option<(u8, V)>) -> Option<(u8, V)>
    ensures { (globals : List V) → put result globals ≡ globals_named change globals }
{
    let (variable, set) = change?;
    given_global(Some(set), variable)
}

/// The global that takes a result, if it is one.
fn given_global<V: Domain>(set: Option<V>, variable: u8) -> Option<(u8, V)>
    ensures { (globals : List V) → put result globals ≡ globals_with set variable globals }
{
    let set = set?;
    if variable < 16 {
        return None;
    }
    Some((variable - 16, set))
}

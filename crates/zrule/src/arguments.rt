//! The arguments that a routine is called with.

ghost use Rattle.std.specs.Prelude.{◌≡◌, ◌↔◌, IsTrue, drop, slice_get};
ghost use Rattle.std.specs.List.{AllZip};
ghost use Rattle.zdomain.specs.Domain.{Within};
ghost use Rattle.zcert.specs.Listed.{seen};
ghost use Rattle.zflow.specs.Transfer.{argument_sets};
ghost use Rattle.zrule.specs.Blocks.{sets_of};
ghost use Rattle.zrule.specs.Claims.{claims_of, entry_of, globals_at};

use crate::site::Site;
use zcert::Spelled;
use zdomain::Domain;

/// The set of each argument: there are at most three (Z 6.4.1).
#[derive(Clone, Copy)]
pub enum Arguments<V> {
    Zero,
    One(V),
    Two(V, V),
    Three(V, V, V),
}

impl<V: Domain> Arguments<V> {
    /// The set of the first, if there is one.
    pub(crate) fn first(self) -> Option<V>
        ensures { result ≡ slice_get (sets_of self) 0 }
    {
        match self {
            Arguments::Zero => None,
            Arguments::One(first) => Some(first),
            Arguments::Two(first, _) => Some(first),
            Arguments::Three(first, _, _) => Some(first),
        }
    }

    /// Those behind the first.
    pub(crate) fn rest(self) -> Arguments<V>
        ensures { sets_of result ≡ drop 1 (sets_of self) }
    {
        match self {
            Arguments::Zero => Arguments::Zero,
            Arguments::One(_) => Arguments::Zero,
            Arguments::Two(_, second) => Arguments::One(second),
            Arguments::Three(_, second, third) => Arguments::Two(second, third),
        }
    }

    /// Whether there are as many others, and each set lies in that of the other.
    pub(crate) fn are_within(self, others: Arguments<V>) -> bool
        ensures { IsTrue result ↔ AllZip (Within V.operations) (sets_of self) (sets_of others) }
    {
        match (self, others) {
            (Arguments::Zero, Arguments::Zero) => true,
            (Arguments::One(first), Arguments::One(other)) => first.is_within(other),
            (Arguments::Two(first, second), Arguments::Two(other, next)) => {
                first.is_within(other) && second.is_within(next)
            }
            (Arguments::Three(first, second, third), Arguments::Three(other, next, last)) => {
                first.is_within(other) && second.is_within(next) && third.is_within(last)
            }
            _ => false,
        }
    }
}

/// The arguments that an instruction calls a routine with.
pub(crate) fn arguments_of<V: Spelled>(site: Site<'_, V>) -> Arguments<V>
    ensures { sets_of result ≡ argument_sets V.operations (globals_at (claims_of V.operations site.entry.certificate.now) site.entry.listed.now.address) site.entry.instruction.now (entry_of (seen site.entry.listed.now)).shape }
{
    let Some(first) = site.argument(0) else {
        return Arguments::Zero;
    };
    let Some(second) = site.argument(1) else {
        return Arguments::One(first);
    };
    match site.argument(2) {
        Some(third) => Arguments::Three(first, second, third),
        None => Arguments::Two(first, second),
    }
}

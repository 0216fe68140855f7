//! What rules ask of facts on globals.

ghost use Rattle.std.specs.Prelude.{◌↔◌, IsTrue, MatchOption};
ghost use Rattle.zcert.specs.Facts.{facts_at};
ghost use Rattle.zdomain.specs.Domain.{Within};
ghost use Rattle.zrule.specs.Rules.{AreImplied};

use zcert::{Certificate, Fact, Spelled};
use zflow::Globals;

/// Whether what is known of the global of a fact, if it is there, lies in the set of the fact.
pub(crate) fn is_implied<V: Spelled>(known: Option<V>, fact: Fact<V>) -> bool
    ensures { IsTrue result ↔ MatchOption known ⊥ (λ a. Within V.operations a fact.values) }
{
    match known {
        Some(set) => set.is_within(fact.values),
        None => false,
    }
}

/// Whether the facts at an address hold of all that the globals may have.
pub fn hold_anyway<V: Spelled>(certificate: &Certificate<V>, address: u32) -> bool
    ensures { IsTrue result ↔ AreImplied V.operations certificate.now.globals (facts_at certificate.now.facts address) }
{
    are_implied(certificate.globals(), certificate.facts_at(address))
}

/// Whether facts hold wherever the globals lie in these sets.
fn are_implied<V: Spelled>(globals: &[V], facts: &[Fact<V>]) -> bool
    ensures { IsTrue result ↔ AreImplied V.operations globals.now facts.now }
{
    match facts {
        [] => true,
        [fact, rest @ ..] => {
            let known = Globals::of(globals).get(usize::from(fact.global));
            is_implied(known, *fact) && are_implied(globals, rest)
        }
    }
}

//! The facts on globals at an address.

ghost use Rattle.std.specs.Prelude.{◌≡◌};
ghost use Rattle.zcert.specs.Facts.{FactsRise, facts_at};

use crate::parts::Fact;

/// Those that are stated at an address, of facts that rise.
pub(crate) fn stated_at<V>(facts: &[Fact<V>], address: u32) -> &[Fact<V>]
    requires { FactsRise 0 0 facts.now }
    ensures { result.now ≡ facts_at facts.now address }
{
    let start = facts.partition_point(|fact| fact.address < address);
    let behind = &facts[start..];
    let count = behind.partition_point(|fact| fact.address <= address);
    &behind[..count]
}

//! Two sets that tell their words one by one.

ghost use Rattle.std.specs.Prelude.{◌≡◌};
ghost use Rattle.zpairs.specs.Members.{both, members};

use zdomain::{Domain, Few};

/// All words of two sets, where each of them tells its own.
pub fn members<V: Domain>(first: V, second: V) -> Option<(Few, Few)>
    ensures { result ≡ members V.operations first second }
{
    both(first.few(), second.few())
}

/// Both lists, where there are two.
fn both(first: Option<Few>, second: Option<Few>) -> Option<(Few, Few)>
    ensures { result ≡ both first second }
{
    match (first, second) {
        (Some(words), Some(others)) => Some((words, others)),
        (Some(_), None) | (None, _) => None,
    }
}

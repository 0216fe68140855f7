//! Laws of the definitions: the contracts of these functions, which do nothing.

ghost use Rattle.std.specs.Prelude.{◌≡◌, ◌≢◌, List, Some, All};
ghost use Rattle.json.specs.Json.{document};
ghost use Rattle.zjson.specs.Objects.{ArePlain, Pair, object_of, object_text};

/// What is written of members reads as their object, each name with its value, in their order.
#[tactic(auto, using(crate::proofs::Lines::reads_back))]
pub fn objects_read_back()
    ensures { (pairs : List Pair) → ArePlain pairs → document (object_text pairs) ≡ Some (object_of pairs) }
{}

/// No line ends within an object, so that each line is one.
pub fn objects_are_lines()
    ensures { (pairs : List Pair) → ArePlain pairs → All (λ byte. byte ≢ 10) (object_text pairs) }
{}

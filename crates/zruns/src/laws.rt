//! The law of elements: the contract of a function that does nothing.

ghost use Rattle.std.specs.Prelude.{◌≡◌, ℕ, Bool, IsTrue, List, Some};
ghost use Rattle.zstory.specs.Bytes.{AreBytes, byte_at};
ghost use Rattle.zdomain.specs.Domain.{In};
ghost use Rattle.zarray.specs.declared.width.Width.{Width};
ghost use Rattle.zarray.specs.Arrays.{element_at, place_of};
ghost use Rattle.zpairs.specs.Frozen.{FrozenStory, frozen_by};
ghost use Rattle.zplace.specs.Bytes.{IsFixed};
ghost use Rattle.zruns.specs.Runs.{EachPlace, elements};

use zdomain::Domain;

/// Whatever holds of each place where an element of two sets may lie holds of the element at an array and an index of them; and whatever is
/// read there lies in the set of their elements: in any memory that has each fixed byte as the story had it.
pub fn elements_lie_in_their_sets<V: Domain>()
    ensures places { (width : Width) (arrays indices : V) (holds : ℕ → Bool) (a i : ℕ) → In V.operations arrays a → In V.operations indices i → EachPlace V.operations width arrays indices (λ p. IsTrue (holds p)) → IsTrue (holds (place_of width a i)) }
    ensures elements { (told : FrozenStory) (now : List ℕ) (width : Width) (arrays indices : V) (a i x : ℕ) → In V.operations arrays a → In V.operations indices i → ((p : ℕ) → IsFixed told.story (frozen_by told.ranges) p → byte_at now p ≡ byte_at told.story.memory p) → AreBytes now → element_at width now (place_of width a i) ≡ Some x → In V.operations (elements V.operations told width arrays indices) x }
{}

//! The law of answers: the contract of a function that does nothing.

ghost use Rattle.std.specs.Prelude.{◌≡◌, ◌≤◌, ℕ, List, Ok};
ghost use Rattle.zstory.specs.Bytes.{AreBytes, byte_at};
ghost use Rattle.zdomain.specs.Domain.{In};
ghost use Rattle.zobj.specs.declared.answers.PropertyQuestion.TheVariants.{Value, Address, Next};
ghost use Rattle.zobj.specs.Answers.{answer_of};
ghost use Rattle.zobj.specs.Properties.{property_of};
ghost use Rattle.zobj.specs.Values.{default_word};
ghost use Rattle.zplace.specs.Bytes.{IsFixed};
ghost use Rattle.zpairs.specs.Frozen.{FrozenStory, frozen_by};
ghost use Rattle.zpairs.specs.Pairs.{answers};

use zdomain::Domain;

/// Whatever is answered of an object and a number of two sets lies in the set of their answers: in any memory that has the property
/// where the story had it, and for its value the same default and the same fixed bytes.
pub fn answers_lie_in_their_sets<V: Domain>()
    ensures value { (told : FrozenStory) (now : List ℕ) (objects numbers : V) (x n v : ℕ) → 1 ≤ x → x ≤ told.story.objects → In V.operations objects x → In V.operations numbers n → property_of now x n ≡ property_of told.story.memory x n → default_word now n ≡ default_word told.story.memory n → ((p : ℕ) → IsFixed told.story (frozen_by told.ranges) p → byte_at now p ≡ byte_at told.story.memory p) → AreBytes now → answer_of Value now x n ≡ Ok v → In V.operations (answers V.operations told Value objects numbers) v }
    ensures address { (told : FrozenStory) (now : List ℕ) (objects numbers : V) (x n v : ℕ) → 1 ≤ x → x ≤ told.story.objects → In V.operations objects x → In V.operations numbers n → property_of now x n ≡ property_of told.story.memory x n → answer_of Address now x n ≡ Ok v → In V.operations (answers V.operations told Address objects numbers) v }
    ensures next { (told : FrozenStory) (now : List ℕ) (objects numbers : V) (x n v : ℕ) → answer_of Next now x n ≡ Ok v → In V.operations (answers V.operations told Next objects numbers) v }
{}

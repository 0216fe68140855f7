//! Laws of the definitions: the contracts of these functions, which do nothing.

ghost use Rattle.std.specs.Prelude.{◌≡◌, ◌+◌, ◌*◌, ◌==◌, ◌&&◌, ◌≤◌, ◌<◌, ℕ, Bool, List, [], ◌∷◌, Some, drop, if◌then◌else◌, slice_set, IfOk, IfSome};
ghost use Rattle.std.specs.Result.{IsOkAnd};
ghost use Rattle.zstory.specs.Header.{object_table};
ghost use Rattle.zstory.specs.LoadedStory.{IsSound};
ghost use Rattle.zstory.specs.Objects.{IsObjectCount, property_table};
ghost use Rattle.zobj.specs.declared.tree.Link.{Link};
ghost use Rattle.zobj.specs.Entries.{HasTable, HasEntry, HasDefaults, IsEntryByte, IsAttributeByte, IsLinkByte};
ghost use Rattle.zobj.specs.Attributes.{has_attribute, with_attribute};
ghost use Rattle.zobj.specs.Tree.{linked, with_link, IsTree};
ghost use Rattle.zobj.specs.Moves.{unlinked, inserted};
ghost use Rattle.zobj.specs.declared.answers.PropertyQuestion.{PropertyQuestion};
ghost use Rattle.zobj.specs.Answers.{answer_of};
ghost use Rattle.zobj.specs.Properties.{IsReadable, is_property, property_of, property_there, data_end, properties_from};
ghost use Rattle.zobj.specs.declared.property.Property.{Property};
ghost use Rattle.zobj.specs.Values.{length_before, with_value, IsDataByte};
ghost use Rattle.zobj.specs.Kept.{DiffersOnly};
ghost use Rattle.zstory.specs.Bytes.{AreBytes};

/// What calls on objects ask of a memory holds of that of a loaded story, and stays so whatever is written behind the header.
pub fn objects_have_entries()
    ensures table { (memory : List ℕ) (objects : ℕ) → IsSound memory → IsObjectCount memory objects → HasTable memory objects }
    ensures entry { (memory : List ℕ) (objects object : ℕ) → HasTable memory objects → 1 ≤ object → object ≤ objects → HasEntry memory object }
    ensures defaults { (memory : List ℕ) (objects : ℕ) → HasTable memory objects → HasDefaults memory }
    ensures kept { (memory : List ℕ) (objects place byte : ℕ) → HasTable memory objects → 64 ≤ place → HasTable (slice_set memory place byte) objects }
{}

/// Attributes are a set of pairs: a pair is put into it or taken out of it, and each other is in it as before.
pub fn attributes_are_a_set()
    ensures { (memory : List ℕ) (on : Bool) (object attribute other number : ℕ) → HasEntry memory object → attribute < 32 → HasEntry memory other → number < 32 → has_attribute (with_attribute on object attribute memory) other number ≡ (if (other == object) && (number == attribute) then on else has_attribute memory other number) }
{}

/// The tree is three functions: a link is led elsewhere, and each other leads where it led.
pub fn links_are_functions()
    ensures same { (memory : List ℕ) (link : Link) (object to : ℕ) → HasEntry memory object → linked link (with_link link object to memory) object ≡ to }
    ensures other { (memory : List ℕ) (link another : Link) (object to other : ℕ) → HasEntry memory object → HasEntry memory other → ((another ≡ link) → other ≡ object → ⊥) → linked another (with_link link object to memory) other ≡ linked another memory other }
{}

/// A list of properties goes on behind a property, and ends where there is none.
pub fn lists_go_on()
    ensures { (memory : List ℕ) (at : ℕ) → properties_from memory at ≡ (if is_property memory at then property_there memory at ∷ properties_from memory (data_end memory at) else []) }
{}

/// Whatever cycles there are, a move changes links alone; where each link leads to one of the objects or to none, it is done, and
/// that stays so.
pub fn moves_keep_the_tree()
    ensures unlinked { (memory : List ℕ) (objects object : ℕ) → HasTable memory objects → 1 ≤ object → object ≤ objects → IfOk (unlinked objects object memory) (DiffersOnly (IsLinkByte memory objects) memory) }
    ensures inserted { (memory : List ℕ) (objects object under : ℕ) → HasTable memory objects → 1 ≤ object → object ≤ objects → 1 ≤ under → under ≤ objects → IfOk (inserted objects object under memory) (DiffersOnly (IsLinkByte memory objects) memory) }
    ensures without { (memory : List ℕ) (objects object : ℕ) → HasTable memory objects → IsTree memory objects → 1 ≤ object → object ≤ objects → IsOkAnd (unlinked objects object memory) (λ after. IsTree after objects) }
    ensures under { (memory : List ℕ) (objects object under : ℕ) → HasTable memory objects → IsTree memory objects → 1 ≤ object → object ≤ objects → 1 ≤ under → under ≤ objects → IsOkAnd (inserted objects object under memory) (λ after. IsTree after objects) }
{}

/// What is put into a property changes its data alone.
pub fn values_stay_in_their_data()
    ensures { (memory : List ℕ) (word : ℕ) (property : Property) → IfOk (with_value word memory property) (DiffersOnly (IsDataByte property) memory) }
{}

/// Each answer to a question about a property is a word, a number is at most 31, a length at most 8, and the data of a property that is
/// found can be read.
pub fn answers_are_words()
    ensures words { (memory : List ℕ) (question : PropertyQuestion) (object number : ℕ) → AreBytes memory → IfOk (answer_of question memory object number) (λ x. x < 65536) }
    ensures numbers { (memory : List ℕ) (object number : ℕ) → IfOk (answer_of PropertyQuestion.Next memory object number) (λ x. x < 32) }
    ensures lengths { (memory : List ℕ) (address : ℕ) → AreBytes memory → IfSome (length_before memory address) (λ n. n ≤ 8) }
    ensures readable { (memory : List ℕ) (object number : ℕ) (property : Property) → property_of memory object number ≡ Some property → IsReadable memory property }
{}

/// What is written are bytes.
pub fn bytes_stay_bytes()
    ensures attributes { (memory : List ℕ) (on : Bool) (object attribute : ℕ) → AreBytes memory → AreBytes (with_attribute on object attribute memory) }
    ensures unlinked { (memory : List ℕ) (objects object : ℕ) → AreBytes memory → IfOk (unlinked objects object memory) AreBytes }
    ensures inserted { (memory : List ℕ) (objects object under : ℕ) → AreBytes memory → object < 256 → under < 256 → IfOk (inserted objects object under memory) AreBytes }
    ensures values { (memory : List ℕ) (word : ℕ) (property : Property) → AreBytes memory → word < 65536 → IfOk (with_value word memory property) AreBytes }
{}

/// Attributes, links and the addresses of property tables stay apart.
pub fn parts_stay_apart()
    ensures attributes { (memory : List ℕ) (on : Bool) (objects object attribute : ℕ) → HasTable memory objects → 1 ≤ object → object ≤ objects → attribute < 32 → DiffersOnly (IsAttributeByte memory objects) memory (with_attribute on object attribute memory) }
    ensures links_stay { (memory after : List ℕ) (objects object : ℕ) (link : Link) → HasTable memory objects → DiffersOnly (IsAttributeByte memory objects) memory after → 1 ≤ object → linked link after object ≡ linked link memory object }
    ensures attributes_stay { (memory after : List ℕ) (objects object attribute : ℕ) → HasTable memory objects → DiffersOnly (IsLinkByte memory objects) memory after → 1 ≤ object → attribute < 32 → has_attribute after object attribute ≡ has_attribute memory object attribute }
    ensures entries_stay { (memory after : List ℕ) (objects first size : ℕ) → HasTable memory objects → DiffersOnly (IsEntryByte memory objects first size) memory after → HasTable after objects }
    ensures behind_stays { (memory after : List ℕ) (objects first size base : ℕ) → DiffersOnly (IsEntryByte memory objects first size) memory after → first + size ≤ 9 → object_table memory + 62 + 9 * objects ≤ base → drop base after ≡ drop base memory }
    ensures tables_stay { (memory after : List ℕ) (objects first size object : ℕ) → HasTable memory objects → DiffersOnly (IsEntryByte memory objects first size) memory after → first + size ≤ 7 → 1 ≤ object → property_table after object ≡ property_table memory object }
{}

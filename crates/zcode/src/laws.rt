//! Laws of the definitions: the contracts of these functions, which do nothing.

ghost use Rattle.std.specs.Prelude.{◌≡◌, ◌↔◌, ◌++◌, ◌+◌, ◌-◌, ℕ, IsTrue, List, Ok, Some, drop};
ghost use Rattle.ztext.specs.Words.{length_at};
ghost use Rattle.zcode.specs.Opcodes.{prints_text};
ghost use Rattle.zcode.specs.Instruction.{Instruction, IsWellFormed};
ghost use Rattle.zcode.specs.Reading.{Agree, instruction_at};
ghost use Rattle.zcode.specs.Spelling.{IsAtFront, Spells};

use ztext::text_is_at_front;

/// A place spells at most one instruction, and tells which bytes it takes.
pub fn one_spelling()
    ensures instruction { (bytes : List ℕ) (i j : Instruction) → IsAtFront bytes i → IsAtFront bytes j → i ≡ j }
    ensures bytes { (a b x y : List ℕ) (i j : Instruction) → Spells a i → Spells b j → a ++ x ≡ b ++ y → (a ≡ b) × (i ≡ j) }
{}

/// What `decode` reads is what is spelled.
pub fn reading_is_spelling()
    ensures same { (bytes : List ℕ) (i : Instruction) → (instruction_at bytes ≡ Ok i) ↔ IsAtFront bytes i }
    ensures well_formed { (bytes : List ℕ) (i : Instruction) → IsAtFront bytes i → IsWellFormed i }
{}

/// What is read at a place depends on the bytes of that instruction alone.
pub fn reading_is_local()
    ensures { (before now : List ℕ) (at : ℕ) (i : Instruction) → instruction_at (drop at before) ≡ Ok i → Agree before now at i.size → instruction_at (drop at now) ≡ Ok i }
{}

/// The text of an instruction that prints one follows its first byte, and both end together.
pub fn text_ends_instruction()
    ensures { (memory : List ℕ) (at : ℕ) (i : Instruction) → instruction_at (drop at memory) ≡ Ok i → IsTrue (prints_text i.opcode) → length_at memory (at + 1) ≡ Some (i.size - 1) }
{
    text_is_at_front();
}

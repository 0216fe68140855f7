//! What holds of all certificates: each function here is empty, and its contract is a law.

ghost use Rattle.std.specs.Prelude.{◌≡◌, ◌++◌, List, Ok};
ghost use Rattle.std.specs.List.{flat_map};
ghost use Rattle.zcert.specs.declared.field.Field.{Field};
ghost use Rattle.zcert.specs.Certificate.{Certificate, edition_of};
ghost use Rattle.zcert.specs.Spelling.{heading, spelling, HasSpelling};
ghost use Rattle.zcert.specs.Reading.{reading};
ghost use Rattle.zcert.specs.Fields.{field_bytes, Makes};
ghost use Rattle.zcert.specs.Refusal.{RefuseInTurn, RefuseAtEnd, RefuseOutOfTurn};

use crate::spelled::Spelled;

/// The spelling of a certificate is read as that certificate, and no other certificate has it.
pub fn spellings_are_read<V: Spelled>()
    ensures read { (c : Certificate V) → HasSpelling V.format c → reading V.format (spelling V.format c) ≡ Ok c }
    ensures one { (c d : Certificate V) → HasSpelling V.format c → HasSpelling V.format d → spelling V.format c ≡ spelling V.format d → c ≡ d }
{}

/// The fields that a builder takes up to its end are, one after another, the spelling of the certificate that it makes; and each
/// certificate is made by some fields.
pub fn fields_make_certificates<V: Spelled>()
    ensures spelled { (fs : List (Field V)) (c : Certificate V) → Makes V.format fs c →
        HasSpelling V.format c × (spelling V.format c ≡ heading V.format (edition_of c) ++ flat_map (field_bytes V.format) fs) }
    ensures each { (c : Certificate V) → HasSpelling V.format c → (fs : List (Field V)) × Makes V.format fs c }
{}

/// A builder refuses what a reader would: the first field that it refuses, where it is in its turn, is refused for what the bytes
/// that spell the fields up to it are refused for. A field out of its turn is out of order, and fields that end too early are cut
/// off, as their bytes are.
pub fn builders_refuse_as_readers<V: Spelled>()
    ensures in_turn { RefuseInTurn V.format }
    ensures out_of_turn { RefuseOutOfTurn V }
    ensures at_end { RefuseAtEnd V.format }
{}

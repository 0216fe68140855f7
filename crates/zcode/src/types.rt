//! How operands are written: their types, as the head of an instruction names them. Each form's types are turned into the
//! type byte that the variable form has.

ghost use Rattle.std.specs.Prelude.{◌≡◌, ◌/◌, ◌%◌, ◌<◌, [], ◌∷◌, length};
ghost use Rattle.std.specs.Option.{option_to_list};
ghost use Rattle.zcode.specs.Spelling.{long_type, type_of, types_of};

/// How an operand is written (Z 4.2).
#[derive(Clone, Copy)]
pub enum OperandType {
    /// A constant of two bytes.
    Large,
    /// A constant of one byte.
    Small,
    /// A variable, by its number.
    Variable,
}

/// The type that two bits name, or `None` where they say that the operand is omitted.
pub(crate) fn type_of(bits: u8) -> Option<OperandType>
    ensures { result ≡ type_of bits }
{
    match bits {
        0 => Some(OperandType::Large),
        1 => Some(OperandType::Small),
        2 => Some(OperandType::Variable),
        _ => None,
    }
}

/// How many types a type byte names. After an omitted operand the rest count as omitted.
#[inline(always)]
pub(crate) fn type_count(types: u8) -> usize
    ensures { result ≡ length (types_of types) }
{
    if type_of(types >> 6).is_none() {
        return 0;
    }
    if type_of((types >> 4) & 3).is_none() {
        return 1;
    }
    if type_of((types >> 2) & 3).is_none() {
        return 2;
    }
    if type_of(types & 3).is_none() {
        return 3;
    }
    4
}

/// The type byte that names what the first byte of the long form does: two types, and two operands omitted.
#[inline(always)]
pub(crate) fn long_types(first: u8) -> u8
    ensures { types_of result ≡ long_type (first / 64 % 2) ∷ long_type (first / 32 % 2) ∷ [] }
{
    0b0101_1111 + ((first >> 6) & 1) * 0b0100_0000 + ((first >> 5) & 1) * 0b0001_0000
}

/// The type byte that names what two bits of the short form do: one type or none, and the other operands omitted.
#[inline(always)]
pub(crate) fn short_types(bits: u8) -> u8
    requires { bits < 4 }
    ensures { types_of result ≡ option_to_list (type_of bits) }
{
    bits * 0b0100_0000 + 0b0011_1111
}

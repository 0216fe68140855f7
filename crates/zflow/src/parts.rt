//! The parts of what may come of an instruction.

ghost use Rattle.std.specs.Prelude.{◌≡◌, ⊤};

use std::alloc::AllocError;
use zarray::Width;
use zobj::PropertyQuestion;
use zword::Addressing;

/// What an operation asks for, once for an instruction.
#[derive(Copy)]
pub struct Demands<V> {
    /// The first operand names a variable.
    pub indirect: bool,
    /// And this is it, where it is known.
    pub variable: Option<u8>,
    /// The values by which it divides.
    pub divisor: Option<V>,
    /// The values that it takes for the number of an object.
    pub object: Option<V>,
    /// The values that it takes for the number of the object that another is put under.
    pub under: Option<V>,
    /// The values that it takes for the number of the object whose short name it prints.
    pub named: Option<V>,
    /// The values that it takes for the number of an attribute.
    pub attribute: Option<V>,
    /// What it asks of the properties of objects.
    pub property: Option<Pairs<V>>,
    /// The values that it takes for the address of a property's data, of which it asks the length.
    pub address: Option<V>,
    /// The elements of arrays that it reads or writes.
    pub elements: Option<Elements<V>>,
    /// The texts that it prints.
    pub texts: Option<Texts<V>>,
    /// The buffers that it stores a line of the player in.
    pub buffers: Option<Buffers<V>>,
    /// It is known how far it jumps, if it jumps.
    pub certain: bool,
    /// A text stands behind the opcode byte.
    pub has_text: bool,
    /// The status line shows what the first three globals say.
    pub shows_status: bool,
}

// By hand, since a derived one goes through all fields.
impl<V: Copy> Clone for Demands<V> {
    ghost is_clone = { λ demands copy. copy ≡ demands };

    ghost is_infallible = { λ _. ⊤ };

    fn clone(&self) -> Result<Demands<V>, AllocError> {
        Ok(*self)
    }
}

/// What is asked of a property.
#[derive(Clone, Copy)]
pub enum Asked {
    /// A question about it has an answer.
    Answered(PropertyQuestion),
    /// It is given a word.
    Filled,
}

/// What is asked of each property that an object of one set and a number of another make together.
#[derive(Clone, Copy)]
pub struct Pairs<V> {
    /// What is asked.
    pub asked: Asked,
    /// The numbers of the objects.
    pub objects: V,
    /// The numbers of the properties.
    pub numbers: V,
}

/// What is done with an element of an array.
#[derive(Clone, Copy)]
pub enum Access {
    /// It is read.
    Reading,
    /// It is written.
    Writing,
}

/// What is done with each element that an array at an address of one set has at an index of another.
#[derive(Clone, Copy)]
pub struct Elements<V> {
    /// What is done.
    pub access: Access,
    /// What the elements are.
    pub width: Width,
    /// The addresses of the arrays.
    pub arrays: V,
    /// The indices.
    pub indices: V,
}

/// The texts at all addresses of a set.
#[derive(Clone, Copy)]
pub struct Texts<V> {
    /// What the addresses are.
    pub addressing: Addressing,
    /// The addresses.
    pub places: V,
}

/// The buffers that a line may be stored in.
#[derive(Clone, Copy)]
pub struct Buffers<V> {
    /// The addresses of the text buffer.
    pub texts: V,
    /// The addresses of the parse buffer.
    pub parses: V,
}

/// Where an instruction leads.
#[derive(Clone, Copy)]
pub enum Lead<V> {
    /// So many bytes behind the next instruction.
    Ahead(i32),
    /// Back to the caller, with a value of the set.
    Returning(V),
    /// Into the routine at a packed address of the set, of which 0 is none.
    Entering(V),
}

/// What a branch says of locals and of globals, by the numbers of their variables: of at most two.
#[derive(Clone, Copy)]
pub struct Kept<V> {
    /// Of a local that the first operand is, or that was counted.
    pub first: Option<(u8, V)>,
    /// Of one that the second operand is.
    pub second: Option<(u8, V)>,
    /// Of a global that the first operand is.
    pub first_global: Option<(u8, V)>,
    /// And of one that the second is.
    pub second_global: Option<(u8, V)>,
}

/// One of the things that may come of an operation: the parts of its effect, with a set for each value.
#[derive(Clone, Copy)]
pub struct Outcome<V> {
    /// The values that go to the result variable.
    pub gives: Option<V>,
    /// The variable that is given a value in place, and the values.
    pub assigns: Option<(u8, V)>,
    /// The answer of the condition.
    pub tests: Option<bool>,
    /// What locals and globals are, where that is the answer.
    pub kept: Kept<V>,
    /// Where it leads, unless a branch is taken.
    pub leads: Lead<V>,
}

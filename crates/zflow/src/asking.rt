//! What an operation asks for, once for an instruction.

ghost use Rattle.std.specs.Prelude.{◌≡◌, Some, is_some, true};
ghost use Rattle.zflow.specs.Transfer.{demands_of, divisor_of, naming, nothing, small};
ghost use Rattle.zflow.specs.Kept.{both};

use crate::parts::{Access, Asked, Buffers, Demands, Elements, Pairs, Texts};
use zarray::Width;
use zcode::Operation;
use zdomain::Domain;
use zword::{Addressing, BinaryOp};

/// What an operation asks for, by the sets of its first two operands.
#[tactic(auto, unfolding(crate::specs::Transfer::demands_of))]
pub(crate) fn demands_of<V: Domain>(operation: Operation, first: V, second: V) -> Demands<V>
    ensures { result ≡ demands_of V.operations operation (both first second) }
{
    match operation {
        Operation::Binary(op) => dividing(op, second),
        Operation::Count(..) | Operation::Store | Operation::Load => naming(named(first)),
        Operation::Jump => jumping(first),
        Operation::Print | Operation::PrintReturn => printing(),
        Operation::Inside | Operation::Follow(_) | Operation::Remove => of_object(first),
        Operation::PrintObject => printing_name(first),
        Operation::Property(question) => of_property(Asked::Answered(question), first, second),
        Operation::SetProperty => of_property(Asked::Filled, first, second),
        Operation::PropertyLength => measuring(first),
        Operation::PrintAt(addressing) => printing_at(addressing, first),
        Operation::ShowStatus => showing(),
        Operation::ReadLine => reading(first, second),
        Operation::LoadArray(width) => of_elements(Access::Reading, width, first, second),
        Operation::StoreArray(width) => of_elements(Access::Writing, width, first, second),
        Operation::Insert => putting_under(first, second),
        Operation::TestAttribute | Operation::SetAttribute | Operation::ClearAttribute => {
            of_attribute(first, second)
        }
        Operation::Unary(_)
        | Operation::Compare(_)
        | Operation::Verify
        | Operation::PrintChar
        | Operation::PrintNumber
        | Operation::NewLine
        | Operation::Nop
        | Operation::Quit
        | Operation::Return
        | Operation::Call
        | Operation::Random
        | Operation::Save
        | Operation::Restore
        | Operation::Restart => nothing(),
    }
}

/// The variable that a value of the set names, where that is known.
pub(crate) fn named<V: Domain>(set: V) -> Option<u8>
    ensures { result ≡ small (V.operations.known set) }
{
    match set.known() {
        Some(number) if number < 256 => Some(number as u8),
        _ => None,
    }
}

/// Nothing is asked for.
fn nothing<V: Domain>() -> Demands<V>
    ensures { result ≡ nothing }
{
    Demands {
        indirect: false,
        variable: None,
        divisor: None,
        object: None,
        under: None,
        named: None,
        attribute: None,
        property: None,
        address: None,
        elements: None,
        texts: None,
        buffers: None,
        certain: true,
        has_text: false,
        shows_status: false,
    }
}

/// The first operand names a variable.
fn naming<V: Domain>(variable: Option<u8>) -> Demands<V>
    ensures { result ≡ naming variable }
{
    Demands {
        indirect: true,
        variable,
        ..nothing()
    }
}

// Each family has a function of its own, so that the room for what it asks is taken where its operation comes alone.

/// The values by which it divides, if it does.
#[inline(never)]
fn dividing<V: Domain>(operation: BinaryOp, second: V) -> Demands<V>
    ensures { result ≡ record nothing { divisor = divisor_of operation second } }
{
    Demands {
        divisor: divisor_of(operation, second),
        ..nothing()
    }
}

/// A way that has to be known.
#[inline(never)]
fn jumping<V: Domain>(first: V) -> Demands<V>
    ensures { result ≡ record nothing { certain = is_some (V.operations.known first) } }
{
    Demands {
        certain: first.known().is_some(),
        ..nothing()
    }
}

/// A text behind the opcode byte.
#[inline(never)]
fn printing<V: Domain>() -> Demands<V>
    ensures { result ≡ record nothing { has_text = true } }
{
    Demands {
        has_text: true,
        ..nothing()
    }
}

/// An object.
#[inline(never)]
fn of_object<V: Domain>(first: V) -> Demands<V>
    ensures { result ≡ record nothing { object = Some first } }
{
    Demands {
        object: Some(first),
        ..nothing()
    }
}

/// An object whose short name is printed.
#[inline(never)]
fn printing_name<V: Domain>(first: V) -> Demands<V>
    ensures { result ≡ record nothing { object = Some first; named = Some first } }
{
    Demands {
        object: Some(first),
        named: Some(first),
        ..nothing()
    }
}

/// Each property of an object of one set with a number of another.
#[inline(never)]
fn of_property<V: Domain>(asked: Asked, objects: V, numbers: V) -> Demands<V>
    ensures { result ≡ record nothing { object = Some objects; property = Some (record { asked = asked; objects = objects; numbers = numbers }) } }
{
    Demands {
        object: Some(objects),
        property: Some(Pairs {
            asked,
            objects,
            numbers,
        }),
        ..nothing()
    }
}

/// An address of a property's data.
#[inline(never)]
fn measuring<V: Domain>(first: V) -> Demands<V>
    ensures { result ≡ record nothing { address = Some first } }
{
    Demands {
        address: Some(first),
        ..nothing()
    }
}

/// Texts at addresses.
#[inline(never)]
fn printing_at<V: Domain>(addressing: Addressing, first: V) -> Demands<V>
    ensures { result ≡ record nothing { texts = Some (record { addressing = addressing; places = first }) } }
{
    Demands {
        texts: Some(Texts {
            addressing,
            places: first,
        }),
        ..nothing()
    }
}

/// The status line.
#[inline(never)]
fn showing<V: Domain>() -> Demands<V>
    ensures { result ≡ record nothing { shows_status = true } }
{
    Demands {
        shows_status: true,
        ..nothing()
    }
}

/// The status line, and the buffers of a line.
#[inline(never)]
fn reading<V: Domain>(texts: V, parses: V) -> Demands<V>
    ensures { result ≡ record nothing { buffers = Some (record { texts = texts; parses = parses }); shows_status = true } }
{
    Demands {
        buffers: Some(Buffers { texts, parses }),
        ..showing()
    }
}

/// Each element of an array of one set at an index of another.
#[inline(never)]
fn of_elements<V: Domain>(access: Access, width: Width, arrays: V, indices: V) -> Demands<V>
    ensures { result ≡ record nothing { elements = Some (record { access = access; width = width; arrays = arrays; indices = indices }) } }
{
    Demands {
        elements: Some(Elements {
            access,
            width,
            arrays,
            indices,
        }),
        ..nothing()
    }
}

/// An object, and that which it is put under.
#[inline(never)]
fn putting_under<V: Domain>(first: V, second: V) -> Demands<V>
    ensures { result ≡ record nothing { object = Some first; under = Some second } }
{
    Demands {
        under: Some(second),
        ..of_object(first)
    }
}

/// An object, and an attribute.
#[inline(never)]
fn of_attribute<V: Domain>(first: V, second: V) -> Demands<V>
    ensures { result ≡ record nothing { object = Some first; attribute = Some second } }
{
    Demands {
        attribute: Some(second),
        ..of_object(first)
    }
}

/// The values by which an operation divides, if it does.
fn divisor_of<V: Domain>(operation: BinaryOp, second: V) -> Option<V>
    ensures { result ≡ divisor_of operation second }
{
    match operation {
        BinaryOp::Div | BinaryOp::Mod => Some(second),
        BinaryOp::Add | BinaryOp::Sub | BinaryOp::Mul | BinaryOp::Or | BinaryOp::And => None,
    }
}

//! What is customary in the place of a fault.

ghost use Rattle.std.specs.Prelude.{◌≡◌, None, Some, false, true};
ghost use Rattle.zstory.specs.Bytes.{byte_at, word_at};
ghost use Rattle.zobj.specs.Answers.{address_of};
ghost use Rattle.zobj.specs.Entries.{HasTable};
ghost use Rattle.zobj.specs.Properties.{property_of};
ghost use Rattle.zstate.specs.State.{State as AState};
ghost use Rattle.zstate.specs.Step.{is_object};
ghost use Rattle.zlenient.specs.Answer.{IsTold};
ghost use Rattle.zlenient.specs.Customary.{customary, is_excusable, property_instead};

use crate::front::arg;
use zcode::Operation;
use zfault::Fault;
use zobj::{PropertyQuestion, find_property, objects_have_entries};
use zstory::Story;

/// What is done in the place of a fault.
#[derive(Clone, Copy)]
pub(crate) struct Answer {
    /// The value that goes to the result variable.
    pub(crate) gives: Option<u16>,
    /// What the branch is told.
    pub(crate) tests: Option<bool>,
}

/// A value is given.
fn giving(word: u16) -> Option<Answer>
    ensures { result ≡ Some (record { gives = Some word; tests = None }) }
{
    Some(Answer {
        gives: Some(word),
        tests: None,
    })
}

/// The branch is told something.
fn testing(holds: bool) -> Option<Answer>
    ensures { result ≡ Some (record { gives = None; tests = Some holds }) }
{
    Some(Answer {
        gives: None,
        tests: Some(holds),
    })
}

/// Whether something is customary in the place of a fault.
pub fn is_excusable(fault: Fault) -> bool
    ensures { result ≡ is_excusable fault }
{
    match fault {
        Fault::IllegalOpcode
        | Fault::AbsentObject
        | Fault::AbsentAttribute
        | Fault::AbsentProperty
        | Fault::PropertyTooLong
        | Fault::ZeroDivisor
        | Fault::WriteOutside
        | Fault::ReadOutside
        | Fault::TextOutside => true,
        Fault::UnlistedInstruction
        | Fault::UnlistedCall
        | Fault::StackUnderflow
        | Fault::AbsentLocal
        | Fault::SmallBuffer
        | Fault::ReturnFromMain
        | Fault::BadVariable => false,
    }
}

/// A byte of memory; behind its end there are zeros.
fn byte(memory: &[u8], place: usize) -> u8
    ensures { result ≡ byte_at memory.now place }
{
    match memory.get(place) {
        Some(byte) => *byte,
        None => 0,
    }
}

/// Whether a number is that of one of the story's objects.
fn is_object(story: &Story, number: u16) -> bool
    ensures { result ≡ is_object story.now number }
{
    1 <= number && number <= u16::from(story.objects())
}

/// The first word of an object's property.
fn first_word(story: &Story, memory: &[u8], object: u8, number: u16) -> u16
    requires table { HasTable memory.now story.now.objects }
    requires object { is_object story.now object ≡ true }
    ensures { result ≡ word_at memory.now (address_of (property_of memory.now object number)) }
{
    objects_have_entries();
    let place = match find_property(memory, object, number) {
        Some(property) => usize::from(property.place),
        None => 0,
    };
    u16::from_be_bytes([byte(memory, place), byte(memory, place + 1)])
}

/// What is given in the place of an answer about a property.
fn property_instead(
    story: &Story,
    question: PropertyQuestion,
    memory: &[u8],
    object: u16,
    number: u16,
    fault: Fault,
) -> u16
    requires { HasTable memory.now story.now.objects }
    ensures { result ≡ property_instead story.now question memory.now object number fault }
{
    match question {
        PropertyQuestion::Value => match fault {
            Fault::PropertyTooLong if is_object(story, object) => {
                first_word(story, memory, object as u8, number)
            }
            _ => 0,
        },
        PropertyQuestion::Address | PropertyQuestion::Next => 0,
    }
}

/// Nothing is done.
fn nothing() -> Option<Answer>
    ensures { result ≡ Some (record { gives = None; tests = None }) }
{
    Some(Answer {
        gives: None,
        tests: None,
    })
}

/// There is no relative.
fn unrelated() -> Option<Answer>
    ensures { result ≡ Some (record { gives = Some 0; tests = Some false }) }
{
    Some(Answer {
        gives: Some(0),
        tests: Some(false),
    })
}

/// What an operation does in the place of its fault, by the values of what it reads, in memory as it is.
#[tactic(auto, unfolding(crate::specs::Customary::customary))]
pub(crate) fn answer_to(
    story: &Story,
    operation: Operation,
    words: &[u16],
    memory: &[u8],
    fault: Fault,
) -> Option<Answer>
    requires { HasTable memory.now story.now.objects }
    ensures { (s : AState) → s.memory ≡ memory.now → IsTold result (customary story.now operation words.now s fault) }
{
    match operation {
        Operation::Binary(_) => giving(0),
        Operation::PropertyLength => giving(0),
        Operation::LoadArray(_) => giving(0),
        Operation::Inside => testing(arg(words, 1) == 0),
        Operation::TestAttribute => testing(false),
        Operation::Follow(_) => unrelated(),
        Operation::Property(question) => {
            let (object, number) = (arg(words, 0), arg(words, 1));
            giving(property_instead(story, question, memory, object, number, fault))
        }
        Operation::SetAttribute => nothing(),
        Operation::ClearAttribute => nothing(),
        Operation::Insert => nothing(),
        Operation::Remove => nothing(),
        Operation::SetProperty => nothing(),
        Operation::StoreArray(_) => nothing(),
        Operation::PrintAt(_) => nothing(),
        Operation::PrintObject => nothing(),
        Operation::Nop => nothing(),
        Operation::Unary(_) => None,
        Operation::Compare(_) => None,
        Operation::Count(..) => None,
        Operation::Store => None,
        Operation::Load => None,
        Operation::Jump => None,
        Operation::Verify => None,
        Operation::PrintChar => None,
        Operation::PrintNumber => None,
        Operation::Print => None,
        Operation::NewLine => None,
        Operation::Quit => None,
        Operation::Return => None,
        Operation::PrintReturn => None,
        Operation::Call => None,
        Operation::ShowStatus => None,
        Operation::Random => None,
        Operation::ReadLine => None,
        Operation::Save => None,
        Operation::Restore => None,
        Operation::Restart => None,
    }
}

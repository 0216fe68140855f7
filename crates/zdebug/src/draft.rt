//! A record that isn't whole yet.

ghost use Rattle.std.specs.Prelude.{◌≡◌};
ghost use Rattle.zdebug.specs.Steps.{Answers, Leads, part};
ghost use Rattle.zdebug.specs.Records.{filled, left, named, blank};
ghost use Rattle.zdebug.specs.Reading.{headed, attribute};
ghost use Rattle.zdebug.specs.View.{draft_of};

use crate::element::Element;
use crate::error::DebugError;
use crate::tag::attribute;
use crate::text::number_of;

/// What has been read of a record.
#[derive(Clone, Copy)]
pub struct Draft<'a> {
    /// The text that names it, empty where none came.
    pub name: &'a [u8],
    pub number: Option<u32>,
    pub length: Option<u32>,
    /// Of the sequence point that is open: its address, its file and its line.
    pub address: Option<u32>,
    pub file: Option<u32>,
    pub line: Option<u32>,
}

/// A part that a record has to have.
pub fn needed(value: Option<u32>) -> Result<u32, DebugError>
    ensures { Answers (λ n. n) result (part value) }
{
    match value {
        None => Err(DebugError::Incomplete),
        Some(number) => Ok(number),
    }
}

impl<'a> Draft<'a> {
    /// Nothing has been read.
    pub fn blank() -> Draft<'a>
        ensures { draft_of result ≡ blank }
    {
        Draft {
            name: &[],
            number: None,
            length: None,
            address: None,
            file: None,
            line: None,
        }
    }

    /// Takes what an element says, by its text.
    pub fn fill(&mut self, element: Element, text: &'a [u8]) -> Result<(), DebugError>
        ensures { Leads (draft_of self.new) result (filled (draft_of self.old) element text.now) }
    {
        match element {
            Element::Name => self.name = text,
            Element::Number => self.number = Some(number_of(text)?),
            Element::Length => self.length = Some(number_of(text)?),
            Element::Address => self.address = Some(number_of(text)?),
            Element::File => self.file = Some(number_of(text)?),
            Element::Line => self.line = Some(number_of(text)?),
            _ => {}
        }
        Ok(())
    }

    /// Forgets what an element told that ends.
    pub fn leave(&mut self, element: Element)
        ensures { draft_of self.new ≡ left (draft_of self.old) element }
    {
        match element {
            Element::Source | Element::Routine | Element::Object | Element::Property => *self =
                Draft::blank(),
            Element::Attribute | Element::Global | Element::Section => *self = Draft::blank(),
            Element::Point => {
                self.address = None;
                self.file = None;
                self.line = None;
            }
            _ => {}
        }
    }

    /// Takes what the tag of an element says that begins.
    pub fn head(&mut self, element: Element, tag: &[u8]) -> Result<(), DebugError>
        ensures { Leads (draft_of self.new) result (headed (draft_of self.old) element tag.now) }
    {
        if let Element::Source = element {
            if let Some(value) = attribute(tag, b" index=") {
                self.number = Some(number_of(value)?);
            }
        }
        Ok(())
    }

    /// Its number and the text of its name.
    pub fn named(&self) -> Result<(u32, &'a [u8]), DebugError>
        ensures { Answers (λ p. (p.0, p.1.now)) result (named (draft_of self.now)) }
    {
        if self.name.is_empty() {
            return Err(DebugError::Incomplete);
        }
        match self.number {
            None => Err(DebugError::Incomplete),
            Some(number) => Ok((number, self.name)),
        }
    }
}

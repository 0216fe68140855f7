//! The elements that are read, and where each may stand.

ghost use Rattle.std.specs.Prelude.{◌≡◌};
ghost use Rattle.zdebug.specs.Elements.{in_story, in_source, in_routine, in_valued, in_global, in_section, in_point, in_location, inside};

use crate::cutting::is;

/// What an element is, by its name and by where it stands.
#[derive(Clone, Copy)]
pub enum Element {
    /// `inform-story-file`, the outermost one.
    Story,
    /// A file of the source.
    Source,
    Routine,
    /// An object or a class.
    Object,
    Property,
    Attribute,
    Global,
    /// A part of the story file.
    Section,
    /// The name of one of these.
    Name,
    /// Its number or its address.
    Number,
    /// The bytes of a routine.
    Length,
    /// A sequence point of a routine.
    Point,
    /// Its address.
    Address,
    /// Its place in the source.
    Location,
    File,
    Line,
    /// What is passed over.
    Other,
}

fn in_story(name: &[u8]) -> Element
    ensures { result ≡ in_story name.now }
{
    if is(name, b"source") {
        Element::Source
    } else if is(name, b"routine") {
        Element::Routine
    } else if is(name, b"object") {
        Element::Object
    } else if is(name, b"class") {
        Element::Object
    } else if is(name, b"property") {
        Element::Property
    } else if is(name, b"attribute") {
        Element::Attribute
    } else if is(name, b"global-variable") {
        Element::Global
    } else if is(name, b"story-file-section") {
        Element::Section
    } else {
        Element::Other
    }
}

fn in_source(name: &[u8]) -> Element
    ensures { result ≡ in_source name.now }
{
    if is(name, b"given-path") {
        Element::Name
    } else {
        Element::Other
    }
}

fn in_routine(name: &[u8]) -> Element
    ensures { result ≡ in_routine name.now }
{
    if is(name, b"identifier") {
        Element::Name
    } else if is(name, b"address") {
        Element::Number
    } else if is(name, b"byte-count") {
        Element::Length
    } else if is(name, b"sequence-point") {
        Element::Point
    } else {
        Element::Other
    }
}

fn in_valued(name: &[u8]) -> Element
    ensures { result ≡ in_valued name.now }
{
    if is(name, b"identifier") {
        Element::Name
    } else if is(name, b"value") {
        Element::Number
    } else {
        Element::Other
    }
}

fn in_global(name: &[u8]) -> Element
    ensures { result ≡ in_global name.now }
{
    if is(name, b"identifier") {
        Element::Name
    } else if is(name, b"address") {
        Element::Number
    } else {
        Element::Other
    }
}

fn in_section(name: &[u8]) -> Element
    ensures { result ≡ in_section name.now }
{
    if is(name, b"type") {
        Element::Name
    } else if is(name, b"address") {
        Element::Number
    } else {
        Element::Other
    }
}

fn in_point(name: &[u8]) -> Element
    ensures { result ≡ in_point name.now }
{
    if is(name, b"address") {
        Element::Address
    } else if is(name, b"source-code-location") {
        Element::Location
    } else {
        Element::Other
    }
}

fn in_location(name: &[u8]) -> Element
    ensures { result ≡ in_location name.now }
{
    if is(name, b"file-index") {
        Element::File
    } else if is(name, b"line") {
        Element::Line
    } else {
        Element::Other
    }
}

impl Element {
    /// What an element of a name is that stands in this one.
    pub fn inside(self, name: &[u8]) -> Element
        ensures { result ≡ inside self name.now }
    {
        match self {
            Element::Story => in_story(name),
            Element::Source => in_source(name),
            Element::Routine => in_routine(name),
            Element::Object | Element::Property | Element::Attribute => in_valued(name),
            Element::Global => in_global(name),
            Element::Section => in_section(name),
            Element::Point => in_point(name),
            Element::Location => in_location(name),
            _ => Element::Other,
        }
    }
}

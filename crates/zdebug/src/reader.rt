//! Reading a file, tag by tag.

ghost use Rattle.std.specs.Prelude.{◌≡◌};
ghost use Rattle.zdebug.specs.Steps.{Leads};
ghost use Rattle.zdebug.specs.Reading.{opening, root, nested, begins_in, closed, ends_in, starts, after_tag, after, after_all};
ghost use Rattle.zdebug.specs.View.{kept_of};
ghost use Rattle.std.specs.List.{slice_get};
ghost use Rattle.zdebug.specs.Cutting.{parts};

use crate::cutting::{cut, is};
use crate::draft::Draft;
use crate::element::Element;
use crate::error::DebugError;
use crate::path::Path;
use crate::records::Records;
use crate::tag::{has_known_version, is_whole, name_of};
use std::alloc::Global;

/// What is kept of the tags before one.
#[derive(Drop)]
pub struct Reader<'a> {
    pub alloc: Global,
    /// The outermost element has begun.
    pub begun: bool,
    pub path: Path<'a>,
    /// What stands behind the last tag.
    pub text: &'a [u8],
    pub draft: Draft<'a>,
    pub records: Records,
}

impl<'a> Reader<'a> {
    pub fn new(alloc: Global) -> Reader<'a>
        ensures { kept_of result ≡ opening }
    {
        Reader {
            alloc,
            begun: false,
            path: Path::new(alloc),
            text: &[],
            draft: Draft::blank(),
            records: Records::new(alloc),
        }
    }

    /// The outermost element begins.
    fn begin_root(&mut self, name: &'a [u8], tag: &'a [u8]) -> Result<(), DebugError>
        ensures { Leads (kept_of self.new) result (root (kept_of self.old) name.now tag.now) }
    {
        if !is(name, b"inform-story-file") {
            return Err(DebugError::NotDebug);
        }
        if !has_known_version(tag) {
            return Err(DebugError::Version);
        }
        self.path.push(name, Element::Story)?;
        self.begun = true;
        self.text = &[];
        Ok(())
    }

    /// An element begins in another.
    fn nest(&mut self, element: Element, name: &'a [u8], tag: &'a [u8]) -> Result<(), DebugError>
        ensures { Leads (kept_of self.new) result (nested (kept_of self.old) element name.now tag.now) }
    {
        self.draft.head(element, tag)?;
        self.path.push(name, element)?;
        self.text = &[];
        Ok(())
    }

    /// An element begins.
    fn begin(&mut self, name: &'a [u8], tag: &'a [u8]) -> Result<(), DebugError>
        ensures { Leads (kept_of self.new) result (begins_in (kept_of self.old) (slice_get (kept_of self.old).path 0) name.now tag.now) }
    {
        match self.path.innermost() {
            Some(outer) => self.nest(outer.element.inside(name), name, tag),
            None if self.begun => Err(DebugError::Misplaced),
            None => self.begin_root(name, tag),
        }
    }

    /// An element ends, and is out of the path.
    fn close(&mut self, element: Element) -> Result<(), DebugError>
        ensures { Leads (kept_of self.new) result (closed (kept_of self.old) element) }
    {
        self.draft.fill(element, self.text)?;
        self.records.enter(self.alloc, element, &self.draft)?;
        self.draft.leave(element);
        Ok(())
    }

    /// The innermost element ends, if it has this name.
    fn end(&mut self, name: &[u8]) -> Result<(), DebugError>
        ensures { Leads (kept_of self.new) result (ends_in (kept_of self.old) (kept_of self.old).path name.now) }
    {
        match self.path.pop() {
            Some(inner) if is(inner.name, name) => self.close(inner.element),
            _ => Err(DebugError::Misplaced),
        }
    }

    /// The tag of an element that begins, and ends too if it is whole.
    fn start(&mut self, name: &'a [u8], tag: &'a [u8]) -> Result<(), DebugError>
        ensures { Leads (kept_of self.new) result (starts (kept_of self.old) name.now tag.now) }
    {
        if name.is_empty() {
            return Err(DebugError::Tag);
        }
        self.begin(name, tag)?;
        if is_whole(tag) {
            return self.end(name);
        }
        Ok(())
    }

    /// A tag.
    fn take_tag(&mut self, tag: &'a [u8]) -> Result<(), DebugError>
        ensures { Leads (kept_of self.new) result (after_tag (kept_of self.old) tag.now) }
    {
        match tag {
            [] => Err(DebugError::Tag),
            [b'?', ..] => Ok(()),
            [b'!', ..] => Err(DebugError::Tag),
            [b'/', rest @ ..] => self.end(name_of(rest)),
            _ => self.start(name_of(tag), tag),
        }
    }

    /// A tag and the text behind it.
    fn take(&mut self, part: &'a [u8]) -> Result<(), DebugError>
        ensures { Leads (kept_of self.new) result (after (kept_of self.old) part.now) }
    {
        match cut(part, b'>') {
            None => Err(DebugError::Tag),
            Some((tag, text)) => {
                self.take_tag(tag)?;
                self.text = text;
                Ok(())
            }
        }
    }

    /// All tags, from behind the first `<`.
    pub fn take_all(&mut self, bytes: &'a [u8]) -> Result<(), DebugError>
        ensures { Leads (kept_of self.new) result (after_all (kept_of self.old) (parts 60 bytes.now)) }
    {
        let mut rest = bytes;
        while let Some((part, behind)) = cut(rest, b'<') {
            self.take(part)?;
            rest = behind;
        }
        self.take(rest)
    }
}

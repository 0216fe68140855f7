//! The records of a file.

ghost use Rattle.std.specs.Prelude.{◌≡◌, None};
ghost use Rattle.zdebug.specs.Steps.{Leads, Answers};
ghost use Rattle.zdebug.specs.Records.{put, put_draft, put_routine, put_point, put_section, entered, nothing};
ghost use Rattle.zdebug.specs.View.{draft_of, found_of};

use crate::cutting::is;
use crate::draft::{Draft, needed};
use crate::element::Element;
use crate::error::DebugError;
use crate::place::{Name, Point, Routine};
use crate::text::text_of;
use std::alloc::Global;
use std::collections::BTreeMap;

/// Names by their numbers.
pub type Table = BTreeMap<u32, Name>;

/// All records that were read.
#[derive(Drop)]
pub struct Records {
    /// The paths of the files, by their numbers.
    pub sources: Table,
    /// By their addresses.
    pub routines: BTreeMap<u32, Routine>,
    /// By their addresses.
    pub points: BTreeMap<u32, Point>,
    pub objects: Table,
    pub properties: Table,
    pub attributes: Table,
    /// By their addresses.
    pub globals: Table,
    /// Where the first global variable stands.
    pub first_global: Option<u32>,
}

/// Puts a name at its number.
fn put(alloc: Global, table: &mut Table, number: u32, text: &[u8]) -> Result<(), DebugError>
    ensures { Leads table.new.entries result (put table.old.entries number text.now) }
{
    let bytes = text_of(alloc, text)?;
    table.insert(number, Name { bytes })?;
    Ok(())
}

/// Puts the name of a whole record at its number.
fn put_draft(alloc: Global, table: &mut Table, draft: &Draft) -> Result<(), DebugError>
    ensures { Leads table.new.entries result (put_draft table.old.entries (draft_of draft.now)) }
{
    let (number, text) = draft.named()?;
    put(alloc, table, number, text)
}

/// Puts a routine at its address, unless it was left out of the story.
fn put_routine(
    alloc: Global,
    routines: &mut BTreeMap<u32, Routine>,
    draft: &Draft,
) -> Result<(), DebugError>
    ensures { Leads routines.new.entries result (put_routine routines.old.entries (draft_of draft.now)) }
{
    let (address, text) = draft.named()?;
    let length = needed(draft.length)?;
    let bytes = text_of(alloc, text)?;
    if address == 0 {
        return Ok(());
    }
    routines.insert(
        address,
        Routine {
            length,
            name: Name { bytes },
        },
    )?;
    Ok(())
}

/// Puts the place of a sequence point at its address.
fn put_point(points: &mut BTreeMap<u32, Point>, draft: &Draft) -> Result<(), DebugError>
    ensures { Leads points.new.entries result (put_point points.old.entries (draft_of draft.now)) }
{
    let address = needed(draft.address)?;
    let file = needed(draft.file)?;
    let line = needed(draft.line)?;
    points.insert(address, Point { file, line })?;
    Ok(())
}

/// Takes where the global variables begin, if a part of the story is theirs.
fn put_section(first: &mut Option<u32>, draft: &Draft) -> Result<(), DebugError>
    ensures { Leads first.new result (put_section first.old (draft_of draft.now)) }
{
    let (address, name) = draft.named()?;
    if is(name, b"global variables") {
        *first = Some(address);
    }
    Ok(())
}

impl Records {
    /// Nothing has been read.
    pub fn new(alloc: Global) -> Records
        ensures { found_of result ≡ nothing }
    {
        Records {
            sources: BTreeMap::new(alloc),
            routines: BTreeMap::new(alloc),
            points: BTreeMap::new(alloc),
            objects: BTreeMap::new(alloc),
            properties: BTreeMap::new(alloc),
            attributes: BTreeMap::new(alloc),
            globals: BTreeMap::new(alloc),
            first_global: None,
        }
    }

    /// Takes what an element adds that ends.
    pub fn enter(
        &mut self,
        alloc: Global,
        element: Element,
        draft: &Draft,
    ) -> Result<(), DebugError>
        ensures { Leads (found_of self.new) result (entered (found_of self.old) element (draft_of draft.now)) }
    {
        match element {
            Element::Source => put_draft(alloc, &mut self.sources, draft),
            Element::Routine => put_routine(alloc, &mut self.routines, draft),
            Element::Point => put_point(&mut self.points, draft),
            Element::Object => put_draft(alloc, &mut self.objects, draft),
            Element::Property => put_draft(alloc, &mut self.properties, draft),
            Element::Attribute => put_draft(alloc, &mut self.attributes, draft),
            Element::Global => put_draft(alloc, &mut self.globals, draft),
            Element::Section => put_section(&mut self.first_global, draft),
            _ => Ok(()),
        }
    }
}

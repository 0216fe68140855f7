//! Which places property data lie at.

ghost use Rattle.std.specs.Prelude.{◌≡◌, ◌≢◌, ◌↔◌, ◌+◌, ◌*◌, ◌≤◌, ◌<◌, IfSome, IsTrue, MatchOption, length};
ghost use Rattle.zstory.specs.Bytes.{byte_at};
ghost use Rattle.zstory.specs.Objects.{property_table};
ghost use Rattle.zobj.specs.Properties.{list_place, data_end};
ghost use Rattle.zplace.specs.declared.places.Places.TheVariants.{Run, Sizes};
ghost use Rattle.zplace.specs.Places.{LeavesData, MeetsNoData};

use crate::bytes::is_apart;
use zstory::{DEFAULTS_LENGTH, OBJECT_ENTRY_LENGTH, Story};

/// Where in its entry the address of an object's property table stands (Z 12.3.1).
const PROPERTY_TABLE: usize = 7;

/// Places of a memory.
#[derive(Clone, Copy)]
pub(crate) enum Places {
    /// From one on, so many.
    Run(usize, usize),
    /// Those of the size bytes of a list of properties, by the first.
    Sizes(usize),
}

/// Where the property table of an object is.
#[tactic(auto, using(crate::proofs::Tables::entry_inside))]
pub fn table_of(story: &Story, object: u8) -> usize
    requires least { 1 ≤ object }
    requires most { object ≤ story.now.objects }
    ensures value { result ≡ property_table story.now.memory object }
    ensures word { result ≤ 65535 }
{
    let memory = story.memory();
    let place = story.object_table()
        + DEFAULTS_LENGTH
        + OBJECT_ENTRY_LENGTH * (usize::from(object) - 1)
        + PROPERTY_TABLE;
    usize::from(u16::from_be_bytes([memory[place], memory[place + 1]]))
}

/// How many words the name in a property table has (Z 12.4).
pub fn name_words(memory: &[u8], table: usize) -> u8
    ensures { result ≡ byte_at memory.now table }
{
    match memory.get(table) {
        Some(words) => *words,
        None => 0,
    }
}

/// Where the list of a property table begins: behind the name.
pub fn list_place(memory: &[u8], table: usize) -> usize
    requires { table ≤ 1000000 }
    ensures { result ≡ list_place memory.now table }
{
    table + 1 + 2 * usize::from(name_words(memory, table))
}

/// Where the data of the property at the place of a size byte end. None where the list of properties ends.
pub fn data_end(memory: &[u8], at: usize) -> Option<usize>
    ensures value { MatchOption result (byte_at memory.now at ≡ 0) (λ end. (byte_at memory.now at ≢ 0) × (end ≡ data_end memory.now at)) }
    ensures inside { IfSome result (λ end. (at < length memory.now) × (at + 2 ≤ end)) }
{
    match memory.get(at) {
        None | Some(0) => None,
        Some(size) => Some(at + 2 + usize::from(*size / 32)),
    }
}

/// Whether no byte of an object's property data lies at one of the places.
pub(crate) fn leaves_data(story: &Story, places: Places) -> bool
    ensures { IsTrue result ↔ LeavesData story.now places }
{
    for below in 0..story.objects() {
        let list = list_place(story.memory(), table_of(story, below + 1));
        if !meets_no_data(story.memory(), places, list) {
            return false;
        }
    }
    true
}

/// Whether no data of a list of properties lie at one of the places.
fn meets_no_data(memory: &[u8], places: Places, list: usize) -> bool
    ensures { IsTrue result ↔ MeetsNoData memory.now places list }
{
    match places {
        Places::Run(from, size) => run_meets_no_data(memory, from, size, list),
        Places::Sizes(first) => sizes_meet_no_data(memory, first, list),
    }
}

/// Whether no data of a list of properties lie among so many bytes from a place on.
fn run_meets_no_data(memory: &[u8], from: usize, size: usize, list: usize) -> bool
    ensures { IsTrue result ↔ MeetsNoData memory.now (Run from size) list }
{
    let mut at = list;
    while let Some(end) = data_end(memory, at) {
        if !is_apart(from, size, at + 1, end - at - 1) {
            return false;
        }
        at = end;
    }
    true
}

/// Whether no data of a list of properties lie at a size byte of another. Both are gone over once, side by side.
fn sizes_meet_no_data(memory: &[u8], first: usize, list: usize) -> bool
    ensures { IsTrue result ↔ MeetsNoData memory.now (Sizes first) list }
{
    let mut size = first;
    let mut at = list;
    while let Some(end) = data_end(memory, at) {
        if end <= size {
            at = end;
        } else if at < size {
            return size >= memory.len();
        } else {
            match data_end(memory, size) {
                Some(next) => size = next,
                None => return true,
            }
        }
    }
    true
}

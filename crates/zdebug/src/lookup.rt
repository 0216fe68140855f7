//! Looking records up.

ghost use Rattle.std.specs.Prelude.{◌≡◌, ◌≤◌, IfSome};
ghost use Rattle.std.specs.Option.{option_map};
ghost use Rattle.zdebug.specs.Places.{name_at, last_between, routine_in, spot_of, spot_at, place_in, global_in};
ghost use Rattle.zdebug.specs.Spots.{spot_of_place};
ghost use Rattle.zdebug.specs.View.{found_of};

use crate::place::{Place, Point, Routine};
use crate::records::{Records, Table};
use std::collections::BTreeMap;

/// The name that has a number.
pub fn name_at(table: &Table, number: u32) -> Option<&[u8]>
    ensures { option_map (λ name. name.now) result ≡ name_at table.now.entries number }
{
    match table.get(&number) {
        None => None,
        Some(name) => Some(name.bytes()),
    }
}

/// The routine of the greatest address not above one.
fn last_routine(routines: &BTreeMap<u32, Routine>, address: u32) -> Option<(u32, &Routine)>
    ensures value { option_map (λ r. (r.0, r.1.now)) result ≡ last_between 0 address routines.now.entries }
    ensures within { IfSome result (λ r. r.0 ≤ address) }
{
    match routines.range(0..=address).next_back() {
        None => None,
        Some((first, routine)) => Some((*first, routine)),
    }
}

/// The sequence point of the greatest address from one to another.
fn last_point(points: &BTreeMap<u32, Point>, first: u32, last: u32) -> Option<(u32, Point)>
    requires { first ≤ last }
    ensures { result ≡ last_between first last points.now.entries }
{
    match points.range(first..=last).next_back() {
        None => None,
        Some((address, point)) => Some((*address, *point)),
    }
}

/// The routine whose bytes hold an address.
pub fn routine_in(records: &Records, address: u32) -> Option<(u32, &Routine)>
    ensures value { option_map (λ r. (r.0, r.1.now)) result ≡ routine_in (found_of records.now) address }
    ensures within { IfSome result (λ r. r.0 ≤ address) }
{
    match last_routine(&records.routines, address) {
        None => None,
        Some((first, routine)) => {
            if address - first < routine.length {
                Some((first, routine))
            } else {
                None
            }
        }
    }
}

/// The place of a sequence point in a routine.
fn place_at<'a>(records: &'a Records, routine: &'a Routine, point: Point) -> Option<Place<'a>>
    ensures { option_map spot_of_place result ≡ spot_of routine.now.name point.line (name_at records.now.sources.entries point.file) }
{
    match name_at(&records.sources, point.file) {
        None => None,
        Some(file) => Some(Place {
            file,
            line: point.line,
            routine: routine.name.bytes(),
        }),
    }
}

/// The place of the sequence point of the greatest address from one to another, in a routine.
fn place_between<'a>(
    records: &'a Records,
    routine: &'a Routine,
    first: u32,
    address: u32,
) -> Option<Place<'a>>
    requires { first ≤ address }
    ensures { option_map spot_of_place result ≡ spot_at (found_of records.now) routine.now.name (last_between first address records.now.points.entries) }
{
    match last_point(&records.points, first, address) {
        None => None,
        Some((_, point)) => place_at(records, routine, point),
    }
}

/// The place of the sequence point of the greatest address not above one, in its routine.
pub fn place_in(records: &Records, address: u32) -> Option<Place<'_>>
    ensures { option_map spot_of_place result ≡ place_in (found_of records.now) address }
{
    match routine_in(records, address) {
        None => None,
        Some((first, routine)) => place_between(records, routine, first, address),
    }
}

/// The name of a global variable.
pub fn global_in(records: &Records, number: u8) -> Option<&[u8]>
    ensures { option_map (λ name. name.now) result ≡ global_in (found_of records.now) number }
{
    match records.first_global {
        None => None,
        Some(first) => match first.checked_add(2 * u32::from(number)) {
            None => None,
            Some(address) => name_at(&records.globals, address),
        },
    }
}

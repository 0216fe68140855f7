//! Tests of the parts of a listing.

ghost use Rattle.std.specs.Prelude.{◌<◌, ◌≤◌, ◌↔◌, All, IsTrue};
ghost use Rattle.std.specs.List.Sorted.{IsStrictlyIncreasing};
ghost use Rattle.zlist.specs.Listing.{addresses_of};

use crate::record::Record;

/// The first address that no story has.
const END: u32 = 131_072;

/// As many routines as a number of 16 bits can tell apart, beside 0.
pub(crate) const MOST_ROUTINES: usize = 65_535;

/// Whether the addresses of the records rise strictly.
pub(crate) fn do_records_rise(records: &[Record]) -> bool
    ensures { IsTrue result ↔ IsStrictlyIncreasing (addresses_of records.now) }
{
    records.is_sorted_by(|earlier, later| earlier.address < later.address)
}

/// Whether each record has an address that a story may have, and belongs to the main code or one of so many routines.
pub(crate) fn are_records_inside(records: &[Record], routines: usize) -> bool
    ensures { IsTrue result ↔ All (λ r. (r.address < 131072) × (r.routine ≤ routines)) records.now }
{
    records.iter().all(|listed| listed.address < END && usize::from(listed.routine) <= routines)
}

/// Whether the addresses of the routines rise strictly.
pub(crate) fn do_routines_rise(routines: &[u32]) -> bool
    ensures { IsTrue result ↔ IsStrictlyIncreasing routines.now }
{
    routines.is_sorted_by(|earlier, later| earlier < later)
}

/// Whether each routine has an address that a story may have.
pub(crate) fn are_routines_inside(routines: &[u32]) -> bool
    ensures { IsTrue result ↔ All (λ a. a < 131072) routines.now }
{
    routines.iter().all(|address| *address < END)
}

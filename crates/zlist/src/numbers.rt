//! Tables from an address to its number in a rising list, made once so that no look-up searches.

ghost use Rattle.std.specs.Prelude.{◌<◌, ◌≤◌, All, IfOk, length};
ghost use Rattle.std.specs.List.Sorted.{IsStrictlyIncreasing};
ghost use Rattle.zlist.specs.Listing.{addresses_of};
ghost use Rattle.zlist.specs.Numbering.{IsNumbering};

use crate::record::Record;
use std::alloc::{AllocError, Global};

/// The table of the records' addresses, as long as the highest needs.
pub(crate) fn record_numbers(alloc: Global, records: &[Record]) -> Result<Vec<u32>, AllocError>
    requires rising { IsStrictlyIncreasing (addresses_of records.now) }
    requires inside { All (λ r. r.address < 131072) records.now }
    ensures { IfOk result (λ table. IsNumbering (addresses_of records.now) (length records.now) table.items) }
{
    let end = match records {
        [.., highest] => highest.address as usize + 1,
        [] => 0,
    };
    let mut table = vec![in alloc; 0; end]?;
    for (index, listed) in records.iter().enumerate() {
        table[listed.address as usize] = index as u32 + 1;
    }
    Ok(table)
}

/// The table of the routines' addresses, as long as the highest needs.
pub(crate) fn routine_numbers(alloc: Global, routines: &[u32]) -> Result<Vec<u16>, AllocError>
    requires rising { IsStrictlyIncreasing routines.now }
    requires few { length routines.now ≤ 65535 }
    ensures { IfOk result (λ table. IsNumbering routines.now (length routines.now) table.items) }
{
    let end = match routines {
        [.., highest] => *highest as usize + 1,
        [] => 0,
    };
    let mut table = vec![in alloc; 0; end]?;
    for (index, address) in routines.iter().enumerate() {
        table[*address as usize] = index as u16 + 1;
    }
    Ok(table)
}

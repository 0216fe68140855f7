//! Runs of addresses.

ghost use Rattle.std.specs.Prelude.{◌≡◌, ◌+◌, ◌≤◌, min};
ghost use Rattle.zruns.specs.Runs.{run_of, summed};

use zarray::Width;
use zdomain::{Domain, turned};

/// Addresses one behind the other, where 0 follows 65,535.
#[derive(Clone, Copy)]
pub struct Run {
    /// The first.
    pub first: u16,
    /// How many there are behind it.
    pub more: u16,
}

impl Run {
    /// The run of the elements at any array and any index of two sets: from the least sum to the greatest, where the index of a word
    /// counts twice.
    pub fn of<V: Domain>(width: Width, arrays: V, indices: V) -> Run
        ensures { result ≡ run_of V.operations width arrays indices }
    {
        let lowest = summed(width, arrays.lowest(), indices.lowest());
        let highest = summed(width, arrays.highest(), indices.highest());
        Run {
            first: width.place(arrays.lowest(), indices.lowest()),
            more: highest.saturating_sub(lowest).min(0xffff) as u16,
        }
    }

    /// The greatest address.
    pub(crate) fn greatest(self) -> u16
        ensures { result ≡ min 65535 (self.first + self.more) }
    {
        self.first.saturating_add(self.more)
    }
}

/// A place in the order of signed readings, of the element at an array and an index.
fn summed(width: Width, array: u16, index: u16) -> u32
    ensures value { result ≡ summed width array index }
    ensures small { result ≤ 196605 }
{
    u32::from(turned(array)) + u32::from(width.span()) * u32::from(turned(index))
}

//! What is known of the elements at some addresses.

ghost use Rattle.std.specs.Prelude.{◌≡◌};
ghost use Rattle.zruns.specs.Runs.{merged};

use zpairs::Ends;

/// What is known of the elements at some addresses, all of one width.
#[derive(Clone, Copy)]
pub struct Cell {
    /// Each of their bytes is open.
    pub is_open: bool,
    /// Each of their bytes is fixed.
    pub fixed: bool,
    /// The ends of what they are in the story.
    pub ends: Ends,
}

impl Cell {
    /// What is known of none.
    pub(crate) const NONE: Cell = Cell {
        is_open: true,
        fixed: true,
        ends: Ends::NONE,
    };

    /// What is known of those behind memory: nothing changes there, and 0 is all that is said to stand there.
    pub(crate) const BEHIND: Cell = Cell {
        is_open: false,
        fixed: true,
        ends: Ends {
            least: 0x8000,
            greatest: 0x8000,
        },
    };

    /// What is known of those of either.
    pub(crate) fn merge(self, other: Cell) -> Cell
        ensures { result ≡ merged self other }
    {
        Cell {
            is_open: self.is_open && other.is_open,
            fixed: self.fixed && other.fixed,
            ends: self.ends.join(other.ends),
        }
    }
}

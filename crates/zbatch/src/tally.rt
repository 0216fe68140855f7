//! How many pieces of work ended in each way.

ghost use Rattle.std.specs.Prelude.{◌≡◌, ◌+◌, ◌-◌, ◌^◌, ◌<◌, []};
ghost use Rattle.zbatch.specs.Summary.{status_of};
ghost use Rattle.zbatch.specs.Working.{counted, tally_of};

use crate::work::Ended;

/// The exit status where all went well.
const WELL: u8 = 0;

/// The exit status where something was refused.
const REFUSED: u8 = 1;

/// The exit status where something failed.
const FAILED: u8 = 4;

/// How many files ended in each way.
#[derive(Clone, Copy, Debug, PartialEq, Eq)]
pub struct Tally {
    /// Those that it went well for.
    pub well: usize,
    /// Those that are refused.
    pub refused: usize,
    /// Those that the work failed for.
    pub failed: usize,
    /// Whether an answer couldn't be written, which ended the work.
    pub unwritten: bool,
}

impl Tally {
    pub(crate) fn new() -> Tally
        ensures { result ≡ tally_of [] }
    {
        Tally {
            well: 0,
            refused: 0,
            failed: 0,
            unwritten: false,
        }
    }

    /// Counts one more.
    pub(crate) fn count(&mut self, ended: Ended)
        requires room { self.old.well + self.old.refused + self.old.failed < 2 ^ 64 - 1 }
        ensures { self.new ≡ counted self.old ended }
    {
        match ended {
            Ended::Well => self.well += 1,
            Ended::Refused => self.refused += 1,
            Ended::Failed => self.failed += 1,
            Ended::Unwritten => self.unwritten = true,
        }
    }

    /// The exit status of all: 0 where each went well, 1 where some are refused, 4 where one failed or wasn't written, which is more than
    /// a refusal.
    pub fn status(&self) -> u8
        ensures { result ≡ status_of self.now }
    {
        if self.unwritten || self.failed > 0 {
            FAILED
        } else if self.refused > 0 {
            REFUSED
        } else {
            WELL
        }
    }
}

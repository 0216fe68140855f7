//! What is told of saves (Z 15 save, restore).

ghost use Rattle.std.specs.Prelude.{◌≡◌, None};
ghost use Rattle.zengine.specs.Told.{IsTold, need_told};
ghost use Rattle.zengine.specs.View.{body_of};

use crate::board::Board;
use crate::doing::Telling;
use zfault::{Event, Need};

impl Board {
    /// What was told of a save, if it was.
    pub(crate) fn told(&self, telling: Telling) -> Option<bool>
        ensures { IsTold telling result self.now.outside.value.waiting }
    {
        match (telling, &self.outside.waiting) {
            (Telling::Save, Some(Event::Saved(kept))) => Some(*kept),
            (Telling::Restore, Some(Event::NotRestored)) => Some(false),
            _ => None,
        }
    }

    /// The event that waits is used up.
    pub(crate) fn use_up(&mut self)
        ensures body { body_of self.new ≡ record (body_of self.old) { outside = record self.old.outside.value { waiting = None } } }
        ensures at { self.new.at ≡ self.old.at }
    {
        self.outside.waiting = None;
    }
}

/// What is waited for.
pub(crate) fn need_of(telling: Telling) -> Need
    ensures { result ≡ need_told telling }
{
    match telling {
        Telling::Save => Need::Saved,
        Telling::Restore => Need::Restore,
    }
}

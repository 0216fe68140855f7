//! Where bytes that pass are kept.

ghost use Rattle.std.specs.Option.{ghost_name_of, option_copied_mut};
ghost use Rattle.std.specs.Prelude.{◌≡◌, true, IsNone, option_and_then, option_map};
ghost use Rattle.zfront.specs.Records.{EndsByFailure, RecordsBytes};

use zfault::{Sink, write_whole};

/// Where bytes go that pass elsewhere too, if anywhere, and whether all that passed is there. Where a write of it fails, it ends there, and
/// isn't asked again.
#[derive(Drop)]
pub(crate) struct Record<'a, W> {
    copy: Option<&'a mut W>,
    whole: bool,
}

impl<'a, W> Record<'a, W> {
    /// A record that has all that passed so far: nothing.
    pub(crate) fn new(copy: Option<&'a mut W>) -> Record<'a, W>
        ensures copy_is { ghost_name_of result.copy ≡ ghost_name_of copy.entry }
        ensures copied { option_copied_mut result.copy ≡ option_copied_mut copy.entry }
        ensures whole { result.whole ≡ true }
    {
        Record { copy, whole: true }
    }

    /// Whether it has all that passed.
    pub(crate) fn is_whole(&self) -> bool
        ensures { result ≡ self.now.whole }
    {
        self.whole
    }
}

impl<W: Sink> Record<'_, W> {
    /// Keeps bytes that passed.
    pub(crate) fn keep(&mut self, bytes: &[u8])
        ensures copy_is { ghost_name_of self.new.copy ≡ ghost_name_of self.old.copy }
        ensures copied { RecordsBytes (option_and_then W.contents (option_copied_mut self.old.copy)) (option_and_then W.contents (option_copied_mut self.new.copy)) self.old.whole self.new.whole bytes.now }
        ensures ends { EndsByFailure (option_map W.failures (option_copied_mut self.old.copy)) (option_map W.failures (option_copied_mut self.new.copy)) self.old.whole self.new.whole }
        ensures nowhere { IsNone self.old.copy → self.new.whole ≡ self.old.whole }
    {
        if self.whole {
            if let Some(copy) = &mut self.copy {
                self.whole = write_whole(&mut **copy, bytes).is_ok();
            }
        }
    }
}

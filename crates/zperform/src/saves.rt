//! Where the saves of a play are kept: in a file, or nowhere.

ghost use Rattle.std.specs.Prelude.{◌≡◌, false, true, None, Some, ⊤};
ghost use Rattle.zplayer.specs.Outside.{CountsRefusal};
ghost use Rattle.zplayer.specs.World.{Gets, Puts};

use crate::files::{Files, read_file};
use crate::message::Message;
use crate::performing::say;
use std::alloc::Global;
use zfault::Sink;
use zplayer::SaveStore;
use zquetzal::SaveError;

/// The most bytes that are read of a save. The longest that can be written has 537,215,032: of the first frame and 4,096 with 15
/// locals, each with 65,535 words. Others may have chunks beside those.
pub const SAVE_LIMIT: usize = 1 << 30;

/// A store in which no save can be kept: each call fails.
#[derive(Drop)]
pub struct NoSaves {
    failures: u64,
}

impl NoSaves {
    /// The store, with no failure yet.
    pub fn new() -> NoSaves
        ensures { result.failures ≡ 0 }
    {
        NoSaves { failures: 0 }
    }
}

impl SaveStore for NoSaves {
    ghost kept = { λ _. Some None };

    ghost failures = { λ store. store.failures };

    ghost Follows = { λ _ _ _. ⊤ };

    fn put(&mut self, _save: &[u8]) -> bool
        ensures none { result ≡ false }
        ensures stores { Puts (Some None) _save.now result (Some None) }
        ensures counts { CountsRefusal self.old.failures self.new.failures result }
    {
        self.failures = self.failures.saturating_add(1);
        false
    }

    fn get(&mut self, _save: &mut Vec<u8>) -> bool
        ensures none { result ≡ false }
        ensures gives { result ≡ true → Gets (Some None) _save.new.items }
        ensures counts { CountsRefusal self.old.failures self.new.failures result }
    {
        self.failures = self.failures.saturating_add(1);
        false
    }

    fn refused(&mut self, _error: SaveError) {}

    ghost itself = { λ _. tt };

    ghost through = { λ _ _ _ _ _ _ _. tt };
}

/// A store whose save is what a file has. What a file has that others may write isn't known. Of saves that are refused it says why,
/// where it is to, in lines on the errors, of which a failure is ignored.
#[derive(Drop)]
pub struct FileSaves<'a, F: Files, E: Sink> {
    alloc: Global,
    files: &'a mut F,
    name: &'a str,
    tell: bool,
    errors: &'a mut E,
    failures: u64,
}

impl<'a, F: Files, E: Sink> FileSaves<'a, F, E> {
    /// The store of the file of a name, with no failure yet, and whether it says why saves are refused.
    pub fn new(
        alloc: Global,
        files: &'a mut F,
        name: &'a str,
        tell: bool,
        errors: &'a mut E,
    ) -> FileSaves<'a, F, E>
        ensures fresh { result.failures ≡ 0 }
        ensures named { result.name.now ≡ name.now }
        ensures files { result.files.now ≡ files.old }
        ensures same_reference { result.files.ghost_name ≡ files.entry.ghost_name }
        ensures told { result.tell ≡ tell }
        ensures errors { result.errors.now ≡ errors.old }
        ensures same_errors { result.errors.ghost_name ≡ errors.entry.ghost_name }
    {
        FileSaves {
            alloc,
            files,
            name,
            tell,
            errors,
            failures: 0,
        }
    }

    /// Hands on whether a call was done, and counts it where it wasn't.
    fn count(&mut self, done: bool) -> bool
        ensures answer { result ≡ done }
        ensures counts { CountsRefusal self.old.failures self.new.failures done }
        ensures same { (self.new.files ≡ self.old.files) × (self.new.name ≡ self.old.name) }
        ensures silent { (self.new.tell ≡ self.old.tell) × (self.new.errors ≡ self.old.errors) }
    {
        if !done {
            self.failures = self.failures.saturating_add(1);
        }
        done
    }
}

impl<'a, F: Files, E: Sink> SaveStore for FileSaves<'a, F, E> {
    ghost use Rattle.std.specs.Prelude.{◌≡◌, refl};
    ghost use Rattle.zperform.specs.Contents.{SparesOthers};
    ghost use Rattle.zperform.specs.Devices.{seen};
    ghost use Rattle.zperform.specs.Telling.{SaysEach, heard};
    ghost use Rattle.zperform.specs.TellingLaw.{heard_through, spared_through};
    ghost use Rattle.std.proofs.Common.{◌∙◌};

    ghost failures = { λ store. store.failures };

    ghost Follows = { λ old new refusals. (new.files.ghost_name ≡ old.files.ghost_name) × (new.name.now ≡ old.name.now) × SparesOthers old.name.now (F.known old.files.now) (F.known new.files.now) × (new.errors.ghost_name ≡ old.errors.ghost_name) × (new.tell ≡ old.tell) × SaysEach (heard old.tell refusals) (seen E.contents E.failures E.waits old.errors.now) (seen E.contents E.failures E.waits new.errors.now) };

    fn put(&mut self, save: &[u8]) -> bool {
        let done = self.files.put(self.name, save);
        self.count(done)
    }

    fn get(&mut self, save: &mut Vec<u8>) -> bool {
        match read_file(self.alloc, self.files, self.name, SAVE_LIMIT) {
            Ok(file) => {
                *save = file;
                true
            }
            Err(_) => self.count(false),
        }
    }

    fn refused(&mut self, error: SaveError) {
        if self.tell {
            say(Message::of_refusal(error).as_slice(), self.errors);
        }
    }

    ghost itself = { λ store. (refl, refl, λ other another. refl, refl, refl, refl) };

    ghost through = { λ old now new first then had has. (has.0 ∙ had.0, has.1 ∙ had.1, spared_through _ _ _ _ _ had.1 had.2 has.2, has.3 ∙ had.3, has.4 ∙ had.4, heard_through _ _ first then _ _ _ had.4 had.5 has.5) };
}

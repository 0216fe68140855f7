//! What a player asks of a machine.

ghost use Rattle.std.specs.Prelude.{◌≡◌, ◌≢◌, ◌+◌, ℕ, [], None, Ok, Some, IfOk, IsTrue, OnErr};
ghost use Rattle.zfault.specs.Answers.{answers};
ghost use Rattle.zquetzal.specs.Grammar.{save_text};
ghost use Rattle.zquetzal.specs.Saved.{origin_of};
ghost use Rattle.zstate.specs.Saves.{saved_of};
ghost use Rattle.zstate.specs.State.{Setting, State, give};
ghost use Rattle.zstate.specs.Run.{awaited, run, Ends, Makes, Stands};
ghost use Rattle.zplayer.specs.Playing.{GivesOrSaves, WantsOrSaves};
ghost use Rattle.zplayer.specs.World.{IsRefused, Resumes};
ghost use Rattle.zquetzal.specs.declared.error.SaveError.{SaveError as ARefusal};

use std::alloc::{AllocError, Global};
use zcert::Spelled;
use zfault::{Event, Items, Need, Pause};
use zplay::Session;
use zquetzal::SaveError;
use zref::CheckedMachine;
use zstate::Stop;

/// A machine whose run is the defined one.
pub(crate) trait Machine {
    /// What it is played in.
    ghost setting: { Self → Setting };

    /// The state that it is in.
    ghost state: { Self → State };

    /// In which states of a save it goes on.
    ghost Takes: { Self → State → Type 0 };

    /// Where memory may be refused for what comes next.
    ghost Wants: { Setting → State → Type 0 };

    /// The second is the first, moved on: all that a play never changes is the same.
    ghost IsSamePlay: { Self → Self → Type 0 };

    /// Makes at most as many steps as are left, with no event but one that was given, and takes each off. What they give
    /// out is appended to `items`.
    ///
    /// A pause or a fault leaves the state before its instruction; so does want of memory, with the items of the steps
    /// that were made. Memory is wanted only for the next step.
    fn run_down(&mut self, left: &mut u32, items: &mut Items) -> Result<Stop, AllocError>
        ensures play { IsSamePlay self.old self.new }
        ensures ok { IfOk result (λ stop. Ends stop (state self.new) items.old.items items.new.items (run (setting self.old) [] left.old (state self.old))) }
        ensures made { (n : ℕ) × (n + left.new ≡ left.old) × Makes (setting self.old) n (state self.old) (state self.new) items.old.items items.new.items }
        ensures stands { IfOk result (λ stop. Stands (setting self.old) stop (state self.new)) }
        ensures spent { result ≡ Ok (Stop.Paused Pause.Budget) → left.new ≡ 0 }
        ensures err { OnErr result (Wants (setting self.old) (state self.new)) };

    /// What the instruction that comes next waits for, if nothing was given for it yet.
    fn awaits(&self) -> Option<Need>
        ensures { result ≡ awaited (setting self.now) (state self.now) };

    /// Hands in an event of the kind that is awaited.
    fn give(&mut self, event: Event)
        requires { (need : Need) × (awaited (setting self.old) (state self.old) ≡ Some need) × IsTrue (answers need event) }
        ensures play { IsSamePlay self.old self.new }
        ensures state { state self.new ≡ give event (state self.old) };

    /// The bytes of a save, where the state awaits whether it was kept.
    fn save_bytes(&self, alloc: Global) -> Result<Vec<u8>, AllocError>
        requires { awaited (setting self.now) (state self.now) ≡ Some Need.Saved }
        ensures ok { IfOk result (λ save. save.items ≡ save_text (origin_of (setting self.now).story) (saved_of (setting self.now).story (state self.now))) }
        ensures err { OnErr result (Wants (setting self.now) (state self.now)) };

    /// Goes on from the bytes of a save, where the state awaits one. Answers why it doesn't, if it doesn't: then nothing changes, and
    /// neither does it where memory is refused.
    fn restore(&mut self, alloc: Global, save: &[u8]) -> Result<Option<SaveError>, AllocError>
        requires { awaited (setting self.old) (state self.old) ≡ Some Need.Restore }
        ensures play { IsSamePlay self.old self.new }
        ensures taken { result ≡ Ok None → Resumes (setting self.old) (Takes self.old) save.now (state self.old) (state self.new) }
        ensures refused { (error : ARefusal) → result ≡ Ok (Some error) → IsRefused (setting self.old) (Takes self.old) save.now (state self.old) error }
        ensures same { result ≢ Ok None → state self.new ≡ state self.old }
        ensures err { OnErr result (Wants (setting self.old) (state self.old)) };

    /// A machine that didn't move.
    ghost itself: { (m : Self) → IsSamePlay m m };

    /// Moves one after another.
    ghost through: { (old now new : Self) → IsSamePlay old now → IsSamePlay now new → IsSamePlay old new };

    /// What it is played in stays the same.
    ghost same_setting: { (old new : Self) → IsSamePlay old new → setting new ≡ setting old };

    /// And so do the states in which it goes on.
    ghost same_takes: { (old new : Self) → IsSamePlay old new → (s : State) → (Takes new s → Takes old s) × (Takes old s → Takes new s) };
}

impl<'a> Machine for CheckedMachine<'a> {
    ghost use Rattle.std.specs.Prelude.{refl, ⊤};
    ghost use Rattle.std.proofs.Common.{◌∙◌};
    ghost use Rattle.zref.specs.Machine.{SamePlay, setting as setting_of_checked};
    ghost use Rattle.zref.proofs.Running.{same_setting as same_setting_of_checked};

    ghost setting = { setting_of_checked };

    ghost state = { λ m. m.state };

    ghost Takes = { λ _ _. ⊤ };

    ghost Wants = { WantsOrSaves };

    ghost IsSamePlay = { SamePlay };

    fn run_down(&mut self, left: &mut u32, items: &mut Items) -> Result<Stop, AllocError> {
        CheckedMachine::run_down(self, left, items)
    }

    fn awaits(&self) -> Option<Need> {
        CheckedMachine::awaits(self)
    }

    fn give(&mut self, event: Event) {
        CheckedMachine::give(self, event);
    }

    fn save_bytes(&self, alloc: Global) -> Result<Vec<u8>, AllocError> {
        CheckedMachine::save_bytes(self, alloc)
    }

    fn restore(&mut self, alloc: Global, save: &[u8]) -> Result<Option<SaveError>, AllocError> {
        match CheckedMachine::restore(self, alloc, save) {
            Ok(()) => Ok(None),
            Err(SaveError::OutOfMemory) => Err(AllocError),
            Err(error) => Ok(Some(error)),
        }
    }

    ghost itself = { λ m. record { story = refl; scope = refl } };

    ghost through = { λ old now new first then. record { story = then.story ∙ first.story; scope = then.scope ∙ first.scope } };

    ghost same_setting = { same_setting_of_checked };

    ghost same_takes = { λ old new same s. ((λ taken. taken), λ taken. taken) };
}

impl<'a, V: Spelled> Machine for Session<'a, V> {
    ghost use Rattle.std.specs.Prelude.{refl};
    ghost use Rattle.std.proofs.Common.{◌∙◌, ap, subst, sym};
    ghost use Rattle.zplay.specs.Session.{setting as setting_of_session, setting_of};
    ghost use Rattle.zplayer.specs.Stories.{Describes};

    ghost setting = { setting_of_session };

    ghost state = { λ p. p.state };

    ghost Takes = { λ p. Describes V.operations p.accepted };

    ghost Wants = { GivesOrSaves };

    ghost IsSamePlay = { λ old new. new.accepted ≡ old.accepted };

    fn run_down(&mut self, left: &mut u32, items: &mut Items) -> Result<Stop, AllocError> {
        Ok(Stop::Paused(Session::run_down(self, left, items)?))
    }

    fn awaits(&self) -> Option<Need> {
        Session::awaits(self)
    }

    fn give(&mut self, event: Event) {
        Session::give(self, event);
    }

    fn save_bytes(&self, alloc: Global) -> Result<Vec<u8>, AllocError> {
        Session::save_bytes(self, alloc)
    }

    fn restore(&mut self, _alloc: Global, save: &[u8]) -> Result<Option<SaveError>, AllocError> {
        Ok(Session::restore(self, save).err())
    }

    ghost itself = { λ p. refl };

    ghost through = { λ old now new first then. then ∙ first };

    ghost same_setting = { λ old new same. ap setting_of same };

    ghost same_takes = { λ old new same s. (subst (λ a. Describes V.operations a s) same, subst (λ a. Describes V.operations a s) (sym same)) };
}

//! What is asked of a machine that is played from prompt to prompt.

ghost use Rattle.std.specs.Prelude.{◌≡◌, None, Ok, IfOk, IfSome, IsErrOf, OnErr, OnOk, Option, Result, false, length};
ghost use Rattle.zlenient.specs.Step.{is_within};
ghost use Rattle.zplayer.specs.declared.end.End.{End as AnEnd};
ghost use Rattle.zplayer.specs.declared.end.End.TheVariants.{NoInput as AWant, Quit as AQuit};
ghost use Rattle.zplayer.specs.declared.end.Options.{Options as Settled};
ghost use Rattle.zplayer.specs.declared.end.PlayError.{PlayError as AnError};
ghost use Rattle.zplayer.specs.Devices.{ComesOf, SameDevices};
ghost use Rattle.zplayer.specs.Outside.{Blames, BlamesWriter};
ghost use Rattle.zplayer.specs.Playing.{GivesOrSaves, WantsOrSaves};
ghost use Rattle.zprompt.specs.Prompts.{Answers, At, ComesFromPrompts};
ghost use Rattle.zstate.specs.State.{Setting, State as AState};

use std::alloc::{AllocError, Global};
use zcert::Spelled;
use zfault::{Sink, Source};
use zplay::Session;
use zplayer::{End, Options, PlayError, SaveStore, Words, World, play_checked, play_story};
use zref::CheckedMachine;
use zstate::State;

/// A machine that is played, and put back into a state that it stood in.
pub(crate) trait Promptable {
    /// What it is played in.
    ghost setting: { Self → Setting };

    /// The state that it is in.
    ghost state: { Self → AState };

    /// In which states of a save it goes on.
    ghost Takes: { Self → AState → Type 0 };

    /// Where memory may be refused for what comes next.
    ghost Wants: { Setting → AState → Type 0 };

    /// The second is the first, moved on: all that a play never changes is the same.
    ghost IsSamePlay: { Self → Self → Type 0 };

    /// The state was kept of its play, so that it may be put back into it.
    ghost IsKept: { Self → AState → Type 0 };

    /// How a play of it may end.
    ghost MayEnd: { AnEnd → Type 0 };

    /// Plays it from the state that it is in, with the devices of a world, as zplayer does.
    fn play<R: Source, W: Sink, S: SaveStore, G: Words>(
        &mut self,
        alloc: Global,
        world: &mut World<'_, R, W, S, G>,
        options: Options,
    ) -> Result<End, PlayError>
        ensures play { IsSamePlay self.old self.new }
        ensures devices { SameDevices world.old world.new }
        ensures comes { ComesOf R.remaining G.coming S.kept S.failures W.contents S.Follows (setting self.old) (Takes self.old) (Wants (setting self.old)) options world.old (state self.old) world.new (state self.new) result }
        ensures ends { IfOk result MayEnd }
        ensures reads { Blames (IsErrOf result PlayError.Read) (R.failures world.old.reader.now) (R.failures world.new.reader.now) }
        ensures writes { BlamesWriter W.failures W.waits world.old.writer.now world.new.writer.now (IsErrOf result PlayError.Write) (¬ IsErrOf result PlayError.Write) };

    /// The state, in memory of its own, which the machine may be put back into; none of it where its place lies outside memory. Want of memory
    /// is the only error.
    fn keep(&self, alloc: Global) -> Result<Option<State>, AllocError>
        ensures state { IfOk result (λ kept. IfSome kept (λ s. (s ≡ state self.now) × IsKept self.now s)) }
        ensures none { result ≡ Ok None → is_within (state self.now).place (length (state self.now).memory) ≡ false };

    /// Puts the machine back into a state that was kept of the same play. Want of memory is the only error, and changes nothing.
    fn put_back(&mut self, alloc: Global, kept: &State) -> Result<(), AllocError>
        requires { IsKept self.old kept.now }
        ensures play { IsSamePlay self.old self.new }
        ensures ok { OnOk result (state self.new ≡ kept.now) }
        ensures same { OnErr result (state self.new ≡ state self.old) };

    /// A machine that didn't move.
    ghost itself: { (m : Self) → IsSamePlay m m };

    /// Moves one after another.
    ghost through: { (old now new : Self) → IsSamePlay old now → IsSamePlay now new → IsSamePlay old new };

    /// What comes of a prompt of it comes of it as it was.
    ghost same_answers: { (old new : Self) → IsSamePlay old new → (options : Settled) (a b : At) (result : Result (Option AnEnd) AnError) → Answers (setting new) (Takes new) (Wants (setting new)) options a b result → Answers (setting old) (Takes old) (Wants (setting old)) options a b result };

    /// And so does what comes from a prompt on.
    ghost same_prompts: { (old new : Self) → IsSamePlay old new → (options : Settled) (a b : At) (result : Result AnEnd AnError) → ComesFromPrompts (setting new) (Takes new) (Wants (setting new)) options a b result → ComesFromPrompts (setting old) (Takes old) (Wants (setting old)) options a b result };

    /// What is kept of a play is kept of it whatever was done.
    ghost same_kept: { (old new : Self) → IsSamePlay old new → (s : AState) → IsKept old s → IsKept new s };

    /// A play may end as the player has it.
    ghost may_quit: { MayEnd AQuit };

    /// And where there is no line.
    ghost may_want: { MayEnd AWant };
}

impl<'a> Promptable for CheckedMachine<'a> {
    ghost use Rattle.std.specs.Prelude.{refl, ⊤};
    ghost use Rattle.std.proofs.Common.{◌∙◌, subst, sym};
    ghost use Rattle.zref.specs.Keeping.{IsKeptOf};
    ghost use Rattle.zref.specs.Machine.{SamePlay, setting as setting_of_checked};
    ghost use Rattle.zref.proofs.Running.{same_setting};

    ghost setting = { setting_of_checked };

    ghost state = { λ m. m.state };

    ghost Takes = { λ _ _. ⊤ };

    ghost Wants = { WantsOrSaves };

    ghost IsSamePlay = { SamePlay };

    ghost IsKept = { λ m. IsKeptOf (setting_of_checked m) };

    ghost MayEnd = { λ _. ⊤ };

    fn play<R: Source, W: Sink, S: SaveStore, G: Words>(
        &mut self,
        alloc: Global,
        world: &mut World<'_, R, W, S, G>,
        options: Options,
    ) -> Result<End, PlayError> {
        play_checked(alloc, self, world, options)
    }

    fn keep(&self, alloc: Global) -> Result<Option<State>, AllocError> {
        CheckedMachine::keep(self, alloc)
    }

    fn put_back(&mut self, alloc: Global, kept: &State) -> Result<(), AllocError> {
        CheckedMachine::put_back(self, alloc, kept)
    }

    ghost itself = { λ m. record { story = refl; scope = refl } };

    ghost through = { λ old now new first then. record { story = then.story ∙ first.story; scope = then.scope ∙ first.scope } };

    ghost same_answers = { λ old new same options a b result. subst (λ (m : Setting). Answers m (λ _. ⊤) (WantsOrSaves m) options a b result) (same_setting old new same) };

    ghost same_prompts = { λ old new same options a b result. subst (λ (m : Setting). ComesFromPrompts m (λ _. ⊤) (WantsOrSaves m) options a b result) (same_setting old new same) };

    ghost same_kept = { λ old new same s. subst (λ (m : Setting). IsKeptOf m s) (sym (same_setting old new same)) };

    ghost may_quit = { tt };

    ghost may_want = { tt };
}

impl<'a, V: Spelled> Promptable for Session<'a, V> {
    ghost use Rattle.std.specs.Prelude.{refl};
    ghost use Rattle.std.proofs.Common.{◌∙◌, subst, sym};
    ghost use Rattle.zcheck.specs.Acceptance.{AcceptanceOver};
    ghost use Rattle.zplay.specs.Keeping.{IsKeptOf};
    ghost use Rattle.zplay.specs.Session.{setting as setting_of_session, setting_of};
    ghost use Rattle.zplayer.specs.Stories.{Describes};
    ghost use Rattle.zprompt.specs.Ends.{EndsWell};

    ghost setting = { setting_of_session };

    ghost state = { λ p. p.state };

    ghost Takes = { λ p. Describes V.operations p.accepted };

    ghost Wants = { GivesOrSaves };

    ghost IsSamePlay = { λ old new. new.accepted ≡ old.accepted };

    ghost IsKept = { λ p. IsKeptOf V.operations p.accepted };

    ghost MayEnd = { EndsWell };

    fn play<R: Source, W: Sink, S: SaveStore, G: Words>(
        &mut self,
        alloc: Global,
        world: &mut World<'_, R, W, S, G>,
        options: Options,
    ) -> Result<End, PlayError> {
        play_story(alloc, self, world, options)
    }

    fn keep(&self, alloc: Global) -> Result<Option<State>, AllocError> {
        Ok(Some(Session::keep(self, alloc)?))
    }

    fn put_back(&mut self, alloc: Global, kept: &State) -> Result<(), AllocError> {
        Session::put_back(self, alloc, kept)
    }

    ghost itself = { λ p. refl };

    ghost through = { λ old now new first then. then ∙ first };

    ghost same_answers = { λ old new same options a b result. subst (λ (accepted : AcceptanceOver V). Answers (setting_of accepted) (Describes V.operations accepted) (GivesOrSaves (setting_of accepted)) options a b result) same };

    ghost same_prompts = { λ old new same options a b result. subst (λ (accepted : AcceptanceOver V). ComesFromPrompts (setting_of accepted) (Describes V.operations accepted) (GivesOrSaves (setting_of accepted)) options a b result) same };

    ghost same_kept = { λ old new same s. subst (λ (accepted : AcceptanceOver V). IsKeptOf V.operations accepted s) (sym same) };

    ghost may_quit = { tt };

    ghost may_want = { tt };
}

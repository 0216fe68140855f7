//! The session.

ghost use Rattle.std.specs.Prelude.{◌≡◌, ◌↔◌, ◌≤◌, ◌+◌, ℕ, List, [], Ok, Some, IfErr, IfOk, IsOk, OnErr, OnOk, IsTrue};
ghost use Rattle.zfault.specs.Answers.{answers};
ghost use Rattle.zstate.specs.declared.halt.Stop.TheVariants.{Paused};
ghost use Rattle.zstate.specs.State.{Scope, opening, give};
ghost use Rattle.zstate.specs.Run.{awaited, run, Ends, GivesOut, Input, Makes, Stands};
ghost use Rattle.zfault.specs.declared.pause.Need.TheVariants.{Saved as ASave, Restore as ARestore};
ghost use Rattle.zquetzal.specs.Grammar.{save_text};
ghost use Rattle.zquetzal.specs.Saved.{origin_of};
ghost use Rattle.zstate.specs.Saves.{restoring, saved_of};
ghost use Rattle.zrule.specs.Described.{AreFine, Described, IsFineSave, IsNoFault};
ghost use Rattle.zcheck.specs.Acceptance.{IsAcceptedSave, limit_of};
ghost use Rattle.zplay.specs.Accepted.{IsAccepted, claims};
ghost use Rattle.zplay.specs.Calls.{MovesAsMachine};
ghost use Rattle.zplay.specs.Session.{setting, Accepts, GiveEach, IsDescribed, IsRefusedSave, PlayingOver, words_kept};

use std::alloc::{AllocError, Global};
use std::marker::Model;
use zcert::Spelled;
use zcheck::Accepted;
use zdomain::Interval;
use zfault::{Event, Items, Need, Pause};
use zjudge::judge_save;
use zlink::StoryRows;
use zmachine::{Machine, Parts, Untested};
use zquetzal::{SaveError, read};
use zrule::{each_step_is_safe, saves_are_accepted};
use zstate::{RandomMode, Stop};

/// A play of an accepted story. It makes no test for a fault, since none can come, and moves as the checked machine whose
/// scope is the listing.
///
/// Any sequence of calls of `run`, `give` and `restore` is one run of the checked machine over a list of events and accepted saves, by the
/// law `moves_as_machine`.
#[derive(Drop)]
pub struct Session<'a, V: Spelled = Interval> {
    pub(crate) accepted: &'a Accepted<V>,
    pub(crate) machine: Machine<'a, StoryRows<'a>, Untested>,
}

impl<'a, V: Spelled> Model for Session<'a, V> {
    ghost use Rattle.zlink.specs.Laid.{setting_of};
    ghost use Rattle.zplay.specs.Session.{IsInPlay, PlayingOver};

    ghost Value = { PlayingOver V };

    ghost view = { λ p. record { accepted = p.accepted.now; state = p.machine.state } };

    ghost invariant = { λ p. IsInPlay V.operations V.format p.accepted.now (setting_of p.machine.rows) p.machine.words p.machine.state };
}

impl<'a, V: Spelled> Session<'a, V> {
    /// The session that stands where the story opens (Z 6.1.3). Words for all its frames are reserved here, as many as its certificate
    /// says, and rows that play can't do without. Want of memory is the only error.
    pub fn start(alloc: Global, accepted: &'a Accepted<V>) -> Result<Session<'a, V>, AllocError>
        ensures { IfOk result (λ p. p ≡ record { accepted = accepted.now; state = opening accepted.now.story }) }
    {
        each_step_is_safe::<V>();
        known_of(accepted);
        each_gives(accepted);
        let story = accepted.story();
        let scope = zlink::Scope::Only(accepted.listing());
        let limit = usize::from(accepted.certificate().frame_limit());
        let rows = StoryRows::new(alloc, story, scope, limit)?;
        let mut machine = Machine::new(alloc, story, rows)?;
        if !machine.reserve(words_for(limit)) {
            return Err(AllocError);
        }
        Ok(Session { accepted, machine })
    }

    /// The address of the instruction that comes next.
    pub fn place(&self) -> i32
        ensures { result ≡ self.now.state.place }
    {
        self.machine.place()
    }

    /// Memory as it is now, as long as the loaded story.
    pub fn memory(&self) -> &[u8]
        ensures { result.now ≡ self.now.state.memory }
    {
        self.machine.memory()
    }

    /// What the instruction at the place waits for, if nothing was given for it yet.
    pub fn awaits(&self) -> Option<Need>
        ensures { result ≡ awaited (setting self.now) self.now.state }
    {
        match self.machine.awaits() {
            Ok(need) => need,
            Err(_) => unreachable!(),
        }
    }

    /// Hands in an event of the kind that is awaited.
    pub fn give(&mut self, event: Event)
        requires { (need : Need) × (awaited (setting self.old) self.old.state ≡ Some need) × IsTrue (answers need event) }
        ensures { self.new ≡ record self.old { state = give event self.old.state } }
    {
        self.machine.give(event);
    }

    /// Makes at most `budget` steps, with no event but one that was given, and appends what they give out to `items`.
    ///
    /// A pause leaves the state before its instruction; so does want of memory, which comes only where the next
    /// instruction gives something out, with the items of the steps that were made.
    pub fn run(&mut self, budget: u32, items: &mut Items) -> Result<Pause, AllocError>
        ensures play { self.new.accepted ≡ self.old.accepted }
        ensures ok { IfOk result (λ pause. Ends (Paused pause) self.new.state items.old.items items.new.items (run (setting self.old) [] budget self.old.state)) }
        ensures made { (n : ℕ) × (n ≤ budget) × Makes (setting self.old) n self.old.state self.new.state items.old.items items.new.items }
        ensures stands { IfOk result (λ pause. Stands (setting self.old) (Paused pause) self.new.state) }
        ensures spent { result ≡ Ok Pause.Budget → Makes (setting self.old) budget self.old.state self.new.state items.old.items items.new.items }
        ensures err { OnErr result (GivesOut (setting self.old) self.new.state) }
    {
        let mut left = budget;
        self.run_down(&mut left, items)
    }

    /// As `run`, with a budget that each step takes one off.
    pub fn run_down(&mut self, left: &mut u32, items: &mut Items) -> Result<Pause, AllocError>
        ensures play { self.new.accepted ≡ self.old.accepted }
        ensures ok { IfOk result (λ pause. Ends (Paused pause) self.new.state items.old.items items.new.items (run (setting self.old) [] left.old self.old.state)) }
        ensures made { (n : ℕ) × (n + left.new ≡ left.old) × Makes (setting self.old) n self.old.state self.new.state items.old.items items.new.items }
        ensures stands { IfOk result (λ pause. Stands (setting self.old) (Paused pause) self.new.state) }
        ensures spent { result ≡ Ok Pause.Budget → left.new ≡ 0 }
        ensures err { OnErr result (GivesOut (setting self.old) self.new.state) }
    {
        match self.machine.run_down(left, items) {
            Ok(Stop::Paused(pause)) => Ok(pause),
            Ok(Stop::Fault(..)) => unreachable!(),
            Err(_) => Err(AllocError),
        }
    }

    /// The bytes of a save of the state, in which a save is awaited (Z 15 save, Q 3 to 6). Want of memory is the only error.
    pub fn save_bytes(&self, alloc: Global) -> Result<Vec<u8>, AllocError>
        requires { awaited (setting self.now) self.now.state ≡ Some ASave }
        ensures { IfOk result (λ save. save.items ≡ save_text (origin_of self.now.accepted.story) (saved_of self.now.accepted.story self.now.state)) }
    {
        self.machine.save_bytes(alloc)
    }

    /// What a save of the state would tell, whatever the session stands at: memory, the frames and the place.
    pub fn parts(&self) -> Parts<'_, StoryRows<'a>>
        ensures { result ≡ record { story = self.now.accepted.story; state = self.now.state } }
    {
        self.machine.parts()
    }

    /// Where random numbers come from.
    pub fn random(&self) -> RandomMode
        ensures { result ≡ self.now.state.random }
    {
        self.machine.random()
    }

    /// Goes on from the bytes of a save, where one is awaited (Z 15 restore). All of the save is judged before any of it is taken over,
    /// and memory isn't asked for: an error changes nothing.
    ///
    /// # Errors
    ///
    /// The lowest that refuses the save: what `zquetzal::read` says of the bytes, `Place` where no `save` is listed before the save's
    /// place, `NotDescribed` where there are more frames than the certificate says, or it doesn't describe the state in which play would go
    /// on.
    pub fn restore(&mut self, save: &[u8]) -> Result<(), SaveError>
        requires { awaited (setting self.old) self.old.state ≡ Some ARestore }
        ensures play { self.new.accepted ≡ self.old.accepted }
        ensures ok { OnOk result ((restoring (setting self.old) save.now self.old.state ≡ Ok self.new.state) × Described V.operations (claims V.operations self.old.accepted) (limit_of self.old.accepted) self.old.accepted.story self.new.state) }
        ensures same { OnErr result (self.new ≡ self.old) }
        ensures refused { IfErr result (IsRefusedSave V.operations self.old save.now) }
        ensures exact { IsOk result ↔ Accepts V.operations self.old save.now }
    {
        let accepted = self.accepted;
        known_of(accepted);
        let view = read(accepted.story(), save)?;
        judge_save(
            accepted.story(),
            accepted.certificate(),
            accepted.listing(),
            &view,
        )?;
        match self.machine.restore(save) {
            Ok(()) => Ok(()),
            Err(_) => unreachable!(),
        }
    }

    /// The law of sessions: no run from here meets a fault, whatever the events and however many the steps, as long as each save leads
    /// to described states alone.
    pub fn never_faults(&self)
        ensures { (inputs : List Input) (n : ℕ) → AreFine V.operations (claims V.operations self.now.accepted) (setting self.now) inputs → IsNoFault (run (setting self.now) inputs n self.now.state).stop }
    {
        each_step_is_safe::<V>();
        let _machine = &self.machine;
    }

    /// The law of sessions and checked machines: whatever calls of `run`, `give` and `restore` were made from here, where the session
    /// pauses the checked machine pauses that is given the same list, for the same cause, in the same state and with the same items, with
    /// the certificate's listing in scope as with every place, and as many frames as it says; and it meets no fault.
    pub fn moves_as_machine(&self)
        ensures { MovesAsMachine V.operations self.now.accepted self.now.state }
    {
        let _machine = &self.machine;
    }

    /// The laws of saves. A session stands in a state that its certificate describes. What it saves is accepted by every session of the
    /// same story and certificate, in whatever described state that stands. What a session accepts are the accepted saves of
    /// `zcheck::check`. And a save that a session accepts leads to described states alone, wherever and in whatever scope it is handed in:
    /// so no run over events and accepted saves meets a fault.
    pub fn saves_are_accepted(&self)
        ensures described { IsDescribed V.operations self.now }
        ensures saved { awaited (setting self.now) self.now.state ≡ Some ASave → (other : PlayingOver V) → other.accepted ≡ self.now.accepted → IsDescribed V.operations other → Accepts V.operations other (save_text (origin_of self.now.accepted.story) (saved_of self.now.accepted.story self.now.state)) }
        ensures accepted { (save : List ℕ) → Accepts V.operations self.now save ↔ IsAcceptedSave V.operations self.now.accepted (limit_of self.now.accepted) save }
        ensures fine { (save : List ℕ) (scope : Scope) → Accepts V.operations self.now save → IsFineSave V.operations (claims V.operations self.now.accepted) (record (setting self.now) { scope = scope }) save }
    {
        saves_are_accepted::<V>();
        let _machine = &self.machine;
    }
}

/// How many words there are for frames: for each of so many above the first 15 locals, 64 words on its stack and a head, and what the
/// newest wants (own).
fn words_for(limit: usize) -> usize
    requires { limit ≤ 4096 }
    ensures { result ≡ words_kept limit }
{
    5 + 84 * limit + 131_106
}

/// What is known of an accepted story.
fn known_of<V: Spelled>(accepted: &Accepted<V>)
    ensures { IsAccepted V.operations V.format accepted.now }
{
    let _memory = accepted.story().memory();
    let _listing = accepted.listing();
    let _globals = accepted.certificate().globals();
}

/// Each routine may give some word, since no set is empty (a law).
fn each_gives<V: Spelled>(accepted: &Accepted<V>)
    ensures { GiveEach V.operations accepted.now }
{
    for routine in accepted.certificate().routines() {
        let _word = routine.result.member();
    }
}

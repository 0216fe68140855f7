//! Saves that go to a store, and play that goes on from one.

ghost use Rattle.std.specs.Prelude.{◌≡◌, ◌≢◌, false, true, [], ◌++◌, IfErr, IfOk, List, Ok, OnErr, OnOk, Some};
ghost use Rattle.zquetzal.specs.Grammar.{save_text};
ghost use Rattle.zquetzal.specs.Saved.{origin_of};
ghost use Rattle.zquetzal.specs.declared.error.SaveError.{SaveError as ARefusal};
ghost use Rattle.zstate.specs.Run.{awaited};
ghost use Rattle.zstate.specs.Saves.{saved_of};
ghost use Rattle.zplayer.specs.Playing.{Restores};
ghost use Rattle.zplayer.specs.World.{HasNone, Stores, TakesUp, told};

use crate::end::PlayError;
use crate::machine::Machine;
use crate::outside::SaveStore;
use std::alloc::Global;
use zfault::{Event, Need};

/// Gives the store what is saved of the machine's state, and answers whether it is kept.
pub(crate) fn save<M: Machine, S: SaveStore>(
    alloc: Global,
    machine: &M,
    store: &mut S,
) -> Result<bool, PlayError>
    requires { awaited (M.setting machine.now) (M.state machine.now) ≡ Some Need.Saved }
    ensures put { IfOk result (λ done. (before : List ARefusal) → Stores (told S.kept S.failures store.old before) (save_text (origin_of (M.setting machine.now).story) (saved_of (M.setting machine.now).story (M.state machine.now))) done (told S.kept S.failures store.new before)) }
    ensures same { OnErr result (store.new ≡ store.old) }
    ensures wanted { IfErr result (λ error. (error ≡ PlayError.OutOfMemory) × M.Wants (M.setting machine.now) (M.state machine.now)) }
    ensures follows { S.Follows store.old store.new [] }
{
    let save = machine.save_bytes(alloc)?;
    Ok(store.put(&save))
}

/// Goes on from the save that the store has, or tells the story that there is none from which it could, and the store why.
pub(crate) fn resume<M: Machine, S: SaveStore>(
    alloc: Global,
    machine: &mut M,
    store: &mut S,
) -> Result<(), PlayError>
    requires { awaited (M.setting machine.old) (M.state machine.old) ≡ Some Need.Restore }
    ensures play { M.IsSamePlay machine.old machine.new }
    ensures restored { OnOk result ((refusals : List ARefusal) × S.Follows store.old store.new refusals × ((before : List ARefusal) → Restores (M.setting machine.old) (M.Takes machine.old) (M.state machine.old) (told S.kept S.failures store.old before) (M.state machine.new) (told S.kept S.failures store.new (refusals ++ before)))) }
    ensures same { OnErr result ((M.state machine.new ≡ M.state machine.old) × S.Follows store.old store.new [] × ((before : List ARefusal) → told S.kept S.failures store.new before ≡ told S.kept S.failures store.old before)) }
    ensures wanted { IfErr result (λ error. (error ≡ PlayError.OutOfMemory) × M.Wants (M.setting machine.old) (M.state machine.old)) }
{
    if !take_up(alloc, machine, store)? {
        machine.give(Event::NotRestored);
    }
    Ok(())
}

/// Goes on from the save that the store has. Answers whether there is one from which the machine does; else the store is told why not.
fn take_up<M: Machine, S: SaveStore>(
    alloc: Global,
    machine: &mut M,
    store: &mut S,
) -> Result<bool, PlayError>
    requires { awaited (M.setting machine.old) (M.state machine.old) ≡ Some Need.Restore }
    ensures play { M.IsSamePlay machine.old machine.new }
    ensures taken { result ≡ Ok true → S.Follows store.old store.new [] × ((before : List ARefusal) → TakesUp (M.setting machine.old) (M.Takes machine.old) (M.state machine.old) (told S.kept S.failures store.old before) (M.state machine.new) (told S.kept S.failures store.new before)) }
    ensures none { result ≡ Ok false → (refusals : List ARefusal) × S.Follows store.old store.new refusals × ((before : List ARefusal) → HasNone (M.setting machine.old) (M.Takes machine.old) (M.state machine.old) (told S.kept S.failures store.old before) (told S.kept S.failures store.new (refusals ++ before))) }
    ensures still { result ≢ Ok true → M.state machine.new ≡ M.state machine.old }
    ensures same { OnErr result (S.Follows store.old store.new [] × ((before : List ARefusal) → told S.kept S.failures store.new before ≡ told S.kept S.failures store.old before)) }
    ensures wanted { IfErr result (λ error. (error ≡ PlayError.OutOfMemory) × M.Wants (M.setting machine.old) (M.state machine.old)) }
{
    let mut save = Vec::new(alloc);
    if !store.get(&mut save) {
        return Ok(false);
    }
    match machine.restore(alloc, &save)? {
        None => Ok(true),
        Some(error) => {
            store.refused(error);
            Ok(false)
        }
    }
}

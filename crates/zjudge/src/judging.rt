//! The judge of saves.

ghost use Rattle.std.specs.Prelude.{◌≡◌, ◌↔◌, ◌≤◌, ◌+◌, ◌-◌, ℕ, IsTrue, OnOk, length, map, nat_le, true};
ghost use Rattle.std.specs.List.{AllByRecursion};
ghost use Rattle.zstory.specs.Bytes.{AreBytes};
ghost use Rattle.zstory.specs.LoadedStory.{IsSound, static_base};
ghost use Rattle.zstory.specs.Objects.{IsObjectCount};
ghost use Rattle.zlist.specs.Listing.{is_listed};
ghost use Rattle.zquetzal.specs.Saved.{IsSaved};
ghost use Rattle.zstate.specs.State.{IsState, State};
ghost use Rattle.zstate.specs.Saves.{taken_frame};
ghost use Rattle.zcert.specs.Certificate.{frame_limit};
ghost use Rattle.zrule.specs.Claims.{claims_of};
ghost use Rattle.zrule.specs.Described.{HaveFacts};
ghost use Rattle.zjudge.specs.Frames.{AreDescribed};
ghost use Rattle.zjudge.specs.Judging.{IsJudged, listed_setting};
ghost use Rattle.zjudge.specs.Memory.{AreGlobals, IsDescribedMemory};

use crate::frames::are_frames_described;
use crate::memory::{have_facts, is_memory_described};
use crate::place::is_save_before;
use zcert::{Certificate, Spelled};
use zlist::Listing;
use zquetzal::{SaveError, SaveView};
use zstory::Story;

/// Judges the whole of a save: whether play may go on from it, and then in a state that the certificate describes. Every frame is
/// judged, and each caller under every value that the routine above it may give. It takes no memory.
///
/// What the state was like before makes no difference, since what stays of it, two bits of Flags 2 and where random numbers come from,
/// isn't described.
///
/// # Errors
///
/// `Place` where no `save` is listed before the place of the save, and else `NotDescribed` where it has more frames than the certificate
/// lets stand, or the certificate doesn't describe the state in which play would go on. No other is answered.
pub fn judge_save<V: Spelled>(
    story: &Story,
    certificate: &Certificate<V>,
    listing: &Listing,
    view: &SaveView<'_>,
) -> Result<(), SaveError>
    // What was read is a save of the story.
    requires saved { IsSaved story.now view.now }
    // All listed instructions stand in static memory.
    requires fixed { (p : ℕ) → is_listed listing.now p ≡ true → static_base story.now ≤ p }
    // Each stack is as low as those of a certificate.
    ensures low { OnOk result (AllByRecursion (λ f. length f.stack ≤ 64) view.now.frames) }
    // And there are no more frames than the certificate lets stand.
    ensures few { OnOk result (length view.now.frames ≤ frame_limit certificate.now + 1) }
    ensures value { (s : State) → IsState (frame_limit certificate.now) story.now s → IsJudged V.operations (claims_of V.operations certificate.now) (listed_setting story.now listing.now (frame_limit certificate.now)) view.now s result }
{
    are_known(story, certificate, view);
    if !is_save_before(story, listing, view.place()) {
        return Err(SaveError::Place);
    }
    if !are_few(certificate, view) {
        return Err(SaveError::NotDescribed);
    }
    if !is_described(story, certificate, view) {
        return Err(SaveError::NotDescribed);
    }
    Ok(())
}

/// Whether no more frames are saved than the certificate lets stand.
fn are_few<V: Spelled>(certificate: &Certificate<V>, view: &SaveView<'_>) -> bool
    ensures { result ≡ nat_le (length view.now.frames) (frame_limit certificate.now + 1) }
{
    view.frame_count() <= usize::from(certificate.frame_limit()) + 1
}

/// Whether the frames of a save and its memory are described, and what is stated of globals at its place holds.
fn is_described<V: Spelled>(
    story: &Story,
    certificate: &Certificate<V>,
    view: &SaveView<'_>,
) -> bool
    requires some { 1 ≤ view.now.place }
    requires whole { length view.now.memory ≡ static_base story.now }
    ensures low { IsTrue result → AllByRecursion (λ f. length f.stack ≤ 64) view.now.frames }
    ensures value { IsTrue result ↔ (IsDescribedMemory V.operations (claims_of V.operations certificate.now) story.now view.now.memory × AreDescribed V.operations (claims_of V.operations certificate.now) (map taken_frame view.now.frames) (view.now.place - 1) × HaveFacts V.operations (claims_of V.operations certificate.now) story.now view.now.memory (view.now.place - 1)) }
{
    let at = view.place() - 1;
    is_memory_described(story, certificate, view.memory())
        && are_frames_described(certificate, view.frames(), at)
        && have_facts(story, certificate, view.memory(), at)
}

/// What is known of every story, certificate and save.
fn are_known<V: Spelled>(story: &Story, certificate: &Certificate<V>, view: &SaveView<'_>)
    ensures sound { IsSound story.now.memory }
    ensures counted { IsObjectCount story.now.memory story.now.objects }
    ensures globals { length certificate.now.globals ≤ 240 }
    ensures facts { (p : ℕ) → AreGlobals ((claims_of V.operations certificate.now).facts p) }
    ensures bytes { AreBytes view.now.memory }
{
    let _loaded = story.memory();
    let _globals = certificate.globals();
    let _facts = certificate.facts();
    are_bytes(view.memory());
}

/// A slice of bytes has bytes alone.
fn are_bytes(memory: &[u8])
    ensures { AreBytes memory.now }
{
    let _length = memory.len();
}

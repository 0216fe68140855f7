//! The messages of errors that calls on texts, objects, saves, listings and certificates answer, and of devices and plays.

use crate::messages::are_told;
use std::test::Fail;
use zcheck::{Refusal, StoryRule};
use zcode::{DecodeError, Excluded};
use zfault::Failed;
use zfind::{FindError, Obstacle};
use zlist::ListError;
use zobj::ObjectError;
use zplayer::PlayError;
use zquetzal::SaveError;
use zrule::Rule;
use ztext::TextError;

#[test]
fn texts_and_objects_are_told(rt: HostRuntime) -> Result<(), Fail> {
    let texts = [
        (TextError::Outside, "the text is not whole in memory"),
        (
            TextError::NestedAbbreviation,
            "an abbreviation uses an abbreviation",
        ),
        (TextError::OutOfMemory, "out of memory"),
    ];
    let objects = [
        (ObjectError::AbsentObject, "there is no such object"),
        (ObjectError::AbsentProperty, "there is no such property"),
        (
            ObjectError::PropertyTooLong,
            "the property is longer than a word",
        ),
    ];
    assert!(rt; are_told(rt.alloc(), &texts)?);
    assert!(rt; are_told(rt.alloc(), &objects)?);
    Ok(())
}

#[test]
fn other_opcodes_are_told(rt: HostRuntime) -> Result<(), Fail> {
    let told = [
        (
            DecodeError::NotInProfile(Excluded::SplitWindow),
            "the opcode split_window is not played",
        ),
        (
            DecodeError::NotInProfile(Excluded::OutputStream),
            "the opcode output_stream is not played",
        ),
        (
            DecodeError::NotInProfile(Excluded::InputStream),
            "the opcode input_stream is not played",
        ),
        (
            DecodeError::NotInProfile(Excluded::SoundEffect),
            "the opcode sound_effect is not played",
        ),
    ];
    assert!(rt; are_told(rt.alloc(), &told)?);
    Ok(())
}

#[test]
fn refused_saves_are_told(rt: HostRuntime) -> Result<(), Fail> {
    let told = [
        (SaveError::NotForm, "not a save file"),
        (SaveError::Length, "a length does not fit the file"),
        (SaveError::ChunkMissing, "a part of the save is missing"),
        (SaveError::ChunkTwice, "a part of the save is there twice"),
        (SaveError::Compressed, "the memory is compressed"),
        (SaveError::OtherStory, "the save is of another story"),
        (SaveError::MemoryLength, "the memory has another length"),
        (SaveError::Frames, "the frames do not fit"),
        (SaveError::Place, "no save instruction is at the place"),
        (
            SaveError::NotDescribed,
            "the certificate does not describe the save",
        ),
        (SaveError::OutOfMemory, "out of memory"),
    ];
    assert!(rt; are_told(rt.alloc(), &told)?);
    Ok(())
}

#[test]
fn listings_are_told(rt: HostRuntime) -> Result<(), Fail> {
    let told = [
        (
            ListError::Decode(-31963, DecodeError::NoSuchOpcode),
            "no instruction at -31963: no opcode has this number",
        ),
        (
            ListError::TwoRoutines(804),
            "the instruction at 804 belongs to two routines",
        ),
        (
            ListError::ComputedJump(805),
            "the jump at 805 has no constant target",
        ),
        (ListError::OutOfMemory, "out of memory"),
    ];
    assert!(rt; are_told(rt.alloc(), &told)?);
    Ok(())
}

#[test]
fn certificates_that_do_not_hold_are_told(rt: HostRuntime) -> Result<(), Fail> {
    let refused = [
        (
            Refusal::Story(StoryRule::FirstGlobals),
            "the certificate doesn't hold of the story",
        ),
        (
            Refusal::Instruction(804, Rule::Successor),
            "the certificate doesn't hold of an instruction",
        ),
        (Refusal::OutOfMemory, "out of memory"),
    ];
    let unfound = [
        (
            FindError::NotFound(Obstacle::Place(804, Rule::Successor)),
            "no certificate was found",
        ),
        (FindError::RoundLimit, "the search took too long"),
        (FindError::OutOfMemory, "out of memory"),
    ];
    assert!(rt; are_told(rt.alloc(), &refused)?);
    assert!(rt; are_told(rt.alloc(), &unfound)?);
    Ok(())
}

#[test]
fn devices_and_plays_are_told(rt: HostRuntime) -> Result<(), Fail> {
    let devices = [(Failed, "the device failed")];
    let plays = [
        (PlayError::Read, "reading failed"),
        (PlayError::Write, "writing failed"),
        (PlayError::OutOfMemory, "out of memory"),
    ];
    assert!(rt; are_told(rt.alloc(), &devices)?);
    assert!(rt; are_told(rt.alloc(), &plays)?);
    Ok(())
}

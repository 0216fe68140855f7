//! The status line (Z 8.2).

ghost use Rattle.std.specs.Prelude.{◌≡◌, ◌≤◌, ◌++◌, ◌∷◌, [], Ok, Err, OnOk, OnErr, IfErr, IfOk, length, IsTrue};
ghost use Rattle.zfault.specs.declared.item.Item.TheVariants.{Status as Line};
ghost use Rattle.zfault.specs.declared.item.Status.{Status as StatusLine};
ghost use Rattle.zobj.specs.Entries.{HasTable};
ghost use Rattle.zstate.specs.Step.{global_word, line_of, showing, status_of, tells_time};
ghost use Rattle.zengine.specs.Printed.{IsTitle, MayTitle};
ghost use Rattle.zstate.specs.State.{fault};

use crate::printing::{Unprinted, may_name, name};
use std::alloc::AllocError;
use zfault::{Fault, Items, Name, Status};
use zstory::Story;

/// The variable with the object whose name is shown; behind it are the two with the numbers (Z 8.2).
const SHOWN: u8 = 16;

/// Where in the header Flags 1 stand (Z 11.1).
const FLAGS_1: usize = 1;

/// Gives the status line out. Nothing is given out where that can't be done.
pub(crate) fn show(
    story: &Story,
    memory: &[u8],
    text: &mut Vec<u8>,
    items: &mut Items,
) -> Result<(), Unprinted>
    requires memory { length memory.now ≡ length story.now.memory }
    requires objects { HasTable memory.now story.now.objects }
    ensures ok { OnOk result ((line : StatusLine) × (status_of story.now memory.now ≡ Ok (showing line)) × (items.new.items ≡ items.old.items ++ Line line ∷ [])) }
    ensures err { IfErr result (λ why. IsTitle story.now memory.now (Err why) text.new.items) }
    ensures kept { OnErr result (items.new.items ≡ items.old.items) }
{
    match title(story, memory, text) {
        Ok(()) => {}
        Err(why) => return Err(why),
    }
    match line_of(story, memory, text) {
        Ok(status) => match items.give_status(status) {
            Ok(()) => Ok(()),
            Err(_) => Err(Unprinted::Memory),
        },
        Err(_) => Err(Unprinted::Memory),
    }
}

/// Whether there is memory for the name in the status line, where it can be decoded. One for which there is none can be.
pub(crate) fn is_titled(story: &Story, memory: &[u8], text: &mut Vec<u8>) -> Result<bool, Fault>
    requires memory { length memory.now ≡ length story.now.memory }
    requires objects { HasTable memory.now story.now.objects }
    ensures shown { IfOk result (λ titled. (line : StatusLine) × (status_of story.now memory.now ≡ Ok (showing line)) × (IsTrue titled → line ≡ line_of story.now memory.now text.new.items)) }
    ensures err { IfErr result (λ f. status_of story.now memory.now ≡ fault f) }
{
    match title(story, memory, text) {
        Ok(()) => Ok(true),
        Err(Unprinted::Memory) => Ok(false),
        Err(Unprinted::Fault(fault)) => Err(fault),
    }
}

/// The short name of the object that is shown is decoded; that of 0 is empty (own).
pub(crate) fn title(story: &Story, memory: &[u8], text: &mut Vec<u8>) -> Result<(), Unprinted>
    requires memory { length memory.now ≡ length story.now.memory }
    requires objects { HasTable memory.now story.now.objects }
    ensures { IsTitle story.now memory.now result text.new.items }
{
    text.clear();
    let number = global(SHOWN, story, memory);
    if number == 0 {
        return Ok(());
    }
    name(memory, story.objects(), number, text)
}

/// Whether the short name of the object that is shown can be decoded.
pub(crate) fn may_title(story: &Story, memory: &[u8]) -> Result<(), Fault>
    requires memory { length memory.now ≡ length story.now.memory }
    requires objects { HasTable memory.now story.now.objects }
    ensures { MayTitle story.now memory.now result }
{
    let shown = global(SHOWN, story, memory);
    if shown == 0 {
        return Ok(());
    }
    may_name(memory, story.objects(), shown)
}

/// The status line with a name. Want of memory is the only error.
pub(crate) fn line_of(story: &Story, memory: &[u8], name: &Vec<u8>) -> Result<Status, AllocError>
    requires { length memory.now ≡ length story.now.memory }
    ensures { IfOk result (λ status. status ≡ line_of story.now memory.now name.now.items) }
{
    Ok(Status {
        name: Name::from_slice(*name.allocator(), name.as_slice())?,
        first: global(SHOWN + 1, story, memory).cast_signed(),
        second: global(SHOWN + 2, story, memory).cast_signed(),
        time: tells_time(story, memory),
    })
}

/// A global, by its variable's number.
fn global(variable: u8, story: &Story, memory: &[u8]) -> u16
    requires memory { length memory.now ≡ length story.now.memory }
    requires named { 16 ≤ variable }
    ensures { result ≡ global_word story.now variable memory.now }
{
    let at = story.globals() + 2 * (usize::from(variable) - 16);
    u16::from_be_bytes([memory[at], memory[at + 1]])
}

/// Whether the numbers are a time of day: bit 1 of Flags 1 (Z 8.2.3, 11.1).
fn tells_time(story: &Story, memory: &[u8]) -> bool
    requires { length memory.now ≡ length story.now.memory }
    ensures { result ≡ tells_time memory.now }
{
    story.length();
    (memory[FLAGS_1] >> 1) & 1 == 1
}

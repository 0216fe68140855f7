//! The listing of a story's file, or of a certificate's, as lines.

ghost use Rattle.std.specs.Prelude.{◌≡◌, ◌++◌, false, true, IfErr, IfOk, IsErrOf, flat_map, pos};
ghost use Rattle.zperform.specs.Blaming.{IsUnread, IsUnreadOf};
ghost use Rattle.zperform.specs.Accepting.{IsOfEither, IsUnacceptedStory};
ghost use Rattle.zperform.specs.Devices.{FlushesUnless, ReadsUnless, held};
ghost use Rattle.zperform.specs.Listing.{HoldsListed, IsListedAs, IsNoListing, IsUnlisted, ListComesTo, listed_text, listing_text, record_line, record_object};
ghost use Rattle.zperform.specs.Marking.{AreMarksOf, HoldsListedByEither, IsListedBy, ListByComesTo};
ghost use Rattle.zperform.specs.Report.{place_text};

use crate::accepting::{AcceptedStory, accept, open_story};
use crate::files::Files;
use crate::marking::add_marks;
use crate::message::address_text;
use crate::outcome::{Failure, Outcome, Problem};
use crate::performing::write_done;
use crate::told::Told;
use itoa::Buffer;
use std::alloc::{AllocError, Global};
use zcert::Spelled;
use zcheck::{Accepted, Judged, Marked};
use zfault::Sink;
use zinfo::push_address;
use zjson::instruction_line;
use zlist::{Record, list_story};
use zstory::Story;

/// Writes the listing of a story's file: nothing before all of it is made.
pub fn list_file<F: Files, W: Sink>(
    alloc: Global,
    story: &str,
    json: bool,
    files: &mut F,
    writer: &mut W,
) -> Outcome
    ensures comes { ListComesTo json (F.known files.old story.now) (W.contents writer.old) (W.contents writer.new) result }
    ensures writer { FlushesUnless W.failures W.waits writer.old writer.new (result ≡ Outcome.Stopped (Problem.Failed Failure.Write)) }
    ensures files { ReadsUnless F.known F.failures F.can_fail files.old files.new (result ≡ Outcome.Stopped (Problem.Failed Failure.File)) }
    ensures could { result ≡ Outcome.Stopped (Problem.Failed Failure.File) → F.can_fail files.old story.now ≡ true }
    ensures blamed { result ≡ Outcome.Stopped (Problem.Failed Failure.File) → IsUnread story.now (F.blamed files.new) }
{
    match listing_of(alloc, story, json, files) {
        Ok(text) => write_done(&text, Outcome::Listed, writer),
        Err(problem) => Outcome::Stopped(problem),
    }
}

/// The lines of the listing of a story's file.
fn listing_of<F: Files>(
    alloc: Global,
    name: &str,
    json: bool,
    files: &mut F,
) -> Result<Vec<u8>, Problem>
    ensures listed { IfOk result (λ text. HoldsListed json (F.known files.old name.now) text.items) }
    ensures refused { IfErr result (IsNoListing (F.known files.old name.now)) }
    ensures files { ReadsUnless F.known F.failures F.can_fail files.old files.new (IsErrOf result (Problem.Failed Failure.File)) }
    ensures could { IsErrOf result (Problem.Failed Failure.File) → F.can_fail files.old name.now ≡ true }
    ensures blamed { IsErrOf result (Problem.Failed Failure.File) → IsUnread name.now (F.blamed files.new) }
    ensures unwritten { ¬ IsErrOf result (Problem.Failed Failure.Write) }
{
    let story = open_story(alloc, name, files)?;
    list_loaded(alloc, &story, json)
}

/// The lines of the listing of a story.
fn list_loaded(alloc: Global, story: &Story, json: bool) -> Result<Vec<u8>, Problem>
    ensures listed { IfOk result (λ text. IsListedAs json story.now text.items) }
    ensures refused { IfErr result (IsUnlisted story.now) }
{
    let listing = list_story(alloc, story)?;
    let text = text_of(alloc, listing.records(), json)?;
    Ok(text)
}

/// Writes the instructions of a certificate, if the story is accepted with it: nothing before all lines are made.
pub fn list_certificate<F: Files, W: Sink>(
    alloc: Global,
    story: &str,
    certificate: &str,
    json: bool,
    files: &mut F,
    writer: &mut W,
) -> Outcome
    ensures comes { ListByComesTo json (F.known files.old story.now) (F.known files.old certificate.now) (W.contents writer.old) (W.contents writer.new) result }
    ensures writer { FlushesUnless W.failures W.waits writer.old writer.new (result ≡ Outcome.Stopped (Problem.Failed Failure.Write)) }
    ensures files { ReadsUnless F.known F.failures F.can_fail files.old files.new (result ≡ Outcome.Stopped (Problem.Failed Failure.File)) }
    ensures could { result ≡ Outcome.Stopped (Problem.Failed Failure.File) → IsOfEither (held F.known F.failures F.can_fail F.blamed files.old) story.now certificate.now }
    ensures blamed { result ≡ Outcome.Stopped (Problem.Failed Failure.File) → IsUnreadOf story.now certificate.now (F.blamed files.new) }
{
    match listing_by(alloc, story, certificate, json, files) {
        Ok(text) => write_done(&text, Outcome::Listed, writer),
        Err(problem) => Outcome::Stopped(problem),
    }
}

/// The lines of the instructions of a certificate, if the story is accepted with it.
fn listing_by<F: Files>(
    alloc: Global,
    story: &str,
    certificate: &str,
    json: bool,
    files: &mut F,
) -> Result<Vec<u8>, Problem>
    ensures listed { IfOk result (λ text. HoldsListedByEither json (F.known files.old story.now) (F.known files.old certificate.now) text.items) }
    ensures refused { IfErr result (IsUnacceptedStory (F.known files.old story.now) (F.known files.old certificate.now)) }
    ensures files { ReadsUnless F.known F.failures F.can_fail files.old files.new (IsErrOf result (Problem.Failed Failure.File)) }
    ensures could { IsErrOf result (Problem.Failed Failure.File) → IsOfEither (held F.known F.failures F.can_fail F.blamed files.old) story.now certificate.now }
    ensures blamed { IsErrOf result (Problem.Failed Failure.File) → IsUnreadOf story.now certificate.now (F.blamed files.new) }
{
    match accept(alloc, story, certificate, files)? {
        AcceptedStory::Intervals(judged) => list_judged(alloc, &judged, json),
        AcceptedStory::Lists(judged) => list_judged(alloc, &judged, json),
    }
}

/// The lines of the instructions of a certificate that was accepted, and where it marks some which, and why.
fn list_judged<V: Told>(
    alloc: Global,
    judged: &Judged<Accepted<V>, Marked<V>>,
    json: bool,
) -> Result<Vec<u8>, Problem>
    ensures listed { IfOk result (λ text. IsListedBy json V.operations judged.now text.items) }
    ensures wanted { IfErr result (λ problem. problem ≡ Problem.Failed Failure.Memory) }
{
    match judged {
        Judged::Whole(accepted) => list_accepted(alloc, accepted, json),
        Judged::Marked(marked) => list_marked(alloc, marked, json),
    }
}

/// The lines of the instructions of one that marks some.
fn list_marked<V: Told>(alloc: Global, marked: &Marked<V>, json: bool) -> Result<Vec<u8>, Problem>
    ensures listed { IfOk result (λ text. AreMarksOf V.operations marked.now.story marked.now.certificate json false text.items) }
    ensures wanted { IfErr result (λ problem. problem ≡ Problem.Failed Failure.Memory) }
{
    let mut text = Vec::new(alloc);
    add_marks(
        alloc,
        marked.story(),
        marked.certificate(),
        json,
        false,
        &mut text,
    )?;
    Ok(text)
}

/// The lines of the instructions of a certificate that marks none.
fn list_accepted<V: Spelled>(
    alloc: Global,
    accepted: &Accepted<V>,
    json: bool,
) -> Result<Vec<u8>, Problem>
    ensures listed { IfOk result (λ text. text.items ≡ listed_text json accepted.now.listing.records) }
    ensures wanted { IfErr result (λ problem. problem ≡ Problem.Failed Failure.Memory) }
{
    let text = text_of(alloc, accepted.listing().records(), json)?;
    Ok(text)
}

/// What is told of each instruction, in order: a line, or an object.
fn text_of(alloc: Global, records: &[Record], json: bool) -> Result<Vec<u8>, AllocError>
    ensures { IfOk result (λ text. text.items ≡ listed_text json records.now) }
{
    if json {
        objects_of(alloc, records)
    } else {
        lines_of(alloc, records)
    }
}

/// An object for each instruction, in order.
fn objects_of(alloc: Global, records: &[Record]) -> Result<Vec<u8>, AllocError>
    ensures { IfOk result (λ text. text.items ≡ flat_map record_object records.now) }
{
    let mut text = Vec::new(alloc);
    for listed in records {
        add_object(alloc, listed, &mut text)?;
    }
    Ok(text)
}

/// Adds the object of an instruction.
fn add_object(alloc: Global, listed: &Record, text: &mut Vec<u8>) -> Result<(), AllocError>
    ensures { IfOk result (λ _. text.new.items ≡ text.old.items ++ record_object listed.now) }
{
    let mut address = String::new(alloc);
    push_address(listed.address, &mut address)?;
    let name = listed.instruction.opcode().name();
    let object = instruction_line(alloc, address.as_str(), listed.routine, name)?;
    text.extend_from_slice(&object)
}

/// A line for each instruction, in order.
fn lines_of(alloc: Global, records: &[Record]) -> Result<Vec<u8>, AllocError>
    ensures { IfOk result (λ text. text.items ≡ listing_text records.now) }
{
    let mut text = Vec::new(alloc);
    for listed in records {
        add_line(listed, &mut text)?;
    }
    Ok(text)
}

/// Adds the line of an instruction: address, number of the routine, and name, with single spaces.
pub fn add_line(listed: &Record, text: &mut Vec<u8>) -> Result<(), AllocError>
    ensures { IfOk result (λ _. text.new.items ≡ text.old.items ++ record_line listed.now) }
{
    add_address(listed.address, text)?;
    text.push(b' ')?;
    text.extend_from_slice(Buffer::new().format(listed.routine).as_bytes())?;
    text.push(b' ')?;
    text.extend_from_slice(listed.instruction.opcode().name().as_bytes())?;
    text.push(b'\n')?;
    Ok(())
}

/// Adds an address.
pub fn add_address(address: u32, text: &mut Vec<u8>) -> Result<(), AllocError>
    ensures { IfOk result (λ _. text.new.items ≡ text.old.items ++ place_text (pos address)) }
{
    if address < 0x100000 {
        text.extend_from_slice(&address_text(address))
    } else {
        text.extend_from_slice(Buffer::new().format(address).as_bytes())
    }
}

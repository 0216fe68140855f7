//! What a certificate says, as lines.

ghost use Rattle.std.specs.Prelude.{◌≡◌, ◌++◌, ◌+◌, ◌<◌, [], ◌∷◌, List, ℕ, Some, None, IfOk, codes, decimal, flat_map};
ghost use Rattle.zcert.specs.Certificate.{edition_of};
ghost use Rattle.zcert.specs.Facts.{facts_at};
ghost use Rattle.zcert.specs.Format.{version_of};
ghost use Rattle.zcert.specs.Listed.{listed_at, seen};
ghost use Rattle.zperform.specs.Numbered.{numbered};
ghost use Rattle.zperform.specs.Showing.{IsEnd, IsShown, IsToldOf, answer_line, claims_text, explained_text, fact_line, facts_line, first_line, bare_line, frame_text, heading_text, limit_line, range_line, routine_line, routine_place, set_line, spelled_line, unlisted_line};

use crate::listing::{add_address, add_line};
use crate::operands::add_told;
use crate::told::Told;
use itoa::Buffer;
use std::alloc::{AllocError, Global};
use zcert::{Certificate, Fact, Instruction, Range, Routine};
use zcode::Instr;
use zexplain::explanation;
use zlist::Record;
use zrule::{Rule, instruction_there, rule_at};
use zstory::Story;

/// The number of the first global's variable (Z 6.2).
pub const FIRST_GLOBAL: u8 = 16;

/// What a certificate says of a story; with an address also what it says there, and whether that holds, and else how many instructions
/// it lists.
pub fn claims_of<V: Told>(
    alloc: Global,
    story: &Story,
    certificate: &Certificate<V>,
    address: Option<u32>,
) -> Result<Vec<u8>, AllocError>
    ensures { IfOk result (λ text. IsShown V.operations V.set_text story.now certificate.now (version_of V.format (edition_of certificate.now)) V.kind_text address text.items) }
{
    let mut text = Vec::new(alloc);
    add_claims(certificate, &mut text)?;
    add_end(alloc, story, certificate, address, &mut text)?;
    Ok(text)
}

/// Adds what a certificate says beside its instructions.
fn add_claims<V: Told>(certificate: &Certificate<V>, text: &mut Vec<u8>) -> Result<(), AllocError>
    ensures { IfOk result (λ _. text.new.items ≡ text.old.items ++ claims_text V.set_text (version_of V.format (edition_of certificate.now)) V.kind_text certificate.now) }
{
    add_heading::<V>(certificate.version(), text)?;
    add_limit(certificate.limit(), text)?;
    add_ranges(certificate.ranges(), text)?;
    add_sets(b"global ", FIRST_GLOBAL, certificate.globals(), text)?;
    add_routines(certificate.routines(), text)
}

/// Adds the version, and what its sets are.
fn add_heading<V: Told>(version: u8, text: &mut Vec<u8>) -> Result<(), AllocError>
    ensures { IfOk result (λ _. text.new.items ≡ text.old.items ++ heading_text version V.kind_text) }
{
    text.extend_from_slice(b"version ")?;
    text.extend_from_slice(Buffer::new().format(version).as_bytes())?;
    text.extend_from_slice(b", ")?;
    text.extend_from_slice(V::kind())?;
    text.push(b'\n')?;
    Ok(())
}

/// Adds a line for a limit of frames, where one is named.
fn add_limit(limit: Option<u16>, text: &mut Vec<u8>) -> Result<(), AllocError>
    ensures { IfOk result (λ _. text.new.items ≡ text.old.items ++ limit_line limit) }
{
    match limit {
        None => Ok(()),
        Some(limit) => add_frames(limit, text),
    }
}

/// Adds the line of so many frames.
fn add_frames(limit: u16, text: &mut Vec<u8>) -> Result<(), AllocError>
    ensures { IfOk result (λ _. text.new.items ≡ text.old.items ++ limit_line (Some limit)) }
{
    text.extend_from_slice(b"frame limit ")?;
    text.extend_from_slice(Buffer::new().format(limit).as_bytes())?;
    text.push(b'\n')?;
    Ok(())
}

/// Adds a line for each range of bytes that stay as they are.
fn add_ranges(ranges: &[Range], text: &mut Vec<u8>) -> Result<(), AllocError>
    ensures { IfOk result (λ _. text.new.items ≡ text.old.items ++ flat_map range_line ranges.now) }
{
    for range in ranges {
        add_range(*range, text)?;
    }
    Ok(())
}

/// Adds the line of a range.
fn add_range(range: Range, text: &mut Vec<u8>) -> Result<(), AllocError>
    ensures { IfOk result (λ _. text.new.items ≡ text.old.items ++ range_line range) }
{
    text.extend_from_slice(b"frozen ")?;
    add_address(u32::from(range.first), text)?;
    text.extend_from_slice(b" to ")?;
    add_address(u32::from(range.last), text)?;
    text.push(b'\n')?;
    Ok(())
}

/// Adds a line for each of these sets, which are numbered from a number on.
fn add_sets<V: Told>(
    name: &[u8],
    first: u8,
    sets: &[V],
    text: &mut Vec<u8>,
) -> Result<(), AllocError>
    ensures { IfOk result (λ _. text.new.items ≡ text.old.items ++ numbered (set_line V.set_text name.now) first sets.now) }
{
    for index in 0..sets.len() {
        // A list may be as long as a usize tells, so its numbers may be larger.
        add_set(name, u128::from(first) + index as u128, sets[index], text)?;
    }
    Ok(())
}

/// Adds the line of a set, which has a name and a number.
fn add_set<V: Told>(name: &[u8], number: u128, set: V, text: &mut Vec<u8>) -> Result<(), AllocError>
    ensures { IfOk result (λ _. text.new.items ≡ text.old.items ++ set_line V.set_text name.now number set) }
{
    text.extend_from_slice(name)?;
    text.extend_from_slice(Buffer::new().format(number).as_bytes())?;
    text.extend_from_slice(b": ")?;
    set.tell(text)?;
    text.push(b'\n')?;
    Ok(())
}

/// Adds a line for each routine. The first has number 1.
fn add_routines<V: Told>(routines: &[Routine<V>], text: &mut Vec<u8>) -> Result<(), AllocError>
    ensures { IfOk result (λ _. text.new.items ≡ text.old.items ++ numbered (routine_line V.set_text) 1 routines.now) }
{
    for index in 0..routines.len() {
        add_routine(index + 1, routines[index], text)?;
    }
    Ok(())
}

/// Adds the line of a routine of a number: where it stands, how many locals it has, and what it may give.
fn add_routine<V: Told>(
    number: usize,
    routine: Routine<V>,
    text: &mut Vec<u8>,
) -> Result<(), AllocError>
    ensures { IfOk result (λ _. text.new.items ≡ text.old.items ++ routine_line V.set_text number routine) }
{
    add_routine_place(number, routine.address, text)?;
    text.extend_from_slice(b", locals ")?;
    text.extend_from_slice(Buffer::new().format(routine.locals).as_bytes())?;
    text.extend_from_slice(b", result ")?;
    routine.result.tell(text)?;
    text.push(b'\n')?;
    Ok(())
}

/// Adds the number of a routine and where it stands.
fn add_routine_place(number: usize, address: u32, text: &mut Vec<u8>) -> Result<(), AllocError>
    ensures { IfOk result (λ _. text.new.items ≡ text.old.items ++ routine_place number address) }
{
    text.extend_from_slice(b"routine ")?;
    text.extend_from_slice(Buffer::new().format(number).as_bytes())?;
    text.extend_from_slice(b" at ")?;
    add_address(address, text)?;
    Ok(())
}

/// Adds the last lines: of an address, or how many instructions are listed, and how many facts are stated.
fn add_end<V: Told>(
    alloc: Global,
    story: &Story,
    certificate: &Certificate<V>,
    address: Option<u32>,
    text: &mut Vec<u8>,
) -> Result<(), AllocError>
    ensures { IfOk result (λ _. (end : List ℕ) × IsEnd V.operations V.set_text story.now certificate.now address end × (text.new.items ≡ text.old.items ++ end)) }
{
    match address {
        Some(address) => add_place(alloc, story, certificate, address, text),
        None => add_counts(
            certificate.instruction_count(),
            certificate.facts().len(),
            text,
        ),
    }
}

/// Adds how many instructions are listed, and how many facts are stated.
fn add_counts(instructions: usize, facts: usize, text: &mut Vec<u8>) -> Result<(), AllocError>
    ensures { IfOk result (λ _. text.new.items ≡ text.old.items ++ (codes "instructions " ++ decimal instructions ++ 10 ∷ []) ++ facts_line facts) }
{
    add_count(instructions, text)?;
    match facts {
        0 => Ok(()),
        some => add_fact_count(some, text),
    }
}

/// Adds how many facts are stated, where any are.
fn add_fact_count(count: usize, text: &mut Vec<u8>) -> Result<(), AllocError>
    requires { 0 < count }
    ensures { IfOk result (λ _. text.new.items ≡ text.old.items ++ facts_line count) }
{
    text.extend_from_slice(b"facts ")?;
    text.extend_from_slice(Buffer::new().format(count).as_bytes())?;
    text.push(b'\n')?;
    Ok(())
}

/// Adds how many instructions are listed.
fn add_count(count: usize, text: &mut Vec<u8>) -> Result<(), AllocError>
    ensures { IfOk result (λ _. text.new.items ≡ text.old.items ++ (codes "instructions " ++ decimal count ++ 10 ∷ [])) }
{
    text.extend_from_slice(b"instructions ")?;
    text.extend_from_slice(Buffer::new().format(count).as_bytes())?;
    text.push(b'\n')?;
    Ok(())
}

/// Adds what is said of an address.
fn add_place<V: Told>(
    alloc: Global,
    story: &Story,
    certificate: &Certificate<V>,
    address: u32,
    text: &mut Vec<u8>,
) -> Result<(), AllocError>
    ensures { IfOk result (λ _. (told : List ℕ) × IsToldOf V.operations V.set_text story.now certificate.now address (listed_at certificate.now.instructions address) told × (text.new.items ≡ text.old.items ++ told)) }
{
    let mut room = V::room();
    let Some(listed) = certificate.instruction_at(address, &mut room) else {
        add_unlisted(address, text)?;
        return Ok(());
    };
    add_told(&listed, instruction_there(story, address), text)?;
    add_frame(&listed, text)?;
    add_facts(certificate.facts_at(address), text)?;
    add_answer(alloc, rule_at(story, certificate, address), text)?;
    Ok(())
}

/// Adds that nothing is listed at an address.
fn add_unlisted(address: u32, text: &mut Vec<u8>) -> Result<(), AllocError>
    ensures { IfOk result (λ _. text.new.items ≡ text.old.items ++ unlisted_line address) }
{
    add_address(address, text)?;
    text.extend_from_slice(b" isn't listed")?;
    text.push(b'\n')?;
    Ok(())
}

/// Adds the line of a listed instruction as `list` writes it, where one stands there.
pub fn add_spelled<V: Told>(
    listed: &Instruction<'_, V>,
    there: Option<Instr>,
    text: &mut Vec<u8>,
) -> Result<(), AllocError>
    ensures { IfOk result (λ _. text.new.items ≡ text.old.items ++ spelled_line (seen listed.now) there) }
{
    match there {
        Some(instruction) => add_line(
            &Record {
                address: listed.address,
                routine: listed.routine,
                instruction,
            },
            text,
        ),
        None => add_unspelled(listed.address, listed.routine, text),
    }
}

/// Adds that no instruction stands at a listed address.
pub fn add_unspelled(address: u32, routine: u16, text: &mut Vec<u8>) -> Result<(), AllocError>
    ensures { IfOk result (λ _. text.new.items ≡ text.old.items ++ bare_line address routine) }
{
    add_address(address, text)?;
    text.push(b' ')?;
    text.extend_from_slice(Buffer::new().format(routine).as_bytes())?;
    text.extend_from_slice(b" no instruction\n")?;
    Ok(())
}

/// Adds the height of the stack, each local, and each slot.
fn add_frame<V: Told>(listed: &Instruction<'_, V>, text: &mut Vec<u8>) -> Result<(), AllocError>
    ensures { IfOk result (λ _. text.new.items ≡ text.old.items ++ frame_text V.set_text (seen listed.now)) }
{
    text.extend_from_slice(b"height ")?;
    text.extend_from_slice(Buffer::new().format(listed.slots.len()).as_bytes())?;
    text.push(b'\n')?;
    add_sets(b"local ", 1, listed.locals, text)?;
    add_sets(b"slot ", 1, listed.slots, text)
}

/// Adds a line for each of these facts on globals.
fn add_facts<V: Told>(facts: &[Fact<V>], text: &mut Vec<u8>) -> Result<(), AllocError>
    ensures { IfOk result (λ _. text.new.items ≡ text.old.items ++ flat_map (fact_line V.set_text) facts.now) }
{
    for fact in facts {
        add_fact(*fact, text)?;
    }
    Ok(())
}

/// Adds the line of a fact, with the number of the global's variable.
fn add_fact<V: Told>(fact: Fact<V>, text: &mut Vec<u8>) -> Result<(), AllocError>
    ensures { IfOk result (λ _. text.new.items ≡ text.old.items ++ fact_line V.set_text fact) }
{
    let number = u128::from(FIRST_GLOBAL) + u128::from(fact.global);
    add_set(b"global ", number, fact.values, text)
}

/// Adds what is answered of the rules.
fn add_answer(alloc: Global, answer: Option<Rule>, text: &mut Vec<u8>) -> Result<(), AllocError>
    ensures { IfOk result (λ _. text.new.items ≡ text.old.items ++ answer_line answer) }
{
    let Some(rule) = answer else {
        return text.extend_from_slice(b"its rule holds\n");
    };
    text.extend_from_slice(b"broken: ")?;
    add_explained(alloc, rule, text)?;
    text.push(b'\n')?;
    Ok(())
}

/// Adds the first line that explains a broken rule.
pub fn add_explained(alloc: Global, rule: Rule, text: &mut Vec<u8>) -> Result<(), AllocError>
    ensures { IfOk result (λ _. text.new.items ≡ text.old.items ++ explained_text rule) }
{
    let mut code = String::new(alloc);
    code.push_str("I")?;
    code.push_str(Buffer::new().format(rule.number()))?;
    match explanation(&code) {
        Some(explained) => add_first_line(explained.as_bytes(), text),
        None => add_first_line(code.as_bytes(), text),
    }
}

/// Adds the first line of a text, without its end.
fn add_first_line(lines: &[u8], text: &mut Vec<u8>) -> Result<(), AllocError>
    ensures { IfOk result (λ _. text.new.items ≡ text.old.items ++ first_line lines.now) }
{
    for byte in lines {
        if *byte == b'\n' {
            return Ok(());
        }
        text.push(*byte)?;
    }
    Ok(())
}

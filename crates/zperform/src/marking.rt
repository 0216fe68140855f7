//! The instructions of a certificate as lines that tell which it marks, and why.

ghost use Rattle.std.specs.Prelude.{◌≡◌, ◌++◌, ◌&&◌, List, ℕ, IfOk, not, option_map, string_bytes, true};
ghost use Rattle.zcert.specs.Listed.{seen};
ghost use Rattle.zcode.specs.Names.{name_of};
ghost use Rattle.zperform.specs.Marking.{AreMarksOf, listed_object, mark_text, own_line, reason_line};
ghost use Rattle.zperform.specs.Showing.{IsAnswer, code_text};

use crate::claims::{add_explained, add_spelled};
use crate::operands;
use crate::told::Told;
use crate::verdict::{lent, numbered};
use std::alloc::{AllocError, Global};
use zcert::{Certificate, Instruction};
use zcode::Instr;
use zinfo::push_address;
use zjson::{Listed, listed_line};
use zrule::{Rule, instruction_there, judge};
use zruns::{Room, Tables};
use zstory::Story;
use ztext::TextEnds;

/// Adds the line of each instruction, or of each that is marked, and behind that of a marked one why it is. A function of its own, since
/// its tables lie on the stack.
#[inline(never)]
pub fn add_marks<V: Told>(
    alloc: Global,
    story: &Story,
    certificate: &Certificate<V>,
    json: bool,
    marked_alone: bool,
    text: &mut Vec<u8>,
) -> Result<(), AllocError>
    ensures { IfOk result (λ _. (lines : List ℕ) × AreMarksOf V.operations story.now certificate.now json marked_alone lines × (text.new.items ≡ text.old.items ++ lines)) }
{
    let mut room = Room::new();
    let tables = Tables::new(story, certificate.ranges(), &mut room);
    let mut ends = TextEnds::new(story.memory());
    let mut sets = V::room();
    for index in 0..certificate.instruction_count() {
        let listed = certificate.instruction(index, &mut sets);
        if is_left_out(listed.is_marked, marked_alone) {
            continue;
        }
        let answer = answer_of(story, &tables, certificate, &listed, index + 1, &mut ends);
        let there = instruction_there(story, listed.address);
        add_one(alloc, &listed, there, answer, json, text)?;
    }
    Ok(())
}

/// Whether an instruction isn't told of: it isn't marked, and marked ones alone are.
fn is_left_out(is_marked: bool, marked_alone: bool) -> bool
    ensures { result ≡ (marked_alone && not is_marked) }
{
    marked_alone && !is_marked
}

/// What the rules answer of a listed instruction: the lowest that is broken. `near` is as a judge has it.
fn answer_of<V: Told>(
    story: &Story,
    tables: &Tables<'_>,
    certificate: &Certificate<V>,
    listed: &Instruction<'_, V>,
    near: usize,
    ends: &mut TextEnds<'_>,
) -> Option<Rule>
    requires ends { ends.old ≡ story.now.memory }
    requires tables { tables.now ≡ record { story = story.now; ranges = certificate.now.ranges } }
    ensures memory { ends.new ≡ ends.old }
    ensures answer { IsAnswer V.operations story.now certificate.now listed.now.address (seen listed.now) result }
{
    match judge(story, tables, certificate, listed, near, ends, None) {
        Ok(_) => None,
        Err(rule) => Some(rule),
    }
}

/// Adds what is told of an instruction: its lines, or its object.
fn add_one<V: Told>(
    alloc: Global,
    listed: &Instruction<'_, V>,
    there: Option<Instr>,
    answer: Option<Rule>,
    json: bool,
    text: &mut Vec<u8>,
) -> Result<(), AllocError>
    ensures { IfOk result (λ _. text.new.items ≡ text.old.items ++ mark_text json (seen listed.now) there answer) }
{
    if json {
        add_object(alloc, listed, there, answer, text)
    } else {
        add_marked(alloc, listed, there, answer, text)
    }
}

/// Adds the object of an instruction.
fn add_object<V: Told>(
    alloc: Global,
    listed: &Instruction<'_, V>,
    there: Option<Instr>,
    answer: Option<Rule>,
    text: &mut Vec<u8>,
) -> Result<(), AllocError>
    ensures { IfOk result (λ _. text.new.items ≡ text.old.items ++ listed_object (seen listed.now) there answer) }
{
    let mut address = String::new(alloc);
    push_address(listed.address, &mut address)?;
    let opcode = opcode_text(alloc, there)?;
    let rule = rule_text(alloc, answer)?;
    let opcode = lent(&opcode);
    let rule = lent(&rule);
    let told = Listed {
        address: address.as_str(),
        routine: listed.routine,
        opcode,
        marked: listed.is_marked,
        rule,
    };
    let object = listed_line(alloc, &told)?;
    text.extend_from_slice(&object)
}

/// The name of the opcode of what stands there, if an instruction does.
fn opcode_text(alloc: Global, there: Option<Instr>) -> Result<Option<String>, AllocError>
    ensures { IfOk result (λ name. option_map string_bytes name ≡ option_map (λ instruction. name_of instruction.opcode) there) }
{
    match there {
        Some(instruction) => Ok(Some(String::from_str(alloc, instruction.opcode().name())?)),
        None => Ok(None),
    }
}

/// The code of a rule, if one is broken.
fn rule_text(alloc: Global, rule: Option<Rule>) -> Result<Option<String>, AllocError>
    ensures { IfOk result (λ code. option_map string_bytes code ≡ option_map code_text rule) }
{
    match rule {
        Some(rule) => Ok(Some(numbered(alloc, "I", rule.number())?)),
        None => Ok(None),
    }
}

/// Adds the line of an instruction, and if it is marked its operands and why.
fn add_marked<V: Told>(
    alloc: Global,
    listed: &Instruction<'_, V>,
    there: Option<Instr>,
    answer: Option<Rule>,
    text: &mut Vec<u8>,
) -> Result<(), AllocError>
    ensures { IfOk result (λ _. text.new.items ≡ text.old.items ++ (own_line listed.now.is_marked (seen listed.now) there ++ reason_line listed.now.is_marked answer)) }
{
    if listed.is_marked {
        operands::add_told(listed, there, text)?;
        add_reason(alloc, answer, text)
    } else {
        add_spelled(listed, there, text)
    }
}

/// Adds why an instruction is marked.
fn add_reason(alloc: Global, answer: Option<Rule>, text: &mut Vec<u8>) -> Result<(), AllocError>
    ensures { IfOk result (λ _. text.new.items ≡ text.old.items ++ reason_line true answer) }
{
    let Some(rule) = answer else {
        return text.extend_from_slice(b"marked: its rule holds\n");
    };
    text.extend_from_slice(b"marked: ")?;
    add_explained(alloc, rule, text)?;
    text.push(b'\n')?;
    Ok(())
}

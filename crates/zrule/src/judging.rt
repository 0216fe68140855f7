//! Which rule an instruction breaks.

ghost use Rattle.std.specs.Prelude.{◌≡◌, ◌↔◌, ◌+◌, ◌≤◌, ℕ, Bool, false, IsTrue, IfSome, IfNone, IfOk, IfErr, MatchOption, Some, is_some, length};
ghost use Rattle.std.specs.Bool.{OnTrue};
ghost use Rattle.zcert.specs.Listed.{seen};
ghost use Rattle.zcode.specs.Instruction.{Instruction as AnInstruction};
ghost use Rattle.zcode.specs.Operation.{target};
ghost use Rattle.zcode.specs.Opcodes.{prints_text};
ghost use Rattle.zdomain.specs.Domain.{In};
ghost use Rattle.zrule.specs.Edges.{EdgeKeeps, EdgesKeep};
ghost use Rattle.zflow.specs.Flow.{IsFlow};
ghost use Rattle.zflow.specs.Transfer.{argument_sets};
ghost use Rattle.zrule.specs.declared.rule.Rule.{Rule as ARule};
ghost use Rattle.zrule.specs.declared.rule.Rule.TheVariants.{Successor};
ghost use Rattle.zrule.specs.Blocks.{AreBlocks};
ghost use Rattle.zrule.specs.Claims.{claims_of, entry_of, Entry, told_of, globals_at};
ghost use Rattle.zobj.specs.Values.{length_before};
ghost use Rattle.zpairs.specs.Frozen.{frozen_by};
ghost use Rattle.zruns.specs.Texts.{HasFixedText};
ghost use Rattle.zrule.specs.Rules.{AreRead, AreWritten, Asks, FillsOpen, GivesKnown, IsThere, Keeps, IsLowestBroken};

use crate::arrays::{reads_elements, takes_line, writes_open};
use crate::blocks::Blocks;
use crate::edges::{enters, goes_on, is_low, returns, stores};
use crate::objects::{names_attribute, names_object};
use crate::operands::{has_height, has_locals, is_known};
use crate::properties::{finds_property, gives_property, knows_answers, puts_open, reads_length};
use crate::rule::Rule;
use crate::site::{Site, globals_there};
use crate::texts::{has_line_object, prints_fixed};
use zcert::{Certificate, Instruction, Spelled};
use zcode::{Instr, decode_by, text_ends_instruction};
use zdomain::Domain;
use zflow::{Demands, Edge, Flow, flow_of};
use zruns::{Room, Tables};
use zstory::Story;
use ztext::TextEnds;

/// The rules that are asked of an instruction that is there, by their numbers.
const RULES: [Rule; 17] = [
    Rule::Height,
    Rule::Local,
    Rule::Successor,
    Rule::Object,
    Rule::Attribute,
    Rule::Property,
    Rule::Divisor,
    Rule::Write,
    Rule::Read,
    Rule::Text,
    Rule::Called,
    Rule::Returned,
    Rule::Buffers,
    Rule::Known,
    Rule::Stored,
    Rule::High,
    Rule::Status,
];

/// The instruction at an address, and `None` where none decodes there or the address lies below the base of static memory,
/// since an instruction in dynamic memory might change (own).
pub fn instruction_there(story: &Story, address: u32) -> Option<Instr>
    ensures none { IfNone result ((i : AnInstruction) → IsThere story.now address i → ⊥) }
    ensures some { IfSome result (λ i. IsThere story.now address i) }
    ensures within { IfSome result (λ i. address + i.size ≤ 131072) }
{
    spelled_there(story, address, &mut TextEnds::new(story.memory()))
}

/// What `instruction_there` answers, by the ends of the texts of the story's memory.
fn spelled_there(story: &Story, address: u32, ends: &mut TextEnds<'_>) -> Option<Instr>
    requires { ends.old ≡ story.now.memory }
    ensures memory { ends.new ≡ ends.old }
    ensures none { IfNone result ((i : AnInstruction) → IsThere story.now address i → ⊥) }
    ensures some { IfSome result (λ i. IsThere story.now address i) }
    ensures within { IfSome result (λ i. address + i.size ≤ 131072) }
{
    let _length = story.length(); // at most 131,072
    let place = address as usize;
    if place < story.static_base() {
        return None;
    }
    decode_by(ends, place).ok()
}

/// Whether nothing is divided by 0.
fn divides<V: Spelled>(demands: &Demands<V>) -> bool
    ensures { IsTrue result ↔ IfSome demands.now.divisor (λ a. In V.operations a 0 → ⊥) }
{
    match demands.divisor {
        Some(set) => !set.contains(0),
        None => true,
    }
}

/// Whether all that an instruction writes is open: data of properties, and elements.
fn writes<V: Spelled>(tables: &Tables<'_>, demands: &Demands<V>) -> bool
    ensures { IsTrue result ↔ IfSome demands.now.property (λ p. FillsOpen V.operations tables.now.story (frozen_by tables.now.ranges) p.asked p.objects p.numbers) × IfSome demands.now.elements (λ x. AreWritten V.operations tables.now.story (frozen_by tables.now.ranges) x.access x.width x.arrays x.indices) }
{
    puts_open(tables.properties(), demands) && writes_open(tables.runs(), demands)
}

/// Whether all that it reads can be read: lengths of properties, and elements.
fn reads<V: Spelled>(story: &Story, demands: &Demands<V>) -> bool
    ensures { IsTrue result ↔ IfSome demands.now.address (λ a. (x : ℕ) → In V.operations a x → IsTrue (is_some (length_before story.now.memory x))) × IfSome demands.now.elements (λ x. AreRead V.operations story.now x.access x.width x.arrays x.indices) }
{
    reads_length(story, demands) && reads_elements(story, demands)
}

/// Whether an edge keeps a rule. The sets of the places that it leads to may be made in the room, those of one at a time.
fn edge_keeps<V: Spelled>(
    site: Site<'_, V>,
    edge: &Edge<'_, V>,
    rule: Rule,
    room: &mut V::Room,
) -> bool
    requires near { site.listed.now.address + site.instruction.now.size ≤ 131072 }
    requires told { IfSome site.blocks (λ b. AreBlocks V.operations (claims_of V.operations site.certificate.now) site.story.now b.now) }
    ensures { IsTrue result ↔ EdgeKeeps V.operations (claims_of V.operations site.entry.certificate.now) site.entry.story.now (globals_at (claims_of V.operations site.entry.certificate.now) site.entry.listed.now.address) (argument_sets V.operations (globals_at (claims_of V.operations site.entry.certificate.now) site.entry.listed.now.address) site.entry.instruction.now (entry_of (seen site.entry.listed.now)).shape) site.entry.listed.now.routine (site.entry.listed.now.address + site.entry.instruction.now.size) (target site.entry.instruction.now) rule edge.now }
{
    match rule {
        Rule::Successor => !is_low(edge, site.target()) || goes_on(site, edge, room),
        Rule::Called => enters(site, edge, room),
        Rule::Returned => returns(site.certificate, site.listed.routine, edge),
        Rule::Stored => stores(site, edge, room),
        Rule::High => is_low(edge, site.target()),
        _ => true,
    }
}

/// Whether both edges do, where they can be taken.
fn edges_keep<V: Spelled>(
    site: Site<'_, V>,
    flow: &Flow<'_, V>,
    rule: Rule,
    room: &mut V::Room,
) -> bool
    requires near { site.listed.now.address + site.instruction.now.size ≤ 131072 }
    requires told { IfSome site.blocks (λ b. AreBlocks V.operations (claims_of V.operations site.certificate.now) site.story.now b.now) }
    ensures { IsTrue result ↔ EdgesKeep V.operations (claims_of V.operations site.entry.certificate.now) site.entry.story.now (globals_at (claims_of V.operations site.entry.certificate.now) site.entry.listed.now.address) (argument_sets V.operations (globals_at (claims_of V.operations site.entry.certificate.now) site.entry.listed.now.address) site.entry.instruction.now (entry_of (seen site.entry.listed.now)).shape) site.entry.listed.now.routine (site.entry.listed.now.address + site.entry.instruction.now.size) (target site.entry.instruction.now) rule flow.now }
{
    let held = match &flow.held {
        Some(edge) => edge_keeps(site, edge, rule, room),
        None => true,
    };
    held && match &flow.failed {
        Some(edge) => edge_keeps(site, edge, rule, room),
        None => true,
    }
}

/// The text behind the opcode byte of an instruction that is there ends in memory, since that was decoded, and no play changes a
/// byte of it, since it's static.
fn texts_are_fixed(story: &Story)
    ensures { (is_frozen : ℕ → Bool) (p : ℕ) (i : AnInstruction) → IsThere story.now p i → OnTrue (prints_text i.opcode) (HasFixedText story.now is_frozen (p + 1)) }
{
    let _memory = story.memory(); // which is sound
    text_ends_instruction();
}

/// Whether what an instruction gives is known: nothing is divided by 0, all that is read can be, and properties answer.
fn gives_known<V: Spelled>(site: Site<'_, V>, flow: &Flow<'_, V>) -> bool
    requires tables { site.tables.now ≡ record { story = site.story.now; ranges = site.certificate.now.ranges } }
    requires flow { IsFlow V.operations (globals_at (claims_of V.operations site.certificate.now) site.listed.now.address) (told_of (claims_of V.operations site.certificate.now) site.story.now) site.instruction.now (entry_of (seen site.listed.now)).shape flow.now }
    ensures { IsTrue result ↔ GivesKnown V.operations (claims_of V.operations site.entry.certificate.now) site.entry.listed.now.address site.entry.story.now site.entry.instruction.now (entry_of (seen site.entry.listed.now)).shape }
{
    let demands = &flow.demands;
    if !divides(demands) {
        return false;
    }
    if !reads(site.story, demands) {
        return false;
    }
    knows_answers(site.tables.properties(), demands)
}

/// Whether each edge of an instruction that is there leads on, as far as that is asked: not where it isn't known what the instruction
/// gives, or what it calls doesn't begin as is said.
fn has_successors<V: Spelled>(
    site: Site<'_, V>,
    flow: &Flow<'_, V>,
    known: bool,
    room: &mut V::Room,
) -> bool
    requires there { IsThere site.story.now site.listed.now.address site.instruction.now }
    requires near { site.listed.now.address + site.instruction.now.size ≤ 131072 }
    requires tables { site.tables.now ≡ record { story = site.story.now; ranges = site.certificate.now.ranges } }
    requires flow { IsFlow V.operations (globals_at (claims_of V.operations site.certificate.now) site.listed.now.address) (told_of (claims_of V.operations site.certificate.now) site.story.now) site.instruction.now (entry_of (seen site.listed.now)).shape flow.now }
    requires told { IfSome site.blocks (λ b. AreBlocks V.operations (claims_of V.operations site.certificate.now) site.story.now b.now) }
    requires known { IsTrue known ↔ GivesKnown V.operations (claims_of V.operations site.certificate.now) site.listed.now.address site.story.now site.instruction.now (entry_of (seen site.listed.now)).shape }
    ensures { IsTrue result ↔ Asks V.operations (claims_of V.operations site.entry.certificate.now) site.entry.story.now site.entry.listed.now.address (entry_of (seen site.entry.listed.now)) site.entry.instruction.now Successor }
{
    if !known {
        return true;
    }
    if !edges_keep(site, flow, Rule::Called, room) {
        return true;
    }
    flow.demands.certain && edges_keep(site, flow, Rule::Successor, room)
}

/// Whether an instruction that is there does what a rule asks of it. `known` says whether it is known what it gives, so that of loads and
/// properties nothing is asked twice.
fn asks<V: Spelled>(
    site: Site<'_, V>,
    flow: &Flow<'_, V>,
    known: bool,
    rule: Rule,
    room: &mut V::Room,
) -> bool
    requires there { IsThere site.story.now site.listed.now.address site.instruction.now }
    requires near { site.listed.now.address + site.instruction.now.size ≤ 131072 }
    requires tables { site.tables.now ≡ record { story = site.story.now; ranges = site.certificate.now.ranges } }
    requires flow { IsFlow V.operations (globals_at (claims_of V.operations site.certificate.now) site.listed.now.address) (told_of (claims_of V.operations site.certificate.now) site.story.now) site.instruction.now (entry_of (seen site.listed.now)).shape flow.now }
    requires told { IfSome site.blocks (λ b. AreBlocks V.operations (claims_of V.operations site.certificate.now) site.story.now b.now) }
    requires known { IsTrue known ↔ GivesKnown V.operations (claims_of V.operations site.certificate.now) site.listed.now.address site.story.now site.instruction.now (entry_of (seen site.listed.now)).shape }
    ensures { IsTrue result ↔ Asks V.operations (claims_of V.operations site.entry.certificate.now) site.entry.story.now site.entry.listed.now.address (entry_of (seen site.entry.listed.now)) site.entry.instruction.now rule }
{
    let Site {
        story,
        certificate,
        listed,
        instruction,
        tables: _,
        near: _,
        blocks: _,
    } = site;
    let demands = &flow.demands;
    match rule {
        Rule::Decodes => true,
        Rule::Height => {
            !is_known(certificate, listed, instruction, demands)
                || has_height(certificate, listed, instruction, flow.popped, demands)
        }
        Rule::Local => {
            !is_known(certificate, listed, instruction, demands)
                || has_locals(certificate, listed, instruction, demands)
        }
        Rule::Successor => has_successors(site, flow, known, room),
        Rule::Object => names_object(story, demands),
        Rule::Attribute => names_attribute(demands),
        Rule::Property => {
            (known && gives_property(demands)) || finds_property(site.tables.properties(), demands)
        }
        Rule::Divisor => known || divides(demands),
        Rule::Write => writes(site.tables, demands),
        Rule::Read => known || reads(story, demands),
        Rule::Text => {
            texts_are_fixed(story);
            prints_fixed(site.tables, demands)
        }
        Rule::Called => edges_keep(site, flow, rule, room),
        Rule::Buffers => takes_line(site.tables.runs(), demands),
        Rule::Known => is_known(certificate, listed, instruction, demands),
        Rule::Returned => edges_keep(site, flow, rule, room),
        Rule::Stored => edges_keep(site, flow, rule, room),
        Rule::High => edges_keep(site, flow, rule, room),
        Rule::Status => !demands.shows_status || has_line_object(story, certificate),
    }
}

/// Whether a place where an instruction is keeps a rule.
fn keeps<V: Spelled>(
    site: Site<'_, V>,
    flow: &Flow<'_, V>,
    known: bool,
    rule: Rule,
    room: &mut V::Room,
) -> bool
    requires there { IsThere site.story.now site.listed.now.address site.instruction.now }
    requires near { site.listed.now.address + site.instruction.now.size ≤ 131072 }
    requires tables { site.tables.now ≡ record { story = site.story.now; ranges = site.certificate.now.ranges } }
    requires flow { IsFlow V.operations (globals_at (claims_of V.operations site.certificate.now) site.listed.now.address) (told_of (claims_of V.operations site.certificate.now) site.story.now) site.instruction.now (entry_of (seen site.listed.now)).shape flow.now }
    requires told { IfSome site.blocks (λ b. AreBlocks V.operations (claims_of V.operations site.certificate.now) site.story.now b.now) }
    requires known { IsTrue known ↔ GivesKnown V.operations (claims_of V.operations site.certificate.now) site.listed.now.address site.story.now site.instruction.now (entry_of (seen site.listed.now)).shape }
    ensures { IsTrue result ↔ Keeps V.operations (claims_of V.operations site.entry.certificate.now) site.entry.story.now site.entry.listed.now.address (entry_of (seen site.entry.listed.now)) rule }
{
    asks(site, flow, known, rule, room)
}

/// The lowest rule that an instruction breaks of those that are asked where one is, and `None` where it keeps all (own).
fn first_broken<V: Spelled>(
    site: Site<'_, V>,
    flow: &Flow<'_, V>,
    room: &mut V::Room,
) -> Option<Rule>
    requires there { IsThere site.story.now site.listed.now.address site.instruction.now }
    requires near { site.listed.now.address + site.instruction.now.size ≤ 131072 }
    requires tables { site.tables.now ≡ record { story = site.story.now; ranges = site.certificate.now.ranges } }
    requires flow { IsFlow V.operations (globals_at (claims_of V.operations site.certificate.now) site.listed.now.address) (told_of (claims_of V.operations site.certificate.now) site.story.now) site.instruction.now (entry_of (seen site.listed.now)).shape flow.now }
    requires told { IfSome site.blocks (λ b. AreBlocks V.operations (claims_of V.operations site.certificate.now) site.story.now b.now) }
    ensures kept { IfNone result ((rule : ARule) → Keeps V.operations (claims_of V.operations site.entry.certificate.now) site.entry.story.now site.entry.listed.now.address (entry_of (seen site.entry.listed.now)) rule) }
    ensures broken { IfSome result (IsLowestBroken V.operations (claims_of V.operations site.entry.certificate.now) site.entry.story.now site.entry.listed.now.address (entry_of (seen site.entry.listed.now))) }
{
    let known = gives_known(site, flow);
    for rule in RULES {
        if !keeps(site, flow, known, rule, room) {
            return Some(rule);
        }
    }
    None
}

/// The lowest rule that a listed instruction breaks, and `None` where it keeps all (own). No other rule is asked of a
/// place where no instruction is.
fn broken_rule<V: Spelled>(
    story: &Story,
    certificate: &Certificate<V>,
    listed: &Instruction<'_, V>,
) -> Option<Rule>
    ensures { MatchOption result ((rule : ARule) → Keeps V.operations (claims_of V.operations certificate.now) story.now listed.now.address (entry_of (seen listed.now)) rule) (IsLowestBroken V.operations (claims_of V.operations certificate.now) story.now listed.now.address (entry_of (seen listed.now))) }
{
    let mut room = Room::new();
    let tables = Tables::new(story, certificate.ranges(), &mut room);
    let mut ends = TextEnds::new(story.memory());
    match judge(
        story,
        &tables,
        certificate,
        listed,
        certificate.instruction_count(),
        &mut ends,
        None,
    ) {
        Ok(_) => None,
        Err(rule) => Some(rule),
    }
}

/// A listed instruction as the story spells it, where it keeps all rules, and else the lowest rule that it breaks (own).
/// `ends` are those of the texts of the story's memory. The instruction behind it is looked for at the index `near` first, and
/// searched for where another is listed there. `blocks` is what is known of the certificate's routines for the story: with it a call
/// asks once for all routines of a block, and else for each that it may enter. The answer is the same. `tables` are those of the
/// story, with the ranges of the certificate.
pub fn judge<'c, V: Spelled>(
    story: &'c Story,
    tables: &'c Tables<'c>,
    certificate: &'c Certificate<V>,
    listed: &Instruction<'_, V>,
    near: usize,
    ends: &mut TextEnds<'_>,
    blocks: Option<&'c Blocks<V>>,
) -> Result<Instr, Rule>
    requires ends { ends.old ≡ story.now.memory }
    requires tables { tables.now ≡ record { story = story.now; ranges = certificate.now.ranges } }
    requires blocks { IfSome blocks (λ b. AreBlocks V.operations (claims_of V.operations certificate.now) story.now b.now) }
    ensures memory { ends.new ≡ ends.old }
    ensures there { IfOk result (λ i. IsThere story.now listed.now.address i) }
    ensures kept { IfOk result (λ i. (rule : ARule) → Keeps V.operations (claims_of V.operations certificate.now) story.now listed.now.address (entry_of (seen listed.now)) rule) }
    ensures broken { IfErr result (IsLowestBroken V.operations (claims_of V.operations certificate.now) story.now listed.now.address (entry_of (seen listed.now))) }
{
    let mut room = V::room();
    judge_in(
        story,
        tables,
        certificate,
        listed,
        near,
        ends,
        blocks,
        &mut room,
    )
}

/// What `judge` answers. The sets of the other places that it looks at may be made in the room, those of one at a time, so that a check
/// makes one room for all instructions.
pub fn judge_in<'c, V: Spelled>(
    story: &'c Story,
    tables: &'c Tables<'c>,
    certificate: &'c Certificate<V>,
    listed: &Instruction<'_, V>,
    near: usize,
    ends: &mut TextEnds<'_>,
    blocks: Option<&'c Blocks<V>>,
    room: &mut V::Room,
) -> Result<Instr, Rule>
    requires ends { ends.old ≡ story.now.memory }
    requires tables { tables.now ≡ record { story = story.now; ranges = certificate.now.ranges } }
    requires blocks { IfSome blocks (λ b. AreBlocks V.operations (claims_of V.operations certificate.now) story.now b.now) }
    ensures memory { ends.new ≡ ends.old }
    ensures there { IfOk result (λ i. IsThere story.now listed.now.address i) }
    ensures kept { IfOk result (λ i. (rule : ARule) → Keeps V.operations (claims_of V.operations certificate.now) story.now listed.now.address (entry_of (seen listed.now)) rule) }
    ensures broken { IfErr result (IsLowestBroken V.operations (claims_of V.operations certificate.now) story.now listed.now.address (entry_of (seen listed.now))) }
{
    let Some(instruction) = spelled_there(story, listed.address, ends) else {
        return Err(Rule::Decodes);
    };
    let flow = flow_of(
        tables,
        globals_there(certificate, listed.address),
        listed.locals,
        listed.slots,
        &instruction,
    );
    let site = Site {
        story,
        tables,
        certificate,
        listed,
        instruction: &instruction,
        near,
        blocks,
    };
    match first_broken(site, &flow, room) {
        None => Ok(instruction),
        Some(rule) => Err(rule),
    }
}

/// The lowest rule that is broken at an address, where an instruction is listed there (own). `None` where all are kept,
/// or nothing is listed.
pub fn rule_at<V: Spelled>(
    story: &Story,
    certificate: &Certificate<V>,
    address: u32,
) -> Option<Rule>
    ensures kept { IfNone result ((entry : Entry V) → (claims_of V.operations certificate.now).entry address ≡ Some entry → (rule : ARule) → Keeps V.operations (claims_of V.operations certificate.now) story.now address entry rule) }
    ensures broken { IfSome result (λ rule. (entry : Entry V) × ((claims_of V.operations certificate.now).entry address ≡ Some entry) × IsLowestBroken V.operations (claims_of V.operations certificate.now) story.now address entry rule) }
{
    let mut room = V::room();
    let listed = certificate.instruction_at(address, &mut room)?;
    broken_rule(story, certificate, &listed)
}

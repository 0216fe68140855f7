//! What rules ask of an edge of an instruction.

ghost use Rattle.std.specs.Prelude.{◌≡◌, ◌↔◌, ◌*◌, ◌+◌, ◌<◌, ◌≤◌, ℕ, IfSome, IsTrue, Some, length, slice_get};
ghost use Rattle.zdomain.specs.Domain.{In, Within};
ghost use Rattle.zcode.specs.Operation.{target};
ghost use Rattle.zflow.specs.declared.parts.Lead.TheVariants.{Ahead, Entering, Returning};
ghost use Rattle.zflow.specs.Transfer.{Shape, argument_sets, globals_after, with_result};
ghost use Rattle.zcert.specs.Facts.{facts_at};
ghost use Rattle.zcert.specs.Listed.{Finds, seen};
ghost use Rattle.zrule.specs.Blocks.{AreBlocks};
ghost use Rattle.zrule.specs.Claims.{Claims, claims_of, entry_of, globals_at};
ghost use Rattle.zrule.specs.Edges.{StaysLow, stated_for};
ghost use Rattle.zrule.specs.Rules.{AreImplied, Begins, Covers, EachCallee, Enters, GoesOn, Leads, Returns, Takes, TakesBack, TakesInPlace, result_at};

use crate::arguments::arguments_of;
use crate::callees::{callees_are, next_above, result_of};
use crate::facts::{hold_anyway, is_implied};
use crate::site::Site;
use crate::wanted::Wanted;
use zcert::{Certificate, Fact, Instruction, Spelled};
use zdomain::Domain;
use zflow::{Edge, Known, Lead, Outcome, global_behind};

/// The greatest height of a stack behind an edge.
const MAX_HEIGHT: usize = 64;

/// Whether the stack stays low on an edge, if that can be taken, with what comes back. `target` is the variable that takes the result.
pub(crate) fn is_low<V: Spelled>(edge: &Edge<'_, V>, target: u8) -> bool
    ensures { (claims : Claims V) → IsTrue result ↔ IfSome edge.now.after (StaysLow V.operations claims target edge.now.lead) }
{
    match &edge.after {
        Some(after) => after.is_at_most(most_before(edge.lead, target)),
        None => true,
    }
}

/// How high a stack may be before what comes back.
fn most_before<V: Spelled>(lead: Lead<V>, target: u8) -> usize
    ensures { (claims : Claims V) (f : Shape V) → StaysLow V.operations claims target lead f ↔ (length f.slots ≤ result) }
{
    match lead {
        Lead::Entering(_) if target == 0 => MAX_HEIGHT - 1,
        _ => MAX_HEIGHT,
    }
}

/// Whether an edge leads on, if it can be taken. The sets of the place that it leads to may be made in the room.
pub(crate) fn goes_on<V: Spelled>(site: Site<'_, V>, edge: &Edge<'_, V>, room: &mut V::Room) -> bool
    requires near { site.listed.now.address + site.instruction.now.size ≤ 131072 }
    requires told { IfSome site.blocks (λ b. AreBlocks V.operations (claims_of V.operations site.certificate.now) site.story.now b.now) }
    ensures { IsTrue result ↔ IfSome edge.now.after (λ f. GoesOn V.operations (claims_of V.operations site.entry.certificate.now) site.entry.listed.now.routine (target site.entry.instruction.now) (globals_after (globals_at (claims_of V.operations site.entry.certificate.now) site.entry.listed.now.address) (target site.entry.instruction.now) edge.now.outcome) f (site.entry.listed.now.address + site.entry.instruction.now.size) edge.now.lead) }
{
    match (&edge.after, edge.lead) {
        (Some(after), Lead::Ahead(distance)) => {
            leads_ahead(site, after, &edge.outcome, distance, room)
        }
        (Some(after), Lead::Entering(set)) => callees_lead(site, set, after, room),
        _ => true,
    }
}

/// Whether each routine that an edge calls begins as is said, if that can be taken. The sets that one begins with may be made in the
/// room.
pub(crate) fn enters<V: Spelled>(site: Site<'_, V>, edge: &Edge<'_, V>, room: &mut V::Room) -> bool
    requires near { site.listed.now.address + site.instruction.now.size ≤ 131072 }
    requires told { IfSome site.blocks (λ b. AreBlocks V.operations (claims_of V.operations site.certificate.now) site.story.now b.now) }
    ensures { IsTrue result ↔ IfSome edge.now.after (λ f. Enters V.operations (claims_of V.operations site.entry.certificate.now) site.entry.story.now (argument_sets V.operations (globals_at (claims_of V.operations site.entry.certificate.now) site.entry.listed.now.address) site.entry.instruction.now (entry_of (seen site.entry.listed.now)).shape) edge.now.lead) }
{
    match (&edge.after, edge.lead) {
        (Some(_), Lead::Entering(set)) => callees_begin(site, set, room),
        _ => true,
    }
}

/// Whether each routine of a set begins with the arguments of the instruction.
fn callees_begin<V: Spelled>(site: Site<'_, V>, set: V, room: &mut V::Room) -> bool
    requires { IfSome site.blocks (λ b. AreBlocks V.operations (claims_of V.operations site.certificate.now) site.story.now b.now) }
    ensures { IsTrue result ↔ EachCallee V.operations (claims_of V.operations site.entry.certificate.now) set (Begins V.operations (claims_of V.operations site.entry.certificate.now) site.entry.story.now (argument_sets V.operations (globals_at (claims_of V.operations site.entry.certificate.now) site.entry.listed.now.address) site.entry.instruction.now (entry_of (seen site.entry.listed.now)).shape)) }
{
    callees_are(site, set, Wanted::Begin(arguments_of(site)), room)
}

/// Whether the place behind the instruction is led to with whatever a routine of a set gives. What comes back decides only where that
/// place states a set for the variable that takes it, and then by this alone: all else is compared once.
fn callees_lead<V: Spelled>(
    site: Site<'_, V>,
    set: V,
    after: &Known<'_, V>,
    room: &mut V::Room,
) -> bool
    requires near { site.listed.now.address + site.instruction.now.size ≤ 131072 }
    requires told { IfSome site.blocks (λ b. AreBlocks V.operations (claims_of V.operations site.certificate.now) site.story.now b.now) }
    ensures { IsTrue result ↔ EachCallee V.operations (claims_of V.operations site.entry.certificate.now) set (λ p. Leads V.operations (claims_of V.operations site.entry.certificate.now) site.entry.listed.now.routine site.entry.certificate.now.globals (with_result (Some (result_at V.operations (claims_of V.operations site.entry.certificate.now) p)) (target site.entry.instruction.now) after.now) (site.entry.listed.now.address + site.entry.instruction.now.size)) }
{
    if next_above(set, 0).is_none() {
        return true;
    }
    match stated_behind(site, room) {
        Some(stated) => leads_stated(site, set, after, stated, room),
        None => leads_given(site, after, V::any(), room),
    }
}

/// Whether it is where that place states this set, and a routine is called.
fn leads_stated<V: Spelled>(
    site: Site<'_, V>,
    set: V,
    after: &Known<'_, V>,
    stated: V,
    room: &mut V::Room,
) -> bool
    requires near { site.listed.now.address + site.instruction.now.size ≤ 131072 }
    requires told { IfSome site.blocks (λ b. AreBlocks V.operations (claims_of V.operations site.certificate.now) site.story.now b.now) }
    requires stated { stated_for (target site.instruction.now) ((claims_of V.operations site.certificate.now).entry (site.listed.now.address + site.instruction.now.size)) ≡ Some stated }
    requires called { (w : ℕ) × In V.operations set w × (0 < w) }
    ensures { IsTrue result ↔ EachCallee V.operations (claims_of V.operations site.entry.certificate.now) set (λ p. Leads V.operations (claims_of V.operations site.entry.certificate.now) site.entry.listed.now.routine site.entry.certificate.now.globals (with_result (Some (result_at V.operations (claims_of V.operations site.entry.certificate.now) p)) (target site.entry.instruction.now) after.now) (site.entry.listed.now.address + site.entry.instruction.now.size)) }
{
    if !leads_given(site, after, stated, room) {
        return false;
    }
    callees_are(site, set, Wanted::Give(stated), room)
}

/// The set that the place behind the instruction states for the variable that takes its result, where it states one.
fn stated_behind<V: Spelled>(site: Site<'_, V>, room: &mut V::Room) -> Option<V>
    requires { site.listed.now.address + site.instruction.now.size ≤ 131072 }
    ensures { result ≡ stated_for (target site.entry.instruction.now) ((claims_of V.operations site.entry.certificate.now).entry (site.entry.listed.now.address + site.entry.instruction.now.size)) }
{
    let index = index_near(site.certificate, site.near, site.next())?;
    let next = site.certificate.instruction(index, room);
    match site.target() {
        0 => next.slots.last().copied(),
        variable if variable < 16 => next.locals.get(usize::from(variable) - 1).copied(),
        _ => None,
    }
}

/// Whether what is known leads on to the place so many bytes behind the instruction.
fn leads_ahead<V: Spelled>(
    site: Site<'_, V>,
    after: &Known<'_, V>,
    outcome: &Outcome<V>,
    distance: i32,
    room: &mut V::Room,
) -> bool
    requires { site.listed.now.address + site.instruction.now.size ≤ 131072 }
    ensures { IsTrue result ↔ GoesOn V.operations (claims_of V.operations site.entry.certificate.now) site.entry.listed.now.routine (target site.entry.instruction.now) (globals_after (globals_at (claims_of V.operations site.entry.certificate.now) site.entry.listed.now.address) (target site.entry.instruction.now) outcome.now) after.now (site.entry.listed.now.address + site.entry.instruction.now.size) (Ahead distance) }
{
    match u32::try_from(i64::from(site.next()) + i64::from(distance)) {
        Ok(to) => leads(site, after, outcome, to, room),
        Err(_) => false,
    }
}

/// Whether a place is listed in the routine, at equal height, with sets that contain what is known, and facts that do.
fn leads<V: Spelled>(
    site: Site<'_, V>,
    after: &Known<'_, V>,
    outcome: &Outcome<V>,
    to: u32,
    room: &mut V::Room,
) -> bool
    ensures { IsTrue result ↔ Leads V.operations (claims_of V.operations site.entry.certificate.now) site.entry.listed.now.routine (globals_after (globals_at (claims_of V.operations site.entry.certificate.now) site.entry.listed.now.address) (target site.entry.instruction.now) outcome.now) after.now to }
{
    match index_near(site.certificate, site.near, to) {
        Some(index) => { leads_to(site, after, index, room) && keeps_facts(site, outcome, to) }
        None => false,
    }
}

/// Whether the facts at a place hold of all that is known of the globals behind an outcome.
fn keeps_facts<V: Spelled>(site: Site<'_, V>, outcome: &Outcome<V>, to: u32) -> bool
    ensures { IsTrue result ↔ AreImplied V.operations (globals_after (globals_at (claims_of V.operations site.entry.certificate.now) site.entry.listed.now.address) (target site.entry.instruction.now) outcome.now) (facts_at site.entry.certificate.now.facts to) }
{
    are_kept(site, outcome, site.certificate.facts_at(to))
}

/// Whether facts hold of all that is known of the globals behind an outcome.
fn are_kept<V: Spelled>(site: Site<'_, V>, outcome: &Outcome<V>, facts: &[Fact<V>]) -> bool
    ensures { IsTrue result ↔ AreImplied V.operations (globals_after (globals_at (claims_of V.operations site.entry.certificate.now) site.entry.listed.now.address) (target site.entry.instruction.now) outcome.now) facts.now }
{
    match facts {
        [] => true,
        [fact, rest @ ..] => {
            let known = global_behind(site.globals(), outcome, site.target(), fact.global);
            is_implied(known, *fact) && are_kept(site, outcome, rest)
        }
    }
}

/// Whether what is listed at an index is in the routine, at equal height, with sets that contain what is known.
fn leads_to<V: Spelled>(
    site: Site<'_, V>,
    after: &Known<'_, V>,
    index: usize,
    room: &mut V::Room,
) -> bool
    requires { index < length site.certificate.now.instructions }
    ensures { IfSome (slice_get site.entry.certificate.now.instructions index) (λ i. IsTrue result ↔ ((i.routine ≡ site.entry.listed.now.routine) × Covers V.operations after.now (entry_of i).shape)) }
{
    let next = site.certificate.instruction(index, room);
    next.routine == site.listed.routine && covers(after, &next)
}

/// Whether the place behind the instruction is, once its result variable is given a value of the set.
fn leads_given<V: Spelled>(
    site: Site<'_, V>,
    after: &Known<'_, V>,
    set: V,
    room: &mut V::Room,
) -> bool
    requires { site.listed.now.address + site.instruction.now.size ≤ 131072 }
    ensures { IsTrue result ↔ Leads V.operations (claims_of V.operations site.entry.certificate.now) site.entry.listed.now.routine site.entry.certificate.now.globals (with_result (Some set) (target site.entry.instruction.now) after.now) (site.entry.listed.now.address + site.entry.instruction.now.size) }
{
    match index_near(site.certificate, site.near, site.next()) {
        Some(index) => {
            leads_to_given(site, after, set, index, room)
                && hold_anyway(site.certificate, site.next())
        }
        None => false,
    }
}

/// Whether what is listed at an index is, once the result variable is given a value of the set.
fn leads_to_given<V: Spelled>(
    site: Site<'_, V>,
    after: &Known<'_, V>,
    set: V,
    index: usize,
    room: &mut V::Room,
) -> bool
    requires { index < length site.certificate.now.instructions }
    ensures { IfSome (slice_get site.entry.certificate.now.instructions index) (λ i. IsTrue result ↔ ((i.routine ≡ site.entry.listed.now.routine) × Covers V.operations (with_result (Some set) (target site.entry.instruction.now) after.now) (entry_of i).shape)) }
{
    let next = site.certificate.instruction(index, room);
    next.routine == site.listed.routine && covers_given(after, set, site.target(), &next)
}

/// The index of the instruction that is listed at an address, if one is. No search is made where that is `near`.
fn index_near<V: Spelled>(certificate: &Certificate<V>, near: usize, address: u32) -> Option<usize>
    ensures { Finds certificate.now.instructions address result }
{
    if near < certificate.instruction_count() && certificate.address_of(near) == address {
        return Some(near);
    }
    certificate.instruction_index(address)
}

/// Whether the sets of a place contain what is known.
fn covers<V: Spelled>(after: &Known<'_, V>, to: &Instruction<'_, V>) -> bool
    ensures { IsTrue result ↔ Covers V.operations after.now (entry_of (seen to.now)).shape }
{
    after.is_within(to.locals, to.slots)
}

/// Whether they do once a variable is given a value of the set.
fn covers_given<V: Spelled>(
    after: &Known<'_, V>,
    set: V,
    variable: u8,
    to: &Instruction<'_, V>,
) -> bool
    ensures { IsTrue result ↔ Covers V.operations (with_result (Some set) variable after.now) (entry_of (seen to.now)).shape }
{
    after.is_within_given(set, variable, to.locals, to.slots)
}

/// Whether what an edge returns, if it can be taken, lies in what the routine may give; the main code gives nothing.
pub(crate) fn returns<V: Spelled>(
    certificate: &Certificate<V>,
    routine: u16,
    edge: &Edge<'_, V>,
) -> bool
    ensures { IsTrue result ↔ IfSome edge.now.after (λ f. Returns V.operations (claims_of V.operations certificate.now) routine edge.now.lead) }
{
    match (&edge.after, edge.lead) {
        (Some(_), Lead::Returning(set)) => may_return(certificate, routine, set),
        _ => true,
    }
}

/// Whether a routine may return these values.
fn may_return<V: Spelled>(certificate: &Certificate<V>, routine: u16, set: V) -> bool
    ensures { IsTrue result ↔ Returns V.operations (claims_of V.operations certificate.now) routine (Returning set) }
{
    routine > 0 && set.is_within(result_of(certificate, usize::from(routine) - 1))
}

/// Whether what an edge stores to globals lies in their sets, if it can be taken, and what the routines give that it calls.
pub(crate) fn stores<V: Spelled>(site: Site<'_, V>, edge: &Edge<'_, V>, room: &mut V::Room) -> bool
    requires near { site.listed.now.address + site.instruction.now.size ≤ 131072 }
    requires told { IfSome site.blocks (λ b. AreBlocks V.operations (claims_of V.operations site.certificate.now) site.story.now b.now) }
    ensures { IsTrue result ↔ IfSome edge.now.after (λ f. Takes V.operations (claims_of V.operations site.entry.certificate.now) edge.now.outcome.gives (target site.entry.instruction.now) × TakesInPlace V.operations (claims_of V.operations site.entry.certificate.now) edge.now.outcome.assigns × TakesBack V.operations (claims_of V.operations site.entry.certificate.now) (target site.entry.instruction.now) edge.now.lead) }
{
    if edge.after.is_none() {
        return true;
    }
    takes(site.certificate, edge.outcome.gives, site.target())
        && takes_in_place(site.certificate, edge.outcome.assigns)
        && takes_back(site, edge.lead, room)
}

/// Whether the result variable takes what comes back.
fn takes_back<V: Spelled>(site: Site<'_, V>, lead: Lead<V>, room: &mut V::Room) -> bool
    requires { IfSome site.blocks (λ b. AreBlocks V.operations (claims_of V.operations site.certificate.now) site.story.now b.now) }
    ensures { IsTrue result ↔ TakesBack V.operations (claims_of V.operations site.entry.certificate.now) (target site.entry.instruction.now) lead }
{
    match lead {
        Lead::Entering(set) => callees_take(site, set, room),
        Lead::Ahead(_) | Lead::Returning(_) => true,
    }
}

/// Whether it takes what each routine of a set gives.
fn callees_take<V: Spelled>(site: Site<'_, V>, set: V, room: &mut V::Room) -> bool
    requires { IfSome site.blocks (λ b. AreBlocks V.operations (claims_of V.operations site.certificate.now) site.story.now b.now) }
    ensures { IsTrue result ↔ TakesBack V.operations (claims_of V.operations site.entry.certificate.now) (target site.entry.instruction.now) (Entering set) }
{
    match global_set(site.certificate, site.target()) {
        Some(stated) => callees_are(site, set, Wanted::Give(stated), room),
        None => true,
    }
}

/// The set of a global; other variables have none of their own.
fn global_set<V: Spelled>(certificate: &Certificate<V>, variable: u8) -> Option<V>
    ensures { (x : V) → Takes V.operations (claims_of V.operations certificate.now) (Some x) variable ↔ IfSome result (Within V.operations x) }
{
    if variable < 16 {
        return None;
    }
    Some(certificate.globals()[usize::from(variable) - 16])
}

/// Whether what is given to a variable lies in its set, if that is a global.
fn takes<V: Spelled>(certificate: &Certificate<V>, gives: Option<V>, variable: u8) -> bool
    ensures { IsTrue result ↔ Takes V.operations (claims_of V.operations certificate.now) gives variable }
{
    match (gives, global_set(certificate, variable)) {
        (Some(set), Some(stated)) => set.is_within(stated),
        _ => true,
    }
}

/// Whether a variable takes what it is given in place, if that is a global.
fn takes_in_place<V: Spelled>(certificate: &Certificate<V>, assigns: Option<(u8, V)>) -> bool
    ensures { IsTrue result ↔ TakesInPlace V.operations (claims_of V.operations certificate.now) assigns }
{
    match assigns {
        Some((variable, set)) => takes(certificate, Some(set), variable),
        None => true,
    }
}

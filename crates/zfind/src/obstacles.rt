//! What stands in the way of every certificate.

ghost use Rattle.std.specs.Prelude.{◌≡◌, IfErr, IfOk, IfSome, IsTrue};
ghost use Rattle.zdomain.specs.Values.{values_operations};
ghost use Rattle.zfind.specs.Attempts.{IsSight};
ghost use Rattle.zfind.specs.Finding.{IsAtStart, IsBrokenIn, IsLasting, IsMet, IsTold, IsUnlisted, IsWrongWith};
ghost use Rattle.zfind.specs.declared.error.FindError.TheVariants.{OutOfMemory};

use crate::certificate::certificate_of;
use crate::code::Code;
use crate::error::{FindError, Obstacle};
use crate::finding::{MOST_EXTENSIONS, listing_of, wider};
use crate::visits::{Allowance, count_work};
use crate::walk::Walk;
use crate::watch::Watch;
use std::alloc::Global;
use zcert::{Certificate, Spelled};
use zcheck::examine;
use zcode::decode;
use zdomain::Values;
use zlist::Listing;
use zrule::{Rule, judge_in};
use zruns::{Room, Tables};
use zstory::Story;
use ztext::TextEnds;

/// How many instructions are visited at most to find what is broken in every certificate (own).
const MOST_FAIR_VISITS: u32 = 60_000;

/// How much work is done at most for that (own).
const MOST_FAIR_WORK: u32 = 100_000_000;

/// How often it is looked what is broken in a walk that isn't at its end: I4 is broken wherever a visit is due, and what is due differs
/// from one time to the next, so that it hides no other rule each time.
const MOMENTS: usize = 8;

/// How many are visited between two such times.
const VISITS_BETWEEN: u32 = 7;

/// What is seen of a listing.
#[derive(Drop)]
enum Sight {
    /// This stands in the way.
    Told(Option<Obstacle>),
    /// Nothing yet, and this is listed next.
    Wider(Listing),
}

/// What stands in the way of every certificate of a story, as far as that is found out (own): that no instruction stands where play begins,
/// and else the first rule that is broken by a certificate which says no more than any other. `None` where none is found, and where
/// what the story lists is at fault elsewhere, since a certificate may leave that out. The one error is want of memory.
///
/// That such a rule is broken in each certificate is tried, and not proved.
#[tactic(auto, using(crate::proofs::Telling::told_where_listed))]
pub fn broken_in_all<W: Watch>(
    alloc: Global,
    story: &Story,
    watch: &W,
) -> Result<Option<Obstacle>, FindError>
    ensures told { IfOk result (IsTold story.now) }
    ensures memory { IfErr result (λ error. error ≡ OutOfMemory) }
{
    match listing_of(alloc, story) {
        Ok(listing) => broken_in_listed(alloc, story, listing, watch),
        Err(fault) => certain_fault(story, fault),
    }
}

/// What a lister finds at fault, where no certificate can leave it out.
#[tactic(auto, using(crate::proofs::Telling::told_at_start, crate::proofs::Telling::untold_elsewhere))]
fn certain_fault(story: &Story, error: FindError) -> Result<Option<Obstacle>, FindError>
    requires { IsUnlisted story.now error }
    ensures told { IfOk result (IsTold story.now) }
    ensures memory { IfErr result (λ error. error ≡ OutOfMemory) }
{
    match error {
        FindError::NotFound(obstacle) => {
            if is_at_start(story, obstacle) {
                Ok(Some(obstacle))
            } else {
                Ok(None)
            }
        }
        _ => Err(error),
    }
}

/// Whether it is that no instruction stands where play begins. One may stand there, and what is at fault be a head that is called there.
fn is_at_start(story: &Story, obstacle: Obstacle) -> bool
    ensures yes { IsTrue result → IsAtStart story.now obstacle }
    ensures no { IsAtStart story.now obstacle → IsTrue result }
{
    let first = story.first_instruction();
    match obstacle {
        Obstacle::Place(place, Rule::Decodes) => {
            place >= 0 && place as usize == first && decode(story.memory(), first).is_err()
        }
        _ => false,
    }
}

/// The same of a story that has a listing. Where routines are called through variables alone, each certificate lists them too.
fn broken_in_listed<W: Watch>(
    alloc: Global,
    story: &Story,
    first: Listing,
    watch: &W,
) -> Result<Option<Obstacle>, FindError>
    ensures told { IfOk result (λ obstacle. IfSome obstacle (IsMet story.now)) }
    ensures memory { IfErr result (λ error. error ≡ OutOfMemory) }
{
    let mut listing = first;
    let mut left = Allowance {
        visits: 0,
        work: MOST_FAIR_WORK,
    };
    for _ in 0..MOST_EXTENSIONS {
        match broken_so_far(alloc, story, &listing, &mut left, watch)? {
            Sight::Told(told) => return Ok(told),
            Sight::Wider(more) => listing = more,
        }
    }
    Ok(None)
}

/// The same of a listing, or what is listed next.
fn broken_so_far<W: Watch>(
    alloc: Global,
    story: &Story,
    listing: &Listing,
    left: &mut Allowance,
    watch: &W,
) -> Result<Sight, FindError>
    ensures sight { IfOk result (IsSight story.now) }
    ensures memory { IfErr result (λ error. error ≡ OutOfMemory) }
{
    let code = Code::new(alloc, story, listing)?.waiting();
    let mut walk = Walk::fair(alloc, &code)?;
    if let Some(obstacle) = broken_in_code(alloc, story, &code, &mut walk, left, watch)? {
        return Ok(Sight::Told(Some(obstacle)));
    }
    if left.work == 0 {
        return Ok(Sight::Told(None));
    }
    match wider(alloc, &code, walk.into_wanted(), left) {
        Ok(Some(more)) => Ok(Sight::Wider(more)),
        Ok(None) | Err(FindError::RoundLimit) => Ok(Sight::Told(None)),
        Err(error) => Err(error),
    }
}

/// The same of what is listed, as far as work is left.
#[tactic(auto, using(crate::proofs::Telling::met_where_broken))]
fn broken_in_code<W: Watch>(
    alloc: Global,
    story: &Story,
    code: &Code<'_>,
    walk: &mut Walk<'_, Values>,
    left: &mut Allowance,
    watch: &W,
) -> Result<Option<Obstacle>, FindError>
    ensures told { IfOk result (λ obstacle. IfSome obstacle (IsMet story.now)) }
    ensures memory { IfErr result (λ error. error ≡ OutOfMemory) }
{
    left.visits = MOST_FAIR_VISITS;
    for _ in 0..MOMENTS {
        let grown = walk.grow(left, watch);
        if count_work(left, walk.cost_of_check()).is_err() {
            return Ok(None);
        }
        let certificate = certificate_of(alloc, code, walk)?;
        match grown {
            Ok(()) => return Ok(obstacle_at_end(story, code, walk, &certificate)),
            Err(FindError::RoundLimit) => {}
            Err(error) => return Err(error),
        }
        if let Some(obstacle) = certain_obstacle(story, code, walk, &certificate) {
            return Ok(Some(obstacle));
        }
        left.visits = VISITS_BETWEEN;
    }
    Ok(None)
}

/// What the checker says first of the certificate of a walk that is at its end, where more can't mend it, and else the first rule that is
/// broken so.
#[tactic(auto, using(crate::proofs::Telling::met_where_wrong, crate::proofs::Telling::met_where_broken))]
fn obstacle_at_end(
    story: &Story,
    code: &Code<'_>,
    walk: &Walk<'_, Values>,
    certificate: &Certificate<Values>,
) -> Option<Obstacle>
    ensures { IfSome result (IsMet story.now) }
{
    let first = obstacle_for(story, certificate)?;
    if is_known_at_end(code, walk, first) {
        return Some(first);
    }
    certain_obstacle(story, code, walk, certificate)
}

/// What the checker says first of a certificate. A function of its own, since a check's tables lie on the stack.
#[inline(never)]
fn obstacle_for(story: &Story, certificate: &Certificate<Values>) -> Option<Obstacle>
    ensures { IfSome result (IsWrongWith values_operations story.now certificate.now) }
{
    match FindError::from(examine(story, certificate)?) {
        FindError::NotFound(obstacle) => Some(obstacle),
        _ => None,
    }
}

/// Whether all is known at the end of a walk that this speaks of: it isn't said of a call of which it is waited for what comes back.
fn is_known_at_end(code: &Code<'_>, walk: &Walk<'_, Values>, obstacle: Obstacle) -> bool {
    let Obstacle::Place(place, _) = obstacle else {
        return true;
    };
    match code.index_behind(0, place) {
        Some(index) => !walk.awaits_at(index),
        None => true,
    }
}

/// The first rule that is broken, where more is to be found, and is broken by what was found alone. A function of its own, since its tables
/// lie on the stack.
#[inline(never)]
#[tactic(auto, using(crate::proofs::Telling::broken_where_listed))]
fn certain_obstacle(
    story: &Story,
    code: &Code<'_>,
    walk: &Walk<'_, Values>,
    certificate: &Certificate<Values>,
) -> Option<Obstacle>
    ensures { IfSome result (IsBrokenIn values_operations story.now certificate.now) }
{
    let mut room = Room::new();
    let tables = Tables::new(story, certificate.ranges(), &mut room);
    let mut ends = TextEnds::new(story.memory());
    let mut sets = Values::room();
    let mut others = Values::room(); // for the places that an instruction leads to
    for index in 0..certificate.instruction_count() {
        let listed = certificate.instruction(index, &mut sets);
        let judged = judge_in(
            story,
            &tables,
            certificate,
            &listed,
            index + 1,
            &mut ends,
            None,
            &mut others,
        );
        if let Err(rule) = judged
            && is_certain(rule, is_waiting(code, walk, listed.address))
        {
            return Some(Obstacle::Place(listed.address.cast_signed(), rule));
        }
    }
    None
}

/// Whether the instruction at an address is to be visited, or calls a routine that is to be listed yet.
fn is_waiting(code: &Code<'_>, walk: &Walk<'_, Values>, address: u32) -> bool {
    match code.index_behind(address as usize, 0) {
        Some(index) => walk.is_waiting(index) || walk.waits_at(index),
        None => true,
    }
}

/// Whether a rule that is broken now stays broken when more is found. Where an instruction leads to, what it gives and which bytes it opens
/// is said only once it was visited, and what comes back only once a routine returned; and of a routine that isn't listed yet, nothing is
/// said.
fn is_certain(rule: Rule, is_waiting: bool) -> bool
    ensures { IsTrue result → IsLasting rule }
{
    match rule {
        Rule::Successor | Rule::Returned | Rule::Stored => false,
        Rule::Called | Rule::Write | Rule::Buffers => !is_waiting,
        _ => true,
    }
}

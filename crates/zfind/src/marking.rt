//! Certificates that mark instructions, where none is found that doesn't.

ghost use Rattle.std.specs.Prelude.{◌≡◌, ◌≤◌, ◌⊎◌, false, true, IfErr, IfOk, IfSome, Some};
ghost use Rattle.zcert.specs.Listed.{seen};
ghost use Rattle.zdomain.specs.Values.{values_operations};
ghost use Rattle.zcheck.specs.Marks.{PassesWhereUnmarked};
ghost use Rattle.zfind.specs.Marking.{AreMarksOf, FailsUnmarked, IsFoundMarked, IsFoundUnmarked, IsMarkedFailure, IsMarkedRound, IsMarkedWithin, IsMarkOf, IsUnmarkable, IsWrongUnmarked};
ghost use Rattle.zfind.specs.declared.error.FindError.TheVariants.{NotFound, OutOfMemory};
ghost use Rattle.zfind.specs.declared.error.Obstacle.{Obstacle as AnObstacle};

use crate::certificate::marked_certificate_of;
use crate::code::Code;
use crate::error::FindError;
use crate::extending::lenient_listing;
use crate::finding::{MOST_EXTENSIONS, allowed, find_watched, next_plan, wider};
use crate::found::Found;
use crate::limited::find_limited_watched;
use crate::state::{Haste, Plan};
use crate::thresholds::Thresholds;
use crate::visits::{Allowance, MOST_LIST_WORK, count_work};
use crate::walk::Walk;
use crate::watch::Watch;
use std::alloc::{AllocError, Global};
use zcert::{Certificate, Instruction, Spelled, USUAL_FRAMES};
use zcheck::examine_unmarked;
use zdomain::{Domain, Values};
use zlist::Listing;
use zrule::judge_in;
use zruns::{Room, Tables};
use zstory::Story;
use ztext::TextEnds;

/// How often a thing grows before it is widened, in the first of the walks that lead to marks, and in those behind it.
const FIRST_DELAY: u16 = 2;

const LATER_DELAYS: [u16; 4] = [2, 2, 10, 60];

/// Where more instructions are listed than this one walk is made, in haste: further ones would take long and leave few marks less.
const MOST_PATIENT: usize = 1_000;

/// How often a thing grows in such a walk before it goes far.
const HASTE: u16 = 6;

/// What comes of a walk: its certificate, and how the next one goes, if one is to be made.
#[derive(Drop)]
struct MarkedAttempt {
    certificate: Certificate<Values>,
    next: Option<Plan<Values>>,
}

/// What comes of a walk over a listing.
#[derive(Drop)]
enum MarkedRound {
    /// A certificate, where all is listed that is called.
    Made(MarkedAttempt),
    /// What is listed next.
    Wider(Listing),
    /// Nothing, since no more is allowed.
    Stopped,
}

/// A certificate for a story (own): what `find_unmarked` finds, and where it finds none one that marks where a rule is broken and passes
/// elsewhere. That one lets at most so many frames stand above the first, and 1,024 where no limit is asked for.
///
/// G1 comes where even that doesn't pass, as where a rule of the story is broken: it tells what is wrong with it first, but at marks. G2
/// never comes, and G3 where memory was refused.
#[tactic(auto, using(crate::proofs::Marked::without_unmarked, crate::proofs::Marked::of_walks))]
pub fn find_marked<W: Watch>(
    alloc: Global,
    story: &Story,
    limit: Option<u16>,
    watch: &W,
) -> Result<Found, FindError>
    requires low { IfSome limit (λ n. n ≤ 4096) }
    ensures passes { IfOk result (IsFoundMarked story.now limit) }
    ensures failed { IfErr result (IsMarkedFailure story.now limit) }
{
    match find_unmarked(alloc, story, limit, watch) {
        Ok(found) => Ok(found),
        Err(FindError::OutOfMemory) => Err(FindError::OutOfMemory),
        Err(_) => match marked_by_walks(alloc, story, limit.unwrap_or(USUAL_FRAMES), watch) {
            Ok(certificate) => Ok(Found::Marked(certificate)),
            Err(error) => Err(error),
        },
    }
}

/// A certificate for a story that marks nothing (own): what `find` finds, or where a limit of frames is asked for `find_limited`.
pub fn find_unmarked<W: Watch>(
    alloc: Global,
    story: &Story,
    limit: Option<u16>,
    watch: &W,
) -> Result<Found, FindError>
    requires low { IfSome limit (λ n. n ≤ 4096) }
    ensures passes { IfOk result (IsFoundUnmarked story.now limit) }
    ensures failed { IfErr result (FailsUnmarked story.now limit) }
{
    match limit {
        None => find_watched(alloc, story, watch),
        Some(limit) => match find_limited_watched(alloc, story, limit, watch) {
            Ok(certificate) => Ok(Found::Lists(certificate)),
            Err(error) => Err(error),
        },
    }
}

/// The certificate of the walk over all that can be listed that has the fewest marks.
#[tactic(auto, using(crate::proofs::Marked::of_memory))]
fn marked_by_walks<W: Watch>(
    alloc: Global,
    story: &Story,
    limit: u16,
    watch: &W,
) -> Result<Certificate<Values>, FindError>
    requires low { limit ≤ 4096 }
    ensures passes { IfOk result (IsMarkedWithin story.now limit) }
    ensures failed { IfErr result (IsUnmarkable story.now limit) }
{
    let mut left = allowed(MOST_LIST_WORK);
    let mut listing = lenient_listing(alloc, story)?;
    for _ in 0..MOST_EXTENSIONS {
        match marked_round(alloc, story, &listing, limit, &mut left, watch)? {
            MarkedRound::Made(first) => {
                return fewest_marks(alloc, story, &listing, first, limit, &mut left, watch);
            }
            MarkedRound::Wider(more) => listing = more,
            MarkedRound::Stopped => return last_marked(
                alloc, story, &listing, limit, &mut left, watch,
            ),
        }
    }
    last_marked(alloc, story, &listing, limit, &mut left, watch)
}

/// What comes of a walk over a listing that waits for the routines that are called and not listed.
#[tactic(auto, using(crate::proofs::Marked::of_memory))]
fn marked_round<W: Watch>(
    alloc: Global,
    story: &Story,
    listing: &Listing,
    limit: u16,
    left: &mut Allowance,
    watch: &W,
) -> Result<MarkedRound, FindError>
    requires low { limit ≤ 4096 }
    ensures passes { IfOk result (IsMarkedRound story.now limit) }
    ensures failed { IfErr result (IsUnmarkable story.now limit) }
{
    let code = Code::new(alloc, story, listing)?
        .waiting()
        .marking()
        .telling();
    let mut walk = Walk::new(alloc, &code, first_plan(alloc, &code)?)?;
    if !went(walk.grow(left, watch))? {
        return Ok(MarkedRound::Stopped);
    }
    if walk.is_wanting() {
        return match wider_if_left(alloc, &code, walk.into_wanted(), left)? {
            Some(more) => Ok(MarkedRound::Wider(more)),
            None => Ok(MarkedRound::Stopped),
        };
    }
    Ok(MarkedRound::Made(attempt_of(alloc, story, &code, walk, true, limit, left, watch)?))
}

/// A listing with the routines that are wanted, as far as work is left.
fn wider_if_left(
    alloc: Global,
    code: &Code<'_>,
    wanted: Option<Vec<bool>>,
    left: &mut Allowance,
) -> Result<Option<Listing>, FindError>
    ensures { IfErr result (λ error. error ≡ OutOfMemory) }
{
    match wider(alloc, code, wanted, left) {
        Ok(more) => Ok(more),
        Err(FindError::OutOfMemory) => Err(FindError::OutOfMemory),
        Err(_) => Ok(None),
    }
}

/// The certificate with the fewest marks of walks over all that is listed, which wait for nothing.
#[tactic(auto, using(crate::proofs::Marked::of_memory))]
fn last_marked<W: Watch>(
    alloc: Global,
    story: &Story,
    listing: &Listing,
    limit: u16,
    left: &mut Allowance,
    watch: &W,
) -> Result<Certificate<Values>, FindError>
    requires low { limit ≤ 4096 }
    ensures passes { IfOk result (IsMarkedWithin story.now limit) }
    ensures failed { IfErr result (IsUnmarkable story.now limit) }
{
    let code = Code::new(alloc, story, listing)?.marking().telling();
    let first = make_marked(
        alloc,
        story,
        &code,
        first_plan(alloc, &code)?,
        limit,
        left,
        watch,
    )?;
    fewest_marks(alloc, story, listing, first, limit, left, watch)
}

/// How the first walk goes that leads to marks.
fn first_plan(alloc: Global, code: &Code<'_>) -> Result<Plan<Values>, AllocError> {
    let mut plan = Plan::widening(code.thresholds(alloc)?, Values::single(0));
    plan.delay = FIRST_DELAY;
    if code.records().len() > MOST_PATIENT {
        plan.haste = Some(Haste {
            after: HASTE,
            ends: Thresholds::new(alloc, code.story)?,
        });
    }
    Ok(plan)
}

/// Whether a walk went to its end. It may stop where no more is allowed.
fn went(walked: Result<(), FindError>) -> Result<bool, FindError>
    ensures { IfErr result (λ error. error ≡ OutOfMemory) }
{
    match walked {
        Ok(()) => Ok(true),
        Err(FindError::OutOfMemory) => Err(FindError::OutOfMemory),
        Err(_) => Ok(false),
    }
}

/// The certificate with the fewest marks of the first walk and some more, of which each is kept from widening beyond what the one before
/// left.
#[tactic(auto, using(crate::proofs::Marked::of_memory))]
fn fewest_marks<W: Watch>(
    alloc: Global,
    story: &Story,
    listing: &Listing,
    first: MarkedAttempt,
    limit: u16,
    left: &mut Allowance,
    watch: &W,
) -> Result<Certificate<Values>, FindError>
    requires low { limit ≤ 4096 }
    requires first { IsMarkedWithin story.now limit first.certificate }
    ensures passes { IfOk result (IsMarkedWithin story.now limit) }
    ensures failed { IfErr result (IsUnmarkable story.now limit) }
{
    let code = Code::new(alloc, story, listing)?.marking().telling();
    let mut best = first.certificate;
    let mut next = first.next;
    for delay in LATER_DELAYS {
        let Some(mut plan) = next else {
            return Ok(best);
        };
        plan.delay = delay;
        let attempt = make_marked(alloc, story, &code, plan, limit, left, watch)?;
        best = with_fewer(best, attempt.certificate);
        next = attempt.next;
    }
    Ok(best)
}

/// The one of two certificates that has fewer marks, the first where both have as many.
fn with_fewer(first: Certificate<Values>, second: Certificate<Values>) -> Certificate<Values>
    ensures { (result ≡ first) ⊎ (result ≡ second) }
{
    if second.marks() < first.marks() {
        second
    } else {
        first
    }
}

/// A walk, and its certificate, which marks where a rule is broken.
#[tactic(auto, using(crate::proofs::Marked::of_memory, crate::proofs::Marked::of_tried))]
fn make_marked<W: Watch>(
    alloc: Global,
    story: &Story,
    code: &Code<'_>,
    plan: Plan<Values>,
    limit: u16,
    left: &mut Allowance,
    watch: &W,
) -> Result<MarkedAttempt, FindError>
    requires low { limit ≤ 4096 }
    ensures passes { IfOk result (λ attempt. IsMarkedWithin story.now limit attempt.certificate) }
    ensures failed { IfErr result (IsUnmarkable story.now limit) }
{
    let mut walk = Walk::new(alloc, code, plan)?;
    let grown = has_grown(&mut walk, left, watch)?;
    attempt_of(alloc, story, code, walk, grown, limit, left, watch)
}

/// What comes of a walk, which may have been stopped before its end.
#[tactic(auto, using(crate::proofs::Marked::of_memory, crate::proofs::Marked::of_tried))]
fn attempt_of<W: Watch>(
    alloc: Global,
    story: &Story,
    code: &Code<'_>,
    mut walk: Walk<'_, Values>,
    grown: bool,
    limit: u16,
    left: &mut Allowance,
    watch: &W,
) -> Result<MarkedAttempt, FindError>
    requires low { limit ≤ 4096 }
    ensures passes { IfOk result (λ attempt. IsMarkedWithin story.now limit attempt.certificate) }
    ensures failed { IfErr result (IsUnmarkable story.now limit) }
{
    let paid = went(count_work(left, walk.cost_of_check()))?;
    let certificate = tried_unmarked(story, marked_of(alloc, story, code, &mut walk, limit)?)?;
    let next = if grown && paid && walk.plan.haste.is_none() {
        plan_if_left(alloc, code, walk, left, watch)?
    } else {
        None
    };
    Ok(MarkedAttempt { certificate, next })
}

/// Walks, and says whether that came to its end. Where it didn't, whatever grows is said to have any word from there on, and as much is
/// allowed once more.
fn has_grown<W: Watch>(
    walk: &mut Walk<'_, Values>,
    left: &mut Allowance,
    watch: &W,
) -> Result<bool, FindError>
    ensures { IfErr result (λ error. error ≡ OutOfMemory) }
{
    if went(walk.grow(left, watch))? {
        return Ok(true);
    }
    walk.plan.is_hasty = true;
    let _ended = went(walk.grow(&mut allowed(MOST_LIST_WORK), watch))?;
    Ok(false)
}

/// How the next walk goes, as far as more is allowed.
fn plan_if_left<W: Watch>(
    alloc: Global,
    code: &Code<'_>,
    walk: Walk<'_, Values>,
    left: &mut Allowance,
    watch: &W,
) -> Result<Option<Plan<Values>>, FindError>
    ensures { IfErr result (λ error. error ≡ OutOfMemory) }
{
    match next_plan(alloc, code, walk, left, watch) {
        Ok(plan) => Ok(Some(plan)),
        Err(FindError::OutOfMemory) => Err(FindError::OutOfMemory),
        Err(_) => Ok(None),
    }
}

/// What a walk found, as a certificate that names the limit and marks where a rule is broken.
fn marked_of(
    alloc: Global,
    story: &Story,
    code: &Code<'_>,
    walk: &mut Walk<'_, Values>,
    limit: u16,
) -> Result<Certificate<Values>, FindError>
    requires low { limit ≤ 4096 }
    ensures named { IfOk result (λ certificate. certificate.limit ≡ Some limit) }
    ensures memory { IfErr result (λ error. error ≡ OutOfMemory) }
{
    let plain = marked_certificate_of(alloc, code, walk, limit, &[])?;
    let marks = marks_of(alloc, story, &plain)?;
    let marked = marked_certificate_of(alloc, code, walk, limit, &marks)?;
    Ok(marked.with_limit(limit))
}

/// A mark for each instruction of a certificate: where it breaks a rule. A function of its own, since its tables lie on the stack.
#[inline(never)]
#[tactic(auto, using(crate::proofs::Marked::marks_more, crate::proofs::Marked::marks_whole))]
fn marks_of(
    alloc: Global,
    story: &Story,
    certificate: &Certificate<Values>,
) -> Result<Vec<bool>, AllocError>
    ensures { IfOk result (λ marks. AreMarksOf story.now certificate.now marks.items) }
{
    let mut room = Room::new();
    let tables = Tables::new(story, certificate.ranges(), &mut room);
    let mut ends = TextEnds::new(story.memory());
    let mut sets = Values::room();
    let mut others = Values::room(); // for the places that an instruction leads to
    let mut marks = Vec::new(alloc);
    for index in 0..certificate.instruction_count() {
        let listed = certificate.instruction(index, &mut sets);
        marks.push(is_broken(
            story,
            &tables,
            certificate,
            &listed,
            index + 1,
            &mut ends,
            &mut others,
        ))?;
    }
    Ok(marks)
}

/// Whether a listed instruction breaks a rule. `near` and the room are as a judge has them.
fn is_broken(
    story: &Story,
    tables: &Tables<'_>,
    certificate: &Certificate<Values>,
    listed: &Instruction<'_, Values>,
    near: usize,
    ends: &mut TextEnds<'_>,
    others: &mut <Values as Spelled>::Room,
) -> bool
    requires ends { ends.old ≡ story.now.memory }
    requires tables { tables.now ≡ record { story = story.now; ranges = certificate.now.ranges } }
    ensures memory { ends.new ≡ ends.old }
    ensures mark { IsMarkOf story.now certificate.now (seen listed.now) result }
{
    match judge_in(story, tables, certificate, listed, near, ends, None, others) {
        Ok(_) => false,
        Err(_rule) => true,
    }
}

/// A certificate, if it passes but where it marks, and else what is wrong with it first. A function of its own, since a check's tables lie
/// on the stack.
#[inline(never)]
fn tried_unmarked(
    story: &Story,
    certificate: Certificate<Values>,
) -> Result<Certificate<Values>, FindError>
    ensures passes { IfOk result (λ passed. (passed ≡ certificate) × PassesWhereUnmarked values_operations story.now certificate) }
    ensures failed { IfErr result (λ error. (obstacle : AnObstacle) × (error ≡ NotFound obstacle) × IsWrongUnmarked story.now certificate obstacle) }
{
    match examine_unmarked(story, &certificate, None) {
        None => Ok(certificate),
        Some(refusal) => Err(FindError::from(refusal)),
    }
}

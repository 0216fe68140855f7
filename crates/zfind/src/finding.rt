//! Certificates found.

ghost use Rattle.std.specs.Prelude.{◌≡◌, IfErr, IfOk};
ghost use Rattle.zlist.specs.Listed.{Lists};
ghost use Rattle.zcheck.specs.Passes.{Passes};
ghost use Rattle.zfind.specs.Attempts.{IsAttempt, IsRound, IsSearch, IsSearchWrong};
ghost use Rattle.zfind.specs.Finding.{IsFailure, IsFailureOf, IsUnlisted, IsLess, IsStopped, IsWalkFailure, IsWrongWith};
ghost use Rattle.zfind.specs.Found.{IsFound};
ghost use Rattle.zfind.specs.declared.error.FindError.TheVariants.{NotFound};
ghost use Rattle.zfind.specs.declared.error.Obstacle.{Obstacle as AnObstacle};

use crate::certificate::certificate_of;
use crate::code::Code;
use crate::error::FindError;
use crate::extending::{cost_of_listing, extended};
use crate::found::Found;
use crate::kind::Kind;
use crate::settling::settled;
use crate::state::Plan;
use crate::visits::{Allowance, MOST_LIST_WORK, MOST_VISITS, MOST_WORK, count_work};
use crate::walk::Walk;
use crate::watch::{Unwatched, Watch};
use std::alloc::Global;
use zcert::Certificate;
use zcheck::examine;
use zdomain::{Interval, Values};
use zlist::{Listing, list_story};
use zstory::Story;

/// How often a thing grows before it is widened, walk by walk.
const DELAYS: [u16; 7] = [2, 2, 2, 2, 2, 10, 10];

/// How often in the last walk.
const LAST_DELAY: u16 = 60;

/// How often routines are listed at most that the code before calls through a variable alone (own).
pub(crate) const MOST_EXTENSIONS: usize = 16;

/// What a routine is said to give that never returns, where that it gives 0 leads to no certificate: the callers may bear one of these.
const OTHERS_GIVEN: [u16; 2] = [1, 16];

/// What comes of a walk, by what it makes and how the next one goes.
#[derive(Drop)]
enum Attempt<C, P> {
    /// Its certificate passes.
    Passed(C),
    /// It doesn't, and this is how the next one goes.
    Failed(P),
    /// It doesn't, and more is to be listed first.
    Wanting(Failure),
}

/// What comes of the walks over what is listed.
#[derive(Drop)]
enum Search<C> {
    /// A certificate passes.
    Passed(C),
    /// None does.
    Failed(Failure),
}

/// What comes of the walks over a listing.
#[derive(Drop)]
enum Round<C> {
    /// A certificate passes.
    Passed(C),
    /// None does, for this.
    Failed(FindError),
    /// None does, and this is listed next.
    Wider(Listing),
}

/// Why none passes.
#[derive(Drop)]
struct Failure {
    /// What stands in the way.
    error: FindError,
    /// Which routines are to be listed, by their packed addresses, if any is.
    wanted: Option<Vec<bool>>,
    /// Whether it was said of a routine what it gives that never returns.
    has_ended: bool,
}

/// A certificate that passes for a story, if one is found (own): of intervals, and where the walks with these end with G1, of lists.
///
/// Nothing is promised of whether one is found: a story that has a certificate may be refused. One that lists something at fault is
/// refused for that (G1): no certificate was found, and what stood in its way is told; it is the lister's fault, or what the checker says
/// first of a certificate with lists that was tried. G2 comes where the 4,000,001st instruction would be visited, or more work done than
/// `MOST_WORK`, before a first round of walks is done; the walks with lists have counts of their own. G3 comes where memory was refused.
pub fn find(alloc: Global, story: &Story) -> Result<Found, FindError>
    ensures passes { IfOk result (IsFound story.now) }
    ensures failed { IfErr result (IsFailure story.now) }
{
    find_watched(alloc, story, &Unwatched)
}

/// The same, of which a watch is told.
#[tactic(auto, using(crate::proofs::Failures::of_lists))]
pub(crate) fn find_watched<W: Watch>(
    alloc: Global,
    story: &Story,
    watch: &W,
) -> Result<Found, FindError>
    ensures passes { IfOk result (IsFound story.now) }
    ensures failed { IfErr result (IsFailure story.now) }
{
    match listed::<Interval, W>(alloc, story, &mut allowed(MOST_WORK), watch) {
        Ok(certificate) => Ok(Found::Intervals(certificate)),
        Err(FindError::NotFound(_)) => {
            match listed::<Values, W>(alloc, story, &mut allowed(MOST_LIST_WORK), watch) {
                Ok(certificate) => Ok(Found::Lists(certificate)),
                Err(error) => Err(error),
            }
        }
        Err(FindError::RoundLimit) => Err(FindError::RoundLimit),
        Err(FindError::OutOfMemory) => Err(FindError::OutOfMemory),
    }
}

/// What the walks with a kind of sets may do.
pub(crate) fn allowed(work: u32) -> Allowance {
    Allowance {
        visits: MOST_VISITS,
        work,
    }
}

/// The listing of a story, or what is at fault with it.
#[tactic(auto, using(crate::proofs::Failures::told))]
pub(crate) fn listing_of(alloc: Global, story: &Story) -> Result<Listing, FindError>
    ensures lists { IfOk result (Lists story.now) }
    ensures failed { IfErr result (IsUnlisted story.now) }
{
    match list_story(alloc, story) {
        Ok(listing) => Ok(listing),
        Err(fault) => Err(FindError::from(fault)),
    }
}

/// A certificate of a story, if it has a listing. So many visits are left.
#[tactic(auto, using(crate::proofs::Failures::of_listing, crate::proofs::Failures::of_walk))]
pub(crate) fn listed<V: Kind, W: Watch>(
    alloc: Global,
    story: &Story,
    left: &mut Allowance,
    watch: &W,
) -> Result<Certificate<V>, FindError>
    ensures passes { IfOk result (Passes V.operations story.now) }
    ensures failed { IfErr result (IsFailureOf V.operations story.now) }
    ensures less { IsLess left.new left.old }
{
    let listing = listing_of(alloc, story)?;
    searched(alloc, story, listing, left, watch)
}

/// A certificate over what is listed and, where routines are called through variables alone, over these too.
fn searched<V: Kind, W: Watch>(
    alloc: Global,
    story: &Story,
    first: Listing,
    left: &mut Allowance,
    watch: &W,
) -> Result<Certificate<V>, FindError>
    ensures passes { IfOk result (Passes V.operations story.now) }
    ensures failed { IfErr result (IsWalkFailure V.operations story.now left.new) }
    ensures less { IsLess left.new left.old }
{
    let mut listing = first;
    for _ in 0..MOST_EXTENSIONS {
        match search_of(alloc, story, &listing, left, watch)? {
            Round::Passed(certificate) => return Ok(certificate),
            Round::Failed(error) => return Err(error),
            Round::Wider(more) => listing = more,
        }
    }
    last_search(alloc, story, &listing, left, watch)
}

/// What comes of the walks over a listing, which wait for routines that aren't listed.
#[tactic(auto, using(crate::proofs::Failures::walk_failure, crate::proofs::Failures::of_stopped))]
fn search_of<V: Kind, W: Watch>(
    alloc: Global,
    story: &Story,
    listing: &Listing,
    left: &mut Allowance,
    watch: &W,
) -> Result<Round<Certificate<V>>, FindError>
    ensures round { IfOk result (IsRound V.operations story.now left.new) }
    ensures failed { IfErr result (IsWalkFailure V.operations story.now left.new) }
    ensures less { IsLess left.new left.old }
{
    let code = Code::new(alloc, story, listing)?.waiting();
    let failure = match walked_by_each(alloc, story, &code, left, watch)? {
        Search::Passed(certificate) => return Ok(Round::Passed(certificate)),
        Search::Failed(failure) => failure,
    };
    match wider(alloc, &code, failure.wanted, left)? {
        Some(more) => Ok(Round::Wider(more)),
        None => Ok(Round::Failed(failure.error)),
    }
}

/// A listing with the routines that are wanted, if any is, as far as work is left.
pub(crate) fn wider(
    alloc: Global,
    code: &Code<'_>,
    wanted: Option<Vec<bool>>,
    left: &mut Allowance,
) -> Result<Option<Listing>, FindError>
    ensures less { IsLess left.new left.old }
    ensures stopped { IfErr result (IsStopped left.new) }
{
    let Some(wanted) = wanted else {
        return Ok(None);
    };
    count_work(left, cost_of_listing(code))?;
    Ok(extended(alloc, code, &wanted)?)
}

/// The certificate of the walks over a listing, in which routines that aren't listed may give anything.
#[tactic(auto, using(crate::proofs::Failures::walk_failure, crate::proofs::Failures::of_stopped))]
fn last_search<V: Kind, W: Watch>(
    alloc: Global,
    story: &Story,
    listing: &Listing,
    left: &mut Allowance,
    watch: &W,
) -> Result<Certificate<V>, FindError>
    ensures passes { IfOk result (Passes V.operations story.now) }
    ensures failed { IfErr result (IsWalkFailure V.operations story.now left.new) }
    ensures less { IsLess left.new left.old }
{
    let code = Code::new(alloc, story, listing)?;
    match walked_by_each(alloc, story, &code, left, watch)? {
        Search::Passed(certificate) => Ok(certificate),
        Search::Failed(failure) => Err(failure.error),
    }
}

/// What comes of walks in which routines that never return are said to give 0, and of those that say otherwise, where the first don't find
/// a certificate. What stood in the way is that of the first.
fn walked_by_each<V: Kind, W: Watch>(
    alloc: Global,
    story: &Story,
    code: &Code<'_>,
    left: &mut Allowance,
    watch: &W,
) -> Result<Search<Certificate<V>>, FindError>
    ensures search { IfOk result (IsSearch V.operations story.now) }
    ensures less { IsLess left.new left.old }
    ensures stopped { IfErr result (IsStopped left.new) }
{
    let failure = match walked(alloc, story, code, 0, left, watch)? {
        Search::Passed(certificate) => return Ok(Search::Passed(certificate)),
        Search::Failed(failure) => failure,
    };
    if failure.has_ended && failure.wanted.is_none() {
        for given in OTHERS_GIVEN {
            match walked(alloc, story, code, given, left, watch) {
                Ok(Search::Passed(certificate)) => return Ok(Search::Passed(certificate)),
                Ok(Search::Failed(_)) | Err(FindError::RoundLimit) => {}
                Err(error) => return Err(error),
            }
        }
    }
    Ok(Search::Failed(failure))
}

/// What comes of several walks, of which each is kept from widening beyond what the one before left. A routine that never returns is said to
/// give this word.
fn walked<V: Kind, W: Watch>(
    alloc: Global,
    story: &Story,
    code: &Code<'_>,
    given: u16,
    left: &mut Allowance,
    watch: &W,
) -> Result<Search<Certificate<V>>, FindError>
    ensures search { IfOk result (IsSearch V.operations story.now) }
    ensures less { IsLess left.new left.old }
    ensures stopped { IfErr result (IsStopped left.new) }
{
    let mut plan = Plan::widening(code.thresholds(alloc)?, V::single(given));
    for delay in DELAYS {
        if plan.is_settled && plan.delay == delay {
            continue;
        }
        plan.delay = delay;
        match make_attempt(alloc, story, code, plan, left, watch)? {
            Attempt::Passed(certificate) => return Ok(Search::Passed(certificate)),
            Attempt::Wanting(failure) => return Ok(Search::Failed(failure)),
            Attempt::Failed(next) => plan = next,
        }
    }
    plan.delay = LAST_DELAY;
    let mut walk = Walk::new(alloc, code, plan)?;
    walk.grow(left, watch)?;
    count_work(left, walk.cost_of_check())?;
    let certificate = certificate_of(alloc, code, &mut walk)?;
    Ok(last_tried(story, walk, certificate))
}

/// The certificate of the last walk, if it passes.
#[tactic(auto, using(crate::proofs::Failures::met_by))]
fn last_tried<V: Kind>(
    story: &Story,
    walk: Walk<'_, V>,
    certificate: Certificate<V>,
) -> Search<Certificate<V>>
    ensures search { IsSearch V.operations story.now result }
    ensures wrong { IsSearchWrong V.operations story.now certificate result }
{
    match tried(story, certificate) {
        Ok(certificate) => Search::Passed(certificate),
        Err(error) => Search::Failed(failure_of(walk, error)),
    }
}

/// Why a walk's certificate doesn't pass.
fn failure_of<V: Kind>(walk: Walk<'_, V>, error: FindError) -> Failure
    ensures { result.error ≡ error }
{
    Failure {
        error,
        has_ended: walk.has_ended_routines(),
        wanted: walk.into_wanted(),
    }
}

/// A walk, and whether its certificate passes.
#[tactic(auto, using(crate::proofs::Failures::met_by))]
fn make_attempt<V: Kind, W: Watch>(
    alloc: Global,
    story: &Story,
    code: &Code<'_>,
    plan: Plan<V>,
    left: &mut Allowance,
    watch: &W,
) -> Result<Attempt<Certificate<V>, Plan<V>>, FindError>
    ensures passes { IfOk result (IsAttempt V.operations story.now) }
    ensures less { IsLess left.new left.old }
    ensures stopped { IfErr result (IsStopped left.new) }
{
    let mut walk = Walk::new(alloc, code, plan)?;
    walk.grow(left, watch)?;
    count_work(left, walk.cost_of_check())?;
    let certificate = certificate_of(alloc, code, &mut walk)?;
    let error = match tried(story, certificate) {
        Ok(certificate) => return Ok(Attempt::Passed(certificate)),
        Err(error) => error,
    };
    if walk.is_wanting() {
        return Ok(Attempt::Wanting(failure_of(walk, error)));
    }
    Ok(Attempt::Failed(next_plan(alloc, code, walk, left, watch)?))
}

/// How the walk goes behind one that is at its end.
pub(crate) fn next_plan<V: Kind, W: Watch>(
    alloc: Global,
    code: &Code<'_>,
    mut walk: Walk<'_, V>,
    left: &mut Allowance,
    watch: &W,
) -> Result<Plan<V>, FindError>
    ensures less { IsLess left.new left.old }
    ensures stopped { IfErr result (IsStopped left.new) }
{
    let caps = settled(alloc, code, &mut walk, left, watch)?;
    Ok(Plan {
        is_settled: walk.state.is_within(&caps),
        caps: Some(caps),
        ..walk.into_plan()
    })
}

/// A certificate, if it passes, and else what is wrong with it first. A function of its own, since a check's tables lie on the stack.
#[inline(never)]
pub(crate) fn tried<V: Kind>(
    story: &Story,
    certificate: Certificate<V>,
) -> Result<Certificate<V>, FindError>
    ensures passes { IfOk result (λ passed. (passed ≡ certificate) × Passes V.operations story.now certificate) }
    ensures failed { IfErr result (λ error. (obstacle : AnObstacle) × (error ≡ NotFound obstacle) × IsWrongWith V.operations story.now certificate obstacle) }
{
    match examine(story, &certificate) {
        None => Ok(certificate),
        Some(refusal) => Err(FindError::from(refusal)),
    }
}

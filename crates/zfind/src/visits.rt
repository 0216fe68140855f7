//! How much a search may do yet.

ghost use Rattle.std.specs.Prelude.{◌≡◌, ◌+◌, IfErr, OnOk};
ghost use Rattle.zfind.specs.declared.error.FindError.TheVariants.{RoundLimit};

use crate::error::FindError;
use crate::watch::Watch;

/// How many instructions are visited at most (own).
pub const MOST_VISITS: u32 = 4_000_000;

/// How much work is done at most: each set that is joined, each routine that is entered, each instruction that is to be visited, each byte
/// that is gone over, counts as one, and each byte of a story as eight where more of it is listed (own).
pub const MOST_WORK: u32 = 400_000_000;

/// How much with lists (own).
pub const MOST_LIST_WORK: u32 = 100_000_000;

/// How many visits are told together: a power of two, so that it takes little to see when they are made (own).
const VISITS_TOLD: u32 = 1_024;

/// What a search may do yet.
#[derive(Clone, Copy)]
pub(crate) struct Allowance {
    /// How many instructions it may visit.
    pub(crate) visits: u32,
    /// How much work it may do.
    pub(crate) work: u32,
}

/// Counts a visit, if one is left. Where many were counted since, that is told.
pub(crate) fn count_visit<W: Watch>(left: &mut Allowance, watch: &W) -> Result<(), FindError>
    ensures counted { OnOk result (left.new.visits + 1 ≡ left.old.visits) }
    ensures limit { IfErr result (λ error. (error ≡ RoundLimit) × (left.old.visits ≡ 0) × (left.new.visits ≡ 0)) }
    ensures work { left.new.work ≡ left.old.work }
{
    match left.visits.checked_sub(1) {
        Some(fewer) => {
            left.visits = fewer;
            if fewer % VISITS_TOLD == 0 {
                watch.visited(VISITS_TOLD);
            }
            Ok(())
        }
        None => Err(FindError::RoundLimit),
    }
}

/// Counts so many visits more, if they are left; else none is left behind.
pub(crate) fn count_more(left: &mut Allowance, more: u32) -> Result<(), FindError>
    ensures counted { OnOk result (left.new.visits + more ≡ left.old.visits) }
    ensures limit { IfErr result (λ error. (error ≡ RoundLimit) × (left.new.visits ≡ 0)) }
    ensures work { left.new.work ≡ left.old.work }
{
    match left.visits.checked_sub(more) {
        Some(fewer) => {
            left.visits = fewer;
            Ok(())
        }
        None => {
            left.visits = 0;
            Err(FindError::RoundLimit)
        }
    }
}

/// Counts so much work, if it is left; else none is left behind.
pub(crate) fn count_work(left: &mut Allowance, more: u32) -> Result<(), FindError>
    ensures counted { OnOk result (left.new.work + more ≡ left.old.work) }
    ensures limit { IfErr result (λ error. (error ≡ RoundLimit) × (left.new.work ≡ 0)) }
    ensures visits { left.new.visits ≡ left.old.visits }
{
    match left.work.checked_sub(more) {
        Some(less) => {
            left.work = less;
            Ok(())
        }
        None => {
            left.work = 0;
            Err(FindError::RoundLimit)
        }
    }
}

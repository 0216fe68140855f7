//! What an answer to a question leaves of two intervals, for the edges of a branch.

ghost use Rattle.std.specs.Prelude.{◌≡◌, ◌≤ℤ◌, ℤ, pos, negsuc, option_map};
ghost use Rattle.zdomain.specs.declared.interval.Interval.{Interval};
ghost use Rattle.zdomain.specs.Interval.{interval_of, join, meet, both, swapped, raised, lowered, without, apart, below, not_below};

use crate::interval::Interval;

/// The least interval that has the numbers of both.
pub(crate) fn join(a: Interval, b: Interval) -> Interval
    ensures { result ≡ join a b }
{
    match Interval::new(a.lo.min(b.lo), a.hi.max(b.hi)) {
        Some(interval) => interval,
        None => Interval::all(),
    }
}

/// The numbers that both have.
pub(crate) fn meet(a: Interval, b: Interval) -> Option<Interval>
    ensures { result ≡ meet a b }
{
    Interval::new(a.lo.max(b.lo), a.hi.min(b.hi))
}

/// The numbers that both have, for each of the two.
pub(crate) fn same(a: Interval, b: Interval) -> Option<(Interval, Interval)>
    ensures { result ≡ option_map (λ (c : Interval). (c, c)) (meet a b) }
{
    match meet(a, b) {
        Some(common) => Some((common, common)),
        None => None,
    }
}

/// Two intervals, where there are both.
pub(crate) fn both(a: Option<Interval>, b: Option<Interval>) -> Option<(Interval, Interval)>
    ensures { result ≡ both a b }
{
    match (a, b) {
        (None, _) => None,
        (Some(_), None) => None,
        (Some(first), Some(second)) => Some((first, second)),
    }
}

/// Two intervals in the other order.
pub(crate) fn swapped(pair: Option<(Interval, Interval)>) -> Option<(Interval, Interval)>
    ensures { result ≡ swapped pair }
{
    match pair {
        Some((first, second)) => Some((second, first)),
        None => None,
    }
}

/// The numbers of `a` that differ from the only one of `b`, as far as an interval tells.
pub(crate) fn apart(a: Interval, b: Interval) -> Option<Interval>
    ensures { result ≡ apart a b }
{
    if b.is_single() {
        without(b.lo, a)
    } else {
        Some(a)
    }
}

/// The interval without a number, where that is an end.
fn without(number: i16, a: Interval) -> Option<Interval>
    ensures { result ≡ without number a }
{
    between(raised(a.lo, number), lowered(a.hi, number))
}

/// A lower end, one further in where it is the number.
fn raised(low: i16, number: i16) -> i32
    ensures value { result ≡ raised low number }
    ensures near { low ≤ℤ result }
{
    if low == number {
        return i32::from(low) + 1;
    }
    i32::from(low)
}

/// An upper end, one further in where it is the number.
fn lowered(high: i16, number: i16) -> i32
    ensures value { result ≡ lowered high number }
    ensures near { result ≤ℤ high }
{
    if high == number {
        return i32::from(high) - 1;
    }
    i32::from(high)
}

/// What is left where a number of `a` is less than one of `b`.
pub(crate) fn below(a: Interval, b: Interval) -> Option<(Interval, Interval)>
    ensures { result ≡ below a b }
{
    both(
        between(a.low(), a.high().min(b.high() - 1)),
        between(b.low().max(a.low() + 1), b.high()),
    )
}

/// What is left where a number of `a` is no less than one of `b`.
pub(crate) fn not_below(a: Interval, b: Interval) -> Option<(Interval, Interval)>
    ensures { result ≡ not_below a b }
{
    both(
        Interval::new(a.lo.max(b.lo), a.hi),
        Interval::new(b.lo, b.hi.min(a.hi)),
    )
}

/// The numbers from `low` to `high`, or `None` where there is none. Ends out of order may lie one beyond the numbers of words.
fn between(low: i32, high: i32) -> Option<Interval>
    requires low { negsuc 32767 ≤ℤ low }
    requires high { high ≤ℤ pos 32767 }
    ensures { result ≡ interval_of low high }
{
    if high < low {
        return None;
    }
    Interval::new(low as i16, high as i16)
}

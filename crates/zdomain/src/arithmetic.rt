//! What the results of an operation on words lie in, for words of two intervals.
//!
//! Ends are computed in 32 bits. Where one isn't the number of a word, the results wrap, and they may be any word.

ghost use Rattle.std.specs.Prelude.{◌≡◌, ◌*ℤ◌, pos};
ghost use Rattle.std.specs.Int.{int_min};
ghost use Rattle.zdomain.specs.Interval.{fitting, around, at_ends, sums, differences, quotients, reach, remainders, are_single, conjunctions, disjunctions, unary};
ghost use Rattle.zword.specs.declared.unary.UnaryOp.TheVariants.{Not};

use crate::interval::Interval;

/// The sums.
pub(crate) fn sums(a: Interval, b: Interval) -> Interval
    ensures { result ≡ sums a b }
{
    fitting(a.low() + b.low(), a.high() + b.high())
}

/// The differences.
pub(crate) fn differences(a: Interval, b: Interval) -> Interval
    ensures { result ≡ differences a b }
{
    fitting(a.low() - b.high(), a.high() - b.low())
}

/// The products: each lies between those of the ends.
pub(crate) fn products(a: Interval, b: Interval) -> Interval
    ensures { result ≡ at_ends ◌*ℤ◌ a b }
{
    let (low, high) = (a.low(), a.high());
    let (other_low, other_high) = (b.low(), b.high());
    around(
        low * other_low,
        low * other_high,
        high * other_low,
        high * other_high,
    )
}

/// The quotients, rounded toward zero: each lies between those of the ends. By what may be 0 they may be any word.
pub(crate) fn quotients(a: Interval, b: Interval) -> Interval
    ensures { result ≡ quotients a b }
{
    if b.has_zero() {
        return Interval::all();
    }
    let (low, high) = (a.low(), a.high());
    let (other_low, other_high) = (b.low(), b.high());
    around(
        low / other_low,
        low / other_high,
        high / other_low,
        high / other_high,
    )
}

/// What quotients leave: no further from 0 than the dividend, on its side of 0, and nearer than the divisor.
pub(crate) fn remainders(a: Interval, b: Interval) -> Interval
    ensures { result ≡ remainders a b }
{
    if b.has_zero() {
        return Interval::all();
    }
    let reach = reach(b);
    let low = a.low().min(0).max(0 - reach);
    let high = a.high().max(0).min(reach);
    fitting(low, high)
}

/// The greatest absolute value, less 1.
fn reach(b: Interval) -> i32
    ensures { result ≡ reach b }
{
    b.low().abs().max(b.high().abs()) - 1
}

/// The bits of both.
pub(crate) fn conjunctions(a: Interval, b: Interval) -> Interval
    ensures { result ≡ conjunctions a b }
{
    if are_single(a, b) {
        return Interval::of_word(a.lo.cast_unsigned() & b.lo.cast_unsigned());
    }
    match (a.has_negative(), b.has_negative()) {
        (true, true) => Interval::all(),
        (true, false) => up_to(b),
        (false, true) => up_to(a),
        (false, false) => up_to_lesser(a, b),
    }
}

/// The bits of either.
pub(crate) fn disjunctions(a: Interval, b: Interval) -> Interval
    ensures { result ≡ disjunctions a b }
{
    if are_single(a, b) {
        return Interval::of_word(a.lo.cast_unsigned() | b.lo.cast_unsigned());
    }
    match (a.has_negative(), b.has_negative()) {
        (false, false) => fitting(0, 32767),
        (true, _) | (false, true) => Interval::all(),
    }
}

/// Whether each has but one number.
fn are_single(a: Interval, b: Interval) -> bool
    ensures { result ≡ are_single a b }
{
    a.is_single() && b.is_single()
}

/// The words with each bit turned: the number z becomes -1 - z.
pub(crate) fn complements(a: Interval) -> Interval
    ensures { result ≡ unary Not a }
{
    fitting(-1 - a.high(), -1 - a.low())
}

/// From 0 to the upper end.
fn up_to(a: Interval) -> Interval
    ensures { result ≡ fitting (pos 0) a.hi }
{
    fitting(0, a.high())
}

/// From 0 to the lesser of the upper ends.
fn up_to_lesser(a: Interval, b: Interval) -> Interval
    ensures { result ≡ fitting (pos 0) (int_min a.hi b.hi) }
{
    if b.hi < a.hi { up_to(b) } else { up_to(a) }
}

/// From the least of four numbers to the greatest.
fn around(a: i32, b: i32, c: i32, d: i32) -> Interval
    ensures { result ≡ around a b c d }
{
    fitting(a.min(b).min(c.min(d)), a.max(b).max(c.max(d)))
}

/// The interval from `low` to `high`, or all words where an end isn't the number of one.
pub(crate) fn fitting(low: i32, high: i32) -> Interval
    ensures { result ≡ fitting low high }
{
    if low < -32768 || 32767 < low || high < -32768 || 32767 < high {
        return Interval::all();
    }
    match Interval::new(low as i16, high as i16) {
        Some(interval) => interval,
        None => Interval::all(),
    }
}

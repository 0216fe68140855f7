//! What is known of the elements at each array of one list and each index of another.

ghost use Rattle.std.specs.Prelude.{◌≡◌, ◌+◌, ◌≤◌, ◌&&◌, length, map, nat_le, not, IsTrue};
ghost use Rattle.std.specs.List.{list_all};
ghost use Rattle.zstory.specs.LoadedStory.{static_base};
ghost use Rattle.zarray.specs.Arrays.{place_of, span, value_at};
ghost use Rattle.zdomain.specs.Few.{with_words};
ghost use Rattle.zpairs.specs.Fixed.{is_closed, is_fixed};
ghost use Rattle.zruns.specs.Runs.{each_byte, sums};

use crate::element::{are_open, fixed_value};
use zarray::Width;
use zdomain::Gathered;
use zpairs::Marked;

/// Whether each byte of each of them is open. Each width has a loop of its own, in which nothing asks which it is.
pub(crate) fn are_sums_open(
    marked: &Marked<'_>,
    width: Width,
    arrays: &[u16],
    indices: &[u16],
) -> bool
    ensures { result ≡ list_all (each_byte width (λ q. not (is_closed (record { story = marked.now.story.now; ranges = marked.now.ranges.now }) q))) (sums width arrays.now indices.now) }
{
    match width {
        Width::Byte => are_rows_open(marked, Width::Byte, arrays, indices),
        Width::Word => are_rows_open(marked, Width::Word, arrays, indices),
    }
}

/// The same, array by array.
#[tactic(auto, unfolding(crate::specs::Runs::sums), using(crate::proofs::Summing::all_append))]
#[inline(always)]
fn are_rows_open(marked: &Marked<'_>, width: Width, arrays: &[u16], indices: &[u16]) -> bool
    ensures { result ≡ list_all (each_byte width (λ q. not (is_closed (record { story = marked.now.story.now; ranges = marked.now.ranges.now }) q))) (sums width arrays.now indices.now) }
{
    match arrays {
        [] => true,
        [first, rest @ ..] => {
            is_row_open(marked, width, *first, indices)
                && are_rows_open(marked, width, rest, indices)
        }
    }
}

/// The same of those of one array.
#[inline(always)]
fn is_row_open(marked: &Marked<'_>, width: Width, array: u16, indices: &[u16]) -> bool
    ensures { result ≡ list_all (each_byte width (λ q. not (is_closed (record { story = marked.now.story.now; ranges = marked.now.ranges.now }) q))) (map (place_of width array) indices.now) }
{
    match indices {
        [] => true,
        [first, rest @ ..] => {
            are_open(*marked, width, usize::from(width.place(array, *first)))
                && is_row_open(marked, width, array, rest)
        }
    }
}

/// Whether each of them begins no later than a place. Each width has a loop of its own, in which nothing asks which it is.
pub(crate) fn begin_sums_by(last: u16, width: Width, arrays: &[u16], indices: &[u16]) -> bool
    ensures { result ≡ list_all (λ p. nat_le p last) (sums width arrays.now indices.now) }
{
    match width {
        Width::Byte => begin_rows_by(last, Width::Byte, arrays, indices),
        Width::Word => begin_rows_by(last, Width::Word, arrays, indices),
    }
}

/// The same, array by array.
#[tactic(auto, unfolding(crate::specs::Runs::sums), using(crate::proofs::Summing::all_append))]
#[inline(always)]
fn begin_rows_by(last: u16, width: Width, arrays: &[u16], indices: &[u16]) -> bool
    ensures { result ≡ list_all (λ p. nat_le p last) (sums width arrays.now indices.now) }
{
    match arrays {
        [] => true,
        [first, rest @ ..] => {
            begins_row_by(true, last, width, *first, indices)
                && begin_rows_by(last, width, rest, indices)
        }
    }
}

/// Whether something holds and each of those of one array does. All are gone over, without a way out, so that eight take one step.
#[inline(always)]
fn begins_row_by(so_far: bool, last: u16, width: Width, array: u16, indices: &[u16]) -> bool
    ensures { result ≡ (so_far && list_all (λ p. nat_le p last) (map (place_of width array) indices.now)) }
{
    match indices {
        [] => so_far,
        [first, rest @ ..] => {
            let begins = width.place(array, *first) <= last;
            begins_row_by(so_far && begins, last, width, array, rest)
        }
    }
}

/// Adds what they are, as far as no play changes a byte of one, and tells whether that is so of all. Each width has a loop of its own, in
/// which nothing asks which it is.
pub(crate) fn add_sums(
    all: &mut Gathered,
    marked: &Marked<'_>,
    memory: &[u8],
    width: Width,
    arrays: &[u16],
    indices: &[u16],
) -> bool
    requires { static_base marked.now.story.now ≤ length memory.now }
    ensures fixed { result ≡ list_all (each_byte width (is_fixed (record { story = marked.now.story.now; ranges = marked.now.ranges.now }))) (sums width arrays.now indices.now) }
    ensures words { IsTrue result → all.new ≡ with_words (map (value_at width memory.now) (sums width arrays.now indices.now)) all.old }
{
    match width {
        Width::Byte => add_rows(all, marked, memory, Width::Byte, arrays, indices),
        Width::Word => add_rows(all, marked, memory, Width::Word, arrays, indices),
    }
}

/// The same, array by array.
#[tactic(auto, unfolding(crate::specs::Runs::sums), using(crate::proofs::Summing::all_append))]
#[inline(always)]
fn add_rows(
    all: &mut Gathered,
    marked: &Marked<'_>,
    memory: &[u8],
    width: Width,
    arrays: &[u16],
    indices: &[u16],
) -> bool
    requires { static_base marked.now.story.now ≤ length memory.now }
    ensures fixed { result ≡ list_all (each_byte width (is_fixed (record { story = marked.now.story.now; ranges = marked.now.ranges.now }))) (sums width arrays.now indices.now) }
    ensures words { IsTrue result → all.new ≡ with_words (map (value_at width memory.now) (sums width arrays.now indices.now)) all.old }
{
    match arrays {
        [] => true,
        [first, rest @ ..] => {
            add_row(all, marked, memory, width, *first, indices)
                && add_rows(all, marked, memory, width, rest, indices)
        }
    }
}

/// The same of those of one array.
#[inline(always)]
fn add_row(
    all: &mut Gathered,
    marked: &Marked<'_>,
    memory: &[u8],
    width: Width,
    array: u16,
    indices: &[u16],
) -> bool
    requires { static_base marked.now.story.now ≤ length memory.now }
    ensures fixed { result ≡ list_all (each_byte width (is_fixed (record { story = marked.now.story.now; ranges = marked.now.ranges.now }))) (map (place_of width array) indices.now) }
    ensures words { IsTrue result → all.new ≡ with_words (map (value_at width memory.now) (map (place_of width array) indices.now)) all.old }
{
    let [first, rest @ ..] = indices else {
        return true;
    };
    let place = usize::from(width.place(array, *first));
    let Some(value) = fixed_value(marked, memory, width, place) else {
        return false;
    };
    all.add(value);
    add_row(all, marked, memory, width, array, rest)
}

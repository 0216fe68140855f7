//! How far a set reaches.

use zdomain::Domain;

/// How many words lie from the least of a set to its greatest.
pub(crate) fn span<V: Domain>(set: V) -> u32 {
    let least = i32::from(set.lowest().cast_signed());
    let greatest = i32::from(set.highest().cast_signed());
    greatest
        .saturating_sub(least)
        .unsigned_abs()
        .saturating_add(1)
}

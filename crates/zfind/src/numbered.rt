//! Marks of what has numbers.

/// Marks what has a number.
pub(crate) fn mark(marks: &mut Vec<bool>, number: usize) {
    if let Some(mark) = marks.get_mut(number) {
        *mark = true;
    }
}

/// Whether what has a number is marked.
pub(crate) fn is_marked(marks: &[bool], number: usize) -> bool {
    marks.get(number).copied().unwrap_or(false)
}

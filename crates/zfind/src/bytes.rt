//! Which bytes stay as they are.

use std::alloc::{AllocError, Global};
use zcert::Range;
use zpairs::PLACES;
use zplace::is_changing;
use zstory::Story;

/// How many places a block has.
const BLOCK_LENGTH: usize = 256;

/// The length of the header, behind which bytes may be frozen (Z 1.1.1.1).
const HEADER_LENGTH: usize = 64;

/// Places from a first to a last one.
#[derive(Clone, Copy)]
pub(crate) struct Span {
    pub(crate) first: usize,
    pub(crate) last: usize,
}

impl Span {
    /// Whether they have one in common.
    pub(crate) fn meets(self, other: Span) -> bool {
        self.first <= other.last && other.first <= self.last
    }

    /// How many there are.
    pub(crate) fn length(self) -> usize {
        self.last.saturating_sub(self.first).saturating_add(1)
    }

    /// All from the lower first to the higher last.
    pub(crate) fn join(self, other: Span) -> Span {
        Span {
            first: self.first.min(other.first),
            last: self.last.max(other.last),
        }
    }
}

/// The bytes of dynamic memory that no store was found to reach, of those that no instruction changes without asking. What isn't dynamic has no
/// marks, but for one place behind it.
#[derive(Drop)]
pub(crate) struct Bytes {
    frozen: Vec<bool>,
    /// How many are frozen of each block of places.
    counts: Vec<u16>,
    /// Whether each was opened since ranges were last made.
    opened: Vec<bool>,
    /// Where bytes were opened since this was last asked.
    fresh: Option<Span>,
    /// Where they were since ranges were last made, or what was opened was last noted.
    stale: Option<Span>,
}

impl Bytes {
    /// All that may be frozen.
    pub(crate) fn new(alloc: Global, story: &Story) -> Result<Bytes, AllocError> {
        let count = story.static_base().saturating_add(1).min(PLACES);
        let mut frozen = vec![in alloc; false; count]?;
        for (place, mark) in frozen.iter_mut().enumerate() {
            *mark = HEADER_LENGTH <= place
                && place < story.static_base()
                && !is_changing(story, place);
        }
        Ok(Bytes {
            counts: counts_of(alloc, &frozen)?,
            frozen,
            opened: vec![in alloc; false; count]?,
            fresh: None,
            stale: None,
        })
    }

    /// Opens the bytes from a place up to an end. Answers how much was gone over.
    pub(crate) fn open_piece(&mut self, from: usize, end: usize) -> usize {
        let mut passed = 0usize;
        for block in from / BLOCK_LENGTH..end.div_ceil(BLOCK_LENGTH) {
            passed = passed.saturating_add(1);
            if self.has_frozen(block) {
                passed = passed.saturating_add(BLOCK_LENGTH);
                self.open_in_block(block, from, end);
            }
        }
        passed
    }

    /// Whether a byte of a block is frozen.
    fn has_frozen(&self, block: usize) -> bool {
        self.counts.get(block).copied().unwrap_or(0) > 0
    }

    /// Opens the bytes of a block from a place up to an end.
    fn open_in_block(&mut self, block: usize, from: usize, end: usize) {
        let first = block.saturating_mul(BLOCK_LENGTH);
        for place in first.max(from)..first.saturating_add(BLOCK_LENGTH).min(end) {
            self.open(place);
        }
    }

    /// Opens the byte at a place.
    fn open(&mut self, place: usize) {
        let Some(mark) = self.frozen.get_mut(place) else {
            return;
        };
        if *mark {
            *mark = false;
            self.note_opened(place);
            let here = Span {
                first: place,
                last: place,
            };
            self.fresh = Some(joined(self.fresh, here));
            self.stale = Some(joined(self.stale, here));
        }
    }

    /// Notes that the byte at a place was opened.
    fn note_opened(&mut self, place: usize) {
        if let Some(mark) = self.opened.get_mut(place) {
            *mark = true;
        }
        if let Some(count) = self.counts.get_mut(place / BLOCK_LENGTH) {
            *count = count.saturating_sub(1);
        }
    }

    /// Whether the byte at a place was opened since ranges were last made.
    pub(crate) fn was_opened(&self, place: usize) -> bool {
        self.opened.get(place).copied().unwrap_or(false)
    }

    /// Where bytes were opened since ranges were last made, or this was last asked, if any were.
    pub(crate) fn take_stale(&mut self) -> Option<Span> {
        self.stale.take()
    }

    /// Where bytes were opened since this was last asked, if any were.
    pub(crate) fn take_fresh(&mut self) -> Option<Span> {
        self.fresh.take()
    }

    /// Whether a byte may have been opened there since ranges were last made, or what was opened was last noted.
    pub(crate) fn is_stale(&self, reach: Option<Span>) -> bool {
        match (self.stale, reach) {
            (Some(stale), Some(reach)) => stale.meets(reach),
            _ => false,
        }
    }

    /// The ranges of bytes that are frozen.
    pub(crate) fn ranges(&mut self, alloc: Global) -> Result<Vec<Range>, AllocError> {
        self.stale = None;
        self.opened.fill(false);
        let mut ranges = Vec::new(alloc);
        let mut first = None;
        for (place, mark) in self.frozen.iter().enumerate() {
            match first {
                None if *mark => first = Some(place),
                Some(begun) if !*mark => {
                    ranges.push(range_before(begun, place))?;
                    first = None;
                }
                _ => {}
            }
        }
        Ok(ranges)
    }
}

/// How many are marked of each block of places.
fn counts_of(alloc: Global, marks: &[bool]) -> Result<Vec<u16>, AllocError> {
    let mut counts = vec![in alloc; 0u16; marks.len().div_ceil(BLOCK_LENGTH)]?;
    for (place, mark) in marks.iter().enumerate() {
        if let Some(count) = counts.get_mut(place / BLOCK_LENGTH) {
            *count = count.saturating_add(u16::from(*mark));
        }
    }
    Ok(counts)
}

/// The range from a place up to an end.
fn range_before(first: usize, end: usize) -> Range {
    Range {
        first: first.min(0xffff) as u16,
        last: end.saturating_sub(1).min(0xffff) as u16,
    }
}

/// Places, with those that were there before.
fn joined(before: Option<Span>, more: Span) -> Span {
    match before {
        Some(span) => span.join(more),
        None => more,
    }
}

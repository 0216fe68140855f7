//! What a machine gave out, kept as a run of bytes with status lines in it.

ghost use Rattle.std.specs.Prelude.{◌≡◌, ◌≢◌, ◌⊎◌, ◌<◌, ◌≤◌, ◌+◌, ◌-◌, ◌^◌, ◌++◌, ◌∷◌, [], IsFalse, IsTrue, OnErr, OnOk, length, map, reverse};
ghost use Rattle.zfault.specs.declared.item.Item.TheVariants.{Status as Line, Text};
ghost use Rattle.zfault.specs.Items.{IsBounded, StandWithin, items_of, size, text_of};

use crate::item::Status;
use std::alloc::{AllocError, Global};
use std::marker::Model;

/// A status line among text.
#[derive(Drop)]
pub struct Mark {
    /// How many bytes of text were given out before it.
    pub place: usize,
    /// What it shows.
    pub status: Status,
}

/// What a status line counts beside the bytes of its name: no less than it takes.
const LINE_SIZE: usize = 64;

/// The [`Item`](crate::Item)s that were given out, in order. A byte of text takes a byte.
///
/// There may be a bound to what is held. It is passed by what a single call gives out where nothing is held, and by nothing else: a call
/// that would pass it is refused as for want of memory, and succeeds where memory does once the items were taken out.
#[derive(Drop)]
pub struct Items {
    text: Vec<u8>,
    /// The status lines, the newest last.
    marks: Vec<Mark>,
    /// The bound: a byte of text counts one, and a status line `LINE_SIZE` and the bytes of its name.
    most: usize,
    /// What the bound leaves for text beside the status lines.
    text_most: usize,
}

impl Model for Items {
    ghost use Rattle.std.specs.Prelude.{◌≡◌, ◌-◌, length, reverse, vec_len};
    ghost use Rattle.std.specs.Vec.{vec_capacity};
    ghost use Rattle.zfault.specs.Items.{GivenOut, StandWithin, items_of, room_beside, size_of_lines};

    ghost Value = { GivenOut };

    ghost view = { λ o. record { items = items_of o.text.items (reverse o.marks.items); room = room_beside (items_of o.text.items (reverse o.marks.items)) (vec_capacity o.text - vec_len o.text) o.most; most = o.most } };

    ghost invariant = { λ o. StandWithin (length o.text.items) (reverse o.marks.items) × (o.text_most ≡ o.most - size_of_lines (reverse o.marks.items)) };
}

impl Items {
    /// No item, and a bound that no memory comes to.
    pub fn new(alloc: Global) -> Items
        ensures items { result.items ≡ [] }
        ensures most { result.most ≡ 2 ^ 64 - 1 }
    {
        Items::bounded(alloc, usize::MAX)
    }

    /// No item, and a bound: a byte of text counts one, and a status line 64 and the bytes of its name.
    pub fn bounded(alloc: Global, most: usize) -> Items
        ensures items { result.items ≡ [] }
        ensures most { result.most ≡ most }
    {
        Items {
            text: Vec::new(alloc),
            marks: Vec::new(alloc),
            most,
            text_most: most,
        }
    }

    /// Whether nothing is held.
    pub fn is_empty(&self) -> bool
        ensures empty { IsTrue result → self.now.items ≡ [] }
        ensures held { IsFalse result → self.now.items ≢ [] }
    {
        self.text.is_empty() && self.marks.is_empty()
    }

    /// Whether what counts so much is refused, of which is told whether it passes the bound.
    #[inline(always)]
    fn refuses(&self, count: usize, passes: bool) -> bool
        ensures refused { IsTrue result → IsTrue passes × ((0 < count) × (self.now.items ≢ [])) }
        ensures taken { IsFalse result → IsFalse passes ⊎ ((count ≡ 0) ⊎ (self.now.items ≡ [])) }
    {
        passes && self.is_more(count)
    }

    /// Whether what counts so much is something, beside what is held.
    #[cold]
    #[inline(never)]
    fn is_more(&self, count: usize) -> bool
        ensures more { IsTrue result → (0 < count) × (self.now.items ≢ []) }
        ensures all { IsFalse result → (count ≡ 0) ⊎ (self.now.items ≡ []) }
    {
        count > 0 && !self.is_empty()
    }

    /// The bytes of text, without the status lines.
    pub fn text(&self) -> &[u8]
        ensures { result.now ≡ text_of self.now.items }
    {
        self.text.as_slice()
    }

    /// The status lines, the oldest first, each with its place in the text.
    pub fn marks(&self) -> &[Mark]
        ensures items { self.now.items ≡ items_of (text_of self.now.items) (reverse result.now) }
        ensures order { StandWithin (length (text_of self.now.items)) (reverse result.now) }
    {
        self.marks.as_slice()
    }

    /// Takes all items out. The memory stays.
    pub fn clear(&mut self)
        ensures items { self.new.items ≡ [] }
        ensures room { self.old.room ≤ self.new.room }
        ensures most { self.new.most ≡ self.old.most }
    {
        self.text.clear();
        self.marks.clear();
        self.text_most = self.most;
    }

    /// Makes room for so many bytes of text.
    pub fn reserve_text(&mut self, count: usize) -> Result<(), AllocError>
        ensures ok { OnOk result (count ≤ self.new.room) }
        ensures err { OnErr result (self.old.room < count) }
        ensures kept { self.new.items ≡ self.old.items }
        ensures most { self.new.most ≡ self.old.most }
    {
        let left = self.text_most.saturating_sub(self.text.len());
        if self.refuses(count, count > left) {
            return Err(AllocError);
        }
        self.text.reserve(count)
    }

    /// Gives out bytes of text, all or none. They can be refused only where there is no room for them.
    pub fn give_text(&mut self, bytes: &[u8]) -> Result<(), AllocError>
        ensures ok { OnOk result (self.new.items ≡ self.old.items ++ map Text bytes.now) }
        ensures err { OnErr result (self.old.room < length bytes.now) }
        ensures kept { OnErr result (self.new.items ≡ self.old.items) }
        ensures bounded { IsBounded self.old self.new }
    {
        let length = self.text.as_slice().len() + bytes.len();
        if self.refuses(bytes.len(), length > self.text_most) {
            return Err(AllocError);
        }
        self.text.extend_from_slice(bytes)
    }

    /// Gives out bytes of text, for which there is room.
    pub fn give_reserved(&mut self, bytes: &[u8])
        requires { length bytes.now ≤ self.old.room }
        ensures given { self.new.items ≡ self.old.items ++ map Text bytes.now }
        ensures bounded { IsBounded self.old self.new }
    {
        if self.text.extend_from_slice(bytes).is_err() {
            unreachable!()
        }
    }

    /// Gives out a status line, or with no room for it nothing.
    pub fn give_status(&mut self, status: Status) -> Result<(), AllocError>
        ensures ok { OnOk result (self.new.items ≡ self.old.items ++ Line status ∷ []) }
        ensures kept { OnErr result (self.new.items ≡ self.old.items) }
        ensures bounded { IsBounded self.old self.new }
    {
        let place = self.text.len();
        let size = size_of_line(&status);
        let left = self.text_most.saturating_sub(place);
        if self.refuses(size, size > left) {
            return Err(AllocError);
        }
        self.marks.push(Mark { place, status })?;
        self.text_most = self.text_most.saturating_sub(size);
        Ok(())
    }
}

/// What a status line counts.
fn size_of_line(status: &Status) -> usize
    ensures { result ≡ 64 + length status.now.name }
{
    LINE_SIZE + status.name.as_slice().len()
}

//! Which words of a set name places of texts that no play changes, and which objects have such short names.

ghost use Rattle.std.specs.Prelude.{◌↔◌, ◌+◌, ◌<◌, IsTrue};
ghost use Rattle.zruns.specs.Texts.{AreMarkedBlocks, IsLeastFrom, IsMarkedBlock};

use crate::blocks::{BLOCK_LENGTH, BLOCKS};
use crate::room::TextRoom;
use crate::text_marks::{MARK_BYTES, mark_texts};
use std::marker::Model;
use zcert::Range;
use zdomain::{Domain, Marks};
use zobj::{ShortName, short_name};
use zpairs::Marked;
use zstory::Story;
use zword::Addressing;

/// The texts of a story that no play changes, where the bytes in some ranges stay as they are. A mark for each place whether such a text
/// begins there is kept, and for 256 words side by side whether one begins at each place that they name, so that a question about many is
/// answered by blocks.
#[derive(Drop)]
pub struct Texts<'a> {
    story: &'a Story,
    ranges: &'a [Range],
    marks: &'a Marks<MARK_BYTES>,
    bytes: &'a [bool; BLOCKS],
    packed: &'a [bool; BLOCKS],
}

impl<'a> Model for Texts<'a> {
    ghost use Rattle.zpairs.specs.Frozen.{FrozenStory};

    ghost Value = { FrozenStory };

    ghost view = { λ p. record { story = p.story.now; ranges = p.ranges.now } };

    ghost use Rattle.zword.specs.declared.addressing.Addressing.TheVariants.{Byte, Packed};
    ghost use Rattle.zruns.specs.Texts.{AreMarkedBlocks, AreTextMarks};

    ghost invariant = { λ p. AreTextMarks (record { story = p.story.now; ranges = p.ranges.now }) p.marks.now × AreMarkedBlocks p.marks.now Byte p.bytes.now × AreMarkedBlocks p.marks.now Packed p.packed.now };
}

impl<'a> Texts<'a> {
    ghost use Rattle.std.specs.Prelude.{◌≡◌, ◌↔◌, ◌≤◌, ◌<◌, ◌+◌, ◌*◌, ◌/◌, IsTrue, ℕ};
    ghost use Rattle.zdomain.specs.Domain.{In};
    ghost use Rattle.zpairs.specs.Frozen.{frozen_by};
    ghost use Rattle.zword.specs.Addressing.{place_of};
    ghost use Rattle.zruns.specs.Names.{AreFixedNames, EachObject, HasFixedName};
    ghost use Rattle.zruns.specs.Texts.{AreFixedTexts, HasFixedText};

    /// Those of a story, of which the bytes in some ranges stay as they are, by its marks, in a room. Memory is gone over once, and the words
    /// that name its places twice.
    pub(crate) fn new(
        story: &'a Story,
        ranges: &'a [Range],
        marked: Marked<'_>,
        room: &'a mut TextRoom,
    ) -> Texts<'a>
        requires story { marked.story.now ≡ story.now }
        requires ranges { marked.ranges.now ≡ ranges.now }
        ensures { result ≡ record { story = story.now; ranges = ranges.now } }
    {
        mark_texts(&mut room.marks, marked);
        mark_blocks(&mut room.bytes, &room.marks, Addressing::Byte);
        mark_blocks(&mut room.packed, &room.marks, Addressing::Packed);
        Texts {
            story,
            ranges,
            marks: &room.marks,
            bytes: &room.bytes,
            packed: &room.packed,
        }
    }

    /// Whether at the place that each word of a set names a text begins that is whole in memory, and of which no play changes a byte. The
    /// set is gone over from its least word on, by as many words as are known to name such places.
    pub fn are_fixed<V: Domain>(&self, addressing: Addressing, places: V) -> bool
        ensures { IsTrue result ↔ AreFixedTexts V.operations self.now.story (frozen_by self.now.ranges) addressing places }
    {
        let mut least = places.least_from(0);
        while let Some(word) = least {
            let run = self.run(addressing, word);
            if run == 0 {
                return false;
            }
            least = least_behind(places, word, run);
        }
        true
    }

    /// Whether such a text begins at a place.
    fn is_fixed(&self, place: usize) -> bool
        ensures { IsTrue result ↔ HasFixedText self.now.story (frozen_by self.now.ranges) place }
    {
        self.marks.has(place)
    }

    /// Whether the short name of an object is empty, or such a text.
    #[tactic(auto, using(crate::proofs::Named::entry_there, crate::proofs::Named::name_near))]
    pub(crate) fn is_name_fixed(&self, object: u8) -> bool
        requires least { 1 ≤ object }
        requires most { object ≤ self.now.story.objects }
        ensures { IsTrue result ↔ HasFixedName self.now.story (frozen_by self.now.ranges) object }
    {
        match short_name(self.story.memory(), object) {
            ShortName::Empty => true,
            ShortName::At(place) => self.is_fixed(place),
            ShortName::Outside => false,
        }
    }

    /// Whether that of each object of the story is.
    pub(crate) fn are_names_fixed(&self) -> bool
        ensures { IsTrue result ↔ EachObject self.now.story (HasFixedName self.now.story (frozen_by self.now.ranges)) }
    {
        for below in 0..self.story.objects() {
            if !self.is_name_fixed(below + 1) {
                return false;
            }
        }
        true
    }

    /// Whether that of each object of a set is, if the story has it.
    pub(crate) fn are_named_fixed<V: Domain>(&self, objects: V) -> bool
        ensures { IsTrue result ↔ AreFixedNames V.operations self.now.story (frozen_by self.now.ranges) objects }
    {
        for below in 0..self.story.objects() {
            if !self.is_named_fixed(below + 1, objects) {
                return false;
            }
        }
        true
    }

    /// Whether that of an object is, if a set has it.
    fn is_named_fixed<V: Domain>(&self, object: u8, objects: V) -> bool
        requires least { 1 ≤ object }
        requires most { object ≤ self.now.story.objects }
        ensures { IsTrue result ↔ (In V.operations objects object → HasFixedName self.now.story (frozen_by self.now.ranges) object) }
    {
        if objects.contains(u16::from(object)) {
            self.is_name_fixed(object)
        } else {
            true
        }
    }

    /// For how many words from one on such a text begins at the place that each names, by what is known: those of a block, or one.
    fn run(&self, addressing: Addressing, word: u16) -> u16
        ensures each { (k : ℕ) → k < result → HasFixedText self.now.story (frozen_by self.now.ranges) (place_of addressing (word + k)) }
        ensures none { result ≡ 0 → HasFixedText self.now.story (frozen_by self.now.ranges) (place_of addressing word) → ⊥ }
    {
        if usize::from(word) % BLOCK_LENGTH == 0 && self.names_texts(addressing, word) {
            return BLOCK_LENGTH as u16;
        }
        if self.is_fixed(addressing.place(word)) {
            1
        } else {
            0
        }
    }

    /// Whether such a text begins at each place that a word of its block names.
    fn names_texts(&self, addressing: Addressing, word: u16) -> bool
        ensures { IsTrue result ↔ ((k : ℕ) → k < 256 → HasFixedText self.now.story (frozen_by self.now.ranges) (place_of addressing (256 * (word / 256) + k))) }
    {
        let block = usize::from(word) / BLOCK_LENGTH;
        match addressing {
            Addressing::Byte => self.bytes[block],
            Addressing::Packed => self.packed[block],
        }
    }
}

/// The least word of a set that lies so far above a word, or farther.
fn least_behind<V: Domain>(set: V, word: u16, more: u16) -> Option<u16>
    ensures { IsLeastFrom V.operations set (word + more) result }
{
    set.least_from(word.checked_add(more)?)
}

/// Tells of all blocks whether the place that each word of the block names is marked.
fn mark_blocks(blocks: &mut [bool; BLOCKS], marks: &Marks<MARK_BYTES>, addressing: Addressing)
    ensures { AreMarkedBlocks marks.now addressing blocks.new }
{
    for block in 0..BLOCKS {
        blocks[block] = is_marked_block(marks, addressing, block);
    }
}

/// Whether that of each word of one block is.
fn is_marked_block(marks: &Marks<MARK_BYTES>, addressing: Addressing, block: usize) -> bool
    requires { block < 256 }
    ensures { IsTrue result ↔ IsMarkedBlock marks.now addressing block }
{
    for place in 0..BLOCK_LENGTH {
        let word = (BLOCK_LENGTH * block + place) as u16;
        if !marks.has(addressing.place(word)) {
            return false;
        }
    }
    true
}

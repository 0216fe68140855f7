//! Routines that begin at packed addresses side by side, of which rules are asked at once.

ghost use Rattle.std.specs.Prelude.{◌≡◌, ◌*◌, ◌+◌, ◌/◌, ◌≤◌, ℕ, IfOk, IfSome, IsTrue, Some, length, slice_get};
ghost use Rattle.zstory.specs.LoadedStory.{LoadedStory};
ghost use Rattle.zrule.specs.Blocks.{AreBlocks, AreInTurn, EachBegins, EachGives, IsBlock};
ghost use Rattle.zrule.specs.Claims.{Claims, claims_of};
ghost use Rattle.zrule.specs.Rules.{result_at};
ghost use Rattle.zstate.specs.Step.{unpacked};

use crate::arguments::Arguments;
use crate::callees::{begins, result_of};
use crate::choosing::tried_set;
use crate::wanted::Wanted;
use std::alloc::{AllocError, Global};
use std::marker::Model;
use zcert::{Certificate, Spelled};
use zdomain::Domain;
use zstory::Story;

/// How many packed addresses a block has, and how many blocks there are: each packed address lies in one.
const BLOCK_LENGTH: u16 = 64;

const BLOCKS: u16 = 1024;

/// The same of wide blocks.
const WIDE_LENGTH: u16 = 4096;

const WIDE_BLOCKS: u16 = 16;

/// What is known of the routines that begin at the packed addresses of a block.
#[derive(Clone, Copy)]
pub struct Block<V> {
    /// A set that has whatever they give.
    pub gives: V,
    /// Arguments with which one begins at each address, where such are known: none, one, two and three of them.
    pub zero: Option<Arguments<V>>,
    pub one: Option<Arguments<V>>,
    pub two: Option<Arguments<V>>,
    pub three: Option<Arguments<V>>,
}

impl<V: Domain> Block<V> {
    ghost use Rattle.std.specs.Prelude.{ℕ, IfSome, IsTrue};
    ghost use Rattle.zstory.specs.LoadedStory.{LoadedStory};
    ghost use Rattle.zstate.specs.Step.{unpacked};
    ghost use Rattle.zrule.specs.Blocks.{EachBegins, InBlock, IsAsWanted, IsBlock};
    ghost use Rattle.zrule.specs.Claims.{Claims};

    /// Arguments with which a routine is known to begin at each address, as many as these, if there are some.
    fn widest(&self, arguments: Arguments<V>) -> Option<Arguments<V>>
        ensures { (claims : Claims V) (story : LoadedStory) (count base : ℕ) → IsBlock V.operations claims story count base self.now → IfSome result (EachBegins V.operations claims story count base) }
    {
        match arguments {
            Arguments::Zero => self.zero,
            Arguments::One(_) => self.one,
            Arguments::Two(_, _) => self.two,
            Arguments::Three(_, _, _) => self.three,
        }
    }

    /// Whether a routine is known to begin at each address with these arguments.
    fn begins_with(&self, arguments: Arguments<V>) -> bool
        ensures { (claims : Claims V) (story : LoadedStory) (count base : ℕ) → IsTrue result → IsBlock V.operations claims story count base self.now → EachBegins V.operations claims story count base arguments }
    {
        match self.widest(arguments) {
            Some(wide) => arguments.are_within(wide),
            None => false,
        }
    }

    /// Whether the routine at each address is known to be as it is wanted to be.
    pub(crate) fn is_as_wanted(&self, wanted: Wanted<V>) -> bool
        ensures { (claims : Claims V) (story : LoadedStory) (count base : ℕ) → IsTrue result → IsBlock V.operations claims story count base self.now → InBlock count base (λ x. IsAsWanted V.operations claims story wanted (unpacked x)) }
    {
        match wanted {
            Wanted::Begin(arguments) => self.begins_with(arguments),
            Wanted::Give(set) => self.gives.is_within(set),
        }
    }
}

/// What is known of all routines of a certificate, block by block, and once more by wide blocks (own). Contracts see both in their
/// order.
#[derive(Drop)]
pub struct Blocks<V> {
    blocks: Vec<Block<V>>,
    wide: Vec<Block<V>>,
}

impl<V> Model for Blocks<V> {
    ghost use Rattle.std.specs.Prelude.{List};
    ghost use Rattle.zrule.specs.declared.blocks.Block.{Block};

    ghost Value = { List (Block V) × List (Block V) };

    ghost view = { λ b. (b.blocks.items, b.wide.items) };
}

impl<V: Spelled> Blocks<V> {
    /// What is known of the routines of a certificate for a story. `AllocError` where memory is refused.
    pub fn new(
        alloc: Global,
        story: &Story,
        certificate: &Certificate<V>,
    ) -> Result<Blocks<V>, AllocError>
        ensures told { IfOk result (λ blocks. AreBlocks V.operations (claims_of V.operations certificate.now) story.now blocks) }
        ensures all { IfOk result (λ blocks. length blocks.0 ≡ 1024 × length blocks.1 ≡ 16) }
    {
        let mut room = V::room();
        let blocks = in_turn(alloc, story, certificate, BLOCK_LENGTH, BLOCKS, &mut room)?;
        let wide = in_turn(
            alloc,
            story,
            certificate,
            WIDE_LENGTH,
            WIDE_BLOCKS,
            &mut room,
        )?;
        Ok(Blocks { blocks, wide })
    }

    /// The block that begins at a packed address, if one does.
    pub(crate) fn beginning_at(&self, packed: u16) -> Option<Block<V>>
        ensures { IfSome result (λ block. slice_get self.now.0 (packed / 64) ≡ Some block × (packed ≡ 64 * (packed / 64))) }
    {
        if packed % BLOCK_LENGTH != 0 {
            return None;
        }
        self.blocks.get(usize::from(packed / BLOCK_LENGTH)).copied()
    }

    /// The wide block that begins there, if one does.
    pub(crate) fn wide_at(&self, packed: u16) -> Option<Block<V>>
        ensures { IfSome result (λ block. slice_get self.now.1 (packed / 4096) ≡ Some block × (packed ≡ 4096 * (packed / 4096))) }
    {
        if packed % WIDE_LENGTH != 0 {
            return None;
        }
        self.wide.get(usize::from(packed / WIDE_LENGTH)).copied()
    }
}

/// What is known of so many blocks of `count` packed addresses each, from address 0 on. The sets of one instruction at a time may be
/// made in the room.
fn in_turn<V: Spelled>(
    alloc: Global,
    story: &Story,
    certificate: &Certificate<V>,
    count: u16,
    blocks: u16,
    room: &mut V::Room,
) -> Result<Vec<Block<V>>, AllocError>
    requires few { count * blocks ≤ 65536 }
    requires some { 1 ≤ count }
    ensures told { IfOk result (λ made. AreInTurn V.operations (claims_of V.operations certificate.now) story.now count made.items) }
    ensures all { IfOk result (λ made. length made.items ≡ blocks) }
{
    let mut made = Vec::with_capacity(alloc, usize::from(blocks))?;
    for number in 0..blocks {
        made.push(block_from(story, certificate, count, count * number, room))?;
    }
    Ok(made)
}

/// What is known of the routines of the block of so many packed addresses from one on.
fn block_from<V: Spelled>(
    story: &Story,
    certificate: &Certificate<V>,
    count: u16,
    base: u16,
    room: &mut V::Room,
) -> Block<V>
    requires few { base + count ≤ 65536 }
    requires some { 1 ≤ count }
    ensures { IsBlock V.operations (claims_of V.operations certificate.now) story.now count base result }
{
    if certificate.routine_index(2 * u32::from(base)).is_none() {
        return nothing_known();
    }
    let first = tried_set(story, certificate, count, base, 0, room);
    let second = tried_set(story, certificate, count, base, 1, room);
    let third = tried_set(story, certificate, count, base, 2, room);
    let one = Arguments::One(first);
    let two = Arguments::Two(first, second);
    let three = Arguments::Three(first, second, third);
    Block {
        gives: given_by_each(certificate, count, base),
        zero: if_each_begins(story, certificate, count, base, Arguments::Zero, room),
        one: if_each_begins(story, certificate, count, base, one, room),
        two: if_each_begins(story, certificate, count, base, two, room),
        three: if_each_begins(story, certificate, count, base, three, room),
    }
}

/// A block of which nothing is known.
fn nothing_known<V: Domain>() -> Block<V>
    ensures { (claims : Claims V) (story : LoadedStory) (count base : ℕ) → IsBlock V.operations claims story count base result }
{
    Block {
        gives: V::any(),
        zero: None,
        one: None,
        two: None,
        three: None,
    }
}

/// A set that has whatever the routines of a block give: any word, where none begins at one of its addresses.
fn given_by_each<V: Spelled>(certificate: &Certificate<V>, count: u16, base: u16) -> V
    requires few { base + count ≤ 65536 }
    requires some { 1 ≤ count }
    ensures { EachGives V.operations (claims_of V.operations certificate.now) count base result }
{
    let Some(mut gives) = given_at(certificate, base) else {
        return V::any();
    };
    for offset in 1..count {
        let Some(given) = given_at(certificate, base + offset) else {
            return V::any();
        };
        gives = gives.join(given);
    }
    gives
}

/// The values that the routine at a packed address may give, if one begins there.
fn given_at<V: Spelled>(certificate: &Certificate<V>, packed: u16) -> Option<V>
    ensures { IfSome result (λ given. given ≡ result_at V.operations (claims_of V.operations certificate.now) (unpacked packed)) }
{
    match certificate.routine_index(2 * u32::from(packed)) {
        Some(index) => Some(result_of(certificate, index)),
        None => None,
    }
}

/// Arguments, where a routine begins with them at each address of a block.
fn if_each_begins<V: Spelled>(
    story: &Story,
    certificate: &Certificate<V>,
    count: u16,
    base: u16,
    arguments: Arguments<V>,
    room: &mut V::Room,
) -> Option<Arguments<V>>
    requires { base + count ≤ 65536 }
    ensures { IfSome result (EachBegins V.operations (claims_of V.operations certificate.now) story.now count base) }
{
    for offset in 0..count {
        if !begins(story, certificate, arguments, base + offset, room) {
            return None;
        }
    }
    Some(arguments)
}

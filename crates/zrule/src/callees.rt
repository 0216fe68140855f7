//! What rules ask of each routine that an instruction may call.

ghost use Rattle.std.specs.Prelude.{◌≡◌, ◌↔◌, ◌*◌, ◌+◌, ◌≤◌, ℕ, IfNone, IfSome, IsTrue, MatchOption, Some, [], reverse, slice_get, suc};
ghost use Rattle.zstory.specs.Bytes.{byte_at, word_at};
ghost use Rattle.zdomain.specs.Domain.{In, Within};
ghost use Rattle.zstate.specs.Step.{unpacked, words_from};
ghost use Rattle.zrule.specs.Blocks.{AreBlocks, InBlock, IsAsWanted, sets_of};
ghost use Rattle.zrule.specs.Claims.{Claims, claims_of};
ghost use Rattle.zrule.specs.Edges.{IsNextAbove};
ghost use Rattle.zrule.specs.Rules.{Begins, EachCallee, Starts, result_at};

use crate::arguments::Arguments;
use crate::facts::hold_anyway;
use crate::site::Site;
use crate::wanted::Wanted;
use zcert::{Certificate, Instruction, Spelled};
use zdomain::Domain;
use zstory::Story;

/// Whether the routine at each packed address of the set, other than 0, is as it is wanted to be. The sets that each begins with may
/// be made in the room.
pub(crate) fn callees_are<V: Spelled>(
    site: Site<'_, V>,
    set: V,
    wanted: Wanted<V>,
    room: &mut V::Room,
) -> bool
    requires { IfSome site.blocks (λ b. AreBlocks V.operations (claims_of V.operations site.certificate.now) site.story.now b.now) }
    ensures { IsTrue result ↔ EachCallee V.operations (claims_of V.operations site.entry.certificate.now) set (IsAsWanted V.operations (claims_of V.operations site.entry.certificate.now) site.entry.story.now wanted) }
{
    let mut callee = next_above(set, 0);
    while let Some(word) = callee {
        let Some(last) = wanted_to(site, word, wanted, room) else {
            return false;
        };
        callee = next_above(set, last);
    }
    true
}

/// The least word of a set above a word.
pub(crate) fn next_above<V: Spelled>(set: V, word: u16) -> Option<u16>
    ensures { IsNextAbove V.operations set word result }
{
    set.least_from(word.checked_add(1)?)
}

/// The last packed address up to which the routine at each from one on is known to be as it is wanted to be: that of the block that
/// begins there, the wide one first, where that is known of the whole block, and else the address itself. `None` where that isn't so.
fn wanted_to<V: Spelled>(
    site: Site<'_, V>,
    packed: u16,
    wanted: Wanted<V>,
    room: &mut V::Room,
) -> Option<u16>
    requires { IfSome site.blocks (λ b. AreBlocks V.operations (claims_of V.operations site.certificate.now) site.story.now b.now) }
    ensures kept { IfSome result (λ last. (packed ≤ last) × ((x : ℕ) → packed ≤ x → x ≤ last → IsAsWanted V.operations (claims_of V.operations site.entry.certificate.now) site.entry.story.now wanted (unpacked x))) }
    ensures broken { IfNone result (IsAsWanted V.operations (claims_of V.operations site.entry.certificate.now) site.entry.story.now wanted (unpacked packed) → ⊥) }
{
    if is_wide_wanted(site, packed, wanted) {
        return Some(packed + 4095);
    }
    if is_block_wanted(site, packed, wanted) {
        return Some(packed + 63);
    }
    if callee_is(site, packed, wanted, room) {
        return Some(packed);
    }
    None
}

/// Whether a wide block begins at a packed address of which each routine is as it is wanted to be.
fn is_wide_wanted<V: Spelled>(site: Site<'_, V>, packed: u16, wanted: Wanted<V>) -> bool
    requires { IfSome site.blocks (λ b. AreBlocks V.operations (claims_of V.operations site.certificate.now) site.story.now b.now) }
    ensures room { IsTrue result → packed ≤ 61440 }
    ensures kept { IsTrue result → InBlock 4096 packed (λ x. IsAsWanted V.operations (claims_of V.operations site.entry.certificate.now) site.entry.story.now wanted (unpacked x)) }
{
    match site.wide_block_at(packed) {
        Some(block) => block.is_as_wanted(wanted),
        None => false,
    }
}

/// Whether a block does.
fn is_block_wanted<V: Spelled>(site: Site<'_, V>, packed: u16, wanted: Wanted<V>) -> bool
    requires { IfSome site.blocks (λ b. AreBlocks V.operations (claims_of V.operations site.certificate.now) site.story.now b.now) }
    ensures room { IsTrue result → packed ≤ 65472 }
    ensures kept { IsTrue result → InBlock 64 packed (λ x. IsAsWanted V.operations (claims_of V.operations site.entry.certificate.now) site.entry.story.now wanted (unpacked x)) }
{
    match site.block_at(packed) {
        Some(block) => block.is_as_wanted(wanted),
        None => false,
    }
}

/// Whether the routine at a packed address is as it is wanted to be.
fn callee_is<V: Spelled>(
    site: Site<'_, V>,
    packed: u16,
    wanted: Wanted<V>,
    room: &mut V::Room,
) -> bool
    ensures { IsTrue result ↔ IsAsWanted V.operations (claims_of V.operations site.entry.certificate.now) site.entry.story.now wanted (unpacked packed) }
{
    match wanted {
        Wanted::Begin(arguments) => begins(site.story, site.certificate, arguments, packed, room),
        Wanted::Give(set) => { result_at(site.certificate, 2 * u32::from(packed)).is_within(set) }
    }
}

/// The values that the routine at a place may give: any, where none begins there.
fn result_at<V: Spelled>(certificate: &Certificate<V>, place: u32) -> V
    ensures { result ≡ result_at V.operations (claims_of V.operations certificate.now) place }
{
    match certificate.routine_index(place) {
        Some(index) => result_of(certificate, index),
        None => V::any(),
    }
}

/// The values that a routine may give, by its index: any, where there is none of the index.
pub(crate) fn result_of<V: Spelled>(certificate: &Certificate<V>, index: usize) -> V
    ensures { result ≡ (claims_of V.operations certificate.now).result (index + 1) }
{
    match certificate.routines().get(index) {
        Some(listed) => listed.result,
        None => V::any(),
    }
}

/// Whether a routine begins at a packed address, with these arguments. The sets that it begins with may be made in the room.
pub(crate) fn begins<V: Spelled>(
    story: &Story,
    certificate: &Certificate<V>,
    arguments: Arguments<V>,
    packed: u16,
    room: &mut V::Room,
) -> bool
    ensures { IsTrue result ↔ Begins V.operations (claims_of V.operations certificate.now) story.now (sets_of arguments) (unpacked packed) }
{
    let place = 2 * u32::from(packed);
    begins_at(story, certificate, arguments, place, room)
}

/// Whether a routine begins at a place, with these arguments.
fn begins_at<V: Spelled>(
    story: &Story,
    certificate: &Certificate<V>,
    arguments: Arguments<V>,
    place: u32,
    room: &mut V::Room,
) -> bool
    requires { place ≤ 131070 }
    ensures { IsTrue result ↔ Begins V.operations (claims_of V.operations certificate.now) story.now (sets_of arguments) place }
{
    let memory = story.memory();
    let at = place as usize;
    let count = byte_at(memory, at);
    let Some(index) = certificate.routine_index(place) else {
        return false;
    };
    let code = place + 1 + 2 * u32::from(count);
    let Some(first) = certificate.instruction_at(code, room) else {
        return false;
    };
    if !opens(&first, index) {
        return false;
    }
    starts(memory, arguments, at + 1, count, first.locals) && hold_anyway(certificate, code)
}

/// Whether an instruction is listed in the routine of an index, with an empty stack.
fn opens<V: Spelled>(first: &Instruction<'_, V>, index: usize) -> bool
    ensures { IsTrue result ↔ ((first.now.routine ≡ suc index) × (reverse first.now.slots.now ≡ [])) }
{
    match usize::from(first.routine).checked_sub(1) {
        Some(before) if before == index => first.slots.is_empty(),
        _ => false,
    }
}

/// Whether the locals that a routine begins with lie in the sets stated: the arguments, and behind them initial words, of which so many
/// stand from a place on, one for each local.
fn starts<V: Spelled>(
    memory: &[u8],
    arguments: Arguments<V>,
    at: usize,
    count: u8,
    locals: &[V],
) -> bool
    requires { at + 2 * count ≤ 1000000 }
    ensures { (claims : Claims V) → IsTrue result ↔ Starts V.operations claims (sets_of arguments) (words_from memory.now at count) locals.now }
{
    let [local, locals @ ..] = locals else {
        return count == 0;
    };
    if count == 0 {
        return false;
    }
    has_first(memory, arguments, at, *local)
        && starts(memory, arguments.rest(), at + 2, count - 1, locals)
}

/// Whether what a local first has lies in the set stated: the first argument, or the initial word at a place, where none is supplied
/// (Z 6.4.4).
fn has_first<V: Spelled>(memory: &[u8], arguments: Arguments<V>, at: usize, local: V) -> bool
    requires { at ≤ 1000000 }
    ensures { IsTrue result ↔ MatchOption (slice_get (sets_of arguments) 0) (In V.operations local (word_at memory.now at)) (λ a. Within V.operations a local) }
{
    match arguments.first() {
        Some(argument) => argument.is_within(local),
        None => local.contains(word_at(memory, at)),
    }
}

/// The word at a place, of which bytes outside memory are 0.
fn word_at(memory: &[u8], at: usize) -> u16
    requires { at ≤ 1000000 }
    ensures { result ≡ word_at memory.now at }
{
    u16::from_be_bytes([byte_at(memory, at), byte_at(memory, at + 1)])
}

/// The byte at a place, 0 outside memory.
pub(crate) fn byte_at(memory: &[u8], at: usize) -> u8
    ensures { result ≡ byte_at memory.now at }
{
    match memory.get(at) {
        Some(byte) => *byte,
        None => 0,
    }
}

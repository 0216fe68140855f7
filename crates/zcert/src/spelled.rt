//! What a kind of sets has to offer, so that certificates can hold them.

ghost use Rattle.std.specs.Prelude.{◌≡◌, ◌≢◌, ◌<◌, ◌≤◌, ◌++◌, [], length, IfErr, IfOk, IfSome, None, Ok, Err, OnOk, OnErr};
ghost use Rattle.zcert.specs.Format.{Format, version_of};
ghost use Rattle.zcert.specs.FormatLaw.{IsFormat};
ghost use Rattle.zcert.specs.Keeping.{Keeping, Holds, AreKept};
ghost use Rattle.zcert.specs.Turns.{Turns, AreTurns};

use crate::edition::Edition;
use crate::error::CertError;
use crate::limits::{FACT_VERSION, LIMIT_VERSION, MARK_VERSION};
use std::alloc::AllocError;
use zdomain::Domain;

/// Sets of words that a version of the format can write, or four: one in which certificates name no limit of frames, one in which they
/// do, one in which they may mark instructions besides, and one in which they may state facts on globals too.
///
/// Contracts see the format alone, so that what is proved of certificates holds for each kind of sets. A set is read number by number:
/// what has come of it is kept as a value of the kind's own, so that a reader keeps few bytes wherever a file is cut.
pub trait Spelled: Domain {
    /// What has come of a set that isn't whole.
    type Partial: Drop;

    /// What a list of sets is kept in: one cell a set, or as many as it asks for.
    type Cell: Copy + Drop;

    /// Room for the sets of one instruction, where they have to be made of cells.
    type Room: Drop;

    /// How its versions write sets.
    ghost format: { Format Self };

    /// The bytes by which an unfinished set came, and how many its next number takes.
    ghost turns: { Turns Self.Partial };

    /// The cells of a set, and the sets in cells.
    ghost keeping: { Keeping Self Self.Cell };

    /// The version of certificates that name no limit of frames.
    fn version() -> u8
        ensures { result ≡ format.version };

    /// Whether there are three for those that do.
    fn limited() -> bool
        ensures { result ≡ format.limited };

    /// A set of which nothing has come.
    fn unbegun() -> Self::Partial
        ensures { turns.came result ≡ [] };

    /// How many bytes the next number of a set takes: eight at most.
    fn awaited(partial: &Self::Partial) -> usize
        ensures value { result ≡ turns.awaited partial.now }
        ensures some { 0 < result }
        ensures few { result ≤ 8 };

    /// Reads the next number of a set from all of its bytes. With its last number the set is whole, and nothing of another has come. A
    /// set is refused for the first of its numbers that is wrong.
    fn read_next(partial: &mut Self::Partial, number: &[u8]) -> Result<Option<Self>, CertError>
        requires { length number.now ≡ turns.awaited partial.old }
        ensures more { result ≡ Ok None → turns.came partial.new ≡ turns.came partial.old ++ number.now }
        ensures whole { IfOk result (λ found. IfSome found (λ set. (format.value_at (turns.came partial.old ++ number.now) ≡ Ok (set, [])) × (turns.came partial.new ≡ []))) }
        ensures refused { IfErr result (λ e. (format.value_at (turns.came partial.old ++ number.now) ≡ Err e) × (e ≢ CertError.Truncated)) };

    /// Reads further numbers of an unfinished set at the front of bytes, as many as it likes but for the last, and answers what it leaves.
    /// None of them is wrong.
    fn read_more<'a>(partial: &mut Self::Partial, bytes: &'a [u8]) -> &'a [u8]
        ensures came { turns.came partial.new ++ result.now ≡ turns.came partial.old ++ bytes.now }
        ensures fits { length result.now ≤ length bytes.now }
        ensures unbegun { turns.came partial.old ≡ [] → turns.came partial.new ≡ [] };

    /// How many bytes the set takes.
    fn length(self) -> usize
        ensures { result ≡ length (format.spelled self) };

    /// Writes the set behind the bytes that are there.
    fn write_to(self, out: &mut Vec<u8>) -> Result<(), AllocError>
        ensures { OnOk result (out.new.items ≡ out.old.items ++ format.spelled self) };

    /// Keeps the set behind those that are kept.
    fn keep(self, kept: &mut Vec<Self::Cell>) -> Result<(), AllocError>
        ensures kept { OnOk result (kept.new.items ≡ kept.old.items ++ keeping.cells self) }
        ensures err { OnErr result (kept.new.items ≡ kept.old.items) };

    /// Room that nothing was made in.
    fn room() -> Self::Room;

    /// So many sets from the front of those that are kept: lent, or made in the room.
    fn sets<'a>(kept: &'a [Self::Cell], count: usize, room: &'a mut Self::Room) -> &'a [Self]
        requires few { count ≤ 79 }
        requires kept { Holds format keeping count kept.now }
        ensures { result.now ≡ keeping.sets count kept.now };

    /// How many bytes sets take that are kept.
    fn kept_length(kept: &[Self::Cell]) -> usize;

    /// Each set has a spelling.
    fn has_spelling(self)
        ensures { format.Has self };

    /// The law: what is read is spelled so, and what is spelled is read again.
    ghost is_format: { IsFormat format };

    /// And without all bytes of its next number a set is cut off.
    ghost are_turns: { AreTurns format turns };

    /// Sets are found as they were kept.
    ghost are_kept: { AreKept format keeping };
}

/// The version of an edition.
pub(crate) fn version_of<V: Spelled>(edition: Edition) -> u8
    ensures { result ≡ version_of V.format edition }
{
    match edition {
        Edition::Plain => V::version(),
        Edition::Limited => LIMIT_VERSION,
        Edition::Marking => MARK_VERSION,
        Edition::Stating => FACT_VERSION,
    }
}

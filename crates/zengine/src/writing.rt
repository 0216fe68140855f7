//! Which bytes of memory an instruction may write.

ghost use Rattle.std.specs.Prelude.{◌≡◌, ◌+◌, ◌≤◌, ◌&&◌, nat_le, nat_lt, IsTrue};
ghost use Rattle.zstory.specs.LoadedStory.{LoadedStory, static_base};
ghost use Rattle.zstate.specs.Step.{are_writable};

/// The length of the header (Z 11).
const HEADER_LENGTH: usize = 64;

/// Where in the header Flags 2 stand, the two bytes of it that a story may write (Z 11.1).
const FLAGS_2: usize = 16;

/// Whether so many bytes from a place on may be written, where dynamic memory ends there: in it without the header, but for Flags 2
/// (Z 1.1.1.1).
#[inline(always)]
#[tactic(auto, using(crate::proofs::Writable::header_writable, crate::proofs::Writable::behind_writable))]
pub(crate) fn are_writable(place: usize, count: u16, fixed: usize) -> bool
    requires near { place ≤ 65536 }
    requires some { 1 ≤ count }
    requires header { 64 ≤ fixed }
    ensures value { (story : LoadedStory) → fixed ≡ static_base story → result ≡ are_writable story place count }
    ensures below { IsTrue result → place + count ≤ fixed }
{
    let end = place + usize::from(count);
    if is_in_header(place) {
        return is_in_flags_2(place, end);
    }
    is_dynamic(end, fixed)
}

/// Whether a place lies in the header.
#[inline(always)]
fn is_in_header(place: usize) -> bool
    ensures { result ≡ nat_lt place 64 }
{
    place < HEADER_LENGTH
}

/// Whether what ends there lies below the base of static memory.
#[inline(always)]
fn is_dynamic(end: usize, base: usize) -> bool
    ensures { result ≡ nat_le end base }
{
    end <= base
}

/// Whether what runs from a place up to an end lies in Flags 2.
#[inline(always)]
fn is_in_flags_2(place: usize, end: usize) -> bool
    ensures { result ≡ (nat_le 16 place && nat_le end 18) }
{
    FLAGS_2 <= place && end <= FLAGS_2 + 2
}

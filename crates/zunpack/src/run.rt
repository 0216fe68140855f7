//! A run of compressed memory.

ghost use Rattle.std.specs.Prelude.{◌≡◌, ◌<◌, ◌≤◌, IfSome, length};
ghost use Rattle.zunpack.specs.Packing.{run_differences};
ghost use Rattle.zunpack.specs.View.{GivesSome, run_at, seen_run};

/// What stands for some bytes of memory (Q 3).
#[derive(Clone, Copy)]
pub(crate) enum Run {
    /// One byte, which differs from the story's by so much, and not by 0.
    Changed(u8),
    /// One byte more than so many, which are the story's.
    Same(u8),
}

impl Run {
    /// For how many bytes it stands, 1 to 256.
    pub(crate) fn length(self) -> usize
        ensures value { result ≡ length (run_differences (seen_run self)) }
        ensures few { result ≤ 256 }
    {
        match self {
            Run::Changed(_) => 1,
            Run::Same(more) => usize::from(more) + 1,
        }
    }
}

/// The run at the front of the bytes, and what follows it. There is none where there are no bytes, or a 0 without its count.
pub(crate) fn run_of(packed: &[u8]) -> Option<(Run, &[u8])>
    ensures value { GivesSome (λ x. (seen_run x.0, x.1.now)) result (run_at packed.now) }
    ensures shorter { IfSome result (λ x. length x.1.now < length packed.now) }
{
    if packed.is_empty() {
        return None;
    }
    if packed[0] != 0 {
        return Some((Run::Changed(packed[0]), &packed[1..]));
    }
    if packed.len() < 2 {
        return None;
    }
    Some((Run::Same(packed[1]), &packed[2..]))
}

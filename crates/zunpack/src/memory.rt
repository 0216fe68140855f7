//! Memory that is unpacked.

ghost use Rattle.std.specs.Prelude.{◌≡◌, ◌<◌, ◌≤◌, ◌+◌, ◌++◌, ℕ, List, Ok, length, IfErr, OnOk};
ghost use Rattle.std.specs.Vec.{vec_len, vec_capacity};
ghost use Rattle.zunpack.specs.Packing.{changed, run_differences, unpacked};
ghost use Rattle.zunpack.specs.View.{Measures, seen_run, told};

use crate::error::UnpackError;
use crate::run::{Run, run_of};
use crate::writing::put;

/// For how many bytes compressed memory stands.
fn measured(packed: &[u8]) -> Result<usize, UnpackError>
    requires { length packed.now < 4294967296 }
    ensures { Measures result packed.now }
{
    let mut total = 0;
    let mut rest = packed;
    while !rest.is_empty() {
        let Some((run, after)) = run_of(rest) else {
            return Err(UnpackError::Unfinished);
        };
        total += run.length();
        rest = after;
    }
    Ok(total)
}

/// Whether compressed memory is one of a story with this dynamic memory.
pub(crate) fn check_memory(dynamic: &[u8], packed: &[u8]) -> Result<(), UnpackError>
    requires { length packed.now < 4294967296 }
    ensures ok { OnOk result (unpacked dynamic.now packed.now ≡ Ok (changed dynamic.now (told packed.now))) }
    ensures fits { OnOk result (length (told packed.now) ≤ length dynamic.now) }
    ensures err { IfErr result (λ e. unpacked dynamic.now packed.now ≡ Err e) }
{
    if measured(packed)? > dynamic.len() {
        return Err(UnpackError::TooLong);
    }
    Ok(())
}

/// Writes the bytes for which a run stands, of which the first is the first of `story`, and answers what is left of that.
fn put_run<'a>(out: &mut Vec<u8>, story: &'a [u8], run: Run) -> &'a [u8]
    requires room { vec_len out.old + length story.now ≤ vec_capacity out.old }
    requires fits { length (run_differences (seen_run run)) ≤ length story.now }
    ensures items { (ds : List ℕ) → out.new.items ++ changed result.now ds ≡ out.old.items ++ changed story.now (run_differences (seen_run run) ++ ds) }
    ensures len { vec_len out.new + length result.now ≡ vec_len out.old + length story.now }
    ensures left { length result.now + length (run_differences (seen_run run)) ≡ length story.now }
    ensures room { vec_capacity out.old ≤ vec_capacity out.new }
{
    match run {
        Run::Changed(difference) => {
            put(out, &[story[0] ^ difference]);
            &story[1..]
        }
        Run::Same(more) => {
            let (same, left) = story.split_at(usize::from(more) + 1);
            put(out, same);
            left
        }
    }
}

/// Writes the memory that compressed memory stands for.
pub(crate) fn put_memory(out: &mut Vec<u8>, dynamic: &[u8], packed: &[u8])
    requires room { vec_len out.old + length dynamic.now ≤ vec_capacity out.old }
    requires fits { length (told packed.now) ≤ length dynamic.now }
    ensures items { out.new.items ≡ out.old.items ++ changed dynamic.now (told packed.now) }
    ensures len { vec_len out.new ≡ vec_len out.old + length dynamic.now }
    ensures room { vec_capacity out.old ≤ vec_capacity out.new }
{
    let mut story = dynamic;
    let mut rest = packed;
    while let Some((run, after)) = run_of(rest) {
        story = put_run(out, story, run);
        rest = after;
    }
    put(out, story);
}

//! The program `zpc`: lists, checks and plays Z-machine version 3 stories.
#![tactic(auto)]

ghost use Rattle.std.specs.Prelude.{◌≡◌, ◌≤◌, IfOk, IsTrue, map, string_bytes};
ghost use Rattle.clap.specs.Walk.{texts};

mod asking;
mod front;
mod keeping;
mod manual;
mod seed;
mod sources;
mod terminal;

use crate::asking::{asked_by, may_be_headed, put_frames, put_save, save_beside};
use crate::front::carry_out;
use crate::manual::{is_manual_asked, tell_manual};
use crate::seed::{draw, put_seed, random_in, say_seed};
use crate::terminal::moves_cursor;
use std::alloc::{AllocError, Global};
use std::env;
use std::io::{ErrorKind, IsTerminal};
use std::process::ExitCode;
use zfault::{Sink, ToWrite};
use zperform::{Failure, fail, refuse_bytes};

/// How many bytes of the stack are taken at once: more than any command was seen to need.
const STACK: usize = 448 * 1024;

fn main(rt: HostRuntime) -> ExitCode {
    ExitCode::from(run(&rt))
}

/// Hands over the words, the files and the streams of the process, and answers the exit status.
fn run(rt: &HostRuntime) -> u8 {
    let mut errors = ToWrite::new(rt.stderr());
    let arguments = match env::args(rt) {
        Ok(arguments) => arguments,
        Err(error) if error.kind() == ErrorKind::InvalidData => {
            return refuse_bytes(&mut errors);
        }
        Err(_) => return fail(Failure::Memory, &mut errors),
    };
    let mut arguments = match arguments.skip(1).collect::<Vec<String>>(rt.alloc()) {
        Ok(arguments) => arguments,
        Err(_) => return fail(Failure::Memory, &mut errors),
    };
    if !is_free(rt.alloc(), STACK) || !has_stack::<STACK>(arguments.len()) {
        return fail(Failure::Memory, &mut errors);
    }
    if is_manual_asked(&arguments) {
        return tell_manual(&mut ToWrite::new(rt.stdout()), &mut errors);
    }
    let seed = match drawn(rt, &mut arguments) {
        Ok(seed) => seed,
        Err(failure) => return fail(failure, &mut errors),
    };
    if with_save(rt, &mut arguments).is_err() || with_frames(rt, &mut arguments).is_err() {
        return fail(Failure::Memory, &mut errors);
    }
    with_words(rt, &arguments, seed, &mut errors)
}

/// Draws the seed of a play where that is asked for, and puts it among the arguments.
fn drawn(rt: &HostRuntime, arguments: &mut Vec<String>) -> Result<Option<u64>, Failure> {
    let Some(random) = random_in(arguments) else {
        return Ok(None);
    };
    let Ok(seed) = draw(rt) else {
        return Err(Failure::Read);
    };
    match put_seed(rt.alloc(), arguments, random, seed) {
        Ok(()) => Ok(Some(seed)),
        Err(AllocError) => Err(Failure::Memory),
    }
}

/// Names the file for the saves of a play among the arguments, where lines are typed and none is named.
fn with_save(rt: &HostRuntime, arguments: &mut Vec<String>) -> Result<(), AllocError> {
    if !rt.stdin().is_terminal() {
        return Ok(());
    }
    let words = words_of(rt.alloc(), arguments)?;
    let name = save_beside(rt.alloc(), &words)?;
    drop(words);
    match name {
        Some(name) => put_save(rt.alloc(), arguments, name),
        None => Ok(()),
    }
}

/// Asks for the status lines of a play among the arguments, where one can stand at the top of a terminal.
fn with_frames(rt: &HostRuntime, arguments: &mut Vec<String>) -> Result<(), AllocError> {
    if !moves_cursor(rt) {
        return Ok(());
    }
    let words = words_of(rt.alloc(), arguments)?;
    let is_headed = may_be_headed(rt.alloc(), &words)?;
    drop(words);
    if is_headed {
        put_frames(rt.alloc(), arguments)
    } else {
        Ok(())
    }
}

/// Does what the arguments ask for, of which a seed was drawn where there is one. What it takes of the stack isn't taken before that was looked at.
#[inline(never)]
fn with_words<E: Sink>(
    rt: &HostRuntime,
    arguments: &[String],
    seed: Option<u64>,
    errors: &mut E,
) -> u8 {
    let Ok(words) = words_of(rt.alloc(), arguments) else {
        return fail(Failure::Memory, errors);
    };
    let Ok(asked) = asked_by(rt.alloc(), &words) else {
        return fail(Failure::Memory, errors);
    };
    if let (Some(seed), Some(_)) = (seed, asked) {
        say_seed(seed, errors);
    }
    carry_out(rt, &words, asked, errors)
}

/// Whether so many bytes can be had. They are given back at once, and the stack may take them.
fn is_free(alloc: Global, count: usize) -> bool {
    Vec::<u8>::with_capacity(alloc, count).is_ok()
}

/// Whether there are N bytes of the stack. A system that can't lengthen a program's stack ends it, with no word. So it's made as long as
/// it may come to be before memory is held that would leave none for it, and all that is refused later is told. By the number no compiler
/// knows beforehand what is read.
#[inline(never)]
#[tactic(auto, using(crate::proofs::Stack::is_zero))]
fn has_stack<const N: usize>(number: usize) -> bool
    requires { 2 ≤ N }
    ensures { IsTrue result }
{
    let mut stack = [0u8; N];
    let place = number % N;
    stack[place] = 1;
    let other = if place == 0 { 1 } else { 0 };
    stack[other] == 0
}

/// The arguments as words, one for each.
fn words_of<'a>(alloc: Global, arguments: &'a [String]) -> Result<Vec<&'a str>, AllocError>
    ensures { IfOk result (λ words. texts words.items ≡ map string_bytes arguments.entry.now) }
{
    let mut words = Vec::with_capacity(alloc, arguments.len())?;
    for argument in arguments {
        words.push(argument.as_str())?;
    }
    Ok(words)
}

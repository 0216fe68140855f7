//! A seed that is drawn from the system: `--seed random`.

use itoa::Buffer;
use std::alloc::{AllocError, Global};
use std::io;
use std::random::RandomSource;
use zfault::{Sink, write_whole};

/// The option, what stands in the place of its number, and both as one word.
const OPTION: &str = "--seed";

const RANDOM: &str = "random";

const OPTION_RANDOM: &str = "--seed=random";

/// Where a seed is to be drawn.
#[derive(Clone, Copy)]
pub enum Random {
    /// By the word `random` at this place, behind the option.
    Behind(usize),
    /// By the one word at this place.
    Alone(usize),
}

/// Where a seed is to be drawn, if it is.
pub fn random_in(arguments: &[String]) -> Option<Random> {
    let mut is_behind = false;
    for (at, argument) in arguments.iter().enumerate() {
        let word = argument.as_str();
        if word == OPTION_RANDOM {
            return Some(Random::Alone(at));
        }
        if is_behind && word == RANDOM {
            return Some(Random::Behind(at));
        }
        is_behind = word == OPTION;
    }
    None
}

/// A seed that the system draws.
pub fn draw(rt: &HostRuntime) -> io::Result<u64> {
    let mut bytes = [0; 8];
    rt.fill_bytes(&mut bytes)?;
    Ok(u64::from_le_bytes(bytes))
}

/// Puts a seed where one was to be drawn. Want of memory is the only error, and changes nothing.
pub fn put_seed(
    alloc: Global,
    arguments: &mut Vec<String>,
    random: Random,
    seed: u64,
) -> Result<(), AllocError> {
    let mut digits = Buffer::new();
    let digits = digits.format(seed);
    let mut text = String::new(alloc);
    let at = match random {
        Random::Behind(at) => at,
        Random::Alone(at) => {
            text.push_str(OPTION)?;
            text.push('=')?;
            at
        }
    };
    text.push_str(digits)?;
    if let Some(word) = arguments.get_mut(at) {
        *word = text;
    }
    Ok(())
}

/// Tells the seed on a line, of which a failure is ignored.
pub fn say_seed<E: Sink>(seed: u64, errors: &mut E) {
    let mut digits = Buffer::new();
    let digits = digits.format(seed);
    for piece in ["seed: ", digits, "\n"] {
        if write_whole(errors, piece.as_bytes()).is_err() {
            return;
        }
    }
    let _ = errors.flush();
}

//! Playing in pieces, from the opening to where the story stops. Each piece that is refused memory says where it left the
//! machine, and the next goes on from there.

use crate::machine::Machine;
use crate::outside::{LINE, Page, ROOM, World};
use std::alloc::AllocError;
use std::{io, str};
use zfault::{Items, Pause};
use zplayer::{End, PlayError};
use zscreen::{StatusLines, render};
use zstate::Stop;

/// More pieces than any of these plays needs, with one that is refused.
pub const MOST: u32 = 50;

/// More steps than any of these stories makes.
const ALL: u32 = 5000;

/// A way of calling a machine.
#[derive(Clone, Copy)]
pub enum Way {
    /// A call for each step.
    Steps,
    /// One call for all steps.
    Whole,
    /// Two steps at a time, with the same devices.
    Pieces,
    /// As many steps as there are.
    Play,
    /// Two steps at a time, with a reader that gives more than a line: what was read ahead is lost.
    Ahead,
    /// As many steps as there are, and a flush that fails behind so many others.
    Blocked(u8),
}

/// Plays in this way.
pub fn go<M: Machine>(rt: &HostRuntime, machine: &mut M, way: Way) -> io::Result<()> {
    match way {
        Way::Steps => step(rt, machine),
        Way::Whole => run(rt, machine),
        Way::Pieces => play(rt, machine, 2, World::new(LINE), Page::new()),
        Way::Play => play(rt, machine, ALL, World::new(LINE), Page::new()),
        Way::Ahead => play(rt, machine, 2, World::new(ROOM), Page::new()),
        Way::Blocked(after) => play(
            rt,
            machine,
            ALL,
            World::new(LINE),
            Page::blocked_after(after),
        ),
    }
}

/// Steps one by one, and says where each leads.
fn step<M: Machine>(rt: &HostRuntime, machine: &mut M) -> io::Result<()> {
    let mut items = Items::new(rt.alloc());
    say(rt, "opening", machine, &Page::new())?;
    let mut left = MOST;
    // One that is refused is no step.
    for _ in 0..=MOST {
        if left == 0 {
            return Ok(());
        }
        let ran = machine.run(1, &mut items);
        let page = Page::of(&items);
        match ran {
            Ok(Stop::Paused(Pause::Budget)) => {
                say(rt, "step", machine, &page)?;
                left = left.saturating_sub(1);
            }
            Ok(stop) => return end(rt, "step", machine, &page, End::from(stop)),
            Err(_) => say(rt, "refused: step", machine, &page)?,
        }
    }
    Ok(())
}

/// Makes all steps at once.
fn run<M: Machine>(rt: &HostRuntime, machine: &mut M) -> io::Result<()> {
    let mut items = Items::new(rt.alloc());
    let mut left = MOST;
    for _ in 0..MOST {
        let ran = machine.run_down(&mut left, &mut items);
        let page = Page::of(&items);
        match ran {
            Ok(stop) => {
                println!(rt; "run, with {left} left")?;
                show(rt, &items)?;
                return end(rt, "run", machine, &page, End::from(stop));
            }
            Err(_) => say(rt, "refused: run", machine, &page)?,
        }
    }
    Ok(())
}

/// Plays so many steps at a time, again and again with the same devices.
fn play<M: Machine>(
    rt: &HostRuntime,
    machine: &mut M,
    budget: u32,
    mut world: World,
    mut page: Page,
) -> io::Result<()> {
    for _ in 0..MOST {
        match machine.play(rt.alloc(), &mut world, &mut page, budget) {
            Ok(End::Budget) => {}
            Ok(stop) => return end(rt, "play", machine, &page, stop),
            Err(PlayError::OutOfMemory) => say(rt, "refused: play", machine, &page)?,
            Err(error) => println!(rt; "{error}")?,
        }
    }
    Ok(())
}

/// Renders what was given out.
fn show(rt: &HostRuntime, items: &Items) -> io::Result<()> {
    let bytes = match render(rt.alloc(), items, StatusLines::Bracketed) {
        Ok(bytes) => bytes,
        Err(AllocError) => {
            println!(rt; "refused: render")?;
            render(rt.alloc(), items, StatusLines::Bracketed)?
        }
    };
    let text = str::from_utf8(&bytes).unwrap_or("no text");
    println!(rt; "rendered {text}")
}

/// Says where the machine stands, and what it has given out.
pub fn say<M: Machine>(rt: &HostRuntime, what: &str, machine: &M, page: &Page) -> io::Result<()> {
    let place = machine.place();
    let sum = sum(machine.memory());
    let text = str::from_utf8(page.bytes()).unwrap_or("no text");
    println!(rt; "{what} at {place}, memory {sum}, gave {text}")
}

/// Says how playing ended, and where.
fn end<M: Machine>(
    rt: &HostRuntime,
    what: &str,
    machine: &M,
    page: &Page,
    end: End,
) -> io::Result<()> {
    say(rt, what, machine, page)?;
    println!(rt; "{what} ends: {end:?}")
}

/// The sum of the bytes, modulo 65,536.
pub fn sum(bytes: &[u8]) -> u16 {
    bytes
        .iter()
        .fold(0, |sum: u16, byte| sum.wrapping_add(u16::from(*byte)))
}

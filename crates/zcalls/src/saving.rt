//! A save, and play that goes on from it.

use crate::machine::Machine;
use crate::outside::Page;
use crate::pieces::{MOST, say};
use crate::single::tell;
use std::alloc::AllocError;
use std::io;
use zfault::Items;
use zplay::Session;
use zquetzal::{SaveError, write};

/// Goes to a `save`, tells the story that it was kept, and goes on from it at the `restore` behind it. A story without them stays.
pub fn save_and_restore<M: Machine>(rt: &HostRuntime, machine: &mut M) -> io::Result<()> {
    let Some(save) = saved(rt, machine)? else {
        return Ok(());
    };
    tell(rt, "saved", &save)?;
    machine.tell_kept();
    go_on(rt, machine)?;
    say(rt, "awaits", machine, &Page::new())?;
    restore(rt, machine, &save)?;
    say(rt, "restored", machine, &Page::new())
}

/// What is saved at the first pause.
fn saved<M: Machine>(rt: &HostRuntime, machine: &mut M) -> io::Result<Option<Vec<u8>>> {
    go_on(rt, machine)?;
    match machine.save(rt.alloc()) {
        Ok(save) => Ok(save),
        Err(AllocError) => {
            println!(rt; "refused: save")?;
            Ok(machine.save(rt.alloc())?)
        }
    }
}

/// Goes on to the next pause.
fn go_on<M: Machine>(rt: &HostRuntime, machine: &mut M) -> io::Result<()> {
    let mut items = Items::new(rt.alloc());
    for _ in 0..2 {
        if machine.run(MOST, &mut items).is_ok() {
            return Ok(());
        }
        println!(rt; "refused: run")?;
    }
    Ok(())
}

/// Goes on from a save.
fn restore<M: Machine>(rt: &HostRuntime, machine: &mut M, save: &[u8]) -> io::Result<()> {
    if let Some(Err(SaveError::OutOfMemory)) = machine.restore(rt.alloc(), save) {
        say(rt, "refused: restore", machine, &Page::new())?;
        let _ = machine.restore(rt.alloc(), save);
    }
    Ok(())
}

/// Writes what a save of a session would tell.
pub fn write_parts(rt: &HostRuntime, session: &Session<'_>) -> io::Result<()> {
    let parts = session.parts();
    let bytes = match write(rt.alloc(), &parts) {
        Ok(bytes) => bytes,
        Err(AllocError) => {
            println!(rt; "refused: parts")?;
            write(rt.alloc(), &parts)?
        }
    };
    tell(rt, "parts", &bytes)
}

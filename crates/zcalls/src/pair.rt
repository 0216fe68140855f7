//! Both machines over the same steps, with all that can be told of their states compared behind each.

use crate::pieces::sum;
use std::alloc::{AllocError, Global};
use std::{fs, io};
use zcert::Spelled;
use zcheck::Accepted;
use zfault::{Event, Items, Need, Pause};
use zplay::Session;
use zquetzal::{FrameParts, SaveError, SaveParts};
use zref::{CheckedMachine, Scope};
use zstate::Stop;

/// How many steps are compared.
const STEPS: u32 = 1000;

/// Plays a story on both, from its opening, or from each of the saves.
pub fn compare<V: Spelled>(
    rt: &HostRuntime,
    accepted: &Accepted<V>,
    saves: &[String],
) -> io::Result<()> {
    if saves.is_empty() {
        return tell(rt, &mut Pair::open(rt.alloc(), accepted)?);
    }
    for name in saves {
        let save = fs::read(rt, name)?;
        restore(rt, Pair::open(rt.alloc(), accepted)?, &save)?;
    }
    Ok(())
}

/// Says how a save is answered by each, 0 where play goes on from it, and where it does so on both, how.
fn restore<V: Spelled>(rt: &HostRuntime, mut pair: Pair<'_, V>, save: &[u8]) -> io::Result<()> {
    pair.go_to_restore(rt.alloc())?;
    let session = pair.session_restores(save);
    let checked = pair.machine_restores(rt.alloc(), save);
    println!(rt; "{session} {checked}")?;
    if session == 0 && checked == 0 {
        tell(rt, &mut pair)?;
    }
    Ok(())
}

/// Says how both go on.
fn tell<V: Spelled>(rt: &HostRuntime, pair: &mut Pair<'_, V>) -> io::Result<()> {
    let stop = pair.play(rt.alloc())?;
    let (place, sum) = (pair.session.place(), sum(pair.session.memory()));
    match stop {
        Some(pause) => println!(rt; "alike: {pause:?} at {place}, memory {sum}"),
        None => println!(rt; "not alike at {place}, memory {sum}"),
    }
}

/// A session, and a checked machine that may play anywhere, of the same story.
#[derive(Drop)]
struct Pair<'a, V: Spelled> {
    session: Session<'a, V>,
    machine: CheckedMachine<'a>,
}

impl<'a, V: Spelled> Pair<'a, V> {
    /// Both at the opening.
    fn open(alloc: Global, accepted: &'a Accepted<V>) -> Result<Pair<'a, V>, AllocError> {
        Ok(Pair {
            session: Session::start(alloc, accepted)?,
            machine: CheckedMachine::new(alloc, accepted.story(), Scope::All)?,
        })
    }

    /// Plays to the first pause, and where a save is awaited to the next, as if it was kept.
    fn go_to_restore(&mut self, alloc: Global) -> Result<(), AllocError> {
        self.play(alloc)?;
        if let Some(Need::Saved) = self.session.awaits() {
            self.session.give(Event::Saved(true));
            self.machine.give(Event::Saved(true));
        }
        self.play(alloc)?;
        Ok(())
    }

    /// The number of the session's answer.
    fn session_restores(&mut self, save: &[u8]) -> u8 {
        match self.session.awaits() {
            Some(Need::Restore) => number(self.session.restore(save)),
            _ => u8::MAX,
        }
    }

    /// The number of the checked machine's answer.
    fn machine_restores(&mut self, alloc: Global, save: &[u8]) -> u8 {
        match self.machine.awaits() {
            Some(Need::Restore) => number(self.machine.restore(alloc, save)),
            _ => u8::MAX,
        }
    }

    /// Makes steps on both, one by one, to the first pause. Answers nothing where they differ, but for where the session has as many frames
    /// as it may: the other machine may have more.
    fn play(&mut self, alloc: Global) -> Result<Option<Pause>, AllocError> {
        let (mut here, mut there) = (Items::new(alloc), Items::new(alloc));
        for _ in 0..STEPS {
            here.clear();
            there.clear();
            let pause = self.session.run(1, &mut here)?;
            let stop = self.machine.run(1, &mut there)?;
            if pause == Pause::FrameLimit && stop == Stop::Paused(Pause::Budget) {
                return Ok(Some(pause));
            }
            if stop != Stop::Paused(pause) || !are_alike(&here, &there) || !self.is_alike() {
                return Ok(None);
            }
            if pause != Pause::Budget {
                return Ok(Some(pause));
            }
        }
        Ok(Some(Pause::Budget))
    }

    /// Whether both are in the same state. The frames below the newest two were compared when they were these, and so they are when
    /// play comes back to them.
    fn is_alike(&self) -> bool {
        self.session.place() == self.machine.place()
            && self.session.memory() == self.machine.memory()
            && self.session.awaits() == self.machine.awaits()
            && self.session.random() == self.machine.random()
            && self.are_frames_alike()
    }

    /// Whether both are at a place in memory, with as many frames, of which the newest two are the same.
    fn are_frames_alike(&self) -> bool {
        let place = self.machine.place();
        if place < 0 || place as usize >= self.machine.memory().len() {
            return false;
        }
        let here = self.session.parts();
        let there = self.machine.parts();
        let count = here.frame_count();
        if count != there.frame_count() {
            return false;
        }
        for number in count.saturating_sub(2)..count {
            if !is_frame(here.frame(number), there.frame(number)) {
                return false;
            }
        }
        true
    }
}

/// The number behind the `Q` of a refusal, 0 where there is none.
fn number(answer: Result<(), SaveError>) -> u8 {
    match answer {
        Ok(()) => 0,
        Err(error) => error.number(),
    }
}

/// Whether the same was given out.
fn are_alike(here: &Items, there: &Items) -> bool {
    here.text() == there.text()
        && here.marks().len() == there.marks().len()
        && here.marks().iter().zip(there.marks()).all(|(one, other)| one.place == other.place
            && one.status == other.status)
}

/// Whether they are the same frame.
fn is_frame(one: FrameParts<'_>, other: FrameParts<'_>) -> bool {
    one.return_place == other.return_place
        && one.result == other.result
        && one.supplied == other.supplied
        && one.locals == other.locals
        && one.stack == other.stack
}

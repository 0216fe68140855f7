//! The walk over a story's code, which finds what is known of each place.

ghost use Rattle.std.specs.Prelude.{IfErr};
ghost use Rattle.zfind.specs.Finding.{IsLess, IsStopped};

use crate::bytes::{Bytes, Span};
use crate::code::{Code, short};
use crate::effects::{
    Calls, Effect, Effects, Naming, WORDS, callee_count, has, has_all, is_awaited, is_stuck,
    next_callee,
};
use crate::error::FindError;
use crate::frame::Frame;
use crate::groups::Groups;
use crate::kind::Kind;
use crate::looking::{Known, Seen, followed_by, look};
use crate::numbered::{is_marked, mark};
use crate::opened::Opened;
use crate::openings::open_written;
use crate::queue::Queue;
use crate::state::{Plan, State};
use crate::visits::{Allowance, count_more, count_visit, count_work};
use crate::watch::Watch;
use std::alloc::{AllocError, Global};
use zruns::{Room, Tables};

/// How often routines that never return are told from those that wait for them, so that each walk ends soon.
const MOST_ENDINGS: u16 = 64;

/// For how much work the check of a routine that a call may name counts.
const COST_OF_CALLEE: u32 = 16;

/// A walk: what is known so far, and which instructions are to be visited since that grew.
#[derive(Drop)]
pub(crate) struct Walk<'a, V: Kind> {
    alloc: Global,
    code: &'a Code<'a>,
    pub(crate) plan: Plan<V>,
    pub(crate) state: State<V>,
    pub(crate) bytes: Bytes,
    queue: Queue,
    /// Where each instruction looked for values that bytes make known which stay as they are.
    reaches: Vec<Option<Span>>,
    /// Whether each looked where bytes were opened since the tables were made.
    outdated: Vec<bool>,
    /// The rank of each routine, by its number: those that are found later are followed first.
    ranks: Vec<u32>,
    /// How many were found.
    found: u32,
    /// How often each instruction was visited, where those come first that were visited least.
    visits: Option<Vec<u32>>,
    /// What each instruction called when it was visited last.
    calls: Vec<Option<Calls<V::Kept>>>,
    /// How much work it was to go over its operands.
    pairs: Vec<u16>,
    /// What was called last.
    last: Option<Calls<V>>,
    /// Whether a routine is called at each packed address that isn't listed yet, once there is one.
    wanted: Vec<bool>,
    /// Whether there is one.
    waits: bool,
    /// How often it was said of routines what they give that never return.
    endings: u16,
    /// How much was done that isn't counted yet.
    work: u32,
    /// Whether nothing is visited, so that it isn't noted what is to be.
    is_still: bool,
}

impl<'a, V: Kind> Walk<'a, V> {
    /// A walk that is at the first instruction.
    pub(crate) fn new(
        alloc: Global,
        code: &'a Code<'a>,
        plan: Plan<V>,
    ) -> Result<Walk<'a, V>, AllocError> {
        let count = code.records().len();
        let mut walk = Walk {
            alloc,
            code,
            plan,
            state: State::new(alloc, code)?,
            bytes: Bytes::new(alloc, code.story)?,
            queue: Queue::new(alloc, count)?,
            reaches: vec![in alloc; None; count]?,
            outdated: vec![in alloc; false; count]?,
            ranks: vec![in alloc; 0; code.routines().len().saturating_add(1)]?,
            found: 0,
            visits: None,
            calls: vec![in alloc; None; count]?,
            pairs: vec![in alloc; 0; count]?,
            last: None,
            wanted: Vec::new(alloc),
            waits: false,
            endings: 0,
            work: 0,
            is_still: false,
        };
        if let Some(first) = code.first() {
            walk.join(first, 0, &Frame::empty(alloc), false)?;
        }
        Ok(walk)
    }

    /// One that widens nothing, and doesn't go on behind a call of a routine that never returns. Those instructions come first that were
    /// visited least.
    pub(crate) fn fair(alloc: Global, code: &'a Code<'a>) -> Result<Walk<'a, V>, AllocError> {
        let mut walk = Walk::new(alloc, code, Plan::joining(alloc))?;
        walk.visits = Some(vec![in alloc; 0; code.records().len()]?);
        Ok(walk)
    }

    /// One that takes what is found, and visits nothing.
    pub(crate) fn still(alloc: Global, code: &'a Code<'a>) -> Result<Walk<'a, V>, AllocError> {
        let mut walk = Walk::new(alloc, code, Plan::joining(alloc))?;
        walk.is_still = true;
        Ok(walk)
    }

    /// What is known.
    pub(crate) fn into_state(self) -> State<V> {
        self.state
    }

    /// How sets grow, with the thresholds that were learned.
    pub(crate) fn into_plan(self) -> Plan<V> {
        self.plan
    }

    /// Whether a routine is to be listed before more is found.
    pub(crate) fn is_wanting(&self) -> bool {
        self.waits
    }

    /// Whether a routine is to be listed at each packed address, if one is.
    pub(crate) fn into_wanted(self) -> Option<Vec<bool>> {
        self.waits.then_some(self.wanted)
    }

    /// Walks until nothing more is found, as far as is allowed. What looks where bytes were opened is visited once more when nothing else
    /// is left. Tables are made once, and say what they say but for what was opened since. A function of its own, since they lie on the stack.
    #[inline(never)]
    pub(crate) fn grow<W: Watch>(
        &mut self,
        left: &mut Allowance,
        watch: &W,
    ) -> Result<(), FindError>
        ensures less { IsLess left.new left.old }
        ensures stopped { IfErr result (IsStopped left.new) }
    {
        let ranges = self.bytes.ranges(self.alloc)?;
        let mut room = Room::new();
        let tables = Tables::new(self.code.story, &ranges, &mut room);
        let mut opened = Opened::new(self.alloc);
        self.run_rounds(&tables, &mut opened, left, watch)
    }

    /// Walks by rounds: the first visit of each is made here, and the others by `run`.
    fn run_rounds<W: Watch>(
        &mut self,
        tables: &Tables<'_>,
        opened: &mut Opened,
        left: &mut Allowance,
        watch: &W,
    ) -> Result<(), FindError>
        ensures less { IsLess left.new left.old }
        ensures stopped { IfErr result (IsStopped left.new) }
    {
        while let Some(index) = self.queue.next() {
            count_visit(left, watch)?;
            self.queue.remove_next();
            self.note_opened(opened)?;
            let known = Known {
                tables: &*tables,
                opened: &*opened,
            };
            self.visit(known, index, left)?;
            self.run(known, left, watch)?;
            self.wake_more()?;
        }
        Ok(())
    }

    /// Visits instructions until none is left.
    fn run<W: Watch>(
        &mut self,
        known: Known<'_, '_, '_>,
        left: &mut Allowance,
        watch: &W,
    ) -> Result<(), FindError>
        ensures less { IsLess left.new left.old }
        ensures stopped { IfErr result (IsStopped left.new) }
    {
        while let Some(index) = self.queue.next() {
            count_visit(left, watch)?;
            self.queue.remove_next();
            self.visit(known, index, left)?;
        }
        Ok(())
    }

    /// Notes what was opened in the round before.
    fn note_opened(&mut self, opened: &mut Opened) -> Result<(), AllocError> {
        let passed = opened.note(self.alloc, self.code, &mut self.bytes)?;
        self.spend(passed);
        Ok(())
    }

    /// How much work it is to make a certificate of what is known, and to check it.
    pub(crate) fn cost_of_check(&self) -> u32 {
        let mut cost = self.state.size();
        for calls in &self.calls {
            cost = cost.saturating_add(self.cost_of_calls(calls));
        }
        for pairs in &self.pairs {
            cost = cost.saturating_add(u32::from(*pairs));
        }
        cost
    }

    /// How much work it is to check calls.
    fn cost_of_calls(&self, calls: &Option<Calls<V::Kept>>) -> u32 {
        match calls {
            Some(calls) => {
                callee_count(V::kept(calls.callees, self.state.shelf())).saturating_mul(
                    COST_OF_CALLEE,
                )
            }
            None => 0,
        }
    }

    /// Notes that so much was done.
    fn spend(&mut self, work: usize) {
        self.work = self.work.saturating_add(short(work));
    }

    /// How much was done since this was last asked: more than is ever left, where there was no room for a set.
    pub(crate) fn take_work(&mut self) -> u32 {
        let work = self.work;
        self.work = 0;
        if self.state.is_full() && !self.plan.is_hasty {
            u32::MAX
        } else {
            work
        }
    }

    /// Has those visited that were put off: what looked where bytes were opened, and, where there is none, what waits for a routine that
    /// never returns. Where a routine is to be listed yet, none is known to be such a one.
    fn wake_more(&mut self) -> Result<(), AllocError> {
        self.wake_outdated()?;
        match self.plan.unreturned {
            Some(given) if self.queue.is_empty() && !self.waits => self.end_routines(given),
            _ => Ok(()),
        }
    }

    /// Says of routines that never return what they give, since a certificate says something of that: of those that wait for no other,
    /// and of all where each does.
    fn end_routines(&mut self, given: V) -> Result<(), AllocError> {
        if !self.has_unreturned() {
            return Ok(());
        }
        self.endings = self.endings.saturating_add(1);
        self.spend(usize::from(self.routine_count()).saturating_mul(3));
        let waiting = self.waiting_routines()?;
        for below in 0..self.routine_count() {
            if !is_marked(&waiting, usize::from(below) + 1) {
                self.end_routine(below + 1, given)?;
            }
        }
        if !self.queue.is_empty() {
            return Ok(());
        }
        for below in 0..self.routine_count() {
            self.end_routine(below + 1, given)?;
        }
        Ok(())
    }

    /// How many routines are listed.
    fn routine_count(&self) -> u16 {
        self.code.routines().len().min(0xffff) as u16
    }

    /// Says what a routine gives, by its number, if it was entered and never returns.
    fn end_routine(&mut self, number: u16, given: V) -> Result<(), AllocError> {
        if self.is_unreturned(number) {
            self.give_back(number, given)?;
        }
        Ok(())
    }

    /// Whether each routine, by its number, waits for another that it calls. After many endings that is said of none.
    fn waiting_routines(&self) -> Result<Vec<bool>, AllocError> {
        let count = usize::from(self.routine_count()) + 1;
        let mut waiting = vec![in self.alloc; false; count]?;
        if self.endings > MOST_ENDINGS {
            return Ok(waiting);
        }
        for (index, calls) in self.calls.iter().enumerate() {
            if is_stuck(calls) {
                mark(&mut waiting, usize::from(self.state.routine_at(index)));
            }
        }
        Ok(waiting)
    }

    /// Whether a routine was entered, by its number, and never returned as far as is known.
    fn is_unreturned(&self, number: u16) -> bool {
        self.is_entered(number) && self.state.result(number).is_none()
    }

    /// Whether there is such a one.
    fn has_unreturned(&self) -> bool {
        for below in 0..self.routine_count() {
            if self.is_unreturned(below + 1) {
                return true;
            }
        }
        false
    }

    /// Whether it was said of a routine what it gives that never returns.
    pub(crate) fn has_ended_routines(&self) -> bool {
        self.endings > 0
    }

    /// Visits an instruction, and counts what that was.
    fn visit(
        &mut self,
        known: Known<'_, '_, '_>,
        index: usize,
        left: &mut Allowance,
    ) -> Result<(), FindError>
        ensures less { IsLess left.new left.old }
        ensures stopped { IfErr result (IsStopped left.new) }
    {
        let code = self.code;
        let Some(record) = code.records().get(index) else {
            return Ok(());
        };
        let before = self.calls_at(index);
        let Some(seen) = look(
            self.alloc,
            code,
            known,
            &self.state,
            record,
            index,
            before.as_ref(),
        )?
        else {
            return Ok(());
        };
        if self.visits.is_some() {
            if let Err(error) = count_more(left, followed_by(code, &seen.effects)) {
                self.wake(index)?;
                return Err(error);
            }
        }
        self.take_seen(index, &seen)?;
        count_work(left, self.take_work())
    }

    /// What an instruction called when it was visited last.
    pub(crate) fn calls_at(&self, index: usize) -> Option<Calls<V>> {
        let calls = self.calls.get(index)?.as_ref()?;
        Some(Calls::kept(calls, self.state.shelf()))
    }

    /// Does what is seen of an instruction.
    fn take_seen(&mut self, index: usize, seen: &Seen<V>) -> Result<(), AllocError> {
        let code = self.code;
        self.note_visit(index, seen.reach);
        self.note_pairs(index, seen.work);
        let passed = open_written(code, &mut self.bytes, &seen.demands);
        self.spend(passed);
        self.note_loaders();
        self.learn(seen.learned)?;
        let routine = self.state.routine_at(index);
        self.apply(index, routine, &seen.effects)
    }

    /// Notes where an instruction looked, and that it was visited once more.
    fn note_visit(&mut self, index: usize, reach: Option<Span>) {
        if let Some(noted) = self.reaches.get_mut(index) {
            *noted = reach;
        }
        if self.bytes.is_stale(reach) {
            self.put_off(index);
        }
        if let Some(visits) = &mut self.visits {
            if let Some(count) = visits.get_mut(index) {
                *count = count.saturating_add(1);
            }
        }
    }

    /// Notes how much work it was to go over the operands of an instruction.
    pub(crate) fn note_pairs(&mut self, index: usize, work: usize) {
        self.spend(work);
        if let Some(pairs) = self.pairs.get_mut(index) {
            *pairs = work.min(0xffff) as u16;
        }
    }

    /// Notes the words that something was compared with.
    fn learn(&mut self, learned: [Option<u16>; 2]) -> Result<(), AllocError> {
        for word in learned {
            if let Some(word) = word {
                self.plan.thresholds.add_around(word)?;
            }
        }
        Ok(())
    }

    /// Does what an instruction of a routine does.
    pub(crate) fn apply(
        &mut self,
        index: usize,
        routine: u16,
        effects: &Effects<V>,
    ) -> Result<(), AllocError> {
        if let Some(effect) = &effects.held {
            self.apply_effect(index, routine, effect)?;
        }
        if let Some(effect) = &effects.failed {
            self.apply_effect(index, routine, effect)?;
        }
        Ok(())
    }

    /// Does what comes on an edge.
    fn apply_effect(
        &mut self,
        index: usize,
        routine: u16,
        effect: &Effect<V>,
    ) -> Result<(), AllocError> {
        self.store(effect.assigned)?;
        self.store(effect.given)?;
        if let Some(set) = effect.returned {
            self.give_back(routine, set)?;
        }
        if let Some(calls) = &effect.calls {
            self.call(index, calls)?;
        }
        match effect.to {
            Some(to) => self.join(to, routine, &effect.frame, to <= index),
            None => Ok(()),
        }
    }

    /// Gives a global what is stored to it.
    fn store(&mut self, given: Option<(u8, V)>) -> Result<(), AllocError> {
        let Some((variable, set)) = given else {
            return Ok(());
        };
        let global = variable.saturating_sub(16);
        if self.state.join_global(&self.plan, usize::from(global), set) {
            self.wake_readers(u16::from(global))?;
            self.wake_namers()?;
        }
        Ok(())
    }

    /// Gives the callers of a routine what it returns.
    fn give_back(&mut self, routine: u16, set: V) -> Result<(), AllocError> {
        let may_widen = self.code.is_recursive(routine);
        if self.state.join_result(&self.plan, routine, set, may_widen)? {
            self.wake_callers(routine)?;
            self.wake_wandering_callers(routine)?;
        }
        Ok(())
    }

    /// Calls routines, but those that were called so before, here or by the last instruction that called.
    fn call(&mut self, index: usize, calls: &Calls<V>) -> Result<(), AllocError> {
        self.spend(calls.asked as usize);
        let before = self.calls_at(index);
        let here = calls.entered_by(self.code, before.as_ref());
        let last = calls.entered_by(self.code, self.last.as_ref());
        if !has_all(here, calls.callees) && !has_all(last, calls.callees) {
            if self.follows_listed(calls.naming) {
                self.enter_listed(calls, here, last)?;
            } else {
                self.enter_each(calls, here, last)?;
            }
        }
        let kept = calls.keep(self.state.shelf_mut())?;
        if let Some(noted) = self.calls.get_mut(index) {
            *noted = Some(kept);
        }
        self.last = Some(*calls);
        Ok(())
    }

    /// Enters each routine that is called, beside those of two sets, or has it listed; up to the first that isn't listed, where one can't
    /// be.
    fn enter_each(
        &mut self,
        calls: &Calls<V>,
        here: Option<V>,
        last: Option<V>,
    ) -> Result<(), AllocError> {
        let mut frame = Frame::empty(self.alloc);
        let mut callee = calls.callees.least_from(1);
        for _ in 0..WORDS {
            let Some(packed) = callee else {
                return Ok(());
            };
            self.spend(1);
            match self.code.routine_of(packed) {
                Some(_) if has(here, packed) || has(last, packed) => {}
                Some(number) => self.enter(number, calls, &mut frame)?,
                None if calls.naming == Naming::Listable => self.want(packed)?,
                None => return Ok(()),
            }
            callee = next_callee(calls.callees, packed);
        }
        Ok(())
    }

    /// Whether those alone are entered that are listed, where not all are: the call is to be marked.
    fn follows_listed(&self, naming: Naming) -> bool {
        match naming {
            Naming::Listed => false,
            Naming::Listable => self.code.marks() && !self.code.waits(),
            Naming::Headless => self.code.marks(),
        }
    }

    /// Enters each listed routine that is called, beside those of two sets.
    fn enter_listed(
        &mut self,
        calls: &Calls<V>,
        here: Option<V>,
        last: Option<V>,
    ) -> Result<(), AllocError> {
        let mut frame = Frame::empty(self.alloc);
        let count = self.routine_count();
        self.spend(usize::from(count));
        for below in 0..count {
            let packed = self.code.packed_of(below + 1);
            if calls.callees.contains(packed) && !has(here, packed) && !has(last, packed) {
                self.enter(below + 1, calls, &mut frame)?;
            }
        }
        Ok(())
    }

    /// Notes that the routine at a packed address is to be listed, where it is waited for that.
    fn want(&mut self, packed: u16) -> Result<(), AllocError> {
        if !self.code.waits() {
            return Ok(());
        }
        if !self.waits {
            self.wanted = vec![in self.alloc; false; WORDS]?;
            self.waits = true;
        }
        mark(&mut self.wanted, usize::from(packed));
        Ok(())
    }

    /// Enters a routine, by the frame that is put together for it.
    fn enter(
        &mut self,
        number: u16,
        calls: &Calls<V>,
        frame: &mut Frame<V>,
    ) -> Result<(), AllocError> {
        let Some(entry) = self.code.entry_of(number) else {
            return Ok(());
        };
        self.rank(number);
        frame.clear();
        for index in 0..self.code.local_count(number) {
            frame.push(match calls.argument(index) {
                Some(set) => set,
                None => V::single(self.code.initial(number, index)),
            })?;
        }
        frame.end_locals();
        self.join(entry, number, frame, self.code.is_recursive(number))
    }

    /// Gives a routine its rank, if it has none.
    fn rank(&mut self, number: u16) {
        if let Some(rank) = self.ranks.get_mut(usize::from(number)) {
            if *rank == 0 {
                self.found = self.found.saturating_add(1);
                *rank = self.found;
            }
        }
    }

    /// Whether a routine was entered, by its number.
    pub(crate) fn is_entered(&self, number: u16) -> bool {
        self.routine_rank(number) > 0
    }

    /// Says what is known on a way to a place by the code of a routine; the place is visited where that is news.
    fn join(
        &mut self,
        to: usize,
        routine: u16,
        frame: &Frame<V>,
        may_widen: bool,
    ) -> Result<(), AllocError> {
        self.spend(frame.sets().len().saturating_add(1));
        if self
            .state
            .join_place(&self.plan, to, routine, frame, may_widen)?
        {
            self.wake(to)?;
        }
        Ok(())
    }

    /// Whether an instruction is to be visited.
    pub(crate) fn is_waiting(&self, index: usize) -> bool {
        self.queue.has(index)
    }

    /// Whether an instruction calls a routine that is to be listed yet.
    pub(crate) fn waits_at(&self, index: usize) -> bool {
        match self.calls_at(index) {
            Some(calls) => calls.naming == Naming::Listable,
            None => false,
        }
    }

    /// Whether an instruction calls a routine of which nothing is known that it gives.
    pub(crate) fn awaits_at(&self, index: usize) -> bool {
        match self.calls_at(index) {
            Some(calls) => is_awaited(self.code, &self.state, calls.callees),
            None => false,
        }
    }

    /// Has a place visited, if it was reached.
    fn wake(&mut self, index: usize) -> Result<(), AllocError> {
        if self.state.is_reached(index) {
            let rank = self.rank_of(index);
            self.queue.push(short(index), rank)?;
        }
        Ok(())
    }

    /// The rank of an instruction.
    fn rank_of(&self, index: usize) -> u32 {
        match &self.visits {
            Some(visits) => u32::MAX - visits.get(index).copied().unwrap_or(0),
            None => self.routine_rank(self.state.routine_at(index)),
        }
    }

    /// That of a routine, by its number.
    fn routine_rank(&self, number: u16) -> u32 {
        self.ranks.get(usize::from(number)).copied().unwrap_or(0)
    }

    /// Has all visited that reads a global.
    fn wake_readers(&mut self, global: u16) -> Result<(), AllocError> {
        let code = self.code;
        self.wake_group(code.readers(), global)
    }

    /// Has all visited that calls a routine.
    fn wake_callers(&mut self, number: u16) -> Result<(), AllocError> {
        let code = self.code;
        self.wake_group(code.callers(), number)
    }

    /// Has all visited that depends on a thing of a number.
    fn wake_group(&mut self, groups: &Groups, number: u16) -> Result<(), AllocError> {
        if self.is_still {
            return Ok(());
        }
        let group = groups.of(number);
        self.spend(group.len());
        for (_, index) in group {
            self.wake(*index as usize)?;
        }
        Ok(())
    }

    /// Has all visited that names by a variable what it reads. In a walk that visits first what was visited least, what calls by a variable
    /// counts among that.
    fn wake_namers(&mut self) -> Result<(), AllocError> {
        let code = self.code;
        self.wake_each(code.wandering_namers())?;
        match self.visits {
            Some(_) => self.wake_each(code.wandering_callers()),
            None => Ok(()),
        }
    }

    /// Has all visited that calls by a variable the routine of a number, which may give more. In a walk that visits first what was visited
    /// least, it is said of all that names by a variable what it calls or reads.
    fn wake_wandering_callers(&mut self, number: u16) -> Result<(), AllocError> {
        if self.visits.is_some() {
            return self.wake_namers();
        }
        if self.is_still {
            return Ok(());
        }
        let code = self.code;
        let packed = code.packed_of(number);
        self.spend(code.wandering_callers().len());
        for index in code.wandering_callers() {
            if self.may_be_given(*index as usize, packed) {
                self.wake(*index as usize)?;
            }
        }
        Ok(())
    }

    /// Whether an instruction called the routine at a packed address, and may be given more than was known.
    fn may_be_given(&self, index: usize, packed: u16) -> bool {
        match self.calls.get(index) {
            Some(Some(calls)) => Calls::<V>::awaits(calls, self.state.shelf(), packed),
            _ => false,
        }
    }

    /// Has these visited.
    fn wake_each(&mut self, indices: &[u32]) -> Result<(), AllocError> {
        if self.is_still {
            return Ok(());
        }
        self.spend(indices.len());
        for index in indices {
            self.wake(*index as usize)?;
        }
        Ok(())
    }

    /// Puts off what looked where bytes were opened now.
    fn note_loaders(&mut self) {
        let Some(fresh) = self.bytes.take_fresh() else {
            return;
        };
        let code = self.code;
        self.spend(code.loaders().len());
        for index in code.loaders() {
            if self.looked_at(*index as usize, fresh) {
                self.put_off(*index as usize);
            }
        }
    }

    /// Puts off an instruction until nothing else is left.
    fn put_off(&mut self, index: usize) {
        if let Some(mark) = self.outdated.get_mut(index) {
            *mark = true;
        }
    }

    /// Has all visited that looked where bytes were opened since the tables were made.
    fn wake_outdated(&mut self) -> Result<(), AllocError> {
        let code = self.code;
        self.spend(code.loaders().len());
        for index in code.loaders() {
            if self.was_put_off(*index as usize) {
                self.wake(*index as usize)?;
            }
        }
        Ok(())
    }

    /// Whether an instruction was put off; it no longer is.
    fn was_put_off(&mut self, index: usize) -> bool {
        let Some(mark) = self.outdated.get_mut(index) else {
            return false;
        };
        let was = *mark;
        *mark = false;
        was
    }

    /// Whether an instruction looked there.
    fn looked_at(&self, index: usize, span: Span) -> bool {
        match self.reaches.get(index) {
            Some(Some(reach)) => reach.meets(span),
            _ => false,
        }
    }
}

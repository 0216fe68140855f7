//! What is known of each place, global and routine.

use crate::code::{Code, short};
use crate::frame::Frame;
use crate::kind::Kind;
use crate::thresholds::Thresholds;
use std::alloc::{AllocError, Global};

/// How many globals there are, from variable 16 on (Z 6.2).
const GLOBALS: usize = 240;

/// How often what is no meeting of ways grows before it is widened, so that each walk ends.
const MOST_GROWTHS: u16 = 200;

/// For how many sets a place counts beside its own.
const SETS_OF_PLACE: usize = 8;

/// What is known of a place: its sets begin at `start` of the list of all sets.
#[derive(Clone, Copy)]
struct Spot {
    start: usize,
    /// Whose code it is, where it was reached.
    routine: u16,
    locals: u8,
    height: u8,
    is_reached: bool,
    growths: Growths,
    /// Where what is known of globals begins in the list of all of that, and of how many.
    told_start: usize,
    told_count: u8,
}

/// What is known of a global at a place, by its index, as long as that is more than its own set says.
#[derive(Clone, Copy)]
struct Told<K> {
    global: u8,
    set: Option<K>,
}

/// How often a thing has grown: all in all, and where it may be widened.
#[derive(Clone, Copy)]
struct Growths {
    all: u16,
    widening: u16,
}

/// Nothing has grown.
const NO_GROWTHS: Growths = Growths {
    all: 0,
    widening: 0,
};

/// A set of a routine's result.
#[derive(Clone, Copy)]
struct Cell<K> {
    set: Option<K>,
    growths: Growths,
}

/// What is known: the sets of each place that was reached, of each global, and of what each routine gives.
#[derive(Drop)]
pub(crate) struct State<V: Kind> {
    spots: Vec<Spot>,
    sets: Vec<V::Kept>,
    told: Vec<Told<V::Kept>>,
    globals: Vec<V>,
    global_growths: Vec<Growths>,
    results: Vec<Cell<V::Kept>>,
    /// How often a result has grown.
    result_growths: u32,
    /// What is kept once of all sets.
    shelf: V::Shelf,
}

/// From when on sets go far that grow, so that a walk ends sooner.
#[derive(Drop)]
pub(crate) struct Haste {
    /// How often a thing has grown then where it may be widened.
    pub(crate) after: u16,
    /// The few ends at which a set stops then.
    pub(crate) ends: Thresholds,
}

/// How often a thing has grown elsewhere when its sets go far, for each time that it has where it may be widened.
const ELSEWHERE: u16 = 4;

/// How sets grow.
#[derive(Drop)]
pub(crate) struct Plan<V: Kind> {
    pub(crate) thresholds: Thresholds,
    /// What nothing has to be widened beyond.
    pub(crate) caps: Option<State<V>>,
    /// How often a thing grows before it is widened.
    pub(crate) delay: u16,
    /// Whether anything is widened.
    pub(crate) widens: bool,
    /// From when on what grows goes far, if it ever does.
    pub(crate) haste: Option<Haste>,
    /// Whether what grows is said to have any word, so that a walk ends soon.
    pub(crate) is_hasty: bool,
    /// What a routine is said to give that never returns, if that is said.
    pub(crate) unreturned: Option<V>,
    /// Whether nothing was widened too far by the walk before, so that one like it finds nothing else.
    pub(crate) is_settled: bool,
}

impl Growths {
    /// Once more.
    fn after(self, may_widen: bool) -> Growths {
        Growths {
            all: self.all.saturating_add(1),
            widening: self.widening.saturating_add(u16::from(may_widen)),
        }
    }

    /// Whether a thing is widened that grows now.
    fn are_enough<V: Kind>(self, may_widen: bool, plan: &Plan<V>) -> bool {
        plan.widens && (may_widen && self.widening >= plan.delay || self.all >= MOST_GROWTHS)
    }

    /// Whether it goes far.
    fn are_many(self, haste: &Haste) -> bool {
        self.widening >= haste.after || self.all / ELSEWHERE >= haste.after
    }
}

impl<V: Kind> Plan<V> {
    ghost use Rattle.std.specs.Prelude.{◌≡◌, ℕ, List, Some, false};

    /// Sets are widened to these thresholds, and a routine that never returns is said to give this.
    pub(crate) fn widening(thresholds: Thresholds, unreturned: V) -> Plan<V> {
        Plan {
            thresholds,
            caps: None,
            delay: 0,
            widens: true,
            unreturned: Some(unreturned),
            haste: None,
            is_hasty: false,
            is_settled: false,
        }
    }

    /// Nothing is widened, and nothing said of a routine that never returns.
    pub(crate) fn joining(alloc: Global) -> Plan<V> {
        Plan {
            thresholds: Thresholds::none(alloc),
            caps: None,
            delay: 0,
            widens: false,
            unreturned: None,
            haste: None,
            is_hasty: false,
            is_settled: false,
        }
    }

    /// A set with the words of another, where a thing has grown so often before; of any word, where a walk is to end soon.
    fn raised(&self, before: V, more: V, growths: Growths, may_widen: bool, cap: Option<V>) -> V {
        if self.is_hasty {
            return V::any();
        }
        match &self.haste {
            Some(haste) if growths.are_many(haste) => {
                let joined = before.join(more);
                capped(haste.ends.widened(before, joined), joined, cap)
            }
            _ => self.grown(before, more, growths.are_enough(may_widen, self), cap),
        }
    }

    /// A set with the words of another, widened or not. It isn't where it tells its words one by one: then it grows but as often as it has words.
    fn grown(&self, before: V, more: V, widens: bool, cap: Option<V>) -> V
        ensures joined { widens ≡ false → result ≡ V.operations.join before more }
        ensures told { (words : List ℕ) → V.operations.few (V.operations.join before more) ≡ Some words → result ≡ V.operations.join before more }
    {
        let joined = before.join(more);
        if !widens || joined.few().is_some() {
            return joined;
        }
        capped(self.thresholds.widened(before, joined), joined, cap)
    }
}

/// A set that was widened, within what it isn't widened beyond, where what it was before lies there.
fn capped<V: Kind>(wide: V, joined: V, cap: Option<V>) -> V {
    match cap {
        Some(cap) if joined.is_within(cap) => wide.meet(cap).unwrap_or(wide),
        _ => wide,
    }
}

impl<V: Kind> State<V> {
    /// Nothing is reached, and each global has the value that is loaded.
    pub(crate) fn new(alloc: Global, code: &Code<'_>) -> Result<State<V>, AllocError> {
        let spot = Spot {
            start: 0,
            routine: 0,
            locals: 0,
            height: 0,
            is_reached: false,
            growths: NO_GROWTHS,
            told_start: 0,
            told_count: 0,
        };
        let cell = Cell {
            set: None,
            growths: NO_GROWTHS,
        };
        Ok(State {
            spots: vec![in alloc; spot; code.records().len()]?,
            sets: Vec::new(alloc),
            told: Vec::new(alloc),
            globals: loaded_globals(alloc, code)?,
            global_growths: vec![in alloc; NO_GROWTHS; GLOBALS]?,
            results: vec![in alloc; cell; code.routines().len()]?,
            result_growths: 0,
            shelf: V::shelf(alloc),
        })
    }

    /// The sets of the globals.
    pub(crate) fn globals(&self) -> &[V] {
        &self.globals
    }

    /// What a routine gives, as far as is known, by its number.
    pub(crate) fn result(&self, number: u16) -> Option<V> {
        let index = usize::from(number).checked_sub(1)?;
        Some(self.set(self.results.get(index)?.set?))
    }

    /// How often a result has grown.
    pub(crate) fn result_growths(&self) -> u32 {
        self.result_growths
    }

    /// How many sets are known of places, with a few for each place.
    pub(crate) fn size(&self) -> u32 {
        let places = self.spots.len().saturating_mul(SETS_OF_PLACE);
        let sets = self.sets.len().saturating_add(self.told.len());
        short(sets.saturating_add(places))
    }

    /// Whether a place was reached.
    pub(crate) fn is_reached(&self, index: usize) -> bool {
        match self.spots.get(index) {
            Some(spot) => spot.is_reached,
            None => false,
        }
    }

    /// The set that is kept so.
    fn set(&self, kept: V::Kept) -> V {
        V::kept(kept, &self.shelf)
    }

    /// What is kept once of all sets.
    pub(crate) fn shelf(&self) -> &V::Shelf {
        &self.shelf
    }

    /// The same, where more is to be kept.
    pub(crate) fn shelf_mut(&mut self) -> &mut V::Shelf {
        &mut self.shelf
    }

    /// Whether there was no room for a set.
    pub(crate) fn is_full(&self) -> bool {
        V::is_full(&self.shelf)
    }

    /// What is known of the frame at a place that was reached.
    pub(crate) fn frame_at(
        &self,
        alloc: Global,
        index: usize,
    ) -> Result<Option<Frame<V>>, AllocError> {
        let Some(spot) = self.reached_spot(index) else {
            return Ok(None);
        };
        let kept = self.sets_of(spot);
        let mut sets = Vec::with_capacity(alloc, kept.len())?;
        for set in kept {
            sets.push(self.set(*set))?;
        }
        let locals = usize::from(spot.locals).min(sets.len());
        let mut frame = Frame::of(alloc, locals, sets);
        for told in self.told_of(spot) {
            if let Some(set) = told.set {
                frame.tell(told.global, self.set(set))?;
            }
        }
        Ok(Some(frame))
    }

    /// A place, if it was reached.
    fn reached_spot(&self, index: usize) -> Option<Spot> {
        let spot = *self.spots.get(index)?;
        spot.is_reached.then_some(spot)
    }

    /// The sets of a place.
    fn sets_of(&self, spot: Spot) -> &[V::Kept] {
        let count = usize::from(spot.locals) + usize::from(spot.height);
        let end = spot.start.saturating_add(count);
        self.sets.as_slice().get(spot.start..end).unwrap_or(&[])
    }

    /// What is known of globals at a place.
    fn told_of(&self, spot: Spot) -> &[Told<V::Kept>] {
        let end = spot.told_start.saturating_add(usize::from(spot.told_count));
        self.told
            .as_slice()
            .get(spot.told_start..end)
            .unwrap_or(&[])
    }

    /// What is known of a global at a place, if that is more than its own set says.
    fn told_at(&self, index: usize, global: u8) -> Option<V> {
        self.told_there(self.reached_spot(index)?, global)
    }

    /// The same, of a place that was reached.
    fn told_there(&self, spot: Spot, global: u8) -> Option<V> {
        for told in self.told_of(spot) {
            if told.global == global {
                return Some(self.set(told.set?));
            }
        }
        None
    }

    /// A set of a place, by its index there.
    fn set_at(&self, index: usize, offset: usize) -> Option<V> {
        let spot = self.reached_spot(index)?;
        Some(self.set(*self.sets_of(spot).get(offset)?))
    }

    /// The number of the routine whose code a place is, where it was reached.
    pub(crate) fn routine_at(&self, index: usize) -> u16 {
        match self.reached_spot(index) {
            Some(spot) => spot.routine,
            None => 0,
        }
    }

    /// Says of a place what is known on a way to it too, by the code of a routine, and whether that was news. Nothing is said where it is
    /// another routine's, or the heights differ.
    pub(crate) fn join_place(
        &mut self,
        plan: &Plan<V>,
        index: usize,
        routine: u16,
        frame: &Frame<V>,
        may_widen: bool,
    ) -> Result<bool, AllocError> {
        let Some(spot) = self.reached_spot(index) else {
            self.reach(index, routine, frame)?;
            return Ok(true);
        };
        if spot.routine != routine || !has_shape(spot, frame) {
            return Ok(false);
        }
        let mut is_new = false;
        for (offset, more) in frame.sets().iter().enumerate() {
            is_new |= self.raise(plan, index, offset, spot, *more, may_widen)?;
        }
        for nth in 0..usize::from(spot.told_count) {
            let at = spot.told_start.saturating_add(nth);
            is_new |= self.raise_told(plan, index, at, spot, frame, may_widen)?;
        }
        if is_new {
            self.count_growth(index, may_widen);
        }
        Ok(is_new)
    }

    /// Says of a place what is known on the first way to it, by the code of a routine.
    fn reach(&mut self, index: usize, routine: u16, frame: &Frame<V>) -> Result<(), AllocError> {
        let start = self.sets.len();
        for set in frame.sets() {
            self.sets.push((*set).shelve(&mut self.shelf)?)?;
        }
        let told_start = self.told.len();
        for (global, set) in frame.told() {
            let set = Some((*set).shelve(&mut self.shelf)?);
            self.told.push(Told {
                global: *global,
                set,
            })?;
        }
        if let Some(spot) = self.spots.get_mut(index) {
            *spot = Spot {
                start,
                routine,
                locals: frame.local_count().min(15) as u8,
                height: frame.height().min(64) as u8,
                is_reached: true,
                growths: NO_GROWTHS,
                told_start,
                told_count: frame.told().len().min(255) as u8,
            };
        }
        Ok(())
    }

    /// Counts that a place has grown.
    fn count_growth(&mut self, index: usize, may_widen: bool) {
        if let Some(spot) = self.spots.get_mut(index) {
            spot.growths = spot.growths.after(may_widen);
        }
    }

    /// Gives a set of a place the words of another, and says whether any was new.
    fn raise(
        &mut self,
        plan: &Plan<V>,
        index: usize,
        offset: usize,
        spot: Spot,
        more: V,
        may_widen: bool,
    ) -> Result<bool, AllocError> {
        let Some(kept) = self.sets.get_mut(spot.start.saturating_add(offset)) else {
            return Ok(false);
        };
        let set = V::kept(*kept, &self.shelf);
        if more.is_within(set) {
            return Ok(false);
        }
        let cap = plan.cap_at(index, offset);
        let grown = plan.raised(set, more, spot.growths, may_widen, cap);
        *kept = grown.shelve(&mut self.shelf)?;
        Ok(true)
    }

    /// Gives what is known of a global at a place, by its index among all that, what a frame has of it, and says whether that was news.
    /// Where the frame has no more than its own set, nothing more is known of it there from then on.
    fn raise_told(
        &mut self,
        plan: &Plan<V>,
        index: usize,
        at: usize,
        spot: Spot,
        frame: &Frame<V>,
        may_widen: bool,
    ) -> Result<bool, AllocError> {
        let Some(told) = self.told.get_mut(at) else {
            return Ok(false);
        };
        let Some(kept) = told.set else {
            return Ok(false);
        };
        let Some(more) = frame.told_of(told.global) else {
            told.set = None;
            return Ok(true);
        };
        let set = V::kept(kept, &self.shelf);
        if more.is_within(set) {
            return Ok(false);
        }
        let cap = plan.told_cap(index, told.global);
        let grown = plan.raised(set, more, spot.growths, may_widen, cap);
        told.set = Some(grown.shelve(&mut self.shelf)?);
        Ok(true)
    }

    /// Gives a global, counted from variable 16, the words of a set, and says whether any was new.
    pub(crate) fn join_global(&mut self, plan: &Plan<V>, global: usize, more: V) -> bool {
        let cap = plan.global_cap(global);
        let Some(set) = self.globals.get_mut(global) else {
            return false;
        };
        let Some(growths) = self.global_growths.get_mut(global) else {
            return false;
        };
        if more.is_within(*set) {
            return false;
        }
        *set = plan.raised(*set, more, *growths, true, cap);
        *growths = growths.after(true);
        true
    }

    /// Says that a routine, by its number, may give the words of a set too, and whether any was new.
    pub(crate) fn join_result(
        &mut self,
        plan: &Plan<V>,
        number: u16,
        more: V,
        may_widen: bool,
    ) -> Result<bool, AllocError> {
        let cap = plan.result_cap(number);
        let Some(index) = usize::from(number).checked_sub(1) else {
            return Ok(false);
        };
        let Some(cell) = self.results.get_mut(index) else {
            return Ok(false);
        };
        let Some(kept) = cell.set else {
            cell.set = Some(more.shelve(&mut self.shelf)?);
            self.result_growths = self.result_growths.saturating_add(1);
            return Ok(true);
        };
        let set = V::kept(kept, &self.shelf);
        if more.is_within(set) {
            return Ok(false);
        }
        self.result_growths = self.result_growths.saturating_add(1);
        let grown = plan.raised(set, more, cell.growths, may_widen, cap);
        cell.set = Some(grown.shelve(&mut self.shelf)?);
        cell.growths = cell.growths.after(may_widen);
        Ok(true)
    }

    /// Whether all that is known of each place here is known there too.
    pub(crate) fn is_within(&self, other: &State<V>) -> bool {
        are_within(&self.globals, &other.globals)
            && self.has_results_within(other)
            && self.has_places_within(other)
    }

    /// Whether what each routine gives is known there too. Of one that never returns something is said all the same.
    fn has_results_within(&self, other: &State<V>) -> bool {
        for number in 1..=self.results.len().min(0xffff) {
            if !is_option_within(self.result(number as u16), other.result(number as u16)) {
                return false;
            }
        }
        true
    }

    /// Whether what is known of each place is known there too.
    fn has_places_within(&self, other: &State<V>) -> bool {
        for index in 0..self.spots.len() {
            if !self.has_place_within(other, index) {
                return false;
            }
        }
        true
    }

    /// Whether what is known of a place is known there too.
    fn has_place_within(&self, other: &State<V>, index: usize) -> bool {
        match (self.reached_spot(index), other.reached_spot(index)) {
            (None, _) => true,
            (Some(inner), Some(outer)) => {
                self.has_sets_within(inner, other, outer) && self.tells_within(inner, other, outer)
            }
            (Some(_), None) => false,
        }
    }

    /// Whether each set of a place is within its own of a place there.
    fn has_sets_within(&self, inner: Spot, other: &State<V>, outer: Spot) -> bool {
        let (sets, others) = (self.sets_of(inner), other.sets_of(outer));
        let mut both = sets.iter().zip(others.iter());
        sets.len() == others.len() && both.all(|(a, b)| self.set(*a).is_within(other.set(*b)))
    }
}

impl<V: Kind> State<V> {
    /// Whether as much is known of each global at a place as at a place there.
    fn tells_within(&self, inner: Spot, other: &State<V>, outer: Spot) -> bool {
        for told in other.told_of(outer) {
            let Some(set) = told.set else {
                continue;
            };
            match self.told_there(inner, told.global) {
                Some(here) if here.is_within(other.set(set)) => {}
                _ => return false,
            }
        }
        true
    }
}

impl<V: Kind> Plan<V> {
    /// What is known of a global at a place isn't widened beyond this.
    fn told_cap(&self, index: usize, global: u8) -> Option<V> {
        match &self.caps {
            Some(caps) => caps.told_at(index, global),
            None => None,
        }
    }

    /// What a set of a place isn't widened beyond.
    fn cap_at(&self, index: usize, offset: usize) -> Option<V> {
        match &self.caps {
            Some(caps) => caps.set_at(index, offset),
            None => None,
        }
    }

    /// What a global isn't widened beyond.
    fn global_cap(&self, global: usize) -> Option<V> {
        match &self.caps {
            Some(caps) => caps.globals.get(global).copied(),
            None => None,
        }
    }

    /// What a routine's result isn't widened beyond.
    fn result_cap(&self, number: u16) -> Option<V> {
        match &self.caps {
            Some(caps) => caps.result(number),
            None => None,
        }
    }
}

/// The globals as they are loaded.
fn loaded_globals<V: Kind>(alloc: Global, code: &Code<'_>) -> Result<Vec<V>, AllocError> {
    let mut globals = Vec::with_capacity(alloc, GLOBALS)?;
    for global in 0..GLOBALS {
        globals.push(V::single(code.loaded(global)))?;
    }
    Ok(globals)
}

/// Whether a frame has as many locals and slots as a place.
fn has_shape<V: Kind>(spot: Spot, frame: &Frame<V>) -> bool {
    frame.local_count() == usize::from(spot.locals) && frame.height() == usize::from(spot.height)
}

/// Whether there are as many sets, and each is within its own.
fn are_within<V: Kind>(inner: &[V], outer: &[V]) -> bool {
    inner.len() == outer.len() && inner.iter().zip(outer.iter()).all(|(a, b)| a.is_within(*b))
}

/// Whether a set is within another, where there are both.
fn is_option_within<V: Kind>(inner: Option<V>, outer: Option<V>) -> bool {
    match (inner, outer) {
        (Some(inner), Some(outer)) => inner.is_within(outer),
        _ => true,
    }
}

//! The order of the questions: a first schedule, then the flowspan, then stream after stream as the
//! file lists them. A stream whose question takes too long is left, and come back to with what is left
//! of the budget. Times are in nanoseconds.
use crate::best::Best;
use crate::learning::{Budget, CourseNews, Hear};
use crate::quota::Quota;
use crate::turn::Turn;
use std::alloc::{AllocError, Global};
use tsn_bounds::known::Known;
use tsn_bounds::literal::Literal;
use tsn_bounds::number::{at, less, next, put, signed, sum};
use tsn_place::effort::effort_for;
use tsn_place::notice::Notice;
use tsn_place::placement::Placement;
use tsn_place::repair::Asked;
use tsn_solver::ask::Answered;
use tsn_solver::search::Search;
use tsn_timing::Timing;
use tsn_translate::table::table_of;

// How many conflicts the question by the links is worth.
const SHARE: u64 = 50;

// How often the first schedule of all looks at a lane for each stream.
const QUICK_WORK: u64 = 2_000;

/// A search for the first of the optimal schedules.
#[derive(Drop)]
pub struct Course {
    pub search: Search,
    pub placement: Placement,
    /// The best schedule so far.
    pub best: Best,
    quota: Quota,
    // Of how many streams, the first ones, no lesser offset than the best schedule's is in question.
    shown: usize,
}

/// What became of a course.
#[derive(Clone, Copy, PartialEq, Eq)]
pub enum State {
    /// It's decided.
    Decided,
    /// There is no schedule.
    Empty,
    /// It isn't decided.
    Open,
}

/// A course from a schedule that is known, where there is one that is valid, or from a first one of its own. The error says that there
/// was no memory.
pub fn course_of<H: Hear>(
    alloc: Global,
    timing: &Timing,
    known: Option<&[u64]>,
    budget: Budget,
    hear: &H,
) -> Result<Course, AllocError> {
    let mut placement = Placement::of(alloc, timing)?;
    let best = first_best(alloc, timing, known, &mut placement, hear)?;
    course_with(alloc, timing, best, budget, placement)
}

fn first_best<H: Hear>(
    alloc: Global,
    timing: &Timing,
    known: Option<&[u64]>,
    placement: &mut Placement,
    hear: &H,
) -> Result<Best, AllocError> {
    let mut best = Best::none(alloc, timing, placement.least_flowspan(alloc)?);
    if let Some(offsets) = known {
        best.take_known(alloc, timing, offsets, placement)?;
    }
    for work in [QUICK_WORK, effort_for(timing.streams()).work] {
        if best.flowspan > best.least {
            let listener = Listener {
                hear,
                least: best.least,
                best: best.flowspan,
            };
            best.place(alloc, timing, placement, work, &listener)?;
        }
    }
    Ok(best)
}

/// A course from a schedule; from none where it's empty. The error says that there was no memory.
pub fn course_from(
    alloc: Global,
    timing: &Timing,
    best: Best,
    budget: Budget,
) -> Result<Course, AllocError> {
    let placement = Placement::of(alloc, timing)?;
    course_with(alloc, timing, best, budget, placement)
}

fn course_with(
    alloc: Global,
    timing: &Timing,
    best: Best,
    budget: Budget,
    placement: Placement,
) -> Result<Course, AllocError> {
    let most = best.flowspan.min(signed(timing.cycle()));
    let mut course = Course {
        search: search_of(alloc, timing, most, budget.work)?,
        placement,
        best,
        quota: Quota::of(budget),
        shown: 0,
    };
    match course.begin(timing.streams()) {
        Ok(()) => Ok(course),
        Err(error) => {
            drop(course);
            Err(error)
        }
    }
}

/// Hears of schedules before anything is asked; one of this flowspan is the best so far, and none has less than the bound.
#[derive(Drop)]
pub struct Listener<'a, H: Hear> {
    hear: &'a H,
    least: i64,
    best: i64,
}

impl<'a, H: Hear> Notice for Listener<'a, H> {
    fn notice(&self, flowspan: i64) {
        self.hear.hear(CourseNews {
            flowspan: Some(flowspan.min(self.best).unsigned_abs()),
            bound: self.least.unsigned_abs(),
            stream: None,
            conflicts: 0,
            work: 0,
        });
    }
}

/// A search with nothing given but the network, in which no schedule of more than this flowspan is in question, and so much work may
/// be. The error says that there was no memory.
pub fn search_of(
    alloc: Global,
    timing: &Timing,
    most: i64,
    work: u64,
) -> Result<Search, AllocError> {
    let mut search = Search::none(alloc, table_of(alloc, timing, most)?);
    search.pace.last_work = work;
    match search.fill() {
        Ok(()) => Ok(search),
        Err(error) => {
            drop(search);
            Err(error)
        }
    }
}

impl Course {
    fn begin(&mut self, streams: usize) -> Result<(), AllocError> {
        if !self.best.is_none() {
            self.placement.load(&self.best.offsets)?;
        }
        self.best.lows.resize(streams, 0)
    }

    /// Asks till it's decided, or the budget is used up.
    pub fn decide<H: Hear>(&mut self, hear: &H) -> Result<State, AllocError> {
        let state = self.lower_flowspan(hear)?;
        if state != State::Decided {
            return Ok(state);
        }
        give_flowspan(&mut self.search, self.best.flowspan)?;
        for parts in [8, 4, 2, 1] {
            self.lower_offsets(parts, hear)?;
            if self.shown >= self.search.known.table.streams() {
                return Ok(State::Decided);
            }
        }
        Ok(State::Open)
    }

    // Finds the least flowspan, from both ends.
    fn lower_flowspan<H: Hear>(&mut self, hear: &H) -> Result<State, AllocError> {
        let streams = self.search.known.table.streams();
        let mut turn = Turn::of_flowspan(!self.best.is_none(), streams);
        self.quota.take_part(&mut self.search.pace, 1);
        self.ask_by_links()?;
        for _ in 0..u64::MAX {
            self.tell(hear, None);
            if !self.search.known.is_open {
                return Ok(self.best.state_of_end());
            }
            let least = self.search.known.low(streams);
            if least >= self.best.flowspan {
                return Ok(State::Decided);
            }
            if self.quota.is_over(&self.search.pace) {
                return Ok(State::Open);
            }
            let most = turn.target(least, self.best.flowspan);
            if turn.is_above && self.place_lower(most, turn.tries)? {
                turn.note_found(less(most, least));
                continue;
            }
            match self.ask(streams, most, turn.share())? {
                Answered::Yes => {
                    turn.note_found(less(most, least));
                    self.shorten()?;
                }
                Answered::No => turn.note_none(),
                Answered::Unknown => turn.note_unknown(),
            }
        }
        Ok(State::Open)
    }

    // A schedule of at most this flowspan, by placing streams anew.
    fn place_lower(&mut self, most: i64, tries: u64) -> Result<bool, AllocError> {
        if self.best.is_none() || !self.placement.lower_to(most, tries)? {
            return Ok(false);
        }
        take_placed(&mut self.best, &mut self.search, &self.placement)?;
        Ok(true)
    }

    // Moves the streams of the best schedule to the end and back, which may make it shorter.
    fn shorten(&mut self) -> Result<(), AllocError> {
        self.placement.shorten()?;
        if self.placement.flowspan() < self.best.flowspan {
            take_placed(&mut self.best, &mut self.search, &self.placement)?;
        }
        Ok(())
    }

    // Asks for less than what the links have to carry takes: there is nothing, which is found at once where the bounds of offsets say so.
    fn ask_by_links(&mut self) -> Result<(), AllocError> {
        let streams = self.search.known.table.streams();
        let least = self.best.least.min(self.best.flowspan);
        if self.search.known.is_open && self.search.known.low(streams) < least {
            let _ = self.ask(streams, less(least, 1), SHARE)?;
        }
        Ok(())
    }

    // Lowers the offsets of the streams that aren't shown, one after another. Each may take one of so many parts of what is left.
    fn lower_offsets<H: Hear>(&mut self, parts: u64, hear: &H) -> Result<(), AllocError> {
        let mut is_exact = true;
        self.search.drop_premises()?;
        for stream in self.shown..self.search.known.table.streams() {
            self.quota.take_part(&mut self.search.pace, parts);
            let is_least = self.lower_offset(stream, hear)?;
            let own = at(&self.best.offsets, stream);
            settle(&mut self.search, stream, own, is_least, is_exact)?;
            is_exact = is_exact && is_least;
            if is_exact {
                self.shown = next(stream);
            }
        }
        self.search.drop_premises()
    }

    // Finds the least offset of a stream by the premises. False where it's left.
    fn lower_offset<H: Hear>(&mut self, stream: usize, hear: &H) -> Result<bool, AllocError> {
        let mut turn = Turn::of_offset();
        let mut tried = -1i64;
        raise_placed(&mut self.placement, &self.search.known, stream);
        for _ in 0..u64::MAX {
            self.tell(hear, Some(stream));
            let least = self.known_low(stream);
            let own = at(&self.best.offsets, stream);
            if least >= own || !self.search.known.is_open {
                return Ok(true);
            }
            if self.quota.is_over(&self.search.pace) {
                return Ok(false);
            }
            let most = turn.target(least, own);
            if tried < most {
                tried = most;
                if self.place_sooner(stream, most)? {
                    turn.note_found(less(most, least));
                    tried = -1;
                    continue;
                }
            }
            match self.ask(stream, most, turn.share())? {
                Answered::Yes => turn.note_found(less(most, least)),
                Answered::No => {
                    put(&mut self.best.lows, stream, sum(most, 1));
                    turn.note_none();
                }
                Answered::Unknown => turn.note_unknown(),
            }
        }
        Ok(false)
    }

    // A schedule in which a stream starts at this or sooner, by placing streams anew.
    fn place_sooner(&mut self, stream: usize, most: i64) -> Result<bool, AllocError> {
        let asked = Asked {
            stream,
            most,
            flowspan: self.best.flowspan,
            tries: 300u64.wrapping_add(self.best.offsets.len() as u64 / 2),
        };
        if !self.placement.repair(asked)? {
            return Ok(false);
        }
        take_placed(&mut self.best, &mut self.search, &self.placement)?;
        Ok(true)
    }

    // What the stream's offset is no less than, by the premises, and by the streams before it alone.
    fn known_low(&mut self, stream: usize) -> i64 {
        let mut low = self.search.known.low(stream);
        if !self.search.premises.is_empty() {
            low = low.max(at(&self.best.lows, stream));
        }
        match self.placement.lowest(stream, self.best.flowspan) {
            Some(lowest) => low.max(lowest),
            None => low,
        }
    }

    // Asks for a schedule in which a stream's offset, or the flowspan behind all streams, is at most this; it's the best so far where
    // there is one.
    fn ask(&mut self, stream: usize, most: i64, share: u64) -> Result<Answered, AllocError> {
        let share = share.min(self.quota.left(&self.search.pace));
        self.search.set_sides(&self.best.offsets);
        let answered = ask_most(&mut self.search, stream, most, share)?;
        if answered == Answered::Yes {
            self.best
                .take_found(&mut self.search.found, &self.search.known.table);
            self.placement.load(&self.best.offsets)?;
        }
        Ok(answered)
    }

    /// Asks for one less than the plan's flowspan, and than each of its offsets. Whether there is none. What was met by the last
    /// question is told, too.
    pub fn confirm<H: Hear>(&mut self, hear: &H) -> Result<bool, AllocError> {
        let is_confirmed = self.ask_below(hear)?;
        let last = self.search.known.table.streams().checked_sub(1);
        self.tell(hear, last);
        Ok(is_confirmed)
    }

    fn ask_below<H: Hear>(&mut self, hear: &H) -> Result<bool, AllocError> {
        let streams = self.search.known.table.streams();
        self.quota.take_part(&mut self.search.pace, 1);
        give_flowspan(&mut self.search, self.best.flowspan)?;
        if !self.is_none_below(streams, self.best.flowspan)? {
            return Ok(false);
        }
        for stream in 0..streams {
            self.tell(hear, Some(stream));
            let own = at(&self.best.offsets, stream);
            if !self.is_none_below(stream, own)? {
                return Ok(false);
            }
            give_most(&mut self.search, stream, own)?;
        }
        Ok(true)
    }

    fn is_none_below(&mut self, stream: usize, most: i64) -> Result<bool, AllocError> {
        if self.search.known.low(stream) >= most {
            return Ok(true);
        }
        Ok(self.ask(stream, less(most, 1), u64::MAX)? == Answered::No)
    }

    fn tell<H: Hear>(&self, hear: &H, stream: Option<usize>) {
        hear.hear(news_of(&self.search, self.best.told(), stream));
    }
}

/// How far a search has got, with the least flowspan so far.
pub fn news_of(search: &Search, flowspan: Option<u64>, stream: Option<usize>) -> CourseNews {
    CourseNews {
        flowspan,
        bound: bound_of(&search.known),
        stream,
        conflicts: search.pace.conflicts,
        work: search.pace.work,
    }
}

/// No valid schedule has a lesser flowspan.
pub fn bound_of(known: &Known) -> u64 {
    known.low(known.table.streams()).unsigned_abs()
}

// The schedule that was placed is the best one.
fn take_placed(
    best: &mut Best,
    search: &mut Search,
    placement: &Placement,
) -> Result<(), AllocError> {
    search.found.clear();
    search.found.extend_from_slice(placement.schedule())?;
    best.take_found(&mut search.found, &search.known.table);
    Ok(())
}

// No lesser offsets than those that are shown for good are in question.
fn raise_placed(placement: &mut Placement, known: &Known, from: usize) {
    for stream in from..known.table.streams() {
        let low = at(&known.trail.ground, known.least(stream) as usize);
        placement.raise(stream, low);
    }
}

// Gives that no later schedule is in question.
fn give_flowspan(search: &mut Search, flowspan: i64) -> Result<(), AllocError> {
    let span = search.known.span();
    let _ = search.give(Literal::of(span ^ 1, flowspan.wrapping_neg()))?;
    Ok(())
}

// Gives that no greater offset of a stream is in question.
fn give_most(search: &mut Search, stream: usize, most: i64) -> Result<(), AllocError> {
    let least = search.known.least(stream);
    let _ = search.give(Literal::of(least ^ 1, most.wrapping_neg()))?;
    Ok(())
}

// From here on the stream's offset is this: no greater for good, as long as all streams before it are shown, else by a premise; no less
// by a premise, where that isn't shown.
fn settle(
    search: &mut Search,
    stream: usize,
    own: i64,
    is_least: bool,
    is_exact: bool,
) -> Result<(), AllocError> {
    let least = search.known.least(stream);
    if is_exact {
        give_most(search, stream, own)?;
    } else {
        search.add_premise(Literal::of(least ^ 1, own.wrapping_neg()))?;
    }
    if !is_least {
        search.add_premise(Literal::of(least, own))?;
    }
    Ok(())
}

// Asks for a schedule in which a stream's offset, or the flowspan behind all streams, is at most this, by no more than so many conflicts.
fn ask_most(
    search: &mut Search,
    stream: usize,
    most: i64,
    share: u64,
) -> Result<Answered, AllocError> {
    let literal = Literal::of(search.known.least(stream) ^ 1, most.wrapping_neg());
    search.add_premise(literal)?;
    let answered = search.ask(share)?;
    let _ = search.premises.pop();
    Ok(answered)
}

//! Streams at offsets.
use crate::dice::Dice;
use crate::lane::{Lane, Visit};
use crate::network::{Network, network_of};
use crate::rank::Rank;
use crate::rivals::Rivals;
use std::alloc::{AllocError, Global};
use tsn_bounds::number::{NONE, at, index, less, next, push, put, sum};
use tsn_timing::Timing;

/// Where a stream stands that isn't placed.
pub(crate) const UNPLACED: i64 = -1;

/// The streams of a network at offsets, by which no two are in each other's way.
#[derive(Drop)]
pub struct Placement {
    pub(crate) network: Network,
    // The offsets; those of streams that aren't placed are less than 0.
    pub(crate) offsets: Vec<i64>,
    // No lesser ones, and no greater ones, are in question.
    pub(crate) lows: Vec<i64>,
    pub(crate) highs: Vec<i64>,
    // The last schedule that was taken, and its flowspan; empty where there was none.
    pub(crate) kept: Vec<i64>,
    pub(crate) flowspan: i64,
    // Streams that were taken out and are to be placed again.
    pub(crate) waiting: Vec<u32>,
    pub(crate) rivals: Rivals,
    pub(crate) candidates: Vec<i64>,
    pub(crate) order: Vec<Rank>,
    pub(crate) dice: Dice,
    // How often a lane was looked at, and where that ends.
    pub(crate) work: u64,
    pub(crate) last_work: u64,
}

impl Placement {
    /// The streams of a network, none of them placed.
    pub fn of(alloc: Global, timing: &Timing) -> Result<Placement, AllocError> {
        let mut placement = Placement {
            network: network_of(alloc, timing)?,
            offsets: Vec::new(alloc),
            lows: Vec::new(alloc),
            highs: Vec::new(alloc),
            kept: Vec::new(alloc),
            flowspan: 0,
            waiting: Vec::new(alloc),
            rivals: Rivals::none(alloc),
            candidates: Vec::new(alloc),
            order: Vec::new(alloc),
            dice: Dice::new(),
            work: 0,
            last_work: u64::MAX,
        };
        match placement.fill() {
            Ok(()) => Ok(placement),
            Err(error) => {
                drop(placement);
                Err(error)
            }
        }
    }

    fn fill(&mut self) -> Result<(), AllocError> {
        let streams = self.network.bodies.len();
        self.offsets.resize(streams, UNPLACED)?;
        self.rivals.size(streams)?;
        for body in &self.network.bodies {
            push(&mut self.lows, body.release)?;
            push(&mut self.highs, body.latest)?;
        }
        Ok(())
    }

    /// The last schedule that was found or given; empty where there was none.
    pub fn schedule(&self) -> &[i64] {
        &self.kept
    }

    /// Its flowspan.
    pub fn flowspan(&self) -> i64 {
        self.flowspan
    }

    /// No lesser offset of a stream is in question.
    pub fn raise(&mut self, stream: usize, low: i64) {
        let low = low.max(at(&self.lows, stream));
        put(&mut self.lows, stream, low);
    }

    /// How many streams there are.
    pub(crate) fn streams(&self) -> usize {
        self.network.bodies.len()
    }

    pub(crate) fn arrival(&self, stream: usize) -> i64 {
        match self.network.bodies.get(stream) {
            Some(body) => body.arrival,
            None => 0,
        }
    }

    pub(crate) fn offset(&self, stream: usize) -> i64 {
        at(&self.offsets, stream)
    }

    pub(crate) fn low(&self, stream: usize) -> i64 {
        at(&self.lows, stream)
    }

    pub(crate) fn high(&self, stream: usize) -> i64 {
        at(&self.highs, stream)
    }

    pub(crate) fn is_spent(&self) -> bool {
        self.work >= self.last_work
    }

    pub(crate) fn is_placed(&self, stream: usize) -> bool {
        self.offset(stream) > UNPLACED
    }

    // No schedule of a greater flowspan is in question.
    pub(crate) fn limit(&mut self, flowspan: i64) {
        for stream in 0..self.streams() {
            if let Some(body) = self.network.bodies.get(stream) {
                let high = body.latest.min(less(flowspan, body.arrival));
                put(&mut self.highs, stream, high);
            }
        }
    }

    // Places a stream.
    pub(crate) fn put(&mut self, stream: usize, offset: i64) -> Result<(), AllocError> {
        put(&mut self.offsets, stream, offset);
        let Some(body) = self.network.bodies.get(stream) else {
            return Ok(());
        };
        for mark in &body.marks {
            if let Some(lane) = self.network.lanes.get_mut(mark.lane) {
                lane.put(index(stream), sum(offset, mark.start), mark.work)?;
            }
        }
        Ok(())
    }

    // Takes a stream out, where it's placed.
    pub(crate) fn take(&mut self, stream: usize) {
        let offset = self.offset(stream);
        if offset <= UNPLACED {
            return;
        }
        put(&mut self.offsets, stream, UNPLACED);
        let Some(body) = self.network.bodies.get(stream) else {
            return;
        };
        for mark in &body.marks {
            if let Some(lane) = self.network.lanes.get_mut(mark.lane) {
                lane.take(index(stream), sum(offset, mark.start));
            }
        }
    }

    // Takes all streams out.
    pub(crate) fn clear(&mut self) {
        for stream in 0..self.streams() {
            self.take(stream);
        }
        self.waiting.clear();
    }

    // The least offset of a stream, from one on and up to another one, by which no other one is in its way.
    pub(crate) fn earliest(&mut self, stream: usize, from: i64, to: i64) -> Option<i64> {
        self.earliest_behind(stream, from, to, NONE)
    }

    // The same, were there no streams but those of numbers before one.
    pub(crate) fn earliest_behind(
        &mut self,
        stream: usize,
        from: i64,
        to: i64,
        before: u32,
    ) -> Option<i64> {
        let body = self.network.bodies.get(stream)?;
        let count = body.looks.len();
        let mut offset = from;
        let mut passed: usize = 0;
        let mut place: usize = 0;
        for _ in 0..u64::MAX {
            if offset > to {
                return None;
            }
            if passed >= count || place >= count {
                return Some(offset);
            }
            self.work = self.work.wrapping_add(1);
            let delay = delay_of(&self.network.lanes, body.looks[place], offset, before)?;
            passed = if delay == 0 { next(passed) } else { 1 };
            offset = sum(offset, delay);
            place = next_of(place, count);
        }
        None
    }

    // The greatest offset of a stream, from one on downwards to another one, by which no other one is in its way.
    pub(crate) fn last(&mut self, stream: usize, from: i64, to: i64) -> Option<i64> {
        let body = self.network.bodies.get(stream)?;
        let count = body.looks.len();
        let mut offset = from;
        let mut passed: usize = 0;
        let mut place: usize = 0;
        for _ in 0..u64::MAX {
            if offset < to {
                return None;
            }
            if passed >= count || place >= count {
                return Some(offset);
            }
            self.work = self.work.wrapping_add(1);
            let advance = advance_of(&self.network.lanes, body.looks[place], offset)?;
            passed = if advance == 0 { next(passed) } else { 1 };
            offset = less(offset, advance);
            place = next_of(place, count);
        }
        None
    }

    // Places all streams as in the schedule that was kept.
    pub(crate) fn restore(&mut self) -> Result<(), AllocError> {
        self.waiting.clear();
        self.take_moved();
        for stream in 0..self.streams() {
            let offset = at(&self.kept, stream);
            if self.offset(stream) != offset {
                self.put(stream, offset)?;
            }
        }
        Ok(())
    }

    fn take_moved(&mut self) {
        for stream in 0..self.streams() {
            if self.offset(stream) != at(&self.kept, stream) {
                self.take(stream);
            }
        }
    }

    // Keeps the schedule that stands.
    pub(crate) fn keep(&mut self) -> Result<(), AllocError> {
        self.flowspan = self.reached();
        self.kept.clear();
        self.kept.extend_from_slice(&self.offsets)
    }

    // When the last stream has arrived.
    pub(crate) fn reached(&self) -> i64 {
        let mut last = 0i64;
        for stream in 0..self.streams() {
            last = last.max(sum(self.offset(stream), self.arrival(stream)));
        }
        last
    }
}

fn next_of(place: usize, count: usize) -> usize {
    let behind = next(place);
    if behind < count { behind } else { 0 }
}

fn delay_of(lanes: &[Lane], look: Visit, offset: i64, before: u32) -> Option<i64> {
    lanes
        .get(look.lane)?
        .delay(sum(offset, look.start), look.work, before)
}

fn advance_of(lanes: &[Lane], look: Visit, offset: i64) -> Option<i64> {
    lanes
        .get(look.lane)?
        .advance(sum(offset, look.start), look.work)
}

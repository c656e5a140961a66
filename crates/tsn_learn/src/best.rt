//! The best schedule so far. Times are in nanoseconds.
use crate::course::{Listener, State};
use crate::learning::Hear;
use std::alloc::{AllocError, Global};
use tsn_bounds::number::{at, copy, put, signed, signed_list, sum, unsigned_list};
use tsn_bounds::table::Table;
use tsn_place::placement::Placement;
use tsn_timing::Timing;

/// A schedule and its flowspan; without offsets, and one more than the cycle, where none is known.
#[derive(Drop)]
pub struct Best {
    pub offsets: Vec<i64>,
    pub flowspan: i64,
    /// No flowspan is less by what the links have to carry.
    pub least: i64,
    /// For each stream: where the streams before it have their offsets of the schedule, its own is at least this.
    pub lows: Vec<i64>,
}

impl Best {
    /// None.
    pub fn none(alloc: Global, timing: &Timing, least: i64) -> Best {
        Best {
            offsets: Vec::new(alloc),
            flowspan: sum(signed(timing.cycle()), 1),
            least,
            lows: Vec::new(alloc),
        }
    }

    /// The same one.
    pub fn copy(&self, alloc: Global) -> Result<Best, AllocError> {
        Ok(Best {
            offsets: copy(alloc, &self.offsets)?,
            flowspan: self.flowspan,
            least: self.least,
            lows: Vec::new(alloc),
        })
    }

    /// Whether none is known.
    pub fn is_none(&self) -> bool {
        self.offsets.is_empty()
    }

    /// Its flowspan, as it's told.
    pub fn told(&self) -> Option<u64> {
        if self.is_none() {
            None
        } else {
            Some(self.flowspan.unsigned_abs())
        }
    }

    /// What it means that nothing is in question.
    pub fn state_of_end(&self) -> State {
        if self.is_none() {
            State::Empty
        } else {
            State::Decided
        }
    }

    /// Takes a schedule that was found, and leaves the old one there. What was known of streams behind the first that has another offset
    /// now isn't any longer.
    pub fn take_found(&mut self, found: &mut Vec<i64>, table: &Table) {
        let mut is_changed = false;
        for stream in 0..found.len() {
            if is_changed {
                put(&mut self.lows, stream, 0);
            }
            is_changed |= at(found, stream) != at(&self.offsets, stream);
        }
        std::mem::swap(&mut self.offsets, found);
        self.flowspan = self.flowspan.min(table.flowspan(&self.offsets));
    }

    // A schedule that was found: it's kept where its flowspan is less.
    fn take(&mut self, offsets: Vec<i64>, flowspan: i64) {
        if flowspan < self.flowspan {
            self.flowspan = flowspan;
            self.offsets = offsets;
        }
    }

    /// A schedule that is known: it's kept where it's valid.
    pub fn take_known(
        &mut self,
        alloc: Global,
        timing: &Timing,
        offsets: &[u64],
        placement: &mut Placement,
    ) -> Result<(), AllocError> {
        if timing.is_valid(offsets) {
            let offsets = signed_list(alloc, offsets)?;
            placement.load(&offsets)?;
            self.take(offsets, placement.flowspan());
        }
        Ok(())
    }

    /// Looks for a better one by placing.
    pub fn place<H: Hear>(
        &mut self,
        alloc: Global,
        timing: &Timing,
        placement: &mut Placement,
        work: u64,
        listener: &Listener<'_, H>,
    ) -> Result<(), AllocError> {
        let work = work.wrapping_mul(timing.streams() as u64);
        if placement.first(self.least, work, listener)? {
            let offsets = copy(alloc, placement.schedule())?;
            if timing.is_valid(&unsigned_list(alloc, &offsets)?) {
                self.take(offsets, placement.flowspan());
            }
        }
        Ok(())
    }
}

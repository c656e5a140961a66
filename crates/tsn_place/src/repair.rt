//! Schedules near another one, in which a stream starts sooner.
use crate::placement::Placement;
use std::alloc::AllocError;
use tsn_bounds::number::{index, less};

/// What is asked for: a schedule in which the streams before one start when they did, that one not after an instant, and no stream
/// arrives after the flowspan.
#[derive(Clone, Copy)]
pub struct Asked {
    pub stream: usize,
    pub most: i64,
    pub flowspan: i64,
    /// How often a stream may have no room.
    pub tries: u64,
}

impl Placement {
    /// Takes a valid schedule as the one that is kept.
    pub fn load(&mut self, schedule: &[i64]) -> Result<(), AllocError> {
        self.kept.clear();
        self.kept.extend_from_slice(schedule)?;
        self.restore()?;
        self.flowspan = self.reached();
        Ok(())
    }

    /// Looks for a schedule of at most this flowspan near the one that is kept, and keeps it.
    pub fn lower_to(&mut self, flowspan: i64, tries: u64) -> Result<bool, AllocError> {
        self.rivals.fixed = 0;
        self.last_work = u64::MAX;
        let is_found = self.reach(flowspan, tries)?;
        if is_found {
            self.improve()?;
        }
        Ok(is_found)
    }

    /// Looks for a schedule near the one that is kept, as it is asked for, and keeps it. Answers whether one is found.
    pub fn repair(&mut self, asked: Asked) -> Result<bool, AllocError> {
        self.last_work = u64::MAX;
        self.restore()?;
        self.limit(asked.flowspan);
        self.rivals.fixed = asked.stream;
        self.take(asked.stream);
        let low = self.low(asked.stream);
        let is_forced = self.force(asked.stream, low, asked.most)?;
        self.rivals.fixed = asked.stream.wrapping_add(1);
        let is_found = is_forced && self.settle(asked.tries)?;
        self.rivals.fixed = 0;
        if is_found {
            self.move_down(asked.stream, low)?;
            self.keep()?;
        } else {
            self.restore()?;
        }
        Ok(is_found)
    }

    /// The least offset by which a stream arrives by this flowspan, with those before it as in the schedule that is kept, were there no
    /// others; none where there is none.
    pub fn lowest(&mut self, stream: usize, flowspan: i64) -> Option<i64> {
        let body = self.network.bodies.get(stream)?;
        let high = body.latest.min(less(flowspan, body.arrival));
        let low = self.low(stream);
        self.earliest_behind(stream, low, high, index(stream))
    }
}

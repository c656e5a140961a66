//! First schedules: by some orders, each stream as early as those before it let it, then moved to the end and back to the start; and
//! from the best of these towards a bound, by taking out who arrives too late.
use crate::aim::Aim;
use crate::effort::effort_for;
use crate::notice::Notice;
use crate::placement::Placement;
use crate::rank::By;
use std::alloc::AllocError;
use tsn_bounds::number::{FAR, index, push};

// How many orders there are.
const WAYS: usize = 7;

// How often streams may have no room before those that wait are taken anew.
const TRIES: u64 = 20_000;

// How often a schedule is moved to the end and back.
const ROUNDS: usize = 4;

impl Placement {
    /// Looks for a schedule of little flowspan, for as much work as this, or till one has this flowspan. Answers whether one is found.
    pub fn first<N: Notice>(
        &mut self,
        least: i64,
        work: u64,
        notice: &N,
    ) -> Result<bool, AllocError> {
        self.last_work = self.work.saturating_add(work);
        self.rivals.fixed = 0;
        self.kept.clear();
        self.limit(FAR);
        let best = self.try_orders(least)?;
        self.rank(By::Urgency(best))?;
        let for_changes = effort_for(self.streams()).for_changes(work);
        let last_work = self.work.saturating_add(for_changes);
        self.try_changes(least, last_work)?;
        if self.kept.is_empty() && self.has_windows() {
            self.place_all()?;
        }
        if self.kept.is_empty() {
            self.clear();
            return Ok(false);
        }
        self.lower(least, notice)?;
        Ok(true)
    }

    // Whether each stream has an offset in question.
    fn has_windows(&self) -> bool {
        for stream in 0..self.streams() {
            if self.low(stream) > self.high(stream) {
                return false;
            }
        }
        true
    }

    // Answers by which order the best of these schedules is found; the last one where there is none.
    fn try_orders(&mut self, least: i64) -> Result<usize, AllocError> {
        let mut best = WAYS;
        let mut shortest = FAR;
        for way in 0..WAYS {
            if self.is_spent() || self.is_enough(least) {
                break;
            }
            self.rank(By::Urgency(way))?;
            if self.place_in_order()? {
                let reached = self.reached();
                if reached < shortest {
                    shortest = reached;
                    best = way;
                }
                self.improve()?;
            }
        }
        Ok(best)
    }

    fn is_enough(&self, least: i64) -> bool {
        !self.kept.is_empty() && self.flowspan <= least
    }

    // Places the streams one after another. Answers whether there was room for each.
    fn place_in_order(&mut self) -> Result<bool, AllocError> {
        self.clear();
        for place in 0..self.order.len() {
            let stream = self.ranked(place);
            let (low, high) = (self.low(stream), self.high(stream));
            match self.earliest(stream, low, high) {
                Some(offset) => self.put(stream, offset)?,
                None => return Ok(false),
            }
        }
        Ok(true)
    }

    // Places all streams, where no order does.
    fn place_all(&mut self) -> Result<(), AllocError> {
        self.clear();
        for _ in 0..u64::MAX {
            if self.is_spent() {
                break;
            }
            self.wait_unplaced()?;
            if self.settle(TRIES)? {
                return self.improve();
            }
        }
        Ok(())
    }

    // All that aren't placed wait, those that arrive late at the end.
    fn wait_unplaced(&mut self) -> Result<(), AllocError> {
        self.waiting.clear();
        self.rank(By::Way)?;
        for place in 0..self.order.len() {
            let stream = self.ranked(place);
            if !self.is_placed(stream) {
                push(&mut self.waiting, index(stream))?;
            }
        }
        Ok(())
    }

    /// The schedule that is kept, moved to the end and back while that makes it shorter.
    pub fn shorten(&mut self) -> Result<(), AllocError> {
        self.rivals.fixed = 0;
        self.restore()?;
        self.improve()
    }

    // Moves the streams of a schedule to the end and back, while that makes it shorter; keeps it where it's better.
    pub(crate) fn improve(&mut self) -> Result<(), AllocError> {
        let mut flowspan = self.reached();
        for _ in 0..ROUNDS {
            self.move_late(flowspan)?;
            self.move_early()?;
            let reached = self.reached();
            if reached >= flowspan {
                break;
            }
            flowspan = reached;
        }
        if self.kept.is_empty() || self.reached() < self.flowspan {
            self.keep()?;
        }
        Ok(())
    }

    // Each as late as it can be, those that arrive last first.
    fn move_late(&mut self, flowspan: i64) -> Result<(), AllocError> {
        self.limit(flowspan);
        self.rank(By::Arrived)?;
        for place in 0..self.order.len() {
            let stream = self.ranked(place);
            let (old, high) = (self.offset(stream), self.high(stream));
            self.take(stream);
            let offset = match self.last(stream, high, old) {
                Some(offset) => offset,
                None => old,
            };
            self.put(stream, offset)?;
        }
        Ok(())
    }

    // Each as early as it can be, those that start first first.
    fn move_early(&mut self) -> Result<(), AllocError> {
        self.rank(By::Offset)?;
        for place in 0..self.order.len() {
            let stream = self.ranked(place);
            let low = self.low(stream);
            self.move_down(stream, low)?;
        }
        Ok(())
    }

    // As early as it can be, but not before this.
    pub(crate) fn move_down(&mut self, stream: usize, low: i64) -> Result<(), AllocError> {
        let old = self.offset(stream);
        self.take(stream);
        let offset = match self.earliest(stream, low, old) {
            Some(offset) => offset,
            None => old,
        };
        self.put(stream, offset)
    }

    // Looks for schedules of lesser flowspan.
    fn lower<N: Notice>(&mut self, least: i64, notice: &N) -> Result<(), AllocError> {
        let mut aim = Aim::new(self.streams());
        for _ in 0..u64::MAX {
            if self.is_enough(least) || self.is_spent() || aim.is_over() {
                break;
            }
            notice.notice(self.flowspan);
            let target = aim.target(least, self.flowspan);
            if self.reach(target, aim.tries)? {
                self.improve()?;
                aim.note_found();
            } else {
                aim.note_none(target, self.flowspan);
            }
        }
        self.restore()
    }

    // From the schedule that was kept to one of at most this flowspan. Answers whether one stands; else that one does.
    pub(crate) fn reach(&mut self, flowspan: i64, tries: u64) -> Result<bool, AllocError> {
        self.restore()?;
        self.limit(flowspan);
        for stream in 0..self.streams() {
            if self.offset(stream) > self.high(stream) {
                self.take(stream);
            }
        }
        self.wait_unplaced()?;
        if self.settle(tries)? {
            return Ok(true);
        }
        self.restore()?;
        Ok(false)
    }
}

//! Places streams where there is no room for them: who is in the way is taken out, and placed again.
use crate::lane::Window;
use crate::placement::Placement;
use crate::rivals::BARRED;
use std::alloc::AllocError;
use tsn_bounds::number::{at, index, less, next, push, put, sum};

// How many offsets are weighed at the most.
const CANDIDATES: usize = 96;

// After how many streams that had no room some are moved, and how many.
const PAUSE: u64 = 8;

const MOVES: usize = 6;

impl Placement {
    // Places all that wait; at most so often where there is no room. Answers whether that is done.
    pub(crate) fn settle(&mut self, tries: u64) -> Result<bool, AllocError> {
        let mut tried: u64 = 0;
        for _ in 0..u64::MAX {
            let Some(stream) = self.draw() else {
                return Ok(true);
            };
            let (low, high) = (self.low(stream), self.high(stream));
            self.work = self.work.wrapping_add(1);
            if let Some(offset) = self.earliest(stream, low, high) {
                self.put(stream, offset)?;
                continue;
            }
            tried = tried.wrapping_add(1);
            self.rivals.weigh_more(stream);
            if tried > tries || self.is_spent() || !self.force(stream, low, high)? {
                return Ok(false);
            }
            if tried % PAUSE == 0 {
                self.shake()?;
            }
        }
        Ok(false)
    }

    // The last of those that wait, now and then any of them.
    fn draw(&mut self) -> Option<usize> {
        let count = self.waiting.len();
        let last = self.waiting.pop()?;
        if self.dice.below(4) > 0 {
            return Some(last as usize);
        }
        let place = self.dice.below(count);
        if place >= self.waiting.len() {
            return Some(last as usize);
        }
        let drawn = self.waiting[place];
        self.waiting[place] = last;
        Some(drawn as usize)
    }

    // Places a stream within a window, where those in its way weigh least; they wait. Answers whether there is such a place.
    pub(crate) fn force(&mut self, stream: usize, low: i64, high: i64) -> Result<bool, AllocError> {
        if low > high {
            return Ok(false);
        }
        let window = Window {
            least: low,
            greatest: high,
        };
        self.note_candidates(stream, window)?;
        self.thin_candidates();
        match self.lightest(stream)? {
            Some(offset) => {
                self.eject(stream, offset)?;
                Ok(true)
            }
            None => Ok(false),
        }
    }

    fn note_candidates(&mut self, stream: usize, window: Window) -> Result<(), AllocError> {
        self.candidates.clear();
        push(&mut self.candidates, window.least)?;
        push(&mut self.candidates, window.greatest)?;
        let Some(body) = self.network.bodies.get(stream) else {
            return Ok(());
        };
        for look in &body.looks {
            if let Some(lane) = self.network.lanes.get(look.lane) {
                self.work = self.work.wrapping_add(lane.count() as u64 / 4);
                lane.note_edges(*look, window, &mut self.dice, &mut self.candidates)?;
            }
        }
        Ok(())
    }

    // Leaves a few of them, as the dice say.
    fn thin_candidates(&mut self) {
        let count = self.candidates.len();
        if count <= CANDIDATES {
            return;
        }
        for place in 0..CANDIDATES {
            let other = place.wrapping_add(self.dice.below(count.wrapping_sub(place)));
            let offset = at(&self.candidates, place);
            let drawn = at(&self.candidates, other);
            put(&mut self.candidates, place, drawn);
            put(&mut self.candidates, other, offset);
        }
        self.candidates.truncate(CANDIDATES);
    }

    // The one of them at which those in the way weigh least, any of those that are as good.
    fn lightest(&mut self, stream: usize) -> Result<Option<i64>, AllocError> {
        let mut least = less(BARRED, 1);
        let mut found = None;
        let mut ties: usize = 0;
        for place in 0..self.candidates.len() {
            let offset = at(&self.candidates, place);
            self.meet(stream, offset, least)?;
            let weight = self.rivals.weight;
            if weight > least {
                continue;
            }
            ties = if weight < least { 1 } else { next(ties) };
            if self.dice.below(ties) == 0 {
                found = Some(offset);
            }
            least = weight;
        }
        Ok(found)
    }

    // Meets those that are in the way of a stream at an offset, till they weigh more than this.
    fn meet(&mut self, stream: usize, offset: i64, most: i64) -> Result<(), AllocError> {
        self.rivals.begin();
        let Some(body) = self.network.bodies.get(stream) else {
            return Ok(());
        };
        for look in &body.looks {
            if self.rivals.weight > most {
                break;
            }
            self.work = self.work.wrapping_add(1);
            if let Some(lane) = self.network.lanes.get(look.lane) {
                lane.meet(sum(offset, look.start), look.work, &mut self.rivals)?;
            }
        }
        Ok(())
    }

    // Places a stream; those in its way are taken out, and wait.
    fn eject(&mut self, stream: usize, offset: i64) -> Result<(), AllocError> {
        self.meet(stream, offset, BARRED)?;
        for place in 0..self.rivals.list.len() {
            let other = self.rivals.stream(place);
            self.take(other);
            push(&mut self.waiting, index(other))?;
        }
        self.put(stream, offset)
    }

    // Moves some streams elsewhere.
    fn shake(&mut self) -> Result<(), AllocError> {
        for _ in 0..MOVES {
            let streams = self.streams();
            let stream = self.dice.below(streams);
            if stream >= self.rivals.fixed && self.is_placed(stream) {
                self.move_elsewhere(stream)?;
            }
        }
        Ok(())
    }

    fn move_elsewhere(&mut self, stream: usize) -> Result<(), AllocError> {
        let old = self.offset(stream);
        let (low, high) = (self.low(stream), self.high(stream));
        let room = (less(high, low) & 0x3FFF_FFFF) as usize;
        let from = sum(low, (self.dice.below(next(room)) & 0x3FFF_FFFF) as i64);
        self.take(stream);
        let offset = match self.earliest(stream, from, high) {
            Some(offset) => offset,
            None => match self.earliest(stream, low, high) {
                Some(offset) => offset,
                None => old,
            },
        };
        self.put(stream, offset)
    }
}

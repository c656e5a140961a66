//! What follows from the bounds that changed.
use crate::pace::Pace;
use crate::search::Search;
use std::alloc::AllocError;
use tsn_bounds::clauses::WatchOutcome;
use tsn_bounds::known::Known;
use tsn_bounds::literal::Literal;
use tsn_bounds::number::{less, next, push, sum};
use tsn_bounds::reason::Why;

// How much work it counts as to look at a frame of a link from one side. A link that rests counts as one looked at from both.
const LOOK: usize = 16;

impl Search {
    /// Works out what follows, until nothing changes or the work that there may be is used up. False at a contradiction, which is noted
    /// as the clash.
    pub fn propagate(&mut self) -> Result<bool, AllocError> {
        self.rises.begin();
        for _ in 0..u64::MAX {
            if !self.follow_changes()? {
                return Ok(false);
            }
            if self.pace.is_cut() {
                return Ok(true);
            }
            let Some(link) = self.known.calls.next() else {
                return Ok(true);
            };
            if !self.look_at_link(link)? {
                return Ok(false);
            }
        }
        Ok(true)
    }

    // What follows from changes by clauses, arcs and gaps.
    fn follow_changes(&mut self) -> Result<bool, AllocError> {
        for _ in 0..u64::MAX {
            if self.pace.is_cut() {
                break;
            }
            let Some(bound) = self.known.trail.next_change() else {
                break;
            };
            if self.known.trail.follow(bound) && !self.follow_bound(bound)? {
                return Ok(false);
            }
        }
        Ok(true)
    }

    // What follows from a bound that changed.
    fn follow_bound(&mut self, bound: u32) -> Result<bool, AllocError> {
        let known = &mut self.known;
        if !follow_clauses(known, &mut self.pace, bound)? {
            return Ok(false);
        }
        if bound >= known.times {
            return self.rises.follow_gap(known, &mut self.pace, bound);
        }
        if bound < known.span() {
            return Ok(
                follow_arrival(known, bound)?
                    && self.rises.follow_rivals(known, &mut self.pace, bound)?,
            );
        }
        if bound & 1 == 0 {
            return Ok(true);
        }
        follow_flowspan(known, &mut self.pace)
    }

    // Looks at a link from both sides, from the second one only where nothing changed by the first.
    fn look_at_link(&mut self, link: usize) -> Result<bool, AllocError> {
        let Some(count) = self.rooms.count_on(link) else {
            return Ok(true);
        };
        // What a question comes to by its premises alone is worked out whole.
        if self.known.trail.level() > self.premises.len() && self.rooms.rests.rests(link) {
            self.pace.spend(count.wrapping_mul(LOOK * 2));
            return Ok(true);
        }
        self.pace.spend(count);
        if !self.rooms.take(link, &self.known.trail.values)? {
            return Ok(true);
        }
        for side in 0..2 {
            let goes_on = self.rooms.look_from(link, side, &mut self.known)?;
            self.pace.spend(self.rooms.looked.wrapping_mul(LOOK));
            if !goes_on {
                self.rooms.rests.wake(link);
                return Ok(false);
            }
            if self.known.trail.looked < self.known.trail.events.len() {
                self.rooms.rests.wake(link);
                self.known.calls.call(link)?;
                return Ok(true);
            }
        }
        self.rooms.leave(link);
        Ok(true)
    }
}

fn follow_clauses(known: &mut Known, pace: &mut Pace, bound: u32) -> Result<bool, AllocError> {
    let value = known.trail.value(bound);
    known.clauses.take(bound);
    let count = known.clauses.open.len();
    pace.spend(count);
    let mut kept: usize = 0;
    let mut goes_on = true;
    for place in 0..count {
        let watch = known.clauses.in_hand(place);
        let is_kept = if goes_on && watch.least <= value {
            let contradicted = Literal::of(bound ^ 1, less(1, watch.least));
            match known
                .clauses
                .look(watch.clause, contradicted, &known.trail.values)?
            {
                WatchOutcome::Kept => true,
                WatchOutcome::Left => false,
                WatchOutcome::Last(literal) => {
                    goes_on = assert(known, literal, watch.clause, pace.conflicts)?;
                    true
                }
            }
        } else {
            true
        };
        if is_kept {
            known.clauses.keep(kept, watch);
            kept = next(kept);
        }
    }
    known.clauses.put_back(bound, kept)?;
    Ok(goes_on)
}

// The literal of a clause whose others are contradicted, after so many conflicts.
fn assert(
    known: &mut Known,
    literal: Literal,
    clause: u32,
    conflicts: u64,
) -> Result<bool, AllocError> {
    if !known.trail.is_false(literal) {
        return known.raise(literal, Why::Clause(clause));
    }
    known.clash.clear();
    for other in known.clauses.literals_of(clause) {
        push(&mut known.clash, other.opposite())?;
    }
    known.clash_deed = known.deed_of(literal, Why::Clause(clause));
    known.clauses.note_use(clause, conflicts);
    Ok(false)
}

// The least flowspan by a stream's least offset.
fn follow_arrival(known: &mut Known, bound: u32) -> Result<bool, AllocError> {
    if bound & 1 != 0 {
        return Ok(true);
    }
    let stream = bound / 2;
    let arrival = known.table.arrival(stream as usize);
    let least = sum(known.trail.value(bound), arrival);
    known.raise(Literal::of(known.span(), least), Why::Arrive(stream))
}

// The greatest offsets by the greatest flowspan.
fn follow_flowspan(known: &mut Known, pace: &mut Pace) -> Result<bool, AllocError> {
    let value = known.trail.value(known.span() ^ 1);
    let streams = known.table.streams();
    pace.spend(streams);
    for stream in 0..streams {
        let least = sum(value, known.table.arrival(stream));
        let bound = known.least(stream);
        if !known.raise(Literal::of(bound ^ 1, least), Why::Arrive(bound / 2))? {
            return Ok(false);
        }
    }
    Ok(true)
}

//! What follows from offsets by the gaps of pairs, and from gaps by the arcs of the blocks that they pass.
use crate::pace::Pace;
use crate::round::Rises;
use std::alloc::AllocError;
use tsn_bounds::known::{Arc, Known};
use tsn_bounds::literal::Literal;
use tsn_bounds::number::{at, item_at, less, next, sum};
use tsn_bounds::reason::Why;
use tsn_bounds::table::Rival;
use tsn_bounds::trail::Trail;

const NO_RIVAL: Rival = Rival {
    bound: 0,
    gap: 0,
    side: 0,
    start: 0,
    count: 0,
};

impl Rises {
    /// What follows from a bound of an offset for the stream's rivals. False at a contradiction, which is noted as the clash.
    pub fn follow_rivals(
        &mut self,
        known: &mut Known,
        pace: &mut Pace,
        bound: u32,
    ) -> Result<bool, AllocError> {
        let count = known.table.rivals_of(bound).len();
        pace.spend(count);
        let value = known.trail.value(bound);
        let mut from: usize = 0;
        for _ in 0..count {
            let Some(place) = next_moved(known, bound, value, from) else {
                break;
            };
            let rival = item_at(known.table.rivals_of(bound), place, NO_RIVAL);
            if !self.follow_rival(known, bound, rival)? {
                return Ok(false);
            }
            from = next(place);
        }
        Ok(true)
    }

    // The arc between the stream and its rival that the pair's gap is known to have, and blocks whose arc can't be met any longer: those
    // on which the left stream goes first for the left one's least offset and the right one's greatest, else those of the other side.
    fn follow_rival(
        &mut self,
        known: &mut Known,
        bound: u32,
        rival: Rival,
    ) -> Result<bool, AllocError> {
        if (bound ^ rival.side) & 1 == 0 {
            self.follow_to_left(known, bound, rival)
        } else {
            self.follow_to_right(known, bound, rival)
        }
    }

    fn follow_to_left(
        &mut self,
        known: &mut Known,
        bound: u32,
        rival: Rival,
    ) -> Result<bool, AllocError> {
        let gap = rival.gap;
        let least = known.trail.value(gap);
        let greatest = known.trail.value(gap ^ 1).wrapping_neg();
        if least > 0 {
            let weight = known.table.weight(rival.start, less(least, 1), 0);
            if !self.follow_arc(known, bound, rival, Literal::of(gap, least), weight)? {
                return Ok(false);
            }
        }
        let room = room(&known.trail, bound, rival);
        let mut most = greatest;
        for _ in least..greatest {
            let last = less(most, 1);
            if known.table.weight(rival.start, last, 0) <= room {
                break;
            }
            most = last;
        }
        if most >= greatest {
            return Ok(true);
        }
        turn(known, Literal::of(gap ^ 1, most.wrapping_neg()))
    }

    fn follow_to_right(
        &mut self,
        known: &mut Known,
        bound: u32,
        rival: Rival,
    ) -> Result<bool, AllocError> {
        let gap = rival.gap;
        let least = known.trail.value(gap);
        let greatest = known.trail.value(gap ^ 1).wrapping_neg();
        if greatest < rival.count as i64 {
            let weight = known.table.weight(rival.start, greatest, 1);
            let passed = Literal::of(gap ^ 1, greatest.wrapping_neg());
            if !self.follow_arc(known, bound, rival, passed, weight)? {
                return Ok(false);
            }
        }
        let room = room(&known.trail, bound, rival);
        let mut most = least;
        for _ in least..greatest {
            if known.table.weight(rival.start, most, 1) <= room {
                break;
            }
            most = sum(most, 1);
        }
        if most <= least {
            return Ok(true);
        }
        turn(known, Literal::of(gap, most))
    }

    fn follow_arc(
        &mut self,
        known: &mut Known,
        bound: u32,
        rival: Rival,
        gap: Literal,
        weight: i64,
    ) -> Result<bool, AllocError> {
        let to = rival.bound ^ (bound & 1);
        let least = sum(known.trail.value(bound), weight);
        self.raise_by_arc(known, Literal::of(to, least), gap)
    }

    /// The arc of the last block that a bound of a gap passes. False at a contradiction, which is noted as the clash.
    pub fn follow_gap(
        &mut self,
        known: &mut Known,
        pace: &mut Pace,
        bound: u32,
    ) -> Result<bool, AllocError> {
        let gap = Literal::of(bound, known.trail.value(bound));
        if gap.least == known.first_of(bound) {
            return Ok(true);
        }
        pace.spend(1);
        Ok(self.pass(known, gap, true)? && self.pass(known, gap, false)?)
    }

    // The arc of the last block that a gap passes, between least or greatest offsets.
    fn pass(
        &mut self,
        known: &mut Known,
        gap: Literal,
        is_least: bool,
    ) -> Result<bool, AllocError> {
        let arc = known.arc(gap, is_least);
        let least = sum(known.trail.value(arc.from), arc.weight);
        self.raise_by_arc(known, Literal::of(arc.to, least), gap)
    }
}

// The first of a stream's rivals, from a place on, for which something follows from a value of a bound.
fn next_moved(known: &Known, bound: u32, value: i64, from: usize) -> Option<usize> {
    let rivals = known.table.rivals_of(bound);
    for place in from..rivals.len() {
        if known.is_moved(bound, value, &rivals[place]) {
            return Some(place);
        }
    }
    None
}

// How much later than the one the other one of the pair may start at most: by the bound and that of the rival's.
fn room(trail: &Trail, bound: u32, rival: Rival) -> i64 {
    let other = rival.bound ^ ((bound ^ 1) & 1);
    let own = trail.value(bound);
    less(own.wrapping_neg(), trail.value(other))
}

// The other side of a block can't be met.
fn turn(known: &mut Known, gap: Literal) -> Result<bool, AllocError> {
    let arc = known.other_arc(gap);
    let least = least_to_turn(&known.trail, arc);
    let most = less(less(1, least), arc.weight);
    known.raise(gap, Why::Turn(most))
}

// An arc can't be met: how great its source has to be for that. What is known before the first decision counts most, then what
// came to be known first.
fn least_to_turn(trail: &Trail, arc: Arc) -> i64 {
    let value = trail.value(arc.from);
    let needed = less(less(1, trail.value(arc.to ^ 1)), arc.weight);
    let ground = at(&trail.ground, arc.from as usize);
    if ground >= needed {
        return ground;
    }
    let most = at(&trail.ground, (arc.to ^ 1) as usize);
    let by_ground = less(less(1, most), arc.weight);
    if by_ground <= value {
        return by_ground;
    }
    match trail.event_of(Literal::of(arc.from, needed)) {
        Some(number) => trail.event(number).new,
        None => needed,
    }
}

//! Which flowspan is looked for next.
use crate::effort::effort_for;
use tsn_bounds::number::{less, sum};

// How often nothing may be found one nanosecond below, each time with twice as many tries.
const MISSES: u64 = 10;

/// A flowspan between a bound and the best one, nearer to that the more often none was found.
#[derive(Clone, Copy, Drop)]
pub struct Aim {
    // Of how many parts, of what is between, the last one is looked for.
    parts: i64,
    /// How often streams may have no room.
    pub tries: u64,
    misses: u64,
}

impl Aim {
    /// The bound, for so many streams.
    pub fn new(streams: usize) -> Aim {
        Aim {
            parts: 1,
            tries: effort_for(streams).tries.wrapping_add(streams as u64),
            misses: 0,
        }
    }

    /// The flowspan that is looked for.
    pub fn target(&self, least: i64, best: i64) -> i64 {
        let part = match less(best, least).checked_div(self.parts) {
            Some(part) => part,
            None => 1,
        };
        less(best, part.max(1))
    }

    /// A schedule was found.
    pub fn note_found(&mut self) {
        self.parts = (self.parts / 2).max(1);
        self.misses = 0;
    }

    /// None was found.
    pub fn note_none(&mut self, target: i64, best: i64) {
        if sum(target, 1) < best {
            self.parts = self.parts.wrapping_mul(2);
            return;
        }
        self.parts = 4;
        self.tries = self.tries.wrapping_mul(2);
        self.misses = self.misses.wrapping_add(1);
    }

    /// Whether it has no use to go on.
    pub fn is_over(&self) -> bool {
        self.misses >= MISSES
    }
}

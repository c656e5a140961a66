//! Who is in a stream's way.
use std::alloc::{AllocError, Global};
use tsn_bounds::number::{at, index_at, push, put, put_index, sum};

/// What those weigh that can't be moved.
pub const BARRED: i64 = 1_000_000_000_000_000;

// A weight that is too large, and by what all are divided then.
const HEAVY: i64 = 1_000_000;

const SCALE: i64 = 1_000;

/// Streams that are in one's way, each once, and what they weigh.
#[derive(Drop)]
pub struct Rivals {
    pub list: Vec<u32>,
    pub weight: i64,
    /// Streams of lesser numbers can't be moved.
    pub fixed: usize,
    // Of each stream: what it weighs, which grows as often as there is no room for it.
    weights: Vec<i64>,
    // Of each stream: in which round it was met last.
    met: Vec<u32>,
    round: u32,
}

impl Rivals {
    /// None of so many streams.
    pub fn none(alloc: Global) -> Rivals {
        Rivals {
            list: Vec::new(alloc),
            weight: 0,
            fixed: 0,
            weights: Vec::new(alloc),
            met: Vec::new(alloc),
            round: 0,
        }
    }

    /// Makes room for so many streams.
    pub fn size(&mut self, streams: usize) -> Result<(), AllocError> {
        self.weights.resize(streams, 1)?;
        self.met.resize(streams, 0)
    }

    /// None is met.
    pub fn begin(&mut self) {
        self.list.clear();
        self.weight = 0;
        self.round = self.round.wrapping_add(1);
    }

    /// Meets a stream.
    pub fn meet(&mut self, stream: u32) -> Result<(), AllocError> {
        let place = stream as usize;
        if index_at(&self.met, place) == self.round {
            return Ok(());
        }
        put_index(&mut self.met, place, self.round);
        self.weight = if place < self.fixed {
            BARRED
        } else {
            sum(self.weight, at(&self.weights, place))
        };
        push(&mut self.list, stream)
    }

    /// There was no room for a stream.
    pub fn weigh_more(&mut self, stream: usize) {
        let weight = sum(at(&self.weights, stream), 1);
        put(&mut self.weights, stream, weight);
        if weight > HEAVY {
            for one in self.weights.iter_mut() {
                *one = sum(*one / SCALE, 1);
            }
        }
    }

    /// The one of this place.
    pub fn stream(&self, place: usize) -> usize {
        index_at(&self.list, place) as usize
    }
}

//! Which sums some works come to, each once: a set of bits, in units of the works' greatest common divisor. Times are in nanoseconds.
use std::alloc::{AllocError, Global};
use tsn_bounds::number::{index, item_at, less, next, put_item, sum};
use tsn_bounds::table::{place_of, signed_place};

// How many units a room has at most in which sums are looked at.
const UNITS: i64 = 4096;

// How many sums a word tells.
const BITS: usize = 64;

/// The sums.
#[derive(Drop)]
pub struct Sums {
    words: Vec<u64>,
    // How many words are in use, and what a unit is.
    count: usize,
    unit: i64,
}

impl Sums {
    /// Of no works, and without room.
    pub fn none(alloc: Global) -> Sums {
        Sums {
            words: Vec::new(alloc),
            count: 0,
            unit: 1,
        }
    }

    /// Makes room for all sums that are looked at. The error says that there was no memory.
    pub fn size(&mut self) -> Result<(), AllocError> {
        self.words.resize(next(place_of(UNITS) / BITS), 0)
    }

    /// Begins with no works, for sums up to a room.
    pub fn begin(&mut self, unit: i64, room: i64) {
        self.unit = unit.max(1);
        self.count = next(self.units_of(room) / BITS);
        for place in 0..self.count {
            put_item(&mut self.words, place, 0);
        }
        put_item(&mut self.words, 0, 1);
    }

    /// One more work, which asks that the others of its sums come to this at least.
    pub fn add(&mut self, work: i64, least: i64) {
        let by = self.units_of(work);
        let from = self.units_of(sum(least, less(self.unit, 1)));
        let words = by / BITS;
        let bits = index(by % BITS);
        for place in (words..self.count).rev() {
            let source = place.wrapping_sub(words);
            let mut more = self.source(source, from).wrapping_shl(bits);
            if bits > 0 && source > 0 {
                let low = self.source(source.wrapping_sub(1), from);
                more |= low.wrapping_shr(64u32.wrapping_sub(bits));
            }
            let old = item_at(&self.words, place, 0);
            put_item(&mut self.words, place, old | more);
        }
    }

    // The sums of this word from a number of units on.
    fn source(&self, place: usize, from: usize) -> u64 {
        let word = item_at(&self.words, place, 0);
        let first = from / BITS;
        if place < first {
            0
        } else if place == first {
            word & u64::MAX.wrapping_shl(index(from % BITS))
        } else {
            word
        }
    }

    /// Whether sums up to this are looked at.
    pub fn is_near(&self, room: i64) -> bool {
        room <= self.unit.wrapping_mul(UNITS)
    }

    /// What sums leave of a room at least; nothing where it's too long.
    pub fn wasted(&self, room: i64) -> i64 {
        if room <= 0 || !self.is_near(room) {
            0
        } else {
            less(room, self.below(room))
        }
    }

    /// The greatest sum of at most this.
    pub fn below(&self, room: i64) -> i64 {
        let last = self.units_of(room);
        let end = last / BITS;
        let unused = 63u32.wrapping_sub(index(last % BITS));
        for place in (0..next(end)).rev() {
            let mut word = item_at(&self.words, place, 0);
            if place == end {
                word &= u64::MAX.wrapping_shr(unused);
            }
            if word != 0 {
                let bit = 63u32.wrapping_sub(word.leading_zeros());
                return self.sum_of(place, bit);
            }
        }
        0
    }

    /// The least sum above this; past what is looked at where there is none.
    pub fn above(&self, room: i64) -> i64 {
        let past = sum(self.unit.wrapping_mul(UNITS), 1);
        let first = next(self.units_of(room));
        let begin = first / BITS;
        for place in begin..self.count {
            let mut word = item_at(&self.words, place, 0);
            if place == begin {
                word &= u64::MAX.wrapping_shl(index(first % BITS));
            }
            if word != 0 {
                return self.sum_of(place, word.trailing_zeros()).min(past);
            }
        }
        past
    }

    fn sum_of(&self, place: usize, bit: u32) -> i64 {
        let units = place.wrapping_mul(BITS).wrapping_add(bit as usize);
        signed_place(units).wrapping_mul(self.unit)
    }

    // How many whole units a time has; at most one more than are looked at.
    fn units_of(&self, time: i64) -> usize {
        match time.checked_div(self.unit) {
            Some(units) => place_of(units.max(0).min(UNITS.wrapping_add(1))),
            None => 0,
        }
    }
}

/// The greatest common divisor.
pub fn divisor(one: i64, other: i64) -> i64 {
    let mut great = one;
    let mut small = other;
    for _ in 0..128 {
        match great.checked_rem(small) {
            Some(rest) => {
                great = small;
                small = rest;
            }
            None => break,
        }
    }
    great
}

//! Which block is decided next: the one that conflicts asked for most of late (Moskewicz, Madigan, Zhao, Zhang and Malik 2001), from a
//! binary heap.
use std::alloc::{AllocError, Global};
use tsn_bounds::known::Known;
use tsn_bounds::literal::Literal;
use tsn_bounds::number::{NONE, at, index, index_at, item_at, push, put, put_index, put_item, sum};
use tsn_bounds::table::{Pair, Table, place_of, signed_place};
use tsn_bounds::trail::Event;

/// The blocks that may be decided, by their numbers.
#[derive(Drop)]
pub struct Choice {
    activities: Vec<f64>,
    step: f64,
    // Each one is no less active than those at twice its place and one or two more.
    heap: Vec<u32>,
    // The place of each block in the heap.
    places: Vec<u32>,
    // The gap of each pair that is tried first.
    gaps: Vec<i64>,
    // How many blocks were chosen that the least offsets keep.
    calm: u64,
}

impl Choice {
    /// There are none.
    pub fn none(alloc: Global) -> Choice {
        Choice {
            activities: Vec::new(alloc),
            step: 1.0,
            heap: Vec::new(alloc),
            places: Vec::new(alloc),
            gaps: Vec::new(alloc),
            calm: 0,
        }
    }

    /// Puts the blocks of a network in, all equal. The error says that there was no memory.
    pub fn fill(&mut self, table: &Table) -> Result<(), AllocError> {
        let blocks = table.blocks.len();
        self.places.resize(blocks, NONE)?;
        self.gaps.resize(table.pairs.len(), 0)?;
        for block in 0..blocks {
            push(&mut self.activities, 0.0)?;
            self.put_in(index(block))?;
        }
        Ok(())
    }

    /// Puts a block in, if it isn't.
    pub fn put_in(&mut self, block: u32) -> Result<(), AllocError> {
        if (block as usize) < self.places.len() && index_at(&self.places, block as usize) == NONE {
            let place = self.heap.len();
            push(&mut self.heap, block)?;
            self.rise(block, place);
        }
        Ok(())
    }

    /// Goes back to the end of a level. The error says that there was no memory.
    pub fn go_back(&mut self, known: &mut Known, level: usize) -> Result<(), AllocError> {
        for _ in 0..known.trail.events.len() {
            let Some(event) = known.trail.take_back(level) else {
                break;
            };
            if event.bound >= known.times {
                let number = known.pair_number(event.bound);
                self.free(number, known.table.pair(number), event)?;
            }
        }
        if level < known.trail.level() {
            known.trail.close(level);
            known.calls.dismiss();
        }
        Ok(())
    }

    // A bound of a pair's gap isn't as narrow any longer: the blocks between may be decided again, and at first as they were.
    fn free(&mut self, number: usize, pair: Pair, event: Event) -> Result<(), AllocError> {
        let gap = self.gap(number);
        if event.bound & 1 == 0 {
            self.set_gap(number, gap.max(event.new));
            self.put_blocks(pair.start, event.old, event.new)
        } else {
            let most = event.new.wrapping_neg();
            self.set_gap(number, gap.min(most));
            self.put_blocks(pair.start, most, event.old.wrapping_neg())
        }
    }

    fn put_blocks(&mut self, start: usize, from: i64, to: i64) -> Result<(), AllocError> {
        let first = start.wrapping_add(place_of(from));
        let end = start.wrapping_add(place_of(to));
        for block in first..end {
            self.put_in(index(block))?;
        }
        Ok(())
    }

    /// Which gaps are tried first: as offsets have them.
    pub fn set_sides(&mut self, table: &Table, offsets: &[i64]) {
        for pair in 0..table.pairs.len() {
            self.set_gap(pair, table.gap_by(pair, offsets));
        }
    }

    /// A side of the most active block that isn't decided. None where the least offsets are a schedule.
    pub fn choose(&mut self, known: &Known) -> Result<Option<Literal>, AllocError> {
        for _ in 0..known.table.blocks.len() {
            let Some(place) = self.take() else {
                return Ok(None);
            };
            let number = known.table.owner(place as usize);
            let pair = known.table.pair(number);
            let block = signed_place((place as usize).wrapping_sub(pair.start));
            let (least, greatest) = known.gaps_left(number);
            if block < least || block >= greatest {
                continue;
            }
            if self.is_calm(number, pair, known) {
                self.put_in(place)?;
                return Ok(None);
            }
            return Ok(Some(self.side_of(number, block, known.gap(number))));
        }
        Ok(None)
    }

    // The side of a block of a pair on which the gap is that is tried first, by the bound of the pair's least gap.
    fn side_of(&self, pair: usize, block: i64, bound: u32) -> Literal {
        if self.gap(pair) > block {
            Literal::of(bound, sum(block, 1))
        } else {
            Literal::of(bound ^ 1, block.wrapping_neg())
        }
    }

    // Whether the least offsets violate no block; it's looked at now and then where they violate none of a pair.
    fn is_calm(&mut self, number: usize, pair: Pair, known: &Known) -> bool {
        if known.is_violated(number, pair) {
            return false;
        }
        self.calm = self.calm.wrapping_add(1);
        self.calm % 32 == 0 && !known.is_any_violated()
    }

    /// Takes the most active one out.
    pub fn take(&mut self) -> Option<u32> {
        let most = *self.heap.first()?;
        put_index(&mut self.places, most as usize, NONE);
        let last = self.heap.pop()?;
        if last != most {
            self.fall(last);
        }
        Some(most)
    }

    /// A conflict asked for this block.
    pub fn ask_for(&mut self, block: u32) {
        let activity = self.activity(block) + self.step;
        put_item(&mut self.activities, block as usize, activity);
        if activity > 1e100 {
            self.scale_down();
        }
        let place = index_at(&self.places, block as usize);
        if place != NONE {
            self.rise(block, place as usize);
        }
    }

    /// What was asked for before counts a little less from here on.
    pub fn forget_some(&mut self) {
        self.step *= 1.0 / 0.95;
    }

    /// The gap of a pair that is tried first.
    pub fn gap(&self, pair: usize) -> i64 {
        at(&self.gaps, pair)
    }

    /// Notes which gap of a pair is tried first.
    pub fn set_gap(&mut self, pair: usize, gap: i64) {
        put(&mut self.gaps, pair, gap);
    }

    fn activity(&self, block: u32) -> f64 {
        item_at(&self.activities, block as usize, 0.0)
    }

    fn scale_down(&mut self) {
        for activity in self.activities.iter_mut() {
            *activity *= 1e-100;
        }
        self.step *= 1e-100;
    }

    fn set(&mut self, place: usize, block: u32) {
        put_index(&mut self.heap, place, block);
        put_index(&mut self.places, block as usize, index(place));
    }

    // Moves a block up from this place.
    fn rise(&mut self, block: u32, from: usize) {
        let activity = self.activity(block);
        let mut place = from;
        for _ in 0..64 {
            if place == 0 {
                break;
            }
            let above = place.wrapping_sub(1) / 2;
            let other = index_at(&self.heap, above);
            if self.activity(other) >= activity {
                break;
            }
            self.set(place, other);
            place = above;
        }
        self.set(place, block);
    }

    // Moves a block down from the top.
    fn fall(&mut self, block: u32) {
        let activity = self.activity(block);
        let mut place: usize = 0;
        for _ in 0..64 {
            let Some((below, other)) = self.most_below(place) else {
                break;
            };
            if self.activity(other) <= activity {
                break;
            }
            self.set(place, other);
            place = below;
        }
        self.set(place, block);
    }

    // The more active one of the two below a place.
    fn most_below(&self, place: usize) -> Option<(usize, u32)> {
        let first = place.wrapping_mul(2).wrapping_add(1);
        let second = first.wrapping_add(1);
        if first >= self.heap.len() {
            return None;
        }
        let one = index_at(&self.heap, first);
        let other = index_at(&self.heap, second);
        if second < self.heap.len() && self.activity(other) > self.activity(one) {
            Some((second, other))
        } else {
            Some((first, one))
        }
    }
}

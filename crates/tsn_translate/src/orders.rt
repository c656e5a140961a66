//! Which orders a view has, as arguments write them: of a conflict and a side. The orders of a pair in one direction ask for more the
//! further they are in its list, those in the other direction the less far. A pair and a side are named by one number: twice the
//! number of the pair, and one more where the right stream goes first.
use std::alloc::{AllocError, Global};
use tsn_bounds::number::{NONE, index_at, is_marked, mark, push, put_index};

/// The orders of a view.
#[derive(Drop)]
pub struct Held {
    // Of each pair and side the conflict that asks for most.
    most: Vec<u32>,
    // Of each conflict and side whether the view has it.
    has: Vec<bool>,
    // What was noted.
    noted: Vec<Noted>,
}

// The order of a conflict and a side, and its pair and side.
#[derive(Clone, Copy)]
struct Noted {
    order: usize,
    pair: usize,
}

impl Held {
    /// None.
    pub fn none(alloc: Global) -> Held {
        Held {
            most: Vec::new(alloc),
            has: Vec::new(alloc),
            noted: Vec::new(alloc),
        }
    }

    /// Makes room for so many pairs and conflicts. The error says that there was no memory.
    pub fn size(&mut self, pairs: usize, conflicts: usize) -> Result<(), AllocError> {
        self.most.resize(pairs.wrapping_mul(2), NONE)?;
        self.has.resize(conflicts.wrapping_mul(2), false)
    }

    /// Whether the view has the order of a conflict on the side of a pair.
    pub fn has(&self, pair: usize, conflict: u32) -> bool {
        is_marked(&self.has, order_of(pair, conflict))
    }

    /// The conflict of a pair that asks for most on a side of which the view has the order; none where it has none.
    pub fn most(&self, pair: usize) -> u32 {
        index_at(&self.most, pair)
    }

    /// The view has the order of a conflict on the side of a pair from here on.
    pub fn gain(&mut self, pair: usize, conflict: u32) -> Result<(), AllocError> {
        let order = order_of(pair, conflict);
        if is_marked(&self.has, order) {
            return Ok(());
        }
        mark(&mut self.has, order, true);
        push(&mut self.noted, Noted { order, pair })?;
        let most = stronger(pair, self.most(pair), conflict);
        put_index(&mut self.most, pair, most);
        Ok(())
    }

    /// The view has none of them any longer.
    pub fn clear(&mut self) {
        for noted in &self.noted {
            mark(&mut self.has, noted.order, false);
            put_index(&mut self.most, noted.pair, NONE);
        }
        self.noted.clear();
    }
}

/// The one of two conflicts that asks for more on the side of a pair; either may be none.
pub fn stronger(pair: usize, one: u32, other: u32) -> u32 {
    if one == NONE {
        return other;
    }
    if other == NONE {
        return one;
    }
    if pair & 1 == 0 {
        one.max(other)
    } else {
        one.min(other)
    }
}

fn order_of(pair: usize, conflict: u32) -> usize {
    (conflict as usize).wrapping_mul(2).wrapping_add(pair & 1)
}

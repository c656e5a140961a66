//! The numbers of a network that the search asks for. Times are in nanoseconds.
use crate::number::{at, index, index_at, item_at, less, push, sum};
use std::alloc::{AllocError, Global};

/// A stream.
#[derive(Clone, Copy)]
pub struct Body {
    /// The least offset.
    pub release: i64,
    /// When the last frame of a period arrives, from the offset on.
    pub arrival: i64,
    /// The greatest offset by which it is done within its period and arrives in time.
    pub latest: i64,
}

/// A frame on a link.
#[derive(Clone, Copy)]
pub struct Visit {
    pub stream: usize,
    /// Which of its stream's frames it is: how long after the offset it starts on its first link.
    pub shift: i64,
    /// When it starts on this link, from the stream's offset on.
    pub start: i64,
    /// How long it is there.
    pub work: i64,
}

/// A link that two streams or more share, with three frames or more.
#[derive(Drop)]
pub struct Shared {
    pub number: usize,
    /// The frames of the time after which all of them come again.
    pub visits: Vec<Visit>,
}

/// Where a stream goes: its places in the list of shared links.
#[derive(Drop)]
pub struct Stays {
    pub links: Vec<u32>,
}

/// A link that two streams share, and a lag of their frames.
#[derive(Clone, Copy)]
pub struct Conflict {
    pub link: usize,
    /// By how much the right stream's frame comes after the left one's, were both offsets 0.
    pub lag: i64,
    /// So much later than the left one the right one starts at least, if the left one goes first.
    pub left_first: i64,
    /// So much later than the right one the left one starts at least, if the right one goes first.
    pub right_first: i64,
}

/// Conflicts of two streams that have the same side in each schedule, since the differences of offsets that they forbid overlap.
#[derive(Clone, Copy)]
pub struct Block {
    /// What the last conflict asks for if the left stream goes first, and the first one if the right stream does: the most.
    pub left_first: i64,
    pub right_first: i64,
    /// The numbers of its first and its last conflict.
    pub first: usize,
    pub last: usize,
}

/// Two streams that can be in each other's way. Between the differences that their blocks forbid are gaps, which are numbered from 0:
/// in gap v the left stream goes first at the blocks below v, and the right one at the others.
#[derive(Clone, Copy)]
pub struct Pair {
    pub left: usize,
    pub right: usize,
    /// The number of its first block, and how many there are.
    pub start: usize,
    pub count: usize,
}

/// A stream that can be in the way of another one.
#[derive(Clone, Copy)]
pub struct Rival {
    /// The bound of its least offset.
    pub bound: u32,
    /// The bound of the pair's least gap.
    pub gap: u32,
    /// 0 where it is the right one of the pair, 1 where it is the left one.
    pub side: u32,
    /// Of the pair.
    pub start: u32,
    pub count: u32,
}

/// The rivals of a stream.
#[derive(Drop)]
pub struct Rivals {
    pub list: Vec<Rival>,
}

const NO_BODY: Body = Body {
    release: 0,
    arrival: 0,
    latest: 0,
};

/// No frame.
pub const NO_VISIT: Visit = Visit {
    stream: 0,
    shift: 0,
    start: 0,
    work: 0,
};

const NO_CONFLICT: Conflict = Conflict {
    link: 0,
    lag: 0,
    left_first: 0,
    right_first: 0,
};

const NO_BLOCK: Block = Block {
    left_first: 0,
    right_first: 0,
    first: 0,
    last: 0,
};

const NO_PAIR: Pair = Pair {
    left: 0,
    right: 0,
    start: 0,
    count: 0,
};

/// The numbers of a network.
#[derive(Drop)]
pub struct Table {
    /// No schedule of a greater flowspan is in question.
    pub most: i64,
    pub bodies: Vec<Body>,
    pub links: Vec<Shared>,
    pub stays: Vec<Stays>,
    /// Of each pair of streams one after another, by the differences that they forbid. None forbids only what another one does.
    pub conflicts: Vec<Conflict>,
    /// The blocks of the pairs, one after another, by the differences that they forbid.
    pub blocks: Vec<Block>,
    pub pairs: Vec<Pair>,
    pub rivals: Vec<Rivals>,
    // Of each block the number of its pair.
    owners: Vec<u32>,
    // Of each block what it asks for if the left stream goes first, and if the right one does.
    weights: Vec<i64>,
}

impl Table {
    /// Those of a network without streams.
    pub fn none(alloc: Global, most: i64) -> Table {
        Table {
            most,
            bodies: Vec::new(alloc),
            links: Vec::new(alloc),
            stays: Vec::new(alloc),
            conflicts: Vec::new(alloc),
            blocks: Vec::new(alloc),
            pairs: Vec::new(alloc),
            rivals: Vec::new(alloc),
            owners: Vec::new(alloc),
            weights: Vec::new(alloc),
        }
    }

    /// Puts the bounds that there are before anything is given behind the others. The error says that there was no memory.
    pub fn put_values(&self, values: &mut Vec<i64>) -> Result<(), AllocError> {
        for body in &self.bodies {
            push(values, body.release)?;
            push(values, body.latest.wrapping_neg())?;
        }
        push(values, 0)?;
        push(values, self.most.wrapping_neg())?;
        for pair in &self.pairs {
            push(values, 0)?;
            push(values, signed_place(pair.count).wrapping_neg())?;
        }
        Ok(())
    }

    /// Notes of each stream which others can be in its way. The error says that there was no memory.
    pub fn note_rivals(&mut self, alloc: Global) -> Result<(), AllocError> {
        for _ in 0..self.bodies.len() {
            let none = Rivals {
                list: Vec::new(alloc),
            };
            push(&mut self.rivals, none)?;
        }
        for number in 0..self.pairs.len() {
            let pair = self.pair(number);
            let gap = self.gap(number);
            self.note_rival(pair.left, rival_of(pair, gap, 0))?;
            self.note_rival(pair.right, rival_of(pair, gap, 1))?;
            self.note_owner(pair.count, index(number))?;
        }
        self.note_weights()
    }

    fn note_weights(&mut self) -> Result<(), AllocError> {
        for block in &self.blocks {
            push(&mut self.weights, block.left_first)?;
            push(&mut self.weights, block.right_first)?;
        }
        Ok(())
    }

    /// What a block, by its number among those of a pair that start at a place, asks for if the left stream goes first, on side 0; if the
    /// right one does, on side 1.
    pub fn weight(&self, start: u32, number: i64, side: u32) -> i64 {
        let block = (start as usize).wrapping_add(place_of(number));
        at(
            &self.weights,
            block.wrapping_mul(2).wrapping_add(side as usize),
        )
    }

    /// The bound of the least gap of a pair.
    pub fn gap(&self, pair: usize) -> u32 {
        index(
            self.streams()
                .wrapping_add(pair)
                .wrapping_add(1)
                .wrapping_mul(2),
        )
    }

    fn note_owner(&mut self, count: usize, pair: u32) -> Result<(), AllocError> {
        for _ in 0..count {
            push(&mut self.owners, pair)?;
        }
        Ok(())
    }

    fn note_rival(&mut self, stream: usize, rival: Rival) -> Result<(), AllocError> {
        match self.rivals.get_mut(stream) {
            Some(rivals) => push(&mut rivals.list, rival),
            None => Ok(()),
        }
    }

    /// How many streams there are.
    pub fn streams(&self) -> usize {
        self.bodies.len()
    }

    /// The shared links of the stream whose offset this is a bound of.
    pub fn links_of(&self, bound: u32) -> &[u32] {
        match self.stays.get((bound / 2) as usize) {
            Some(stays) => stays.links.as_slice(),
            None => &[],
        }
    }

    /// The rivals of the stream whose offset this is a bound of.
    pub fn rivals_of(&self, bound: u32) -> &[Rival] {
        match self.rivals.get((bound / 2) as usize) {
            Some(rivals) => rivals.list.as_slice(),
            None => &[],
        }
    }

    /// The conflict of this number.
    pub fn conflict(&self, number: usize) -> Conflict {
        item_at(&self.conflicts, number, NO_CONFLICT)
    }

    /// The block of this number.
    pub fn block(&self, number: usize) -> Block {
        item_at(&self.blocks, number, NO_BLOCK)
    }

    /// The number of a block's pair.
    pub fn owner(&self, block: usize) -> usize {
        index_at(&self.owners, block) as usize
    }

    /// The pair of this number.
    pub fn pair(&self, number: usize) -> Pair {
        item_at(&self.pairs, number, NO_PAIR)
    }

    /// When the stream arrives, from its offset on.
    pub fn arrival(&self, stream: usize) -> i64 {
        item_at(&self.bodies, stream, NO_BODY).arrival
    }

    /// The frame of this place on a shared link.
    pub fn visit(&self, link: usize, place: usize) -> Visit {
        match self.links.get(link) {
            Some(shared) => item_at(&shared.visits, place, NO_VISIT),
            None => NO_VISIT,
        }
    }

    /// The number of a shared link in the network.
    pub fn link_number(&self, link: usize) -> usize {
        match self.links.get(link) {
            Some(shared) => shared.number,
            None => 0,
        }
    }

    /// When the last stream has arrived, by the offsets.
    pub fn flowspan(&self, offsets: &[i64]) -> i64 {
        let mut last = 0i64;
        for stream in 0..self.streams().min(offsets.len()) {
            last = last.max(sum(at(offsets, stream), self.arrival(stream)));
        }
        last
    }

    /// The first block of a pair, from one of its blocks on and before another one, that isn't passed by a difference of offsets; the
    /// latter where there is none.
    pub fn first_unpassed(&self, pair: Pair, from: i64, to: i64, apart: i64) -> i64 {
        let mut low = from;
        let mut high = to;
        for _ in 0..64 {
            if low >= high {
                break;
            }
            let middle = sum(low, high) / 2;
            if self.block_of(pair.start, middle).left_first <= apart {
                low = sum(middle, 1);
            } else {
                high = middle;
            }
        }
        low
    }

    /// The gap of a pair by offsets.
    pub fn gap_by(&self, number: usize, offsets: &[i64]) -> i64 {
        let pair = self.pair(number);
        let apart = less(at(offsets, pair.right), at(offsets, pair.left));
        self.first_unpassed(pair, 0, signed_place(pair.count), apart)
    }

    /// The block of this number among those of a pair whose blocks start at a place.
    pub fn block_of(&self, start: usize, number: i64) -> Block {
        self.block(start.wrapping_add(place_of(number)))
    }
}

/// A number of blocks as a place.
pub fn place_of(number: i64) -> usize {
    (number & 0xFFFF_FFFF) as usize
}

/// A place as a number with a sign.
pub fn signed_place(place: usize) -> i64 {
    (place & 0xFFFF_FFFF) as i64
}

fn rival_of(pair: Pair, gap: u32, side: u32) -> Rival {
    let stream = if side == 0 { pair.right } else { pair.left };
    Rival {
        bound: index(stream.wrapping_mul(2)),
        gap,
        side,
        start: index(pair.start),
        count: index(pair.count),
    }
}

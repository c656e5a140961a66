//! When a link is busy, where each frame goes as early as it can, in as many parts as it takes (the time line of Fahimi, Ouellet and
//! Quimper 2018). Times are in nanoseconds.
use crate::ranks::Ranks;
use std::alloc::{AllocError, Global};
use tsn_bounds::number::{FAR, item_at, less, next, push, put_item, sum};

/// A frame of a link as seen from one side.
#[derive(Clone, Copy)]
pub struct Standing {
    /// Its place among the link's frames.
    pub place: usize,
    pub head: i64,
    pub end: i64,
    pub work: i64,
    /// In the order of ends: its place in the order of heads.
    pub rank: usize,
    /// In the order of ends: the most work of those of greater end, where it's the last one of its end; else far less than none.
    pub most: i64,
}

const NO_STANDING: Standing = Standing {
    place: 0,
    head: FAR,
    end: FAR,
    work: 0,
    rank: 0,
    most: 0,
};

/// When the link is busy.
#[derive(Drop)]
pub struct Line {
    // Times without a break, one after another: the first ones are in use, up to the place of the last one. The very first is before
    // all times.
    blocks: Vec<BusyTime>,
    last: usize,
    // How long it's busy.
    work: i64,
}

// A time without a break.
#[derive(Clone, Copy)]
struct BusyTime {
    begin: i64,
    end: i64,
}

/// The most work of those that may be one more, and the end that is looked at.
#[derive(Clone, Copy)]
pub struct Limit {
    pub most: i64,
    pub end: i64,
}

// How far it was gone back: from when on, in which block, and when the link is done less how long it's free from then on.
#[derive(Clone, Copy)]
struct Back {
    place: usize,
    begin: i64,
    over: i64,
}

const LONG_AGO: BusyTime = BusyTime {
    begin: -4 * FAR,
    end: -4 * FAR,
};

impl Line {
    /// Of no frames.
    pub fn none(alloc: Global) -> Line {
        Line {
            blocks: Vec::new(alloc),
            last: 0,
            work: 0,
        }
    }

    /// Makes it one of so many frames. The error says that there was no memory.
    pub fn size(&mut self, most: usize) -> Result<(), AllocError> {
        for _ in 0..next(next(most)) {
            push(&mut self.blocks, LONG_AGO)?;
        }
        Ok(())
    }

    /// The link isn't busy.
    pub fn clear(&mut self) {
        self.last = 0;
        self.work = 0;
    }

    /// When all are done.
    pub fn over(&self) -> i64 {
        self.block(self.last).end
    }

    /// Takes a frame in.
    pub fn insert(&mut self, head: i64, work: i64) {
        self.work = sum(self.work, work);
        let Some(last) = self.blocks.get_mut(self.last) else {
            return;
        };
        if head < last.begin {
            return self.insert_before(head, work);
        }
        if head <= last.end {
            last.end = sum(last.end, work);
            return;
        }
        self.last = next(self.last);
        let end = sum(head, work);
        self.put(self.last, BusyTime { begin: head, end });
    }

    // Takes a frame in that begins before the last block does.
    fn insert_before(&mut self, head: i64, work: i64) {
        let before = self.last_before(head);
        let mut own = self.block(before);
        let mut place = before;
        if head <= own.end {
            own.end = sum(own.end, work);
        } else {
            own = BusyTime {
                begin: head,
                end: sum(head, work),
            };
            place = next(before);
        }
        let behind = self.join(next(before), &mut own);
        self.make_room(place, behind);
        self.put(place, own);
    }

    // The place of the last block that doesn't begin later than this.
    fn last_before(&self, head: i64) -> usize {
        let mut place = self.last;
        for _ in 0..self.last {
            if self.block(place).begin <= head {
                break;
            }
            place = place.wrapping_sub(1);
        }
        place
    }

    // Joins a block with those from a place on that it overlaps: what was before its end goes behind that. The place behind those.
    fn join(&self, from: usize, own: &mut BusyTime) -> usize {
        for place in from..next(self.last) {
            let block = self.block(place);
            if block.begin > own.end {
                return place;
            }
            own.end = sum(own.end, less(block.end, block.begin));
        }
        next(self.last)
    }

    // Makes room for one block at a place, in place of those from there to another place.
    fn make_room(&mut self, place: usize, behind: usize) {
        let following = next(place);
        if behind == place {
            for old in (place..next(self.last)).rev() {
                let block = self.block(old);
                self.put(next(old), block);
            }
            self.last = next(self.last);
        } else if behind > following {
            let dropped = behind.wrapping_sub(following);
            for old in behind..next(self.last) {
                let block = self.block(old);
                self.put(old.wrapping_sub(dropped), block);
            }
            self.last = self.last.wrapping_sub(dropped);
        }
    }

    fn block(&self, place: usize) -> BusyTime {
        item_at(&self.blocks, place, LONG_AGO)
    }

    fn put(&mut self, place: usize, block: BusyTime) {
        put_item(&mut self.blocks, place, block);
    }

    /// When those taken in are done, with one more of some frames, by their ranks in the order of heads, all below a rank: none has
    /// more work than the most. It's told too late only where that is before the end.
    pub fn latest(&self, heads: &[Standing], ranks: &Ranks, late: usize, limit: Limit) -> i64 {
        let last = self.block(self.last);
        let mut latest = last.end;
        let mut back = Back {
            place: self.last,
            begin: last.begin,
            over: last.end,
        };
        let mut from = late;
        for _ in 0..heads.len() {
            let Some(rank) = ranks.last_below(from) else {
                break;
            };
            from = rank;
            let own = standing_at(heads, rank);
            let soon = sum(sum(own.head, self.work), limit.most);
            if soon <= limit.end {
                return latest.max(soon);
            }
            if own.head < back.begin {
                back = self.back_to(back, own.head);
            }
            let bound = sum(back.over, limit.most);
            if bound <= limit.end || bound <= latest {
                return latest.max(bound);
            }
            latest = latest.max(sum(back.over, own.work));
        }
        latest
    }

    // Goes back to a head.
    fn back_to(&self, from: Back, head: i64) -> Back {
        let mut back = from;
        for _ in 0..next(self.last) {
            if head >= back.begin {
                break;
            }
            let before = self.block(back.place.wrapping_sub(1));
            let free = less(back.begin, head.max(before.end));
            back.over = less(back.over, free);
            if head >= before.end {
                back.begin = head;
            } else {
                back.begin = before.begin;
                back.place = back.place.wrapping_sub(1);
            }
        }
        back
    }
}

/// The frame of this place in a row.
pub fn standing_at(row: &[Standing], place: usize) -> Standing {
    item_at(row, place, NO_STANDING)
}

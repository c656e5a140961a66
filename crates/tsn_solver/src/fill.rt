//! Full links: what is before a frame, or behind it, is a sum of some of the others' works, and some of the time that all of them leave.
//! A frame's head is the least instant at which it may start on the link, its end the greatest at which its occupancy may end. Seen from
//! the end of the cycle, on side 1, each number's sign is turned and heads are ends. Times are in nanoseconds.
use crate::line::{Standing, standing_at};
use crate::sums::{Sums, divisor};
use std::alloc::{AllocError, Global};
use tsn_bounds::literal::Literal;
use tsn_bounds::number::{FAR, NONE, index, item_at, less, next, push, sum};
use tsn_bounds::reason::{Filling, Part};
use tsn_bounds::record::short;

/// The fewest frames that are looked at.
const FEWEST: usize = 3;

/// The set of a link that leaves least: its greatest end, and how much it leaves.
#[derive(Clone, Copy)]
pub struct Tight {
    pub end: i64,
    pub idle: i64,
}

impl Tight {
    /// None.
    pub fn none() -> Tight {
        Tight { end: 0, idle: FAR }
    }

    /// The one that leaves less, or else the one of the greater end, which comes later.
    pub fn with(self, later: Tight) -> Tight {
        if later.idle <= self.idle { later } else { self }
    }
}

/// A room between two frames that can't move, by their numbers in the set; none where the set's own begin or end bounds it.
#[derive(Clone, Copy)]
struct Gap {
    low: i64,
    high: i64,
    before: u32,
    after: u32,
}

const NO_STANDING: Standing = Standing {
    place: 0,
    head: FAR,
    end: FAR,
    work: 0,
    rank: 0,
    most: 0,
};

/// A set that leaves little: its frames, its least head, its greatest end, and how much it leaves.
#[derive(Drop)]
pub struct TightSet {
    list: Vec<Standing>,
    begin: i64,
    tight: Tight,
    unit: i64,
    // The numbers of its frames, a greater end first.
    back: Vec<usize>,
    /// The frames that can't move, by their places.
    pub fixed: Vec<u16>,
    gaps: Vec<Gap>,
}

/// What is found of sets that leave little.
#[derive(Drop)]
pub struct Fills {
    pub found: Vec<Filling>,
    /// Of what was found the frames, by their places on the link, and which heads and ends are needed of them.
    pub places: Vec<u16>,
    pub heads: Vec<i64>,
    pub ends: Vec<i64>,
    /// Whether the rooms leave more than the set does; then what was found last is the set as it stands.
    pub is_wasted: bool,
    /// The literals of what was found.
    pub gathered: Vec<Literal>,
    pub set: TightSet,
    left: Sums,
    right: Sums,
    is_right_made: bool,
    /// How many frames were looked at.
    pub looked: usize,
}

impl Fills {
    /// Nothing.
    pub fn none(alloc: Global) -> Fills {
        Fills {
            found: Vec::new(alloc),
            places: Vec::new(alloc),
            heads: Vec::new(alloc),
            ends: Vec::new(alloc),
            is_wasted: false,
            gathered: Vec::new(alloc),
            set: TightSet::none(alloc),
            left: Sums::none(alloc),
            right: Sums::none(alloc),
            is_right_made: false,
            looked: 0,
        }
    }

    /// Makes room. The error says that there was no memory.
    pub fn size(&mut self) -> Result<(), AllocError> {
        self.left.size()?;
        self.right.size()
    }

    /// Forgets what was found.
    pub fn clear(&mut self) {
        self.found.clear();
        self.places.clear();
        self.heads.clear();
        self.ends.clear();
        self.is_wasted = false;
        self.looked = 0;
    }

    /// Looks at the set of least idle time of some frames, which stand in the order of heads.
    pub fn search(
        &mut self,
        heads: &[Standing],
        tight: Tight,
        link: u32,
        side: u32,
    ) -> Result<(), AllocError> {
        if !self.set.take(heads, tight)? {
            return Ok(());
        }
        self.set.part()?;
        let mut wasted = 0i64;
        for number in 0..self.set.gaps.len() {
            let Some(&gap) = self.set.gaps.get(number) else {
                break;
            };
            self.sum_up_left(gap);
            wasted = sum(wasted, self.left.wasted(less(gap.high, gap.low)));
            if side == 0 && wasted > tight.idle {
                return self.note_waste();
            }
            self.place_all(gap, link, side)?;
        }
        Ok(())
    }

    /// Looks at the set that leaves least, and then at the first such one if nothing is found of that.
    pub fn search_both(
        &mut self,
        heads: &[Standing],
        first: Tight,
        last: Tight,
        link: u32,
        side: u32,
    ) -> Result<(), AllocError> {
        self.search(heads, last, link, side)?;
        if !self.is_wasted && self.found.is_empty() && first.end < last.end {
            self.search(heads, first, link, side)?;
        }
        Ok(())
    }

    // The sums of the frames that may be in a room, from its begin on: one goes after others only where they come up to its head but for
    // the idle time.
    fn sum_up_left(&mut self, gap: Gap) {
        self.left.begin(self.set.unit, less(gap.high, gap.low));
        self.is_right_made = false;
        self.looked = self.looked.wrapping_add(self.set.list.len());
        for own in &self.set.list {
            if may_lie(own, gap) {
                let ahead = less(own.head, gap.low).max(0);
                self.left
                    .add(own.work, less(ahead, self.set.tight.idle).max(0));
            }
        }
    }

    // The same from its end back.
    fn sum_up_right(&mut self, gap: Gap) {
        if self.is_right_made {
            return;
        }
        self.is_right_made = true;
        self.right.begin(self.set.unit, less(gap.high, gap.low));
        self.looked = self.looked.wrapping_add(self.set.list.len());
        for number in &self.set.back {
            let own = item_at(&self.set.list, *number, NO_STANDING);
            if may_lie(&own, gap) {
                let behind = less(gap.high, own.end).max(0);
                self.right
                    .add(own.work, less(behind, self.set.tight.idle).max(0));
            }
        }
    }

    // Where the frames of a room may start in it.
    fn place_all(&mut self, gap: Gap, link: u32, side: u32) -> Result<(), AllocError> {
        for number in 0..self.set.list.len() {
            let own = self.set.own(number);
            if sum(own.head, own.work) >= own.end || own.head < gap.low || own.head >= gap.high {
                continue;
            }
            self.sum_up_right(gap);
            let head = self.first_place(gap, own);
            if head > own.head {
                self.note(gap, number, head, link, side)?;
            }
        }
        Ok(())
    }

    // The first instant from its head on at which a frame may start in a room; one at which it doesn't fit in where there is none.
    fn first_place(&self, gap: Gap, own: Standing) -> i64 {
        let past = sum(less(gap.high, own.work), 1);
        let mut place = own.head;
        for _ in 0..u64::MAX {
            if place >= past {
                break;
            }
            let before = less(place, gap.low);
            let behind = less(less(gap.high, place), own.work);
            let left = self.left.wasted(before);
            let right = self.right.wasted(behind);
            if sum(left, right) <= self.set.tight.idle {
                return place;
            }
            if !self.left.is_near(before) {
                let rest = sum(self.right.below(behind), self.set.tight.idle);
                return less(less(gap.high, own.work), rest);
            }
            place = sum(gap.low, self.left.above(before));
        }
        past
    }

    // Notes where a frame may start, with what is needed of the set for that.
    fn note(
        &mut self,
        gap: Gap,
        number: usize,
        head: i64,
        link: u32,
        side: u32,
    ) -> Result<(), AllocError> {
        let start = self.places.len();
        for other in 0..self.set.list.len() {
            let own = self.set.own(other);
            let (first, last) = self.set.needed(gap, number, other, own);
            push(&mut self.places, short(own.place))?;
            push(&mut self.heads, first)?;
            push(&mut self.ends, last)?;
        }
        let filling = Filling {
            link,
            side,
            place: self.set.own(number).place,
            frames: Part {
                start,
                count: self.set.list.len(),
            },
            before: self.set.place_of(gap.before),
            after: self.set.place_of(gap.after),
            head,
            needs: Part { start: 0, count: 0 },
            kept: NONE,
        };
        push(&mut self.found, filling)
    }

    // Notes that the rooms leave more than the set.
    fn note_waste(&mut self) -> Result<(), AllocError> {
        self.is_wasted = true;
        self.places.clear();
        self.heads.clear();
        self.ends.clear();
        for own in &self.set.list {
            push(&mut self.places, short(own.place))?;
            push(&mut self.heads, own.head)?;
            push(&mut self.ends, own.end)?;
        }
        Ok(())
    }
}

impl TightSet {
    fn none(alloc: Global) -> TightSet {
        TightSet {
            list: Vec::new(alloc),
            begin: 0,
            tight: Tight::none(),
            unit: 1,
            back: Vec::new(alloc),
            fixed: Vec::new(alloc),
            gaps: Vec::new(alloc),
        }
    }

    // The frames of at most the set's end that have to be done by it, but for its idle time. Whether there are enough.
    fn take(&mut self, heads: &[Standing], tight: Tight) -> Result<bool, AllocError> {
        self.list.clear();
        self.tight = tight;
        self.begin = tight.end;
        let mut work = 0i64;
        let mut rank = heads.len();
        for _ in 0..heads.len() {
            rank = rank.wrapping_sub(1);
            let own = standing_at(heads, rank);
            if own.end <= tight.end {
                work = sum(work, own.work);
                if sum(own.head, work) == less(tight.end, tight.idle) {
                    self.begin = own.head;
                }
            }
        }
        self.unit = 0;
        for own in heads {
            if own.end <= tight.end && own.head >= self.begin {
                push(&mut self.list, *own)?;
                self.unit = divisor(self.unit, own.work);
            }
        }
        Ok(self.list.len() >= FEWEST)
    }

    // The rooms between frames that can't move, and the frames in the order of falling ends.
    fn part(&mut self) -> Result<(), AllocError> {
        self.gaps.clear();
        self.fixed.clear();
        self.back.clear();
        let mut low = self.begin;
        let mut before = NONE;
        for number in 0..self.list.len() {
            let own = self.own(number);
            push(&mut self.back, number)?;
            if sum(own.head, own.work) < own.end {
                continue;
            }
            push(&mut self.fixed, short(own.place))?;
            let after = index(number);
            let high = own.head;
            self.push_gap(Gap {
                low,
                high,
                before,
                after,
            })?;
            low = own.end;
            before = after;
        }
        self.push_gap(Gap {
            low,
            high: self.tight.end,
            before,
            after: NONE,
        })?;
        let set = self.list.as_slice();
        self.back.sort_unstable_by_key(|number| item_at(set, *number, NO_STANDING)
            .end
            .wrapping_neg());
        Ok(())
    }

    fn push_gap(&mut self, gap: Gap) -> Result<(), AllocError> {
        if gap.high > gap.low {
            push(&mut self.gaps, gap)?;
        }
        Ok(())
    }

    fn own(&self, number: usize) -> Standing {
        item_at(&self.list, number, NO_STANDING)
    }

    fn place_of(&self, number: u32) -> u32 {
        if number == NONE {
            NONE
        } else {
            index(self.own(number as usize).place)
        }
    }

    // The head and the end that are needed of a frame of the set.
    fn needed(&self, gap: Gap, number: usize, other: usize, own: Standing) -> (i64, i64) {
        let far = self.tight.end;
        let idle = self.tight.idle;
        if index(other) == gap.before || index(other) == gap.after {
            return (own.head, own.end);
        }
        if number != other && sum(own.head, own.work) > gap.high {
            let first = sum(less(gap.high, own.work), 1);
            return (first.max(self.begin).min(own.head), far);
        }
        if number != other && less(own.end, own.work) < gap.low {
            let last = less(sum(gap.low, own.work), 1);
            return (self.begin, last.min(far).max(own.end));
        }
        let first = if number == other || less(own.head, idle) > gap.low {
            own.head
        } else {
            self.begin
        };
        let last = if sum(own.end, idle) < gap.high {
            own.end
        } else {
            far
        };
        (first, last)
    }
}

// Whether a frame may be in a room.
fn may_lie(own: &Standing, gap: Gap) -> bool {
    sum(gap.low, own.work) <= own.end && sum(own.head, own.work) <= gap.high
}

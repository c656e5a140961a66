//! What doesn't fit on a link, and which frame goes last of some: overload and edge finding (Carlier and Pinson 1989), by when the link
//! is busy (Fahimi, Ouellet and Quimper 2018). A frame's head is the least instant at which it may start on the link, its end the
//! greatest at which its occupancy may end. Seen from the end of the cycle, on side 1, each number's sign is turned and heads are ends.
//! Times are in nanoseconds.
use crate::fill::{Fills, Tight};
use crate::line::{Limit, Line, Standing, standing_at};
use crate::overload::Crowd;
use crate::ranks::Ranks;
use crate::rows::{Ease, Room};
use std::alloc::{AllocError, Global};
use tsn_bounds::number::{FAR, NONE, at, index, item_at, less, next, push, put, put_item, sum};
use tsn_bounds::reason::{Part, Placing};
use tsn_bounds::record::{places_of, short};
use tsn_bounds::table::{Shared, Table};

/// That a frame goes last of some, and its least head by that.
#[derive(Clone, Copy)]
pub struct LastFrame {
    pub placing: Placing,
    pub head: i64,
}

/// That the frames of the crowd don't fit on a link: with the least head and the greatest end by which they don't, and by how much.
#[derive(Clone, Copy)]
pub struct Overload {
    pub link: u32,
    pub side: u32,
    pub begin: i64,
    pub end: i64,
    pub slack: i64,
}

// How often a link is called in vain at most after a look that found nothing.
const LONGEST_REST: u32 = 15;

// How many calls a link is left alone for since its last look found nothing, and how many of these are to come.
#[derive(Clone, Copy)]
struct Rest {
    length: u32,
    left: u32,
}

const NO_REST: Rest = Rest { length: 0, left: 0 };

/// How links rest.
#[derive(Drop)]
pub struct Rests {
    // Of each link; empty where links don't rest.
    list: Vec<Rest>,
}

impl Rests {
    fn none(alloc: Global) -> Rests {
        Rests {
            list: Vec::new(alloc),
        }
    }

    /// Whether a link that was called rests: it's called in vain after looks that found nothing, the more such looks the more often.
    pub fn rests(&mut self, link: usize) -> bool {
        let Rest { length, left } = item_at(&self.list, link, NO_REST);
        if left == 0 {
            return false;
        }
        let left = left.wrapping_sub(1);
        put_item(&mut self.list, link, Rest { length, left });
        true
    }

    /// Something was found on the link in hand: it doesn't rest.
    pub fn wake(&mut self, link: usize) {
        put_item(&mut self.list, link, NO_REST);
    }

    // Nothing was found from either side of the link in hand: it rests.
    fn leave(&mut self, link: usize) {
        let twice = item_at(&self.list, link, NO_REST).length.wrapping_mul(2);
        let length = twice.wrapping_add(1).min(LONGEST_REST);
        let left = length;
        put_item(&mut self.list, link, Rest { length, left });
    }
}

/// The links, and what is found of the one that is looked at.
#[derive(Drop)]
pub struct Rooms {
    pub lasts: LastFrames,
    /// How many frames were looked at.
    pub looked: usize,
    rooms: Vec<Room>,
    pub rests: Rests,
    sweep: LinkSweep,
    pub crowd: Crowd,
    pub fills: Fills,
}

// A look at a group of a link from one side.
#[derive(Drop)]
struct LinkSweep {
    line: Line,
    // How many frames begin before those taken in are done.
    late: usize,
    // The ranks of those that aren't taken in.
    rest_ranks: Ranks,
    ease: Ease,
    // Of the sets that leave least the first and the last one.
    first_tight: Tight,
    tight: Tight,
}

/// Which frames go last.
#[derive(Drop)]
pub struct LastFrames {
    pub found: Vec<LastFrame>,
    // The others of the placings that were found, by their places on the link.
    places: Vec<u16>,
    // By the ranks, a lesser head first: of those of no greater end behind it and itself the work, when they are done, and the head that
    // this comes from.
    rest: Vec<i64>,
    done: Vec<i64>,
    source: Vec<i64>,
}

/// The link and the side from which it's looked at, and the end that is looked at.
#[derive(Clone, Copy)]
pub struct Sight {
    pub link: u32,
    pub side: u32,
    pub end: i64,
}

impl Rooms {
    /// No links.
    pub fn none(alloc: Global) -> Rooms {
        Rooms {
            lasts: LastFrames::none(alloc),
            looked: 0,
            rooms: Vec::new(alloc),
            rests: Rests::none(alloc),
            sweep: LinkSweep::none(alloc),
            crowd: Crowd::none(alloc),
            fills: Fills::none(alloc),
        }
    }

    /// Puts the links of a network in. The error says that there was no memory.
    pub fn fill(&mut self, alloc: Global, table: &Table) -> Result<(), AllocError> {
        for shared in &table.links {
            self.add_room(alloc, shared)?;
        }
        if has_single_frames(&table.links) {
            self.rests.list.resize(table.links.len(), NO_REST)?;
        }
        let most = self.most_frames();
        self.fills.size()?;
        self.crowd.size(most)?;
        self.lasts.size(most)?;
        self.sweep.size(most)
    }

    fn add_room(&mut self, alloc: Global, shared: &Shared) -> Result<(), AllocError> {
        push(&mut self.rooms, Room::none(alloc))?;
        match self.rooms.last_mut() {
            Some(room) => room.fill(&shared.visits),
            None => Ok(()),
        }
    }

    /// The most frames of a link.
    pub fn most_frames(&self) -> usize {
        let mut most: usize = 0;
        for room in &self.rooms {
            most = most.max(room.count());
        }
        most
    }

    /// How many frames a link has.
    pub fn count_on(&self, link: usize) -> Option<usize> {
        let room = self.rooms.get(link)?;
        Some(room.count())
    }

    /// Takes a link in hand, by the bounds of the offsets. False where nothing can be found, by what was seen when it was looked at
    /// last.
    pub fn take(&mut self, link: usize, values: &[i64]) -> Result<bool, AllocError> {
        match self.rooms.get_mut(link) {
            Some(room) => room.take(values),
            None => Ok(false),
        }
    }

    /// Nothing was found from either side of the link in hand: it rests.
    pub fn leave(&mut self, link: usize) {
        self.rests.leave(link);
        if let Some(room) = self.rooms.get_mut(link) {
            room.leave();
        }
    }

    /// Looks at the link in hand from one side, from side 0 first.
    pub fn look(&mut self, link: usize, side: u32) -> Result<Option<Overload>, AllocError> {
        self.lasts.clear();
        self.fills.clear();
        self.looked = 0;
        let Some(room) = self.rooms.get_mut(link) else {
            return Ok(None);
        };
        if side != 0 {
            room.turn();
        }
        for number in 0..room.groups.len() {
            let overload = self.look_at_group(link, side, number)?;
            if overload.is_some() || self.fills.is_wasted {
                return Ok(overload);
            }
        }
        Ok(None)
    }

    fn look_at_group(
        &mut self,
        link: usize,
        side: u32,
        number: usize,
    ) -> Result<Option<Overload>, AllocError> {
        let Some(room) = self.rooms.get_mut(link) else {
            return Ok(None);
        };
        let group = room.group(number);
        if !group.is_open {
            return Ok(None);
        }
        let count = group.to.wrapping_sub(group.from);
        self.looked = self.looked.wrapping_add(count);
        let from = room.begin_of(group, side);
        let sight = Sight {
            link: index(link),
            side,
            end: 0,
        };
        let rows = room.rows(side);
        let heads = row_of(&rows.heads, from, count);
        let ends = row_of(&rows.ends, from, count);
        let overload = self
            .sweep
            .search(heads, ends, from, sight, &mut self.lasts, &mut self.crowd)?;
        if overload.is_some() {
            return Ok(overload);
        }
        let tight = self.sweep.tight;
        let least = least_work(heads);
        if self.lasts.found.is_empty() && tight.idle < least {
            let first = self.sweep.first_tight;
            self.fills
                .search_both(heads, first, tight, sight.link, side)?;
            self.looked = self.looked.wrapping_add(self.fills.looked);
            if self.fills.is_wasted {
                return Ok(None);
            }
        }
        self.sweep.note_tight(less(tight.idle, least));
        room.note_ease(number, self.sweep.ease);
        Ok(None)
    }
}

// Whether each stream sends one frame, in the time after which all of a link come again.
fn has_single_frames(links: &[Shared]) -> bool {
    for shared in links {
        for visit in &shared.visits {
            if visit.shift != 0 {
                return false;
            }
        }
    }
    true
}

fn least_work(row: &[Standing]) -> i64 {
    let mut least = FAR;
    for own in row {
        least = least.min(own.work);
    }
    least
}

// So many frames of a row, from a place on.
fn row_of(row: &[Standing], from: usize, count: usize) -> &[Standing] {
    let to = from.wrapping_add(count);
    if from <= to && to <= row.len() {
        &row[from..to]
    } else {
        &[]
    }
}

impl LinkSweep {
    fn none(alloc: Global) -> LinkSweep {
        LinkSweep {
            line: Line::none(alloc),
            late: 0,
            rest_ranks: Ranks::none(alloc),
            ease: Ease::none(),
            first_tight: Tight::none(),
            tight: Tight::none(),
        }
    }

    // Makes it one of so many frames.
    fn size(&mut self, most: usize) -> Result<(), AllocError> {
        self.line.size(most)?;
        self.rest_ranks.size(most)
    }

    // Takes the frames of a group in one after another, a lesser end first. The group begins at a place of the rows.
    fn search(
        &mut self,
        heads: &[Standing],
        ends: &[Standing],
        first: usize,
        sight: Sight,
        lasts: &mut LastFrames,
        crowd: &mut Crowd,
    ) -> Result<Option<Overload>, AllocError> {
        self.line.clear();
        self.late = 0;
        self.ease = Ease::full();
        self.tight = Tight::none();
        self.first_tight = Tight::none();
        self.rest_ranks.fill(heads.len());
        for own in ends {
            self.line.insert(own.head, own.work);
            self.rest_ranks.drop_out(own.rank.wrapping_sub(first));
            let end = own.end;
            let over = self.line.over();
            if over > end {
                return Ok(Some(crowd.gather(heads, Sight { end, ..sight })?));
            }
            self.tight = self.tight.with(Tight {
                end,
                idle: less(end, over),
            });
            if self.first_tight.idle > less(end, over) {
                self.first_tight = self.tight;
            }
            // One more is done by then and its work.
            let mut late = sum(over, own.most);
            if late > end {
                late = self.latest(heads, own);
            }
            if late > end {
                lasts.sum_up_rest(heads, end);
                lasts.place_others(heads, Sight { end, ..sight })?;
            }
            self.note_room(less(end, over).min(less(end, late)));
        }
        Ok(None)
    }

    // A set that leaves less than its least work, or so much more, is looked at again whenever something changes, or at that change.
    fn note_tight(&mut self, more: i64) {
        if more < 0 {
            self.ease = Ease {
                closer: 0,
                apart: 0,
            };
        } else {
            self.note_room(more);
        }
    }

    fn note_room(&mut self, room: i64) {
        self.ease.closer = self.ease.closer.min(room);
    }

    // When those taken in are done, with one more of a greater end than this one's; and where a frame that begins later may else go
    // last, it's noted how much later it begins.
    fn latest(&mut self, heads: &[Standing], own: &Standing) -> i64 {
        let over = self.line.over();
        for rank in self.late..heads.len() {
            if standing_at(heads, rank).head >= over {
                break;
            }
            self.late = next(rank);
        }
        if self.late < heads.len() {
            let ahead = less(standing_at(heads, self.late).head, over);
            self.ease.apart = self.ease.apart.min(ahead);
        }
        let limit = Limit {
            most: own.most,
            end: own.end,
        };
        self.line.latest(heads, &self.rest_ranks, self.late, limit)
    }
}

impl LastFrames {
    fn none(alloc: Global) -> LastFrames {
        LastFrames {
            found: Vec::new(alloc),
            places: Vec::new(alloc),
            rest: Vec::new(alloc),
            done: Vec::new(alloc),
            source: Vec::new(alloc),
        }
    }

    // Makes room for so many frames.
    fn size(&mut self, most: usize) -> Result<(), AllocError> {
        self.rest.resize(most, 0)?;
        self.done.resize(most, 0)?;
        self.source.resize(most, 0)
    }

    fn clear(&mut self) {
        self.found.clear();
        self.places.clear();
    }

    /// The others of a placing that was found, by their places on the link.
    pub fn others_of(&self, placing: Placing) -> &[u16] {
        places_of(&self.places, placing.others)
    }

    // Of the frames of at most this end, the work behind each rank and when it's done.
    fn sum_up_rest(&mut self, heads: &[Standing], end: i64) {
        let mut rest = 0i64;
        let mut done = -FAR;
        let mut source = 0i64;
        let mut rank = heads.len();
        for _ in 0..heads.len() {
            rank = rank.wrapping_sub(1);
            let own = standing_at(heads, rank);
            if own.end <= end {
                rest = sum(rest, own.work);
                if sum(own.head, rest) >= done {
                    done = sum(own.head, rest);
                    source = own.head;
                }
            }
            put(&mut self.rest, rank, rest);
            put(&mut self.done, rank, done);
            put(&mut self.source, rank, source);
        }
    }

    // Finds which frames of a greater end go last.
    fn place_others(&mut self, heads: &[Standing], sight: Sight) -> Result<(), AllocError> {
        let mut latest = -FAR;
        let mut window = 0usize;
        for (rank, own) in heads.iter().enumerate() {
            let rest = at(&self.rest, rank);
            if own.end <= sight.end {
                if sum(own.head, rest) > latest {
                    latest = sum(own.head, rest);
                    window = rank;
                }
                continue;
            }
            let mut from = rank;
            if sum(latest, own.work) > sight.end {
                from = window;
            } else if rest == 0 || sum(sum(own.head, rest), own.work) <= sight.end {
                continue;
            }
            if at(&self.done, from) > own.head {
                let placed = self.placing(heads, sight, own, from)?;
                push(&mut self.found, placed)?;
            }
        }
        Ok(())
    }

    // That a frame goes last of itself and those from a rank on.
    fn placing(
        &mut self,
        heads: &[Standing],
        sight: Sight,
        own: &Standing,
        from: usize,
    ) -> Result<LastFrame, AllocError> {
        let part = at(&self.source, from);
        let start = self.places.len();
        let mut idle: usize = 0;
        for rank in from..heads.len() {
            let other = standing_at(heads, rank);
            if other.end <= sight.end {
                push(&mut self.places, short(other.place))?;
                if other.head < part {
                    idle = next(idle);
                }
            }
        }
        // All may begin before the heads by as much as they are late.
        let begin = less(sum(sight.end, 1), sum(at(&self.rest, from), own.work));
        let placing = Placing {
            link: sight.link,
            side: sight.side,
            place: own.place,
            others: Part {
                start,
                count: self.places.len().wrapping_sub(start),
            },
            idle,
            begin,
            part,
            end: sight.end,
            kept: NONE,
        };
        Ok(LastFrame {
            placing,
            head: at(&self.done, from),
        })
    }
}

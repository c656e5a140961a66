//! Why frames don't fit on a link: as few of them as will do, and each bound as weak as will do. Times are in nanoseconds.
use crate::line::{Standing, standing_at};
use crate::rooms::{Overload, Sight};
use std::alloc::{AllocError, Global};
use tsn_bounds::known::Known;
use tsn_bounds::literal::Literal;
use tsn_bounds::number::{index_at, less, push, put_index, put_item, sum};
use tsn_bounds::reason::Deed;
use tsn_bounds::record::{place_at, short};
use tsn_bounds::side::{end_literal, head_literal};
use tsn_bounds::table::{Table, Visit};
use tsn_bounds::trail::Trail;

// How many frames are left out at most.
const LEFT_OUT: usize = 128;

/// The frames that don't fit on a link, by their places there.
#[derive(Drop)]
pub struct Crowd {
    places: Vec<u16>,
    // By the frames' places on the link, when their bounds came to be what they are.
    late: Vec<u32>,
}

impl Crowd {
    /// None.
    pub fn none(alloc: Global) -> Crowd {
        Crowd {
            places: Vec::new(alloc),
            late: Vec::new(alloc),
        }
    }

    /// Makes room for so many. The error says that there was no memory.
    pub fn size(&mut self, most: usize) -> Result<(), AllocError> {
        self.late.resize(most, 0)
    }

    /// Gathers the frames of at most an end that aren't done by it.
    pub fn gather(&mut self, heads: &[Standing], sight: Sight) -> Result<Overload, AllocError> {
        self.places.clear();
        let mut work = 0i64;
        let mut begin = 0i64;
        let mut rank = heads.len();
        for _ in 0..heads.len() {
            rank = rank.wrapping_sub(1);
            let own = standing_at(heads, rank);
            if own.end > sight.end {
                continue;
            }
            push(&mut self.places, short(own.place))?;
            work = sum(work, own.work);
            begin = own.head;
            if sum(begin, work) > sight.end {
                break;
            }
        }
        Ok(Overload {
            link: sight.link,
            side: sight.side,
            begin,
            end: sight.end,
            slack: less(less(sum(begin, work), sight.end), 1),
        })
    }

    /// Notes as the clash that the frames don't fit on a link.
    pub fn note_overload(&mut self, found: Overload, known: &mut Known) -> Result<(), AllocError> {
        let mut overload = found;
        self.note_lateness(overload, known);
        self.lighten(&mut overload, &known.table);
        let early = self.shift_of(overload, known);
        let begin = less(overload.begin, early);
        let end = sum(overload.end, less(overload.slack, early));
        known.clash.clear();
        for number in 0..self.places.len() {
            let visit = self.visit(overload, number, &known.table);
            push(&mut known.clash, head_literal(visit, overload.side, begin))?;
            push(&mut known.clash, end_literal(visit, overload.side, end))?;
        }
        let kept = known.record.keep_packing(overload.link, &self.places)?;
        known.clash_deed = Some(Deed::Pack(kept));
        Ok(())
    }

    // The frame of this number in the crowd.
    fn visit(&self, overload: Overload, number: usize, table: &Table) -> Visit {
        table.visit(overload.link as usize, place_at(&self.places, number))
    }

    // Notes of each frame when its bounds came to be what they are: a later one has a greater number.
    fn note_lateness(&mut self, overload: Overload, known: &Known) {
        for number in 0..self.places.len() {
            let visit = self.visit(overload, number, &known.table);
            let head = head_literal(visit, overload.side, overload.begin);
            let end = end_literal(visit, overload.side, overload.end);
            let late = lateness(head, &known.trail).max(lateness(end, &known.trail));
            put_index(&mut self.late, place_at(&self.places, number), late);
        }
    }

    // Leaves frames out that needn't be there, the latest first.
    fn lighten(&mut self, overload: &mut Overload, table: &Table) {
        for _ in 0..LEFT_OUT {
            let Some((number, work)) = self.latest_spare(*overload, table) else {
                break;
            };
            if let Some(last) = self.places.pop() {
                put_item(&mut self.places, number, last);
            }
            overload.slack = less(overload.slack, work);
        }
    }

    // Of the frames that needn't be there the latest, by its number in the crowd, and its work.
    fn latest_spare(&self, overload: Overload, table: &Table) -> Option<(usize, i64)> {
        let mut found = None;
        let mut latest: u32 = 0;
        for number in 0..self.places.len() {
            let work = self.visit(overload, number, table).work;
            let late = index_at(&self.late, place_at(&self.places, number));
            if work <= overload.slack && late > latest {
                latest = late;
                found = Some((number, work));
            }
        }
        found
    }

    // How much earlier the heads may be, the rest of the slack being for the ends: so that least is needed.
    fn shift_of(&self, overload: Overload, known: &Known) -> i64 {
        let half = overload.slack / 2;
        let cost = self.cost_of(overload, overload.slack, known);
        let cost_of_none = self.cost_of(overload, 0, known);
        let cost_of_half = self.cost_of(overload, half, known);
        if cost_of_half < cost.min(cost_of_none) {
            half
        } else if cost_of_none < cost {
            0
        } else {
            overload.slack
        }
    }

    fn cost_of(&self, overload: Overload, early: i64, known: &Known) -> usize {
        let begin = less(overload.begin, early);
        let end = sum(overload.end, less(overload.slack, early));
        let mut cost: usize = 0;
        for number in 0..self.places.len() {
            let visit = self.visit(overload, number, &known.table);
            let head = known.cost(head_literal(visit, overload.side, begin));
            let last = known.cost(end_literal(visit, overload.side, end));
            cost = cost.wrapping_add(head).wrapping_add(last);
        }
        cost
    }
}

fn lateness(literal: Literal, trail: &Trail) -> u32 {
    match trail.event_of(literal) {
        Some(number) => number.wrapping_add(1),
        None => 0,
    }
}

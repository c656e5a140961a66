//! What a search knows: the network's numbers, the bounds with the changes that led to them, the clauses, and what was shown; and why a
//! literal holds. Bounds stand in this order: the least and the greatest offset of each stream, the least and the greatest flowspan, and
//! the least and the greatest gap of each pair. Times are in nanoseconds.
use crate::calls::Calls;
use crate::clauses::{Clauses, part_of};
use crate::literal::{Literal, literal_at};
use crate::number::{NONE, at, index, less, mark, push, sum};
use crate::reason::{Deed, Part, Placing, Why};
use crate::record::{Record, place_at, places_of};
use crate::side::{end_literal, head_literal, lead};
use crate::table::{Block, Pair, Rival, Table, place_of, signed_place};
use crate::trail::Trail;
use std::alloc::{AllocError, Global};

/// What is known of a network.
#[derive(Drop)]
pub struct Known {
    pub table: Table,
    pub trail: Trail,
    /// The links that are to be looked at.
    pub calls: Calls,
    pub clauses: Clauses,
    pub record: Record,
    /// Literals that hold and can't all hold, and the deed that shows it.
    pub clash: Vec<Literal>,
    pub clash_deed: Option<Deed>,
    /// Literals by which another one holds.
    pub needs: Vec<Literal>,
    /// Whether nothing is known to contradict what is given.
    pub is_open: bool,
    /// How many bounds there are of offsets and the flowspan.
    pub times: u32,
}

/// Where a bound is something, `to` is at least `weight` more than `from` is.
#[derive(Clone, Copy)]
pub struct Arc {
    pub from: u32,
    pub to: u32,
    pub weight: i64,
}

impl Known {
    /// Nothing but the network's numbers, which `fill` makes known.
    pub fn none(alloc: Global, table: Table) -> Known {
        Known {
            table,
            trail: Trail::none(alloc),
            calls: Calls::none(alloc),
            clauses: Clauses::none(alloc),
            record: Record::none(alloc),
            clash: Vec::new(alloc),
            clash_deed: None,
            needs: Vec::new(alloc),
            is_open: true,
            times: 0,
        }
    }

    /// Puts the bounds in that there are before anything is given. The error says that there was no memory.
    pub fn fill(&mut self, alloc: Global) -> Result<(), AllocError> {
        let streams = self.table.streams();
        self.times = index(streams.wrapping_mul(2).wrapping_add(2));
        self.table.put_values(&mut self.trail.values)?;
        self.table.put_values(&mut self.trail.ground)?;
        self.trail.size()?;
        self.calls.size(self.table.links.len())?;
        self.clauses.size(alloc, self.trail.values.len())
    }

    /// Notes of each bound of a time that it changed, and of each link that it's to be looked at. The error says that there was no memory.
    pub fn begin(&mut self) -> Result<(), AllocError> {
        for bound in 0..self.times {
            let literal = Literal::of(bound, self.trail.value(bound));
            self.trail.change(literal, Why::Decided, 0)?;
        }
        for link in 0..self.table.links.len() {
            self.calls.call(link)?;
        }
        Ok(())
    }

    /// Narrows a bound. False where that contradicts what is known; then the clash is noted.
    pub fn raise(&mut self, literal: Literal, why: Why) -> Result<bool, AllocError> {
        if self.trail.is_true(literal) {
            return Ok(true);
        }
        if self.trail.is_false(literal) {
            self.note_clash(literal, why)?;
            return Ok(false);
        }
        self.trail.change(literal, why, self.record.count())?;
        if literal.bound < self.times {
            for link in self.table.links_of(literal.bound) {
                self.calls.call(*link as usize)?;
            }
        }
        Ok(true)
    }

    /// Begins a level with a literal. The error says that there was no memory.
    pub fn decide(&mut self, literal: Literal) -> Result<(), AllocError> {
        self.trail.open()?;
        let _ = self.raise(literal, Why::Decided)?;
        Ok(())
    }

    /// Adds a clause that was learned, by its number in the record, with how many levels its literals were of and when: its first literal
    /// follows. The error says that there was no memory.
    pub fn add_lesson(
        &mut self,
        learned: &[Literal],
        shown: u32,
        levels: u32,
        now: u64,
    ) -> Result<(), AllocError> {
        let clause = self.clauses.add(learned, shown, levels, now, true)?;
        let _ = self.raise(literal_at(learned, 0), Why::Clause(clause))?;
        Ok(())
    }

    /// The bound of the least offset of a stream.
    pub fn least(&self, stream: usize) -> u32 {
        index(stream.wrapping_mul(2))
    }

    /// The bound of the least flowspan.
    pub fn span(&self) -> u32 {
        self.times.wrapping_sub(2)
    }

    /// The least offset of a stream, or the least flowspan behind all streams.
    pub fn low(&self, stream: usize) -> i64 {
        self.trail.value(self.least(stream))
    }

    /// Puts the least offsets of all streams behind others. The error says that there was no memory.
    pub fn put_least(&self, offsets: &mut Vec<i64>) -> Result<(), AllocError> {
        for stream in 0..self.table.streams() {
            push(offsets, self.low(stream))?;
        }
        Ok(())
    }

    /// The number of the bound of a pair's least gap: these come behind the bounds of times.
    pub fn gap(&self, pair: usize) -> u32 {
        self.times.wrapping_add(index(pair.wrapping_mul(2)))
    }

    /// The number of the pair whose gap this is a bound of.
    pub fn pair_number(&self, bound: u32) -> usize {
        (bound.wrapping_sub(self.times) / 2) as usize
    }

    /// The pair whose gap this is a bound of.
    pub fn pair_of(&self, bound: u32) -> Pair {
        self.table.pair(self.pair_number(bound))
    }

    /// The number of the block that a literal of a gap is about: it's passed to the left, or isn't passed.
    pub fn block_number(&self, literal: Literal) -> usize {
        let pair = self.pair_of(literal.bound);
        let number = if literal.bound & 1 == 0 {
            less(literal.least, 1)
        } else {
            literal.least.wrapping_neg()
        };
        pair.start.wrapping_add(place_of(number))
    }

    /// The block that a literal of a gap is about.
    pub fn block(&self, literal: Literal) -> Block {
        self.table.block(self.block_number(literal))
    }

    /// The arc by which a literal of a gap narrows the other bound, between least or greatest offsets.
    pub fn arc(&self, gap: Literal, is_least: bool) -> Arc {
        let block = self.block(gap);
        let weight = if gap.bound & 1 == 0 {
            block.left_first
        } else {
            block.right_first
        };
        self.arc_by(gap.bound, weight, is_least)
    }

    /// The same by a weight.
    pub fn arc_by(&self, bound: u32, weight: i64, is_least: bool) -> Arc {
        let pair = self.pair_of(bound);
        let (first, second) = if bound & 1 == 0 {
            (pair.left, pair.right)
        } else {
            (pair.right, pair.left)
        };
        if is_least {
            Arc {
                from: self.least(first),
                to: self.least(second),
                weight,
            }
        } else {
            Arc {
                from: self.least(second) ^ 1,
                to: self.least(first) ^ 1,
                weight,
            }
        }
    }

    /// Whether something follows from a bound of an offset, which has this value, for a rival of its stream: a bound of the rival's offset
    /// by the arc of the last block that the gap is known to pass, or that the next block can't be passed. (Nearly always nothing does,
    /// so it's asked with few branches.)
    pub fn is_moved(&self, bound: u32, value: i64, rival: &Rival) -> bool {
        let side = (bound ^ rival.side) & 1;
        let gap = (rival.gap ^ side) as usize;
        let own = at(&self.trail.values, gap);
        let other = at(&self.trail.values, gap ^ 1);
        let (passed, next) = if side == 0 {
            (less(own, 1), less(other.wrapping_neg(), 1))
        } else {
            (own.wrapping_neg(), other)
        };
        let is_passed = (passed >= 0) & (passed < rival.count as i64);
        let to = (rival.bound ^ (bound & 1)) as usize;
        let least = sum(value, self.table.weight(rival.start, passed, side));
        let most = sum(value, self.table.weight(rival.start, next, side));
        is_passed & (least > at(&self.trail.values, to))
            | (sum(own, other) < 0) & (sum(most, at(&self.trail.values, to ^ 1)) > 0)
    }

    /// Where a bound of a gap passes no block.
    pub fn first_of(&self, bound: u32) -> i64 {
        if bound & 1 == 0 {
            return 0;
        }
        signed_place(self.pair_of(bound).count).wrapping_neg()
    }

    /// The least and the greatest gap of a pair that is left.
    pub fn gaps_left(&self, pair: usize) -> (i64, i64) {
        let bound = self.gap(pair);
        (
            self.trail.value(bound),
            self.trail.value(bound ^ 1).wrapping_neg(),
        )
    }

    /// Whether the least offsets violate a block of a pair that isn't decided.
    pub fn is_violated(&self, number: usize, pair: Pair) -> bool {
        let (least, greatest) = self.gaps_left(number);
        if least >= greatest {
            return false;
        }
        let apart = less(self.low(pair.right), self.low(pair.left));
        let first = self.table.first_unpassed(pair, least, greatest, apart);
        first < greatest
            && apart
                > self
                    .table
                    .block_of(pair.start, first)
                    .right_first
                    .wrapping_neg()
    }

    /// Whether the least offsets violate a block that isn't decided.
    pub fn is_any_violated(&self) -> bool {
        for number in 0..self.table.pairs.len() {
            if self.is_violated(number, self.table.pair(number)) {
                return true;
            }
        }
        false
    }

    /// Whether some variable has no value left.
    pub fn is_empty(&self) -> bool {
        is_impossible(&self.trail.values, self.times as usize)
    }

    /// The literal and its opposite both hold: notes why the literal does, as far as the opposite bound goes, as the clash. The error says
    /// that there was no memory.
    pub fn note_clash(&mut self, literal: Literal, why: Why) -> Result<(), AllocError> {
        let opposite = literal.bound ^ 1;
        let known = Literal::of(opposite, self.trail.value(opposite));
        let needed = known.opposite();
        self.clash_deed = self.kept_deed(needed, why)?;
        self.explain(needed, why)?;
        std::mem::swap(&mut self.needs, &mut self.clash);
        push(&mut self.clash, known)
    }

    /// The last level of the clash's literals.
    pub fn clash_level(&self) -> usize {
        let mut level: u32 = 0;
        for literal in &self.clash {
            level = level.max(self.trail.level_of(*literal));
        }
        level as usize
    }

    /// Forgets learned clauses, but none by which a bound was narrowed. The error says that there was no memory.
    pub fn forget_clauses(&mut self, alloc: Global) -> Result<(), AllocError> {
        let mut is_needed = Vec::new(alloc);
        is_needed.resize(self.clauses.list.len(), false)?;
        for event in &self.trail.events {
            if let Why::Clause(clause) = event.why {
                mark(&mut is_needed, clause as usize, true);
            }
        }
        self.clauses.forget(alloc, &is_needed)
    }

    /// The deed by which a literal came to hold. None where it was given.
    pub fn deed_of(&self, literal: Literal, why: Why) -> Option<Deed> {
        match why {
            Why::Decided | Why::Shown(_) => None,
            Why::Clause(clause) => Some(Deed::Use(self.clauses.clause(clause).shown)),
            Why::Go(gap) => Some(Deed::Go(gap)),
            Why::Arrive(stream) => Some(Deed::Arrive(stream)),
            Why::Turn(_) => Some(Deed::Turn(literal)),
            Why::Placing(number) => Some(Deed::Place(number)),
            Why::Filling(number) => Some(Deed::Fill(number)),
        }
    }

    /// The same, with its placing kept. The error says that there was no memory.
    pub fn kept_deed(&mut self, literal: Literal, why: Why) -> Result<Option<Deed>, AllocError> {
        match why {
            Why::Placing(number) => self.kept_placing(number as usize),
            Why::Filling(number) => self.kept_filling(number as usize),
            _ => Ok(self.deed_of(literal, why)),
        }
    }

    fn kept_filling(&mut self, number: usize) -> Result<Option<Deed>, AllocError> {
        let Some(filling) = self.trail.fillings.get_mut(number) else {
            return Ok(None);
        };
        if filling.kept == NONE {
            let frames = places_of(&self.trail.places, filling.frames);
            filling.kept = self.record.keep_filling(*filling, frames)?;
        }
        Ok(Some(Deed::Fill(filling.kept)))
    }

    fn kept_placing(&mut self, number: usize) -> Result<Option<Deed>, AllocError> {
        let Some(placing) = self.trail.placings.get_mut(number) else {
            return Ok(None);
        };
        if placing.kept == NONE {
            let others = places_of(&self.trail.places, placing.others);
            placing.kept = self.record.keep_placing(*placing, others)?;
        }
        Ok(Some(Deed::Place(placing.kept)))
    }

    /// Notes the literals by which one holds that came to hold so. The error says that there was no memory.
    pub fn explain(&mut self, literal: Literal, why: Why) -> Result<(), AllocError> {
        self.needs.clear();
        match why {
            Why::Decided | Why::Shown(_) => Ok(()),
            Why::Clause(clause) => self.explain_clause(literal, clause),
            Why::Go(gap) => self.explain_go(literal, gap),
            Why::Arrive(stream) => self.explain_arrival(literal, stream as usize),
            Why::Turn(most) => self.explain_turn(literal, most),
            Why::Placing(number) => {
                let Some(&placing) = self.trail.placings.get(number as usize) else {
                    return Ok(());
                };
                self.explain_placing(literal, placing)
            }
            Why::Filling(number) => self.explain_filling(number as usize),
        }
    }

    fn add_need(&mut self, literal: Literal) -> Result<(), AllocError> {
        push(&mut self.needs, literal)
    }

    fn explain_clause(&mut self, literal: Literal, clause: u32) -> Result<(), AllocError> {
        for other in self.clauses.literals_of(clause) {
            if other.bound != literal.bound || other.least < literal.least {
                push(&mut self.needs, other.opposite())?;
            }
        }
        Ok(())
    }

    fn explain_go(&mut self, literal: Literal, gap: Literal) -> Result<(), AllocError> {
        let arc = self.arc(gap, literal.bound & 1 == 0);
        self.add_need(Literal::of(arc.from, less(literal.least, arc.weight)))?;
        self.add_need(gap)
    }

    // The least flowspan by the least offset of a stream, or the greatest offset by the greatest flowspan.
    fn explain_arrival(&mut self, literal: Literal, stream: usize) -> Result<(), AllocError> {
        let from = if literal.bound & 1 == 0 {
            self.least(stream)
        } else {
            self.span() ^ 1
        };
        let least = less(literal.least, self.table.arrival(stream));
        self.add_need(Literal::of(from, least))
    }

    // The other side's arc can't be met.
    fn explain_turn(&mut self, literal: Literal, most: i64) -> Result<(), AllocError> {
        let arc = self.other_arc(literal);
        let least = less(less(1, most), arc.weight);
        self.add_need(Literal::of(arc.from, least))?;
        self.add_need(Literal::of(arc.to ^ 1, most))
    }

    /// The arc between least offsets that a literal of a gap says isn't.
    pub fn other_arc(&self, gap: Literal) -> Arc {
        let block = self.block(gap);
        let weight = if gap.bound & 1 == 0 {
            block.right_first
        } else {
            block.left_first
        };
        self.arc_by(gap.bound ^ 1, weight, true)
    }

    // A placing, with the heads as early as will do.
    fn explain_placing(&mut self, literal: Literal, placing: Placing) -> Result<(), AllocError> {
        let link = placing.link as usize;
        let side = placing.side;
        let own = self.table.visit(link, placing.place);
        let head = sum(literal.least, lead(own, side));
        let late = less(head, self.work_of(link, placing));
        let part = late.min(placing.part).max(placing.begin);
        self.add_need(head_literal(own, side, placing.begin))?;
        let others = places_of(&self.trail.places, placing.others);
        for (number, _) in others.iter().enumerate() {
            let visit = self.table.visit(link, place_at(others, number));
            let begin = if number < placing.idle {
                placing.begin
            } else {
                part
            };
            push(&mut self.needs, head_literal(visit, side, begin))?;
            push(&mut self.needs, end_literal(visit, side, placing.end))?;
        }
        Ok(())
    }

    fn explain_filling(&mut self, number: usize) -> Result<(), AllocError> {
        let Some(filling) = self.trail.fillings.get(number) else {
            return Ok(());
        };
        let Part { start, count } = filling.needs;
        for literal in part_of(&self.trail.needs, start, count) {
            push(&mut self.needs, *literal)?;
        }
        Ok(())
    }

    // The work of those that give the bound.
    fn work_of(&self, link: usize, placing: Placing) -> i64 {
        let others = places_of(&self.trail.places, placing.others);
        let mut work = 0i64;
        for number in placing.idle..others.len() {
            work = sum(work, self.table.visit(link, place_at(others, number)).work);
        }
        work
    }

    /// What it costs to need a literal: nothing where it held before the first decision, most at the last level.
    pub fn cost(&self, literal: Literal) -> usize {
        match self.trail.level_of(literal) as usize {
            0 => 0,
            level if level == self.trail.level() => 3,
            _ => 2,
        }
    }
}

/// Whether some variable of the first so many bounds has no value left.
pub fn is_impossible(view: &[i64], times: usize) -> bool {
    for bound in 0..times {
        if bound & 1 == 0 && at(view, bound) > at(view, bound ^ 1).wrapping_neg() {
            return true;
        }
    }
    false
}

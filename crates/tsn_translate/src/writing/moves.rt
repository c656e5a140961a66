//! The moves of deeds.
use crate::orders::stronger;
use crate::view::{
    Made, is_contradicted, is_out_of_reach, is_overfull, left_of, make_arrival, make_filling,
    make_go, make_impossible, make_placing, make_turn, make_use,
};
use crate::writing::Writing;
use crate::writing::facts::{
    edge_of, ends_of, frame_of, frames_of, order_of, others_of, pair_side, placed_of, strong,
    wasted_of, weak, weight_of,
};
use std::alloc::AllocError;
use tsn_bounds::literal::Literal;
use tsn_bounds::number::{NONE, index_at, push, sum};
use tsn_bounds::reason::Deed;
use tsn_bounds::record::places_of;
use tsn_cert::{Filling as Filled, Move, Order};

impl Writing<'_> {
    pub(super) fn write_deed(
        &mut self,
        deed: Deed,
        is_ground: bool,
        is_lean: bool,
    ) -> Result<Made, AllocError> {
        match deed {
            Deed::Go(gap) => self.write_go(gap, is_ground, is_lean),
            Deed::Turn(gap) => self.write_turn(gap, is_ground),
            Deed::Use(shown) => self.write_use(shown as usize, is_ground),
            Deed::Arrive(stream) => self.write_arrival(stream as usize, is_ground),
            Deed::Place(number) => self.write_placing(number as usize, is_ground),
            Deed::Pack(number) => self.write_packing(number as usize, is_ground),
            Deed::Round(number) => self.write_round(number as usize, is_ground, is_lean),
            // Sums of works are told by all that was known of them: less, as orders that ask for less leave it, may not do.
            Deed::Fill(_) | Deed::Waste(_) if is_lean => Ok(Made::Wrong),
            Deed::Fill(number) => self.write_filling(number as usize, is_ground),
            Deed::Waste(number) => self.write_wasting(number as usize, is_ground),
        }
    }

    // The arc of a block: by the order that asks for most, where that will do.
    fn write_go(
        &mut self,
        gap: Literal,
        is_ground: bool,
        is_lean: bool,
    ) -> Result<Made, AllocError> {
        let known = self.known;
        let pair = pair_side(known.times, gap.bound);
        let Some(conflict) = self.order_for(gap, is_ground, is_lean)? else {
            return Ok(Made::Wrong);
        };
        let order = order_of(&known.table, pair, conflict);
        push(&mut self.script.moves, Move::Go(order))?;
        let weight = weight_of(&known.table, pair, conflict);
        Ok(make_go(known, self.views.numbers(is_ground), gap.bound, weight))
    }

    // The conflict by whose order a literal of a gap is used: that which asks for most of those there are, and which, unless it's to be
    // lean, asks for as much as the literal does.
    fn order_for(
        &mut self,
        gap: Literal,
        is_ground: bool,
        is_lean: bool,
    ) -> Result<Option<u32>, AllocError> {
        let known = self.known;
        let pair = pair_side(known.times, gap.bound);
        let strong = strong(known, gap);
        let most = self.views.most(pair, is_ground);
        if most != NONE && (is_lean || stronger(pair, most, strong) == most) {
            return Ok(Some(most));
        }
        let number = known.block_number(gap);
        if self.ensure(pair, strong, number, is_ground)? {
            Ok(Some(strong))
        } else {
            Ok(None)
        }
    }

    // Sees to it that there is the order of a conflict of a block, by one that asks for no less, or by going over the block. False where
    // that can't be.
    fn ensure(
        &mut self,
        pair: usize,
        conflict: u32,
        number: usize,
        is_ground: bool,
    ) -> Result<bool, AllocError> {
        if self.follow(pair, conflict, is_ground)? {
            return Ok(true);
        }
        let table = &self.known.table;
        let (weak, strong) = ends_of(table.block(number), pair);
        if !self.follow(pair, weak, is_ground)? {
            return Ok(false);
        }
        self.script.cross(table, number)?;
        self.views.gain(pair, strong, is_ground)?;
        self.follow(pair, conflict, is_ground)
    }

    // The order of a conflict by one that asks for no less, if there is one.
    fn follow(&mut self, pair: usize, conflict: u32, is_ground: bool) -> Result<bool, AllocError> {
        if self.views.has(pair, conflict, is_ground) {
            return Ok(true);
        }
        let most = self.views.most(pair, is_ground);
        if most == NONE || stronger(pair, most, conflict) != most {
            return Ok(false);
        }
        let table = &self.known.table;
        let known = order_of(table, pair, most);
        let weaker = order_of(table, pair, conflict);
        push(&mut self.script.moves, Move::Follow(known, weaker))?;
        self.views.gain(pair, conflict, is_ground)?;
        Ok(true)
    }

    // That the other side of a block can't be met: that of the conflict that others go by, where the view says so.
    fn write_turn(&mut self, gap: Literal, is_ground: bool) -> Result<Made, AllocError> {
        let known = self.known;
        let pair = pair_side(known.times, gap.bound);
        let mut conflict = strong(known, gap);
        let other = weight_of(&known.table, pair ^ 1, conflict);
        if !is_out_of_reach(known, self.views.numbers(is_ground), gap, other) {
            conflict = weak(known, gap);
        }
        let order = order_of(&known.table, pair, conflict);
        push(&mut self.script.moves, Move::Turn(order))?;
        self.views.gain(pair, conflict, is_ground)?;
        let weight = weight_of(&known.table, pair ^ 1, conflict);
        Ok(make_turn(known, self.views.numbers(is_ground), gap, weight))
    }

    fn write_use(&mut self, shown: usize, is_ground: bool) -> Result<Made, AllocError> {
        let known = self.known;
        let clause = index_at(&self.numbers, shown);
        let left = left_of(known, self.views.numbers(is_ground), shown);
        let (false, Ok(left)) = (clause == NONE, left) else {
            return Ok(Made::Wrong);
        };
        for literal in known.record.literals(shown) {
            if !self.is_order_there(*literal, is_ground)? {
                return Ok(Made::Wrong);
            }
        }
        push(&mut self.script.moves, Move::Use(clause as usize))?;
        if let Some(literal) = left {
            self.gain(literal, is_ground)?;
        }
        Ok(make_use(known, self.views.numbers(is_ground), left))
    }

    // Sees to it that the order is there that contradicts a literal, where its number is.
    fn is_order_there(&mut self, literal: Literal, is_ground: bool) -> Result<bool, AllocError> {
        let known = self.known;
        if literal.bound < known.times || !is_contradicted(self.views.numbers(is_ground), literal) {
            return Ok(true);
        }
        let pair = pair_side(known.times, literal.bound) ^ 1;
        let number = known.block_number(literal);
        self.ensure(pair, strong(known, literal), number, is_ground)
    }

    fn write_arrival(&mut self, stream: usize, is_ground: bool) -> Result<Made, AllocError> {
        push(&mut self.script.moves, Move::Arrive(stream))?;
        let known = self.known;
        Ok(make_arrival(known, self.views.numbers(is_ground), stream))
    }

    fn write_placing(&mut self, number: usize, is_ground: bool) -> Result<Made, AllocError> {
        let known = self.known;
        let (placings, places) = if is_ground {
            (&known.trail.placings, &known.trail.places)
        } else {
            (&known.record.placings, &known.record.places)
        };
        let Some(&placing) = placings.get(number) else {
            return Ok(Made::Wrong);
        };
        let list = places_of(places, placing.others);
        let Some(placed) = placed_of(self.alloc, &known.table, placing, list)? else {
            return Ok(Made::Wrong);
        };
        let made = if placing.side == 0 {
            Move::Last(placed)
        } else {
            Move::First(placed)
        };
        push(&mut self.script.moves, made)?;
        Ok(make_placing(known, self.views.numbers(is_ground), placing, list))
    }

    fn write_packing(&mut self, number: usize, is_ground: bool) -> Result<Made, AllocError> {
        let known = self.known;
        let Some(&packing) = known.record.packings.get(number) else {
            return Ok(Made::Wrong);
        };
        let link = packing.link as usize;
        let list = places_of(&known.record.places, packing.frames);
        if is_overfull(known, self.views.numbers(is_ground), link, list) {
            self.write_overfull(link, list, is_ground)
        } else {
            Ok(Made::Wrong)
        }
    }

    fn write_overfull(
        &mut self,
        link: usize,
        list: &[u16],
        is_ground: bool,
    ) -> Result<Made, AllocError> {
        let known = self.known;
        let Some(frames) = frames_of(self.alloc, &known.table, link, list)? else {
            return Ok(Made::Wrong);
        };
        let number = known.table.link_number(link);
        push(&mut self.script.moves, Move::Pack(number, frames))?;
        Ok(make_impossible(known, self.views.numbers(is_ground)))
    }

    fn write_filling(&mut self, number: usize, is_ground: bool) -> Result<Made, AllocError> {
        let known = self.known;
        let (fillings, places) = if is_ground {
            (&known.trail.fillings, &known.trail.places)
        } else {
            (&known.record.fillings, &known.record.places)
        };
        let Some(&filling) = fillings.get(number) else {
            return Ok(Made::Wrong);
        };
        let link = filling.link as usize;
        let frames = places_of(places, filling.frames);
        // A narrower view than that in which sums were found may leave the frames no room, and then no idle time to hold sums against.
        if is_overfull(known, self.views.numbers(is_ground), link, frames) {
            return self.write_overfull(link, frames, is_ground);
        }
        let Some(others) = others_of(self.alloc, &known.table, link, frames, filling.place)? else {
            return Ok(Made::Wrong);
        };
        let (made, place) = make_filling(known, self.views.numbers(is_ground), filling, frames);
        if let Some(place) = place {
            let filled = Filled {
                link: known.table.link_number(link),
                frame: frame_of(&known.table, link, filling.place),
                others,
                before: edge_of(&known.table, link, filling.before),
                after: edge_of(&known.table, link, filling.after),
                bound: place.unsigned_abs(),
            };
            self.push_filled(filled, filling.side)?;
        }
        Ok(made)
    }

    fn push_filled(&mut self, filled: Filled, side: u32) -> Result<(), AllocError> {
        if side == 0 {
            return push(&mut self.script.moves, Move::Fill(filled));
        }
        let turned = Filled {
            before: filled.after,
            after: filled.before,
            ..filled
        };
        push(&mut self.script.moves, Move::FillBack(turned))
    }

    fn write_wasting(&mut self, number: usize, is_ground: bool) -> Result<Made, AllocError> {
        let known = self.known;
        let Some(&wasting) = known.record.wastings.get(number) else {
            return Ok(Made::Wrong);
        };
        let link = wasting.link as usize;
        let list = places_of(&known.record.places, wasting.frames);
        if is_overfull(known, self.views.numbers(is_ground), link, list) {
            return self.write_overfull(link, list, is_ground);
        }
        let fixed = places_of(&known.record.places, wasting.fixed);
        let Some(wasted) = wasted_of(self.alloc, &known.table, link, list, fixed)? else {
            return Ok(Made::Wrong);
        };
        push(&mut self.script.moves, Move::Waste(wasted))?;
        Ok(make_impossible(known, self.views.numbers(is_ground)))
    }

    // Arcs that lead back to where they begin.
    fn write_round(
        &mut self,
        number: usize,
        is_ground: bool,
        is_lean: bool,
    ) -> Result<Made, AllocError> {
        let known = self.known;
        let gaps = known.record.round(number);
        let mut round = Vec::new(self.alloc);
        match self.gather(&mut round, gaps, is_ground, is_lean)? {
            Some(weight) if weight > 0 => {}
            _ => return Ok(Made::Wrong),
        }
        if !self.script.push_round(round)? {
            return Ok(Made::Wrong);
        }
        Ok(make_impossible(known, self.views.numbers(is_ground)))
    }

    // The orders of the arcs of gaps, and what they ask for in all. None where one isn't there.
    fn gather(
        &mut self,
        round: &mut Vec<Order>,
        gaps: &[Literal],
        is_ground: bool,
        is_lean: bool,
    ) -> Result<Option<i64>, AllocError> {
        let known = self.known;
        let mut weight = 0i64;
        for gap in gaps {
            let pair = pair_side(known.times, gap.bound);
            let Some(conflict) = self.order_for(*gap, is_ground, is_lean)? else {
                return Ok(None);
            };
            weight = sum(weight, weight_of(&known.table, pair, conflict));
            push(round, order_of(&known.table, pair, conflict))?;
        }
        Ok(Some(weight))
    }
}

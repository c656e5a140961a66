//! What was found of a link that was looked at: it narrows bounds, or is the clash.
use crate::fill::Fills;
use crate::rooms::{LastFrames, Rooms};
use std::alloc::AllocError;
use tsn_bounds::known::Known;
use tsn_bounds::literal::Literal;
use tsn_bounds::number::{at, index, less, push};
use tsn_bounds::reason::{Deed, Part, Why};
use tsn_bounds::record::{place_at, places_of};
use tsn_bounds::side::{bound_of, end_literal, head_literal, lead};
use tsn_bounds::table::Table;

impl Rooms {
    /// Looks at the link in hand from one side, from side 0 first, and narrows bounds by what is found. False at a contradiction, which
    /// is noted as the clash.
    pub fn look_from(
        &mut self,
        link: usize,
        side: u32,
        known: &mut Known,
    ) -> Result<bool, AllocError> {
        if let Some(overload) = self.look(link, side)? {
            self.crowd.note_overload(overload, known)?;
            return Ok(false);
        }
        for number in 0..self.lasts.found.len() {
            if !self.lasts.place(number, known)? {
                return Ok(false);
            }
        }
        if self.fills.is_wasted {
            self.fills.note_wasting(link, side, known)?;
            return Ok(false);
        }
        for number in 0..self.fills.found.len() {
            if !self.fills.place(number, known)? {
                return Ok(false);
            }
        }
        Ok(true)
    }
}

impl LastFrames {
    // A frame that goes last of others on a link, by its number among those that were found.
    fn place(&mut self, number: usize, known: &mut Known) -> Result<bool, AllocError> {
        let Some(&found) = self.found.get(number) else {
            return Ok(true);
        };
        let placing = found.placing;
        let visit = known.table.visit(placing.link as usize, placing.place);
        let literal = Literal::of(
            bound_of(visit, placing.side),
            less(found.head, lead(visit, placing.side)),
        );
        if known.trail.is_true(literal) {
            return Ok(true);
        }
        let kept = known.trail.keep_placing(placing, self.others_of(placing))?;
        known.raise(literal, Why::Placing(kept))
    }
}

impl Fills {
    // A frame that can't start before an instant, by its number among those that were found.
    fn place(&mut self, number: usize, known: &mut Known) -> Result<bool, AllocError> {
        let Some(&filling) = self.found.get(number) else {
            return Ok(true);
        };
        let link = filling.link as usize;
        let visit = known.table.visit(link, filling.place);
        let literal = Literal::of(
            bound_of(visit, filling.side),
            less(filling.head, lead(visit, filling.side)),
        );
        if known.trail.is_true(literal) {
            return Ok(true);
        }
        self.gather(link, filling.side, filling.frames, &known.table)?;
        let frames = places_of(&self.places, filling.frames);
        let kept = known.trail.keep_filling(filling, frames, &self.gathered)?;
        known.raise(literal, Why::Filling(kept))
    }

    // Gathers the literals of the heads and ends that are needed of frames.
    fn gather(
        &mut self,
        link: usize,
        side: u32,
        frames: Part,
        table: &Table,
    ) -> Result<(), AllocError> {
        self.gathered.clear();
        let from = frames.start;
        for number in from..from.wrapping_add(frames.count) {
            let visit = table.visit(link, place_at(&self.places, number));
            let head = head_literal(visit, side, at(&self.heads, number));
            let end = end_literal(visit, side, at(&self.ends, number));
            push(&mut self.gathered, head)?;
            push(&mut self.gathered, end)?;
        }
        Ok(())
    }

    // Notes as the clash that the rooms of a set of a link leave more than they may.
    fn note_wasting(
        &mut self,
        link: usize,
        side: u32,
        known: &mut Known,
    ) -> Result<(), AllocError> {
        let count = self.places.len();
        self.gather(link, side, Part { start: 0, count }, &known.table)?;
        known.clash.clear();
        known.clash.extend_from_slice(&self.gathered)?;
        let kept = known
            .record
            .keep_wasting(index(link), &self.places, &self.set.fixed)?;
        known.clash_deed = Some(Deed::Waste(kept));
        Ok(())
    }
}

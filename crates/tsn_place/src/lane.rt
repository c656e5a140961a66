//! The frames on a link that are placed, folded by the time after which those of two periods stand to each other as before.
use crate::dice::Dice;
use crate::rivals::Rivals;
use std::alloc::{AllocError, Global};
use tsn_bounds::number::{NONE, less, push, sum};

// A frame that is placed.
#[derive(Clone, Copy)]
struct Slot {
    begin: i64,
    end: i64,
    stream: u32,
}

// By how much a frame has to start later to be behind all that are in its way, and by how much sooner to be before them; 0 where none is.
#[derive(Clone, Copy)]
struct Shift {
    later: i64,
    sooner: i64,
}

/// What offsets are in question.
#[derive(Clone, Copy)]
pub struct Window {
    pub least: i64,
    pub greatest: i64,
}

/// A frame in a lane, from its stream's offset on.
#[derive(Clone, Copy)]
pub struct Visit {
    pub lane: usize,
    pub start: i64,
    /// How long it keeps others from the link.
    pub work: i64,
}

/// Frames on a link, by when they begin, of all streams whose periods have the same greatest common divisor with some period: whoever
/// has that period is in their way by where it is modulo the divisor alone.
#[derive(Drop)]
pub struct Lane {
    modulus: i64,
    // How long a frame is there at the most.
    longest: i64,
    // Whether some frame was ever put over the end.
    is_round: bool,
    // Whether the streams' own periods are the divisor, so that its frames follow one another.
    is_flat: bool,
    slots: Vec<Slot>,
}

impl Lane {
    /// One without frames, for frames that are there for so long at the most.
    pub fn none(alloc: Global, modulus: i64, longest: i64) -> Lane {
        Lane {
            modulus,
            longest,
            is_round: false,
            is_flat: true,
            slots: Vec::new(alloc),
        }
    }

    /// Streams of this period are to be put there.
    pub fn admit(&mut self, period: i64) {
        self.is_flat = self.is_flat && period == self.modulus;
    }

    // The instant modulo the divisor.
    fn fold(&self, instant: i64) -> i64 {
        if instant >= 0 && instant < self.modulus {
            return instant;
        }
        let next = sum(instant, self.modulus);
        if instant < 0 && next >= 0 {
            return next;
        }
        let rest = match instant.checked_rem(self.modulus) {
            Some(rest) => rest,
            None => 0,
        };
        if rest < 0 {
            sum(rest, self.modulus)
        } else {
            rest
        }
    }

    // The place of the first frame that begins at an instant or later.
    fn first_from(&self, begin: i64) -> usize {
        self.slots.partition_point(|slot| slot.begin < begin)
    }

    // The place of the first frame that can end after an instant.
    fn first_after(&self, begin: i64) -> usize {
        if self.is_flat {
            self.slots.partition_point(|slot| slot.end <= begin)
        } else {
            self.first_from(less(begin, self.longest))
        }
    }

    /// Puts a frame there.
    pub fn put(&mut self, stream: u32, instant: i64, work: i64) -> Result<(), AllocError> {
        let begin = self.fold(instant);
        let end = sum(begin, work);
        self.is_round = self.is_round || end > self.modulus;
        let place = self.first_from(begin);
        if place <= self.slots.len() {
            self.slots.insert(place, Slot { begin, end, stream })?;
        }
        Ok(())
    }

    /// Takes away a frame of a stream.
    pub fn take(&mut self, stream: u32, instant: i64) {
        let begin = self.fold(instant);
        let mut found = self.slots.len();
        for place in self.first_from(begin)..self.slots.len() {
            if self.slots[place].stream == stream {
                found = place;
                break;
            }
        }
        if found < self.slots.len() {
            let _ = self.slots.remove(found);
        }
    }

    // By how much a frame has to start later or sooner, were there no streams but those of numbers before one.
    fn shift(&self, instant: i64, work: i64, before: u32) -> Shift {
        let begin = self.fold(instant);
        let none = Shift {
            later: 0,
            sooner: 0,
        };
        let mut shift = self.shift_at(begin, work, before, none);
        if self.is_round && begin < self.longest {
            shift = self.shift_at(sum(begin, self.modulus), work, before, shift);
        }
        if sum(begin, work) > self.modulus {
            shift = self.shift_at(less(begin, self.modulus), work, before, shift);
        }
        shift
    }

    fn shift_at(&self, begin: i64, work: i64, before: u32, known: Shift) -> Shift {
        let end = sum(begin, work);
        let mut shift = known;
        for place in self.first_after(begin)..self.slots.len() {
            let slot = self.slots[place];
            if slot.begin >= end {
                break;
            }
            if slot.end > begin && slot.stream < before {
                shift.later = shift.later.max(less(slot.end, begin));
                shift.sooner = shift.sooner.max(less(end, slot.begin));
            }
        }
        shift
    }

    /// How much later a frame can be put, at the least, were there no streams but those of numbers before one; none where there is never
    /// room for it.
    pub fn delay(&self, instant: i64, work: i64, before: u32) -> Option<i64> {
        let mut delay = 0i64;
        for _ in 0..self.slots.len() {
            let later = self.shift(sum(instant, delay), work, before).later;
            if later == 0 {
                return Some(delay);
            }
            delay = sum(delay, later);
        }
        self.if_clear(instant, delay, work, before)
    }

    /// How much sooner a frame can be put, at the least; none where there is never room for it.
    pub fn advance(&self, instant: i64, work: i64) -> Option<i64> {
        let mut advance = 0i64;
        for _ in 0..self.slots.len() {
            let sooner = self.shift(less(instant, advance), work, NONE).sooner;
            if sooner == 0 {
                return Some(advance);
            }
            advance = sum(advance, sooner);
        }
        let moved = advance.wrapping_neg();
        match self.if_clear(instant, moved, work, NONE) {
            Some(_) => Some(advance),
            None => None,
        }
    }

    // After as many moves as there are frames each was passed.
    fn if_clear(&self, instant: i64, moved: i64, work: i64, before: u32) -> Option<i64> {
        if self.shift(sum(instant, moved), work, before).later == 0 {
            Some(moved)
        } else {
            None
        }
    }

    /// Meets those that are in the way of a frame.
    pub fn meet(&self, instant: i64, work: i64, rivals: &mut Rivals) -> Result<(), AllocError> {
        let begin = self.fold(instant);
        self.meet_at(begin, work, rivals)?;
        if self.is_round && begin < self.longest {
            self.meet_at(sum(begin, self.modulus), work, rivals)?;
        }
        if sum(begin, work) > self.modulus {
            self.meet_at(less(begin, self.modulus), work, rivals)?;
        }
        Ok(())
    }

    fn meet_at(&self, begin: i64, work: i64, rivals: &mut Rivals) -> Result<(), AllocError> {
        let end = sum(begin, work);
        for place in self.first_after(begin)..self.slots.len() {
            let slot = self.slots[place];
            if slot.begin >= end {
                break;
            }
            if slot.end > begin {
                rivals.meet(slot.stream)?;
            }
        }
        Ok(())
    }

    /// Notes the offsets in question by which a frame begins where another one ends, or ends where one begins; one for each, in
    /// whichever turn the dice say.
    pub fn note_edges(
        &self,
        visit: Visit,
        window: Window,
        dice: &mut Dice,
        edges: &mut Vec<i64>,
    ) -> Result<(), AllocError> {
        for slot in &self.slots {
            let behind = less(slot.end, visit.start);
            self.note_edge(behind, window, dice, edges)?;
            let before = less(less(slot.begin, visit.work), visit.start);
            self.note_edge(before, window, dice, edges)?;
        }
        Ok(())
    }

    fn note_edge(
        &self,
        offset: i64,
        window: Window,
        dice: &mut Dice,
        edges: &mut Vec<i64>,
    ) -> Result<(), AllocError> {
        let first = sum(window.least, self.fold(less(offset, window.least)));
        if first > window.greatest {
            return Ok(());
        }
        let turns = self.turns_in(less(window.greatest, first));
        let turn = if turns > 0 {
            dice.below((sum(turns, 1) & 0x7FFF_FFFF) as usize)
        } else {
            0
        };
        push(
            edges,
            sum(
                first,
                self.modulus.wrapping_mul((turn & 0x7FFF_FFFF) as i64),
            ),
        )
    }

    // How often the divisor goes into a time.
    fn turns_in(&self, time: i64) -> i64 {
        if time < self.modulus {
            return 0;
        }
        match time.checked_div(self.modulus) {
            Some(turns) => turns,
            None => 0,
        }
    }

    /// How many frames there are.
    pub fn count(&self) -> usize {
        self.slots.len()
    }
}

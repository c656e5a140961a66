//! How a question is asked next: from which end of what is left, how far from it, and with how many conflicts.
use tsn_bounds::number::{less, sum};

// How many conflicts the first question after the flowspan is worth, and the others at first.
const FLOWSPAN: Worth = Worth {
    first: 50,
    share: 100,
    cut: 4,
    parts: 2,
    leaps: 128,
};

// The same after a stream's offset.
const OFFSET: Worth = Worth {
    first: 300,
    share: 1000,
    cut: 1,
    parts: 8,
    leaps: MOST_PARTS,
};

// In how many parts what is left is parted at most.
const MOST_PARTS: i64 = 1 << 20;

// How much less is asked for at the least, after a schedule was found, than one less than its value, in nanoseconds.
const LEAP: i64 = 256;

// How often streams may have no room at first, where a schedule is looked for by placing: of so many streams or fewer, and of more.
const FEW_STREAMS: usize = 128;

const FEW_TRIES: u64 = 2000;

const TRIES: u64 = 8000;

// How many conflicts the first question is worth, and the others at first; of how many parts of that a question from below gets one,
// where the last one from there wasn't decided; in how many parts what is left is parted at first; and the part of it that a leap is at
// the least.
#[derive(Clone, Copy)]
struct Worth {
    first: u64,
    share: u64,
    cut: u64,
    parts: i64,
    leaps: i64,
}

/// A turn of questions after the least value of a variable.
#[derive(Clone, Copy)]
pub struct Turn {
    is_first: bool,
    /// Whether it's asked from above.
    pub is_above: bool,
    // Whether the last question from below found that there was nothing.
    is_rising: bool,
    parts: i64,
    leap: i64,
    /// How often streams may have no room where a schedule is looked for by placing.
    pub tries: u64,
    share: u64,
    worth: Worth,
}

impl Turn {
    /// The first question is whether the flowspan can have the least value; where no schedule is known, whether there is one, however
    /// long that takes.
    pub fn of_flowspan(is_known: bool, streams: usize) -> Turn {
        let mut turn = Turn::with(FLOWSPAN);
        if streams > FEW_STREAMS {
            turn.tries = TRIES;
        }
        if is_known {
            return turn;
        }
        Turn {
            is_first: false,
            is_above: true,
            share: u64::MAX,
            ..turn
        }
    }

    /// The first question is whether the offset can have the least value.
    pub fn of_offset() -> Turn {
        Turn::with(OFFSET)
    }

    fn with(worth: Worth) -> Turn {
        Turn {
            is_first: true,
            is_above: false,
            is_rising: false,
            parts: worth.parts,
            leap: 0,
            tries: FEW_TRIES,
            share: worth.first,
            worth,
        }
    }

    /// A value from the least one on that is below this one: at first the least, then by turns a part of what is left, and one less, or
    /// some more where schedules are found.
    pub fn target(self, least: i64, below: i64) -> i64 {
        let last = less(below, 1);
        if self.is_first {
            return least;
        }
        let room = less(last, least);
        if self.is_above {
            return less(last, self.leap.min(room / 2));
        }
        match room.checked_div(self.parts) {
            Some(part) => sum(least, part),
            None => least,
        }
    }

    /// How many conflicts the question is worth: from below less, where the last one from there wasn't decided.
    pub fn share(&self) -> u64 {
        if self.is_first || self.is_above || self.is_rising {
            return self.share;
        }
        match self.share.checked_div(self.worth.cut) {
            Some(share) => share,
            None => self.share,
        }
    }

    /// A schedule was found, with so much left: the next leap is twice as long.
    pub fn note_found(&mut self, room: i64) {
        if self.share == u64::MAX {
            self.share = self.worth.share;
        } else if self.is_above {
            let part = match room.checked_div(self.worth.leaps) {
                Some(part) => part,
                None => 0,
            };
            self.leap = self.leap.saturating_mul(2).max(LEAP).max(part);
        }
    }

    /// There was nothing: less of what is left is asked for.
    pub fn note_none(&mut self) {
        if self.is_first {
            self.end_first();
        } else if self.is_above {
            self.leap = self.leap / 2;
        } else {
            self.is_rising = true;
            self.parts = (self.parts / 2).max(2);
        }
    }

    /// It wasn't decided: a shorter leap is asked for; after the shortest one it is asked from the other end, and from the lower one for
    /// less.
    pub fn note_unknown(&mut self) {
        if self.is_first {
            self.end_first();
        } else if self.is_above && self.leap > 0 {
            self.leap = self.leap / 4;
        } else if self.is_above {
            self.is_above = false;
            self.tries = self.tries.saturating_add(self.tries / 4);
        } else {
            self.is_rising = false;
            self.parts = self.parts.wrapping_mul(4).min(MOST_PARTS);
            self.share = self.share.saturating_add(self.share / 2);
            self.is_above = true;
        }
    }

    fn end_first(&mut self) {
        self.is_first = false;
        self.share = self.worth.share;
    }
}

//! How much work is left, and when a search begins anew: by the sequence of Luby, Sinclair and Zuckerman 1993.

// After how many conflicts a search begins anew, at the least.
const RUN: u64 = 100;

/// How many conflicts and how much work there were, and how much there may be.
#[derive(Clone, Copy, Drop)]
pub struct Pace {
    pub conflicts: u64,
    pub work: u64,
    /// Where the question ends.
    pub last_conflict: u64,
    pub last_work: u64,
    // When the search begins anew, and how often it did.
    again: u64,
    runs: u64,
}

impl Pace {
    /// Nothing yet, and nothing may be.
    pub fn none() -> Pace {
        Pace {
            conflicts: 0,
            work: 0,
            last_conflict: 0,
            last_work: u64::MAX,
            again: 0,
            runs: 0,
        }
    }

    /// Counts work.
    pub fn spend(&mut self, count: usize) {
        self.work = self.work.wrapping_add(count as u64).wrapping_add(4);
    }

    /// Counts a conflict.
    pub fn count_conflict(&mut self) {
        self.conflicts = self.conflicts.wrapping_add(1);
    }

    /// Begins a question with so many conflicts at most.
    pub fn begin(&mut self, conflicts: u64) {
        self.last_conflict = self.conflicts.saturating_add(conflicts);
        self.runs = 0;
        self.begin_run();
    }

    /// Begins anew.
    pub fn begin_run(&mut self) {
        self.runs = self.runs.wrapping_add(1);
        self.again = self
            .conflicts
            .saturating_add(luby(self.runs).wrapping_mul(RUN));
    }

    /// Whether the search is to begin anew.
    pub fn is_run_over(&self) -> bool {
        self.conflicts >= self.again
    }

    /// Whether so many conflicts, or the work that there may be, are used up.
    pub fn is_used_up(&self, conflicts: u64) -> bool {
        self.conflicts >= conflicts || self.work >= self.last_work
    }

    /// Whether the work that there may be is used up.
    pub fn is_cut(&self) -> bool {
        self.work >= self.last_work
    }

    /// Whether the question's share is used up.
    pub fn is_over(&self) -> bool {
        self.is_used_up(self.last_conflict)
    }
}

// The number of this place, from 1, in the sequence 1, 1, 2, 1, 1, 2, 4, ..
fn luby(place: u64) -> u64 {
    let mut rest = place;
    for _ in 0..64 {
        let length = length_over(rest);
        if rest == length {
            return rest.wrapping_add(1) / 2;
        }
        rest = rest.wrapping_sub(length / 2);
    }
    1
}

// The least of 1, 3, 7, 15, .. that isn't less than this.
fn length_over(place: u64) -> u64 {
    let mut length: u64 = 1;
    for _ in 0..63 {
        if length < place {
            length = length.wrapping_mul(2).wrapping_add(1);
        }
    }
    length
}

//! How much of a budget may be used next.
use crate::learning::Budget;
use tsn_solver::pace::Pace;

/// How many conflicts and how much work there may be, and how many conflicts till a question is left.
#[derive(Clone, Copy, Drop)]
pub struct Quota {
    last_conflict: u64,
    last_work: u64,
    part_conflict: u64,
}

impl Quota {
    /// All of a budget.
    pub fn of(budget: Budget) -> Quota {
        Quota {
            last_conflict: budget.conflicts,
            last_work: budget.work,
            part_conflict: budget.conflicts,
        }
    }

    /// The next questions may take one of so many parts of what is left.
    pub fn take_part(&mut self, pace: &mut Pace, parts: u64) {
        let work = self.last_work.saturating_sub(pace.work);
        let conflicts = self.last_conflict.saturating_sub(pace.conflicts);
        pace.last_work = pace.work.saturating_add(part_of(work, parts));
        self.part_conflict = pace.conflicts.saturating_add(part_of(conflicts, parts));
    }

    /// How many conflicts they may still take.
    pub fn left(&self, pace: &Pace) -> u64 {
        self.part_conflict.saturating_sub(pace.conflicts)
    }

    /// Whether they took what they may.
    pub fn is_over(&self, pace: &Pace) -> bool {
        pace.is_used_up(self.part_conflict)
    }
}

fn part_of(whole: u64, parts: u64) -> u64 {
    match whole.checked_div(parts) {
        Some(part) => part,
        None => whole,
    }
}

//! What is known of a network's schedules while a search goes on.
ghost use Rattle.std.specs.Prelude.{◌≡◌, ◌≤◌, IfOk, IfSome};
ghost use Rattle.tsn_model.specs.Network.{Network};
ghost use Rattle.tsn_timing.specs.Solution.{IsSolved};
ghost use Rattle.tsn_branch.specs.Bound.{IsLowerBound};
ghost use Rattle.tsn_answer.specs.Known.{HoldsKept, IsKeptIfBest, IsKnown, IsOneOf, KnowsWithin, LosesNothing};

use tsn_book::Book;
use tsn_branch::least_arrival;
use tsn_cert::Plan;
use tsn_model::NoMemory;
use tsn_timing::{Solved, Timing};

/// What is known of a network's schedules.
#[derive(Drop)]
pub struct Known {
    /// The best schedule that was found, if any.
    pub best: Option<Solved>,
    /// What no valid schedule's flowspan is below, in nanoseconds, at most the cycle.
    pub bound: u64,
}

impl Known {
    /// What is known before any search.
    pub fn of(timing: &Timing) -> Known
        ensures { IsKnown timing.now result }
    {
        Known {
            best: None,
            bound: least_arrival(timing).min(timing.cycle()),
        }
    }

    /// The offsets of the best schedule, in nanoseconds, if any.
    pub fn offsets(&self) -> Option<&[u64]> {
        match &self.best {
            Some(best) => Some(best.valid().offsets()),
            None => None,
        }
    }

    /// With a valid schedule more, which is kept where no better one is known.
    pub fn with(self, solved: Solved) -> Known
        ensures known { (network : Network) → IsKnown network self → IsSolved network solved → IsKnown network result }
        ensures kept { LosesNothing self result }
        ensures taken { KnowsWithin result solved.flowspan }
        ensures latest { IsKeptIfBest solved result }
    {
        let Known { best, bound } = self;
        Known {
            best: Some(better_of(best, solved)),
            bound,
        }
    }

    /// With what a plan says, if that is a valid schedule.
    pub fn with_plan(self, timing: &Timing, plan: Plan) -> Known
        requires { IsKnown timing.now self }
        ensures known { IsKnown timing.now result }
        ensures kept { LosesNothing self result }
    {
        match plan {
            Plan::Schedule {
                flowspan: _,
                offsets,
            } => self.with_offsets(timing, offsets.into_list()),
            Plan::None => self,
        }
    }

    // With offsets, if they are a valid schedule.
    fn with_offsets(self, timing: &Timing, offsets: Vec<u64>) -> Known
        requires { IsKnown timing.now self }
        ensures known { IsKnown timing.now result }
        ensures kept { LosesNothing self result }
    {
        match timing.valid(offsets) {
            Ok(valid) => self.with(Solved::of(timing, valid)),
            Err((_, offsets)) => {
                drop(offsets);
                self
            }
        }
    }

    /// With the schedule that a book has kept, if any. The error says that there was no memory.
    pub fn with_kept(self, book: &Book) -> Result<Known, NoMemory>
        requires { IsKnown book.now.network self }
        ensures known { IfOk result (IsKnown book.now.network) }
        ensures kept { IfOk result (LosesNothing self) }
        ensures taken { IfOk result (HoldsKept book.now.network book.now) }
    {
        match book.kept() {
            Some(kept) => {
                let solved = kept.copy()?;
                Ok(self.with(solved))
            }
            None => Ok(self),
        }
    }

    /// With what was shown that no valid schedule's flowspan is below, in nanoseconds, at most the cycle.
    pub fn raised(self, bound: u64) -> Known
        ensures known { (network : Network) → IsKnown network self → IsLowerBound network bound → bound ≤ network.cycle → IsKnown network result }
        ensures kept { LosesNothing self result }
        ensures taken { bound ≤ result.bound }
    {
        let Known {
            best,
            bound: before,
        } = self;
        Known {
            best,
            bound: before.max(bound),
        }
    }
}

// The schedule of lesser flowspan; of two as long the second.
fn better_of(best: Option<Solved>, solved: Solved) -> Solved
    ensures one { IsOneOf best solved result }
    ensures first { IfSome best (λ before. result.flowspan ≤ before.flowspan) }
    ensures second { result.flowspan ≤ solved.flowspan }
    ensures latest { result.flowspan ≡ solved.flowspan → result ≡ solved }
{
    match best {
        Some(best) if best.flowspan() < solved.flowspan() => {
            drop(solved);
            best
        }
        _ => solved,
    }
}

//! Searches for the first of the optimal schedules; and once more with the plan known, for a shorter argument. Times are in nanoseconds.
use crate::best::Best;
use crate::course::{Course, State, bound_of, course_from, course_of};
use std::alloc::{AllocError, Global};
use tsn_bounds::number::{sum, unsigned_list};
use tsn_cert::{Argument, Goal};
use tsn_model::NoMemory;
use tsn_solver::pace::Pace;
use tsn_solver::search::Search;
use tsn_timing::Timing;
use tsn_translate::writing::{Aim, write_argument};

// How many more conflicts the second time may take than the first.
const MORE: u64 = 1000;

/// How much a search may do.
#[derive(Clone, Copy)]
pub struct Budget {
    /// How many conflicts there may be.
    pub conflicts: u64,
    /// How often arcs, clauses and streams of links may be looked at.
    pub work: u64,
    /// How many steps an argument may have.
    pub steps: usize,
}

/// What is known of a network.
#[derive(Drop)]
pub enum LearnAnswer {
    /// The first of the optimal schedules, with the argument that it is.
    First(LearnedPlan),
    /// There is no valid schedule, with the argument that there is none; no argument where it has too many steps.
    None {
        argument: Option<Argument>,
        /// How many conflicts there were.
        conflicts: u64,
    },
    /// The budget is used up.
    GaveUp(BestSoFar),
}

/// A schedule with its argument: the offsets and the flowspan in nanoseconds.
#[derive(Drop)]
pub struct LearnedPlan {
    pub offsets: Vec<u64>,
    pub flowspan: u64,
    pub argument: Argument,
    /// How many conflicts there were.
    pub conflicts: u64,
}

/// What was found so far.
#[derive(Drop)]
pub struct BestSoFar {
    /// A valid schedule's offsets, in nanoseconds.
    pub schedule: Option<Vec<u64>>,
    /// No valid schedule has a lesser flowspan, in nanoseconds.
    pub bound: u64,
    /// That no valid schedule has a lesser flowspan than this one, where that is known.
    pub argument: Option<Argument>,
    /// How many conflicts there were.
    pub conflicts: u64,
}

/// How far a search has got.
#[derive(Clone, Copy)]
pub struct CourseNews {
    /// The least flowspan that was found so far, in nanoseconds.
    pub flowspan: Option<u64>,
    /// No flowspan is less, in nanoseconds.
    pub bound: u64,
    /// Once the flowspan stands: which stream's offset is being lowered, from 0.
    pub stream: Option<usize>,
    /// How many contradictions taught something.
    pub conflicts: u64,
    /// How much work was done, of the budget's.
    pub work: u64,
}

/// Who is told.
pub trait Hear {
    /// Tells how far it has got.
    fn hear(&self, news: CourseNews);
}

/// Searches for the first of the optimal schedules, from one that is known on where there is one, in bounded work, and the same one at
/// each run. The error says that there was no memory.
pub fn learn<H: Hear>(
    alloc: Global,
    timing: &Timing,
    known: Option<&[u64]>,
    budget: Budget,
    hear: &H,
) -> Result<LearnAnswer, NoMemory> {
    let mut course = course_of(alloc, timing, known, budget, hear)?;
    let answered = course.answer(alloc, timing, budget, hear);
    drop(course);
    Ok(answered?)
}

impl Budget {
    // As much again as was used, and a little more.
    fn to_end_by(self, pace: &Pace) -> Budget {
        let double = pace.conflicts.saturating_mul(2);
        Budget {
            conflicts: self.conflicts.min(double.saturating_add(MORE)),
            ..self
        }
    }
}

impl Course {
    fn answer<H: Hear>(
        &mut self,
        alloc: Global,
        timing: &Timing,
        budget: Budget,
        hear: &H,
    ) -> Result<LearnAnswer, AllocError> {
        match self.decide(hear)? {
            State::Empty => answer_none(alloc, &mut self.search, budget),
            State::Open => answer_open(alloc, &mut self.search, &self.best, timing, budget),
            State::Decided => {
                let again = self.again(alloc, timing, budget, hear)?;
                answer_first(alloc, &mut self.search, &self.best, timing, again, budget)
            }
        }
    }

    // Decides it once more, with the plan known, in about the same time. None where that doesn't succeed.
    fn again<H: Hear>(
        &mut self,
        alloc: Global,
        timing: &Timing,
        budget: Budget,
        hear: &H,
    ) -> Result<Option<Argument>, AllocError> {
        let plan = self.best.copy(alloc)?;
        let rest = budget.to_end_by(&self.search.pace);
        let mut course = course_from(alloc, timing, plan, rest)?;
        course.search.pace = self.search.pace;
        let argument = course.argue_again(alloc, hear);
        drop(course);
        argument
    }

    fn argue_again<H: Hear>(
        &mut self,
        alloc: Global,
        hear: &H,
    ) -> Result<Option<Argument>, AllocError> {
        if !self.confirm(hear)? {
            return Ok(None);
        }
        argue_first(alloc, &mut self.search, &self.best)
    }
}

fn argue_first(
    alloc: Global,
    search: &mut Search,
    best: &Best,
) -> Result<Option<Argument>, AllocError> {
    let aim = Aim {
        goal: Goal::First,
        plan: &best.offsets,
        flowspan: best.flowspan,
    };
    argue(alloc, search, aim)
}

fn answer_first(
    alloc: Global,
    search: &mut Search,
    best: &Best,
    timing: &Timing,
    again: Option<Argument>,
    budget: Budget,
) -> Result<LearnAnswer, AllocError> {
    let own = argue_first(alloc, search, best)?;
    match within(shorter(own, again), budget) {
        Some(argument) => Ok(LearnAnswer::First(LearnedPlan {
            offsets: unsigned_list(alloc, &best.offsets)?,
            flowspan: best.flowspan.unsigned_abs(),
            argument,
            conflicts: search.pace.conflicts,
        })),
        None => answer_open(alloc, search, best, timing, budget),
    }
}

fn answer_none(
    alloc: Global,
    search: &mut Search,
    budget: Budget,
) -> Result<LearnAnswer, AllocError> {
    let aim = Aim {
        goal: Goal::None,
        plan: &[],
        flowspan: sum(search.known.table.most, 1),
    };
    let argument = argue(alloc, search, aim)?;
    Ok(LearnAnswer::None {
        argument: within(argument, budget),
        conflicts: search.pace.conflicts,
    })
}

fn answer_open(
    alloc: Global,
    search: &mut Search,
    best: &Best,
    timing: &Timing,
    budget: Budget,
) -> Result<LearnAnswer, AllocError> {
    let offsets = unsigned_list(alloc, &best.offsets)?;
    let is_valid = timing.is_valid(&offsets);
    let bound = bound_of(&search.known);
    let mut argument = None;
    if is_valid && bound >= best.flowspan.unsigned_abs() {
        argument = argue_least(alloc, search, best.flowspan)?;
    }
    Ok(LearnAnswer::GaveUp(BestSoFar {
        schedule: if is_valid { Some(offsets) } else { None },
        bound,
        argument: within(argument, budget),
        conflicts: search.pace.conflicts,
    }))
}

/// The argument that no schedule has a lesser flowspan than this.
pub fn argue_least(
    alloc: Global,
    search: &mut Search,
    flowspan: i64,
) -> Result<Option<Argument>, AllocError> {
    let aim = Aim {
        goal: Goal::Least,
        plan: &[],
        flowspan,
    };
    argue(alloc, search, aim)
}

// The argument for an aim. None where what the search found out doesn't show it.
fn argue(alloc: Global, search: &mut Search, aim: Aim<'_>) -> Result<Option<Argument>, AllocError> {
    search.go_back(0)?;
    write_argument(alloc, &mut search.known, aim)
}

// The argument of fewer steps.
fn shorter(one: Option<Argument>, other: Option<Argument>) -> Option<Argument> {
    let (Some(first), Some(second)) = (&one, &other) else {
        return if one.is_some() { one } else { other };
    };
    if second.steps.list().len() < first.steps.list().len() {
        other
    } else {
        one
    }
}

/// The argument, if it has no more steps than may be.
pub fn within(argument: Option<Argument>, budget: Budget) -> Option<Argument> {
    match argument {
        Some(argument) if argument.steps.list().len() <= budget.steps => Some(argument),
        _ => None,
    }
}

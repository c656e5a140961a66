//! Shows that no schedule has a lesser flowspan than one that is known. Times are in nanoseconds.
ghost use Rattle.std.specs.Prelude.{◌≤◌, ◌-◌};

use crate::course::{news_of, search_of};
use crate::learning::{Budget, CourseNews, Hear, argue_least, within};
use std::alloc::{AllocError, Global};
use tsn_bounds::literal::Literal;
use tsn_bounds::number::{at, less, signed, signed_list, sum, unsigned_list};
use tsn_cert::Argument;
use tsn_model::NoMemory;
use tsn_solver::ask::Answered;
use tsn_solver::search::Search;
use tsn_timing::Timing;

// After how many conflicts it is told how far a proof has got.
const ROUND: u64 = 2000;

/// What is known of a schedule's flowspan.
#[derive(Drop)]
pub enum LeastAnswer {
    /// No valid schedule has a lesser one, with the argument for that, found after so many conflicts.
    Least { argument: Argument, conflicts: u64 },
    /// A valid schedule of lesser flowspan: its offsets in nanoseconds, and after how many conflicts it was found.
    Better { offsets: Vec<u64>, conflicts: u64 },
    /// The budget is used up, or the argument has too many steps, or what was given is no valid schedule; after so many conflicts.
    GaveUp { conflicts: u64 },
}

/// Shows that no valid schedule has a lesser flowspan than this one, or finds one that has. The offsets are in nanoseconds. The error
/// says that there was no memory.
pub fn show_least<H: Hear>(
    alloc: Global,
    timing: &Timing,
    plan: &[u64],
    budget: Budget,
    hear: &H,
) -> Result<LeastAnswer, NoMemory> {
    if !timing.is_valid(plan) {
        return Ok(LeastAnswer::GaveUp { conflicts: 0 });
    }
    let best = signed_list(alloc, plan)?;
    let most = signed(timing.cycle()).min(flowspan_of(timing, &best));
    let mut search = search_of(alloc, timing, most, budget.work)?;
    let answered = show_below(&mut search, &best, budget, hear);
    drop(search);
    Ok(answered?)
}

// When the last stream has arrived, by the offsets.
fn flowspan_of(timing: &Timing, offsets: &[i64]) -> i64 {
    let mut last = 0i64;
    for stream in 0..timing.streams() {
        last = last.max(sum(at(offsets, stream), signed(timing.arrival(stream))));
    }
    last
}

fn show_below<H: Hear>(
    search: &mut Search,
    best: &[i64],
    budget: Budget,
    hear: &H,
) -> Result<LeastAnswer, AllocError> {
    let flowspan = search.known.table.flowspan(best);
    let below = Literal::of(search.known.span() ^ 1, less(1, flowspan));
    search.pace.last_work = budget.work;
    search.set_sides(best);
    let _ = search.give(below)?;
    match ask_on(search, flowspan, budget, hear)? {
        Answered::Yes => answer_better(search),
        Answered::No => answer_least(search, flowspan, budget),
        Answered::Unknown => Ok(answer_nothing(search)),
    }
}

// Asks for a schedule, and tells how far it has got each time that it is asked again, and at the end.
fn ask_on<H: Hear>(
    search: &mut Search,
    flowspan: i64,
    budget: Budget,
    hear: &H,
) -> Result<Answered, AllocError> {
    for _ in 0..u64::MAX {
        hear.hear(news(search, flowspan));
        let most = most_next(budget, search.pace.conflicts);
        let answered = search.ask(most)?;
        if answered != Answered::Unknown || search.pace.is_used_up(budget.conflicts) {
            hear.hear(news(search, flowspan));
            return Ok(answered);
        }
    }
    Ok(Answered::Unknown)
}

// How many conflicts the next question may take, after so many: no more than are left.
fn most_next(budget: Budget, conflicts: u64) -> u64
    ensures { result ≤ budget.conflicts - conflicts }
{
    budget.conflicts.saturating_sub(conflicts).min(ROUND)
}

fn news(search: &Search, flowspan: i64) -> CourseNews {
    news_of(search, Some(flowspan.unsigned_abs()), None)
}

fn answer_better(search: &Search) -> Result<LeastAnswer, AllocError> {
    let offsets = unsigned_list(search.alloc, &search.found)?;
    let conflicts = search.pace.conflicts;
    Ok(LeastAnswer::Better { offsets, conflicts })
}

fn answer_least(
    search: &mut Search,
    flowspan: i64,
    budget: Budget,
) -> Result<LeastAnswer, AllocError> {
    let argument = argue_least(search.alloc, search, flowspan)?;
    Ok(match within(argument, budget) {
        Some(argument) => LeastAnswer::Least {
            argument,
            conflicts: search.pace.conflicts,
        },
        None => answer_nothing(search),
    })
}

fn answer_nothing(search: &Search) -> LeastAnswer {
    LeastAnswer::GaveUp {
        conflicts: search.pace.conflicts,
    }
}

//! What the supervisor of a search is told.
ghost use Rattle.tsn_answer.specs.Answer.{IsFinished, IsFound};
ghost use Rattle.tsn_branch.specs.Bound.{IsLowerBound};

use crate::task::Task;
use tsn_answer::Found;
use tsn_book::Book;
use tsn_branch::Supervisor;
use tsn_timing::Timing;

/// Tells the supervisor what no valid schedule's flowspan is below, in nanoseconds.
pub fn tell_bound<S: Supervisor>(timing: &Timing, supervisor: &S, bound: u64)
    requires { IsLowerBound timing.now bound }
{
    // The network stands in the contract alone.
    let _ = timing;
    supervisor.hear_bound(bound);
}

/// Tells the supervisor that no valid schedule's flowspan is below that of the plan, where a book is finished and has kept one. (Of an
/// argument the supervisor has heard as it was accepted.)
pub fn tell_found<S: Supervisor>(task: &Task<'_, S>, found: &Found)
    requires { IsFound task.now.setting.now.tables.timing.now task.now.effort.limit found.now }
{
    if let Found::Finished(book) = found {
        tell_kept(task, book);
    }
}

// Tells what a finished book has kept.
fn tell_kept<S: Supervisor>(task: &Task<'_, S>, book: &Book)
    requires { IsFinished task.now.setting.now.tables.timing.now task.now.effort.limit book.now }
{
    if let Some(kept) = book.kept() {
        let setting = task.setting;
        tell_bound(setting.tables.timing, setting.supervisor, kept.flowspan());
    }
}

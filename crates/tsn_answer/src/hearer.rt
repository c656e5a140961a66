//! How the conflict-driven search is watched, and how much it may do.
ghost use Rattle.std.specs.Prelude.{◌≡◌, ◌*◌, ◌-◌, ◌^◌, min, max};
ghost use Rattle.tsn_answer.specs.declared.hearer.TheConstants.{LEAST_WORK, WORK};

use tsn_branch::{LearnedNews, Supervisor};
use tsn_learn::{Budget, CourseNews, Hear};

/// How often the conflict-driven search may look at arcs, clauses and streams of links for each node that a run may settle: with a
/// million nodes it takes about a minute.
pub const WORK: u64 = 5_000;

/// How often it may do so at the least.
pub const LEAST_WORK: u64 = 100_000_000;

/// Hands what a conflict-driven search tells to a supervisor: of so many streams, with so many conflicts at most.
#[derive(Clone, Copy)]
pub struct Hearer<'a, S> {
    pub supervisor: &'a S,
    pub streams: usize,
    pub limit: usize,
}

impl<'a, S: Supervisor> Hear for Hearer<'a, S> {
    fn hear(&self, news: CourseNews) {
        let CourseNews {
            flowspan,
            bound,
            stream,
            conflicts,
            work: _,
        } = news;
        self.supervisor.hear_learned(LearnedNews {
            flowspan,
            bound,
            stream,
            streams: self.streams,
            conflicts: count_of(conflicts, self.limit) as u64,
        });
    }
}

/// How many conflicts are told of: as many as there were, and no more than there may be. (Where one comes upon another a question ends a
/// few later.)
pub fn count_of(conflicts: u64, limit: usize) -> usize
    ensures { result ≡ min limit conflicts }
{
    limit.min(conflicts as usize)
}

/// What may be done where so many nodes may be settled, and so many steps a certificate may have.
pub fn budget_of(limit: usize) -> Budget
    ensures conflicts { result.conflicts ≡ limit }
    ensures steps { result.steps ≡ limit }
    ensures work { result.work ≡ max LEAST_WORK (min (limit * WORK) (2 ^ 64 - 1)) }
{
    let most = limit as u64;
    Budget {
        conflicts: most,
        work: most.saturating_mul(WORK).max(LEAST_WORK),
        steps: limit,
    }
}

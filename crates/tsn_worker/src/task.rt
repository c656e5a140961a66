//! What is to be searched.
ghost use Rattle.std.specs.Prelude.{◌≡◌, ◌≤◌};
ghost use Rattle.tsn_answer.specs.declared.effort.TheConstants.{MAX_LIMIT, MAX_WORKERS};

use tsn_answer::Effort;
use tsn_branch::Setting;
use tsn_timing::Problem;

/// What is to be searched, with what a search of it is given, and how much is to be done. Each search of the planner's takes one, so
/// what is said here is asked of all of them.
#[derive(Drop)]
pub struct Task<'a, S> {
    pub problem: &'a Problem,
    pub setting: &'a Setting<'a, S>,
    pub effort: Effort,
    pub ghost timing: { setting.now.tables.timing.now ≡ problem.now.network },
    pub ghost workers: { (1 ≤ effort.workers) × (effort.workers ≤ MAX_WORKERS) },
    pub ghost limit: { (1 ≤ effort.limit) × (effort.limit ≤ MAX_LIMIT) },
}

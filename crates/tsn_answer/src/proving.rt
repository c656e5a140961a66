//! Proves that no valid schedule undercuts a plan, or finds one that does.
ghost use Rattle.std.specs.Prelude.{◌≡◌, ◌≤◌, min, true, Ok, IfOk};
ghost use Rattle.tsn_model.specs.Schedule.{target_of};
ghost use Rattle.tsn_check.specs.Plans.{IsPlanRight, offsets_in};
ghost use Rattle.tsn_branch.specs.Bound.{IsLowerBound};
ghost use Rattle.tsn_answer.specs.Proof.{IsBound, IsProof, IsShownBy, IsTold};

use crate::hearer::{Hearer, budget_of, count_of};
use crate::proof::Proof;
use std::alloc::Global;
use tsn_argue::check_argument;
use tsn_branch::{FEW_STREAMS, News, Phase, Prepared, Supervisor, least_arrival, lower_bound};
use tsn_cert::{Argument, Offsets, Plan};
use tsn_check::{CheckFault, Verdict};
use tsn_learn::{BestSoFar, LearnAnswer, LeastAnswer, learn, show_least};
use tsn_model::NoMemory;
use tsn_timing::{Problem, Timing};

/// Whether no valid schedule undercuts the plan, or there is none where the plan says so, with an argument of at most `limit`
/// steps; else a valid schedule that undercuts it; or, where neither was found by `limit` conflicts and the work that goes with
/// them, what no valid schedule undercuts. A valid schedule's own flowspan is to stand in the plan.
///
/// The supervisor hears how far the search has got. The error says that there was no memory.
pub fn prove<S: Supervisor>(
    alloc: Global,
    problem: &Problem,
    plan: &Plan,
    limit: usize,
    supervisor: &S,
) -> Result<Proof, NoMemory>
    requires { IsPlanRight problem.now.network plan.now }
    ensures { IfOk result (IsProof problem.now.network limit plan.now) }
{
    let bound = bound_for(alloc, problem)?;
    supervisor.hear_bound(bound);
    supervisor.begin(Phase::Learning);
    let timing = problem.timing();
    let task = Task {
        problem,
        plan,
        limit,
        bound,
    };
    let found = match plan {
        Plan::Schedule { offsets, .. } => about_schedule(
            alloc,
            task,
            timing,
            offsets.list(),
            supervisor,
        ),
        Plan::None => about_none(alloc, task, timing, supervisor),
    }?;
    tell_found(plan, &found, supervisor);
    Ok(found)
}

// Tells the supervisor what is found of the plan: no schedule undercuts it, or which one does.
fn tell_found<S: Supervisor>(plan: &Plan, found: &Proof, supervisor: &S) {
    match (found, plan) {
        (Proof::Proved(_, _), Plan::Schedule { flowspan, .. }) => supervisor.hear_bound(*flowspan),
        (Proof::Undercut(better, _), _) => tell_better(better, supervisor),
        (Proof::Proved(_, _), Plan::None) | (Proof::Stopped(_, _), _) => {}
    }
}

// Tells the supervisor of a better plan's flowspan. (That of the plan itself the search tells before its first question.)
fn tell_better<S: Supervisor>(plan: &Plan, supervisor: &S) {
    if let Plan::Schedule { flowspan, .. } = plan {
        let news = News {
            nodes: 0,
            splits: 0,
            flowspan: Some(*flowspan),
        };
        supervisor.hear(0, news);
    }
}

// What is to be shown of a plan, by how many steps at most, and what no valid schedule undercuts, in nanoseconds, at most the cycle.
#[derive(Clone, Copy)]
struct Task<'a> {
    problem: &'a Problem,
    plan: &'a Plan,
    limit: usize,
    bound: u64,
}

// What no valid schedule's flowspan is below, in nanoseconds, at most the cycle.
fn bound_for(alloc: Global, problem: &Problem) -> Result<u64, NoMemory>
    ensures lower { IfOk result (IsLowerBound problem.now.network) }
    ensures within_cycle { IfOk result (λ bound. bound ≤ problem.now.network.cycle) }
{
    let timing = problem.timing();
    if timing.streams() > FEW_STREAMS {
        return Ok(least_arrival(timing).min(timing.cycle()));
    }
    let prepared = Prepared::of(alloc, problem)?;
    let nobody = tsn_branch::NoSupervisor;
    let setting = prepared.setting(alloc, &nobody);
    let cycle = setting.tables.timing.cycle();
    let bound = lower_bound(alloc, setting.tables);
    drop(setting);
    drop(prepared);
    Ok(bound?.min(cycle))
}

// What is found of a schedule.
fn about_schedule<S: Supervisor>(
    alloc: Global,
    task: Task<'_>,
    timing: &Timing,
    offsets: &[u64],
    supervisor: &S,
) -> Result<Proof, NoMemory>
    requires timing { timing.now ≡ task.problem.now.network }
    requires right { IsPlanRight task.problem.now.network task.plan.now }
    requires bound { IsBound task.problem.now.network task.bound }
    ensures { IfOk result (IsProof task.entry.problem.now.network task.entry.limit task.entry.plan.now) }
{
    let hearer = Hearer {
        supervisor,
        streams: timing.streams(),
        limit: task.limit,
    };
    let budget = budget_of(task.limit);
    match show_least(alloc, timing, offsets, budget, &hearer)? {
        LeastAnswer::Least {
            argument,
            conflicts,
        } => proved(alloc, task, argument, conflicts),
        LeastAnswer::Better { offsets, conflicts } => Ok(undercut(
            task, timing, offsets, conflicts,
        )),
        LeastAnswer::GaveUp { conflicts } => Ok(stopped(task, conflicts)),
    }
}

// What is found of a plan that there is no schedule.
fn about_none<S: Supervisor>(
    alloc: Global,
    task: Task<'_>,
    timing: &Timing,
    supervisor: &S,
) -> Result<Proof, NoMemory>
    requires timing { timing.now ≡ task.problem.now.network }
    requires right { IsPlanRight task.problem.now.network task.plan.now }
    requires bound { IsBound task.problem.now.network task.bound }
    ensures { IfOk result (IsProof task.entry.problem.now.network task.entry.limit task.entry.plan.now) }
{
    let hearer = Hearer {
        supervisor,
        streams: timing.streams(),
        limit: task.limit,
    };
    match learn(alloc, timing, None, budget_of(task.limit), &hearer)? {
        LearnAnswer::First(found) => {
            let tsn_learn::LearnedPlan {
                offsets,
                flowspan: _,
                argument,
                conflicts,
            } = found;
            drop(argument);
            Ok(undercut(task, timing, offsets, conflicts))
        }
        LearnAnswer::None {
            argument,
            conflicts,
        } => match argument {
            Some(argument) => proved(alloc, task, argument, conflicts),
            None => Ok(stopped(task, conflicts)),
        },
        LearnAnswer::GaveUp(best) => Ok(after_giving_up(task, timing, best)),
    }
}

// What a search for a schedule has found that gave up.
fn after_giving_up(task: Task<'_>, timing: &Timing, best: BestSoFar) -> Proof
    requires timing { timing.now ≡ task.problem.now.network }
    requires right { IsPlanRight task.problem.now.network task.plan.now }
    requires bound { IsBound task.problem.now.network task.bound }
    ensures proof { IsProof task.entry.problem.now.network task.entry.limit task.entry.plan.now result }
    ensures told { IsTold (min task.entry.limit best.conflicts) result }
{
    let BestSoFar {
        schedule,
        bound: _,
        argument,
        conflicts,
    } = best;
    drop(argument);
    match schedule {
        Some(offsets) => undercut(task, timing, offsets, conflicts),
        None => stopped(task, conflicts),
    }
}

// The argument, where it shows what is to be shown; it was found after so many conflicts.
fn proved(
    alloc: Global,
    task: Task<'_>,
    argument: Argument,
    conflicts: u64,
) -> Result<Proof, NoMemory>
    requires bound { IsBound task.problem.now.network task.bound }
    ensures proof { IfOk result (IsProof task.entry.problem.now.network task.entry.limit task.entry.plan.now) }
    ensures told { IfOk result (IsTold (min task.entry.limit conflicts)) }
{
    let steps = argument.steps.list().len();
    match is_shown(alloc, task, &argument) {
        Ok(true) => Ok(Proof::Proved(argument, steps)),
        Ok(false) => {
            drop(argument);
            Ok(stopped(task, conflicts))
        }
        Err(fault) => {
            drop(argument);
            Err(fault)
        }
    }
}

// Whether the argument shows by so many steps at most that no valid schedule undercuts the plan, and whether its file would be read
// again.
fn is_shown(alloc: Global, task: Task<'_>, argument: &Argument) -> Result<bool, NoMemory>
    ensures { result ≡ Ok true → IsShownBy task.entry.problem.now.network task.entry.limit task.entry.plan.now argument.now }
{
    let steps = argument.steps.list().len();
    if !argument.is_within_limits() {
        return Ok(false);
    }
    match check_argument(alloc, task.problem, task.plan, argument) {
        Ok(Verdict::Optimal) => Ok(steps <= task.limit),
        Ok(Verdict::NoSchedule) => Ok(steps <= task.limit),
        Ok(Verdict::First) => Ok(false),
        Err(CheckFault::Memory) => Err(NoMemory),
        Err(_) => Ok(false),
    }
}

fn undercut(task: Task<'_>, timing: &Timing, offsets: Vec<u64>, conflicts: u64) -> Proof
    requires timing { timing.now ≡ task.problem.now.network }
    requires right { IsPlanRight task.problem.now.network task.plan.now }
    requires bound { IsBound task.problem.now.network task.bound }
    ensures proof { IsProof task.entry.problem.now.network task.entry.limit task.entry.plan.now result }
    ensures told { IsTold (min task.entry.limit conflicts) result }
{
    if !timing.is_valid(&offsets) {
        return stopped(task, conflicts);
    }
    let flowspan = timing.flowspan(&offsets);
    if flowspan >= target_of(timing, task.plan) {
        return stopped(task, conflicts);
    }
    let better = Plan::Schedule {
        flowspan,
        offsets: Offsets::of(offsets),
    };
    Proof::Undercut(better, count_of(conflicts, task.limit))
}

// What no valid schedule is to undercut, in nanoseconds: the plan's flowspan, or one more than the cycle.
fn target_of(timing: &Timing, plan: &Plan) -> u64
    requires { IsPlanRight timing.now plan.now }
    ensures { result ≡ target_of timing.now (offsets_in plan.now) }
{
    match plan {
        Plan::Schedule { flowspan, .. } => *flowspan,
        Plan::None => timing.cycle() + 1,
    }
}

// The answer where the budget is used up.
fn stopped(task: Task<'_>, conflicts: u64) -> Proof
    requires bound { IsBound task.problem.now.network task.bound }
    ensures proof { IsProof task.entry.problem.now.network task.entry.limit task.entry.plan.now result }
    ensures told { IsTold (min task.entry.limit conflicts) result }
{
    Proof::Stopped(task.bound, count_of(conflicts, task.limit))
}

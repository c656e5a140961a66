//! What the conflict-driven search shows, once its argument is checked.
ghost use Rattle.std.specs.Prelude.{◌≡◌, ◌≤◌, true, Ok, IfOk, IfErr, IfSome, IsTrue};
ghost use Rattle.tsn_check.specs.Plans.{IsOptimalPlan, span_in};
ghost use Rattle.tsn_branch.specs.Bound.{IsLowerBound};
ghost use Rattle.tsn_answer.specs.Answer.{IsArgued};
ghost use Rattle.tsn_answer.specs.Known.{IsKnown, LosesNothing};
ghost use Rattle.tsn_worker.specs.Learned.{CountsBound, IsLearned, ShowsLeast, bound_in};

use crate::task::Task;
use crate::telling::tell_bound;
use std::alloc::Global;
use tsn_answer::{Hearer, Known, budget_of, count_of};
use tsn_argue::check_argument;
use tsn_branch::{Phase, Supervisor};
use tsn_cert::{Argument, Offsets, Plan};
use tsn_check::{CheckFault, Verdict};
use tsn_learn::{BestSoFar, LearnAnswer, learn};
use tsn_model::NoMemory;
use tsn_timing::{Problem, Timing};

/// What a conflict-driven search comes to.
#[derive(Drop)]
pub enum Learned {
    /// A plan, and an argument that shows it.
    Shown(Plan, Argument),
    /// Nothing that is shown; what is known, and after how many conflicts, no more than there may be. None of these where memory was
    /// refused.
    Open(Known, Option<usize>),
}

/// What is asked: of what network, and with how many steps at most.
#[derive(Clone, Copy)]
pub struct Question<'a> {
    pub problem: &'a Problem,
    pub timing: &'a Timing,
    pub limit: usize,
}

/// What a conflict-driven search finds, from the schedule on that is known, where there is one: an argument of at most so many steps, which
/// is checked. What it has as its best schedule counts where it is valid, and what it has
/// as a bound where its argument is accepted. The supervisor hears of the bound that this comes to.
pub fn find_by_learning<S: Supervisor>(task: &Task<'_, S>, known: Known) -> Learned
    requires known { IsKnown task.now.problem.now.network known }
    ensures { IsLearned task.now.problem.now.network task.now.effort.limit known result }
{
    let setting = task.setting;
    let question = Question {
        problem: task.problem,
        timing: setting.tables.timing,
        limit: task.effort.limit,
    };
    learn_of(setting.alloc, question, known, setting.supervisor)
}

/// The same, of what is asked.
pub fn learn_of<S: Supervisor>(
    alloc: Global,
    question: Question<'_>,
    known: Known,
    supervisor: &S,
) -> Learned
    requires timing { question.timing.now ≡ question.problem.now.network }
    requires known { IsKnown question.problem.now.network known }
    ensures { IsLearned question.entry.problem.now.network question.entry.limit known result }
{
    supervisor.begin(Phase::Learning);
    let learned = learned_by(alloc, question, known, supervisor);
    tell_bound(question.timing, supervisor, bound_of(&learned));
    learned
}

// What a conflict-driven search finds, at a supervisor that hears how far it has got.
fn learned_by<S: Supervisor>(
    alloc: Global,
    question: Question<'_>,
    known: Known,
    supervisor: &S,
) -> Learned
    requires timing { question.timing.now ≡ question.problem.now.network }
    requires known { IsKnown question.problem.now.network known }
    ensures { IsLearned question.entry.problem.now.network question.entry.limit known result }
{
    let hearer = Hearer {
        supervisor,
        streams: question.timing.streams(),
        limit: question.limit,
    };
    let budget = budget_of(question.limit);
    match learn(alloc, question.timing, known.offsets(), budget, &hearer) {
        Ok(LearnAnswer::First(found)) => {
            let tsn_learn::LearnedPlan {
                offsets,
                flowspan,
                argument,
                conflicts,
            } = found;
            let plan = Plan::Schedule {
                flowspan,
                offsets: Offsets::of(offsets),
            };
            judged(alloc, question, plan, argument, known, conflicts)
        }
        Ok(
            LearnAnswer::None {
                argument,
                conflicts,
            },
        ) => match argument {
            Some(argument) => judged(alloc, question, Plan::None, argument, known, conflicts),
            None => Learned::Open(known, Some(count_of(conflicts, question.limit))),
        },
        Ok(LearnAnswer::GaveUp(best)) => {
            let count = count_of(best.conflicts, question.limit);
            match given_up(alloc, question, best, known) {
                Ok(known) => Learned::Open(known, Some(count)),
                Err(known) => Learned::Open(known, None),
            }
        }
        Err(NoMemory) => Learned::Open(known, None),
    }
}

// What no schedule's flowspan is below by what was learned, in nanoseconds.
fn bound_of(learned: &Learned) -> u64
    ensures { result ≡ bound_in learned.now }
{
    match learned {
        Learned::Shown(plan, _) => span_of(plan),
        Learned::Open(known, _) => known.bound,
    }
}

// The plan with its argument, where that shows it by at most so many steps.
fn judged(
    alloc: Global,
    question: Question<'_>,
    plan: Plan,
    argument: Argument,
    known: Known,
    conflicts: u64,
) -> Learned
    requires timing { question.timing.now ≡ question.problem.now.network }
    requires known { IsKnown question.problem.now.network known }
    ensures { IsLearned question.entry.problem.now.network question.entry.limit known result }
{
    let shown = is_shown(alloc, question, &plan, &argument);
    if let Ok(true) = shown {
        drop(known);
        return Learned::Shown(plan, argument);
    }
    drop(argument);
    let known = known.with_plan(question.timing, plan);
    match shown {
        Ok(_) => Learned::Open(known, Some(count_of(conflicts, question.limit))),
        Err(NoMemory) => Learned::Open(known, None),
    }
}

// Whether the argument shows by at most so many steps that the plan is the first one, or that there is none where it says so; and
// whether its file would be read again. The error says that there was no memory.
fn is_shown(
    alloc: Global,
    question: Question<'_>,
    plan: &Plan,
    argument: &Argument,
) -> Result<bool, NoMemory>
    ensures { result ≡ Ok true → IsArgued question.entry.problem.now.network question.entry.limit plan.now argument.now }
{
    let steps = argument.steps.list().len();
    if !argument.is_within_limits() {
        return Ok(false);
    }
    match check_argument(alloc, question.problem, plan, argument) {
        Ok(Verdict::First) => Ok(steps <= question.limit),
        Ok(Verdict::NoSchedule) => Ok(steps <= question.limit),
        Ok(Verdict::Optimal) => Ok(false),
        Err(CheckFault::Memory) => Err(NoMemory),
        Err(_) => Ok(false),
    }
}

// What is known where the search gave up. The error has what is known where there was no memory to check its argument.
fn given_up(
    alloc: Global,
    question: Question<'_>,
    best: BestSoFar,
    known: Known,
) -> Result<Known, Known>
    requires timing { question.timing.now ≡ question.problem.now.network }
    requires known { IsKnown question.problem.now.network known }
    ensures known { IfOk result (IsKnown question.entry.problem.now.network) }
    ensures kept { IfOk result (LosesNothing known) }
    ensures shown { IfOk result (CountsBound question.entry.problem.now.network best) }
    ensures known_unchecked { IfErr result (IsKnown question.entry.problem.now.network) }
    ensures kept_unchecked { IfErr result (LosesNothing known) }
{
    let BestSoFar {
        schedule,
        bound,
        argument,
        conflicts: _,
    } = best;
    let Some(offsets) = schedule else {
        drop(argument);
        return Ok(known);
    };
    let plan = Plan::Schedule {
        flowspan: bound,
        offsets: Offsets::of(offsets),
    };
    let shown = bound_shown(alloc, question.problem, &plan, &argument);
    drop(argument);
    match shown {
        Ok(shown) => Ok(known.raised(shown).with_plan(question.timing, plan)),
        Err(_) => Err(known.with_plan(question.timing, plan)),
    }
}

// What the argument shows that no valid schedule's flowspan is below, in nanoseconds: that of the plan, where it shows that this is
// optimal; else 0. The error says that there was no memory.
fn bound_shown(
    alloc: Global,
    problem: &Problem,
    plan: &Plan,
    argument: &Option<Argument>,
) -> Result<u64, NoMemory>
    ensures lower { IfOk result (IsLowerBound problem.now.network) }
    ensures within_cycle { IfOk result (λ bound. bound ≤ problem.now.network.cycle) }
    ensures shown { IfOk result (λ bound. IfSome argument.now (λ argument. ShowsLeast problem.now.network plan.now argument → bound ≡ span_in plan.now)) }
{
    let Some(argument) = argument else {
        return Ok(0);
    };
    if is_optimal(alloc, problem, plan, argument)? {
        Ok(span_of(plan))
    } else {
        Ok(0)
    }
}

// Whether the argument shows that the plan is optimal. The error says that there was no memory.
fn is_optimal(
    alloc: Global,
    problem: &Problem,
    plan: &Plan,
    argument: &Argument,
) -> Result<bool, NoMemory>
    ensures optimal { result ≡ Ok true → IsOptimalPlan problem.now.network plan.now }
    ensures complete { IfOk result (λ optimal. ShowsLeast problem.now.network plan.now argument.now → IsTrue optimal) }
{
    match check_argument(alloc, problem, plan, argument) {
        Ok(Verdict::Optimal) => Ok(true),
        Ok(Verdict::First) => Ok(false),
        Ok(Verdict::NoSchedule) => Ok(false),
        Err(CheckFault::Memory) => Err(NoMemory),
        Err(_) => Ok(false),
    }
}

// The flowspan of a plan in nanoseconds, 0 where it is that there is none.
fn span_of(plan: &Plan) -> u64
    ensures { result ≡ span_in plan.now }
{
    match plan {
        Plan::Schedule { flowspan, .. } => *flowspan,
        Plan::None => 0,
    }
}

//! Whether a certificate of either kind shows what it is to show of a plan.
ghost use Rattle.std.specs.Prelude.{◌≡◌, ◌⊎◌, IfOk, IfErr, IsOkUnless, Ok, OnOk};
ghost use Rattle.tsn_model.specs.Schedule.{HasNoSchedule};
ghost use Rattle.tsn_model.specs.Argument.{Goal as ModelGoal};
ghost use Rattle.tsn_cert.specs.Argument.{steps_of};
ghost use Rattle.tsn_check.specs.Judged.{IsJudged};
ghost use Rattle.tsn_check.specs.Plans.{IsOptimalPlan, IsFirstPlan, IsPlanRight};
ghost use Rattle.tsn_argue.specs.Certified.{ArgumentCertifies, Certifies, IsFitting, argument_verdict, certificate_verdict};
ghost use Rattle.tsn_argue.specs.Faults.{IsWhy, IsShowFault, IsFirstFault};
ghost use Rattle.tsn_argue.specs.Aims.{FindsAim};
ghost use Rattle.tsn_argue.specs.Told.{told_of, with_told};

use crate::aim::Aim;
use crate::observer::{Observer, Silent};
use crate::step::check_steps;
use std::alloc::Global;
use tsn_cert::{Argument, Certificate, Goal, Plan};
use tsn_check::{ArgumentFault, CheckFault, Verdict, check, judge_claim};
use tsn_timing::{Problem, Timing};

/// Whether the certificate, a tree or an argument, shows that the plan is optimal, or the first of the optimal schedules, or
/// that there is none where the plan says so; else the first fault: of the plan, then of the target and the goal, then of
/// the nodes or steps in their order.
pub fn check_certificate(
    alloc: Global,
    problem: &Problem,
    plan: &Plan,
    certificate: &Certificate,
) -> Result<Verdict, CheckFault>
    ensures judged { IsJudged problem.now.network plan.now (Certifies problem.now.network plan.now certificate.now)
        (certificate_verdict certificate.now plan.now) CheckFault.Memory (IsFirstFault problem.now.network plan.now certificate.now) result }
{
    match certificate {
        Certificate::Tree(cert) => check(alloc, problem, plan, cert),
        Certificate::Argument(argument) => check_argument(alloc, problem, plan, argument),
    }
}

/// The same of an argument. It takes as long as the moves and streams that it names, and the streams of the network once for
/// each step that changes the ground.
pub fn check_argument(
    alloc: Global,
    problem: &Problem,
    plan: &Plan,
    argument: &Argument,
) -> Result<Verdict, CheckFault>
    ensures judged { IsJudged problem.now.network plan.now (ArgumentCertifies problem.now.network plan.now argument.now)
        (argument_verdict argument.now.goal) CheckFault.Memory (IsShowFault problem.now.network plan.now argument.now) result }
{
    let mut silent = Silent;
    hear_argument(alloc, problem, plan, argument, &mut silent)
}

/// The same, and the observer is told of each step and each move.
pub fn hear_argument<L: Observer>(
    alloc: Global,
    problem: &Problem,
    plan: &Plan,
    argument: &Argument,
    observer: &mut L,
) -> Result<Verdict, CheckFault>
    ensures judged { IsJudged problem.now.network plan.now (ArgumentCertifies problem.now.network plan.now argument.now)
        (argument_verdict argument.now.goal) CheckFault.Memory (IsShowFault problem.now.network plan.now argument.now) result }
    ensures told { OnOk result ((goal : ModelGoal) → IsFitting problem.now.network plan.now argument.now goal
        → L.heard observer.new ≡ with_told (L.heard observer.old) (told_of problem.now.network goal (steps_of argument.now.steps))) }
{
    match judge_argument(alloc, problem, plan, argument, observer) {
        Ok(verdict) => Ok(verdict),
        Err(fault) => Err(fault.code()),
    }
}

/// The same, and the fault is told with the numbers that show it.
pub fn judge_argument<L: Observer>(
    alloc: Global,
    problem: &Problem,
    plan: &Plan,
    argument: &Argument,
    observer: &mut L,
) -> Result<Verdict, ArgumentFault>
    ensures accepted { IfOk result (λ verdict. ArgumentCertifies problem.now.network plan.now argument.now) }
    ensures verdict { IfOk result (λ verdict. verdict ≡ argument_verdict argument.now.goal) }
    ensures optimal { result ≡ Ok Verdict.Optimal → IsOptimalPlan problem.now.network plan.now }
    ensures first { result ≡ Ok Verdict.First → IsFirstPlan problem.now.network plan.now }
    ensures no_schedule { result ≡ Ok Verdict.NoSchedule → HasNoSchedule problem.now.network }
    ensures complete { ArgumentCertifies problem.now.network plan.now argument.now → IsOkUnless result ArgumentFault.Memory }
    ensures fault { IfErr result (λ fault. (fault ≡ ArgumentFault.Memory)
        ⊎ IsWhy problem.now.network plan.now argument.now fault) }
    ensures told { OnOk result ((goal : ModelGoal) → IsFitting problem.now.network plan.now argument.now goal
        → L.heard observer.new ≡ with_told (L.heard observer.old) (told_of problem.now.network goal (steps_of argument.now.steps))) }
{
    let timing = problem.timing();
    let _cycle = timing.cycle();
    judge_claim(timing, plan)?;
    let aim = aim_of(timing, plan, argument)?;
    check_steps(alloc, timing, &aim, argument.steps.list(), observer)?;
    Ok(verdict_of(argument.goal))
}

/// What the argument is to show of the plan, where its target is the plan's and its goal fits it.
#[tactic(auto, unfolding(tsn_model::specs::Schedule::target_of))]
fn aim_of<'a>(
    timing: &Timing,
    plan: &'a Plan,
    argument: &Argument,
) -> Result<Aim<'a>, ArgumentFault>
    requires { IsPlanRight timing.now plan.now }
    ensures { FindsAim timing.now plan.now argument.now result }
{
    let stated = argument.target;
    match plan {
        Plan::Schedule { flowspan, offsets } => {
            let flowspan = *flowspan;
            if stated != flowspan {
                let wanted = flowspan;
                return Err(ArgumentFault::Target { stated, wanted });
            }
            let plan = offsets.list();
            match argument.goal {
                Goal::First => Ok(Aim::First { plan, flowspan }),
                Goal::Least => Ok(Aim::Least { plan, flowspan }),
                Goal::None => Err(ArgumentFault::Goal(Goal::None)),
            }
        }
        Plan::None => {
            let wanted = timing.cycle() + 1;
            if stated != wanted {
                return Err(ArgumentFault::Target { stated, wanted });
            }
            match argument.goal {
                Goal::None => Ok(Aim::None),
                Goal::First | Goal::Least => Err(ArgumentFault::Goal(argument.goal)),
            }
        }
    }
}

fn verdict_of(goal: Goal) -> Verdict
    ensures { result ≡ argument_verdict goal }
{
    match goal {
        Goal::First => Verdict::First,
        Goal::Least => Verdict::Optimal,
        Goal::None => Verdict::NoSchedule,
    }
}

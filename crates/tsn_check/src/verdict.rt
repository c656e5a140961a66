//! Whether a certificate shows that its plan is optimal, and the first of the optimal ones, or that there is no schedule.
ghost use Rattle.std.specs.Prelude.{◌≡◌, ◌⊎◌, [], ◌∷◌, map, IfOk, IfErr, OnOk, IsOkUnless, Ok};
ghost use Rattle.tsn_model.specs.Schedule.{HasNoSchedule};
ghost use Rattle.tsn_check.specs.Claims.{IsClaim, IsWellPosed};
ghost use Rattle.tsn_model.specs.Certificate.{IsNodeShown};
ghost use Rattle.tsn_model.specs.Places.{Fills};
ghost use Rattle.tsn_cert.specs.Node.{tree_node};
ghost use Rattle.tsn_check.specs.Judged.{IsJudged};
ghost use Rattle.tsn_check.specs.Plans.{IsPlanRight, IsOptimalPlan, IsFirstPlan, offsets_in};
ghost use Rattle.tsn_check.specs.Certified.{TreeCertifies, leaf_target, tie_plan, verdict_of};
ghost use Rattle.tsn_check.specs.Faults.{IsWrongTree, IsWhy, IsFirstFault};

use crate::claim::Claim;
use crate::fault::CheckFault;
use crate::plan::judge_claim;
use crate::tree::check_tree;
use crate::why::TreeFault;
use std::alloc::Global;
use tsn_cert::{Cert, Format, Node, Plan};
use tsn_timing::{Problem, Timing};

/// What an accepted certificate shows.
#[derive(Clone, Copy, PartialEq, Eq)]
pub enum Verdict {
    /// No valid schedule has a lesser flowspan than the plan.
    Optimal,
    /// Nor does another one of that flowspan come before it.
    First,
    /// There is no valid schedule.
    NoSchedule,
}

/// Whether the certificate shows that the plan is optimal, or that there is no schedule where the plan says so; else the
/// first fault: of the plan, then of the target, then of the nodes in their order.
pub fn check(
    alloc: Global,
    problem: &Problem,
    plan: &Plan,
    cert: &Cert,
) -> Result<Verdict, CheckFault>
    ensures judged { IsJudged problem.now.network plan.now (TreeCertifies problem.now.network plan.now cert.now)
        (verdict_of cert.now.format plan.now) CheckFault.Memory (IsFirstFault problem.now.network plan.now cert.now) result }
{
    match judge_tree(alloc, problem, plan, cert) {
        Ok(verdict) => Ok(verdict),
        Err(fault) => Err(fault.code()),
    }
}

/// The same, and the fault is told with the numbers that show it.
pub fn judge_tree(
    alloc: Global,
    problem: &Problem,
    plan: &Plan,
    cert: &Cert,
) -> Result<Verdict, TreeFault>
    ensures accepted { IfOk result (λ verdict. TreeCertifies problem.now.network plan.now cert.now) }
    ensures verdict { IfOk result (λ verdict. verdict ≡ verdict_of cert.now.format plan.now) }
    ensures optimal { result ≡ Ok Verdict.Optimal → IsOptimalPlan problem.now.network plan.now }
    ensures first { result ≡ Ok Verdict.First → IsFirstPlan problem.now.network plan.now }
    ensures no_schedule { result ≡ Ok Verdict.NoSchedule → HasNoSchedule problem.now.network }
    ensures complete { TreeCertifies problem.now.network plan.now cert.now → IsOkUnless result TreeFault.Memory }
    ensures fault { IfErr result (λ fault. (fault ≡ TreeFault.Memory)
        ⊎ IsWhy problem.now.network plan.now cert.now fault) }
{
    let timing = problem.timing();
    judge_claim(timing, plan)?;
    let wanted = target_of(timing, plan);
    let stated = cert.target;
    if stated != wanted {
        return Err(TreeFault::Target { stated, wanted });
    }
    let claim = Claim {
        timing,
        target: wanted,
        plan,
    };
    check_nodes(alloc, &claim, cert.format, cert.nodes.list())?;
    Ok(verdict_on(cert.format, plan))
}

/// What an accepted certificate of a format shows of a plan.
fn verdict_on(format: Format, plan: &Plan) -> Verdict
    ensures { result ≡ verdict_of format plan.now }
{
    match plan {
        Plan::Schedule { .. } => match format {
            Format::One => Verdict::Optimal,
            Format::Two => Verdict::First,
        },
        Plan::None => Verdict::NoSchedule,
    }
}

/// Whether the nodes spell a tree that is accepted in the format for what the plan claims, or else their first fault.
fn check_nodes(
    alloc: Global,
    claim: &Claim<'_>,
    format: Format,
    nodes: &[Node],
) -> Result<(), TreeFault>
    requires { IsWellPosed claim.now }
    ensures ok { OnOk result (Fills (IsNodeShown claim.now.timing.now (leaf_target claim.now.timing.now format claim.now.target) (tie_plan format (offsets_in claim.now.plan.now))) ([] ∷ []) (map tree_node nodes.now)) }
    ensures err { IfErr result (λ fault. (fault ≡ TreeFault.Memory)
        ⊎ IsWrongTree claim.now.timing.now (leaf_target claim.now.timing.now format claim.now.target) (tie_plan format (offsets_in claim.now.plan.now)) (map tree_node nodes.now) fault) }
{
    match format {
        Format::One => {
            let claim = Claim {
                plan: &Plan::None,
                ..*claim
            };
            check_tree(alloc, &claim, nodes)
        }
        Format::Two => {
            let target = (claim.target + 1).min(claim.timing.cycle() + 1);
            let claim = Claim { target, ..*claim };
            check_tree(alloc, &claim, nodes)
        }
    }
}

/// The target of a certificate of a right plan, in nanoseconds.
fn target_of(timing: &Timing, plan: &Plan) -> u64
    requires { IsPlanRight timing.now plan.now }
    ensures { IsClaim timing.now plan.now result }
{
    let past_cycle = timing.cycle() + 1;
    match plan {
        Plan::Schedule { flowspan, .. } => *flowspan,
        Plan::None => past_cycle,
    }
}

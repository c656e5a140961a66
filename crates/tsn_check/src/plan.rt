//! Whether a plan is a valid schedule with its flowspan.
ghost use Rattle.std.specs.Prelude.{◌≡◌, ◌⊎◌, IfOk, IfErr, OnOk};
ghost use Rattle.tsn_model.specs.Schedule.{IsValid, flowspan};
ghost use Rattle.tsn_check.specs.Plans.{IsPlanRight};
ghost use Rattle.tsn_check.specs.Faults.{IsWrongSchedule, IsWrongPlan, IsWrongClaim, IsPlanFault};

use crate::fault::CheckFault;
use crate::why::PlanFault;
use std::alloc::Global;
use tsn_cert::Plan;
use tsn_timing::{Timing, Valid, Validity};

/// Whether the offsets are a valid schedule and the flowspan is theirs, or else the first fault.
fn judge_schedule(timing: &Timing, stated: u64, offsets: &[u64]) -> Result<(), PlanFault>
    ensures valid { OnOk result (IsValid timing.now offsets.now) }
    ensures span { OnOk result (stated ≡ flowspan timing.now offsets.now) }
    ensures fault { IfErr result (IsWrongSchedule timing.now stated offsets.now) }
{
    if let Validity::Refused(violation) = timing.validity(offsets) {
        return Err(PlanFault::Invalid(violation));
    }
    let wanted = timing.flowspan(offsets);
    if stated == wanted {
        Ok(())
    } else {
        Err(PlanFault::Flowspan { stated, wanted })
    }
}

/// Whether the plan is a valid schedule with its own flowspan, or that there is none; else its first fault.
pub fn judge_claim(timing: &Timing, plan: &Plan) -> Result<(), PlanFault>
    ensures right { OnOk result (IsPlanRight timing.now plan.now) }
    ensures fault { IfErr result (IsWrongClaim timing.now plan.now) }
{
    match plan {
        Plan::Schedule { flowspan, offsets } => judge_schedule(timing, *flowspan, offsets.list()),
        Plan::None => Ok(()),
    }
}

/// The plan's offsets as a valid schedule, or the first fault: the plan is that there is no schedule, or its offsets aren't valid, or
/// its flowspan isn't theirs.
pub fn judge_plan(alloc: Global, timing: &Timing, plan: &Plan) -> Result<Valid, PlanFault>
    ensures valid { IfOk result (IsValid timing.now) }
    ensures plan { IfOk result (λ valid. plan.now ≡ Plan.Schedule (flowspan timing.now valid) valid) }
    ensures fault { IfErr result (λ fault. (fault ≡ PlanFault.Memory) ⊎ IsWrongPlan timing.now plan.now fault) }
{
    let Plan::Schedule { flowspan, offsets } = plan else {
        return Err(PlanFault::NoSchedule);
    };
    judge_schedule(timing, *flowspan, offsets.list())?;
    let copy = offsets.list().to_vec(alloc)?;
    let Ok(valid) = timing.valid(copy) else {
        unreachable!();
    };
    Ok(valid)
}

/// The plan's offsets as a valid schedule, or the first fault: they aren't valid, or the plan is that there is no schedule; or the flowspan isn't theirs.
pub fn check_plan(alloc: Global, timing: &Timing, plan: &Plan) -> Result<Valid, CheckFault>
    ensures valid { IfOk result (IsValid timing.now) }
    ensures plan { IfOk result (λ valid. plan.now ≡ Plan.Schedule (flowspan timing.now valid) valid) }
    ensures fault { IfErr result (λ fault. (fault ≡ CheckFault.Memory) ⊎ IsPlanFault timing.now plan.now fault) }
{
    match judge_plan(alloc, timing, plan) {
        Ok(valid) => Ok(valid),
        Err(fault) => Err(fault.code()),
    }
}

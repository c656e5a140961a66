//! What a plan claims of a problem, and why it is refused, in words; and the target that it asks of a certificate.
use crate::Reason;
use crate::offsets::{Schedule, push_violation};
use std::alloc::Global;
use tsn_cert::Plan;
use tsn_check::PlanFault;
use tsn_model::Violation;
use tsn_text::pieces::push_number;
use tsn_text::{TextBuilder, line_of};
use tsn_timing::Problem;

/// A plan of a problem, and the name of the file that states it.
#[derive(Clone, Copy)]
pub struct Claim<'a> {
    /// The problem.
    pub problem: &'a Problem,
    /// What the plan's file is called.
    pub name: &'a str,
    /// What it states.
    pub plan: &'a Plan,
}

/// The line on a plan with this fault.
pub fn line_on_plan(alloc: Global, claim: Claim<'_>, fault: PlanFault) -> Reason {
    let mut text = line_of(alloc, claim.name);
    match (fault, claim.plan) {
        (PlanFault::Memory, _) => text.refuse(),
        (PlanFault::NoSchedule, _) | (PlanFault::Invalid(_), Plan::None) => {
            text.push_str("it says that there is no schedule");
        }
        (PlanFault::Invalid(violation), Plan::Schedule { offsets, .. }) => {
            push_invalid(&mut text, claim.problem, offsets.list(), violation);
        }
        (PlanFault::Flowspan { stated, wanted }, _) => {
            push_number(&mut text, "flowspan is ", stated);
            push_number(&mut text, ", and that of the offsets is ", wanted);
        }
    }
    Ok(Some(text.finish()?))
}

/// Writes why the plan's offsets are no valid schedule.
fn push_invalid(text: &mut TextBuilder, problem: &Problem, offsets: &[u64], violation: Violation) {
    let schedule = Schedule {
        problem,
        timing: problem.timing(),
        offsets,
    };
    text.push_str("no valid schedule: ");
    push_violation(text, schedule, violation);
}

/// Writes what the target is, and has to be.
pub fn push_wrong_target(text: &mut TextBuilder, plan: &Plan, stated: u64, wanted: u64) {
    push_number(text, "target is ", stated);
    push_number(text, ", and has to be ", wanted);
    text.push_str(match plan {
        Plan::Schedule { .. } => ", the flowspan of the plan",
        Plan::None => ", one more than the cycle, since the plan is that there is no schedule",
    });
}

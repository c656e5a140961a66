//! `prove`: shows that no valid schedule undercuts a plan, whoever made it, or finds one that does.
ghost use Rattle.std.specs.Prelude.{◌≡◌, ◌<◌, ◌-◌, ◌^◌, [], ◌∷◌, IfOk, IfSome, None, Ok, string_bytes};
ghost use Rattle.tsn_check.specs.Plans.{span_in};
ghost use Rattle.tsn_check.specs.Numbers.{plan_code};
ghost use Rattle.tsn_outcome.specs.Run.{EndsOver, sink_over, source_over};
ghost use Rattle.tsn_outcome.specs.Said.{line_of, status_of};
ghost use Rattle.tsn_outcome.specs.Outcome.{ComesOver, EndsAs, line_taken, outcome_of};
ghost use Rattle.tsn_cli.specs.RunOutput.{Knows, line_alone, printed};
ghost use Rattle.tsn_cli.specs.Prove.{Judges, ProveAnswers, ProveFinds, cert_for, found_of, outcome_for, plan_for, span_if_any};

use crate::inputs::{BothRead, read_both};
use crate::plan_output::alone;
use crate::run_output::RunOutput;
use crate::write_files::write_proof;
use std::alloc::Global;
use tsn_answer::{Proof, prove};
use tsn_branch::Supervisor;
use tsn_cert::Plan;
use tsn_check::{PlanFault, judge_claim};
use tsn_codec::{argument_to_json, plan_to_json};
use tsn_device::device::{ReadFault, Sink, Source};
use tsn_model::NoMemory;
use tsn_outcome::{Answer, Outcome, Stop, rejection};
use tsn_reason::{Claim, line_on_plan};
use tsn_timing::Problem;

/// Reads a network file and a plan file, the first judged before the second is read, and seeks a valid schedule that undercuts the
/// plan, by at most so many conflicts. Where there is none it writes a certificate of format 3, an argument of at most so many
/// steps, that `check` accepts; where one is found it writes that; and it answers what was found, or why something is refused, with a
/// line that isn't written yet. The line tells the steps of the argument, or else the conflicts. Where the limit is met nothing is
/// written: the answer has the plan's flowspan, if it is a schedule, and what no valid schedule's flowspan is below. The supervisor hears
/// of the conflicts.
pub fn prove_answer<N: Source, P: Source, S: Supervisor, C: Sink, B: Sink>(
    alloc: Global,
    network: &mut N,
    plan: &mut P,
    limit: usize,
    supervisor: &S,
    cert: &mut C,
    better: &mut B,
) -> Result<Answer, ReadFault>
    requires network_reads { N.failed network.old < 2 ^ 64 - 1 }
    requires plan_reads { P.failed plan.old < 2 ^ 64 - 1 }
    requires cert_writes { C.failed cert.old < 2 ^ 64 - 1 }
    requires plan_writes { B.failed better.old < 2 ^ 64 - 1 }

    ensures runs { EndsAs (ProveAnswers limit)
        (source_over N.given N.failed N.is_at_end network.old network.new
        ∷ source_over P.given P.failed P.is_at_end plan.old plan.new ∷ [])
        (sink_over C.taken C.failed cert.old cert.new ∷ sink_over B.taken B.failed better.old better.new ∷ []) (outcome_of result) }

    // What was found of the plan, as a value.
    ensures found { IfSome (found_of (outcome_of result)) (λ found. EndsOver (ProveFinds limit found)
        (source_over N.given N.failed N.is_at_end network.old network.new
        ∷ source_over P.given P.failed P.is_at_end plan.old plan.new ∷ [])
        (sink_over C.taken C.failed cert.old cert.new ∷ sink_over B.taken B.failed better.old better.new
        ∷ line_taken (line_of (outcome_of result)) ∷ []) (status_of (outcome_of result))) }
{
    match output_of(alloc, network, plan, limit, supervisor) {
        Ok(output) => write_proof(cert, better, output),
        Err(fault) => Err(fault),
    }
}

// What the run prints.
fn output_of<N: Source, P: Source, S: Supervisor>(
    alloc: Global,
    network: &mut N,
    plan: &mut P,
    limit: usize,
    supervisor: &S,
) -> Result<RunOutput<String>, ReadFault>
    requires network_reads { N.failed network.old < 2 ^ 64 - 1 }
    requires plan_reads { P.failed plan.old < 2 ^ 64 - 1 }
    ensures comes { ComesOver (printed string_bytes) (ProveAnswers limit)
        (source_over N.given N.failed N.is_at_end network.old network.new
        ∷ source_over P.given P.failed P.is_at_end plan.old plan.new ∷ []) result }
    ensures knows { Knows string_bytes found_of (ProveFinds limit)
        (source_over N.given N.failed N.is_at_end network.old network.new
        ∷ source_over P.given P.failed P.is_at_end plan.old plan.new ∷ []) result }
{
    match read_both(alloc, network, plan) {
        Ok(BothRead::Taken(problem, stated)) => {
            let output = judgement(alloc, &problem, &stated, plan.name(), limit, supervisor);
            drop(problem);
            drop(stated);
            Ok(output?)
        }
        Ok(BothRead::Refused(answer)) => Ok(alone(alloc, answer, String::new(alloc))),
        Err(fault) => Err(fault),
    }
}

// What is printed of a plan, of the file of this name.
fn judgement<S: Supervisor>(
    alloc: Global,
    problem: &Problem,
    plan: &Plan,
    name: &str,
    limit: usize,
    supervisor: &S,
) -> Result<RunOutput<String>, NoMemory>
    ensures { IfOk result (Judges limit problem.now.network plan.now) }
{
    match judge_claim(problem.timing(), plan) {
        Ok(()) => {
            let proof = prove(alloc, problem, plan, limit, supervisor)?;
            output_for(alloc, plan, proof)
        }
        Err(fault) => {
            let claim = Claim {
                problem,
                name,
                plan,
            };
            rejected(alloc, claim, fault)
        }
    }
}

// What is printed of a plan with this fault.
fn rejected(
    alloc: Global,
    claim: Claim<'_>,
    fault: PlanFault,
) -> Result<RunOutput<String>, NoMemory>
    ensures line { IfOk result (λ output. printed string_bytes (Ok output) ≡ line_alone (Outcome.RefusedPlan (plan_code fault))) }
    ensures none { IfOk result (λ output. found_of output.answer.outcome ≡ None) }
{
    let reason = line_on_plan(alloc, claim, fault).unwrap_or(None);
    let answer = rejection(alloc, fault.code(), reason)?;
    Ok(alone(alloc, answer, String::new(alloc)))
}

// What is printed of what was found of a plan.
fn output_for(alloc: Global, plan: &Plan, proof: Proof) -> Result<RunOutput<String>, NoMemory>
    ensures outcome { IfOk result (λ output. output.answer.outcome ≡ outcome_for plan.now proof) }
    ensures first { IfOk result (λ output. string_bytes output.first ≡ cert_for proof) }
    ensures second { IfOk result (λ output. string_bytes output.second ≡ plan_for proof) }
{
    let answer = Answer::of(alloc, outcome_for(plan, &proof))?;
    let (first, second) = match &proof {
        Proof::Proved(argument, _) => (argument_to_json(alloc, argument)?, String::new(alloc)),
        Proof::Undercut(better, _) => (String::new(alloc), plan_to_json(alloc, better)?),
        Proof::Stopped(..) => (String::new(alloc), String::new(alloc)),
    };
    Ok(RunOutput {
        answer,
        first,
        second,
    })
}

// What is answered of a plan.
fn outcome_for(plan: &Plan, proof: &Proof) -> Outcome
    ensures outcome { result ≡ outcome_for plan.now proof.now }
    ensures done { status_of result < 8 }
{
    let stated = span_if_any(plan);
    match proof {
        Proof::Proved(_, count) => Outcome::Proved {
            stated,
            settled: *count,
        },
        Proof::Undercut(better, count) => Outcome::Undercut {
            stated,
            better: span_of(better),
            settled: *count,
        },
        Proof::Stopped(bound, count) => Outcome::Stopped {
            known: Stop {
                best: stated,
                bound: *bound,
            },
            settled: *count,
        },
    }
}

// The flowspan of a plan in nanoseconds, if it is a schedule.
fn span_if_any(plan: &Plan) -> Option<u64>
    ensures { result ≡ span_if_any plan.now }
{
    match plan {
        Plan::Schedule { flowspan, .. } => Some(*flowspan),
        Plan::None => None,
    }
}

// The flowspan of a plan in nanoseconds, 0 where it is that there is none.
fn span_of(plan: &Plan) -> u64
    ensures { result ≡ span_in plan.now }
{
    match plan {
        Plan::Schedule { flowspan, .. } => *flowspan,
        Plan::None => 0,
    }
}

//! How a run that searches writes what it found to its two files.
ghost use Rattle.std.specs.Prelude.{◌≡◌, ◌<◌, ◌-◌, ◌^◌, [], ◌∷◌, IfOk, IsSome, Ok};
ghost use Rattle.tsn_outcome.specs.Run.{failed_in, sink_over, taken_in};
ghost use Rattle.tsn_outcome.specs.Said.{line_of, status_of};
ghost use Rattle.tsn_outcome.specs.Outcome.{IsWrittenAs, line_taken, outcome_of};
ghost use Rattle.tsn_cli.specs.RunOutput.{IsPrinted, IsShown};

use crate::run_output::{RunOutput, Written};
use crate::write_certificate::write_wanted;
use std::alloc::Global;
use tsn_device::device::{ReadFault as Unanswered, Sink, write_whole};
use tsn_outcome::Answer;

/// Writes a plan, and its certificate, where there is one, and answers what is said then: of a write that failed nothing is. The plan is
/// in its place before the certificate is written.
pub fn write_plan<P: Sink, C: Sink>(
    alloc: Global,
    plan: &mut P,
    cert: &mut Option<C>,
    output: RunOutput<Option<Written>>,
) -> Result<Answer, Unanswered>
    requires plan_writes { P.failed plan.old < 2 ^ 64 - 1 }
    requires cert_writes { failed_in C.failed cert.old < 2 ^ 64 - 1 }
    requires wanted { IsSome output.second → IsSome cert.old }
    ensures written { IsWrittenAs IsPrinted (Ok output) (sink_over P.taken P.failed plan.old plan.new
        ∷ sink_over (taken_in C.taken) (failed_in C.failed) cert.old cert.new
        ∷ line_taken (line_of (outcome_of result)) ∷ []) (status_of (outcome_of result)) }
    ensures outcome { IfOk result (λ answer. answer.outcome ≡ output.answer.outcome) }
{
    let RunOutput {
        answer,
        first: text,
        second: found,
    } = output;
    if write_whole(plan, text.as_bytes()).is_err() {
        drop(found);
        return Err(Unanswered::Broken);
    }
    match write_wanted(alloc, cert, found) {
        Ok(()) => Ok(answer),
        Err(fault) => Err(fault),
    }
}

/// Writes a proof: a certificate, or a better plan.
pub(crate) fn write_proof<C: Sink, P: Sink>(
    cert: &mut C,
    plan: &mut P,
    output: RunOutput<String>,
) -> Result<Answer, Unanswered>
    requires cert_writes { C.failed cert.old < 2 ^ 64 - 1 }
    requires plan_writes { P.failed plan.old < 2 ^ 64 - 1 }
    ensures written { IsWrittenAs IsShown (Ok output) (sink_over C.taken C.failed cert.old cert.new
        ∷ sink_over P.taken P.failed plan.old plan.new
        ∷ line_taken (line_of (outcome_of result)) ∷ []) (status_of (outcome_of result)) }
    ensures outcome { IfOk result (λ answer. answer.outcome ≡ output.answer.outcome) }
{
    let RunOutput {
        answer,
        first,
        second,
    } = output;
    if write_whole(cert, first.as_bytes()).is_err() {
        return Err(Unanswered::Broken);
    }
    if write_whole(plan, second.as_bytes()).is_err() {
        return Err(Unanswered::Broken);
    }
    Ok(answer)
}

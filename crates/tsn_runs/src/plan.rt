//! `plan`: finds the lexicographically least of the schedules of least flowspan.
ghost use Rattle.std.specs.Prelude.{◌≡◌, ◌≤◌, ◌<◌, ◌-◌, ◌^◌, ◌↔◌, ◌⊎◌, [], ◌∷◌, IfSome, IsTrue, is_some};
ghost use Rattle.tsn_outcome.specs.Run.{EndsOver, RunsOver, failed_in, sink_over, source_over, taken_in};
ghost use Rattle.tsn_outcome.specs.Said.{status_of};
ghost use Rattle.tsn_outcome.specs.Outcome.{IsOutputOf, IsWrittenAs, outcome_of};
ghost use Rattle.tsn_cli.specs.Plan.{PlanAnswers, PlanStops};

use std::alloc::Global;
use std::sync::Wait;
use std::thread::Threads;
use tsn_answer::Effort;
use tsn_branch::Supervisor;
use tsn_command::plan_answer;
use tsn_device::device::{ReadFault, Sink, Source};
use tsn_outcome::run::{DEVICE, STOPPED, respond};
use tsn_outcome::{Answer, Outcome, Stop, outcome_of};

/// How a run of `plan` ended: its status, and what is known where that is `STOPPED`.
#[derive(Clone, Copy)]
pub struct PlanEnd {
    pub status: u8,
    pub stop: Option<Stop>,
}

/// Does what `plan_answer` does, and writes the line. The answer is the status, and what is known where the limit was met: the flowspan of
/// the plan that was written, if any, and what no valid schedule's flowspan is below.
pub fn plan_run<
    R: Threads + Wait + Sync,
    N: Source,
    S: Supervisor + Sync,
    P: Sink,
    C: Sink,
    W: Sink,
>(
    rt: &R,
    alloc: Global,
    network: &mut N,
    effort: Effort,
    supervisor: &S,
    plan: &mut P,
    cert: &mut Option<C>,
    sink: &mut W,
) -> PlanEnd
    requires workers { (1 ≤ effort.workers) × (effort.workers ≤ 16) }
    requires some { 1 ≤ effort.limit }
    requires few { effort.limit ≤ 1_000_000_000 }
    requires reads { N.failed network.old < 2 ^ 64 - 1 }
    requires plan_writes { P.failed plan.old < 2 ^ 64 - 1 }
    requires cert_writes { failed_in C.failed cert.old < 2 ^ 64 - 1 }
    requires writes { W.failed sink.old < 2 ^ 64 - 1 }

    ensures runs { RunsOver (PlanAnswers effort (is_some cert.old))
        (source_over N.given N.failed N.is_at_end network.old network.new ∷ [])
        (sink_over P.taken P.failed plan.old plan.new
        ∷ sink_over (taken_in C.taken) (failed_in C.failed) cert.old cert.new
        ∷ sink_over W.taken W.failed sink.old sink.new ∷ []) result.status }

    // What is known where the limit was met, and only there.
    ensures stopped { result.status ≡ STOPPED ↔ IsTrue (is_some result.stop) }
    ensures stop { IfSome result.stop (λ stop. EndsOver (PlanStops effort.limit stop)
        (source_over N.given N.failed N.is_at_end network.old network.new ∷ [])
        (sink_over P.taken P.failed plan.old plan.new
        ∷ sink_over (taken_in C.taken) (failed_in C.failed) cert.old cert.new
        ∷ sink_over W.taken W.failed sink.old sink.new ∷ []) STOPPED) }
{
    let answer = plan_answer(rt, alloc, network, effort, supervisor, plan, cert);
    let outcome = end_run(sink, answer);
    PlanEnd {
        status: outcome.status(),
        stop: outcome.stop(),
    }
}

// Writes the line of what a run answers, and says how the run ended: with that, or with a device that failed.
fn end_run<W: Sink>(sink: &mut W, answer: Result<Answer, ReadFault>) -> Outcome
    requires { W.failed sink.old < 2 ^ 64 - 1 }
    ensures written { IsWrittenAs IsOutputOf answer (sink_over W.taken W.failed sink.old sink.new ∷ []) (status_of result) }
    ensures outcome { (result ≡ Outcome.Failed) ⊎ (result ≡ outcome_of answer) }
{
    if respond(sink, &answer) == DEVICE {
        Outcome::Failed
    } else {
        outcome_of(&answer)
    }
}

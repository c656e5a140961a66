//! `plan`: finds the lexicographically least of the schedules of least flowspan.
ghost use Rattle.std.specs.Prelude.{◌≡◌, ◌≤◌, ◌<◌, ◌-◌, ◌^◌, [], ◌∷◌, IfOk, IfSome, IsTrue, MatchBool, is_some};
ghost use Rattle.tsn_model.specs.Network.{HasFewStreams, stream_count};
ghost use Rattle.tsn_words.specs.declared.options.Method.TheVariants.{FileOrder};
ghost use Rattle.tsn_outcome.specs.Run.{EndsOver, failed_in, sink_over, source_over, taken_in};
ghost use Rattle.tsn_outcome.specs.declared.outcome.Outcome.TheVariants.{TooMany};
ghost use Rattle.tsn_outcome.specs.Said.{line_of, status_of, stop_of};
ghost use Rattle.tsn_outcome.specs.Outcome.{EndsAs, line_taken, outcome_of};
ghost use Rattle.tsn_cli.specs.Plan.{PlanAnswers, PlanStops};
ghost use Rattle.tsn_cli.specs.RunOutput.{ComesPrinted, Knows, written_bytes};

use std::alloc::Global;
use std::sync::Wait;
use std::thread::Threads;
use tsn_answer::Effort;
use tsn_branch::{FEW_STREAMS, Supervisor};
use tsn_cli::{NetworkRead, RunOutput, Written, alone, output_for, read_network, write_plan};
use tsn_device::device::{ReadFault, Sink, Source};
use tsn_model::NoMemory;
use tsn_outcome::{Answer, Outcome};
use tsn_timing::Problem;
use tsn_worker::{Method, Searched, search_by};

/// Reads a network file and plans it by a method, with 1 to 16 workers and at most so many settlements, 1 to 1,000,000,000. It writes the
/// plan, then its certificate, where there is a sink for it, and answers what was found, or why the file is refused, with a line that
/// isn't written yet. Where the limit is met it writes the best plan that is known, if there is one, and no certificate; the answer then
/// has that plan's flowspan, if any, and what no valid schedule's flowspan is below. The certificate is a tree (format 2), written a node
/// at a time, or an argument (format 3), and the line tells its nodes or steps; where memory is refused for a node or for the argument,
/// the answer says that. The supervisor hears of each settlement. The memory of the search stays taken until the process ends.
pub fn plan_answer<R: Threads + Wait + Sync, N: Source, S: Supervisor + Sync, P: Sink, C: Sink>(
    rt: &R,
    alloc: Global,
    network: &mut N,
    effort: Effort,
    supervisor: &S,
    plan: &mut P,
    cert: &mut Option<C>,
) -> Result<Answer, ReadFault>
    requires workers { (1 ≤ effort.workers) × (effort.workers ≤ 16) }
    requires some { 1 ≤ effort.limit }
    requires few { effort.limit ≤ 1_000_000_000 }
    requires reads { N.failed network.old < 2 ^ 64 - 1 }
    requires plan_writes { P.failed plan.old < 2 ^ 64 - 1 }
    requires cert_writes { failed_in C.failed cert.old < 2 ^ 64 - 1 }

    ensures runs { EndsAs (PlanAnswers effort (is_some cert.old))
        (source_over N.given N.failed N.is_at_end network.old network.new ∷ [])
        (sink_over P.taken P.failed plan.old plan.new
        ∷ sink_over (taken_in C.taken) (failed_in C.failed) cert.old cert.new ∷ []) (outcome_of result) }

    // What is known where the limit was met.
    ensures stop { IfSome (stop_of (outcome_of result)) (λ stop. EndsOver (PlanStops effort.limit stop)
        (source_over N.given N.failed N.is_at_end network.old network.new ∷ [])
        (sink_over P.taken P.failed plan.old plan.new
        ∷ sink_over (taken_in C.taken) (failed_in C.failed) cert.old cert.new
        ∷ line_taken (line_of (outcome_of result)) ∷ []) (status_of (outcome_of result))) }
{
    let wanted = cert.is_some();
    match found(rt, alloc, network, effort, wanted, supervisor) {
        Ok(output) => write_plan(alloc, plan, cert, output),
        Err(fault) => Err(fault),
    }
}

// What the run found.
fn found<R: Threads + Wait + Sync, N: Source, S: Supervisor + Sync>(
    rt: &R,
    alloc: Global,
    network: &mut N,
    effort: Effort,
    wanted: bool,
    supervisor: &S,
) -> Result<RunOutput<Option<Written>>, ReadFault>
    requires workers { (1 ≤ effort.workers) × (effort.workers ≤ 16) }
    requires some { 1 ≤ effort.limit }
    requires few { effort.limit ≤ 1_000_000_000 }
    requires reads { N.failed network.old < 2 ^ 64 - 1 }
    ensures comes { ComesPrinted (PlanAnswers effort wanted)
        (source_over N.given N.failed N.is_at_end network.old network.new ∷ []) result }
    ensures knows { Knows written_bytes stop_of (PlanStops effort.limit)
        (source_over N.given N.failed N.is_at_end network.old network.new ∷ []) result }
    ensures wanted { IfOk result (λ output. IsTrue (is_some output.second) → IsTrue wanted) }
{
    match read_network(alloc, network)? {
        NetworkRead::Taken(problem) => {
            if is_too_many(&problem, effort.method) {
                let answer = too_many(alloc, network.name(), problem.timing().streams());
                drop(problem);
                return Ok(alone(alloc, answer?, None));
            }
            let searched = search_by(rt, alloc, &problem, effort, supervisor);
            drop(problem);
            let Searched { found, word } = searched?;
            drop(word);
            Ok(output_for(alloc, found, wanted)?)
        }
        NetworkRead::Refused(answer) => Ok(alone(alloc, answer, None)),
    }
}

// Whether the search in the order of the file is asked for more streams than it takes.
fn is_too_many(problem: &Problem, method: Method) -> bool
    ensures { MatchBool result ((method ≡ FileOrder) × (128 < stream_count problem.now.network)) (method ≡ FileOrder → HasFewStreams problem.now.network) }
{
    match method {
        Method::FileOrder => problem.timing().streams() > FEW_STREAMS,
        Method::Auto | Method::Learn => false,
    }
}

// That there are more streams than the search in the order of the file takes.
fn too_many(alloc: Global, name: &str, streams: usize) -> Result<Answer, NoMemory>
    ensures { IfOk result (λ answer. answer.outcome ≡ TooMany) }
{
    let reason = format!(in alloc;
        "{name}: there are {streams} streams, and --search file takes at most {FEW_STREAMS}"
    );
    Answer::because(alloc, Outcome::TooMany, reason.ok())
}

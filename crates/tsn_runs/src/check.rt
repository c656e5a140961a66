//! `check`: judges a plan and its certificate.
ghost use Rattle.std.specs.Prelude.{◌<◌, ◌-◌, ◌^◌, [], ◌∷◌};
ghost use Rattle.tsn_outcome.specs.Run.{RunsOver, sink_over, source_over};
ghost use Rattle.tsn_cli.specs.Check.{CheckAnswers};

use crate::shown::show;
use std::alloc::Global;
use tsn_cli::{VerdictLine, certified_shown};
use tsn_device::device::{Sink, Source};

/// Reads a network file, a plan file and a certificate file of format 1, 2 or 3, each judged before the next is read, and writes a
/// line on the first that is refused, or on what the certificate shows. The answer is the status.
#[tactic(auto, using(crate::proofs::Showing::shown_runs))]
pub fn check_run<N: Source, P: Source, C: Source, W: Sink>(
    alloc: Global,
    network: &mut N,
    plan: &mut P,
    cert: &mut C,
    sink: &mut W,
) -> u8
    requires network_reads { N.failed network.old < 2 ^ 64 - 1 }
    requires plan_reads { P.failed plan.old < 2 ^ 64 - 1 }
    requires cert_reads { C.failed cert.old < 2 ^ 64 - 1 }
    requires writes { W.failed sink.old < 2 ^ 64 - 1 }

    ensures { RunsOver CheckAnswers
        (source_over N.given N.failed N.is_at_end network.old network.new
        ∷ source_over P.given P.failed P.is_at_end plan.old plan.new
        ∷ source_over C.given C.failed C.is_at_end cert.old cert.new ∷ [])
        (sink_over W.taken W.failed sink.old sink.new ∷ []) result }
{
    show(
        sink,
        &certified_shown(alloc, network, plan, cert, &VerdictLine),
    )
}

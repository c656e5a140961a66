//! `gates` and `replay`: print the gate control lists of a plan, and a replay by them.
ghost use Rattle.std.specs.Prelude.{◌≤◌, ◌<◌, ◌-◌, ◌^◌, [], ◌∷◌};
ghost use Rattle.tsn_outcome.specs.Run.{RunsOver, sink_over, source_over};
ghost use Rattle.std.specs.Option.{ForSome};
ghost use Rattle.tsn_cli.specs.Tables.{GatesAnswers, ReplayAnswers};

use crate::shown::show;
use std::alloc::Global;
use tsn_cli::{GatesOptions, ReplayOptions, Table, table_shown};
use tsn_device::device::{Sink, Source};

/// Reads a network file and a plan file, the first judged before the second is read, and writes the plan's gate control
/// lists, merged where that is asked for, in a format, or a line on what is refused. The answer is the status.
#[tactic(auto, using(crate::proofs::Showing::shown_runs))]
pub fn gates_run<N: Source, P: Source, W: Sink>(
    alloc: Global,
    network: &mut N,
    plan: &mut P,
    options: GatesOptions,
    sink: &mut W,
) -> u8
    requires network_reads { N.failed network.old < 2 ^ 64 - 1 }
    requires plan_reads { P.failed plan.old < 2 ^ 64 - 1 }
    requires writes { W.failed sink.old < 2 ^ 64 - 1 }

    ensures { RunsOver (GatesAnswers options)
        (source_over N.given N.failed N.is_at_end network.old network.new
        ∷ source_over P.given P.failed P.is_at_end plan.old plan.new ∷ [])
        (sink_over W.taken W.failed sink.old sink.new ∷ []) result }
{
    show(
        sink,
        &table_shown(alloc, network, plan, Table::Gates(options)),
    )
}

/// Reads a network file and a plan file, the first judged before the second is read, and writes, in a format, a
/// replay of the plan by its gate control lists, merged where that is asked for, over 1 to 16 cycles, with no background or, where
/// `greedy`, with a background frame of 1522 octets always waiting, and with frames that are ready early where that is asked for;
/// or a line on what is refused. The answer is the status.
#[tactic(auto, using(crate::proofs::Showing::shown_runs))]
pub fn replay_run<N: Source, P: Source, W: Sink>(
    alloc: Global,
    network: &mut N,
    plan: &mut P,
    options: ReplayOptions,
    sink: &mut W,
) -> u8
    requires some { 1 ≤ options.cycles }
    requires few { options.cycles ≤ 16 }
    requires soon { ForSome options.early (λ time. time ≤ 1000000) }
    requires network_reads { N.failed network.old < 2 ^ 64 - 1 }
    requires plan_reads { P.failed plan.old < 2 ^ 64 - 1 }
    requires writes { W.failed sink.old < 2 ^ 64 - 1 }

    ensures { RunsOver (ReplayAnswers options)
        (source_over N.given N.failed N.is_at_end network.old network.new
        ∷ source_over P.given P.failed P.is_at_end plan.old plan.new ∷ [])
        (sink_over W.taken W.failed sink.old sink.new ∷ []) result }
{
    show(
        sink,
        &table_shown(alloc, network, plan, Table::Replay(options)),
    )
}

//! `valid`: judges a list of offsets.
ghost use Rattle.std.specs.Prelude.{◌<◌, ◌-◌, ◌^◌, [], ◌∷◌};
ghost use Rattle.tsn_outcome.specs.Run.{RunsOver, sink_over, source_over};
ghost use Rattle.tsn_cli.specs.Valid.{ValidAnswers};

use crate::shown::show;
use std::alloc::Global;
use tsn_cli::{Offsets, network_shown};
use tsn_device::device::{Sink, Source};

/// Reads a network file, judges the offsets (nanoseconds, of any size, in the order of the file's streams), and writes
/// a line on them. The answer is the status.
#[tactic(auto, using(crate::proofs::Showing::shown_runs))]
pub fn valid_run<S: Source, W: Sink>(
    alloc: Global,
    source: &mut S,
    offsets: &[u64],
    sink: &mut W,
) -> u8
    requires reads { S.failed source.old < 2 ^ 64 - 1 }
    requires writes { W.failed sink.old < 2 ^ 64 - 1 }

    ensures { RunsOver (ValidAnswers offsets.now)
        (source_over S.given S.failed S.is_at_end source.old source.new ∷ [])
        (sink_over W.taken W.failed sink.old sink.new ∷ []) result }
{
    show(sink, &network_shown(alloc, source, &Offsets(offsets)))
}

//! A network that is read alone: what is shown of it, or why its file is refused.
ghost use Rattle.std.specs.Prelude.{◌<◌, ◌-◌, ◌^◌, [], ◌∷◌, IfOk, Ok};
ghost use Rattle.tsn_timing.specs.Problem.{NamedNetwork};
ghost use Rattle.tsn_outcome.specs.Run.{Output, source_over};
ghost use Rattle.tsn_outcome.specs.Outcome.{ComesOver, EndsAs, outcome_of, output_of};
ghost use Rattle.tsn_cli.specs.Shown.{IsSaid, NetworkAnswers, shown_output};
ghost use Rattle.tsn_cli.specs.Unmade.{JudgeAnswers};

use crate::inputs::{NetworkRead, read_network};
use crate::shown::Shown;
use std::alloc::Global;
use tsn_device::device::{ReadFault, Source};
use tsn_model::NoMemory;
use tsn_outcome::{Answer, Outcome};
use tsn_timing::Problem;

/// What a command makes of a network, where its file is taken.
pub trait NetworkView {
    /// Whether this is shown of a network.
    ghost shows: { Self → NamedNetwork → Output → Type 0 };

    /// Whether that is an answer in a line.
    ghost is_line: { Self → Type 0 } = { λ _. ⊥ };

    /// What is shown of the network of the file of this name.
    fn view(&self, alloc: Global, problem: &Problem, name: &str) -> Result<Shown, NoMemory>
        ensures shows { IfOk result (λ a. shows self.now problem.now (shown_output (Ok a))) }
        ensures line { is_line self.now → IfOk result IsSaid };
}

/// What is shown of a network, before it is written: what the view makes of it, or why its file is refused.
pub fn network_shown<N: Source, V: NetworkView>(
    alloc: Global,
    network: &mut N,
    view: &V,
) -> Result<Shown, ReadFault>
    requires { N.failed network.old < 2 ^ 64 - 1 }
    ensures comes { ComesOver shown_output (NetworkAnswers (V.shows view.now))
        (source_over N.given N.failed N.is_at_end network.old network.new ∷ []) result }
    ensures line { V.is_line view.now → IfOk result IsSaid }
{
    match read_network(alloc, network) {
        Ok(NetworkRead::Taken(problem)) => Ok(view.view(alloc, &problem, network.name())?),
        Ok(NetworkRead::Refused(answer)) => Ok(Shown::Said(answer)),
        Err(fault) => Err(fault),
    }
}

/// Reads a network file, and answers why it is refused, or that it is not.
pub fn judge_answer<S: Source>(alloc: Global, source: &mut S) -> Result<Answer, ReadFault>
    requires { S.failed source.old < 2 ^ 64 - 1 }
    ensures { EndsAs JudgeAnswers
        (source_over S.given S.failed S.is_at_end source.old source.new ∷ []) [] (outcome_of result) }
{
    answer_of(alloc, source)
}

// The same, before its outcome is told.
fn answer_of<S: Source>(alloc: Global, source: &mut S) -> Result<Answer, ReadFault>
    requires { S.failed source.old < 2 ^ 64 - 1 }
    ensures { ComesOver output_of JudgeAnswers
        (source_over S.given S.failed S.is_at_end source.old source.new ∷ []) result }
{
    match read_network(alloc, source) {
        Ok(NetworkRead::Taken(problem)) => {
            drop(problem);
            Ok(Answer::of(alloc, Outcome::Taken)?)
        }
        Ok(NetworkRead::Refused(answer)) => Ok(answer),
        Err(fault) => Err(fault),
    }
}

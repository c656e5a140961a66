//! `valid`: judges a list of offsets.
ghost use Rattle.std.specs.Prelude.{◌⊎◌, IfOk, Ok};
ghost use Rattle.tsn_outcome.specs.Outcome.{output_of};
ghost use Rattle.tsn_cli.specs.Valid.{Accepts, Rejects};

use crate::network::NetworkView;
use crate::shown::Shown;
use std::alloc::Global;
use tsn_model::NoMemory;
use tsn_outcome::{Answer, Outcome};
use tsn_reason::{Schedule, offsets_line};
use tsn_timing::{Problem, Validity};

/// Offsets that are judged, in nanoseconds, in the order of the file's streams.
#[derive(Clone, Copy)]
pub struct Offsets<'a>(pub &'a [u64]);

impl NetworkView for Offsets<'_> {
    ghost shows = { λ offsets problem output. Accepts problem.network offsets.0.now output ⊎ Rejects problem.network offsets.0.now output };

    ghost is_line = { λ _. Unit {0} };

    fn view(&self, alloc: Global, problem: &Problem, name: &str) -> Result<Shown, NoMemory> {
        let schedule = Schedule {
            problem,
            timing: problem.timing(),
            offsets: self.0,
        };
        Ok(Shown::Said(judgement(alloc, schedule, name)?))
    }
}

fn judgement(alloc: Global, schedule: Schedule<'_>, name: &str) -> Result<Answer, NoMemory>
    ensures { IfOk result (λ a. Accepts schedule.entry.timing.now schedule.entry.offsets.now (output_of (Ok a))
        ⊎ Rejects schedule.entry.timing.now schedule.entry.offsets.now (output_of (Ok a))) }
{
    let Schedule {
        timing,
        offsets,
        ..
    } = schedule;
    match timing.validity(offsets) {
        Validity::Valid => {
            let flowspan = timing.flowspan(offsets);
            Answer::of(alloc, Outcome::Valid { flowspan })
        }
        Validity::Refused(violation) => {
            let reason = offsets_line(alloc, name, schedule, violation).unwrap_or(None);
            Answer::because(alloc, Outcome::NotValid(violation), reason)
        }
    }
}

//! How a search ended, and what is told of it.
ghost use Rattle.std.specs.Prelude.{◌≡◌, IfSome, string_bytes};
ghost use Rattle.tsn_outcome.specs.Run.{sink_over};
ghost use Rattle.tsn_outcome.specs.Runs.{IsToldBy};
ghost use Rattle.tsn_outcome.specs.Stop.{stop_text};

use crate::files::Files;
use std::alloc::Global;
use std::io::Eprint;
use std::time::Clock;
use tsn_branch::ProgressWriter;
use tsn_device::device::ReadFault;
use tsn_outcome::json::tell_answer;
use tsn_outcome::reason::{fault_of, write_line};
use tsn_outcome::told::Told;
use tsn_outcome::{Answer, Given, Made, Ran, Stop, outcome_of};

/// The line on what is known where the limit was met, and else this one. The first names the command that writes a certificate, where
/// the flowspan is shown to be the least.
pub fn stop_or(
    alloc: Global,
    stop: Option<Stop>,
    writer: &str,
    line: Option<String>,
) -> Option<String>
    ensures { IfSome stop (λ stop. IfSome result (λ line. string_bytes line ≡ stop_text stop writer.now)) }
{
    match stop {
        Some(stop) => {
            drop(line);
            stop.line(alloc, writer).ok()
        }
        None => line,
    }
}

/// How a search ended, before that is told.
pub struct SearchEnd<'a, C: Clock + Eprint> {
    pub answer: Result<Answer, ReadFault>,
    /// Why it is this answer, where that lies with what was read.
    pub reason: Option<String>,
    /// What writes a certificate where the limit was met and the flowspan is shown to be the least.
    pub writer: &'a str,
    /// Who told how far it had got.
    pub progress: Option<ProgressWriter<'a, C>>,
    /// Whether the line is to be one of JSON.
    pub json: bool,
}

/// Takes back the files of a search, and tells how it ended: how far it got, and its line, or a line of JSON in its place.
pub fn end_search<'a, C: Clock + Eprint, G: Given<'a>, W: Made>(
    alloc: Global,
    given: &mut G,
    output: W,
    files: Files<G::File, Option<G::File>>,
    end: SearchEnd<'_, C>,
) -> Ran<W>
    requires { W.failed output ≡ 0 }
    ensures { IsToldBy end.entry.json end.entry.answer (sink_over W.taken W.failed output result.output) result.status }
{
    let SearchEnd {
        answer,
        reason,
        writer,
        progress,
        json,
    } = end;
    let stopped = reason.or(files_line(alloc, fault_of(&answer), &files));
    let Files { plan, cert } = files;
    given.close_plan(plan);
    if let Some(cert) = cert {
        given.close_cert(cert);
    }
    if let Some(progress) = progress {
        progress.end();
    }
    let reason = stop_or(alloc, outcome_of(&answer).stop(), writer, stopped);
    tell_answer(alloc, given, output, Told { answer, reason }, json)
}

// The line on a file of which a write failed, where that ended a run with this fault.
fn files_line<P: Made, C: Made>(
    alloc: Global,
    fault: Option<ReadFault>,
    files: &Files<P, Option<C>>,
) -> Option<String> {
    let of_plan = write_line(alloc, fault, files.plan.failure());
    match &files.cert {
        Some(cert) => of_plan.or(write_line(alloc, fault, cert.failure())),
        None => of_plan,
    }
}

/// Who tells on a console how far a search of so many workers has got, where that is asked for.
pub fn progress_of<C: Clock + Eprint>(
    console: &C,
    workers: usize,
    is_asked: bool,
) -> Option<ProgressWriter<'_, C>> {
    if is_asked {
        Some(ProgressWriter::new(console, workers))
    } else {
        None
    }
}

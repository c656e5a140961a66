//! The command that proves a plan.
ghost use Rattle.std.specs.Prelude.{◌≡◌};
ghost use Rattle.tsn_outcome.specs.Run.{sink_over};
ghost use Rattle.tsn_cli.specs.Prove.{ProveAnswers};
ghost use Rattle.tsn_outcome.specs.Runs.{OverPlan, RunsTold};
ghost use Rattle.tsn_cli.specs.Files.{OverFiles};
ghost use Rattle.tsn_cli.specs.Devices.{RunsProve, devices_of};

use crate::ended::{SearchEnd, end_search, progress_of};
use crate::files::{Files, proof_files};
use crate::prove_plan::prove_answer;
use crate::reason::undercut_line;
use crate::unwritten::{Unwritten, unwritable};
use std::alloc::Global;
use std::io::Eprint;
use std::time::Clock;
use tsn_device::device::Source;
use tsn_outcome::reason::{fault_of, source_line};
use tsn_outcome::{Given, Made, Ran, outcome_of};
use tsn_words::ProveWords;

/// Proves a plan, or finds a better one; the network `-` is standard input. What is said of `plan` holds of the words, the files
/// and the lines on standard error.
pub fn prove<'a, C: Clock + Eprint, G: Given<'a>, W: Made>(
    console: &C,
    alloc: Global,
    given: &mut G,
    output: W,
    words: ProveWords<'a>,
) -> Ran<W>
    requires { W.failed output ≡ 0 }
    ensures { RunsProve (devices_of G.Source.Source G.File.Sink G.Given given.old) words.entry
        (sink_over W.taken W.failed output result.output) result.status }
{
    match proof_files(given, words) {
        Ok(files) => prove_to(console, alloc, given, output, words, files),
        Err(failure) => {
            let unwritten = Unwritten {
                network: words.network,
                failure,
                json: words.json,
            };
            unwritable(alloc, given, output, unwritten)
        }
    }
}

// Proves a plan with these files, and writes the line, or a line of JSON in its place.
fn prove_to<'a, C: Clock + Eprint, G: Given<'a>, W: Made>(
    console: &C,
    alloc: Global,
    given: &mut G,
    output: W,
    words: ProveWords<'a>,
    files: Files<G::File, G::File>,
) -> Ran<W>
    requires failures { (G.File.failed files.cert ≡ 0) × (G.File.failed files.plan ≡ 0) }
    requires output { W.failed output ≡ 0 }
    ensures { OverPlan G.Source.given G.Source.failed G.Source.is_at_end (G.opens_network given.old words.entry.network.now)
        (G.opens_plan given.old words.entry.given.now)
        (λ sources. OverFiles G.File.taken G.File.failed G.File.taken G.File.failed files.cert files.plan
        (λ written. RunsTold words.entry.json (ProveAnswers words.entry.steps) sources written
        (sink_over W.taken W.failed output result.output) result.status)) }
{
    let Files {
        plan: mut better,
        mut cert,
    } = files;
    let mut network = given.network(words.network);
    let mut plan = given.plan(words.given);
    let progress = progress_of(console, 1, words.progress);
    let answer = prove_answer(
        alloc,
        &mut network,
        &mut plan,
        words.steps,
        &progress,
        &mut cert,
        &mut better,
    );
    let fault = fault_of(&answer);
    let reason = source_line(alloc, fault, &network)
        .or(source_line(alloc, fault, &plan))
        .or(undercut_line(alloc, plan.name(), outcome_of(&answer)));
    drop(network);
    drop(plan);
    let files = Files {
        plan: better,
        cert: Some(cert),
    };
    let end = SearchEnd {
        answer,
        reason,
        writer: "prove with more --steps",
        progress,
        json: words.json,
    };
    end_search(alloc, given, output, files, end)
}

//! The command that plans a network.
ghost use Rattle.std.specs.Prelude.{◌≡◌, is_some};
ghost use Rattle.tsn_outcome.specs.Run.{failed_in, sink_over, taken_in};
ghost use Rattle.tsn_cli.specs.Plan.{PlanAnswers};
ghost use Rattle.tsn_outcome.specs.Runs.{OverNetwork, RunsTold};
ghost use Rattle.tsn_cli.specs.Files.{OverFiles};
ghost use Rattle.tsn_cli.specs.Devices.{devices_of};
ghost use Rattle.tsn_command.specs.Asked.{RunsPlan, effort_of};

use crate::plan::plan_answer;
use std::alloc::Global;
use std::io::Eprint;
use std::sync::Wait;
use std::thread::Threads;
use std::time::Clock;
use tsn_answer::Effort;
use tsn_cli::{Files, SearchEnd, Unwritten, end_search, plan_files, progress_of, unwritable};
use tsn_outcome::reason::{fault_of, source_line};
use tsn_outcome::{Given, Made, Ran};
use tsn_words::PlanWords;

/// Plans a network; the network `-` is standard input. Where the words ask for it, how far the plan has got is told at once, on a
/// console. Where a file can't be written, that ends the run before the search, unless the network is refused.
pub fn plan<'a, T: Threads + Wait + Sync, C: Clock + Eprint + Sync, G: Given<'a>, W: Made>(
    rt: &T,
    console: &C,
    alloc: Global,
    given: &mut G,
    output: W,
    words: PlanWords<'a>,
) -> Ran<W>
    requires { W.failed output ≡ 0 }
    ensures { RunsPlan (devices_of G.Source.Source G.File.Sink G.Given given.old) words.entry
        (sink_over W.taken W.failed output result.output) result.status }
{
    match plan_files(given, words) {
        Ok(files) => plan_to(rt, console, alloc, given, output, words, files),
        Err(failure) => {
            let unwritten = Unwritten {
                network: words.network,
                failure,
                json: words.json,
            };
            unwritable(alloc, given, output, unwritten)
        }
    }
}

// Plans a network to these files, and writes the line, or a line of JSON in its place.
fn plan_to<'a, T: Threads + Wait + Sync, C: Clock + Eprint + Sync, G: Given<'a>, W: Made>(
    rt: &T,
    console: &C,
    alloc: Global,
    given: &mut G,
    output: W,
    words: PlanWords<'a>,
    files: Files<G::File, Option<G::File>>,
) -> Ran<W>
    requires wanted { is_some files.cert ≡ is_some words.cert }
    requires failures { (G.File.failed files.plan ≡ 0) × (failed_in G.File.failed files.cert ≡ 0) }
    requires output { W.failed output ≡ 0 }
    ensures { OverNetwork G.Source.given G.Source.failed G.Source.is_at_end (G.opens_network given.old words.entry.network.now)
        (λ sources. OverFiles G.File.taken G.File.failed (taken_in G.File.taken) (failed_in G.File.failed) files.plan files.cert
        (λ written. RunsTold words.entry.json (PlanAnswers (effort_of words.entry) (is_some words.entry.cert)) sources written
        (sink_over W.taken W.failed output result.output) result.status)) }
{
    let Files { mut plan, mut cert } = files;
    let mut network = given.network(words.network);
    let progress = progress_of(console, words.workers, words.progress);
    let answer = plan_answer(
        rt,
        alloc,
        &mut network,
        effort_of(words),
        &progress,
        &mut plan,
        &mut cert,
    );
    let reason = source_line(alloc, fault_of(&answer), &network);
    drop(network);
    let end = SearchEnd {
        answer,
        reason,
        writer: "prove NET PLAN --cert FILE",
        progress,
        json: words.json,
    };
    end_search(alloc, given, output, Files { plan, cert }, end)
}

// How a plan is searched for.
fn effort_of(words: PlanWords<'_>) -> Effort
    ensures { result ≡ effort_of words.entry }
{
    Effort {
        method: words.search,
        workers: words.workers,
        limit: words.steps,
    }
}

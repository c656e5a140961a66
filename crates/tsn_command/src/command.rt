//! The commands, over what they are given.
ghost use Rattle.std.specs.Prelude.{◌≡◌};
ghost use Rattle.tsn_outcome.specs.Run.{sink_over};
ghost use Rattle.tsn_outcome.specs.Runs.{WithSome};
ghost use Rattle.tsn_cli.specs.Devices.{devices_of};
ghost use Rattle.tsn_command.specs.Asked.{RunsAsked};
ghost use Rattle.tsn_command.specs.Laws.{RanAsSaid};

use crate::explained::{Explanation, picture};
use crate::laws::plan_run_is_first;
use crate::planning::plan;
use std::alloc::Global;
use std::io::Eprint;
use std::sync::Wait;
use std::thread::Threads;
use std::time::Clock;
use tsn_cli::commands::{certified, network, table};
use tsn_cli::options::{gates_options, replay_options};
use tsn_cli::{Offsets, Table, VerdictLine, prove};
use tsn_outcome::{Given, Made, Ran};
use tsn_words::{CheckWords, ExplainWords, Words};

/// Runs a command over what its words name, and says the status. Where a file is refused, or a device fails, a line is told on why.
/// How far a search has got is told on a console, where the words ask for it.
pub fn run<'a, T: Threads + Wait + Sync, C: Clock + Eprint + Sync, G: Given<'a>>(
    rt: &T,
    console: &C,
    alloc: Global,
    given: &mut G,
    words: Words<'a>,
) -> u8
    ensures runs { WithSome (G.is_output given.old) (λ before. (G.Output.failed before ≡ 0) × WithSome (G.is_output given.new) (λ after.
        RunsAsked (devices_of G.Source.Source G.File.Sink G.Given given.old) words.entry
        (sink_over G.Output.taken G.Output.failed before after) result)) }

    // What `plan` has read and written, where it says that it has found a plan, or that there is none.
    ensures planned { RanAsSaid (devices_of G.Source.Source G.File.Sink G.Given given.old) words.entry result }
{
    plan_run_is_first(given);
    let output = given.output();
    let Ran { status, output } = run_to(rt, console, alloc, given, output, words);
    given.close_output(output);
    status
}

/// Runs a command over what its words name, with this standard output.
pub fn run_to<'a, T: Threads + Wait + Sync, C: Clock + Eprint + Sync, G: Given<'a>, W: Made>(
    rt: &T,
    console: &C,
    alloc: Global,
    given: &mut G,
    output: W,
    words: Words<'a>,
) -> Ran<W>
    requires { W.failed output ≡ 0 }
    ensures { RunsAsked (devices_of G.Source.Source G.File.Sink G.Given given.old) words.entry
        (sink_over W.taken W.failed output result.output) result.status }
{
    match words {
        Words::Valid(words) => {
            let offsets = Offsets(&words.offsets);
            network(alloc, given, output, words.network, &offsets, words.json)
        }
        Words::Plan(words) => plan(rt, console, alloc, given, output, words),
        Words::Check(words) => {
            let CheckWords {
                network,
                plan,
                cert,
                json,
            } = words;
            let files = ExplainWords {
                network,
                plan,
                cert,
            };
            certified(alloc, given, output, files, &VerdictLine, json)
        }
        Words::Prove(words) => prove(console, alloc, given, output, words),
        Words::Explain(words) => certified(alloc, given, output, words, &Explanation, false),
        Words::Gates(words) => {
            let lists = Table::Gates(gates_options(words));
            table(alloc, given, output, words.network, words.plan, lists)
        }
        Words::Replay(words) => {
            let rows = Table::Replay(replay_options(words));
            table(alloc, given, output, words.network, words.plan, rows)
        }
        Words::Chart(words) => picture(alloc, given, output, words),
        Words::Streams(words) => {
            let shares = Table::Streams(words.format);
            table(alloc, given, output, words.network, words.plan, shares)
        }
    }
}

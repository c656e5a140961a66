//! Runs that end before their search, since a file can't be written.
ghost use Rattle.std.specs.Prelude.{◌≡◌};
ghost use Rattle.tsn_outcome.specs.Run.{sink_over};
ghost use Rattle.tsn_outcome.specs.Outcome.{outcome_of};
ghost use Rattle.tsn_cli.specs.Unmade.{IsUnmade, IsUnmadeOutcome};

use crate::network::judge_answer;
use std::alloc::Global;
use std::io::ErrorKind;
use tsn_device::Failure;
use tsn_device::device::ReadFault;
use tsn_outcome::json::{say_no_memory, tell_answer};
use tsn_outcome::reason::{failure_line, fault_of, source_line};
use tsn_outcome::run::{DEVICE, DONE};
use tsn_outcome::told::Told;
use tsn_outcome::{Answer, Given, Made, Ran, outcome_of};

/// Why no search began: a file can't be written.
#[derive(Clone, Copy)]
pub struct Unwritten<'a> {
    pub network: &'a str,
    pub failure: Failure<'a>,
    /// Whether the line is to be one of JSON.
    pub json: bool,
}

/// Tells that a file can't be written, where the network isn't refused.
pub fn unwritable<'a, G: Given<'a>, W: Made>(
    alloc: Global,
    given: &mut G,
    output: W,
    unwritten: Unwritten<'a>,
) -> Ran<W>
    requires { W.failed output ≡ 0 }
    ensures { IsUnmade G.Source.given G.Source.failed G.Source.is_at_end (G.opens_network given.old unwritten.entry.network.now)
        unwritten.entry.json (sink_over W.taken W.failed output result.output) result.status }
{
    if unwritten.failure.cause.kind() == ErrorKind::OutOfMemory {
        return say_no_memory(output);
    }
    let mut network = given.network(unwritten.network);
    let judged = judge_answer(alloc, &mut network);
    let reason = if outcome_of(&judged).status() == DONE {
        failure_line(alloc, DEVICE, Some(unwritten.failure))
    } else {
        source_line(alloc, fault_of(&judged), &network)
    };
    drop(network);
    let answer = unmade(judged);
    tell_answer(
        alloc,
        given,
        output,
        Told { answer, reason },
        unwritten.json,
    )
}

// What is answered where a file can't be made, and this of the network alone: that a device failed, where it isn't refused.
fn unmade(judged: Result<Answer, ReadFault>) -> Result<Answer, ReadFault>
    ensures { IsUnmadeOutcome (outcome_of judged) (outcome_of result) }
{
    if outcome_of(&judged).status() == DONE {
        drop(judged);
        return Err(ReadFault::Broken);
    }
    judged
}

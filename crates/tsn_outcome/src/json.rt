//! What a run answers is told: in a line, or in an object of JSON in its place.
ghost use Rattle.std.specs.Prelude.{◌≡◌, [], ◌∷◌, IfOk, codes, string_bytes};
ghost use Rattle.tsn_outcome.specs.Run.{sink_over};
ghost use Rattle.tsn_outcome.specs.Said.{status_of};
ghost use Rattle.tsn_outcome.specs.Outcome.{IsOutputOf, IsWrittenAs, outcome_of};
ghost use Rattle.tsn_outcome.specs.Runs.{IsObjectOf, IsTellingOf, IsToldBy, Says};

use crate::devices::{Given, Made};
use crate::object::format_told;
use crate::reason::failure_line;
use crate::run::{DEVICE, MEMORY, NO_MEMORY_LINE, respond};
use crate::told::{Ran, Told, say, tell};
use crate::{Answer, Outcome, outcome_of};
use std::alloc::Global;
use tsn_device::device::ReadFault;
use tsn_model::NoMemory;

/// Writes what a run answers, in a line or, where `json`, as a line of JSON, and tells the reason on standard error.
pub fn tell_answer<'a, G: Given<'a>, W: Made>(
    alloc: Global,
    given: &mut G,
    output: W,
    told: Told,
    json: bool,
) -> Ran<W>
    requires { W.failed output ≡ 0 }
    ensures { IsToldBy json told.answer (sink_over W.taken W.failed output result.output) result.status }
{
    if json {
        let Told { answer, reason } = told;
        let outcome = outcome_of(&answer);
        let reason = reason.or(reason_in(answer));
        tell_as_json(alloc, given, output, outcome, reason)
    } else {
        tell_in_line(alloc, given, output, told)
    }
}

/// Why it is this answer, in the words that were made with it.
pub fn reason_in(answer: Result<Answer, ReadFault>) -> Option<String> {
    match answer {
        Ok(Answer { line, reason, .. }) => {
            drop(line);
            reason
        }
        Err(_) => None,
    }
}

// Writes the line, and tells why it can't be written, or else the reason.
fn tell_in_line<'a, G: Given<'a>, W: Made>(
    alloc: Global,
    given: &mut G,
    mut output: W,
    told: Told,
) -> Ran<W>
    requires { W.failed output ≡ 0 }
    ensures { IsWrittenAs IsOutputOf told.answer (sink_over W.taken W.failed output result.output ∷ []) result.status }
{
    let Told { answer, reason } = told;
    let status = respond(&mut output, &answer);
    let failed = failure_line(alloc, status, output.failure());
    tell(given, failed.or(reason).or(reason_in(answer)));
    Ran { status, output }
}

// Writes an outcome as a line of JSON; that memory was refused is said as ever.
fn tell_as_json<'a, G: Given<'a>, W: Made>(
    alloc: Global,
    given: &mut G,
    output: W,
    outcome: Outcome,
    reason: Option<String>,
) -> Ran<W>
    requires { W.failed output ≡ 0 }
    ensures { IsTellingOf outcome (sink_over W.taken W.failed output result.output) result.status }
{
    let status = outcome.status();
    if status == MEMORY {
        drop(reason);
        return say_no_memory(output);
    }
    match object_of(alloc, outcome, &reason) {
        Ok(object) => end_told(alloc, given, output, status, object, reason),
        Err(NoMemory) => {
            if status == DEVICE {
                tell(given, reason);
                return say(output, DEVICE, b"");
            }
            drop(reason);
            say_no_memory(output)
        }
    }
}

/// Writes that memory was refused, as a command does.
pub fn say_no_memory<W: Made>(output: W) -> Ran<W>
    requires { W.failed output ≡ 0 }
    ensures { Says MEMORY (codes "no memory\n") (sink_over W.taken W.failed output result.output) result.status }
{
    say(output, MEMORY, NO_MEMORY_LINE)
}

// The line of JSON.
fn object_of(alloc: Global, outcome: Outcome, reason: &Option<String>) -> Result<String, NoMemory>
    ensures { IfOk result (λ text. IsObjectOf outcome (string_bytes text)) }
{
    let reason = match reason {
        Some(reason) => Some(reason.as_str()),
        None => None,
    };
    format_told(alloc, outcome, reason)
}

// Writes an object that tells how a run ended. Where that can't be written, this is told on standard error, and else the reason.
fn end_told<'a, G: Given<'a>, W: Made>(
    alloc: Global,
    given: &mut G,
    output: W,
    status: u8,
    object: String,
    reason: Option<String>,
) -> Ran<W>
    requires { W.failed output ≡ 0 }
    ensures { Says status (string_bytes object) (sink_over W.taken W.failed output result.output) result.status }
{
    let ran = say(output, status, object.as_bytes());
    let failed = failure_line(alloc, ran.status, ran.output.failure());
    tell(given, failed.or(reason));
    ran
}

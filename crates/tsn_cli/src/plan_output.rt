//! What a run of `plan` prints of what its search found.
ghost use Rattle.std.specs.Prelude.{◌≡◌, ◌<◌, [], IfOk, string_bytes};
ghost use Rattle.tsn_outcome.specs.declared.outcome.Outcome.TheVariants.{Stopped};
ghost use Rattle.tsn_outcome.specs.Said.{status_of};
ghost use Rattle.tsn_cli.specs.Plan.{IsWanted, best_plan_text, found_outcome, outcome_found, stop_for, text_found};
ghost use Rattle.tsn_cli.specs.RunOutput.{written_in};
ghost use Rattle.tsn_cert.specs.Plan.{plan_text};
ghost use Rattle.tsn_answer.specs.Answer.{HasNoneOpen};

use crate::run_output::{RunOutput, Written};
use std::alloc::Global;
use std::mem;
use tsn_answer::{Found, Known, plan_of};
use tsn_cert::{Offsets, Plan};
use tsn_codec::plan_to_json;
use tsn_model::NoMemory;
use tsn_outcome::{Answer, Outcome, Stop};
use tsn_timing::Solved;

/// What is printed of what a search found, with its certificate, where that is wanted.
pub fn output_for(
    alloc: Global,
    found: Found,
    wanted: bool,
) -> Result<RunOutput<Option<Written>>, NoMemory>
    requires { HasNoneOpen found }
    ensures outcome { IfOk result (λ output. output.answer.outcome ≡ outcome_found found) }
    ensures plan { IfOk result (λ output. string_bytes output.first ≡ text_found found) }
    ensures cert { IfOk result (λ output. IsWanted wanted found (written_in output.second)) }
{
    let texts = texts_of(alloc, &found);
    let cert = certificate_if(found, wanted);
    let (answer, first) = texts?;
    Ok(RunOutput {
        answer,
        first,
        second: cert?,
    })
}

/// An answer that is a line alone, with this for the second file.
pub fn alone<S>(alloc: Global, answer: Answer, second: S) -> RunOutput<S>
    ensures answer { result.answer.outcome ≡ answer.outcome }
    ensures first { string_bytes result.first ≡ [] }
    ensures second { result.second ≡ second }
{
    RunOutput {
        answer,
        first: String::new(alloc),
        second,
    }
}

// The certificate of what was found, where that is wanted. What isn't written of it isn't let go of: the process that ran the command
// is about to end, and gives all memory back at once, where letting go of a million events one by one took a sixth of a search by four
// workers.
fn certificate_if(found: Found, wanted: bool) -> Result<Option<Written>, NoMemory>
    requires { HasNoneOpen found }
    ensures { IfOk result (λ cert. IsWanted wanted found (written_in cert)) }
{
    match found {
        Found::Finished(book) => {
            if wanted {
                return Ok(Some(Written::Spelled(book.into_spelling()?)));
            }
            mem::forget(book);
        }
        Found::Argued(plan, argument) => {
            drop(plan);
            if wanted {
                return Ok(Some(Written::Argued(argument)));
            }
            mem::forget(argument);
        }
        Found::Stopped(book, known) => {
            mem::forget(book);
            drop(known);
        }
        Found::GaveUp(known, _) => drop(known),
    }
    Ok(None)
}

// The answer of what was found, and the text of its plan.
fn texts_of(alloc: Global, found: &Found) -> Result<(Answer, String), NoMemory>
    ensures outcome { IfOk result (λ texts. texts.0.outcome ≡ outcome_found found.now) }
    ensures plan { IfOk result (λ texts. string_bytes texts.1 ≡ text_found found.now) }
{
    match found {
        Found::Finished(book) => {
            let plan = plan_of(alloc, book)?;
            texts_for(alloc, &plan, book.count())
        }
        Found::Argued(plan, argument) => texts_for(alloc, plan, argument.steps.list().len()),
        Found::Stopped(book, known) => stopped(alloc, known, book.count()),
        Found::GaveUp(known, count) => stopped(alloc, known, *count),
    }
}

// What is said of a search that was stopped or gave up, and the text of the best plan that it knows.
fn stopped(alloc: Global, known: &Known, settled: usize) -> Result<(Answer, String), NoMemory>
    ensures outcome { IfOk result (λ texts. texts.0.outcome ≡ Stopped (stop_for known.now) settled) }
    ensures plan { IfOk result (λ texts. string_bytes texts.1 ≡ best_plan_text known.now.best) }
{
    let text = best_text(alloc, &known.best)?;
    let known = stop_for(known);
    let answer = Answer::of(alloc, Outcome::Stopped { known, settled })?;
    Ok((answer, text))
}

// What is said of a plan that is shown to be optimal, or that there is none, and its text.
fn texts_for(alloc: Global, plan: &Plan, count: usize) -> Result<(Answer, String), NoMemory>
    ensures outcome { IfOk result (λ texts. texts.0.outcome ≡ found_outcome plan.now count) }
    ensures plan { IfOk result (λ texts. string_bytes texts.1 ≡ plan_text plan.now) }
{
    let text = plan_to_json(alloc, plan)?;
    let answer = Answer::of(alloc, found_outcome(plan, count))?;
    Ok((answer, text))
}

fn found_outcome(plan: &Plan, settled: usize) -> Outcome
    ensures outcome { result ≡ found_outcome plan.now settled }
    ensures done { status_of result < 8 }
{
    match plan {
        Plan::Schedule { flowspan, .. } => {
            let flowspan = *flowspan;
            Outcome::Optimal { flowspan, settled }
        }
        Plan::None => Outcome::NoSchedule { settled },
    }
}

fn best_text(alloc: Global, best: &Option<Solved>) -> Result<String, NoMemory>
    ensures { IfOk result (λ text. string_bytes text ≡ best_plan_text best.now) }
{
    let Some(best) = best else {
        return Ok(String::new(alloc));
    };
    let plan = Plan::Schedule {
        flowspan: best.flowspan(),
        offsets: Offsets::of(Vec::from_slice(alloc, best.valid().offsets())?),
    };
    let text = plan_to_json(alloc, &plan);
    drop(plan);
    text
}

// What is told of what a search knows.
fn stop_for(known: &Known) -> Stop
    ensures { result ≡ stop_for known.now }
{
    let best = match &known.best {
        Some(best) => Some(best.flowspan()),
        None => None,
    };
    Stop {
        best,
        bound: known.bound,
    }
}

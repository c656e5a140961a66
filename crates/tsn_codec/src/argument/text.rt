//! The text of an argument in parts: its beginning, its steps one after another, and its end.
ghost use Rattle.std.specs.Prelude.{◌≡◌, IfOk, string_bytes};
ghost use Rattle.tsn_cert.specs.ArgumentText.{head_text, step_text, tail_text, ArgumentTextHasParts};

use crate::argument::goal;
use crate::document;
use crate::list::Element;
use std::alloc::Global;
use tsn_cert::{Goal, Step};
use tsn_model::NoMemory;

/// An argument's text is its beginning, its steps' texts and its end.
pub fn argument_text_has_parts()
    ensures { ArgumentTextHasParts }
{}

/// What an argument's text begins with, before its steps.
pub fn head_to_json(alloc: Global, goal: Goal) -> Result<String, NoMemory>
    ensures { IfOk result (λ s. string_bytes s ≡ head_text goal) }
{
    let word = goal::goal_word(goal);
    Ok(format!(in alloc; "{{\"format\":3,\"goal\":\"{word}\",\"steps\":[")?)
}

/// The text of a step, behind a comma where it is a later one than the first.
pub fn step_to_json(alloc: Global, later: bool, step: &Step) -> Result<String, NoMemory>
    ensures { IfOk result (λ s. string_bytes s ≡ step_text later step.now) }
{
    let value = step.print(alloc)?;
    Ok(document::element_text(alloc, later, value)?)
}

/// What an argument's text ends with, behind its steps. The target is in nanoseconds.
pub fn tail_to_json(alloc: Global, target: u64) -> Result<String, NoMemory>
    ensures { IfOk result (λ s. string_bytes s ≡ tail_text target) }
{
    Ok(format!(in alloc; "],\"target\":{target}}}\n")?)
}

//! An outcome as an object of JSON.
ghost use Rattle.std.specs.Prelude.{◌≡◌, IfOk, false, option_map, string_bytes};
ghost use Rattle.serde_json.specs.View.{view};
ghost use Rattle.serde_json.specs.Written.{has_float};
ghost use Rattle.tsn_outcome.specs.Told.{line_text, text_or_null, told_object, told_text, told_value};

use crate::Outcome;
use crate::outcome::text_if;
use serde_json::{Value, json};
use std::alloc::{AllocError, Global};
use tsn_model::NoMemory;

/// An outcome as a line of JSON, with the reason in words, if one is told: an object with the keys `code`, `flowspan`, `line`, `place`,
/// `reason`, `settled` and `status`; what isn't there is `null`.
///
/// # Errors
///
/// There was no memory.
pub fn format_told(
    alloc: Global,
    outcome: Outcome,
    reason: Option<&str>,
) -> Result<String, NoMemory>
    ensures { IfOk result (λ text. string_bytes text ≡ told_text outcome (option_map (λ text. text.now) reason.entry)) }
{
    let value = value_of(alloc, outcome, reason)?;
    Ok(line(alloc, &value)?)
}

fn line(alloc: Global, value: &Value) -> Result<String, AllocError>
    ensures { IfOk result (λ text. has_float (view value.now) ≡ false → string_bytes text ≡ line_text (view value.now)) }
{
    let mut text = value.to_string(alloc)?;
    text.push_str("\n")?;
    Ok(text)
}

fn value_of(alloc: Global, outcome: Outcome, reason: Option<&str>) -> Result<Value, NoMemory>
    ensures { IfOk result (λ value. view value ≡ told_value outcome (option_map (λ text. text.now) reason.entry)) }
{
    let code = owned_or_null(outcome.code(alloc)?);
    let line = owned_or_null(text_if(format!(in alloc; "{outcome}")?));
    let place = owned_or_null(outcome.place(alloc)?);
    let reason = text_or_null(alloc, reason)?;
    Ok(object(alloc, outcome, code, line, place, reason)?)
}

fn object(
    alloc: Global,
    outcome: Outcome,
    code: Value,
    line: Value,
    place: Value,
    reason: Value,
) -> Result<Value, AllocError>
    ensures { IfOk result (λ value. view value ≡ told_object outcome (view code) (view line) (view place) (view reason)) }
{
    let flowspan = outcome.flowspan();
    let settled = count_of(outcome.settled());
    let status = outcome.status();
    json!(in alloc; {
        "code": code,
        "flowspan": flowspan,
        "line": line,
        "place": place,
        "reason": reason,
        "settled": settled,
        "status": status,
    })
}

// A count, as a number of 64 bits.
fn count_of(count: Option<usize>) -> Option<u64>
    ensures { result ≡ count }
{
    match count {
        Some(count) => Some(count as u64),
        None => None,
    }
}

fn owned_or_null(text: Option<String>) -> Value
    ensures { view result ≡ text_or_null (option_map string_bytes text) }
{
    match text {
        Some(text) => Value::String(text),
        None => Value::Null,
    }
}

// A copy of a text, or null where there is none.
fn text_or_null(alloc: Global, text: Option<&str>) -> Result<Value, AllocError>
    ensures { IfOk result (λ value. view value ≡ text_or_null (option_map (λ text. text.now) text.entry)) }
{
    match text {
        Some(text) => Ok(Value::String(String::from_str(alloc, text)?)),
        None => Ok(Value::Null),
    }
}

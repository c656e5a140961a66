//! Gate control lists as values of JSON.
ghost use Rattle.std.specs.Prelude.{◌≡◌, ◌<◌, IfOk, OnOk, codes, false, length, map, string_bytes};
ghost use Rattle.serde_json.specs.Data.{array, string, put as with_member};
ghost use Rattle.serde_json.specs.View.{items_of, members_view, view};
ghost use Rattle.serde_json.specs.Written.{has_float};
ghost use Rattle.tsn_gate.specs.Json.{entry_value, list_value, line_text, json_text, number_value};

use crate::list::{GateList, names};
use serde_json::{Map, Value, json, put};
use std::alloc::{AllocError, Global};
use tsn_model::{GateEntry, NoMemory};
use tsn_timing::Problem;

/// A list as a line of JSON: an object with its cycle and entries (each an array of its octet and its interval in
/// nanoseconds), the link, and the names of the nodes that it joins.
///
/// # Errors
///
/// There was no memory.
pub fn json_line(alloc: Global, problem: &Problem, list: &GateList) -> Result<String, NoMemory>
    requires { list.now.link < length problem.now.network.links }
    ensures { IfOk result (λ text. string_bytes text ≡ json_text problem.now list.now) }
{
    let value = list_value(alloc, problem, list)?;
    Ok(line(alloc, &value)?)
}

fn list_value(alloc: Global, problem: &Problem, list: &GateList) -> Result<Value, AllocError>
    requires { list.now.link < length problem.now.network.links }
    ensures { IfOk result (λ value. view value ≡ list_value problem.now list.now) }
{
    let (from, to) = names(problem, list.link());
    let mut members = Map::new(alloc);
    put_number(&mut members, alloc, "cycle", list.cycle())?;
    put_entries(&mut members, alloc, list.entries())?;
    put_text(&mut members, alloc, "from", from)?;
    put_number(&mut members, alloc, "link", list.link() as u64)?;
    put_text(&mut members, alloc, "to", to)?;
    Ok(Value::Object(members))
}

/// Adds a number to the members of an object.
pub fn put_number(
    members: &mut Map<String, Value>,
    alloc: Global,
    key: &str,
    number: u64,
) -> Result<(), AllocError>
    ensures { OnOk result (members_view members.new.entries ≡ with_member key.now (number_value number) (members_view members.old.entries)) }
{
    put(members, alloc, key, Value::from(number))
}

/// Adds a text to the members of an object.
pub fn put_text(
    members: &mut Map<String, Value>,
    alloc: Global,
    key: &str,
    text: &str,
) -> Result<(), AllocError>
    ensures { OnOk result (members_view members.new.entries ≡ with_member key.now (string text.now) (members_view members.old.entries)) }
{
    let value = Value::try_from_str(alloc, text)?;
    put(members, alloc, key, value)
}

// Adds the entries of a list to the members of an object.
fn put_entries(
    members: &mut Map<String, Value>,
    alloc: Global,
    entries: &[GateEntry],
) -> Result<(), AllocError>
    ensures { OnOk result (members_view members.new.entries ≡ with_member (codes "entries") (array (items_of (map entry_value entries.now))) (members_view members.old.entries)) }
{
    let value = entry_values(alloc, entries)?;
    put(members, alloc, "entries", value)
}

fn entry_values(alloc: Global, entries: &[GateEntry]) -> Result<Value, AllocError>
    ensures { IfOk result (λ value. view value ≡ array (items_of (map entry_value entries.now))) }
{
    let mut values = Vec::with_capacity(alloc, entries.len())?;
    for entry in entries {
        values.push(entry_value(alloc, *entry)?)?;
    }
    Ok(Value::Array(values))
}

// The octet and the interval of an entry.
fn entry_value(alloc: Global, entry: GateEntry) -> Result<Value, AllocError>
    ensures { IfOk result (λ value. view value ≡ entry_value entry) }
{
    let octet = entry.octet;
    let interval = entry.interval;
    json!(in alloc; [octet, interval])
}

fn line(alloc: Global, value: &Value) -> Result<String, AllocError>
    ensures { IfOk result (λ text. has_float (view value.now) ≡ false → string_bytes text ≡ line_text (view value.now)) }
{
    let mut text = value.to_string(alloc)?;
    text.push_str("\n")?;
    Ok(text)
}

//! Gate control lists in each format.
ghost use Rattle.std.specs.Prelude.{◌≡◌, ◌<◌, All, IfOk, length, string_bytes};
ghost use Rattle.std.specs.List.{flat_map};
ghost use Rattle.tsn_gate.specs.Table.{table_text};
ghost use Rattle.tsn_gate.specs.Format.{text_in};
ghost use Rattle.tsn_gate.specs.Json.{json_text};

use crate::json::json_line;
use crate::list::GateList;
use crate::taprio::{DeviceLimits, to_taprio_within};
use std::alloc::Global;
use tsn_model::NoMemory;
use tsn_timing::Problem;
use tsn_words::GatesFormat;

/// Gate control lists in a format, one list after the other. A script has the limits of a device.
///
/// # Errors
///
/// There was no memory.
pub fn text_in(
    alloc: Global,
    problem: &Problem,
    lists: &[GateList],
    format: GatesFormat,
    limits: DeviceLimits,
) -> Result<String, NoMemory>
    requires { All (λ list. list.link < length problem.now.network.links) lists.now }
    ensures { IfOk result (λ text. string_bytes text ≡ text_in format limits.most limits.least problem.now lists.now) }
{
    match format {
        GatesFormat::Table => gate_tables(alloc, problem, lists),
        GatesFormat::Taprio => to_taprio_within(alloc, problem, lists, limits),
        GatesFormat::Json => gate_lines(alloc, problem, lists),
    }
}

fn gate_tables(alloc: Global, problem: &Problem, lists: &[GateList]) -> Result<String, NoMemory>
    requires { All (λ list. list.link < length problem.now.network.links) lists.now }
    ensures { IfOk result (λ text. string_bytes text ≡ flat_map (table_text problem.now) lists.now) }
{
    let mut text = String::new(alloc);
    for list in lists {
        text.push_str(list.to_text(alloc, problem)?.as_str())?;
    }
    Ok(text)
}

fn gate_lines(alloc: Global, problem: &Problem, lists: &[GateList]) -> Result<String, NoMemory>
    requires { All (λ list. list.link < length problem.now.network.links) lists.now }
    ensures { IfOk result (λ text. string_bytes text ≡ flat_map (json_text problem.now) lists.now) }
{
    let mut text = String::new(alloc);
    for list in lists {
        text.push_str(json_line(alloc, problem, list)?.as_str())?;
    }
    Ok(text)
}

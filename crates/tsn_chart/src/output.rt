//! The shares in each format.
ghost use Rattle.std.specs.Prelude.{◌≡◌, ◌<◌, All, IfOk, length, string_bytes};
ghost use Rattle.tsn_chart.specs.Csv.{csv_text};
ghost use Rattle.tsn_chart.specs.Json.{json_text};
ghost use Rattle.tsn_chart.specs.Table.{table_text};

use crate::csv::{Csv, header};
use crate::format::append_shares;
use crate::json::Json;
use crate::link::LinkShare;
use crate::stream::StreamShare;
use crate::table::Table;
use std::alloc::Global;
use tsn_model::NoMemory;
use tsn_timing::Problem;

/// The shares as a table: a line for each stream with its name and numbers, then one for each link with its number, the names
/// of the nodes that it joins, and its numbers, each after its word. Where some stream sends several frames a cycle, the lines
/// end with the streams' periods and frames, and the links' windows. The last line has the least slack.
///
/// # Errors
///
/// There was no memory.
pub fn to_text(
    alloc: Global,
    problem: &Problem,
    streams: &[StreamShare],
    links: &[LinkShare],
    slack: u64,
) -> Result<String, NoMemory>
    requires streams { All (λ (share : StreamShare). share.stream < length problem.now.stream_names) streams.now }
    requires links { All (λ (share : LinkShare). share.link < length problem.now.network.links) links.now }
    ensures { IfOk result (λ text. string_bytes text ≡ table_text problem.now streams.now links.now slack) }
{
    append_shares::<Table>(String::new(alloc), problem, streams, links, slack)
}

/// The shares as lines of JSON: an object for each stream with its name and numbers, then one for each link with its number,
/// the names of the nodes that it joins, and its numbers. Where some stream sends several frames a cycle, they have the streams'
/// periods and frames too, and the links' windows. The last object has the least slack alone.
///
/// # Errors
///
/// There was no memory.
pub fn to_json(
    alloc: Global,
    problem: &Problem,
    streams: &[StreamShare],
    links: &[LinkShare],
    slack: u64,
) -> Result<String, NoMemory>
    requires streams { All (λ (share : StreamShare). share.stream < length problem.now.stream_names) streams.now }
    requires links { All (λ (share : LinkShare). share.link < length problem.now.network.links) links.now }
    ensures { IfOk result (λ text. string_bytes text ≡ json_text problem.now streams.now links.now slack) }
{
    append_shares::<Json>(String::new(alloc), problem, streams, links, slack)
}

/// The shares as comma-separated values (RFC 4180): a line with the fields' names, a record for each stream, in which the
/// fields of a link are empty, then one for each link, in which those of a stream are, then one with the least slack alone. Names
/// stand in quotes. Where some stream sends several frames a cycle, the last fields are the streams' periods and frames, and the
/// links' windows.
///
/// # Errors
///
/// There was no memory.
pub fn to_csv(
    alloc: Global,
    problem: &Problem,
    streams: &[StreamShare],
    links: &[LinkShare],
    slack: u64,
) -> Result<String, NoMemory>
    requires streams { All (λ (share : StreamShare). share.stream < length problem.now.stream_names) streams.now }
    requires links { All (λ (share : LinkShare). share.link < length problem.now.network.links) links.now }
    ensures { IfOk result (λ text. string_bytes text ≡ csv_text problem.now streams.now links.now slack) }
{
    append_shares::<Csv>(header(alloc, problem)?, problem, streams, links, slack)
}

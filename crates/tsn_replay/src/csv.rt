//! Rows as comma-separated values (RFC 4180).
ghost use Rattle.std.specs.Prelude.{◌≡◌, ◌++◌, ◌<◌, OnOk, length, string_bytes};
ghost use Rattle.tsn_replay.specs.Csv.{numbers_text, record_text};

use crate::trace::Row;
use std::alloc::AllocError;
use std::fmt::Write;
use tsn_text::write_quoted;
use tsn_timing::Problem;

/// The first line: the names of the columns.
pub const HEADER: &str = "stream,cycle,hop,planned,actual\r\n";

/// Writes the record of a row.
pub fn write_record(text: &mut String, problem: &Problem, row: &Row) -> Result<(), AllocError>
    requires { row.now.stream < length problem.now.stream_names }
    ensures { OnOk result (string_bytes text.new ≡ string_bytes text.old ++ record_text problem.now row.now) }
{
    write_quoted(text, problem.stream_name(row.stream))?;
    write_numbers(text, row)
}

// Writes the numbers of a row, each after a comma.
#[tactic(auto, unfolding(crate::specs::Csv::numbers_text))]
fn write_numbers(text: &mut String, row: &Row) -> Result<(), AllocError>
    ensures { OnOk result (string_bytes text.new ≡ string_bytes text.old ++ numbers_text row.now) }
{
    let cycle = row.cycle;
    let hop = row.hop;
    let planned = row.planned;
    match row.actual {
        Some(actual) => write!(text, ",{cycle},{hop},{planned},{actual}\r\n"),
        None => write!(text, ",{cycle},{hop},{planned},\r\n"),
    }
}

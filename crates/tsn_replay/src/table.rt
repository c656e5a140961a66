//! The table of a replay.
ghost use Rattle.std.specs.Prelude.{◌≡◌, ◌++◌, ◌<◌, length, filter, string_bytes, All, IfOk, OnOk};
ghost use Rattle.tsn_replay.specs.Csv.{csv_text};
ghost use Rattle.tsn_replay.specs.Rows.{is_late, row_text, late_text, table_text};

use crate::csv::{HEADER, write_record};
use crate::trace::Row;
use std::alloc::{AllocError, Global};
use std::fmt::Write;
use std::marker::Model;
use tsn_model::NoMemory;
use tsn_timing::Problem;

/// The rows of a replay: one for each scheduled frame and hop, by cycle, then stream, then shift, then hop.
#[derive(Drop)]
pub struct ReplayTable {
    rows: Vec<Row>,
}

impl Model for ReplayTable {
    ghost use Rattle.std.specs.Prelude.{List};
    ghost use Rattle.tsn_replay.specs.declared.trace.Row.{Row};

    ghost Value = { List Row };

    ghost view = { λ table. table.rows.items };
}

impl ReplayTable {
    /// A table of these rows.
    pub(crate) fn new(rows: Vec<Row>) -> ReplayTable
        ensures { result ≡ rows.items }
    {
        ReplayTable { rows }
    }

    /// The rows.
    pub fn rows(&self) -> &[Row]
        ensures { result.now ≡ self.now }
    {
        &self.rows
    }

    /// The rows as a table: a line for each with the stream's name, the cycle, the hop, the planned and the actual start,
    /// `-` where there is none; and a last line with the number of rows that are late.
    pub fn to_text(&self, alloc: Global, problem: &Problem) -> Result<String, NoMemory>
        requires { All (λ (row : Row). row.stream < length problem.now.stream_names) self.now }
        ensures { IfOk result (λ text. string_bytes text ≡ table_text problem.now self.now) }
    {
        let mut text = String::new(alloc);
        for row in &self.rows {
            write_row(&mut text, problem, row)?;
        }
        write_late(&mut text, late_count(&self.rows))?;
        Ok(text)
    }

    /// The rows as comma-separated values (RFC 4180): a line with the columns' names, and one for each row with the stream's
    /// name in quotes, the cycle, the hop, the planned and the actual start, which is empty where there is none.
    pub fn to_csv(&self, alloc: Global, problem: &Problem) -> Result<String, NoMemory>
        requires { All (λ (row : Row). row.stream < length problem.now.stream_names) self.now }
        ensures { IfOk result (λ text. string_bytes text ≡ csv_text problem.now self.now) }
    {
        let mut text = String::from_str(alloc, HEADER)?;
        for row in &self.rows {
            write_record(&mut text, problem, row)?;
        }
        Ok(text)
    }
}

fn late_count(rows: &[Row]) -> usize
    ensures { result ≡ length (filter is_late rows.now) }
{
    let mut late = 0;
    for row in rows {
        if row.is_late() {
            late += 1;
        }
    }
    late
}

// Writes the line of a row.
#[tactic(auto, unfolding(crate::specs::Rows::row_text))]
fn write_row(text: &mut String, problem: &Problem, row: &Row) -> Result<(), AllocError>
    requires { row.now.stream < length problem.now.stream_names }
    ensures { OnOk result (string_bytes text.new ≡ string_bytes text.old ++ row_text problem.now row.now) }
{
    let name = problem.stream_name(row.stream);
    let cycle = row.cycle;
    let hop = row.hop;
    let planned = row.planned;
    match row.actual {
        Some(actual) => write!(text, "{name} {cycle} {hop} {planned} {actual}\n"),
        None => write!(text, "{name} {cycle} {hop} {planned} -\n"),
    }
}

// Writes the last line.
#[tactic(auto, unfolding(crate::specs::Rows::late_text))]
fn write_late(text: &mut String, count: usize) -> Result<(), AllocError>
    ensures { OnOk result (string_bytes text.new ≡ string_bytes text.old ++ late_text count) }
{
    write!(text, "late {count}\n")
}

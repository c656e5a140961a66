//! What a replay shows.
ghost use Rattle.std.specs.Prelude.{◌≡◌, ◌<◌, length, string_bytes, All, IfOk};
ghost use Rattle.tsn_replay.specs.Csv.{csv_text};
ghost use Rattle.tsn_replay.specs.Rows.{is_late, table_text};

use crate::starts::{Sent, Starts};
use crate::table::ReplayTable;
use std::alloc::Global;
use std::marker::Model;
use tsn_model::NoMemory;
use tsn_timing::Problem;

/// A stream's frame on a hop, in a cycle, each counted from 0: when it was planned to start there, and when it did, in
/// nanoseconds from the replay's beginning. A frame that hadn't started by the end has no actual start. The shift says which
/// frame of the cycle it is: how long after the stream's offset it is sent.
#[derive(Clone, Copy, PartialEq, Eq)]
pub struct Row {
    pub stream: usize,
    pub shift: u64,
    pub cycle: usize,
    pub hop: usize,
    pub planned: u64,
    pub actual: Option<u64>,
}

impl Row {
    /// Whether the frame didn't start when it was planned to.
    #[tactic(auto, unfolding(crate::specs::Rows::is_late))]
    pub fn is_late(&self) -> bool
        ensures { result ≡ is_late self.now }
    {
        match self.actual {
            Some(time) => time != self.planned,
            None => true,
        }
    }
}

/// What started in a replay, and when.
#[derive(Drop)]
pub struct Trace {
    starts: Starts,
    table: ReplayTable,
}

impl Model for Trace {
    ghost use Rattle.tsn_replay.specs.Rows.{Traced};

    ghost Value = { Traced };

    ghost view = { λ trace. record { run = trace.starts; rows = trace.table } };
}

impl Trace {
    /// A trace with its table.
    pub(crate) fn new(starts: Starts, table: ReplayTable) -> Trace
        ensures { result ≡ record { run = starts; rows = table } }
    {
        Trace { starts, table }
    }

    /// The table alone.
    pub(crate) fn into_table(self) -> ReplayTable
        ensures { result ≡ self.rows }
    {
        drop(self.starts);
        self.table
    }

    /// A row for each scheduled frame and hop, by cycle, then stream, then shift, then hop.
    pub fn rows(&self) -> &[Row]
        ensures { result.now ≡ self.now.rows }
    {
        self.table.rows()
    }

    /// The starts of background frames, in their order.
    pub fn background(&self) -> &[Sent]
        ensures { result.now ≡ self.now.run.background }
    {
        self.starts.background()
    }

    /// The rows as `ReplayTable::to_text` writes them.
    pub fn to_text(&self, alloc: Global, problem: &Problem) -> Result<String, NoMemory>
        requires { All (λ (row : Row). row.stream < length problem.now.stream_names) self.now.rows }
        ensures { IfOk result (λ text. string_bytes text ≡ table_text problem.now self.now.rows) }
    {
        self.table.to_text(alloc, problem)
    }

    /// The rows as `ReplayTable::to_csv` writes them.
    pub fn to_csv(&self, alloc: Global, problem: &Problem) -> Result<String, NoMemory>
        requires { All (λ (row : Row). row.stream < length problem.now.stream_names) self.now.rows }
        ensures { IfOk result (λ text. string_bytes text ≡ csv_text problem.now self.now.rows) }
    {
        self.table.to_csv(alloc, problem)
    }
}

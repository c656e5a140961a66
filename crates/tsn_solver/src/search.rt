//! The run of a conflict-driven search: bounds are narrowed by the arcs, the gaps, the sets on links and the clauses, and from each
//! contradiction a further clause is learned. Times are in nanoseconds.
use crate::analysis::Analysis;
use crate::choice::Choice;
use crate::pace::Pace;
use crate::rooms::Rooms;
use crate::round::Rises;
use std::alloc::{AllocError, Global};
use tsn_bounds::known::Known;
use tsn_bounds::literal::Literal;
use tsn_bounds::table::Table;

/// A search over a network.
#[derive(Drop)]
pub struct Search {
    pub alloc: Global,
    /// What is known of the network.
    pub known: Known,
    pub rooms: Rooms,
    pub choice: Choice,
    pub analysis: Analysis,
    pub rises: Rises,
    /// What is to hold in the schedule that is asked for.
    pub premises: Vec<Literal>,
    pub pace: Pace,
    /// The schedule that was found last.
    pub found: Vec<i64>,
    /// How many learned clauses are kept.
    pub most_kept: usize,
}

impl Search {
    /// A search over a network whose numbers may still be put in. Nothing is known before `fill`.
    pub fn none(alloc: Global, table: Table) -> Search {
        Search {
            alloc,
            known: Known::none(alloc, table),
            rooms: Rooms::none(alloc),
            choice: Choice::none(alloc),
            analysis: Analysis::none(alloc),
            rises: Rises::none(alloc),
            premises: Vec::new(alloc),
            pace: Pace::none(),
            found: Vec::new(alloc),
            most_kept: 4000,
        }
    }

    /// Works out what follows from the network's numbers, with nothing given. The error says that there was no memory.
    pub fn fill(&mut self) -> Result<(), AllocError> {
        self.known.fill(self.alloc)?;
        self.rooms.fill(self.alloc, &self.known.table)?;
        self.analysis.size(self.known.trail.values.len())?;
        self.choice.fill(&self.known.table)?;
        self.rises.size(self.known.times as usize)?;
        if self.known.is_empty() {
            self.known.is_open = false;
            return Ok(());
        }
        self.known.begin()?;
        if !self.propagate()? {
            self.analysis.end(&mut self.known)?;
        }
        Ok(())
    }

    /// Goes back to the end of a level.
    pub fn go_back(&mut self, level: usize) -> Result<(), AllocError> {
        self.choice.go_back(&mut self.known, level)
    }

    /// Which gaps are tried first: as offsets have them.
    pub fn set_sides(&mut self, offsets: &[i64]) {
        self.choice.set_sides(&self.known.table, offsets);
    }
}

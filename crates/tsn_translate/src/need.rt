//! What an argument needs of what a search found out: by going back from its end.
use std::alloc::{AllocError, Global};
use tsn_bounds::known::Known;
use tsn_bounds::literal::Literal;
use tsn_bounds::number::{index, is_marked, mark, push};
use tsn_bounds::reason::{Deed, Why};
use tsn_bounds::record::Record;
use tsn_bounds::trail::Trail;

/// The changes before the first decision that are needed, and the clauses that were shown.
#[derive(Drop)]
pub struct Needed {
    pub events: Met,
    pub shown: Met,
}

/// Numbers that were met.
#[derive(Drop)]
pub struct Met {
    marks: Vec<bool>,
    // Those that weren't gone through.
    open: Vec<u32>,
}

impl Met {
    fn none(alloc: Global) -> Met {
        Met {
            marks: Vec::new(alloc),
            open: Vec::new(alloc),
        }
    }

    /// Whether this number was met.
    pub fn has(&self, number: usize) -> bool {
        is_marked(&self.marks, number)
    }

    fn meet(&mut self, number: u32) -> Result<(), AllocError> {
        if self.has(number as usize) {
            return Ok(());
        }
        mark(&mut self.marks, number as usize, true);
        push(&mut self.open, number)
    }

    // Meets the changes by which literals came to hold.
    fn meet_all(&mut self, trail: &Trail, literals: &[Literal]) -> Result<(), AllocError> {
        for literal in literals {
            if let Some(number) = trail.event_of(*literal) {
                self.meet(number)?;
            }
        }
        Ok(())
    }
}

/// What is needed for these literals to hold; or, where what is given contradicts itself, for that. No decision stands. The error says
/// that there was no memory.
pub fn needed_for(
    alloc: Global,
    known: &mut Known,
    literals: &[Literal],
) -> Result<Needed, AllocError> {
    let mut needed = Needed {
        events: Met::none(alloc),
        shown: Met::none(alloc),
    };
    match needed.fill(known, literals) {
        Ok(()) => Ok(needed),
        Err(error) => {
            drop(needed);
            Err(error)
        }
    }
}

impl Needed {
    fn fill(&mut self, known: &mut Known, literals: &[Literal]) -> Result<(), AllocError> {
        self.meet_first(known, literals)?;
        self.go_through(known)
    }

    fn meet_first(&mut self, known: &Known, literals: &[Literal]) -> Result<(), AllocError> {
        let count = known.record.count();
        self.events.marks.resize(known.trail.events.len(), false)?;
        self.shown.marks.resize(count, false)?;
        if !known.is_open {
            self.shown.meet(index(count.wrapping_sub(1)))?;
        }
        self.events.meet_all(&known.trail, literals)
    }

    fn go_through(&mut self, known: &mut Known) -> Result<(), AllocError> {
        for _ in 0..u64::MAX {
            if let Some(number) = self.events.open.pop() {
                self.go_through_event(known, number)?;
            } else if let Some(number) = self.shown.open.pop() {
                self.go_through_shown(&known.record, number as usize)?;
            } else {
                break;
            }
        }
        Ok(())
    }

    fn go_through_event(&mut self, known: &mut Known, number: u32) -> Result<(), AllocError> {
        let event = known.trail.event(number);
        match event.why {
            Why::Clause(clause) => self.shown.meet(known.clauses.clause(clause).shown)?,
            Why::Shown(shown) => self.shown.meet(shown)?,
            _ => {}
        }
        known.explain(Literal::of(event.bound, event.new), event.why)?;
        self.events.meet_all(&known.trail, &known.needs)
    }

    fn go_through_shown(&mut self, record: &Record, number: usize) -> Result<(), AllocError> {
        for event in record.grounds(number) {
            self.events.meet(*event)?;
        }
        for deed in record.deeds(number) {
            if let Deed::Use(shown) = *deed {
                self.shown.meet(shown)?;
            }
        }
        Ok(())
    }
}

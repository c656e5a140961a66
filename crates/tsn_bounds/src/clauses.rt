//! Clauses, each watched at two of its literals (Moskewicz, Madigan, Zhao, Zhang and Malik 2001).
use crate::literal::{Literal, exchange, literal_at};
use crate::number::{index, item_at, push, put_item};
use std::alloc::{AllocError, Global};
use std::mem;

/// A clause: where its literals begin in the list of all, and how many there are.
#[derive(Clone, Copy)]
pub struct Clause {
    pub start: usize,
    pub count: usize,
    /// Its number in the record.
    pub shown: u32,
    /// How many levels its literals were of.
    pub levels: u32,
    /// When it was needed last.
    pub used: u64,
    pub is_learned: bool,
    pub is_gone: bool,
}

const NO_CLAUSE: Clause = Clause {
    start: 0,
    count: 0,
    shown: 0,
    levels: 0,
    used: 0,
    is_learned: false,
    is_gone: true,
};

/// That a clause is looked at where the bound is at least this.
#[derive(Clone, Copy)]
pub struct Watch {
    pub clause: u32,
    pub least: i64,
}

const NO_WATCH: Watch = Watch {
    clause: 0,
    least: i64::MAX,
};

/// The clauses that watch a bound.
#[derive(Drop)]
pub struct Watches {
    pub list: Vec<Watch>,
}

/// The clauses of a search.
#[derive(Drop)]
pub struct Clauses {
    pub list: Vec<Clause>,
    pub literals: Vec<Literal>,
    pub watches: Vec<Watches>,
    /// How many learned ones there are.
    pub learned: usize,
    // The watches of the bound that is looked at.
    pub open: Vec<Watch>,
    // How many literals belong to clauses that are gone.
    gone: usize,
}

/// What a clause that may not hold comes to.
#[derive(Clone, Copy)]
pub enum WatchOutcome {
    /// It holds, or isn't watched here any longer but goes on being watched elsewhere.
    Kept,
    Left,
    /// The others are contradicted, so this one holds.
    Last(Literal),
}

impl Clauses {
    /// None, over no bounds.
    pub fn none(alloc: Global) -> Clauses {
        Clauses {
            list: Vec::new(alloc),
            literals: Vec::new(alloc),
            watches: Vec::new(alloc),
            learned: 0,
            open: Vec::new(alloc),
            gone: 0,
        }
    }

    /// Makes them ones over so many bounds. The error says that there was no memory.
    pub fn size(&mut self, alloc: Global, bounds: usize) -> Result<(), AllocError> {
        for _ in 0..bounds {
            let none = Watches {
                list: Vec::new(alloc),
            };
            push(&mut self.watches, none)?;
        }
        Ok(())
    }

    /// The clause of this number.
    pub fn clause(&self, number: u32) -> Clause {
        item_at(&self.list, number as usize, NO_CLAUSE)
    }

    /// The literals of a clause, the two watched ones first.
    pub fn literals_of(&self, number: u32) -> &[Literal] {
        let clause = self.clause(number);
        part_of(&self.literals, clause.start, clause.count)
    }

    /// Adds a clause of two literals or more, which is watched at the first two, and answers its number.
    pub fn add(
        &mut self,
        literals: &[Literal],
        shown: u32,
        levels: u32,
        used: u64,
        is_learned: bool,
    ) -> Result<u32, AllocError> {
        let number = index(self.list.len());
        let start = self.literals.len();
        self.literals.extend_from_slice(literals)?;
        for place in 0..literals.len().min(2) {
            self.watch(literal_at(literals, place), number)?;
        }
        let clause = Clause {
            start,
            count: literals.len(),
            shown,
            levels,
            used,
            is_learned,
            is_gone: false,
        };
        push(&mut self.list, clause)?;
        if is_learned {
            self.learned = self.learned.wrapping_add(1);
        }
        Ok(number)
    }

    /// Notes that a clause was needed.
    pub fn note_use(&mut self, number: u32, now: u64) {
        if let Some(clause) = self.list.get_mut(number as usize) {
            clause.used = now;
        }
    }

    /// Takes the watches of a bound in hand.
    pub fn take(&mut self, bound: u32) {
        if let Some(watches) = self.watches.get_mut(bound as usize) {
            mem::swap(&mut watches.list, &mut self.open);
        }
    }

    /// Puts those back that are kept: the first so many in hand. Further ones may have come in between.
    pub fn put_back(&mut self, bound: u32, kept: usize) -> Result<(), AllocError> {
        self.open.truncate(kept);
        if let Some(watches) = self.watches.get_mut(bound as usize) {
            mem::swap(&mut watches.list, &mut self.open);
            watches.list.extend_from_slice(&self.open)?;
        }
        self.open.clear();
        Ok(())
    }

    /// Writes a watch in hand.
    pub fn keep(&mut self, place: usize, watch: Watch) {
        put_item(&mut self.open, place, watch);
    }

    /// The watch in hand of this place.
    pub fn in_hand(&self, place: usize) -> Watch {
        item_at(&self.open, place, NO_WATCH)
    }

    /// Looks at a clause one of whose watched literals, this one, is contradicted by now.
    pub fn look(
        &mut self,
        number: u32,
        contradicted: Literal,
        values: &[i64],
    ) -> Result<WatchOutcome, AllocError> {
        let clause = self.clause(number);
        if clause.is_gone {
            return Ok(WatchOutcome::Left);
        }
        let second = clause.start.wrapping_add(1);
        if is_same(literal_at(&self.literals, clause.start), contradicted) {
            exchange(&mut self.literals, clause.start, second);
        }
        if !is_same(literal_at(&self.literals, second), contradicted) {
            return Ok(WatchOutcome::Left);
        }
        let first = literal_at(&self.literals, clause.start);
        if is_true(values, first) {
            return Ok(WatchOutcome::Kept);
        }
        match self.open_literal(clause, values) {
            Some(place) => {
                let other = literal_at(&self.literals, place);
                exchange(&mut self.literals, second, place);
                self.watch(other, number)?;
                Ok(WatchOutcome::Left)
            }
            None => Ok(WatchOutcome::Last(first)),
        }
    }

    // The place of a literal behind the second that isn't contradicted.
    fn open_literal(&self, clause: Clause, values: &[i64]) -> Option<usize> {
        let start = clause.start.wrapping_add(2);
        let rest = part_of(&self.literals, start, clause.count.wrapping_sub(2));
        for (number, literal) in rest.iter().enumerate() {
            if !is_true(values, literal.opposite()) {
                return Some(start.wrapping_add(number));
            }
        }
        None
    }

    fn watch(&mut self, literal: Literal, clause: u32) -> Result<(), AllocError> {
        let opposite = literal.opposite();
        let watch = Watch {
            clause,
            least: opposite.least,
        };
        if let Some(watches) = self.watches.get_mut(opposite.place()) {
            push(&mut watches.list, watch)?;
        }
        Ok(())
    }

    /// Forgets about half of the learned clauses of more than two literals and levels, those that were needed longest ago, but none
    /// that is marked.
    pub fn forget(&mut self, alloc: Global, is_needed: &[bool]) -> Result<(), AllocError> {
        let last = self.middle_use(alloc, is_needed)?;
        for (number, clause) in self.list.iter_mut().enumerate() {
            if may_go(clause, number, is_needed) && clause.used < last {
                clause.is_gone = true;
                self.learned = self.learned.wrapping_sub(1);
                self.gone = self.gone.wrapping_add(clause.count);
            }
        }
        for bound in 0..self.watches.len() {
            self.sweep(bound);
        }
        if self.gone > self.literals.len() / 2 {
            self.compact(alloc)?;
        }
        Ok(())
    }

    // When the middle one of those that may go was needed last.
    fn middle_use(&self, alloc: Global, is_needed: &[bool]) -> Result<u64, AllocError> {
        let mut uses = Vec::new(alloc);
        for (number, clause) in self.list.iter().enumerate() {
            if may_go(clause, number, is_needed) {
                push(&mut uses, clause.used)?;
            }
        }
        uses.sort_unstable();
        Ok(item_at(&uses, uses.len() / 2, 0))
    }

    // Drops the watches of clauses that are gone.
    fn sweep(&mut self, bound: usize) {
        self.take(index(bound));
        let mut kept: usize = 0;
        for place in 0..self.open.len() {
            let watch = self.in_hand(place);
            if !self.clause(watch.clause).is_gone {
                self.keep(kept, watch);
                kept = kept.wrapping_add(1);
            }
        }
        self.open.truncate(kept);
        self.take(index(bound));
        self.open.clear();
    }

    // Moves the literals together.
    fn compact(&mut self, alloc: Global) -> Result<(), AllocError> {
        let mut literals = Vec::new(alloc);
        for clause in self.list.iter_mut() {
            if clause.is_gone {
                clause.count = 0;
            }
            let start = literals.len();
            let own = part_of(&self.literals, clause.start, clause.count);
            literals.extend_from_slice(own)?;
            clause.start = start;
        }
        self.literals = literals;
        self.gone = 0;
        Ok(())
    }
}

/// So many literals from this place on.
pub fn part_of(literals: &[Literal], start: usize, count: usize) -> &[Literal] {
    let end = start.wrapping_add(count);
    if start <= end && end <= literals.len() {
        &literals[start..end]
    } else {
        &[]
    }
}

fn may_go(clause: &Clause, number: usize, is_needed: &[bool]) -> bool {
    !item_at(is_needed, number, false)
        && clause.is_learned
        && !clause.is_gone
        && clause.count > 2
        && clause.levels > 2
}

fn is_same(one: Literal, other: Literal) -> bool {
    one.bound == other.bound && one.least == other.least
}

fn is_true(values: &[i64], literal: Literal) -> bool {
    let place = literal.place();
    place < values.len() && values[place] >= literal.least
}

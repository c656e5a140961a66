//! The steps of an argument, one after another.
use crate::writing::facts::{ends_of, order_of};
use std::alloc::{AllocError, Global};
use tsn_bounds::number::{NONE, index, index_at, next, push, put_index, sum};
use tsn_bounds::table::Table;
use tsn_cert::{Clause, Fact, Move, Moves, Order, Orders, Step, Steps};

/// The steps that are written.
#[derive(Drop)]
pub struct Script {
    alloc: Global,
    steps: Vec<Step>,
    /// The moves of the step that is written.
    pub moves: Vec<Move>,
    // How many clauses were written.
    clauses: usize,
    // For each block the number of the clause that of its first and its last conflict one has the right side or the other the left one.
    bridges: Vec<u32>,
}

impl Script {
    /// None.
    pub fn none(alloc: Global) -> Script {
        Script {
            alloc,
            steps: Vec::new(alloc),
            moves: Vec::new(alloc),
            clauses: 0,
            bridges: Vec::new(alloc),
        }
    }

    /// Makes room for so many blocks.
    pub fn size(&mut self, blocks: usize) -> Result<(), AllocError> {
        self.bridges.resize(blocks, NONE)
    }

    pub fn into_steps(self) -> Steps {
        Steps::of(self.steps)
    }

    /// Ends a step.
    pub fn push_step(&mut self, facts: Vec<Fact>) -> Result<(), AllocError> {
        let mut moves = Vec::new(self.alloc);
        std::mem::swap(&mut moves, &mut self.moves);
        let step = Step {
            clause: Clause::of(facts),
            moves: Moves::of(moves),
        };
        push(&mut self.steps, step)
    }

    /// Counts the clause of the last step, and answers its number.
    pub fn number_clause(&mut self) -> u32 {
        let clause = index(self.clauses);
        self.clauses = next(self.clauses);
        clause
    }

    /// Arcs that lead back to where they begin. False where they are too many.
    pub fn push_round(&mut self, round: Vec<Order>) -> Result<bool, AllocError> {
        if round.is_empty() || round.len() > 128 {
            return Ok(false);
        }
        push(&mut self.moves, Move::Round(Orders::of(round)))?;
        Ok(true)
    }

    /// Goes from the one end of a block to the other.
    pub fn cross(&mut self, table: &Table, number: usize) -> Result<(), AllocError> {
        if index_at(&self.bridges, number) == NONE {
            let mut moves = Vec::new(self.alloc);
            std::mem::swap(&mut moves, &mut self.moves);
            let bridge = self.build_bridge(table, number)?;
            put_index(&mut self.bridges, number, bridge);
            std::mem::swap(&mut moves, &mut self.moves);
        }
        let clause = index_at(&self.bridges, number) as usize;
        push(&mut self.moves, Move::Use(clause))
    }

    // Shows that the right stream goes first on the block's first conflict, or the left one on its last. The clause that says so.
    fn build_bridge(&mut self, table: &Table, number: usize) -> Result<u32, AllocError> {
        let pair = table.owner(number).wrapping_mul(2);
        let (first, last) = ends_of(table.block(number), pair);
        let begun = self.clauses;
        self.push_links(table, pair, first, last)?;
        match self.clauses.wrapping_sub(begun) {
            0 => Ok(NONE),
            1 => Ok(index(begun)),
            _ => {
                self.push_uses(begun)?;
                self.push_clause(table, pair, first, last)
            }
        }
    }

    // Uses the clauses from one on.
    fn push_uses(&mut self, from: usize) -> Result<(), AllocError> {
        for clause in from..self.clauses {
            push(&mut self.moves, Move::Use(clause))?;
        }
        Ok(())
    }

    // Goes over a block by as few conflicts as will do.
    fn push_links(
        &mut self,
        table: &Table,
        pair: usize,
        first: u32,
        last: u32,
    ) -> Result<(), AllocError> {
        let mut from = first;
        for _ in first..last {
            if from >= last {
                break;
            }
            let to = overlapping(table, from, last);
            self.push_link(table, pair, from, to)?;
            from = to;
        }
        Ok(())
    }

    // Shows that of two conflicts that overlap one has the right side or the other the left one.
    fn push_link(
        &mut self,
        table: &Table,
        pair: usize,
        from: u32,
        to: u32,
    ) -> Result<(), AllocError> {
        let mut round = Vec::new(self.alloc);
        push(&mut round, order_of(table, pair, from))?;
        push(&mut round, order_of(table, pair ^ 1, to))?;
        let _ = self.push_round(round)?;
        let _ = self.push_clause(table, pair, from, to)?;
        Ok(())
    }

    // Ends the step of a clause of two orders, and answers its number.
    fn push_clause(
        &mut self,
        table: &Table,
        pair: usize,
        from: u32,
        to: u32,
    ) -> Result<u32, AllocError> {
        let mut facts = Vec::new(self.alloc);
        push(&mut facts, Fact::Order(order_of(table, pair ^ 1, from)))?;
        push(&mut facts, Fact::Order(order_of(table, pair, to)))?;
        self.push_step(facts)?;
        Ok(self.number_clause())
    }
}

// Of the conflicts behind one, up to the last one of its block, the last that overlaps with it.
fn overlapping(table: &Table, from: u32, last: u32) -> u32 {
    let end = table.conflict(from as usize).left_first;
    let mut found = from.wrapping_add(1);
    for conflict in from..last {
        let following = conflict.wrapping_add(1);
        let begin = table.conflict(following as usize).right_first;
        if sum(end, begin) <= 0 {
            break;
        }
        found = following;
    }
    found
}

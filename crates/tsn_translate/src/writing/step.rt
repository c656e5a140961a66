//! Writes the steps of an argument: those of the ground, and those of clauses that were shown.
use crate::view::{Made, narrow};
use crate::writing::Writing;
use crate::writing::facts::{fact_of, pair_side, strong};
use crate::writing::views::settle;
use std::alloc::{AllocError, Global};
use tsn_bounds::known::{Known, is_impossible};
use tsn_bounds::literal::Literal;
use tsn_bounds::number::{push, put_index};
use tsn_cert::Fact;

impl Writing<'_> {
    // Ends the step that changes the ground.
    pub(super) fn write_ground(&mut self) -> Result<(), AllocError> {
        if self.script.moves.is_empty() {
            return Ok(());
        }
        self.script.push_step(Vec::new(self.alloc))?;
        settle(&mut self.views.ground, self.known.span(), self.aim);
        Ok(())
    }

    // A clause that was shown.
    pub(super) fn write_shown(&mut self, number: usize) -> Result<bool, AllocError> {
        let known = self.known;
        let literals = known.record.literals(number);
        if !self.write_deeds(number, true)? && !self.write_deeds(number, false)? {
            return Ok(false);
        }
        let facts = facts_of(self.alloc, known, literals)?;
        self.script.push_step(facts)?;
        self.learn(literals)?;
        if !literals.is_empty() {
            let clause = self.script.number_clause();
            put_index(&mut self.numbers, number, clause);
        }
        Ok(true)
    }

    // What the ground learns by a clause.
    fn learn(&mut self, literals: &[Literal]) -> Result<(), AllocError> {
        match literals {
            [] => std::mem::swap(&mut self.views.ground, &mut self.views.view),
            [literal] => {
                narrow(&mut self.views.ground, *literal);
                self.gain(*literal, true)?;
                settle(&mut self.views.ground, self.known.span(), self.aim);
            }
            _ => {}
        }
        Ok(())
    }

    // Notes that the ground, or the view, has the order by which a literal is written.
    pub(super) fn gain(&mut self, literal: Literal, is_ground: bool) -> Result<(), AllocError> {
        let known = self.known;
        if literal.bound < known.times {
            return Ok(());
        }
        let pair = pair_side(known.times, literal.bound);
        self.views.gain(pair, strong(known, literal), is_ground)
    }

    // The moves by which a clause follows; where it does so, by the orders alone that the view has already. False where it doesn't.
    fn write_deeds(&mut self, number: usize, is_lean: bool) -> Result<bool, AllocError> {
        let known = self.known;
        self.script.moves.clear();
        self.views.begin(known, known.record.literals(number))?;
        let mut is_over = is_impossible(&self.views.view, known.times as usize);
        for deed in known.record.deeds(number) {
            if is_over {
                break;
            }
            match self.write_deed(*deed, false, is_lean)? {
                Made::Narrowed => {}
                Made::Impossible => is_over = true,
                Made::Wrong => return Ok(false),
            }
        }
        Ok(is_over)
    }
}

fn facts_of(alloc: Global, known: &Known, literals: &[Literal]) -> Result<Vec<Fact>, AllocError> {
    let mut facts = Vec::new(alloc);
    for literal in literals {
        push(&mut facts, fact_of(known, *literal))?;
    }
    Ok(facts)
}

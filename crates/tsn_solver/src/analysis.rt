//! What a contradiction teaches: the clause of the first unique implication point, over bounds (Marques-Silva and Sakallah 1996;
//! Ohrimenko, Stuckey and Codish 2007), without what the others imply.
use crate::choice::Choice;
use std::alloc::{AllocError, Global};
use tsn_bounds::known::Known;
use tsn_bounds::literal::{Literal, exchange, literal_at};
use tsn_bounds::number::{
    NONE, at, index, index_at, is_marked, item_at, mark, push, put, put_index,
};
use tsn_bounds::reason::{Deed, Why};
use tsn_bounds::trail::Trail;

// How deep it's looked whether a literal is implied, and how many changes are looked at for that.
const DEPTH: u32 = 3;

const LOOKS: u32 = 30;

/// What is needed of a contradiction.
#[derive(Drop)]
pub struct Analysis {
    wanted: Wanted,
    argument: Argument,
    /// The clause, the literal that follows first, and then one of the level to which the search goes back.
    pub learned: Vec<Literal>,
    levels: Vec<u32>,
    // Literals that are to be implied, and how many changes may still be looked at for that.
    stack: Vec<Literal>,
    left: u32,
}

// For each bound how narrow it is needed, and the change by which it is so; none where it isn't needed.
#[derive(Drop)]
struct Wanted {
    values: Vec<i64>,
    changes: Vec<u32>,
    touched: Vec<u32>,
    is_touched: Vec<bool>,
    // How many changes of the last level are needed.
    open: usize,
}

// What the clause follows by.
#[derive(Drop)]
struct Argument {
    // The changes that were replaced by why they came.
    used: Vec<Used>,
    // The changes before the first decision that are needed.
    grounds: Vec<u32>,
    deeds: Vec<Deed>,
}

// A change, and how narrow its bound is needed by it.
#[derive(Clone, Copy)]
struct Used {
    number: u32,
    least: i64,
}

const NOT_USED: Used = Used {
    number: NONE,
    least: 0,
};

/// A clause that was learned: the level to go back to, its number in the record, and how many levels its literals were of.
#[derive(Clone, Copy)]
pub struct Lesson {
    pub level: usize,
    pub shown: u32,
    pub levels: u32,
}

impl Wanted {
    fn none(alloc: Global) -> Wanted {
        Wanted {
            values: Vec::new(alloc),
            changes: Vec::new(alloc),
            touched: Vec::new(alloc),
            is_touched: Vec::new(alloc),
            open: 0,
        }
    }

    fn size(&mut self, bounds: usize) -> Result<(), AllocError> {
        self.values.resize(bounds, 0)?;
        self.changes.resize(bounds, NONE)?;
        self.is_touched.resize(bounds, false)
    }

    fn change(&self, bound: u32) -> u32 {
        index_at(&self.changes, bound as usize)
    }

    // What is needed of a bound.
    fn literal(&self, bound: u32) -> Literal {
        Literal::of(bound, at(&self.values, bound as usize))
    }

    // Needs a literal, by the change of this number. Whether it wasn't needed so before.
    fn need(&mut self, literal: Literal, number: u32, trail: &Trail) -> Result<bool, AllocError> {
        let old = self.change(literal.bound);
        if old != NONE {
            if self.literal(literal.bound).least >= literal.least {
                return Ok(false);
            }
            if is_of_last_level(old, trail) {
                self.open = self.open.wrapping_sub(1);
            }
        }
        self.touch(literal.bound)?;
        put(&mut self.values, literal.place(), literal.least);
        put_index(&mut self.changes, literal.place(), number);
        if is_of_last_level(number, trail) {
            self.open = self.open.wrapping_add(1);
        }
        Ok(true)
    }

    fn touch(&mut self, bound: u32) -> Result<(), AllocError> {
        if is_marked(&self.is_touched, bound as usize) {
            return Ok(());
        }
        mark(&mut self.is_touched, bound as usize, true);
        push(&mut self.touched, bound)
    }

    // A bound, whose change is of the last level, isn't needed any longer.
    fn leave(&mut self, bound: u32) {
        put_index(&mut self.changes, bound as usize, NONE);
        self.open = self.open.wrapping_sub(1);
    }

    fn clear(&mut self) {
        for bound in &self.touched {
            mark(&mut self.is_touched, *bound as usize, false);
            put_index(&mut self.changes, *bound as usize, NONE);
        }
        self.touched.clear();
        self.open = 0;
    }
}

impl Argument {
    fn none(alloc: Global) -> Argument {
        Argument {
            used: Vec::new(alloc),
            grounds: Vec::new(alloc),
            deeds: Vec::new(alloc),
        }
    }

    fn note_used(&mut self, number: u32, literal: Literal) -> Result<(), AllocError> {
        let least = literal.least;
        push(&mut self.used, Used { number, least })
    }

    // Whether a literal held before the first decision; then its change is noted.
    fn is_ground(&mut self, number: u32, trail: &Trail) -> Result<bool, AllocError> {
        if trail.event(number).level != 0 {
            return Ok(false);
        }
        push(&mut self.grounds, number)?;
        Ok(true)
    }

    // Records the clause with its deeds, in the order of the changes.
    fn record(&mut self, learned: &[Literal], known: &mut Known) -> Result<u32, AllocError> {
        self.used.sort_unstable_by_key(|used| used.number);
        let mut last = NOT_USED;
        for place in 0..self.used.len() {
            let used = item_at(&self.used, place, NOT_USED);
            if used.number != last.number || used.least != last.least {
                self.note_deed(used, known)?;
            }
            last = used;
        }
        if let Some(deed) = known.clash_deed {
            push(&mut self.deeds, deed)?;
        }
        known.record.add(learned, &self.deeds, &self.grounds)
    }

    fn note_deed(&mut self, used: Used, known: &mut Known) -> Result<(), AllocError> {
        let event = known.trail.event(used.number);
        let literal = Literal::of(event.bound, used.least);
        match known.kept_deed(literal, event.why)? {
            Some(deed) => push(&mut self.deeds, deed),
            None => Ok(()),
        }
    }

    fn clear(&mut self) {
        self.used.clear();
        self.grounds.clear();
        self.deeds.clear();
    }
}

impl Analysis {
    /// Over no bounds.
    pub fn none(alloc: Global) -> Analysis {
        Analysis {
            wanted: Wanted::none(alloc),
            argument: Argument::none(alloc),
            learned: Vec::new(alloc),
            levels: Vec::new(alloc),
            stack: Vec::new(alloc),
            left: 0,
        }
    }

    /// Makes it one over so many bounds. The error says that there was no memory.
    pub fn size(&mut self, bounds: usize) -> Result<(), AllocError> {
        self.wanted.size(bounds)
    }

    // Nothing is needed any longer.
    fn clear(&mut self) {
        self.wanted.clear();
        self.argument.clear();
        self.learned.clear();
        self.levels.clear();
        self.stack.clear();
    }

    /// Learns a clause from the clash, whose last level is the search's, after so many conflicts.
    pub fn analyze(
        &mut self,
        known: &mut Known,
        choice: &mut Choice,
        conflicts: u64,
    ) -> Result<Lesson, AllocError> {
        self.clear();
        for number in 0..known.clash.len() {
            let literal = literal_at(&known.clash, number);
            self.need(literal, known, choice)?;
        }
        let point = self.resolve(known, choice, conflicts)?;
        push(&mut self.learned, point.opposite())?;
        for number in 0..self.wanted.touched.len() {
            let bound = index_at(&self.wanted.touched, number);
            self.keep_or_drop(bound, point, known)?;
        }
        let level = put_second(&mut self.learned, &known.trail);
        let levels = count_levels(&self.learned, &mut self.levels, &known.trail);
        let shown = self.argument.record(&self.learned, known)?;
        choice.forget_some();
        Ok(Lesson {
            level,
            shown,
            levels,
        })
    }

    /// Notes that what is given contradicts itself, by the clash, whose literals hold before the first decision.
    pub fn end(&mut self, known: &mut Known) -> Result<(), AllocError> {
        known.is_open = false;
        self.clear();
        for literal in &known.clash {
            if let Some(number) = known.trail.event_of(*literal) {
                push(&mut self.argument.grounds, number)?;
            }
        }
        let _ = self.argument.record(&self.learned, known)?;
        Ok(())
    }

    // Needs a literal of the clash, or of those by which another one holds.
    fn need(
        &mut self,
        literal: Literal,
        known: &Known,
        choice: &mut Choice,
    ) -> Result<(), AllocError> {
        let Some(number) = known.trail.event_of(literal) else {
            return Ok(());
        };
        if self.argument.is_ground(number, &known.trail)? {
            return Ok(());
        }
        if self.wanted.need(literal, number, &known.trail)? && literal.bound >= known.times {
            choice.ask_for(index(known.block_number(literal)));
        }
        Ok(())
    }

    // Replaces changes of the last level by why they came, the last first, until one is left.
    fn resolve(
        &mut self,
        known: &mut Known,
        choice: &mut Choice,
        conflicts: u64,
    ) -> Result<Literal, AllocError> {
        let count = known.trail.events.len();
        let mut number = index(count);
        for _ in 0..count {
            number = number.wrapping_sub(1);
            let event = known.trail.event(number);
            if self.wanted.change(event.bound) != number {
                continue;
            }
            let literal = self.wanted.literal(event.bound);
            if self.wanted.open <= 1 {
                return Ok(literal);
            }
            self.wanted.leave(event.bound);
            if let Why::Clause(clause) = event.why {
                known.clauses.note_use(clause, conflicts);
            }
            known.explain(literal, event.why)?;
            self.argument.note_used(number, literal)?;
            for place in 0..known.needs.len() {
                let need = literal_at(&known.needs, place);
                self.need(need, known, choice)?;
            }
        }
        Ok(Literal::of(0, 0))
    }

    // What is needed of a bound belongs to the clause, but where the others imply it.
    fn keep_or_drop(
        &mut self,
        bound: u32,
        point: Literal,
        known: &mut Known,
    ) -> Result<(), AllocError> {
        if self.wanted.change(bound) == NONE || bound == point.bound {
            return Ok(());
        }
        let literal = self.wanted.literal(bound);
        if self.is_dropped(literal, known)? {
            return Ok(());
        }
        push(&mut self.learned, literal.opposite())
    }

    // Whether the others imply the literal; then what shows it is noted.
    fn is_dropped(&mut self, literal: Literal, known: &mut Known) -> Result<bool, AllocError> {
        let used = self.argument.used.len();
        let grounds = self.argument.grounds.len();
        self.left = LOOKS;
        if self.is_implied(literal, DEPTH, known)? {
            return Ok(true);
        }
        self.argument.used.truncate(used);
        self.argument.grounds.truncate(grounds);
        Ok(false)
    }

    // Whether all by which a literal came to hold is needed anyway, by earlier changes, or implied in turn.
    fn is_implied(
        &mut self,
        literal: Literal,
        depth: u32,
        known: &mut Known,
    ) -> Result<bool, AllocError> {
        let Some(number) = known.trail.event_of(literal) else {
            return Ok(true);
        };
        let why = known.trail.event(number).why;
        if depth == 0 || self.left == 0 || matches!(why, Why::Decided) {
            return Ok(false);
        }
        let below = depth - 1;
        self.left = self.left.wrapping_sub(1);
        known.explain(literal, why)?;
        self.argument.note_used(number, literal)?;
        let start = self.stack.len();
        self.stack.extend_from_slice(&known.needs)?;
        let end = self.stack.len();
        let mut is_implied = true;
        for place in start..end {
            let need = literal_at(&self.stack, place);
            if !self.is_needed_before(need, number, &known.trail)? {
                is_implied = self.is_implied(need, below, known)?;
            }
            if !is_implied {
                break;
            }
        }
        self.stack.truncate(start);
        Ok(is_implied)
    }

    // Whether a literal held before the first decision, or is needed by a change before this one.
    fn is_needed_before(
        &mut self,
        literal: Literal,
        number: u32,
        trail: &Trail,
    ) -> Result<bool, AllocError> {
        let Some(other) = trail.event_of(literal) else {
            return Ok(true);
        };
        if self.argument.is_ground(other, trail)? {
            return Ok(true);
        }
        Ok(
            self.wanted.change(literal.bound) < number
                && self.wanted.literal(literal.bound).least >= literal.least,
        )
    }
}

fn is_of_last_level(number: u32, trail: &Trail) -> bool {
    trail.event(number).level as usize == trail.level()
}

// Puts a literal of the last level but that of the first one second, and answers that level.
fn put_second(learned: &mut [Literal], trail: &Trail) -> usize {
    let mut level: u32 = 0;
    let mut second: usize = 1;
    for place in 1..learned.len() {
        let own = trail.level_of(literal_at(learned, place).opposite());
        if own > level {
            level = own;
            second = place;
        }
    }
    exchange(learned, 1, second);
    level as usize
}

fn count_levels(learned: &[Literal], levels: &mut Vec<u32>, trail: &Trail) -> u32 {
    for literal in learned {
        let level = trail.level_of(literal.opposite());
        // Without memory a clause may be taken for one of fewer levels.
        let _ = levels.push(level);
    }
    levels.sort_unstable();
    let mut count: u32 = 0;
    let mut last = NONE;
    for level in levels.iter() {
        if *level != last {
            count = count.wrapping_add(1);
        }
        last = *level;
    }
    count
}

//! Writes the argument of what a search found out.
mod facts;
mod moves;
mod script;
mod step;
mod views;

use crate::need::{Needed, needed_for};
use crate::view::Made;
use crate::writing::facts::{pair_side, weight_of};
use crate::writing::script::Script;
use crate::writing::views::{Views, begin_ground, is_plan_alone, settle};
use std::alloc::{AllocError, Global};
use tsn_bounds::known::{Known, is_impossible};
use tsn_bounds::literal::Literal;
use tsn_bounds::number::{NONE, at, index, next, push, sum};
use tsn_bounds::reason::Deed;
use tsn_bounds::trail::Event;
use tsn_cert::{Argument, Goal, Steps};

/// What is shown, of which plan.
#[derive(Clone, Copy)]
pub struct Aim<'a> {
    pub goal: Goal,
    /// The plan's offsets, and its flowspan; without a plan none, and one more than the cycle.
    pub plan: &'a [i64],
    pub flowspan: i64,
}

// An argument that is written.
#[derive(Drop)]
struct Writing<'a> {
    alloc: Global,
    known: &'a Known,
    aim: Aim<'a>,
    views: Views,
    script: Script,
    // The number of each clause that was shown.
    numbers: Vec<u32>,
}

/// The argument for an aim. None where what is known doesn't show it. No decision stands. The error says that there was no memory.
pub fn write_argument(
    alloc: Global,
    known: &mut Known,
    aim: Aim<'_>,
) -> Result<Option<Argument>, AllocError> {
    let needed = needed_of(alloc, known, aim)?;
    let mut writing = begin(alloc, known, aim);
    if !writing.write(&needed)? {
        return Ok(None);
    }
    Ok(Some(Argument {
        goal: aim.goal,
        target: aim.flowspan.unsigned_abs(),
        steps: writing.into_steps(),
    }))
}

fn needed_of(alloc: Global, known: &mut Known, aim: Aim<'_>) -> Result<Needed, AllocError> {
    let goals = goals_of(alloc, known, aim)?;
    needed_for(alloc, known, &goals)
}

// What has to hold in the end.
fn goals_of(alloc: Global, known: &Known, aim: Aim<'_>) -> Result<Vec<Literal>, AllocError> {
    let mut goals = Vec::new(alloc);
    if !known.is_open {
        return Ok(goals);
    }
    push(&mut goals, Literal::of(known.span(), aim.flowspan))?;
    if aim.goal == Goal::First {
        for (stream, offset) in aim.plan.iter().enumerate() {
            let literal = Literal::of(known.least(stream), *offset);
            push(&mut goals, literal)?;
        }
    }
    Ok(goals)
}

fn begin<'a>(alloc: Global, known: &'a Known, aim: Aim<'a>) -> Writing<'a> {
    Writing {
        alloc,
        known,
        aim,
        views: Views::none(alloc),
        script: Script::none(alloc),
        numbers: Vec::new(alloc),
    }
}

impl Writing<'_> {
    // Whether what is written shows the aim.
    fn write(&mut self, needed: &Needed) -> Result<bool, AllocError> {
        self.begin()?;
        if !self.is_ground_impossible() && !self.write_all(needed)? {
            return Ok(false);
        }
        let span = self.known.span();
        Ok(self.is_ground_impossible() || is_plan_alone(&self.views.ground, span, self.aim))
    }

    fn into_steps(self) -> Steps {
        self.script.into_steps()
    }

    fn begin(&mut self) -> Result<(), AllocError> {
        let table = &self.known.table;
        self.numbers.resize(self.known.record.count(), NONE)?;
        self.script.size(table.blocks.len())?;
        self.views.fill(table)?;
        let span = self.known.span();
        begin_ground(&mut self.views.ground, span, self.aim);
        settle(&mut self.views.ground, span, self.aim);
        Ok(())
    }

    fn is_ground_impossible(&self) -> bool {
        is_impossible(&self.views.ground, self.known.times as usize)
    }

    // Writes what is needed, in order. False where something doesn't follow.
    fn write_all(&mut self, needed: &Needed) -> Result<bool, AllocError> {
        let mut following: usize = 0;
        for number in 0..self.known.trail.events.len() {
            if !needed.events.has(number) {
                continue;
            }
            let event = self.known.trail.event(index(number));
            if !self.write_shown_to(&mut following, event.shown as usize, needed)? {
                return Ok(false);
            }
            if self.is_ground_impossible() {
                return self.end();
            }
            if !self.write_event(number)? {
                return Ok(false);
            }
        }
        let count = self.known.record.count();
        if !self.write_shown_to(&mut following, count, needed)? {
            return Ok(false);
        }
        self.end()
    }

    fn end(&mut self) -> Result<bool, AllocError> {
        self.write_ground()?;
        Ok(true)
    }

    // Writes the clauses before this number, as long as something is in question.
    fn write_shown_to(
        &mut self,
        following: &mut usize,
        to: usize,
        needed: &Needed,
    ) -> Result<bool, AllocError> {
        for number in *following..to {
            *following = next(number);
            if !needed.shown.has(number) {
                continue;
            }
            self.write_ground()?;
            if self.is_ground_impossible() {
                return Ok(true);
            }
            if !self.write_shown(number)? {
                return Ok(false);
            }
        }
        Ok(true)
    }

    // A change of the ground.
    fn write_event(&mut self, number: usize) -> Result<bool, AllocError> {
        let known = self.known;
        let event = known.trail.event(index(number));
        let literal = Literal::of(event.bound, event.new);
        let Some(deed) = known.deed_of(literal, event.why) else {
            self.write_ground()?;
            return Ok(at(&self.views.ground, event.bound as usize) >= event.new);
        };
        let is_lean = self.is_lean_enough(deed, event);
        let made = self.write_deed(deed, true, is_lean)?;
        Ok(made != Made::Wrong)
    }

    // Whether the arc of an order that the ground has gives its change.
    fn is_lean_enough(&self, deed: Deed, event: Event) -> bool {
        let Deed::Go(gap) = deed else {
            return false;
        };
        let known = self.known;
        let pair = pair_side(known.times, gap.bound);
        let conflict = self.views.most(pair, true);
        if conflict == NONE {
            return false;
        }
        let weight = weight_of(&known.table, pair, conflict);
        let arc = known.arc_by(gap.bound, weight, event.bound & 1 == 0);
        sum(at(&self.views.ground, arc.from as usize), weight) >= event.new
    }
}

//! The bounds of the variables, and the changes that led to them, one after another.
use crate::literal::Literal;
use crate::number::{NONE, at, index, index_at, item_at, next, push, put, put_index};
use crate::reason::{Filling, Part, Placing, Why};
use std::alloc::{AllocError, Global};

/// A change of a bound.
#[derive(Clone, Copy)]
pub struct Event {
    pub bound: u32,
    /// The change of the same bound before this one.
    pub before: u32,
    /// How many decisions there were.
    pub level: u32,
    /// How many clauses were shown.
    pub shown: u32,
    pub old: i64,
    pub new: i64,
    pub why: Why,
}

const NO_EVENT: Event = Event {
    bound: NONE,
    before: NONE,
    level: 0,
    shown: 0,
    old: 0,
    new: 0,
    why: Why::Decided,
};

// Where a level begins.
#[derive(Clone, Copy)]
struct Mark {
    events: usize,
    placings: usize,
    places: usize,
    fillings: usize,
    needs: usize,
}

/// Bounds and their changes.
#[derive(Drop)]
pub struct Trail {
    pub values: Vec<i64>,
    /// The bounds before the first decision.
    pub ground: Vec<i64>,
    pub events: Vec<Event>,
    pub placings: Vec<Placing>,
    pub fillings: Vec<Filling>,
    /// The others of placings and the frames of fillings, by their places on the links.
    pub places: Vec<u16>,
    /// The literals of fillings.
    pub needs: Vec<Literal>,
    /// How many changes were looked at.
    pub looked: usize,
    // The last change of each bound.
    tops: Vec<u32>,
    // Where each bound stood when it was looked at last what follows from it.
    followed: Vec<i64>,
    marks: Vec<Mark>,
}

impl Trail {
    /// No bounds.
    pub fn none(alloc: Global) -> Trail {
        Trail {
            values: Vec::new(alloc),
            ground: Vec::new(alloc),
            events: Vec::new(alloc),
            placings: Vec::new(alloc),
            fillings: Vec::new(alloc),
            places: Vec::new(alloc),
            needs: Vec::new(alloc),
            looked: 0,
            tops: Vec::new(alloc),
            followed: Vec::new(alloc),
            marks: Vec::new(alloc),
        }
    }

    /// Notes that no bound was changed. The error says that there was no memory.
    pub fn size(&mut self) -> Result<(), AllocError> {
        self.followed.resize(self.values.len(), i64::MIN)?;
        self.tops.resize(self.values.len(), NONE)
    }

    /// How many decisions there are.
    pub fn level(&self) -> usize {
        self.marks.len()
    }

    /// Where the bound stands.
    pub fn value(&self, bound: u32) -> i64 {
        at(&self.values, bound as usize)
    }

    /// Whether the literal holds.
    pub fn is_true(&self, literal: Literal) -> bool {
        at(&self.values, literal.place()) >= literal.least
    }

    /// Whether its opposite holds.
    pub fn is_false(&self, literal: Literal) -> bool {
        self.is_true(literal.opposite())
    }

    /// The change of this number.
    pub fn event(&self, number: u32) -> Event {
        item_at(&self.events, number as usize, NO_EVENT)
    }

    /// The number of the change by which the literal came to hold. None where it held from the start.
    pub fn event_of(&self, literal: Literal) -> Option<u32> {
        let mut number = index_at(&self.tops, literal.place());
        for _ in 0..u32::MAX {
            let event = self.events.get(number as usize)?;
            if event.old < literal.least {
                return Some(number);
            }
            number = event.before;
        }
        None
    }

    /// The level at which the literal came to hold.
    pub fn level_of(&self, literal: Literal) -> u32 {
        match self.event_of(literal) {
            Some(number) => self.event(number).level,
            None => 0,
        }
    }

    /// Keeps a placing of these others as long as the trail needs it, and answers its number.
    pub fn keep_placing(&mut self, placing: Placing, others: &[u16]) -> Result<u32, AllocError> {
        let number = index(self.placings.len());
        let start = self.places.len();
        self.places.extend_from_slice(others)?;
        let kept = Placing {
            others: Part {
                start,
                count: others.len(),
            },
            ..placing
        };
        push(&mut self.placings, kept)?;
        Ok(number)
    }

    /// Keeps a filling of these frames and literals as long as the trail needs it, and answers its number.
    pub fn keep_filling(
        &mut self,
        filling: Filling,
        frames: &[u16],
        needs: &[Literal],
    ) -> Result<u32, AllocError> {
        let number = index(self.fillings.len());
        let kept = Filling {
            frames: Part {
                start: self.places.len(),
                count: frames.len(),
            },
            needs: Part {
                start: self.needs.len(),
                count: needs.len(),
            },
            ..filling
        };
        self.places.extend_from_slice(frames)?;
        self.needs.extend_from_slice(needs)?;
        push(&mut self.fillings, kept)?;
        Ok(number)
    }

    /// Begins a level.
    pub fn open(&mut self) -> Result<(), AllocError> {
        let mark = Mark {
            events: self.events.len(),
            placings: self.placings.len(),
            places: self.places.len(),
            fillings: self.fillings.len(),
            needs: self.needs.len(),
        };
        push(&mut self.marks, mark)
    }

    /// The bound of the first change that wasn't looked at, which is by this.
    pub fn next_change(&mut self) -> Option<u32> {
        let bound = self.events.get(self.looked)?.bound;
        self.looked = next(self.looked);
        Some(bound)
    }

    /// Notes that it's looked at what follows from a bound. False where that was done when it stood where it stands.
    pub fn follow(&mut self, bound: u32) -> bool {
        let value = self.value(bound);
        if at(&self.followed, bound as usize) == value {
            return false;
        }
        put(&mut self.followed, bound as usize, value);
        true
    }

    /// Narrows a bound.
    pub fn change(&mut self, literal: Literal, why: Why, shown: usize) -> Result<(), AllocError> {
        let number = index(self.events.len());
        let event = Event {
            bound: literal.bound,
            before: index_at(&self.tops, literal.place()),
            level: index(self.marks.len()),
            shown: index(shown),
            old: at(&self.values, literal.place()),
            new: literal.least,
            why,
        };
        push(&mut self.events, event)?;
        put_index(&mut self.tops, literal.place(), number);
        put(&mut self.values, literal.place(), literal.least);
        if self.marks.is_empty() {
            put(&mut self.ground, literal.place(), literal.least);
        }
        Ok(())
    }

    /// Takes the last change back, where it is behind the beginning of this level.
    pub fn take_back(&mut self, level: usize) -> Option<Event> {
        let begun = self.marks.get(level)?;
        if self.events.len() <= begun.events {
            return None;
        }
        let event = self.events.pop()?;
        put(&mut self.values, event.bound as usize, event.old);
        put_index(&mut self.tops, event.bound as usize, event.before);
        put(&mut self.followed, event.bound as usize, i64::MIN);
        Some(event)
    }

    /// Ends the levels from this one on, whose changes were taken back.
    pub fn close(&mut self, level: usize) {
        if let Some(mark) = self.marks.get(level) {
            self.placings.truncate(mark.placings);
            self.places.truncate(mark.places);
            self.fillings.truncate(mark.fillings);
            self.needs.truncate(mark.needs);
        }
        self.marks.truncate(level);
        self.looked = self.events.len();
    }
}

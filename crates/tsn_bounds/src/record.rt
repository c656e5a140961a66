//! What was shown: the learned clauses, each with the deeds by which it follows.
use crate::clauses::part_of;
use crate::literal::Literal;
use crate::number::{index, item_at, next, push};
use crate::reason::{Deed, Filling, Packing, Part, Placing, Wasting};
use std::alloc::{AllocError, Global};

// Where a clause begins in each list.
#[derive(Clone, Copy)]
struct ClauseStart {
    literals: usize,
    deeds: usize,
    grounds: usize,
}

/// What was shown, one clause after another.
#[derive(Drop)]
pub struct Record {
    list: Vec<ClauseStart>,
    literals: Vec<Literal>,
    deeds: Vec<Deed>,
    // Changes before the first decision that are needed.
    grounds: Vec<u32>,
    pub placings: Vec<Placing>,
    pub packings: Vec<Packing>,
    pub fillings: Vec<Filling>,
    pub wastings: Vec<Wasting>,
    /// The frames of placings and packings, by their places on the links.
    pub places: Vec<u16>,
    // Bounds of gaps whose arcs lead back to where they begin, later than they began; and where each round begins.
    rounds: Vec<Literal>,
    starts: Vec<usize>,
}

impl Record {
    /// Nothing.
    pub fn none(alloc: Global) -> Record {
        Record {
            list: Vec::new(alloc),
            literals: Vec::new(alloc),
            deeds: Vec::new(alloc),
            grounds: Vec::new(alloc),
            placings: Vec::new(alloc),
            packings: Vec::new(alloc),
            fillings: Vec::new(alloc),
            wastings: Vec::new(alloc),
            places: Vec::new(alloc),
            rounds: Vec::new(alloc),
            starts: Vec::new(alloc),
        }
    }

    /// How many clauses were shown.
    pub fn count(&self) -> usize {
        self.list.len()
    }

    /// Adds a clause, and answers its number.
    pub fn add(
        &mut self,
        literals: &[Literal],
        deeds: &[Deed],
        grounds: &[u32],
    ) -> Result<u32, AllocError> {
        let number = index(self.list.len());
        let end = self.end();
        push(&mut self.list, end)?;
        self.literals.extend_from_slice(literals)?;
        self.deeds.extend_from_slice(deeds)?;
        self.grounds.extend_from_slice(grounds)?;
        Ok(number)
    }

    /// Keeps a placing of these others with what was shown, and answers its number.
    pub fn keep_placing(&mut self, placing: Placing, others: &[u16]) -> Result<u32, AllocError> {
        let number = index(self.placings.len());
        let start = self.places.len();
        self.places.extend_from_slice(others)?;
        let kept = Placing {
            others: Part {
                start,
                count: others.len(),
            },
            kept: number,
            ..placing
        };
        push(&mut self.placings, kept)?;
        Ok(number)
    }

    /// Keeps a filling of these frames with what was shown, and answers its number.
    pub fn keep_filling(&mut self, filling: Filling, frames: &[u16]) -> Result<u32, AllocError> {
        let number = index(self.fillings.len());
        let kept = Filling {
            frames: Part {
                start: self.places.len(),
                count: frames.len(),
            },
            kept: number,
            ..filling
        };
        self.places.extend_from_slice(frames)?;
        push(&mut self.fillings, kept)?;
        Ok(number)
    }

    /// Keeps a wasting of these frames, some of which can't move, and answers its number.
    pub fn keep_wasting(
        &mut self,
        link: u32,
        frames: &[u16],
        fixed: &[u16],
    ) -> Result<u32, AllocError> {
        let number = index(self.wastings.len());
        let start = self.places.len();
        let kept = Wasting {
            link,
            frames: Part {
                start,
                count: frames.len(),
            },
            fixed: Part {
                start: start.wrapping_add(frames.len()),
                count: fixed.len(),
            },
        };
        self.places.extend_from_slice(frames)?;
        self.places.extend_from_slice(fixed)?;
        push(&mut self.wastings, kept)?;
        Ok(number)
    }

    /// Keeps a packing of these frames, and answers its number.
    pub fn keep_packing(&mut self, link: u32, frames: &[u16]) -> Result<u32, AllocError> {
        let number = index(self.packings.len());
        let start = self.places.len();
        self.places.extend_from_slice(frames)?;
        let packing = Packing {
            link,
            frames: Part {
                start,
                count: frames.len(),
            },
        };
        push(&mut self.packings, packing)?;
        Ok(number)
    }

    /// Keeps a round, and answers its number.
    pub fn keep_round(&mut self, round: &[Literal]) -> Result<u32, AllocError> {
        let number = index(self.starts.len());
        push(&mut self.starts, self.rounds.len())?;
        self.rounds.extend_from_slice(round)?;
        Ok(number)
    }

    /// The bounds of a round.
    pub fn round(&self, number: usize) -> &[Literal] {
        let from = item_at(&self.starts, number, self.rounds.len());
        let to = item_at(&self.starts, next(number), self.rounds.len());
        part_of(&self.rounds, from, to.wrapping_sub(from))
    }

    /// The literals of a clause that was shown.
    pub fn literals(&self, number: usize) -> &[Literal] {
        let from = self.begin(number).literals;
        let to = self.begin(next(number)).literals;
        part_of(&self.literals, from, to.wrapping_sub(from))
    }

    /// The deeds by which a clause follows.
    pub fn deeds(&self, number: usize) -> &[Deed] {
        let from = self.begin(number).deeds;
        let to = self.begin(next(number)).deeds;
        if from <= to && to <= self.deeds.len() {
            &self.deeds[from..to]
        } else {
            &[]
        }
    }

    /// The changes before the first decision that a clause needs.
    pub fn grounds(&self, number: usize) -> &[u32] {
        let from = self.begin(number).grounds;
        let to = self.begin(next(number)).grounds;
        if from <= to && to <= self.grounds.len() {
            &self.grounds[from..to]
        } else {
            &[]
        }
    }

    fn begin(&self, number: usize) -> ClauseStart {
        item_at(&self.list, number, self.end())
    }

    // Where the next clause begins.
    fn end(&self) -> ClauseStart {
        ClauseStart {
            literals: self.literals.len(),
            deeds: self.deeds.len(),
            grounds: self.grounds.len(),
        }
    }
}

/// The places of a part of a list of lists.
pub fn places_of(places: &[u16], part: Part) -> &[u16] {
    let end = part.start.wrapping_add(part.count);
    if part.start <= end && end <= places.len() {
        &places[part.start..end]
    } else {
        &[]
    }
}

/// The place at this number; the last possible one where there is none.
pub fn place_at(places: &[u16], number: usize) -> usize {
    item_at(places, number, u16::MAX) as usize
}

/// A place as a short number.
pub fn short(place: usize) -> u16 {
    (place & 0xFFFF) as u16
}

//! Closed chains of arcs: where one raises a bound again and again it's found, and not walked up to the end of the window.
use std::alloc::{AllocError, Global};
use tsn_bounds::known::Known;
use tsn_bounds::literal::Literal;
use tsn_bounds::number::{item_at, less, push, put_item};
use tsn_bounds::reason::{Deed, Why};

// How often an arc raises a bound before a closed chain is looked for.
const OFTEN: u32 = 8;

// The most arcs of a closed chain.
const LONGEST: usize = 128;

// How often arcs raised a bound, in which propagation.
#[derive(Clone, Copy)]
struct Rise {
    time: u64,
    count: u32,
}

const NO_RISE: Rise = Rise { time: 0, count: 0 };

/// How often arcs raised bounds.
#[derive(Drop)]
pub struct Rises {
    list: Vec<Rise>,
    // Which propagation it is.
    time: u64,
    // A closed chain that was found.
    chain: Vec<Literal>,
}

impl Rises {
    /// Of no bounds.
    pub fn none(alloc: Global) -> Rises {
        Rises {
            list: Vec::new(alloc),
            time: 0,
            chain: Vec::new(alloc),
        }
    }

    /// Makes it one of so many bounds. The error says that there was no memory.
    pub fn size(&mut self, bounds: usize) -> Result<(), AllocError> {
        self.list.resize(bounds, NO_RISE)
    }

    /// A propagation begins.
    pub fn begin(&mut self) {
        self.time = self.time.wrapping_add(1);
    }

    // Notes that an arc raised a bound. Whether it's time to look for a closed chain.
    fn is_often(&mut self, bound: usize) -> bool {
        let mut rise = item_at(&self.list, bound, NO_RISE);
        if rise.time != self.time {
            rise = Rise {
                time: self.time,
                count: 0,
            };
        }
        rise.count = rise.count.wrapping_add(1);
        put_item(&mut self.list, bound, rise);
        rise.count % OFTEN == 0
    }

    /// Narrows a bound by the arc of a gap. False at a contradiction, which is noted as the clash.
    pub fn raise_by_arc(
        &mut self,
        known: &mut Known,
        literal: Literal,
        gap: Literal,
    ) -> Result<bool, AllocError> {
        if known.trail.is_true(literal) {
            return Ok(true);
        }
        if !known.raise(literal, Why::Go(gap))? {
            return Ok(false);
        }
        if self.is_often(literal.place()) && find_chain(&mut self.chain, known, literal.bound)? {
            self.note_round(known, literal.bound)?;
            return Ok(false);
        }
        Ok(true)
    }

    // The arcs of a closed chain can't all hold.
    fn note_round(&mut self, known: &mut Known, bound: u32) -> Result<(), AllocError> {
        if bound & 1 == 0 {
            self.chain.reverse();
        }
        known.clash.clear();
        known.clash.extend_from_slice(&self.chain)?;
        let round = known.record.keep_round(&self.chain)?;
        known.clash_deed = Some(Deed::Round(round));
        Ok(())
    }
}

// Looks whether arcs lead from a bound back to it, by going back from its last change.
fn find_chain(chain: &mut Vec<Literal>, known: &Known, bound: u32) -> Result<bool, AllocError> {
    chain.clear();
    let mut literal = Literal::of(bound, known.trail.value(bound));
    for _ in 0..LONGEST {
        let Some(number) = known.trail.event_of(literal) else {
            return Ok(false);
        };
        let event = known.trail.event(number);
        let Why::Go(gap) = event.why else {
            return Ok(false);
        };
        push(chain, gap)?;
        let arc = known.arc(gap, event.bound & 1 == 0);
        if arc.from == bound {
            return Ok(true);
        }
        literal = Literal::of(arc.from, less(event.new, arc.weight));
    }
    Ok(false)
}

//! Better orders: a stream is placed before others, the one that arrives last now and then, and the rest anew.
use crate::dice::Dice;
use crate::network::Body;
use crate::placement::Placement;
use std::alloc::{AllocError, Global};
use tsn_bounds::number::{FAR, at, item_at, next, push, put, put_item, sum};

// How many orders are tried, and after how many that are no better no more are.
const CHANGES: usize = 3000;

const STALE: usize = 1000;

// What the offsets come to: for how many streams there was no room, and the flowspan.
#[derive(Clone, Copy)]
struct Cost {
    left_out: usize,
    flowspan: i64,
}

// The best order so far with its offsets, and the one that is tried.
#[derive(Drop)]
struct Trial {
    best: Vec<usize>,
    tried: Vec<usize>,
    offsets: Vec<i64>,
    worth: Cost,
    // How many orders were tried since one was better.
    stale: usize,
}

impl Placement {
    /// Looks for a better order than the one that stands, up to so much work in all.
    pub(crate) fn try_changes(&mut self, least: i64, last_work: u64) -> Result<(), AllocError> {
        let mut trial = Trial::none(*self.offsets.allocator());
        self.begin_trial(&mut trial)?;
        for _ in 0..CHANGES {
            if trial.stale > STALE || self.work >= last_work || trial.is_enough(least) {
                break;
            }
            let from = trial.change(&mut self.dice, &self.network.bodies);
            self.judge(&mut trial, from)?;
        }
        self.end_trial(&trial)
    }

    fn begin_trial(&mut self, trial: &mut Trial) -> Result<(), AllocError> {
        for place in 0..self.order.len() {
            let stream = self.ranked(place);
            push(&mut trial.best, stream)?;
            push(&mut trial.tried, stream)?;
        }
        trial.offsets.resize(self.streams(), 0)?;
        self.clear();
        self.judge(trial, 0)
    }

    // Places all as in the best order.
    fn end_trial(&mut self, trial: &Trial) -> Result<(), AllocError> {
        self.clear();
        if trial.worth.left_out > 0 {
            return Ok(());
        }
        for stream in 0..self.streams() {
            self.put(stream, at(&trial.offsets, stream))?;
        }
        self.improve()
    }

    // Places the streams in the order that is tried, which is the best one before a rank, and keeps it where it's no worse.
    fn judge(&mut self, trial: &mut Trial, from: usize) -> Result<(), AllocError> {
        let mut cost = self.place_first(trial, from)?;
        for rank in from..trial.tried.len() {
            let stream = item_at(&trial.tried, rank, 0);
            let (low, high) = (self.low(stream), self.high(stream));
            match self.earliest(stream, low, high) {
                Some(offset) => {
                    self.put(stream, offset)?;
                    cost.flowspan = cost.flowspan.max(sum(offset, self.arrival(stream)));
                }
                None => cost.left_out = next(cost.left_out),
            }
            if is_worse(cost, trial.worth) {
                trial.stale = next(trial.stale);
                return Ok(());
            }
        }
        trial.keep(cost, &self.offsets);
        Ok(())
    }

    // Places the streams before a rank as in the best order, and no others.
    fn place_first(&mut self, trial: &Trial, from: usize) -> Result<Cost, AllocError> {
        self.take_others(trial, from);
        let mut cost = Cost {
            left_out: 0,
            flowspan: 0,
        };
        for rank in 0..from {
            let stream = item_at(&trial.tried, rank, 0);
            let offset = at(&trial.offsets, stream);
            if offset < 0 {
                cost.left_out = next(cost.left_out);
                continue;
            }
            if !self.is_placed(stream) {
                self.put(stream, offset)?;
            }
            cost.flowspan = cost.flowspan.max(sum(offset, self.arrival(stream)));
        }
        Ok(cost)
    }

    fn take_others(&mut self, trial: &Trial, from: usize) {
        for rank in 0..trial.tried.len() {
            let stream = item_at(&trial.tried, rank, 0);
            if rank >= from || self.offset(stream) != at(&trial.offsets, stream) {
                self.take(stream);
            }
        }
    }
}

impl Trial {
    fn none(alloc: Global) -> Trial {
        Trial {
            best: Vec::new(alloc),
            tried: Vec::new(alloc),
            offsets: Vec::new(alloc),
            worth: Cost {
                left_out: usize::MAX,
                flowspan: 0,
            },
            stale: 0,
        }
    }

    fn is_enough(&self, least: i64) -> bool {
        self.worth.left_out == 0 && self.worth.flowspan <= least
    }

    // The order that was tried is the best one.
    fn keep(&mut self, cost: Cost, offsets: &[i64]) {
        self.stale = if is_worse(self.worth, cost) {
            0
        } else {
            next(self.stale)
        };
        self.worth = cost;
        for rank in 0..self.tried.len() {
            let stream = item_at(&self.tried, rank, 0);
            put_item(&mut self.best, rank, stream);
            put(&mut self.offsets, stream, at(offsets, stream));
        }
    }

    // Moves a stream, now and then the one that arrives last, before others. The first rank that changes.
    fn change(&mut self, dice: &mut Dice, bodies: &[Body]) -> usize {
        for rank in 0..self.best.len() {
            let stream = item_at(&self.best, rank, 0);
            put_item(&mut self.tried, rank, stream);
        }
        let count = self.best.len();
        let from = if dice.below(2) == 0 {
            self.last_rank(bodies)
        } else {
            dice.below(count)
        };
        let to = if from > 0 {
            dice.below(next(from))
        } else {
            dice.below(count)
        };
        let stream = item_at(&self.tried, from, 0);
        self.move_down(from, to);
        self.move_up(from, to);
        put_item(&mut self.tried, to, stream);
        from.min(to)
    }

    fn move_down(&mut self, from: usize, to: usize) {
        for rank in from..to {
            let stream = item_at(&self.tried, next(rank), 0);
            put_item(&mut self.tried, rank, stream);
        }
    }

    fn move_up(&mut self, from: usize, to: usize) {
        for rank in (to..from).rev() {
            let stream = item_at(&self.tried, rank, 0);
            put_item(&mut self.tried, next(rank), stream);
        }
    }

    // The rank of a stream for which there is no room; else of the one that arrives last.
    fn last_rank(&self, bodies: &[Body]) -> usize {
        let mut last = 0i64;
        let mut found: usize = 0;
        for (rank, stream) in self.best.iter().enumerate() {
            let offset = at(&self.offsets, *stream);
            let arrived = if offset < 0 {
                FAR
            } else {
                sum(offset, arrival_of(bodies, *stream))
            };
            if arrived > last {
                last = arrived;
                found = rank;
            }
        }
        found
    }
}

fn is_worse(one: Cost, other: Cost) -> bool {
    one.left_out > other.left_out || one.left_out == other.left_out && one.flowspan > other.flowspan
}

fn arrival_of(bodies: &[Body], stream: usize) -> i64 {
    match bodies.get(stream) {
        Some(body) => body.arrival,
        None => 0,
    }
}

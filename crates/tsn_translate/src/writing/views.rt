//! What is known while an argument is written: in the ground, and in the view of the step that is written.
use crate::orders::{Held, stronger};
use crate::view::narrow;
use crate::writing::Aim;
use crate::writing::facts::{pair_side, strong};
use std::alloc::{AllocError, Global};
use tsn_bounds::known::Known;
use tsn_bounds::literal::Literal;
use tsn_bounds::number::{at, index};
use tsn_bounds::table::Table;
use tsn_cert::Goal;

/// Numbers and orders.
#[derive(Drop)]
pub struct Views {
    pub ground: Vec<i64>,
    ground_orders: Held,
    /// Of the step that is written, whose orders are those of the ground besides.
    pub view: Vec<i64>,
    orders: Held,
}

impl Views {
    /// Without numbers.
    pub fn none(alloc: Global) -> Views {
        Views {
            ground: Vec::new(alloc),
            ground_orders: Held::none(alloc),
            view: Vec::new(alloc),
            orders: Held::none(alloc),
        }
    }

    /// Begins with a network's numbers.
    pub fn fill(&mut self, table: &Table) -> Result<(), AllocError> {
        table.put_values(&mut self.view)?;
        table.put_values(&mut self.ground)?;
        let (pairs, conflicts) = (table.pairs.len(), table.conflicts.len());
        self.ground_orders.size(pairs, conflicts)?;
        self.orders.size(pairs, conflicts)
    }

    /// The numbers of the ground, or of the view.
    pub fn numbers(&mut self, is_ground: bool) -> &mut [i64] {
        if is_ground {
            &mut self.ground
        } else {
            &mut self.view
        }
    }

    /// The ground, or the view, has an order from here on.
    pub fn gain(&mut self, pair: usize, conflict: u32, is_ground: bool) -> Result<(), AllocError> {
        if is_ground {
            self.ground_orders.gain(pair, conflict)
        } else {
            self.orders.gain(pair, conflict)
        }
    }

    /// Whether it has an order.
    pub fn has(&self, pair: usize, conflict: u32, is_ground: bool) -> bool {
        self.ground_orders.has(pair, conflict) || !is_ground && self.orders.has(pair, conflict)
    }

    /// The conflict that asks for most of those whose order there is; none where there is none.
    pub fn most(&self, pair: usize, is_ground: bool) -> u32 {
        let most = self.ground_orders.most(pair);
        if is_ground {
            most
        } else {
            stronger(pair, most, self.orders.most(pair))
        }
    }

    /// The view at which the step of a clause begins.
    pub fn begin(&mut self, known: &Known, literals: &[Literal]) -> Result<(), AllocError> {
        self.view.clear();
        self.view.extend_from_slice(&self.ground)?;
        self.orders.clear();
        for literal in literals {
            narrow(&mut self.view, literal.opposite());
            if literal.bound >= known.times {
                let pair = pair_side(known.times, literal.bound) ^ 1;
                self.orders.gain(pair, strong(known, *literal))?;
            }
        }
        Ok(())
    }
}

/// What the ground learns from an aim at the beginning.
pub fn begin_ground(ground: &mut [i64], span: u32, aim: Aim<'_>) {
    let most = match aim.goal {
        Goal::First => aim.flowspan,
        Goal::Least | Goal::None => aim.flowspan.wrapping_sub(1),
    };
    narrow(ground, Literal::of(span ^ 1, most.wrapping_neg()));
}

/// What the ground learns by itself.
pub fn settle(ground: &mut [i64], span: u32, aim: Aim<'_>) {
    if aim.goal != Goal::First || at(ground, span as usize) < aim.flowspan {
        return;
    }
    for (stream, offset) in aim.plan.iter().enumerate() {
        let least = index(stream.wrapping_mul(2));
        narrow(ground, Literal::of(least ^ 1, offset.wrapping_neg()));
        if at(ground, least as usize) < *offset {
            break;
        }
    }
}

/// Whether of the schedules in question only the plan is left.
pub fn is_plan_alone(ground: &[i64], span: u32, aim: Aim<'_>) -> bool {
    if aim.goal != Goal::First || at(ground, span as usize) < aim.flowspan {
        return false;
    }
    for (stream, offset) in aim.plan.iter().enumerate() {
        if at(ground, stream.wrapping_mul(2)) < *offset {
            return false;
        }
    }
    true
}

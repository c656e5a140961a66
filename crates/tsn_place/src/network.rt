//! The streams and the lanes of a network.
ghost use Rattle.std.specs.Prelude.{◌<◌};
ghost use Rattle.tsn_model.specs.Network.{stream_count};

use crate::lane::{Lane, Visit};
use crate::uses::{Use, end_of, use_at, uses_of};
use std::alloc::{AllocError, Global};
use tsn_bounds::number::{push, signed, sum};
use tsn_timing::Timing;

/// A stream. Times but the period's are from its offset on.
#[derive(Drop)]
pub struct Body {
    pub period: i64,
    pub arrival: i64,
    /// The least and the greatest offset that it may have.
    pub release: i64,
    pub latest: i64,
    /// In which lanes others can be in its way.
    pub looks: Vec<Visit>,
    /// In which lanes it is in the way of others.
    pub marks: Vec<Visit>,
    /// The longest of its frames on any link; what the busiest of its links has to carry, and all of them.
    pub longest: i64,
    pub busiest: i64,
    pub carried: i64,
}

/// The streams and the lanes of a network, and who uses which link.
#[derive(Drop)]
pub struct Network {
    pub bodies: Vec<Body>,
    pub lanes: Vec<Lane>,
    pub uses: Vec<Use>,
}

// The lane in which streams of this period look for others of which the greatest common divisor with it is this modulus.
#[derive(Clone, Copy)]
struct View {
    period: i64,
    modulus: i64,
    lane: usize,
}

/// Those of a network with its times.
pub fn network_of(alloc: Global, timing: &Timing) -> Result<Network, AllocError> {
    let mut network = Network {
        bodies: Vec::new(alloc),
        lanes: Vec::new(alloc),
        uses: uses_of(alloc, timing)?,
    };
    match network.fill(alloc, timing) {
        Ok(()) => Ok(network),
        Err(error) => {
            drop(network);
            Err(error)
        }
    }
}

fn body_of(alloc: Global, timing: &Timing, stream: usize) -> Body
    requires { stream < stream_count timing.now }
{
    let window = timing.window(stream);
    Body {
        period: signed(timing.period(stream)),
        arrival: signed(timing.arrival(stream)),
        release: signed(window.least),
        latest: window.greatest,
        looks: Vec::new(alloc),
        marks: Vec::new(alloc),
        longest: 0,
        busiest: 0,
        carried: 0,
    }
}

impl Network {
    fn fill(&mut self, alloc: Global, timing: &Timing) -> Result<(), AllocError> {
        for stream in 0..timing.streams() {
            push(&mut self.bodies, body_of(alloc, timing, stream))?;
        }
        self.note_links(alloc)
    }

    fn note_links(&mut self, alloc: Global) -> Result<(), AllocError> {
        let mut views = Vec::new(alloc);
        let mut from: usize = 0;
        for _ in 0..self.uses.len() {
            let to = end_of(&self.uses, from);
            self.note_load(from, to);
            views.clear();
            self.note_views(alloc, &mut views, from, to)?;
            self.note_visits(&views, from, to)?;
            from = to;
            if from >= self.uses.len() {
                break;
            }
        }
        Ok(())
    }

    // Notes of each stream of a link what the link has to carry.
    fn note_load(&mut self, from: usize, to: usize) {
        let load = load_of(&self.uses, from, to);
        for place in from..to {
            let one = use_at(&self.uses, place);
            if let Some(body) = self.bodies.get_mut(one.stream) {
                body.longest = body.longest.max(one.work);
                body.busiest = body.busiest.max(load);
                body.carried = sum(body.carried, load);
            }
        }
    }

    // The views of a link that two streams or more use.
    fn note_views(
        &mut self,
        alloc: Global,
        views: &mut Vec<View>,
        from: usize,
        to: usize,
    ) -> Result<(), AllocError> {
        if to.wrapping_sub(from) < 2 {
            return Ok(());
        }
        let longest = longest_of(&self.uses, from, to);
        let mut periods = Vec::new(alloc);
        note_periods(&mut periods, &self.uses, from, to)?;
        for period in &periods {
            self.note_period(views, *period, &periods, longest)?;
        }
        Ok(())
    }

    // The views of a period.
    fn note_period(
        &mut self,
        views: &mut Vec<View>,
        period: i64,
        periods: &[i64],
        longest: i64,
    ) -> Result<(), AllocError> {
        for other in periods {
            let modulus = common_divisor(period, *other);
            let lane = match lane_of(views, period, modulus) {
                Some(lane) => lane,
                None => self.new_lane(views, period, modulus, longest)?,
            };
            if let Some(lane) = self.lanes.get_mut(lane) {
                lane.admit(*other);
            }
        }
        Ok(())
    }

    fn new_lane(
        &mut self,
        views: &mut Vec<View>,
        period: i64,
        modulus: i64,
        longest: i64,
    ) -> Result<usize, AllocError> {
        let lane = self.lanes.len();
        let alloc = *self.lanes.allocator();
        push(&mut self.lanes, Lane::none(alloc, modulus, longest))?;
        push(
            views,
            View {
                period,
                modulus,
                lane,
            },
        )?;
        Ok(lane)
    }

    fn note_visits(&mut self, views: &[View], from: usize, to: usize) -> Result<(), AllocError> {
        for place in from..to {
            let one = use_at(&self.uses, place);
            if let Some(body) = self.bodies.get_mut(one.stream) {
                note_body(body, views, one)?;
            }
        }
        Ok(())
    }
}

fn note_body(body: &mut Body, views: &[View], one: Use) -> Result<(), AllocError> {
    for view in views {
        if view.period == one.period {
            note_frames(&mut body.looks, view.lane, one)?;
        }
        if view.modulus == common_divisor(view.period, one.period) {
            note_frames(&mut body.marks, view.lane, one)?;
        }
    }
    Ok(())
}

fn note_frames(visits: &mut Vec<Visit>, lane: usize, one: Use) -> Result<(), AllocError> {
    let mut start = one.start;
    for _ in 0..one.burst {
        let visit = Visit {
            lane,
            start,
            work: one.work,
        };
        push(visits, visit)?;
        start = sum(start, one.pace);
    }
    Ok(())
}

fn lane_of(views: &[View], period: i64, modulus: i64) -> Option<usize> {
    for view in views {
        if view.period == period && view.modulus == modulus {
            return Some(view.lane);
        }
    }
    None
}

// The periods of the streams of a link, each once.
fn note_periods(
    periods: &mut Vec<i64>,
    uses: &[Use],
    from: usize,
    to: usize,
) -> Result<(), AllocError> {
    let mut last = 0i64;
    for place in from..to {
        let period = use_at(uses, place).period;
        if period != last {
            push(periods, period)?;
        }
        last = period;
    }
    Ok(())
}

fn load_of(uses: &[Use], from: usize, to: usize) -> i64 {
    let mut load = 0i64;
    for place in from..to {
        load = sum(load, use_at(uses, place).load);
    }
    load
}

fn longest_of(uses: &[Use], from: usize, to: usize) -> i64 {
    let mut longest = 0i64;
    for place in from..to {
        longest = longest.max(use_at(uses, place).work);
    }
    longest
}

fn common_divisor(one: i64, other: i64) -> i64 {
    let mut greater = one;
    let mut lesser = other;
    for _ in 0..128 {
        let Some(rest) = greater.checked_rem(lesser) else {
            break;
        };
        greater = lesser;
        lesser = rest;
    }
    greater
}

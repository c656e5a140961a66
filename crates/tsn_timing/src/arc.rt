//! What decisions ask of the offsets: arcs, and the sums of chains of them.
ghost use Rattle.std.specs.Prelude.{◌≡◌, ◌+ℤ◌, ◌≤ℤ◌, pos};
ghost use Rattle.tsn_model.specs.Schedule.{IsConflict};
ghost use Rattle.tsn_model.specs.Arcs.{arc_of};
ghost use Rattle.tsn_timing.specs.Arcs.{IsSmall};

use crate::timing::Timing;
use tsn_model::{Arc, Decision, Side};

/// Where a chain begins, as far as it was walked back, and the weights of its arcs from there on, added, in nanoseconds.
#[derive(Clone, Copy)]
pub struct ChainSum {
    pub start: usize,
    pub sum: i64,
}

impl ChainSum {
    /// The sum of no arc, at the stream where a chain ends.
    pub fn at(end: usize) -> ChainSum
        ensures start { result.start ≡ end }
        ensures sum { result.sum ≡ pos 0 }
    {
        ChainSum { start: end, sum: 0 }
    }

    /// Goes back over an arc.
    pub fn over(self, arc: Arc) -> ChainSum
        requires low { pos 0 ≤ℤ (self.sum +ℤ pos 1_000_000_000_000) }
        requires high { self.sum ≤ℤ pos 1_000_000_000_000 }
        requires small { IsSmall arc }
        ensures start { result.start ≡ arc.from }
        ensures sum { result.sum ≡ self.sum +ℤ arc.weight }
    {
        ChainSum {
            start: arc.from,
            sum: self.sum + arc.weight,
        }
    }
}

/// What a decision asks of the offsets: the arc from the stream whose frame goes first on the link to the other one.
pub fn arc_of(timing: &Timing, decision: Decision) -> Arc
    requires { IsConflict timing.now decision.triple }
    ensures arc { result ≡ arc_of timing.now decision }
    ensures small { IsSmall result }
{
    // The limits of the network bound the lag.
    let _limits = timing.cycle();
    let triple = decision.triple;
    let (first, second, lag) = match decision.side {
        Side::Left => (triple.left, triple.right, triple.lag),
        Side::Right => (triple.right, triple.left, -triple.lag),
    };
    let Some(first_hop) = timing.hop_on(first, triple.link) else {
        unreachable!();
    };
    let Some(second_hop) = timing.hop_on(second, triple.link) else {
        unreachable!();
    };
    let end = timing.start(first, first_hop) + timing.separation(first, first_hop);
    Arc {
        from: first,
        to: second,
        weight: end as i64 - timing.start(second, second_hop) as i64 - lag,
    }
}

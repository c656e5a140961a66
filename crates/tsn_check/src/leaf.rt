//! Whether a leaf proves its target at the end of a path.
ghost use Rattle.std.specs.Prelude.{◌≡◌, ℕ, ◌≤◌, pos, ◌≤ℤ◌, ◌<ℤ◌, MatchOption};
ghost use Rattle.tsn_model.specs.Certificate.{late, overrun, positive_cycle};
ghost use Rattle.tsn_check.specs.Turns.{AreTurns, decisions};
ghost use Rattle.tsn_check.specs.Steps.{FindsBound, FindsSum};

use crate::chain::{closed_sum, walk_back};
use crate::path::Turn;
use crate::why::{NodeFault, Shortfall};
use tsn_cert::Chain;
use tsn_cert::plan::MAX_TIME;
use tsn_timing::Timing;

/// The sum of a chain to a stream of the network, in nanoseconds: the release of the stream where the chain begins, and
/// the chain's weights.
pub fn sum_to(
    timing: &Timing,
    path: &[Turn],
    stream: usize,
    chain: &Chain,
) -> Result<i64, NodeFault>
    requires { AreTurns timing.now path.now }
    ensures { FindsSum timing.now (decisions path.now) chain.now stream result }
{
    if stream >= timing.streams() {
        return Err(NodeFault::ChainBroken);
    }
    let Some(walk) = walk_back(path, chain, stream) else {
        return Err(NodeFault::ChainBroken);
    };
    Ok(timing.release(walk.start) as i64 + walk.sum)
}

/// Why a bound that has to be at least this isn't enough, if it isn't.
pub fn below(bound: i64, least: u64) -> Option<Shortfall>
    requires { least ≤ MAX_TIME }
    ensures { MatchOption result (pos least ≤ℤ bound) (λ short. (bound <ℤ pos least) × (short ≡ Shortfall.Bound bound least)) }
{
    if bound < least as i64 {
        Some(Shortfall::Bound { bound, least })
    } else {
        None
    }
}

/// Whether the stream arrives at the target or after it; else when, at the soonest.
pub fn judge_late(
    timing: &Timing,
    target: u64,
    path: &[Turn],
    stream: usize,
    chain: &Chain,
) -> Result<Option<Shortfall>, NodeFault>
    requires turns { AreTurns timing.now path.now }
    requires target { target ≤ MAX_TIME }
    ensures { FindsBound timing.now target (decisions path.now) (late stream chain.now) result }
{
    let sum = sum_to(timing, path, stream, chain)?;
    Ok(below(sum + timing.arrival(stream) as i64, target))
}

/// Whether the stream starts behind its window: it ends behind its period, or arrives after its latest instant; else when it
/// ends and arrives, at the soonest.
#[tactic(auto, unfolding(tsn_model::specs::Schedule::latest_offset))]
pub fn judge_overrun(
    timing: &Timing,
    path: &[Turn],
    stream: usize,
    chain: &Chain,
) -> Result<Option<Shortfall>, NodeFault>
    requires { AreTurns timing.now path.now }
    ensures { (target : ℕ) → FindsBound timing.now target (decisions path.now) (overrun stream chain.now) result }
{
    let sum = sum_to(timing, path, stream, chain)?;
    if sum > timing.window(stream).greatest {
        return Ok(None);
    }
    Ok(Some(Shortfall::Overrun {
        stream,
        end: sum + timing.span(stream) as i64,
        period: timing.period(stream),
        cycle: timing.cycle(),
        arrival: sum + timing.arrival(stream) as i64,
        latest: timing.latest(stream),
    }))
}

/// Whether the closed chain's sum is above 0; else the sum.
pub fn judge_cycle(
    timing: &Timing,
    path: &[Turn],
    chain: &Chain,
) -> Result<Option<Shortfall>, NodeFault>
    requires { AreTurns timing.now path.now }
    ensures { (target : ℕ) → FindsBound timing.now target (decisions path.now) (positive_cycle chain.now) result }
{
    let Some(sum) = closed_sum(path, chain) else {
        return Err(NodeFault::ChainBroken);
    };
    if sum > 0 {
        Ok(None)
    } else {
        Ok(Some(Shortfall::Cycle { sum }))
    }
}

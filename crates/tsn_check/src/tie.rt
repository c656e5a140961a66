//! Whether a tie is one with the plan: its leaf has the plan's flowspan for its bound, and no schedule on its path comes
//! before the plan.
ghost use Rattle.std.specs.Prelude.{◌≡◌, ℕ, MatchBool};
ghost use Rattle.tsn_model.specs.Network.{IsWellFormed};
ghost use Rattle.tsn_model.specs.Schedule.{IsValid};
ghost use Rattle.tsn_model.specs.Certificate.{Leaf, HasBound, AreChains, ShowsAfter, tie_node};
ghost use Rattle.tsn_check.specs.Plans.{offsets_in, span_in, IsPlanRight};
ghost use Rattle.tsn_check.specs.Turns.{AreTurns, decisions};
ghost use Rattle.tsn_check.specs.Steps.{Judges, FindsBound, FindsChains};

use crate::leaf::sum_to;
use crate::path::Turn;
use crate::why::{NodeFault, Shortfall};
use tsn_cert::{Chain, Chains, Plan};
use tsn_timing::Timing;

/// The flowspan of the plan, 0 where it is that there is no schedule, in nanoseconds.
pub fn span_of(plan: &Plan) -> u64
    ensures { result ≡ span_in plan.now }
{
    match plan {
        Plan::Schedule { flowspan, .. } => *flowspan,
        Plan::None => 0,
    }
}

/// Whether each chain leads to the stream of its number.
fn all_lead(timing: &Timing, path: &[Turn], chains: &[Chain]) -> Result<(), NodeFault>
    requires { AreTurns timing.now path.now }
    ensures { FindsChains timing.now (decisions path.now) chains.now result }
{
    for stream in 0..chains.len() {
        sum_to(timing, path, stream, &chains[stream])?;
    }
    Ok(())
}

/// Whether the chains show that no schedule on the path comes before the offsets.
fn comes_after(timing: &Timing, path: &[Turn], chains: &[Chain], offsets: &[u64]) -> bool
    requires turns { AreTurns timing.now path.now }
    requires formed { IsWellFormed timing.now }
    requires chains { AreChains timing.now (decisions path.now) chains.now }
    requires valid { IsValid timing.now offsets.now }
    ensures { MatchBool result
        (ShowsAfter timing.now (decisions path.now) chains.now offsets.now)
        (ShowsAfter timing.now (decisions path.now) chains.now offsets.now → ⊥) }
{
    for stream in 0..chains.len() {
        let Ok(sum) = sum_to(timing, path, stream, &chains[stream]) else {
            return false;
        };
        let offset = offsets[stream] as i64;
        if sum > offset {
            return true;
        }
        if sum < offset {
            return false;
        }
    }
    if chains.len() == timing.streams() {
        true
    } else {
        false
    }
}

/// Whether the leaf, judged by the plan's flowspan, and the chains are a tie with the plan.
pub fn judge_tie(
    timing: &Timing,
    path: &[Turn],
    found: Result<Option<Shortfall>, NodeFault>,
    chains: &Chains,
    plan: &Plan,
) -> Result<(), NodeFault>
    requires turns { AreTurns timing.now path.now }
    requires formed { IsWellFormed timing.now }
    requires plan { IsPlanRight timing.now plan.now }
    ensures { (proof : Leaf) (target : ℕ) → HasBound proof → FindsBound timing.now (span_in plan.now) (decisions path.now) proof found
        → Judges timing.now target (offsets_in plan.now) (decisions path.now) (tie_node proof chains.now) result }
{
    let short = found?;
    all_lead(timing, path, chains.list())?;
    let Plan::Schedule { offsets, .. } = plan else {
        return Err(NodeFault::TieOfNone);
    };
    if let Some(short) = short {
        return Err(NodeFault::TieTooLow(short));
    }
    if comes_after(timing, path, chains.list(), offsets.list()) {
        Ok(())
    } else {
        Err(NodeFault::TieSooner)
    }
}

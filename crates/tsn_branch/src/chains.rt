//! The chains that show the least offsets of a path.
ghost use Rattle.std.specs.Prelude.{◌≡◌, ◌≤◌, ◌<◌, ℕ, List, length, IfOk, MatchOption};
ghost use Rattle.tsn_model.specs.declared.Decision.{Decision};
ghost use Rattle.tsn_model.specs.Network.{IsWellFormed, stream_count};
ghost use Rattle.tsn_model.specs.Schedule.{ComesBefore, IsNotAfter};
ghost use Rattle.tsn_model.specs.Arcs.{arcs_of};
ghost use Rattle.tsn_diff.specs.Answers.{Solves};
ghost use Rattle.tsn_diff.specs.Offsets.{chain_of};
ghost use Rattle.tsn_branch.specs.Chains.{chains_upto, IsCompared};
ghost use Rattle.tsn_branch.specs.Look.{ShowsUpto};
ghost use Rattle.tsn_branch.specs.Releases.{releases_of};

use std::alloc::Global;
use tsn_cert::{Chain, Chains};
use tsn_diff::{Forest, Least};
use tsn_model::NoMemory;
use tsn_timing::{Timing, Valid};

/// The chain that shows a stream's least offset.
pub fn chain_to(alloc: Global, least: &Least, stream: usize) -> Result<Chain, NoMemory>
    requires stream { stream < length least.now.offsets }
    requires short { length (chain_of least.now stream) ≤ 128 }
    ensures { IfOk result (λ chain. chain ≡ chain_of least.now stream) }
{
    chain_along(alloc, least.chain(alloc, stream)?)
}

/// A chain of decisions at these depths.
pub fn chain_along(alloc: Global, depths: Vec<usize>) -> Result<Chain, NoMemory>
    requires { length depths.items ≤ 128 }
    ensures { IfOk result (λ chain. chain ≡ depths.items) }
{
    let chain = Chain::of(alloc, &depths);
    drop(depths);
    chain
}

/// The chains that show the least offsets of this many streams.
pub fn chains_to(alloc: Global, least: &Least, count: usize) -> Result<Forest, NoMemory>
    requires some { 1 ≤ count }
    requires within { count ≤ length least.now.offsets }
    ensures { IfOk result (λ chains. chains ≡ chains_upto least.now count) }
{
    least.forest(alloc, count)
}

/// The chains that show that no schedule on the path comes before the best one: up to the first stream at which the least
/// offsets differ from it, or else of all. None where the least offsets come before it.
pub fn tie_chains(
    alloc: Global,
    timing: &Timing,
    least: &Least,
    best: &Valid,
) -> Result<Option<Forest>, NoMemory>
    requires formed { IsWellFormed timing.now }
    requires some_path { (path : List Decision) × Solves (releases_of timing.now) (arcs_of timing.now path) least.now }
    requires count { length best.now ≡ stream_count timing.now }
    ensures { IfOk result (λ found. MatchOption found (ComesBefore least.now.offsets best.now)
        (λ chains. IsNotAfter best.now least.now.offsets
        × ((path : List Decision) → Solves (releases_of timing.now) (arcs_of timing.now path) least.now
        → ShowsUpto timing.now path least.now.offsets best.now chains))) }
{
    // The network stands in the contract alone.
    let _ = timing;
    let Some(count) = compared(least.offsets(), best.offsets()) else {
        return Ok(None);
    };
    Ok(Some(chains_to(alloc, least, count)?))
}

// How many streams go up to the first at which the offsets differ from the best ones, or else all. None where the offsets
// come before those.
fn compared(offsets: &[u64], best: &[u64]) -> Option<usize>
    requires some { 1 ≤ length offsets.now }
    requires count { length best.now ≡ length offsets.now }
    ensures { MatchOption result (ComesBefore offsets.now best.now) (IsCompared offsets.now best.now) }
{
    for stream in 0..offsets.len() {
        if offsets[stream] < best[stream] {
            return None;
        }
        if offsets[stream] > best[stream] {
            return Some(stream + 1);
        }
    }
    Some(offsets.len())
}

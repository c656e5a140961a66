//! Chains of a path's arcs, walked back from where they end, and added up.
ghost use Rattle.std.specs.Prelude.{◌≡◌, All, MatchOption};
ghost use Rattle.tsn_model.specs.Arcs.{IsChainTo, IsClosedChain, chain_sum};
ghost use Rattle.tsn_check.specs.Turns.{arcs, IsSmallTurn, IsWalk};

use crate::path::Turn;
use tsn_cert::Chain;
use tsn_timing::ChainSum;

/// Walks a chain back from the stream where it is to end; nothing where the depths are no chain of the path to that stream.
pub fn walk_back(path: &[Turn], chain: &Chain, end: usize) -> Option<ChainSum>
    requires small { All IsSmallTurn path.now }
    ensures { MatchOption result (IsChainTo (arcs path.now) chain.now end → ⊥) (IsWalk (arcs path.now) chain.now end) }
{
    let mut walk = ChainSum::at(end);
    for number in (0..chain.len()).rev() {
        let depth = chain.at(number);
        if depth >= path.len() {
            return None;
        }
        let arc = path[depth].arc;
        if arc.to != walk.start {
            return None;
        }
        walk = walk.over(arc);
    }
    Some(walk)
}

/// The sum of a closed chain; nothing where the depths are none of the path.
pub fn closed_sum(path: &[Turn], chain: &Chain) -> Option<i64>
    requires small { All IsSmallTurn path.now }
    ensures { MatchOption result (IsClosedChain (arcs path.now) chain.now → ⊥)
        (λ sum. IsClosedChain (arcs path.now) chain.now × (sum ≡ chain_sum (arcs path.now) chain.now)) }
{
    if chain.len() == 0 {
        return None;
    }
    let last = chain.at(chain.len() - 1);
    if last >= path.len() {
        return None;
    }
    let end = path[last].arc.to;
    let walk = walk_back(path, chain, end)?;
    if walk.start == end {
        Some(walk.sum)
    } else {
        None
    }
}

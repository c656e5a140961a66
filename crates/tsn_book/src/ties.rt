//! The order of offsets, and what chains show of it.
ghost use Rattle.std.specs.Prelude.{◌≡◌, ◌≤◌, length, All, MatchBool};
ghost use Rattle.tsn_model.specs.Schedule.{IsConflict, IsValid, comes_before};
ghost use Rattle.tsn_model.specs.Certificate.{LeadsTo, AreChains, ShowsAfter, sum_on};

use tsn_conflict::Decision;
use tsn_diff::{Forest, Walk};
use tsn_timing::{ChainSum, Timing, arc_of};

/// Whether the first list has the lesser number where the lists first differ.
pub fn comes_before(offsets: &[u64], others: &[u64]) -> bool
    ensures { result ≡ comes_before offsets.now others.now }
{
    for k in 0..offsets.len().min(others.len()) {
        if offsets[k] != others[k] {
            return offsets[k] < others[k];
        }
    }
    false
}

/// Whether the chains show that no schedule on the path comes before the offsets: at the first stream at which the sums of
/// the chains and the offsets differ the sum is greater, or there is none and a chain leads to each stream.
pub fn shows_after(timing: &Timing, path: &[Decision], chains: &Forest, offsets: &[u64]) -> bool
    requires decided { All (λ decision. IsConflict timing.now decision.triple) path.now }
    requires chains { AreChains timing.now path.now chains.now }
    requires valid { IsValid timing.now offsets.now }
    ensures { MatchBool result (ShowsAfter timing.now path.now chains.now offsets.now) (ShowsAfter timing.now path.now chains.now offsets.now → ⊥) }
{
    for stream in 0..chains.len() {
        let sum = sum_on(timing, path, stream, chains.walk(stream));
        let Ok(sum) = u64::try_from(sum) else {
            // It's below 0, and no offset is.
            return false;
        };
        if sum != offsets[stream] {
            return sum > offsets[stream];
        }
    }
    chains.len() == timing.streams()
}

// The sum of a chain to a stream, in nanoseconds: the release of the stream where it begins, and the chain's weights.
fn sum_on(timing: &Timing, path: &[Decision], stream: usize, chain: Walk<'_>) -> i64
    requires decided { All (λ decision. IsConflict timing.now decision.triple) path.now }
    requires leads { LeadsTo timing.now path.now chain stream }
    requires short { length chain ≤ 128 }
    ensures adds { result ≡ sum_on timing.now path.now chain.entry stream }
{
    let mut left = chain;
    let mut walk = ChainSum::at(stream);
    while let Some(depth) = left.back() {
        walk = walk.over(arc_of(timing, path[depth]));
    }
    timing.release(walk.start) as i64 + walk.sum
}

//! Whether numbers that a file names are shifts, lags and conflicts.
ghost use Rattle.std.specs.Prelude.{◌<◌, ◌≤ℤ◌, pos, MatchBool};
ghost use Rattle.std.proofs.Common.{neg_ℤ};
ghost use Rattle.tsn_model.specs.Schedule.{IsConflict};

use crate::timing::Timing;
use tsn_model::Triple;

impl Timing {
    ghost use Rattle.tsn_model.specs.Timing.{Sends};
    ghost use Rattle.tsn_model.specs.Schedule.{IsLag};
    ghost use Rattle.tsn_model.specs.Network.{stream_count};
    ghost use Rattle.tsn_timing.specs.Judgement.{ComesAfter};

    /// Whether a stream, of any number, starts a frame so long after its offset.
    pub fn is_shift(&self, stream: usize, shift: u64) -> bool
        ensures { MatchBool result (Sends self.now stream shift) (Sends self.now stream shift → ⊥) }
    {
        if stream >= self.streams() {
            return false;
        }
        let period = self.period(stream);
        for place in 0..self.burst(stream) {
            let before = place * self.pace(stream);
            if before <= shift {
                let begin = shift - before;
                if begin % period == 0 && begin / period < self.turns(stream) {
                    return true;
                }
            }
        }
        false
    }

    /// Whether some frame of a stream comes so long after one of another, were both offsets 0, and the two may meet. The numbers may
    /// be any.
    pub fn is_lag(&self, left: usize, right: usize, lag: i64) -> bool
        ensures { MatchBool result (IsLag self.now left right lag) (IsLag self.now left right lag → ⊥) }
    {
        if left >= self.streams() || right >= self.streams() {
            return false;
        }
        if lag >= self.period(left) as i64 || lag <= -(self.period(right) as i64) {
            return false;
        }
        // The stream with fewer frames is the one to go through.
        if self.shifts(left).len() <= self.shifts(right).len() {
            self.comes_after(left, right, lag)
        } else {
            self.comes_after(right, left, -lag)
        }
    }

    // Whether some frame of another stream comes so long after one of a stream, were both offsets 0.
    fn comes_after(&self, stream: usize, other: usize, lag: i64) -> bool
        requires stream { stream < stream_count self.now }
        requires low { neg_ℤ (pos 1_000_000_000) ≤ℤ lag }
        requires high { lag ≤ℤ pos 1_000_000_000 }
        ensures { MatchBool result (ComesAfter self.now stream other lag) (ComesAfter self.now stream other lag → ⊥) }
    {
        for &first in self.shifts(stream) {
            let second = first as i64 + lag;
            if second >= 0 && self.is_shift(other, second as u64) {
                return true;
            }
        }
        false
    }
}

/// Whether the triple is two different streams, the lesser one on the left, a link that both use, and a lag of theirs.
pub fn is_conflict(timing: &Timing, triple: Triple) -> bool
    ensures { MatchBool result (IsConflict timing.now triple) (IsConflict timing.now triple → ⊥) }
{
    triple.left < triple.right
        && triple.right < timing.streams()
        && timing.hop_on(triple.left, triple.link).is_some()
        && timing.hop_on(triple.right, triple.link).is_some()
        && timing.is_lag(triple.left, triple.right, triple.lag)
}

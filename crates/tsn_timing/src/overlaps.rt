//! The first overlap of two streams' frames by some offsets.
ghost use Rattle.std.specs.Prelude.{◌≡◌, ◌≤◌, ◌<◌, ◌⊎◌, ◌≤ℤ◌, ℤ, length, All, MatchOption, nat_lt, if◌then◌else◌};

use crate::timing::Timing;
use tsn_model::Triple;

impl Timing {
    ghost use Rattle.tsn_model.specs.Network.{stream_count, hop_count, route_link};
    ghost use Rattle.tsn_model.specs.Schedule.{IsFirstOverlap, AreApart};
    ghost use Rattle.tsn_timing.specs.Judgement.{IsNear, IsAfter, IsBetween, IsLeastBetween, AreApartOn, IsLeastOverlap, ArePairApart, IsFirstOverlapWith, HasNoOverlap, IsFirstOverlapOf};

    /// The first triple whose frames overlap on its link.
    pub(crate) fn first_overlap(&self, offsets: &[u64]) -> Option<Triple>
        requires count { length offsets.now ≡ stream_count self.now }
        requires small { All (λ offset. offset ≤ self.now.cycle) offsets.now }
        ensures { MatchOption result (AreApart self.now offsets.now) (IsFirstOverlap self.now offsets.now) }
    {
        if self.frames_follow(offsets) {
            return None;
        }
        for left in 0..self.streams() {
            if let Some(triple) = self.first_overlap_of(left, offsets) {
                return Some(triple);
            }
        }
        None
    }

    // The first triple of this left stream whose frames overlap.
    fn first_overlap_of(&self, left: usize, offsets: &[u64]) -> Option<Triple>
        requires left { left < stream_count self.now }
        requires count { length offsets.now ≡ stream_count self.now }
        requires small { All (λ offset. offset ≤ self.now.cycle) offsets.now }
        ensures { MatchOption result (HasNoOverlap self.now offsets.now left) (IsFirstOverlapOf self.now offsets.now left) }
    {
        for right in left + 1..self.streams() {
            if let Some(triple) = self.first_overlap_with(left, right, offsets) {
                return Some(triple);
            }
        }
        None
    }

    // The first triple of two streams whose frames overlap.
    fn first_overlap_with(&self, left: usize, right: usize, offsets: &[u64]) -> Option<Triple>
        requires order { left < right }
        requires right { right < stream_count self.now }
        requires count { length offsets.now ≡ stream_count self.now }
        requires small { All (λ offset. offset ≤ self.now.cycle) offsets.now }
        ensures { MatchOption result (ArePairApart self.now offsets.now left right) (IsFirstOverlapWith self.now offsets.now left right) }
    {
        let mut first = None;
        for hop in 0..self.hops(left) {
            if let Some(lag) = self.least_overlap(left, hop, right, offsets) {
                let link = self.route_link(left, hop);
                first = Some(sooner(
                    first,
                    Triple {
                        left,
                        right,
                        link,
                        lag,
                    },
                ));
            }
        }
        first
    }

    // The least lag by which frames of two streams overlap on the link of a hop of the left one.
    fn least_overlap(&self, left: usize, hop: usize, right: usize, offsets: &[u64]) -> Option<i64>
        requires order { left < right }
        requires right { right < stream_count self.now }
        requires hop { hop < hop_count self.now left }
        requires count { length offsets.now ≡ stream_count self.now }
        requires small { All (λ offset. offset ≤ self.now.cycle) offsets.now }
        ensures { MatchOption result (AreApartOn self.now offsets.now left right (route_link self.now left hop))
            (IsLeastOverlap self.now offsets.now left right (route_link self.now left hop)) }
    {
        // The limits of the network bound the sums.
        let _limits = self.cycle();
        let Some(other) = self.hop_on(right, self.route_link(left, hop)) else {
            return None;
        };
        let first = offsets[left] + self.start(left, hop);
        let second = offsets[right] + self.start(right, other);
        let gap = first as i64 - second as i64;
        let above = gap - self.separation(right, other) as i64;
        let below = gap + self.separation(left, hop) as i64;
        self.least_lag(
            left,
            right,
            above.max(-(self.period(right) as i64)),
            below.min(self.period(left) as i64),
        )
    }

    // The least number by which a frame of the right stream comes after one of the left stream, above one number and below
    // another.
    fn least_lag(&self, left: usize, right: usize, above: i64, below: i64) -> Option<i64>
        requires left { left < stream_count self.now }
        requires right { right < stream_count self.now }
        requires above { IsNear above }
        requires below { IsNear below }
        ensures { MatchOption result ((lag : ℤ) → IsBetween self.now left right above below lag → ⊥)
            (IsLeastBetween self.now left right above below) }
    {
        let mut least = below;
        for &first in self.shifts(left) {
            least = self.least_after(right, first, above, least);
        }
        if least < below { Some(least) } else { None }
    }

    // The least number by which a frame of a stream comes after a shift of another one's, above one number and below another,
    // which it is where there is none.
    fn least_after(&self, stream: usize, first: u64, above: i64, below: i64) -> i64
        requires stream { stream < stream_count self.now }
        requires small { first ≤ 2_000_000_000 }
        requires above { IsNear above }
        requires below { IsNear below }
        ensures within { result ≤ℤ below }
        ensures reached { (result ≡ below) ⊎ IsAfter self.now stream first above below result }
        ensures least { (lag : ℤ) → IsAfter self.now stream first above below lag → result ≤ℤ lag }
    {
        let mut least = below;
        let from = first as i64;
        for &second in self.shifts_between(stream, from + above, from + below) {
            let lag = second as i64 - from;
            if above < lag && lag < least {
                least = lag;
            }
        }
        least
    }
}

// The triple of the lesser link, if there is a first one.
fn sooner(first: Option<Triple>, triple: Triple) -> Triple
    ensures { MatchOption first (result ≡ triple) (λ other. result ≡ (if nat_lt other.link triple.link then other else triple)) }
{
    match first {
        Some(other) if other.link < triple.link => other,
        _ => triple,
    }
}

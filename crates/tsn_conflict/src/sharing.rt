//! The conflicts of a network, with the numbers that their arcs need.
ghost use Rattle.std.specs.Prelude.{◌≡◌, ◌≤◌, ◌<◌, ◌↔◌, ◌+ℤ◌, ◌≤ℤ◌, ◌<ℤ◌, ℕ, pos, IsTrue, length, All, Contains, MatchOption};
ghost use Rattle.std.proofs.Common.{neg_ℤ};
ghost use Rattle.tsn_model.specs.Network.{Network, stream_count};
ghost use Rattle.tsn_model.specs.Timing.{separation, UsesLink, start_on};
ghost use Rattle.tsn_model.specs.Schedule.{IsFirstOverlap, Overlaps, AreApart};
ghost use Rattle.tsn_model.specs.Arcs.{arc_between, arc_on};
ghost use Rattle.tsn_conflict.specs.Kept.{AreConflictsOf};
ghost use Rattle.tsn_conflict.specs.Raised.{triple_at, OnlyRaisedOverlap};
ghost use Rattle.tsn_conflict.specs.Pairs.{AreApartBetween, IsApartBefore, IsInUses, IsNextMeeting, Meets, pair_in, numbers_with};

use crate::numbers::Numbers;
use crate::pairs::Pair;
use crate::uses::{Row, Use, look_up};
use std::marker::Model;
use tsn_model::bounds::{MAX_OCCUPANCY, MAX_START};
use tsn_model::{Arc, Side, Triple};
use tsn_timing::{Timing, is_conflict};

/// The triples of two streams, a link that both use and a lag, with when each stream is on each link.
#[derive(Drop)]
pub struct Conflicts {
    pub(crate) timing: Timing,
    pub(crate) rows: Vec<Row>,
    pub(crate) triples: Vec<Triple>,
    pub(crate) pairs: Vec<Pair>,
    pub(crate) numbers: Vec<Numbers>,
}

impl Model for Conflicts {
    ghost use Rattle.tsn_conflict.specs.Kept.{Kept};
    ghost use Rattle.tsn_conflict.specs.Rows.{uses_in};
    ghost use Rattle.tsn_conflict.specs.Pairs.{IsTabled, numbers_in};

    ghost Value = { Kept };

    ghost view = { λ conflicts. record { uses = uses_in conflicts.rows.items; triples = conflicts.triples.items } };

    ghost invariant = { λ conflicts. IsTabled conflicts.timing
        (record { uses = uses_in conflicts.rows.items; triples = conflicts.triples.items })
        conflicts.pairs.items (numbers_in conflicts.numbers.items) };
}

impl Conflicts {
    /// The triples, by the left stream, then the right one, then the link, then the lag.
    pub fn triples(&self) -> &[Triple]
        ensures { result.now ≡ self.now.triples }
    {
        &self.triples
    }

    /// Whether the triple, of any numbers, is one of them.
    pub fn has(&self, triple: Triple) -> bool
        ensures { IsTrue result ↔ Contains self.now.triples triple }
    {
        is_conflict(&self.timing, triple)
    }

    /// What it asks of the offsets that the frame of this stream of the triple goes first on the link: the other one's starts
    /// there no earlier than it has kept it.
    pub fn arc(&self, triple: Triple, side: Side) -> Arc
        requires { Contains self.now.triples triple }
        ensures value { (network : Network) → AreConflictsOf network self.now → result ≡ arc_on network triple side }
        ensures from { result.from < length self.now.uses }
        ensures to { result.to < length self.now.uses }
        ensures least { neg_ℤ (pos 1_210_000_000) ≤ℤ result.weight }
        ensures most { result.weight ≤ℤ pos 1_210_000_000 }
    {
        // The limits of the network bound the lag.
        let _ = &self.timing;
        match side {
            Side::Left => self.arc_between(triple.left, triple.right, triple.link, triple.lag),
            Side::Right => self.arc_between(triple.right, triple.left, triple.link, -triple.lag),
        }
    }

    /// The least triple whose frames overlap on its link, for an offset of each stream, at most 1,000,000,000 ns.
    pub fn first_violated(&self, offsets: &[u64]) -> Option<Triple>
        requires count { length offsets.now ≡ length self.now.uses }
        requires small { All (λ offset. offset ≤ 1_000_000_000) offsets.now }
        ensures { (network : Network) → AreConflictsOf network self.now →
            MatchOption result (AreApart network offsets.now) (IsFirstOverlap network offsets.now) }
    {
        let number = self.meeting_from(offsets, 0)?;
        Some(self.triples[number])
    }

    /// The number of the least triple whose frames overlap on its link, for an offset of each stream, at most
    /// 1,000,000,000 ns, where it's known that of the triples before number `start` only those with a raised stream may
    /// overlap. This reads the raised streams' triples alone before that number, and each triple from it on.
    pub fn first_violated_from(
        &self,
        offsets: &[u64],
        raised: &[usize],
        start: usize,
    ) -> Option<usize>
        requires count { length offsets.now ≡ length self.now.uses }
        requires small { All (λ offset. offset ≤ 1_000_000_000) offsets.now }
        requires raised { All (λ stream. stream < length self.now.uses) raised.now }
        requires start { start ≤ length self.now.triples }
        requires apart_before { OnlyRaisedOverlap self.now offsets.now raised.now start }
        ensures { (network : Network) → AreConflictsOf network self.now → MatchOption result (AreApart network offsets.now)
            (λ number. (number < length self.now.triples) × IsFirstOverlap network offsets.now (triple_at self.now.triples number)) }
    {
        let least = self.raised_meeting(offsets, raised, start);
        if least < start {
            return Some(least);
        }
        self.meeting_from(offsets, start)
    }

    /// Whether the frames of the triple of a number overlap on its link, for an offset of each stream, at most
    /// 1,000,000,000 ns.
    pub fn is_violated(&self, offsets: &[u64], number: usize) -> bool
        requires count { length offsets.now ≡ length self.now.uses }
        requires small { All (λ offset. offset ≤ 1_000_000_000) offsets.now }
        requires number { number < length self.now.triples }
        ensures { (network : Network) → AreConflictsOf network self.now
            → (IsTrue result ↔ Overlaps network offsets.now (triple_at self.now.triples number)) }
    {
        self.meets(offsets, number)
    }

    // The arc of a frame of stream `first` before one of stream `second`, that is later by the lag, on a link that both use.
    fn arc_between(&self, first: usize, second: usize, link: usize, lag: i64) -> Arc
        requires first { (network : Network) → AreConflictsOf network self.now → UsesLink network first link }
        requires second { (network : Network) → AreConflictsOf network self.now → UsesLink network second link }
        requires not_before { pos 0 <ℤ (lag +ℤ pos 1_000_000_000) }
        requires not_after { lag <ℤ pos 1_000_000_000 }
        ensures value { (network : Network) → AreConflictsOf network self.now → result ≡ arc_between network first second link lag }
        ensures from { result.from < length self.now.uses }
        ensures to { result.to < length self.now.uses }
        ensures least { neg_ℤ (pos 1_210_000_000) ≤ℤ result.weight }
        ensures most { result.weight ≤ℤ pos 1_210_000_000 }
    {
        let before = self.use_on(first, link);
        let after = self.use_on(second, link);
        Arc {
            from: first,
            to: second,
            weight: (before.start + before.separation) as i64 - after.start as i64 - lag,
        }
    }

    // The least number below `end` whose triple has a raised stream and overlaps; `end` where there is none.
    fn raised_meeting(&self, offsets: &[u64], raised: &[usize], end: usize) -> usize
        requires count { length offsets.now ≡ length self.now.uses }
        requires small { All (λ offset. offset ≤ 1_000_000_000) offsets.now }
        requires raised { All (λ stream. stream < length self.now.uses) raised.now }
        requires end { end ≤ length self.now.triples }
        ensures at_most { result ≤ end }
        ensures meets { result < end → Meets self.now.uses offsets.now (triple_at self.now.triples result) }
        ensures apart { All (IsApartBefore self.now offsets.now result) raised.now }
    {
        let mut least = end;
        for &stream in raised {
            least = self.meeting_with(offsets, stream, least);
        }
        least
    }

    // The least number below `end` whose triple has the stream and overlaps; `end` where there is none.
    fn meeting_with(&self, offsets: &[u64], stream: usize, end: usize) -> usize
        requires count { length offsets.now ≡ length self.now.uses }
        requires small { All (λ offset. offset ≤ 1_000_000_000) offsets.now }
        requires stream { stream < length self.now.uses }
        requires end { end ≤ length self.now.triples }
        ensures at_most { result ≤ end }
        ensures meets { result < end → Meets self.now.uses offsets.now (triple_at self.now.triples result) }
        ensures apart { IsApartBefore self.now offsets.now result stream }
    {
        for &number in self.numbers_with(stream) {
            if number >= end {
                break;
            }
            if self.meets(offsets, number) {
                return number;
            }
        }
        end
    }

    // The least number from `start` on whose triple overlaps.
    fn meeting_from(&self, offsets: &[u64], start: usize) -> Option<usize>
        requires count { length offsets.now ≡ length self.now.uses }
        requires small { All (λ offset. offset ≤ 1_000_000_000) offsets.now }
        ensures { MatchOption result (AreApartBetween self.now offsets.now start (length self.now.triples))
            (IsNextMeeting self.now offsets.now start) }
    {
        for number in start..self.triples.len() {
            if self.meets(offsets, number) {
                return Some(number);
            }
        }
        None
    }

    // Whether the frames of the triple of a number overlap on its link.
    fn meets(&self, offsets: &[u64], number: usize) -> bool
        requires count { length offsets.now ≡ length self.now.uses }
        requires small { All (λ offset. offset ≤ 1_000_000_000) offsets.now }
        requires number { number < length self.now.triples }
        ensures { IsTrue result ↔ Meets self.now.uses offsets.now (triple_at self.now.triples number) }
    {
        let pair = self.pair_at(number);
        let gap = offsets[pair.left as usize] as i64 - offsets[pair.right as usize] as i64;
        i64::from(pair.above) < gap && gap < i64::from(pair.below)
    }

    // What the overlap of the triple of a number needs.
    fn pair_at(&self, number: usize) -> Pair
        requires { number < length self.now.triples }
        ensures value { result ≡ pair_in self.now.uses (triple_at self.now.triples number) }
        ensures within { IsInUses self.now.uses (triple_at self.now.triples number) }
    {
        self.pairs[number]
    }

    fn numbers_with(&self, stream: usize) -> &[usize]
        requires { stream < length self.now.uses }
        ensures { result.now ≡ numbers_with self.now.triples stream }
    {
        &self.numbers[stream].numbers
    }

    fn use_on(&self, stream: usize, link: usize) -> Use
        requires { (network : Network) → AreConflictsOf network self.now → UsesLink network stream link }
        ensures counted { stream < length self.now.uses }
        ensures early { result.start ≤ MAX_START }
        ensures short { result.separation ≤ MAX_OCCUPANCY }
        ensures start { (network : Network) → AreConflictsOf network self.now → result.start ≡ start_on network stream link }
        ensures separation { (network : Network) → AreConflictsOf network self.now → result.separation ≡ separation network stream link }
    {
        look_up(&self.rows, stream, link)
    }
}

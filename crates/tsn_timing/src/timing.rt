//! The timing of a network, and the judgement of offsets.
ghost use Rattle.std.specs.Prelude.{◌≡◌, ◌+◌, ◌≤◌, ◌<◌, ◌↔◌, ℕ, IsTrue, length, All, AllPairs, Contains, Some, IfOk, IfErr, MatchOption};

use crate::tables::{StreamTable, tables_of};
use crate::users::{User, Users, users_of};
use crate::valid::Valid;
use std::alloc::Global;
use std::marker::Model;
use tsn_model::bounds::{MAX_OCCUPANCY, MAX_SPAN, MAX_SPREAD, MAX_START};
use tsn_model::plain::PlainNetwork;
use tsn_model::{Link, NoMemory, Violation};

/// Whether offsets are a valid schedule.
#[derive(Clone, Copy, PartialEq, Eq)]
pub enum Validity {
    /// They are.
    Valid,
    /// They aren't, and this is the first reason.
    Refused(Violation),
}

/// A network with the times of its streams, in nanoseconds. Directed links and streams are numbered
/// from 0. The readings of the network are those of `plain`, at hand here for callers that ask for
/// them often.
#[derive(Drop)]
pub struct Timing {
    network: PlainNetwork,
    tables: Vec<StreamTable>,
    users: Vec<Users>,
}

impl Model for Timing {
    ghost use Rattle.tsn_model.specs.Network.{Network};

    ghost Value = { Network };

    ghost view = { λ timing. timing.network };

    ghost use Rattle.tsn_timing.specs.Tables.{AreTables};
    ghost use Rattle.tsn_timing.specs.Users.{AreUsers};

    ghost invariant = { λ timing. AreTables timing.network timing.tables.items × AreUsers timing.network timing.users.items };
}

impl Timing {
    ghost use Rattle.tsn_model.specs.Network.{IsWellFormed, stream_count, turns_of, period_of, burst_of, hop_count, route_link, link_at, release_of, latest_of};
    ghost use Rattle.tsn_model.specs.Timing.{occupancy, separation, pace, spread, shifts, start, arrival, span, hop_on};
    ghost use Rattle.tsn_model.specs.Schedule.{IsValid, IsFirstViolation, FitsPeriod, IsReleased, IsInTime, flowspan};
    ghost use Rattle.tsn_timing.specs.Users.{users_of};
    ghost use Rattle.tsn_timing.specs.Judgement.{Judges, IsFirstPastPeriod, IsFirstEarly, IsFirstTooLate};

    /// The timing of a network, which it keeps a copy of. The error says that there was no memory.
    pub fn of(alloc: Global, network: &PlainNetwork) -> Result<Timing, NoMemory>
        ensures { IfOk result (λ timing. timing ≡ network.now) }
    {
        let network = network.copy(alloc)?;
        Timing::over(alloc, network)
    }

    /// The timing of a network, which it takes. The error says that there was no memory.
    pub fn over(alloc: Global, network: PlainNetwork) -> Result<Timing, NoMemory>
        ensures { IfOk result (λ timing. timing ≡ network) }
    {
        let tables = tables_of(alloc, &network)?;
        let users = users_of(alloc, &network)?;
        Ok(Timing {
            network,
            tables,
            users,
        })
    }

    /// The same timing once more. The error says that there was no memory.
    pub fn copy(&self, alloc: Global) -> Result<Timing, NoMemory>
        ensures { IfOk result (λ timing. timing ≡ self.now) }
    {
        Timing::of(alloc, &self.network)
    }

    /// The same network as the plain program has it, which works out each number anew.
    pub fn plain(&self) -> &PlainNetwork
        ensures { result.now ≡ self.now }
    {
        &self.network
    }

    /// Where its memory is from.
    pub(crate) fn allocator(&self) -> Global {
        *self.tables.allocator()
    }

    /// The cycle, in nanoseconds, 1 to 1,000,000,000. The contract says beside it that the network is within its limits.
    pub fn cycle(&self) -> u64
        ensures value { result ≡ self.now.cycle }
        ensures well_formed { IsWellFormed self.now }
        ensures bound { result ≤ 1_000_000_000 }
    {
        self.network.cycle()
    }

    /// How early frames may be ready on each link, in nanoseconds, at most 1,000,000.
    pub fn slack(&self) -> u64
        ensures value { result ≡ self.now.slack }
        ensures bound { result ≤ 1_000_000 }
    {
        self.network.slack()
    }

    /// How many directed links there are, at most 4,096.
    pub fn links(&self) -> usize
        ensures value { result ≡ length self.now.links }
        ensures few { result ≤ 4_096 }
    {
        self.network.links()
    }

    /// A directed link, with its times in nanoseconds.
    pub fn link(&self, link: usize) -> Link
        requires { link < length self.now.links }
        ensures { result ≡ link_at self.now link }
    {
        self.network.link(link)
    }

    /// How many streams there are, 1 to 2,048.
    pub fn streams(&self) -> usize
        ensures value { result ≡ stream_count self.now }
        ensures some { 1 ≤ result }
        ensures few { result ≤ 2_048 }
    {
        self.network.streams()
    }

    /// How many periods of a stream make the cycle.
    pub fn turns(&self, stream: usize) -> u64
        requires { stream < stream_count self.now }
        ensures value { result ≡ turns_of self.now stream }
        ensures some { 1 ≤ result }
    {
        self.network.turns(stream)
    }

    /// The period of a stream, in nanoseconds, 1 to 1,000,000,000.
    pub fn period(&self, stream: usize) -> u64
        requires { stream < stream_count self.now }
        ensures value { result ≡ period_of self.now stream }
        ensures some { 1 ≤ result }
        ensures bound { result ≤ 1_000_000_000 }
    {
        self.tables[stream].period
    }

    /// How many frames a stream sends in each of its periods, 1 to 16.
    pub fn burst(&self, stream: usize) -> u64
        requires { stream < stream_count self.now }
        ensures value { result ≡ burst_of self.now stream }
        ensures some { 1 ≤ result }
        ensures few { result ≤ 16 }
    {
        self.network.burst(stream)
    }

    /// How long after each other the frames of a burst start, in nanoseconds, at most `MAX_OCCUPANCY`.
    pub fn pace(&self, stream: usize) -> u64
        requires { stream < stream_count self.now }
        ensures value { result ≡ pace self.now stream }
        ensures bound { result ≤ MAX_OCCUPANCY }
    {
        self.tables[stream].pace
    }

    /// How long after the first frame of a period the last one starts, in nanoseconds, at most `MAX_SPREAD`.
    pub fn spread(&self, stream: usize) -> u64
        requires { stream < stream_count self.now }
        ensures value { result ≡ spread self.now stream }
        ensures bound { result ≤ MAX_SPREAD }
    {
        self.tables[stream].spread
    }

    /// How long after its offset a stream starts each frame of the cycle, in nanoseconds, each at most 1,000,000,000 and
    /// `MAX_SPREAD`.
    pub fn shifts(&self, stream: usize) -> &[u64]
        requires { stream < stream_count self.now }
        ensures value { result.now ≡ shifts self.now stream }
        ensures bound { All (λ shift. shift ≤ 1_000_000_000 + MAX_SPREAD) result.now }
    {
        &self.tables[stream].shifts
    }

    /// The least offset that a stream may have, in nanoseconds, at most 1,000,000,000.
    pub fn release(&self, stream: usize) -> u64
        requires { stream < stream_count self.now }
        ensures value { result ≡ release_of self.now stream }
        ensures bound { result ≤ 1_000_000_000 }
    {
        self.network.release(stream)
    }

    /// The instant, counted from a period's start, by which a stream has to arrive, in nanoseconds, 1 to 1,000,000,000.
    pub fn latest(&self, stream: usize) -> u64
        requires { stream < stream_count self.now }
        ensures value { result ≡ latest_of self.now stream }
        ensures some { 1 ≤ result }
        ensures bound { result ≤ 1_000_000_000 }
    {
        self.network.latest(stream)
    }

    /// How many hops a stream's route has, 1 to 64.
    pub fn hops(&self, stream: usize) -> usize
        requires { stream < stream_count self.now }
        ensures value { result ≡ hop_count self.now stream }
        ensures some { 1 ≤ result }
        ensures few { result ≤ 64 }
    {
        self.network.hops(stream)
    }

    /// The directed link of a hop.
    pub fn route_link(&self, stream: usize, hop: usize) -> usize
        requires stream { stream < stream_count self.now }
        requires hop { hop < hop_count self.now stream }
        ensures value { result ≡ route_link self.now stream hop }
        ensures exists { result < length self.now.links }
    {
        self.network.route_link(stream, hop)
    }

    /// How long a stream's frame occupies the link of a hop, with the interframe gap, in nanoseconds, 1 to `MAX_OCCUPANCY`.
    pub fn occupancy(&self, stream: usize, hop: usize) -> u64
        requires stream { stream < stream_count self.now }
        requires hop { hop < hop_count self.now stream }
        ensures value { result ≡ occupancy self.now stream (route_link self.now stream hop) }
        ensures some { 1 ≤ result }
        ensures bound { result ≤ MAX_OCCUPANCY }
    {
        self.tables[stream].hops[hop].occupancy
    }

    /// How long from its start a stream's frame keeps the link of a hop to itself: as long as it occupies it, and for more than
    /// the slack; in nanoseconds, 1 to `MAX_OCCUPANCY`.
    pub fn separation(&self, stream: usize, hop: usize) -> u64
        requires stream { stream < stream_count self.now }
        requires hop { hop < hop_count self.now stream }
        ensures value { result ≡ separation self.now stream (route_link self.now stream hop) }
        ensures some { 1 ≤ result }
        ensures bound { result ≤ MAX_OCCUPANCY }
    {
        self.tables[stream].hops[hop].separation
    }

    /// When a stream's frame starts on a hop, counted from the stream's offset, in nanoseconds, at most `MAX_START`.
    pub fn start(&self, stream: usize, hop: usize) -> u64
        requires stream { stream < stream_count self.now }
        requires hop { hop < hop_count self.now stream }
        ensures value { result ≡ start self.now stream hop }
        ensures bound { result ≤ MAX_START }
    {
        self.tables[stream].hops[hop].start
    }

    /// When the last octet of a stream's period is at each listener, counted from the stream's offset, in nanoseconds, at most
    /// `MAX_SPAN`.
    pub fn arrival(&self, stream: usize) -> u64
        requires { stream < stream_count self.now }
        ensures value { result ≡ arrival self.now stream }
        ensures bound { result ≤ MAX_SPAN }
    {
        self.tables[stream].arrival
    }

    /// When a period's last frame keeps no link any more, or its arrival where that is later, counted from the stream's offset,
    /// in nanoseconds, at most `MAX_SPAN`.
    pub fn span(&self, stream: usize) -> u64
        requires { stream < stream_count self.now }
        ensures value { result ≡ span self.now stream }
        ensures bound { result ≤ MAX_SPAN }
    {
        self.tables[stream].span
    }

    /// The hop on which a stream uses a link, if it does.
    pub fn hop_on(&self, stream: usize, link: usize) -> Option<usize>
        requires { stream < stream_count self.now }
        ensures { result ≡ hop_on self.now stream link }
    {
        self.network.hop_on(stream, link)
    }

    /// The streams that use a link, ascending, and the hop of each.
    pub fn users(&self, link: usize) -> &[User]
        requires { link < length self.now.links }
        ensures value { result.now ≡ users_of self.now link }
        ensures hops { All (λ user. hop_on self.now user.stream link ≡ Some user.hop) result.now }
        ensures all { (stream hop : ℕ) → hop_on self.now stream link ≡ Some hop → Contains result.now (record { stream = stream; hop = hop }) }
        ensures ascending { AllPairs (λ first second. first.stream < second.stream) result.now }
    {
        &self.users[link].list
    }

    /// Whether the offsets are a valid schedule, and if not, the first reason: their count, then the first stream that
    /// isn't done within its period, then the first overlap, then the first stream before its release, then the first that
    /// arrives after its latest instant. The offsets may be of any size and number.
    pub fn validity(&self, offsets: &[u64]) -> Validity
        ensures { Judges self.now offsets.now result }
    {
        if offsets.len() != self.streams() {
            return Validity::Refused(Violation::WrongCount);
        }
        if let Some(stream) = self.first_past_period(offsets) {
            return Validity::Refused(Violation::PastCycle(stream));
        }
        if let Some(triple) = self.first_overlap(offsets) {
            return Validity::Refused(Violation::Overlap(triple));
        }
        if let Some(stream) = self.first_early(offsets) {
            return Validity::Refused(Violation::Early(stream));
        }
        match self.first_too_late(offsets) {
            Some(stream) => Validity::Refused(Violation::TooLate(stream)),
            None => Validity::Valid,
        }
    }

    /// Whether the offsets are a valid schedule.
    pub fn is_valid(&self, offsets: &[u64]) -> bool
        ensures { IsTrue result ↔ IsValid self.now offsets.now }
    {
        match self.validity(offsets) {
            Validity::Valid => true,
            Validity::Refused(_) => false,
        }
    }

    /// The offsets as a valid schedule; else the first reason why they are none, and the offsets back.
    pub fn valid(&self, offsets: Vec<u64>) -> Result<Valid, (Violation, Vec<u64>)>
        ensures same { IfOk result (λ valid. valid ≡ offsets.items) }
        ensures valid { IfOk result (λ valid. IsValid self.now valid) }
        ensures refused { IfErr result (λ refusal. IsFirstViolation self.now offsets.items refusal.0) }
        ensures returned { IfErr result (λ refusal. refusal.1 ≡ offsets) }
    {
        match self.validity(&offsets) {
            Validity::Valid => Ok(Valid::new(offsets)),
            Validity::Refused(violation) => Err((violation, offsets)),
        }
    }

    /// The longest from the start of a stream's period until its last frame has arrived, in nanoseconds.
    pub fn flowspan(&self, offsets: &[u64]) -> u64
        requires count { length offsets.now ≡ stream_count self.now }
        requires small { All (λ offset. offset ≤ self.now.cycle) offsets.now }
        ensures value { result ≡ flowspan self.now offsets.now }
        ensures bound { result ≤ self.now.cycle + MAX_SPAN }
    {
        // The limits of the network bound the sums.
        let _ = &self.network;
        let mut last: u64 = 0;
        for stream in 0..self.streams() {
            last = last.max(offsets[stream] + self.arrival(stream));
        }
        last
    }

    // The first stream that, put at its offset, isn't done within its period.
    fn first_past_period(&self, offsets: &[u64]) -> Option<usize>
        requires { length offsets.now ≡ stream_count self.now }
        ensures { MatchOption result
            ((i : ℕ) → i < stream_count self.now → FitsPeriod self.now offsets.now i)
            (λ i. IsFirstPastPeriod self.now offsets.now i) }
    {
        for stream in 0..self.streams() {
            let offset = offsets[stream];
            let period = self.period(stream);
            if offset > period || offset + self.span(stream) > period {
                return Some(stream);
            }
        }
        None
    }

    // The first stream that, put at its offset, starts before its release.
    fn first_early(&self, offsets: &[u64]) -> Option<usize>
        requires { length offsets.now ≡ stream_count self.now }
        ensures { MatchOption result
            ((i : ℕ) → i < stream_count self.now → IsReleased self.now offsets.now i)
            (λ i. IsFirstEarly self.now offsets.now i) }
    {
        for stream in 0..self.streams() {
            if offsets[stream] < self.release(stream) {
                return Some(stream);
            }
        }
        None
    }

    // The first stream that, put at its offset, arrives after its latest instant.
    fn first_too_late(&self, offsets: &[u64]) -> Option<usize>
        requires count { length offsets.now ≡ stream_count self.now }
        requires small { All (λ offset. offset ≤ self.now.cycle) offsets.now }
        ensures { MatchOption result
            ((i : ℕ) → i < stream_count self.now → IsInTime self.now offsets.now i)
            (λ i. IsFirstTooLate self.now offsets.now i) }
    {
        // The limits of the network bound the sums.
        let _ = &self.network;
        for stream in 0..self.streams() {
            if offsets[stream] + self.arrival(stream) > self.latest(stream) {
                return Some(stream);
            }
        }
        None
    }
}

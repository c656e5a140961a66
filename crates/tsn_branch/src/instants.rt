//! When the streams are done by a list of offsets.
ghost use Rattle.std.specs.Prelude.{◌≡◌, ◌+◌, ◌≤◌, ◌<◌, ◌↔◌, ◌⊎◌, IsTrue, length, All, MatchBool, MatchOption, min};
ghost use Rattle.std.specs.Option.{option_map_or};
ghost use Rattle.tsn_model.specs.Network.{stream_count};
ghost use Rattle.tsn_model.specs.Schedule.{flowspan};
ghost use Rattle.tsn_branch.specs.Look.{IsDone, IsOverdue, AllFit, IsFirstOverrun, IsFirstLast};
ghost use Rattle.tsn_branch.specs.Ends.{AreEnds, OthersFit, EndedBefore};

use tsn_timing::Timing;

/// When the streams are done by a list of offsets.
#[derive(Clone, Copy)]
pub enum Ends {
    /// This stream is the first that isn't done within its period, or arrives after its latest instant.
    Overrun(usize),
    /// All streams are; this one is the first that arrives last, at this instant, in nanoseconds.
    Within { last: usize, end: u64 },
}

/// When the streams are done. The offsets may be of any size.
pub fn ends_of(timing: &Timing, offsets: &[u64]) -> Ends
    requires { length offsets.now ≡ stream_count timing.now }
    ensures { AreEnds timing.now offsets.now result }
{
    if let Some(stream) = first_overrun(timing, offsets) {
        return Ends::Overrun(stream);
    }
    // The limits of the network bound the sums.
    let _cycle = timing.cycle();
    let (last, end) = last_arrival(timing, offsets);
    Ends::Within { last, end }
}

/// The same where only some streams were raised, and before that all were done in time, and `last` was the first
/// that arrived last, at the instant `end`.
pub fn ends_after(timing: &Timing, offsets: &[u64], raised: &[usize], last: usize, end: u64) -> Ends
    requires count { length offsets.now ≡ stream_count timing.now }
    requires raised { All (λ stream. stream < stream_count timing.now) raised.now }
    requires before { EndedBefore timing.now raised.now offsets.now last end }
    ensures { AreEnds timing.now offsets.now result }
{
    if let Some(stream) = first_overrun_among(timing, offsets, raised) {
        return Ends::Overrun(stream);
    }
    // The limits of the network bound the sums.
    let _cycle = timing.cycle();
    let (last, end) = last_arrival_among(timing, offsets, raised, last, end);
    Ends::Within { last, end }
}

// The first stream that isn't done within its period, or arrives after its latest instant. The offsets may be of any size.
fn first_overrun(timing: &Timing, offsets: &[u64]) -> Option<usize>
    requires { length offsets.now ≡ stream_count timing.now }
    ensures { MatchOption result (AllFit timing.now offsets.now) (IsFirstOverrun timing.now offsets.now) }
{
    for stream in 0..timing.streams() {
        if overruns(timing, offsets, stream) {
            return Some(stream);
        }
    }
    None
}

// The first stream that arrives last, and when, in nanoseconds.
fn last_arrival(timing: &Timing, offsets: &[u64]) -> (usize, u64)
    requires count { length offsets.now ≡ stream_count timing.now }
    requires small { All (λ offset. offset ≤ 1_000_000_000) offsets.now }
    ensures stream { IsFirstLast timing.now offsets.now result.0 }
    ensures instant { result.1 ≡ flowspan timing.now offsets.now }
{
    let streams = timing.streams();
    let mut last = 0;
    let mut end = offsets[0] + timing.arrival(0);
    for stream in 1..streams {
        let arrival = offsets[stream] + timing.arrival(stream);
        if arrival > end {
            last = stream;
            end = arrival;
        }
    }
    (last, end)
}

// The same where only these streams may not be done in time.
fn first_overrun_among(timing: &Timing, offsets: &[u64], raised: &[usize]) -> Option<usize>
    requires count { length offsets.now ≡ stream_count timing.now }
    requires raised { All (λ stream. stream < stream_count timing.now) raised.now }
    requires others { OthersFit timing.now raised.now offsets.now }
    ensures { MatchOption result (AllFit timing.now offsets.now) (IsFirstOverrun timing.now offsets.now) }
{
    let mut first = None;
    for &stream in raised {
        if overruns(timing, offsets, stream) {
            first = Some(lesser(first, stream));
        }
    }
    first
}

// Whether a stream, put at its offset, isn't done within its period, or arrives after its latest instant.
#[tactic(auto, unfolding(tsn_model::specs::Schedule::latest_offset))]
fn overruns(timing: &Timing, offsets: &[u64], stream: usize) -> bool
    requires stream { stream < stream_count timing.now }
    requires count { length offsets.now ≡ stream_count timing.now }
    ensures { MatchBool result (IsOverdue timing.now offsets.now stream) (IsDone timing.now offsets.now stream) }
{
    let offset = offsets[stream];
    let greatest = timing.window(stream).greatest;
    offset > 1_000_000_000 || offset as i64 > greatest
}

// The lesser of two streams, of which the first may be missing.
fn lesser(first: Option<usize>, stream: usize) -> usize
    ensures { result ≡ option_map_or (λ other. min other stream) first stream }
{
    match first {
        Some(other) => other.min(stream),
        None => stream,
    }
}

// The first stream that arrives last, and when, in nanoseconds, after these streams were raised; before that it was `last`,
// at the instant `end`.
fn last_arrival_among(
    timing: &Timing,
    offsets: &[u64],
    raised: &[usize],
    mut last: usize,
    mut end: u64,
) -> (usize, u64)
    requires count { length offsets.now ≡ stream_count timing.now }
    requires small { All (λ offset. offset ≤ 1_000_000_000) offsets.now }
    requires raised { All (λ stream. stream < stream_count timing.now) raised.now }
    requires before { EndedBefore timing.now raised.now offsets.now last end }
    ensures stream { IsFirstLast timing.now offsets.now result.0 }
    ensures instant { result.1 ≡ flowspan timing.now offsets.now }
{
    for &stream in raised {
        let arrival = offsets[stream] + timing.arrival(stream);
        if !is_later(arrival, stream, end, last) {
            continue;
        }
        last = stream;
        end = arrival;
    }
    (last, end)
}

// Whether a stream's arrival makes it the first that arrives last, in place of `last` at the instant `end`.
fn is_later(arrival: u64, stream: usize, end: u64, last: usize) -> bool
    ensures { IsTrue result ↔ (end < arrival) ⊎ ((arrival ≡ end) × (stream < last)) }
{
    arrival > end || arrival == end && stream < last
}

//! What a stream gets.
ghost use Rattle.std.specs.Prelude.{◌≡◌, ◌<◌, IfOk};
ghost use Rattle.tsn_model.specs.Network.{stream_count};
ghost use Rattle.tsn_model.specs.Schedule.{IsValid};
ghost use Rattle.tsn_chart.specs.Shares.{stream_share, stream_shares};

use std::alloc::{AllocError, Global};
use tsn_model::NoMemory;
use tsn_timing::{Timing, Valid};

/// What a stream gets by a schedule, in nanoseconds.
#[derive(Clone, Copy)]
pub struct StreamShare {
    /// The stream.
    pub stream: usize,
    /// When its sender starts the first frame of each period, counted from the period's start.
    pub offset: u64,
    /// How long each of its frames is on its way: from its start at the sender until its last octet is there, at the last of
    /// several listeners.
    pub latency: u64,
    /// When the last frame of a period has arrived, counted from the period's start.
    pub arrival: u64,
    /// What is left from then to its latest instant.
    pub to_latest: u64,
    /// How long its frames of a period take the route: from its offset until the last one has arrived and each link of its
    /// route is free of it, the gap behind it included.
    pub span: u64,
    /// What is left of the period from then on.
    pub to_period_end: u64,
    /// Its period.
    pub period: u64,
    /// How many frames it sends in each period.
    pub frames: u64,
}

/// What a stream gets by a valid schedule.
#[tactic(auto, unfolding(crate::specs::Shares::stream_share, tsn_model::specs::Timing::arrival))]
pub fn stream_share(timing: &Timing, valid: &Valid, stream: usize) -> StreamShare
    requires stream { stream < stream_count timing.now }
    requires valid { IsValid timing.now valid.now }
    ensures { result ≡ stream_share timing.now valid.now stream }
{
    // The network is within its limits.
    let _limits = timing.cycle();
    let period = timing.period(stream);
    let offset = valid.offsets()[stream];
    let arrival = offset + timing.arrival(stream);
    let span = timing.span(stream);
    StreamShare {
        stream,
        offset,
        latency: timing.arrival(stream) - timing.spread(stream),
        arrival,
        to_latest: timing.latest(stream).saturating_sub(arrival),
        span,
        to_period_end: period.saturating_sub(offset + span),
        period,
        frames: timing.burst(stream),
    }
}

/// What each stream gets by a valid schedule, in stream order.
///
/// # Errors
///
/// There was no memory.
pub fn stream_shares(
    alloc: Global,
    timing: &Timing,
    valid: &Valid,
) -> Result<Vec<StreamShare>, NoMemory>
    requires { IsValid timing.now valid.now }
    ensures { IfOk result (λ shares. shares.items ≡ stream_shares timing.now valid.now) }
{
    Ok(shares_of(alloc, timing, valid)?)
}

fn shares_of(alloc: Global, timing: &Timing, valid: &Valid) -> Result<Vec<StreamShare>, AllocError>
    requires { IsValid timing.now valid.now }
    ensures { IfOk result (λ shares. shares.items ≡ stream_shares timing.now valid.now) }
{
    let mut shares = Vec::new(alloc);
    for stream in 0..timing.streams() {
        shares.push(stream_share(timing, valid, stream))?;
    }
    Ok(shares)
}

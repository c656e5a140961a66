//! What a listener gets, where a stream has several or is heard by two ways.
ghost use Rattle.std.specs.Prelude.{◌≡◌, ◌<◌, All, IfOk, length, map};
ghost use Rattle.tsn_model.specs.Network.{hop_count, stream_count};
ghost use Rattle.tsn_chart.specs.Listeners.{ListenersArrive, listener_share, listener_shares};

use crate::stream::StreamShare;
use std::alloc::{AllocError, Global};
use tsn_model::NoMemory;
use tsn_timing::{Timing, several_ends};

/// What the listener at the end of a hop gets of a stream, in nanoseconds.
#[derive(Clone, Copy)]
pub struct ListenerShare {
    /// The link by which it hears the stream; the node where it ends is the listener.
    pub link: usize,
    /// How long each frame is on its way: from its start at the sender until its last octet is there.
    pub latency: u64,
    /// When the last frame of a period is there, counted from the period's start.
    pub arrival: u64,
    /// What is left from then to the stream's latest instant.
    pub to_latest: u64,
}

/// What the listener at the end of a hop gets of a stream that has this share.
#[tactic(auto, unfolding(crate::specs::Listeners::listener_share))]
pub fn listener_share(timing: &Timing, share: &StreamShare, hop: usize) -> ListenerShare
    requires stream { share.now.stream < stream_count timing.now }
    requires hop { hop < hop_count timing.now share.now.stream }
    ensures value { result ≡ listener_share timing.now share.now hop }
    ensures exists { result.link < length timing.now.links }
{
    let stream = share.stream;
    let link = timing.route_link(stream, hop);
    let sooner = timing
        .arrival(stream)
        .saturating_sub(timing.plain().hop_arrival(stream, hop));
    let arrival = share.arrival.saturating_sub(sooner);
    ListenerShare {
        link,
        latency: timing.start(stream, hop) + timing.plain().transfer(stream, link),
        arrival,
        to_latest: timing.latest(stream).saturating_sub(arrival),
    }
}

/// What each listener of a stream that has this share gets, by each way to it, in the order of the stream's route: where it has
/// several listeners, or one that hears it by two ways. Else nothing: its listener gets what the stream does.
///
/// # Errors
///
/// There was no memory.
pub fn listener_shares(
    alloc: Global,
    timing: &Timing,
    share: &StreamShare,
) -> Result<Vec<ListenerShare>, NoMemory>
    requires { share.now.stream < stream_count timing.now }
    ensures value { IfOk result (λ shares. shares.items ≡ listener_shares timing.now share.now) }
    ensures exist { IfOk result (λ shares. All (λ (listener : ListenerShare). listener.link < length timing.now.links) shares.items) }
{
    Ok(listeners_of(alloc, timing, share)?)
}

/// The same, where the error is the allocator's.
pub(crate) fn listeners_of(
    alloc: Global,
    timing: &Timing,
    share: &StreamShare,
) -> Result<Vec<ListenerShare>, AllocError>
    requires { share.now.stream < stream_count timing.now }
    ensures value { IfOk result (λ shares. shares.items ≡ listener_shares timing.now share.now) }
    ensures exist { IfOk result (λ shares. All (λ (listener : ListenerShare). listener.link < length timing.now.links) shares.items) }
{
    let ends = several_ends(alloc, timing, share.stream)?;
    let shares = shares_at(alloc, timing, share, &ends);
    drop(ends);
    shares
}

// What the listeners at the ends of some hops get.
fn shares_at(
    alloc: Global,
    timing: &Timing,
    share: &StreamShare,
    ends: &[usize],
) -> Result<Vec<ListenerShare>, AllocError>
    requires stream { share.now.stream < stream_count timing.now }
    requires hops { All (λ hop. hop < hop_count timing.now share.now.stream) ends.now }
    ensures value { IfOk result (λ shares. shares.items ≡ map (listener_share timing.now share.now) ends.now) }
    ensures exist { IfOk result (λ shares. All (λ (listener : ListenerShare). listener.link < length timing.now.links) shares.items) }
{
    let mut shares = Vec::new(alloc);
    for hop in ends {
        shares.push(listener_share(timing, share, *hop))?;
    }
    Ok(shares)
}

/// A listener hears the last frame of a period so long after the stream's offset as the frame's way to it is over.
pub fn listeners_arrive()
    ensures { ListenersArrive }
{}

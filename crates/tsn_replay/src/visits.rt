//! The hops of all streams, by link.
ghost use Rattle.std.specs.Prelude.{◌≡◌, ◌≤◌, ◌<◌, length, IfOk};
ghost use Rattle.tsn_model.specs.Network.{stream_count};
ghost use Rattle.tsn_model.specs.Timing.{shifts};
ghost use Rattle.tsn_replay.specs.Queue.{AreVisits, AreAllVisits};

use std::alloc::{AllocError, Global};
use tsn_model::plain::PlainNetwork;

/// A stream, its hop on a link, how many frames by hops stand before those of the hop in a cycle, and how many frames the stream
/// sends.
#[derive(Clone, Copy)]
pub struct Visit {
    pub stream: usize,
    pub hop: usize,
    pub first: usize,
    pub count: usize,
}

/// By link the hops on it.
pub fn visits_of(alloc: Global, network: &PlainNetwork) -> Result<Vec<Vec<Visit>>, AllocError>
    ensures { IfOk result (λ visits. AreAllVisits network.now (length network.now.links) visits.items) }
{
    let mut visits = Vec::new(alloc);
    for link in 0..network.links() {
        visits.push(visits_on(alloc, network, link)?)?;
    }
    Ok(visits)
}

// The hops on a link, by stream.
fn visits_on(alloc: Global, network: &PlainNetwork, link: usize) -> Result<Vec<Visit>, AllocError>
    ensures { IfOk result (λ visits. AreVisits network.now link visits.items) }
{
    // The network is within its limits, so a route has a link once, and there are few frames.
    let _limits = network.cycle();
    let mut visits = Vec::new(alloc);
    let mut first = 0;
    for stream in 0..network.streams() {
        let count = frame_count(network, stream);
        if let Some(hop) = network.hop_on(stream, link) {
            visits.push(Visit {
                stream,
                hop,
                first: first + hop * count,
                count,
            })?;
        }
        first += network.hops(stream) * count;
    }
    Ok(visits)
}

/// How many frames a stream sends in a cycle.
pub fn frame_count(network: &PlainNetwork, stream: usize) -> usize
    requires { stream < stream_count network.now }
    ensures { result ≡ length (shifts network.now stream) }
{
    // The network is within its limits, so they are few.
    let _limits = network.cycle();
    (network.turns(stream) * network.burst(stream)) as usize
}

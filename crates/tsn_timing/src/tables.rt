//! The numbers of each stream, worked out once.
ghost use Rattle.std.specs.Prelude.{◌≡◌, ◌+◌, ◌≤◌, ◌<◌, length, All, IfOk};
ghost use Rattle.tsn_model.specs.Network.{stream_count, hop_count};
ghost use Rattle.tsn_model.specs.Timing.{spread, shifts, start, arrival, span};
ghost use Rattle.tsn_timing.specs.Tables.{AreRight, IsHop, IsTable};

use std::alloc::{AllocError, Global};
use tsn_model::bounds::{MAX_SPAN, MAX_SPREAD, MAX_START};
use tsn_model::plain::PlainNetwork;

/// A hop of a stream: its link, when the frame starts on it, counted from the offset, and how long it occupies and keeps it.
#[derive(Clone, Copy)]
pub struct Hop {
    pub link: usize,
    pub start: u64,
    pub occupancy: u64,
    pub separation: u64,
}

/// A stream: its period, how far apart the frames of a burst start, and how far the first and the last one; how long after
/// its offset it starts each frame; its hops, when its last octet arrives, and when its last frame keeps no link any more either.
#[derive(Drop)]
pub struct StreamTable {
    pub period: u64,
    pub pace: u64,
    pub spread: u64,
    pub shifts: Vec<u64>,
    pub hops: Vec<Hop>,
    pub arrival: u64,
    pub span: u64,
}

// When a stream's frame starts on the hop that is next: by its delay after the hop that this one continues, or else at once.
fn next_start(network: &PlainNetwork, stream: usize, hops: &[Hop]) -> u64
    requires stream { stream < stream_count network.now }
    requires next { length hops.now < hop_count network.now stream }
    requires right { AreRight (IsHop network.now stream) (length hops.now) hops.now }
    ensures value { result ≡ start network.now stream (length hops.now) }
    ensures bound { result ≤ MAX_START }
{
    // The network is within its limits.
    let _limits = network.cycle();
    let from = network.link(network.route_link(stream, hops.len())).from;
    // From the last hop back, which is the one that it continues where the route doesn't branch.
    for step in 0..hops.len() {
        let before = hops[hops.len() - 1 - step];
        if network.link(before.link).to == from {
            return before.start + network.hop_delay(stream, before.link);
        }
    }
    0
}

fn hops_of(alloc: Global, network: &PlainNetwork, stream: usize) -> Result<Vec<Hop>, AllocError>
    requires { stream < stream_count network.now }
    ensures { IfOk result (λ hops. AreRight (IsHop network.now stream) (hop_count network.now stream) hops.items) }
{
    let mut hops = Vec::new(alloc);
    for hop in 0..network.hops(stream) {
        let link = network.route_link(stream, hop);
        let start = next_start(network, stream, &hops);
        hops.push(Hop {
            link,
            start,
            occupancy: network.occupancy(stream, link),
            separation: network.separation(stream, link),
        })?;
    }
    Ok(hops)
}

// When the last octet of a stream's period is at each listener, whose last frame starts so long after the first one.
fn arrival_of(network: &PlainNetwork, stream: usize, hops: &[Hop], last_after: u64) -> u64
    requires stream { stream < stream_count network.now }
    requires right { AreRight (IsHop network.now stream) (hop_count network.now stream) hops.now }
    requires spread { last_after ≡ spread network.now stream }
    ensures value { result ≡ arrival network.now stream }
    ensures bound { result ≤ MAX_SPAN }
{
    // The network is within its limits.
    let _limits = network.cycle();
    let mut time: u64 = 0;
    for k in 0..hops.len() {
        let hop = hops[k];
        time = time.max(hop.start + last_after + network.transfer(stream, hop.link));
    }
    time
}

// When its last frame keeps no link any more, or its arrival where that is later.
fn span_of(
    network: &PlainNetwork,
    stream: usize,
    hops: &[Hop],
    last_after: u64,
    arrives: u64,
) -> u64
    requires stream { stream < stream_count network.now }
    requires right { AreRight (IsHop network.now stream) (hop_count network.now stream) hops.now }
    requires spread { last_after ≡ spread network.now stream }
    requires arrival { arrives ≡ arrival network.now stream }
    ensures value { result ≡ span network.now stream }
    ensures bound { result ≤ MAX_SPAN }
{
    // The network is within its limits.
    let _limits = network.cycle();
    let mut time = arrives;
    for k in 0..hops.len() {
        let hop = hops[k];
        time = time.max(hop.start + last_after + hop.separation);
    }
    time
}

// How long after its offset a stream starts each frame.
fn shifts_of(alloc: Global, network: &PlainNetwork, stream: usize) -> Result<Vec<u64>, AllocError>
    requires { stream < stream_count network.now }
    ensures value { IfOk result (λ list. list.items ≡ shifts network.now stream) }
    ensures bound { IfOk result (λ list. All (λ shift. shift ≤ 1_000_000_000 + MAX_SPREAD) list.items) }
{
    // The network is within its limits.
    let _limits = network.cycle();
    let mut shifts = Vec::new(alloc);
    for turn in 0..network.turns(stream) {
        for place in 0..network.burst(stream) {
            shifts.push(network.shift(stream, turn, place))?;
        }
    }
    Ok(shifts)
}

fn table_of(alloc: Global, network: &PlainNetwork, stream: usize) -> Result<StreamTable, AllocError>
    requires { stream < stream_count network.now }
    ensures { IfOk result (IsTable network.now stream) }
{
    // The network is within its limits.
    let _limits = network.cycle();
    let shifts = shifts_of(alloc, network, stream)?;
    let hops = hops_of(alloc, network, stream)?;
    let spread = network.spread(stream);
    let arrival = arrival_of(network, stream, &hops, spread);
    let span = span_of(network, stream, &hops, spread, arrival);
    Ok(StreamTable {
        period: network.period(stream),
        pace: network.pace(stream),
        spread,
        shifts,
        hops,
        arrival,
        span,
    })
}

/// The numbers of all streams.
pub fn tables_of(alloc: Global, network: &PlainNetwork) -> Result<Vec<StreamTable>, AllocError>
    ensures { IfOk result (λ tables. AreRight (IsTable network.now) (stream_count network.now) tables.items) }
{
    let mut tables = Vec::new(alloc);
    for stream in 0..network.streams() {
        tables.push(table_of(alloc, network, stream)?)?;
    }
    Ok(tables)
}

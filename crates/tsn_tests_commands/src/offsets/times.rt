//! The times of streams.

use std::alloc::{AllocError, Global};
use std::process::Abort;
use std::test::Fail;
use tsn_networks::{LONG, LOOP, Network, ONE, TWO};
use tsn_timing::Timing;

/// The link to station C has 100 Mb/s.
const SLOW: Network = Network {
    cables: &[
        ("A", "S", 1000, 50),
        ("B", "S", 1000, 50),
        ("S", "C", 100, 50),
    ],
    ..TWO
};

/// The first link has 10 Mb/s, so that a frame is still being sent when it has arrived.
const SLOW_FIRST: Network = Network {
    cables: &[
        ("A", "S", 10, 50),
        ("B", "S", 1000, 50),
        ("S", "C", 1000, 50),
    ],
    ..ONE
};

fn timing_of(alloc: Global, network: Network) -> Result<Timing, Fail> {
    Ok(network.timing(alloc, 1_000_000).ok_or("no network")?)
}

/// When a stream starts on its hops, and its arrival and its span.
fn times_of(
    rt: &impl Abort,
    alloc: Global,
    timing: &Timing,
    stream: usize,
) -> Result<(Vec<u64>, u64, u64), AllocError> {
    assert!(rt; stream < timing.streams());
    let mut starts = Vec::with_capacity(alloc, 16)?;
    for hop in 0..timing.hops(stream) {
        starts.push(timing.start(stream, hop))?;
    }
    Ok((starts, timing.arrival(stream), timing.span(stream)))
}

#[test]
fn tells_times(rt: HostRuntime) -> Result<(), Fail> {
    for (network, stream, wanted) in [
        (ONE, 0, "([0, 1626], 2252, 2298)"),
        (LONG, 1, "([0, 13290], 25580, 25626)"),
        (SLOW, 0, "([0, 1626], 7436, 8346)"),
        (SLOW_FIRST, 0, "([0, 58650], 59276, 67200)"),
        (LOOP, 0, "([0, 576, 1152, 2496, 3072], 3648, 3744)"),
        (LOOP, 1, "([0, 576, 1152, 1728], 2304, 2400)"),
    ] {
        let timing = timing_of(rt.alloc(), network)?;
        let times = times_of(&rt, rt.alloc(), &timing, stream)?;
        let found = format!(in rt.alloc(); "{times:?}")?;
        assert_eq!(rt; found.as_str(), wanted);
    }
    Ok(())
}

/// The flowspan has to be this, by the plain program too.
fn expect_flowspan(rt: &impl Abort, timing: &Timing, offsets: &[u64], flowspan: u64) {
    let cycle = timing.cycle();
    assert!(rt; offsets.len() == timing.streams());
    assert!(rt; offsets.iter().all(|offset| *offset <= cycle));
    assert_eq!(rt; timing.flowspan(offsets), flowspan);
    assert_eq!(rt; timing.plain().flowspan(offsets), flowspan);
}

#[test]
fn tells_flowspans(rt: HostRuntime) -> Result<(), Fail> {
    for (network, offsets, flowspan) in [
        (TWO, [0, 672], 2924),
        (TWO, [1_000_000, 0], 1_002_252),
        (LONG, [0, 0], 25580),
        (SLOW, [0, 6720], 14156),
        (LOOP, [0, 672], 3648),
    ] {
        let timing = timing_of(rt.alloc(), network)?;
        expect_flowspan(&rt, &timing, &offsets, flowspan);
    }
    Ok(())
}

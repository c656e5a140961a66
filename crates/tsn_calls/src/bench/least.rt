//! Least offsets of path-like lists of arcs: each stream goes before the next one and the one after that.

use std::alloc::{AllocError, Global};
use std::io;
use std::rt::Clock;
use std::time::Instant;
use tsn_diff::{Feasibility, Net};
use tsn_model::Arc;

// How long a frame of 64 octets occupies a link of 1000 Mb/s, in nanoseconds.
const OCCUPANCY: i64 = 672;

/// Asks for the least offsets of so many streams, 2 to 128, so many times.
pub fn measure<R: Clock + Print + Eprint + AllocGlobal>(
    rt: &R,
    streams: usize,
    calls: usize,
) -> io::Result<bool> {
    if streams < 2 || streams > 128 {
        return Ok(false);
    }
    let arcs = path_like(rt.alloc(), streams)?;
    let net = Net::new(streams);
    if !net.takes(&arcs) {
        return Ok(false);
    }
    let begin = Instant::now(rt)?;
    let mut latest = 0;
    for _ in 0..calls {
        if let Ok(Feasibility::Least(least)) = net.least(rt.alloc(), &arcs) {
            latest = *least.offsets().last().unwrap_or(&0);
        }
    }
    let taken = begin.elapsed(rt)?;
    println!(rt;
        "least {streams} streams {} arcs: the last stream starts at {latest}",
        arcs.len()
    )?;
    eprintln!(rt; "{}", taken.as_nanos())?;
    Ok(true)
}

// The arcs by which each stream goes before the next two.
fn path_like(alloc: Global, streams: usize) -> Result<Vec<Arc>, AllocError> {
    let mut arcs = Vec::new(alloc);
    for to in 1..streams {
        if to > 1 {
            arcs.push(arc(to - 2, to))?;
        }
        arcs.push(arc(to - 1, to))?;
    }
    Ok(arcs)
}

fn arc(from: usize, to: usize) -> Arc {
    Arc {
        from,
        to,
        weight: OCCUPANCY,
    }
}

//! Least offsets, found at once and by adding the last arc to the solution for the others. What calls the solver does nothing else: all
//! that its contract says would stand in the way of each further proof.
ghost use Rattle.std.specs.Prelude.{◌↔◌, IsTrue, length};
ghost use Rattle.tsn_diff.specs.Limits.{IsArcAmong};

use crate::texts::{parted, place};
use std::alloc::{AllocError, Global};
use std::process::Abort;
use std::test::Fail;
use tsn_diff::{Feasibility, Least, MAX_STREAMS, MAX_WEIGHT, Net};
use tsn_model::{Arc, NoMemory};

/// An arc by its two streams and its weight.
pub fn arc_of(text: &str) -> Result<Arc, Fail> {
    let (from, rest) = parted(text)?;
    let (to, weight) = parted(rest)?;
    Ok(Arc {
        from: place(from)?,
        to: place(to)?,
        weight: weight.parse()?,
    })
}

/// The arcs of a text, between commas.
fn arcs_of(alloc: Global, text: &str) -> Result<Vec<Arc>, Fail> {
    let mut arcs = Vec::new(alloc);
    if !text.is_empty() {
        for part in text.split(", ") {
            arcs.push(arc_of(part)?)?;
        }
    }
    Ok(arcs)
}

fn takes(net: &Net, arc: Arc) -> bool
    ensures { IsTrue result ↔ IsArcAmong (length net.now) arc }
{
    net.takes(&[arc])
}

/// Solves the arcs at once. `None`: they aren't taken.
fn solved(alloc: Global, net: &Net, arcs: &[Arc]) -> Result<Option<Feasibility>, NoMemory> {
    if !net.takes(arcs) {
        return Ok(None);
    }
    Ok(Some(net.least(alloc, arcs)?))
}

/// Solves the arcs by adding one to the solution for the others. `None`: they aren't taken, or the others have no solution.
fn solved_by_adding(
    alloc: Global,
    net: &Net,
    others: &[Arc],
    last: Arc,
) -> Result<Option<Feasibility>, NoMemory> {
    if !net.takes(others) || !takes(net, last) {
        return Ok(None);
    }
    let Feasibility::Least(least) = net.least(alloc, others)? else {
        return Ok(None);
    };
    Ok(Some(least.with_arc(alloc, last)?))
}

/// The least offsets with the chain of each stream, or the length and the sum of a closed chain.
fn text_of(alloc: Global, arcs: &[Arc], found: &Option<Feasibility>) -> Result<String, Fail> {
    match found {
        None => Ok("unsolved".to_string(alloc)?),
        Some(Feasibility::Least(least)) => least_text(alloc, least),
        Some(Feasibility::Positive(chain)) => closed_text(alloc, chain.len(), sum_of(arcs, chain)),
    }
}

fn least_text(alloc: Global, least: &Least) -> Result<String, Fail> {
    let mut chains = Vec::new(alloc);
    for stream in 0..least.offsets().len() {
        chains.push(least.chain(alloc, stream)?)?;
    }
    Ok(offsets_text(alloc, least.offsets(), &chains)?)
}

fn offsets_text(
    alloc: Global,
    offsets: &[u64],
    chains: &[Vec<usize>],
) -> Result<String, AllocError> {
    format!(in alloc; "{offsets:?} {chains:?}")
}

fn closed_text(alloc: Global, arcs: usize, sum: Option<i64>) -> Result<String, Fail> {
    match sum {
        Some(sum) => Ok(format!(in alloc; "closed by {arcs} of sum {sum}")?),
        None => Ok("not closed".to_string(alloc)?),
    }
}

/// The sum of a chain's weights, where each arc leads to the next, and the last to the first.
fn sum_of(arcs: &[Arc], chain: &[usize]) -> Option<i64> {
    let last = *chain.last()?;
    let mut stream = arcs.get(last)?.to;
    let mut sum = 0i64;
    for place in chain {
        let arc = arcs.get(*place)?;
        if arc.from != stream {
            return None;
        }
        stream = arc.to;
        sum = sum.wrapping_add(arc.weight);
    }
    Some(sum)
}

/// Compares two texts.
pub fn expect_same(rt: &impl Abort, found: &str, wanted: &str) {
    assert_eq!(rt; found, wanted);
}

/// Compares what is found for the arcs.
fn expect_found<R: Abort + AllocGlobal>(
    rt: &R,
    net: &Net,
    arcs: &[Arc],
    wanted: &str,
) -> Result<(), Fail> {
    let at_once = text_of(rt.alloc(), arcs, &solved(rt.alloc(), net, arcs)?)?;
    expect_same(rt, at_once.as_str(), wanted);
    if let Some((last, others)) = arcs.split_last() {
        let found = solved_by_adding(rt.alloc(), net, others, *last)?;
        let by_adding = text_of(rt.alloc(), arcs, &found)?;
        expect_same(rt, by_adding.as_str(), wanted);
    }
    Ok(())
}

/// Compares what is found between so many streams for each line of a table: the arcs, and the answer.
fn expect_table<R: Abort + AllocGlobal>(rt: &R, net: &Net, table: &str) -> Result<(), Fail> {
    for line in table.lines() {
        let (arcs, wanted) = line.split_once("=> ").ok_or("no answer")?;
        let arcs = arcs_of(rt.alloc(), arcs.trim_end())?;
        expect_found(rt, net, &arcs, wanted)?;
    }
    Ok(())
}

const ONE: &str = "0 0 0 => [0] [[]]
0 0 1 => closed by 1 of sum 1
";

const TWO: &str = "0 1 -4 => [0, 0] [[], []]
0 1 672, 1 0 -672 => [0, 672] [[], [0]]
0 1 672, 1 0 -671 => closed by 2 of sum 1
";

/// The longer way wins.
const THREE: &str = "0 1 5, 1 2 -2, 0 2 1 => [0, 5, 3] [[], [0], [0, 1]]";

/// Parallel arcs beside others, and a closed chain beside an arc.
const SIX: &str =
    "0 1 5, 0 1 7, 4 3 20, 0 1 6, 3 3 -1 => [0, 7, 0, 20, 0, 0] [[], [1], [], [2], [], []]
0 1 5, 4 3 20, 1 0 -5, 3 4 -19 => closed by 2 of sum 1
";

#[test]
fn arcs_ask_for_least_offsets(rt: HostRuntime) -> Result<(), Fail> {
    expect_table(&rt, &Net::new(0), "=> [] []")?;
    expect_table(&rt, &Net::new(1), ONE)?;
    expect_table(&rt, &Net::new(2), TWO)?;
    expect_table(&rt, &Net::new(3), THREE)?;
    expect_table(&rt, &Net::new(6), SIX)?;
    let net = Net::released(Vec::from_slice(rt.alloc(), &[672, 0, 2000])?);
    let row = "0 1 100, 1 2 100 => [672, 772, 2000] [[], [0], []]";
    expect_table(&rt, &net, row)
}

/// An arc of the greatest weight from each of 128 streams to the next, and one back of the least weight.
fn ring(alloc: Global) -> Result<Vec<Arc>, AllocError> {
    let mut arcs = Vec::new(alloc);
    for stream in 1..MAX_STREAMS {
        arcs.push(Arc {
            from: stream - 1,
            to: stream,
            weight: MAX_WEIGHT,
        })?;
    }
    arcs.push(Arc {
        from: MAX_STREAMS - 1,
        to: 0,
        weight: -MAX_WEIGHT,
    })?;
    Ok(arcs)
}

#[test]
fn a_ring_of_all_streams_closes(rt: HostRuntime) -> Result<(), Fail> {
    let arcs = ring(rt.alloc())?;
    let wanted = "closed by 128 of sum 152460000000";
    expect_found(&rt, &Net::new(MAX_STREAMS), &arcs, wanted)
}

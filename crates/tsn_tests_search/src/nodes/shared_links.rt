//! The links that streams share, and the arcs of going first on them, in words.

use crate::nodes::nodes::{first_two, side_of};
use crate::nodes::rows::{cut, expect_rows, numbers, place};
use std::process::Abort;
use std::test::*;
use tsn_conflict::sharing::Conflicts;
use tsn_conflict::{Arc, Side, Triple, conflicts};
use tsn_networks::{LONG, LOOP, THERE_AND_BACK, TWO};
use tsn_timing::Timing;

fn conflicts_of<R: Abort + AllocGlobal>(rt: &R, timing: &Timing) -> Conflicts {
    assert!(rt; timing.streams() <= 128);
    conflicts(rt.alloc(), timing).expect(rt, "memory")
}

/// The numbers of a triple, without its lag where that is 0.
pub fn triple_text<R: Abort + AllocGlobal>(rt: &R, triple: Triple) -> String {
    let Triple {
        left,
        right,
        link,
        lag,
    } = triple;
    let text = if lag == 0 {
        format!(in rt.alloc(); "{left} {right} {link}")
    } else {
        format!(in rt.alloc(); "{left} {right} {link} {lag}")
    };
    text.expect(rt, "memory")
}

fn push_triple<R: Abort + AllocGlobal>(rt: &R, text: &mut String, triple: Triple) {
    let triple = triple_text(rt, triple);
    let more = format!(in rt.alloc(); "({triple})").expect(rt, "memory");
    text.push_str(more.as_str()).expect(rt, "memory");
}

fn triples_text<R: Abort + AllocGlobal>(rt: &R, triples: &[Triple]) -> String {
    let mut text = String::new(rt.alloc());
    for triple in triples.iter() {
        push_triple(rt, &mut text, *triple);
    }
    text
}

/// All streams that share a link.
pub fn print_triples<R: Abort + AllocGlobal>(rt: &R, timing: &Timing) -> String {
    let found = conflicts_of(rt, timing);
    let text = triples_text(rt, found.triples());
    drop(found);
    text
}

fn arc_of(rt: &impl Abort, found: &Conflicts, link: usize, side: Side) -> Arc {
    let on = first_two(link);
    assert!(rt; found.has(on));
    found.arc(on, side)
}

fn arc_text<R: Abort + AllocGlobal>(rt: &R, arc: Arc) -> String {
    let Arc { from, to, weight } = arc;
    format!(in rt.alloc(); "from {from} to {to} weighs {weight}").expect(rt, "memory")
}

/// The arc of going first of the first two streams, as `Left 4`.
pub fn print_arc<R: Abort + AllocGlobal>(rt: &R, timing: &Timing, asked: &str) -> String {
    let (side, link) = cut(rt, asked, " ");
    let found = conflicts_of(rt, timing);
    let arc = arc_of(rt, &found, place(rt, link), side_of(rt, side));
    drop(found);
    arc_text(rt, arc)
}

fn first_overlap<R: Abort + AllocGlobal>(
    rt: &R,
    timing: &Timing,
    offsets: &[u64],
) -> Option<Triple> {
    assert!(rt; timing.streams() <= 128);
    let found = conflicts(rt.alloc(), timing).expect(rt, "memory");
    assert!(rt; offsets.len() == timing.streams());
    assert!(rt; offsets.iter().all(|&offset| offset <= 1_000_000_000));
    let overlap = found.first_violated(offsets);
    drop(found);
    overlap
}

/// The first overlap of these offsets.
pub fn print_overlap<R: Abort + AllocGlobal>(rt: &R, timing: &Timing, offsets: &str) -> String {
    let offsets = numbers(rt, offsets);
    let found = first_overlap(rt, timing, offsets.as_slice());
    triples_text(rt, found.as_slice())
}

const OF_TWO: &str = "\
1000000, shared links = (0 1 4)
1000000, overlap 0 672 =
1000000, overlap 0 671 = (0 1 4)
1000000, overlap 1000000000 0 =";

const OF_LONG: &str = "\
1000000, arc Left 4 = from 0 to 1 weighs -10992
1000000, arc Right 4 = from 1 to 0 weighs 24000";

const OF_LOOP: &str = "\
1000000, shared links = (0 1 4)(0 1 12)
1000000, arc Left 4 = from 0 to 1 weighs 672
1000000, arc Right 12 = from 1 to 0 weighs -672
1000000, overlap 0 672 =
1000000, overlap 0 671 = (0 1 4)
1000000, overlap 0 673 = (0 1 12)
1000000, overlap 0 2015 = (0 1 12)
1000000, overlap 0 2016 =";

#[test]
fn links_are_shared(rt: HostRuntime) {
    for (network, rows) in [
        (TWO, OF_TWO),
        (LONG, OF_LONG),
        (THERE_AND_BACK, "1000000, shared links = "),
        (LOOP, OF_LOOP),
    ] {
        expect_rows(&rt, network, rows);
    }
}

//! What looks at nodes find, in words.

use crate::nodes::nodes::{looked, looked_from, node_at};
use crate::nodes::rows::{cut, expect_rows, number};
use crate::nodes::shared_links::triple_text;
use std::process::Abort;
use std::test::*;
use tsn_branch::fits;
use tsn_cert::{Chain, Entries, Leaf, LowerBound};
use tsn_conflict::outcome::Look;
use tsn_conflict::{Node, Triple, conflicts, whole_chains};
use tsn_diff::Forest;
use tsn_networks::{LINE, LOOP, ONE, TWO};
use tsn_timing::{Solved, Timing};

fn look_text<R: Abort + AllocGlobal>(rt: &R, look: &Look) -> String {
    match look {
        Look::Split(triple) => split_text(rt, *triple),
        Look::Solved {
            solved,
            leaf,
            chains,
        } => solved_text(rt, solved, leaf, chains),
        Look::Tied {
            bound,
            leaf,
            chains,
        } => tied_text(rt, *bound, leaf, chains),
        Look::Pruned { bound, leaf } => pruned_text(rt, *bound, leaf),
        Look::Refuted(leaf) => refuted_text(rt, leaf),
    }
}

fn split_text<R: Abort + AllocGlobal>(rt: &R, triple: Triple) -> String {
    let triple = triple_text(rt, triple);
    format!(in rt.alloc(); "split {triple}").expect(rt, "memory")
}

fn solved_text<R: Abort + AllocGlobal>(
    rt: &R,
    solved: &Solved,
    leaf: &LowerBound,
    chains: &Forest,
) -> String {
    let (leaf, chains) = (bound_text(rt, leaf), forest_text(rt, chains));
    let (offsets, bound) = (solved.valid().offsets(), solved.flowspan());
    format!(in rt.alloc(); "solved {offsets:?} {bound} {leaf} {chains}").expect(rt, "memory")
}

fn tied_text<R: Abort + AllocGlobal>(
    rt: &R,
    bound: u64,
    leaf: &LowerBound,
    chains: &Forest,
) -> String {
    let (leaf, chains) = (bound_text(rt, leaf), forest_text(rt, chains));
    format!(in rt.alloc(); "tied {bound} {leaf} {chains}").expect(rt, "memory")
}

fn pruned_text<R: Abort + AllocGlobal>(rt: &R, bound: u64, leaf: &LowerBound) -> String {
    let leaf = bound_text(rt, leaf);
    format!(in rt.alloc(); "pruned {bound} {leaf}").expect(rt, "memory")
}

fn refuted_text<R: Abort + AllocGlobal>(rt: &R, leaf: &Leaf) -> String {
    let leaf = leaf_text(rt, leaf);
    format!(in rt.alloc(); "refuted {leaf}").expect(rt, "memory")
}

fn leaf_text<R: Abort + AllocGlobal>(rt: &R, leaf: &Leaf) -> String {
    match leaf {
        Leaf::Bound(bound) => bound_text(rt, bound),
        Leaf::Overrun(stream, chain) => chain_leaf(rt, "Overrun", *stream, chain),
        Leaf::Cycle(chain) => {
            let depths = depths(rt, chain);
            format!(in rt.alloc(); "Cycle {depths:?}").expect(rt, "memory")
        }
        Leaf::Overload(link, entries) => entries_leaf(rt, "Overload", *link, entries),
    }
}

fn bound_text<R: Abort + AllocGlobal>(rt: &R, leaf: &LowerBound) -> String {
    match leaf {
        LowerBound::Late(stream, chain) => chain_leaf(rt, "Late", *stream, chain),
        LowerBound::Load(link, entries) => entries_leaf(rt, "Load", *link, entries),
    }
}

fn chain_leaf<R: Abort + AllocGlobal>(rt: &R, word: &str, stream: usize, chain: &Chain) -> String {
    let depths = depths(rt, chain);
    format!(in rt.alloc(); "{word} {stream} {depths:?}").expect(rt, "memory")
}

fn entries_leaf<R: Abort + AllocGlobal>(
    rt: &R,
    word: &str,
    link: usize,
    entries: &Entries,
) -> String {
    let mut all = Vec::new(rt.alloc());
    for entry in entries.list() {
        assert!(rt; entry.frame.shift == 0);
        all.push((entry.frame.stream, depths(rt, &entry.chain)))
            .expect(rt, "memory");
    }
    format!(in rt.alloc(); "{word} {link} {all:?}").expect(rt, "memory")
}

fn forest_text<R: Abort + AllocGlobal>(rt: &R, forest: &Forest) -> String {
    let chains = whole_chains(rt.alloc(), forest).expect(rt, "memory");
    let mut all = Vec::new(rt.alloc());
    for chain in chains.list() {
        all.push(depths(rt, chain)).expect(rt, "memory");
    }
    drop(chains);
    format!(in rt.alloc(); "{all:?}").expect(rt, "memory")
}

fn depths<R: Abort + AllocGlobal>(rt: &R, chain: &Chain) -> Vec<usize> {
    chain.to_vec(rt.alloc()).expect(rt, "memory")
}

/// What a look finds, as at `Left 4: 2925 beside 0 672`.
pub fn print_look<R: Abort + AllocGlobal>(rt: &R, timing: &Timing, asked: &str) -> String {
    let (path, asked) = cut(rt, asked, ": ");
    let node = node_at(rt, path);
    let look = looked(rt, timing, &node, asked);
    let text = look_text(rt, &look);
    drop(look);
    text
}

/// What a look finds at a side of the root from the root's least offsets, as at `Left: 1000001`.
pub fn print_look_from<R: Abort + AllocGlobal>(rt: &R, timing: &Timing, asked: &str) -> String {
    let (side, target) = cut(rt, asked, ": ");
    let look = looked_from(rt, timing, side, number(rt, target));
    let text = look_text(rt, &look);
    drop(look);
    text
}

fn fits_in<R: Abort + AllocGlobal>(rt: &R, timing: &Timing, node: &Node) -> bool {
    assert!(rt; timing.streams() <= 128);
    let shared = conflicts(rt.alloc(), timing).expect(rt, "memory");
    let fitting = fits(&shared, node);
    drop(shared);
    fitting
}

/// Whether a node fits the search.
pub fn print_fitting<R: Abort + AllocGlobal>(rt: &R, timing: &Timing, path: &str) -> String {
    let node = node_at(rt, path);
    let fitting = fits_in(rt, timing, &node);
    format!(in rt.alloc(); "{fitting}").expect(rt, "memory")
}

/// Both streams start on link 4 at 1626, occupy it for 1344 ns together, and arrive 46 ns before their occupancy ends.
const OF_TWO: &str = "\
# The first look splits; what goes first is solved, or pruned from its flowspan on.
1000000, look root: 1000001 = split 0 1 4
1000000, look root: 2252 = pruned 2252 Late 0 []
1000000, look Left 4: 1000001 = solved [0, 672] 2924 Late 1 [0] [[], [0]]
1000000, from Left: 1000001 = solved [0, 672] 2924 Late 1 [0] [[], [0]]
1000000, look Left 4: 2925 = solved [0, 672] 2924 Late 1 [0] [[], [0]]
1000000, look Left 4: 2924 = pruned 2924 Late 1 [0]
1000000, look Right 4: 2924 = pruned 2924 Late 0 [0]
# The chains of a tie go up to the first stream at which the lists differ, and else to the last stream.
1000000, look root: 2925 beside 0 672 = split 0 1 4
1000000, look Right 4: 2925 beside 0 672 = tied 2924 Late 0 [0] [[0]]
1000000, look Left 4: 2925 beside 0 672 = tied 2924 Late 1 [0] [[], [0]]
1000000, look Left 4: 2925 beside 672 0 = solved [0, 672] 2924 Late 1 [0] [[], [0]]
# An overload goes before a load, and a flowspan that is the target before both.
1000000, look root: 2925 = split 0 1 4
1000000, look root: 2924 = pruned 2924 Load 4 [(0, []), (1, [])]
1000000, look root: 2253 = pruned 2924 Load 4 [(0, []), (1, [])]
2970, look root: 2971 = split 0 1 4
2970, look root: 2924 = pruned 2924 Load 4 [(0, []), (1, [])]
2969, look root: 2970 = refuted Overload 4 [(0, []), (1, [])]
2969, look root: 2924 = refuted Overload 4 [(0, []), (1, [])]
2969, look root: 2252 = pruned 2252 Late 0 []
# The first stream alone uses link 0, and the second alone link 2, so no node of the search decides there.
1000000, fits Left 4 = true
1000000, fits Left 4;Left 0 = false
1000000, fits Left 4;Left 2 = false";

/// An overrun goes before a flowspan that is the target.
const OF_ONE: &str = "\
2297, look root: 2298 = refuted Overrun 0 []
2297, look root: 2252 = refuted Overrun 0 []
2298, look root: 2299 = solved [0] 2252 Late 0 [] [[]]";

/// On link 4 both streams are busy from 576 to 1920, and on link 6 from 1152 to 2496; either asks for a flowspan of 2400. A load
/// of the first link goes before an overload of the second one.
const OF_LINE: &str = "\
2496, look root: 2400 = pruned 2400 Load 4 [(0, []), (1, [])]
2496, look root: 2401 = split 0 1 4
2495, look root: 2401 = refuted Overload 6 [(0, []), (1, [])]
2495, look root: 2400 = pruned 2400 Load 4 [(0, []), (1, [])]
1919, look root: 2400 = refuted Overload 4 [(0, []), (1, [])]";

/// On link 4 both streams are busy from 576 to 1920. The second one arrives 1056 ns after its occupancy, and the first one 2400, so
/// the load asks for a flowspan of 2976 and no more.
const OF_LOOP: &str = "\
1000000, look root: 3649 = split 0 1 4
1000000, look root: 3648 = pruned 3648 Late 0 []
# The arcs weigh 672 and 2016: from stream 1 to 0, and back.
1000000, look Right 4;Left 12: 1000001 = refuted Cycle [0, 1]
# They weigh 672 and -672, and a sum of 0 refutes nothing.
1000000, look Left 4;Right 12: 1000001 = solved [0, 672] 3648 Late 0 [] [[], [0]]
1000000, look Left 4;Right 12: 3648 = pruned 3648 Late 0 []";

#[test]
fn looks_find_the_first_case(rt: HostRuntime) {
    for (network, rows) in [
        (TWO, OF_TWO),
        (ONE, OF_ONE),
        (LINE, OF_LINE),
        (LOOP, OF_LOOP),
    ] {
        expect_rows(&rt, network, rows);
    }
}

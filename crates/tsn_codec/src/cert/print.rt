//! The value that a certificate is printed as.
ghost use Rattle.std.specs.Prelude.{◌≡◌, ◌≤◌, length, IfOk, IsOkAnd, map, codes, [], ◌∷◌, OnOk, Some};
ghost use Rattle.serde_json.specs.Data.{object, member, no_members, string};
ghost use Rattle.serde_json.specs.View.{view};
ghost use Rattle.tsn_model.specs.Certificate.{split_node, leaf_node, tie_node};
ghost use Rattle.tsn_cert.specs.Json.{number_value, array_value};
ghost use Rattle.tsn_cert.specs.Leaf.{bound_leaf, leaf_of};
ghost use Rattle.tsn_cert.specs.Node.{tree_node};
ghost use Rattle.tsn_cert.specs.Cert.{chain_list, chains_of, chains_value, entry_of, entry_list, entries_of, entry_value, entries_value, node_of, nodes_of, chain_value, leaf_value, tie_value, node_value, nodes_value};

use crate::document;
use crate::list::array_of;
use serde_json::{Map, ToValue, Value};
use std::alloc::{AllocError, Global};
use tsn_cert::chain::{Chain, Chains, MAX_CHAIN};
use tsn_cert::{Entries, Entry, Leaf, LowerBound, Node};
use tsn_model::Triple;

pub(super) fn cert_value(
    alloc: Global,
    format: u64,
    target: u64,
    nodes: Value,
) -> Result<Value, AllocError>
    ensures { IfOk result (λ v. view v ≡ object (member (codes "format") (number_value format)
        (member (codes "nodes") (view nodes)
        (member (codes "target") (number_value target) no_members)))) }
{
    let members = Ok(Map::new(alloc));
    let members = document::with_member(alloc, members, "format", Ok(Value::from(format)));
    let members = document::with_member(alloc, members, "nodes", Ok(nodes));
    let target = Ok(Value::from(target));
    document::object(document::with_member(alloc, members, "target", target))
}

pub(super) fn node_value(alloc: Global, node: &Node) -> Result<Value, AllocError>
    ensures value { IfOk result (λ v. view v ≡ node_value (tree_node node.now)) }
    ensures reads_back { OnOk result
        (node_of (node_value (tree_node node.now)) ≡ Some (tree_node node.now)) }
{
    match node {
        Node::Branch(triple) => branch_value(alloc, triple),
        Node::Leaf(leaf) => leaf_value(alloc, leaf),
        Node::Tie(bound, chains) => tie_value(alloc, bound, chains),
    }
}

fn leaf_value(alloc: Global, leaf: &Leaf) -> Result<Value, AllocError>
    ensures value { IfOk result (λ v. view v ≡ leaf_value (leaf_of leaf.now)) }
    ensures reads_back { OnOk result
        (node_of (leaf_value (leaf_of leaf.now)) ≡ Some (leaf_node (leaf_of leaf.now))) }
{
    match leaf {
        Leaf::Bound(bound) => bound_value(alloc, bound),
        Leaf::Overrun(stream, chain) => {
            document::one_part_value(alloc, "overrun", *stream, chain_value(alloc, chain))
        }
        Leaf::Cycle(chain) => document::pair_value(
            alloc,
            "cycle".to_value(alloc),
            chain_value(alloc, chain),
        ),
        Leaf::Overload(link, entries) => {
            document::one_part_value(alloc, "overload", *link, entries_value(alloc, entries))
        }
    }
}

fn bound_value(alloc: Global, bound: &LowerBound) -> Result<Value, AllocError>
    ensures value { IfOk result (λ v. view v ≡ leaf_value (bound_leaf bound.now)) }
    ensures reads_back { OnOk result
        (node_of (leaf_value (bound_leaf bound.now)) ≡ Some (leaf_node (bound_leaf bound.now))) }
{
    match bound {
        LowerBound::Late(stream, chain) => {
            document::one_part_value(alloc, "late", *stream, chain_value(alloc, chain))
        }
        LowerBound::Load(link, entries) => {
            document::one_part_value(alloc, "load", *link, entries_value(alloc, entries))
        }
    }
}

fn tie_value(alloc: Global, bound: &LowerBound, chains: &Chains) -> Result<Value, AllocError>
    ensures value { IfOk result (λ v. view v ≡ tie_value (bound_leaf bound.now) chains.now) }
    ensures reads_back { OnOk result (node_of (tie_value (bound_leaf bound.now) chains.now)
        ≡ Some (tie_node (bound_leaf bound.now) chains.now)) }
{
    match bound {
        LowerBound::Late(stream, chain) => {
            let chain = chain_value(alloc, chain);
            two_part_value(alloc, "tie", *stream, chain, chains_value(alloc, chains))
        }
        LowerBound::Load(link, entries) => {
            let entries = entries_value(alloc, entries);
            two_part_value(
                alloc,
                "tieload",
                *link,
                entries,
                chains_value(alloc, chains),
            )
        }
    }
}

// An array of a word, a number and two parts, where these could be made.
fn two_part_value(
    alloc: Global,
    word: &str,
    number: usize,
    first: Result<Value, AllocError>,
    second: Result<Value, AllocError>,
) -> Result<Value, AllocError>
    ensures { IfOk result (λ v. IsOkAnd first (λ p. IsOkAnd second (λ c. view v
        ≡ array_value (string word.now ∷ number_value number ∷ view p ∷ view c ∷ [])))) }
{
    let items = document::with_item(document::first_items(alloc, word, &[number]), first);
    document::array(document::with_item(items, second))
}

#[tactic(auto, using(crate::proofs::CertLemmas::chains_back, crate::proofs::Elements::map_same))]
fn chains_value(alloc: Global, chains: &Chains) -> Result<Value, AllocError>
    ensures value { IfOk result (λ v. view v ≡ chains_value chains.now) }
    ensures reads_back { OnOk result (chains_of (chains_value chains.now) ≡ Some chains.now) }
{
    array_of::<Chain>(alloc, chains.list())
}

#[tactic(auto, using(crate::proofs::CertLemmas::entries_back, crate::proofs::Elements::map_same))]
fn entries_value(alloc: Global, entries: &Entries) -> Result<Value, AllocError>
    ensures value { IfOk result (λ v. view v ≡ entries_value entries.now) }
    ensures reads_back { OnOk result (entries_of (entries_value entries.now) ≡ Some entries.now) }
{
    array_of::<Entry>(alloc, entries.list())
}

pub(super) fn entry_value(alloc: Global, entry: &Entry) -> Result<Value, AllocError>
    ensures value { IfOk result (λ v. view v ≡ entry_value entry.now) }
    ensures reads_back { OnOk result (entry_of (entry_value entry.now) ≡ Some entry.now) }
{
    let frame = entry.frame;
    let chain = chain_value(alloc, &entry.chain);
    if frame.shift == 0 {
        document::pair_value(alloc, Ok(Value::from(frame.stream)), chain)
    } else {
        let numbers = &[frame.stream, frame.shift as usize];
        let items = document::with_numbers(Ok(Vec::new(alloc)), numbers);
        document::array(document::with_item(items, chain))
    }
}

#[tactic(auto, using(crate::proofs::CertLemmas::branch_back))]
fn branch_value(alloc: Global, triple: &Triple) -> Result<Value, AllocError>
    ensures value { IfOk result (λ v. view v ≡ node_value (split_node triple.now)) }
    ensures reads_back { OnOk result
        (node_of (node_value (split_node triple.now)) ≡ Some (split_node triple.now)) }
{
    let items = document::first_items(alloc, "branch", &[triple.left, triple.right, triple.link]);
    document::array_and_lag(items, triple.lag)
}

pub(super) fn chain_value(alloc: Global, chain: &Chain) -> Result<Value, AllocError>
    ensures value { IfOk result (λ v. view v ≡ chain_value chain.now) }
    ensures short { length chain.now ≤ MAX_CHAIN }
{
    let depths = chain.to_vec(alloc)?;
    let items = Vec::with_capacity(alloc, depths.len());
    document::array(document::with_numbers(items, &depths))
}

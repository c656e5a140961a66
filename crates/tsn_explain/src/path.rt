//! The way through a tree of decisions, and what its chains come to.
use crate::load::Load;
use crate::network::{TimedNetwork, sides};
use std::alloc::{AllocError, Global};
use tsn_argue::turned;
use tsn_cert::{Chain, Entries, Node};
use tsn_model::{Decision, Side};
use tsn_text::ListBuilder;

/// The way from the root of a tree to one of its nodes.
#[derive(Drop)]
pub struct Path<'a> {
    network: TimedNetwork<'a>,
    list: ListBuilder<Decision>,
}

impl<'a> Path<'a> {
    /// The way to the root.
    pub fn new(alloc: Global, network: TimedNetwork<'a>) -> Path<'a> {
        let list = ListBuilder::new(alloc);
        Path { network, list }
    }

    /// Whether there was memory for the whole way.
    pub fn finish(self) -> Result<(), AllocError> {
        drop(self.list.finish()?);
        Ok(())
    }

    /// The decisions, from the root on.
    pub fn decisions(&self) -> &[Decision] {
        self.list.list()
    }

    /// Goes on from a node to the one behind it: to the left child of a branch, and from a leaf to the right child of the last
    /// branch whose left one it was in.
    pub fn go_on(&mut self, node: &Node) {
        if let Node::Branch(triple) = node {
            let triple = *triple;
            let side = Side::Left;
            return self.list.push(Decision { triple, side });
        }
        for _ in 0..self.decisions().len() {
            let Some(decision) = self.list.pop() else {
                break;
            };
            if decision.side == Side::Left {
                self.list.push(turned(decision));
                break;
            }
        }
    }

    /// The decisions of a chain.
    pub fn chain(&self, alloc: Global, chain: &Chain) -> Result<Vec<Decision>, AllocError> {
        let mut decisions = Vec::new(alloc);
        for place in 0..chain.len() {
            if let Some(decision) = self.decisions().get(chain.at(place)) {
                decisions.push(*decision)?;
            }
        }
        Ok(decisions)
    }

    /// The least offset of a stream, by a chain to it.
    pub fn offset(&self, stream: usize, chain: &Chain) -> i128 {
        let mut first = stream;
        let mut weight: i128 = 0;
        for place in (0..chain.len()).rev() {
            if let Some(decision) = self.decisions().get(chain.at(place)) {
                (first, _, _) = sides(*decision);
                weight = weight.wrapping_add(self.network.weight(*decision));
            }
        }
        self.network.times(first).release.wrapping_add(weight)
    }

    /// What the entries of a leaf come to on a link.
    pub fn load(&self, link: usize, entries: &Entries) -> Load {
        let mut load = Load::none();
        for entry in entries.list() {
            let frame = entry.frame;
            let least = self.offset(frame.stream, &entry.chain);
            let greatest = self.network.times(frame.stream).latest_offset;
            load = load.with(self.network, link, frame, (least, greatest));
        }
        load
    }
}

//! Bags from which nothing can be stolen, and bags that lose, double, refuse or make up nodes.

use std::alloc::Global;
use std::sync::atomic::{AtomicU64, Ordering};
use std::test::Fail;
use tsn_conflict::{NoMemory, Node, Side, Triple};
use tsn_worker::{Bag, DequeBag};

/// A stack that notes which node is pushed first: a digit for each decision, 1 for Left and 2 for Right.
#[derive(Drop)]
pub struct NotingBag<'a> {
    nodes: Vec<Node>,
    first: &'a AtomicU64,
}

impl<'a> Bag for NotingBag<'a> {
    fn push(&mut self, node: Node) -> Result<(), Node> {
        if self.first.load(Ordering::SeqCst) == 0 {
            self.first.store(digits_of(&node), Ordering::SeqCst);
        }
        match self.nodes.push(node) {
            Ok(()) => Ok(()),
            Err(refused) => Err(refused.value),
        }
    }

    fn pop(&mut self) -> Option<Node> {
        self.nodes.pop()
    }

    fn steal(&mut self) -> Option<Node> {
        None
    }
}

fn digits_of(node: &Node) -> u64 {
    let mut digits = 0u64;
    for decision in node.path() {
        let digit = match decision.side {
            Side::Left => 1,
            Side::Right => 2,
        };
        digits = digits.saturating_mul(10).saturating_add(digit);
    }
    digits
}

/// A bag for each note.
pub fn noting_bags<'a>(alloc: Global, notes: &'a [AtomicU64]) -> Result<Vec<NotingBag<'a>>, Fail> {
    let mut bags = Vec::new(alloc);
    for first in notes {
        bags.push(NotingBag {
            nodes: Vec::new(alloc),
            first,
        })?;
    }
    Ok(bags)
}

/// What a bag does to nodes.
#[derive(Clone, Copy)]
pub enum Spoil {
    /// It loses each second one pushed.
    Loses,
    /// It has each one pushed twice.
    Doubles,
    /// It takes none.
    Refuses,
    /// Before each one it hands out another, whose decision is on a link that no two streams share.
    MakesUp,
}

/// A bag that does to the nodes of another what it shouldn't.
#[derive(Drop)]
pub struct SpoiledBag {
    alloc: Global,
    own: DequeBag,
    spoil: Spoil,
    keeps: bool,
    next: Option<Node>,
}

/// A bag for each worker, each of which steals from all others.
pub fn spoiled_bags(alloc: Global, workers: usize, spoil: Spoil) -> Result<Vec<SpoiledBag>, Fail> {
    let mut bags = Vec::new(alloc);
    for own in DequeBag::make(alloc, workers)? {
        bags.push(SpoiledBag {
            alloc,
            own,
            spoil,
            keeps: false,
            next: None,
        })?;
    }
    Ok(bags)
}

impl SpoiledBag {
    // The node, or a made up one before it.
    fn hand_out(&mut self, node: Node) -> Node {
        match self.spoil {
            Spoil::MakesUp => self.hand_out_behind(node),
            Spoil::Loses | Spoil::Doubles | Spoil::Refuses => node,
        }
    }

    fn hand_out_behind(&mut self, node: Node) -> Node {
        match node_on(self.alloc, 0) {
            Ok(other) => {
                self.next = Some(node);
                other
            }
            Err(_) => node,
        }
    }
}

/// A node by the link of its one decision.
pub fn node_on(alloc: Global, link: usize) -> Result<Node, NoMemory> {
    let root = Node::root(alloc);
    let triple = Triple {
        left: 0,
        right: 1,
        link,
        lag: 0,
    };
    root.child(triple, Side::Left)
}

impl Bag for SpoiledBag {
    fn push(&mut self, node: Node) -> Result<(), Node> {
        self.keeps = !self.keeps;
        match self.spoil {
            Spoil::Loses if !self.keeps => return Ok(()),
            Spoil::Refuses => return Err(node),
            Spoil::Doubles => {
                if let Ok(copy) = node.copy() {
                    let _ = self.own.push(copy);
                }
            }
            Spoil::Loses | Spoil::MakesUp => {}
        }
        self.own.push(node)
    }

    fn pop(&mut self) -> Option<Node> {
        if let Some(node) = self.next.take() {
            return Some(node);
        }
        let node = self.own.pop()?;
        Some(self.hand_out(node))
    }

    fn steal(&mut self) -> Option<Node> {
        let node = self.own.steal()?;
        Some(self.hand_out(node))
    }
}

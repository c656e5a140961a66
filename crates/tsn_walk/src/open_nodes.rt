//! Open nodes in a list.
ghost use Rattle.std.specs.Prelude.{◌<◌, length};

use crate::bag::Bag;
use std::alloc::Global;
use tsn_conflict::Node;

/// The nodes that are open, the first in preorder last.
#[derive(Drop)]
pub struct OpenNodes {
    nodes: Vec<Node>,
}

impl OpenNodes {
    /// None.
    pub fn none(alloc: Global) -> OpenNodes {
        OpenNodes {
            nodes: Vec::new(alloc),
        }
    }

    /// Gives node n in preorder to the bag n mod the number of bags, the first one last.
    pub fn deal<B: Bag>(self, bags: &mut [B])
        requires { 0 < length bags.old }
    {
        let mut number = self.nodes.len();
        for node in self.nodes {
            number -= 1;
            let bag = number % bags.len();
            let _ = bags[bag].push(node);
        }
    }
}

impl Bag for OpenNodes {
    fn push(&mut self, node: Node) -> Result<(), Node> {
        match self.nodes.push(node) {
            Ok(()) => Ok(()),
            Err(refused) => Err(refused.value),
        }
    }

    fn pop(&mut self) -> Option<Node> {
        self.nodes.pop()
    }

    fn steal(&mut self) -> Option<Node> {
        None
    }
}

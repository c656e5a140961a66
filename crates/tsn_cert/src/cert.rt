//! Trees: certificates of formats 1 and 2, and their nodes.
ghost use Rattle.std.specs.Prelude.{◌≡◌, map, not};
ghost use Rattle.std.specs.List.{list_all};
ghost use Rattle.tsn_cert.specs.Node.{tree_node};
ghost use Rattle.tsn_cert.specs.Cert.{is_tie, are_of, format_number};

use crate::chain::Chains;
use crate::leaf::{Leaf, LowerBound};
use std::marker::Model;
use tsn_model::Triple;

/// A node of a certificate.
#[derive(Drop)]
pub enum Node {
    /// A branch on which of two streams goes first on a link.
    Branch(Triple),
    /// A leaf that shows why its path needs no look.
    Leaf(Leaf),
    /// No flowspan on the path is below that of the plan, and each schedule on it is the plan or comes after it: at the
    /// first stream at which the sums of the chains aren't the plan's offsets the sum is greater, or there is none.
    Tie(LowerBound, Chains),
}

/// The format of a certificate.
#[derive(Clone, Copy, PartialEq, Eq)]
pub enum Format {
    /// It shows that no schedule has a flowspan below the target.
    One,
    /// It has ties too, and shows that none of the target's flowspan comes before the plan.
    Two,
}

impl Format {
    /// The number by which a file tells the format.
    pub fn number(self) -> u64
        ensures { result ≡ format_number self }
    {
        match self {
            Format::One => 1,
            Format::Two => 2,
        }
    }

    /// Whether these nodes are of the format: the first one has no ties.
    pub fn has(self, nodes: &[Node]) -> bool
        ensures { result ≡ are_of self (map tree_node nodes.now) }
    {
        match self {
            Format::One => have_no_ties(nodes),
            Format::Two => true,
        }
    }
}

fn have_no_ties(nodes: &[Node]) -> bool
    ensures { result ≡ list_all (λ node. not (is_tie (tree_node node))) nodes.now }
{
    nodes.iter().all(|node| !node.is_tie())
}

impl Node {
    /// Whether the node is a tie.
    pub fn is_tie(&self) -> bool
        ensures { result ≡ is_tie (tree_node self.now) }
    {
        matches!(self, Node::Tie(..))
    }
}

/// The nodes of a certificate in preorder, the Left child of a branch first.
#[derive(Drop)]
pub struct Nodes {
    list: Vec<Node>,
}

impl Model for Nodes {
    ghost use Rattle.std.specs.Prelude.{List, map};
    ghost use Rattle.tsn_model.specs.Certificate.{Node};
    ghost use Rattle.tsn_cert.specs.Node.{tree_node};

    ghost Value = { List Node };

    ghost view = { λ nodes. map tree_node nodes.list.items };
}

impl Nodes {
    /// The nodes of a list.
    pub fn of(list: Vec<Node>) -> Nodes
        ensures { result ≡ map tree_node list.items }
    {
        Nodes { list }
    }

    /// The nodes, in order.
    pub fn list(&self) -> &[Node]
        ensures { map tree_node result.now ≡ self.now }
    {
        self.list.as_slice()
    }

    /// Gives the nodes back.
    pub fn into_list(self) -> Vec<Node>
        ensures { map tree_node result.items ≡ self }
    {
        let Nodes { list } = self;
        list
    }
}

/// A certificate: a tree of decisions whose leaves show that no schedule has a flowspan below the target, in nanoseconds;
/// in format 2 also that none of that flowspan comes before the plan.
#[derive(Drop)]
pub struct Cert {
    pub format: Format,
    pub target: u64,
    pub nodes: Nodes,
}

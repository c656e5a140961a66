//! What a tree of decisions shows, in words.
use crate::count::{count_up, take_most};
use crate::leaf::{bound_of, frames_of, load_of};
use crate::load::Load;
use crate::network::TimedNetwork;
use crate::path::Path;
use crate::writer::Writer;
use std::alloc::{AllocError, Global};
use tsn_cert::{Cert, Certificate, Entries, Format, Leaf, LowerBound, Node};

/// The most nodes of a tree, or steps of an argument, that are told one by one.
pub const MOST_TOLD: usize = 12;

/// How many links are told.
pub const MOST_LINKS: usize = 5;

// The kinds of leaves, in the order in which they are told.
const KINDS: [&str; 6] = [
    " by a frame that arrives too late",
    " by the load of a link",
    " by a frame that is past the cycle's end or its latest instant",
    " by a link that is taken up past the cycle's end",
    " by orders that can't all hold",
    " by the list order",
];

// Which kind a leaf is of.
fn kind_of(node: &Node) -> Option<usize> {
    match node {
        Node::Branch(_) => None,
        Node::Leaf(Leaf::Bound(LowerBound::Late(..))) => Some(0),
        Node::Leaf(Leaf::Bound(LowerBound::Load(..))) => Some(1),
        Node::Leaf(Leaf::Overrun(..)) => Some(2),
        Node::Leaf(Leaf::Overload(..)) => Some(3),
        Node::Leaf(Leaf::Cycle(_)) => Some(4),
        Node::Tie(..) => Some(5),
    }
}

/// Whether there are so many nodes that they aren't told one by one.
pub fn is_large(certificate: &Certificate) -> bool {
    match certificate {
        Certificate::Tree(cert) => cert.nodes.list().len() > MOST_TOLD,
        Certificate::Argument(_) => false,
    }
}

impl Writer<'_> {
    /// Writes how many nodes a tree has, in whose place an argument is told.
    pub fn push_size(&mut self, cert: &Cert) {
        self.say_count("The certificate is a tree of ", cert.nodes.list().len());
        self.say(" nodes. An argument as prove finds it shows the same.\n")
    }

    /// Writes why the target of a tree is right.
    pub fn push_tree(&mut self, cert: &Cert) -> Result<(), AllocError> {
        let nodes = cert.nodes.list();
        if nodes.len() <= MOST_TOLD {
            let mut path = Path::new(self.alloc, self.network);
            for node in nodes {
                self.push_leaf(&path, node);
                path.go_on(node);
            }
            path.finish()?;
        } else {
            self.push_kinds(nodes);
            self.push_links(nodes)?;
            self.push_tightest(nodes)?;
        }
        self.push_first(cert);
        Ok(())
    }

    /// Writes that the plan is the first of its flowspan, where a tree shows it.
    pub fn push_first(&mut self, cert: &Cert) {
        if cert.format == Format::Two && cert.target as i128 <= self.network.cycle() {
            self.say("Of the schedules of this flowspan the plan is the first in list order.\n");
        }
    }

    // Writes how many leaves there are, and how many of each kind.
    fn push_kinds(&mut self, nodes: &[Node]) {
        let mut counts = [0usize; 6];
        let mut leaves: usize = 0;
        for node in nodes {
            if let Some(kind) = kind_of(node) {
                count_up(&mut counts, kind);
                leaves = leaves.wrapping_add(1);
            }
        }
        self.say_count("", leaves);
        self.say(" ways to order frames are ruled out");
        let mut joint = ": ";
        for (kind, count) in counts.iter().enumerate() {
            if *count > 0 {
                self.say_count(joint, *count);
                self.say(KINDS[kind]);
                joint = ", ";
            }
        }
        self.say(".\n")
    }

    // Writes how many leaves the load of each link rules out, of the links that rule out most.
    fn push_links(&mut self, nodes: &[Node]) -> Result<(), AllocError> {
        let mut counts = vec![in self.alloc; 0; self.network.problem.links()]?;
        for node in nodes {
            if let Some((link, _)) = load_of(node) {
                count_up(&mut counts, link);
            }
        }
        for _ in 0..MOST_LINKS {
            let Some((link, count)) = take_most(&mut counts) else {
                break;
            };
            self.say("The load of ");
            self.push_link(link);
            self.say_count(", rules out ", count);
            self.say(".\n");
        }
        Ok(())
    }

    fn push_tightest(&mut self, nodes: &[Node]) -> Result<(), AllocError> {
        let Some((link, entries, load)) = tightest(self.alloc, self.network, nodes)? else {
            return Ok(());
        };
        let frames = frames_of(self.alloc, entries)?;
        self.say("In the tightest of these ways, on ");
        self.push_load(link, &frames, load);
        self.say(".\n");
        Ok(())
    }
}

/// The load that bounds the flowspan by the least, the first of equal ones: its link, its entries, and what they come to.
pub fn tightest<'a>(
    alloc: Global,
    network: TimedNetwork<'_>,
    nodes: &'a [Node],
) -> Result<Option<(usize, &'a Entries, Load)>, AllocError> {
    let mut path = Path::new(alloc, network);
    let mut least = i128::MAX;
    let mut found = None;
    for node in nodes {
        if let Some(LowerBound::Load(link, entries)) = bound_of(node) {
            let load = path.load(*link, entries);
            if load.bound() < least {
                least = load.bound();
                found = Some((*link, entries, load));
            }
        }
        path.go_on(node);
    }
    path.finish()?;
    Ok(found)
}

//! The certificate of a finished tree, whose nodes are given one at a time.
ghost use Rattle.std.specs.Prelude.{◌≡◌, ◌≢◌, ◌<◌, ◌^◌, ◌∷◌, [], take, drop, ℕ, length, Ok, None, Option, map, IfOk, OnErr, MatchOption, option_copied, slice_index_or};
ghost use Rattle.tsn_cert.specs.Node.{tree_node};
ghost use Rattle.tsn_model.specs.Search.{open_paths};
ghost use Rattle.tsn_model.specs.Order.{node_of};
ghost use Rattle.tsn_model.specs.Schedule.{common};
ghost use Rattle.tsn_model.specs.Certificate.{tie_node};
ghost use Rattle.tsn_cert.specs.Leaf.{bound_leaf};
ghost use Rattle.tsn_conflict.specs.Outcome.{outcome_of};
ghost use Rattle.tsn_book.specs.Arena.{IsArena, settled_in};
ghost use Rattle.tsn_book.specs.Book.{planned, IsPlan, HasTie};
ghost use Rattle.tsn_book.specs.Spelling.{IsOrder, IsSpelling, left_nodes};
ghost use Rattle.tsn_book.specs.declared.log.Settled.{Settled};
ghost use Rattle.tsn_cert.specs.declared.cert.Format.TheVariants.{Two};

use crate::arena::Tree;
use crate::log::Log;
use crate::statuses::Status;
use std::alloc::{AllocError, Global};
use std::marker::Model;
use tsn_cert::{Cert, Format, Leaf, LowerBound, Node, Nodes};
use tsn_conflict::outcome::Look;
use tsn_conflict::{NoMemory, whole_chains};
use tsn_diff::Forest;
use tsn_timing::{Solved, Timing};

/// A certificate of format 2, whose nodes are given one at a time: a split's node before those of its Left child, and these
/// before those of its Right child.
#[derive(Drop)]
pub struct Spelling {
    network: Timing,
    events: Log,
    plan: Option<Solved>,
    target: u64,
    // The numbers of the events in the order of their nodes, and how many of them were given.
    order: Vec<usize>,
    given: usize,
}

impl Model for Spelling {
    ghost use Rattle.std.specs.Prelude.{drop};
    ghost use Rattle.tsn_cert.specs.declared.cert.Cert.{Cert};
    ghost use Rattle.tsn_cert.specs.declared.cert.Format.TheVariants.{Two};
    ghost use Rattle.tsn_book.specs.Spelling.{IsSpelling, left_nodes};

    ghost Value = { Cert };

    ghost view = { λ s. record {
      format = Two;
      target = s.target;
      nodes = left_nodes s.network s.plan s.events.items (drop s.given s.order.items);
    } };

    ghost invariant = { λ s. IsSpelling s.network s.plan s.events.items (drop s.given s.order.items) };
}

impl Spelling {
    /// The nodes of events in an order.
    pub(crate) fn of(
        network: Timing,
        events: Log,
        plan: Option<Solved>,
        target: u64,
        order: Vec<usize>,
    ) -> Spelling
        requires { IsSpelling network plan events.items order.items }
        ensures { result ≡ record { format = Two; target = target; nodes = left_nodes network plan events.items order.items } }
    {
        Spelling {
            network,
            events,
            plan,
            target,
            order,
            given: 0,
        }
    }

    /// The certificate's format.
    pub fn format(&self) -> Format
        ensures { result ≡ self.now.format }
    {
        // Whatever is left, the format is this one.
        let _ = &self.target;
        Format::Two
    }

    /// The certificate's target, in nanoseconds.
    pub fn target(&self) -> u64
        ensures { result ≡ self.now.target }
    {
        self.target
    }

    /// The next node, or none where all were given. The memory of what was settled there is given back with it. The error
    /// says that there was no memory for the node, which is left out then.
    pub fn next(&mut self) -> Result<Option<Node>, NoMemory>
        ensures node { IfOk result (λ next. MatchOption next (self.old.nodes ≡ []) (λ node. self.old.nodes ≡ tree_node node ∷ self.new.nodes)) }
        ensures none { result ≡ Ok None → self.new ≡ self.old }
        ensures left_out { OnErr result (self.new.nodes ≡ drop 1 self.old.nodes) }
        ensures format { self.new.format ≡ self.old.format }
        ensures target { self.new.target ≡ self.old.target }
    {
        if self.given >= self.order.len() {
            return Ok(None);
        }
        let alloc = *self.order.allocator();
        let number = self.order[self.given];
        self.given += 1;
        let plan = self.plan.as_ref();
        let node = take_node(alloc, &self.network, &mut self.events, number, plan)?;
        Ok(Some(node))
    }

    /// The certificate of the nodes that are left. The error says that there was no memory.
    pub fn into_cert(self) -> Result<Cert, NoMemory>
        ensures { IfOk result (λ cert. cert ≡ self) }
    {
        let mut spelling = self;
        let target = spelling.target;
        let rest = spelling.rest();
        drop(spelling);
        Ok(Cert {
            format: Format::Two,
            target,
            nodes: Nodes::of(rest?),
        })
    }

    fn rest(&mut self) -> Result<Vec<Node>, NoMemory>
        ensures { IfOk result (λ nodes. map tree_node nodes.items ≡ self.old.nodes) }
    {
        let mut nodes = Vec::with_capacity(*self.order.allocator(), self.order.len())?;
        while let Some(node) = self.next()? {
            if let Err(error) = nodes.push(node) {
                return Err(AllocError::from(error).into());
            }
        }
        Ok(nodes)
    }
}

/// The numbers of the events of a tree in which nothing is open, in the order of their paths.
pub(crate) fn order_of(alloc: Global, tree: &Tree) -> Result<Vec<usize>, AllocError>
    requires tree { IsArena tree.now }
    requires finished { open_paths (settled_in tree.now) ≡ [] }
    ensures { IfOk result (λ order. IsOrder tree.now.network (settled_in tree.now) order.items) }
{
    let mut order = Vec::with_capacity(alloc, tree.events.len())?;
    let mut stack = vec![in alloc; 0]?;
    while let Some(place) = stack.pop() {
        let status = tree.places.status(place);
        match status {
            Status::Open => unreachable!(),
            Status::Split {
                children,
                event,
                ..
            } => {
                stack.push(children + 1)?;
                stack.push(children)?;
                order.push(event)?;
            }
            Status::Leaf(event) => order.push(event)?,
        }
    }
    Ok(order)
}

// Takes the node of an event out.
fn take_node(
    alloc: Global,
    network: &Timing,
    events: &mut Log,
    event: usize,
    plan: Option<&Solved>,
) -> Result<Node, NoMemory>
    requires within { event < length events.old.items }
    requires plan { IsPlan network.now (option_copied plan) }
    requires tie { (d : Settled) → HasTie network.now (option_copied plan) (outcome_of (slice_index_or events.old.items event d).look) }
    ensures node { IfOk result (λ node. (d : Settled)
        → tree_node node ≡ node_of network.now (planned (option_copied plan.entry)) (outcome_of (slice_index_or events.old.items event d).look)) }
    ensures counted { length events.new.items ≡ length events.old.items }
    ensures others { (other : ℕ) → other ≢ event → (d : Settled) → slice_index_or events.new.items other d ≡ slice_index_or events.old.items other d }
{
    node_from(alloc, network, events.take(event), plan)
}

fn node_from(
    alloc: Global,
    network: &Timing,
    look: Look,
    plan: Option<&Solved>,
) -> Result<Node, NoMemory>
    requires plan { IsPlan network.now (option_copied plan) }
    requires tie { HasTie network.now (option_copied plan) (outcome_of look) }
    ensures { IfOk result (λ node. tree_node node ≡ node_of network.now (planned (option_copied plan.entry)) (outcome_of look)) }
{
    // The network stands in the contract alone.
    let _ = network;
    match look {
        Look::Split(triple) => Ok(Node::Branch(triple)),
        Look::Solved {
            solved,
            leaf,
            mut chains,
        } => match plan {
            Some(best) => {
                if solved.flowspan() == best.flowspan() {
                    let count = common(solved.valid().offsets(), best.valid().offsets());
                    chains.truncate(count + 1);
                    tie_from(alloc, leaf, &chains)
                } else {
                    Ok(Node::Leaf(Leaf::Bound(leaf)))
                }
            }
            None => Ok(Node::Leaf(Leaf::Bound(leaf))),
        },
        Look::Pruned { leaf, .. } => Ok(Node::Leaf(Leaf::Bound(leaf))),
        Look::Tied {
            bound,
            leaf,
            chains,
        } => match plan {
            Some(best) => {
                if bound == best.flowspan() {
                    tie_from(alloc, leaf, &chains)
                } else {
                    Ok(Node::Leaf(Leaf::Bound(leaf)))
                }
            }
            None => Ok(Node::Leaf(Leaf::Bound(leaf))),
        },
        Look::Refuted(leaf) => Ok(Node::Leaf(leaf)),
    }
}

fn tie_from(alloc: Global, bound: LowerBound, chains: &Forest) -> Result<Node, NoMemory>
    ensures { IfOk result (λ node. tree_node node ≡ tie_node (bound_leaf bound) chains.now) }
{
    let chains = whole_chains(alloc, chains)?;
    Ok(Node::Tie(bound, chains))
}

// How many numbers the lists have in common before they differ.
fn common(offsets: &[u64], others: &[u64]) -> usize
    ensures count { result ≡ common offsets.now others.now }
    ensures short { result < 2 ^ 63 }
{
    let mut count = 0;
    while count < offsets.len() && count < others.len() && offsets[count] == others[count] {
        count += 1;
    }
    count
}

//! The leaves of a tree of decisions, in words.
use crate::path::Path;
use crate::writer::Writer;
use std::alloc::{AllocError, Global};
use tsn_cert::{Chain, Entries, Leaf, LowerBound, Node};
use tsn_model::{Decision, Frame};

/// The bound that a node shows for the flowspan, if it does.
pub fn bound_of(node: &Node) -> Option<&LowerBound> {
    match node {
        Node::Leaf(Leaf::Bound(bound)) | Node::Tie(bound, _) => Some(bound),
        _ => None,
    }
}

/// The link and the entries of a node that is about a link's load.
pub fn load_of(node: &Node) -> Option<(usize, &Entries)> {
    match node {
        Node::Leaf(Leaf::Overload(link, entries)) => Some((*link, entries)),
        _ => match bound_of(node)? {
            LowerBound::Load(link, entries) => Some((*link, entries)),
            LowerBound::Late(..) => None,
        },
    }
}

/// The frames of entries.
pub fn frames_of(alloc: Global, entries: &Entries) -> Result<Vec<Frame>, AllocError> {
    let mut frames = Vec::new(alloc);
    for entry in entries.list() {
        frames.push(entry.frame)?;
    }
    Ok(frames)
}

// Whether these decisions are all among others.
fn are_among(decisions: &[Decision], others: &[Decision]) -> bool {
    for decision in decisions {
        if !others.contains(decision) {
            return false;
        }
    }
    true
}

impl Writer<'_> {
    /// Writes what a node shows where the decisions of the path to it hold, if it is a leaf.
    pub fn push_leaf(&mut self, path: &Path<'_>, node: &Node) {
        match node {
            Node::Branch(_) => {}
            Node::Leaf(leaf) => {
                self.push_path(path);
                self.push_shown(path, leaf);
                self.say(".\n")
            }
            Node::Tie(bound, _) => {
                self.push_path(path);
                self.push_bound(path, bound);
                self.say(
                    "; of the schedules done then, none comes before the plan in list order.\n",
                )
            }
        }
    }

    // Writes the decisions of a path.
    fn push_path(&mut self, path: &Path<'_>) {
        if path.decisions().is_empty() {
            return self.say("In any order: ");
        }
        self.say("If ");
        self.push_orders(path.decisions());
        self.say(": ")
    }

    fn push_shown(&mut self, path: &Path<'_>, leaf: &Leaf) {
        match leaf {
            Leaf::Bound(bound) => self.push_bound(path, bound),
            Leaf::Overrun(stream, chain) => {
                self.push_no_room(*stream, path.offset(*stream, chain))
            }
            Leaf::Cycle(chain) => self.push_closed(path, chain),
            Leaf::Overload(link, entries) => {
                let load = path.load(*link, entries);
                let frames = self.kept(frames_of(self.alloc, entries));
                self.say("on ");
                self.push_begin(*link, &frames, load);
                self.say_number(": so the link is taken up until ", load.free());
                self.say_number(", past the cycle's end at ", self.network.cycle())
            }
        }
    }

    fn push_bound(&mut self, path: &Path<'_>, bound: &LowerBound) {
        match bound {
            LowerBound::Late(stream, chain) => {
                let offset = path.offset(*stream, chain);
                let arrival = offset.wrapping_add(self.network.times(*stream).arrival);
                self.say_stream("stream ", *stream);
                self.say_number(" can't start before ", offset);
                self.say(" and arrives");
                self.say(self.network.arrival_words(*stream));
                self.say_number(" at ", arrival);
                self.say(" or later")
            }
            LowerBound::Load(link, entries) => {
                self.say("on ");
                let frames = self.kept(frames_of(self.alloc, entries));
                self.push_load(*link, &frames, path.load(*link, entries))
            }
        }
    }

    // Writes that the decisions of a closed chain can't all hold.
    fn push_closed(&mut self, path: &Path<'_>, chain: &Chain) {
        let decisions = self.kept(path.chain(self.alloc, chain));
        let is_said = are_among(path.decisions(), &decisions);
        self.push_round(&decisions, is_said)
    }
}

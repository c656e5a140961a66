//! A problem: a network and the streams that are to be planned on it, with their names.
ghost use Rattle.std.specs.Prelude.{◌≡◌, ◌<◌, Some, length, slice_get};
ghost use Rattle.tsn_model.specs.Network.{stream_count};
ghost use Rattle.tsn_timing.specs.Problem.{HasNames};
ghost use Rattle.tsn_timing.specs.ProblemView.{names_in};

use crate::timing::Timing;
use std::marker::Model;
use std::ops::Deref;
use tsn_model::plain::PlainNetwork;

/// A network within its limits, with the names of its nodes and streams: a `PlainNetwork`, whose calls it has, the times of its
/// streams, which are made once, and the names.
/// Nodes, links and streams are numbered from 0 in file order: cable k is link 2k from its node `a` to its node `b`, and
/// link 2k + 1 back. A stream without a release may start at once, and one without a latest instant has the cycle to arrive.
/// One that has an offset already has no other.
#[derive(Drop)]
pub struct Problem {
    timing: Timing,
    nodes: Vec<String>,
    streams: Vec<String>,
}

impl Model for Problem {
    ghost use Rattle.tsn_timing.specs.Problem.{NamedNetwork, HasNames};

    ghost Value = { NamedNetwork };

    ghost use Rattle.tsn_timing.specs.ProblemModel.{named_network};

    ghost view = { named_network };

    ghost invariant = { λ p. HasNames (named_network p) };
}

impl Deref for Problem {
    type Target = PlainNetwork;

    ghost deref_gives = { λ problem network. network ≡ problem.network };

    /// The network, without its names.
    fn deref(&self) -> &PlainNetwork
        ensures { result.now ≡ self.now.network }
    {
        self.timing.plain()
    }
}

impl Problem {
    /// A network, by its times, with the names of its nodes and streams, one for each.
    pub fn new(timing: Timing, nodes: Vec<String>, streams: Vec<String>) -> Problem
        requires { HasNames
            (record { network = timing; node_names = names_in nodes.items; stream_names = names_in streams.items }) }
        ensures { result ≡ record { network = timing; node_names = names_in nodes.items; stream_names = names_in streams.items } }
    {
        Problem {
            timing,
            nodes,
            streams,
        }
    }

    /// The times of its streams.
    pub fn timing(&self) -> &Timing
        ensures { result.now ≡ self.now.network }
    {
        &self.timing
    }

    /// How many nodes there are, at most 1,024. Each has a name.
    pub fn nodes(&self) -> usize
        ensures count { result ≡ length self.now.network.procs }
        ensures named { result ≡ length self.now.node_names }
    {
        self.timing.plain().nodes()
    }

    /// The name of a node.
    pub fn node_name(&self, node: usize) -> &str
        requires { node < length self.now.node_names }
        ensures { slice_get self.now.node_names node ≡ Some result.now }
    {
        self.nodes[node].as_str()
    }

    /// How many streams there are, 1 to 2,048. Each has a name.
    pub fn streams(&self) -> usize
        ensures count { result ≡ stream_count self.now.network }
        ensures named { result ≡ length self.now.stream_names }
    {
        self.timing.plain().streams()
    }

    /// The name of a stream.
    pub fn stream_name(&self, stream: usize) -> &str
        requires { stream < length self.now.stream_names }
        ensures { slice_get self.now.stream_names stream ≡ Some result.now }
    {
        self.streams[stream].as_str()
    }
}

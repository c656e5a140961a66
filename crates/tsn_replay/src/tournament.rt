//! The ports of a replay, in order of what starts next.
ghost use Rattle.std.specs.Prelude.{◌≡◌, ◌*◌, ◌≤◌, ◌<◌, ℕ, length, slice_index};
ghost use Rattle.tsn_replay.specs.Tournament.{most_ports, AreLesserBut};

use crate::port::Port;
use std::alloc::{AllocError, Global};
use std::marker::Model;

/// A port for each list, by its number, and a tree of the instants at which something starts: node k holds the lesser
/// instant of nodes 2k and 2k + 1, and the last nodes, the leaves, are the ports'.
#[derive(Drop)]
pub struct PortQueue {
    ports: Vec<Port>,
    leaves: usize,
    times: Vec<u64>,
}

impl Model for PortQueue {
    ghost use Rattle.std.specs.Prelude.{List};
    ghost use Rattle.tsn_replay.specs.declared.port.Port.{Port};
    ghost use Rattle.tsn_replay.specs.Tournament.{IsTournament};

    ghost Value = { List Port };

    ghost view = { λ q. q.ports.items };

    ghost invariant = { λ q. IsTournament q.ports.items q.leaves q.times.items };
}

impl PortQueue {
    ghost use Rattle.std.specs.Prelude.{◌≡◌, ◌≤◌, ◌<◌, ℕ, length, slice_set, IfOk, MatchOption};
    ghost use Rattle.tsn_replay.specs.Ports.{IsFirstPort, port_time, port_in};
    ghost use Rattle.tsn_replay.specs.Tournament.{most_ports};

    /// So many ports where nothing ever starts.
    pub fn new(alloc: Global, count: usize) -> Result<PortQueue, AllocError>
        requires { count ≤ most_ports }
        ensures { IfOk result (λ ports. length ports ≡ count) }
    {
        let leaves = leaves_for(count);
        let never = Port {
            head: None,
            scheduled: u64::MAX,
            background: u64::MAX,
        };
        Ok(PortQueue {
            ports: vec![in alloc; never; count]?,
            leaves,
            times: vec![in alloc; u64::MAX; 2 * leaves]?,
        })
    }

    /// The port of that number.
    pub fn get(&self, number: usize) -> Port
        requires { number < length self.now }
        ensures { result ≡ port_in self.now number }
    {
        self.ports[number]
    }

    /// Puts a port in place of the one of that number.
    pub fn set(&mut self, number: usize, port: Port)
        requires { number < length self.old }
        ensures { self.new ≡ slice_set self.old number port }
    {
        let leaf = self.leaves + number;
        self.ports[number] = port;
        self.times[leaf] = port.time();
        carry(&mut self.times, self.leaves, leaf);
    }

    /// The port where something starts first, the least number of equal ones, if that is before the end.
    pub fn first(&self, end: u64) -> Option<usize>
        ensures { MatchOption result
            ((number : ℕ) → number < length self.now → end ≤ port_time (port_in self.now number))
            (λ number. IsFirstPort self.now end number) }
    {
        if self.times[1] < end {
            Some(first_leaf(&self.times, self.leaves) - self.leaves)
        } else {
            None
        }
    }
}

// The least power of two that is at least so many.
fn leaves_for(count: usize) -> usize
    requires { count ≤ most_ports }
    ensures some { 1 ≤ result }
    ensures few { result ≤ 2 * most_ports }
    ensures fits { count ≤ result }
{
    let mut leaves = 1;
    while leaves < count {
        leaves *= 2;
    }
    leaves
}

// Makes the nodes above a leaf anew.
fn carry(times: &mut [u64], leaves: usize, leaf: usize)
    requires few { leaves ≤ 2 * most_ports }
    requires count { length times.old ≡ 2 * leaves }
    requires low { leaves ≤ leaf }
    requires high { leaf < 2 * leaves }
    requires lesser { AreLesserBut leaf leaves times.old }
    ensures count { length times.new ≡ length times.old }
    ensures lesser { AreLesserBut 0 leaves times.new }
    ensures leaves { (k : ℕ) → leaves ≤ k → slice_index times.new k ≡ slice_index times.old k }
{
    let mut node = leaf;
    while 1 < node {
        node /= 2;
        times[node] = times[2 * node].min(times[2 * node + 1]);
    }
}

// The first leaf that holds the least instant.
fn first_leaf(times: &[u64], leaves: usize) -> usize
    requires some { 1 ≤ leaves }
    requires few { leaves ≤ 2 * most_ports }
    requires count { length times.now ≡ 2 * leaves }
    requires lesser { AreLesserBut 0 leaves times.now }
    ensures low { leaves ≤ result }
    ensures high { result < 2 * leaves }
    ensures least { slice_index times.now result ≡ slice_index times.now 1 }
{
    let mut node = 1;
    while node < leaves {
        let left = 2 * node;
        node = if times[left] <= times[left + 1] {
            left
        } else {
            left + 1
        };
    }
    node
}

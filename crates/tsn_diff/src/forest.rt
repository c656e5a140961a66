//! Chains of least offsets, each kept by its last arc.
ghost use Rattle.std.specs.Prelude.{◌≡◌, ◌++◌, ◌<◌, ◌≤◌, ◌∷◌, [], IfOk, MatchOption, length, map, take, slice_index_or};
ghost use Rattle.std.specs.List.{range_with_len};
ghost use Rattle.tsn_diff.specs.Chains.{IsRooted, chain_in};
ghost use Rattle.tsn_diff.specs.declared.forest.TheConstants.{MAX_STREAMS};

use std::alloc::{AllocError, Global};
use std::marker::Model;

/// The greatest number of streams.
pub const MAX_STREAMS: usize = 128;

/// The last arc of a stream's chain: its index in the list of arcs, and the stream where it begins.
#[derive(Clone, Copy, PartialEq, Eq)]
pub struct Step {
    pub index: usize,
    pub from: usize,
}

/// The chains that show the least offsets of the first streams, one for each, by the indexes of their arcs. What goes before the
/// last arc of a chain is the chain of the stream where that arc begins. So an arc is kept for each stream, and no chain whole.
#[derive(Drop)]
pub struct Forest {
    last: Vec<Option<Step>>,
    count: usize,
}

impl Model for Forest {
    ghost use Rattle.std.specs.Prelude.{◌≤◌, List, ℕ, length, map};
    ghost use Rattle.std.specs.List.{range_with_len};
    ghost use Rattle.tsn_diff.specs.Chains.{IsRooted, chain_in};

    ghost Value = { List (List ℕ) };

    ghost view = { λ forest. map (chain_in forest.last.items) (range_with_len 0 forest.count) };

    ghost invariant = { λ forest. IsRooted forest.last.items × (1 ≤ forest.count) × (forest.count ≤ length forest.last.items) };
}

/// What is left of a chain that is walked back from its end.
#[derive(Drop)]
pub struct Walk<'a> {
    last: &'a [Option<Step>],
    at: usize,
}

impl<'a> Model for Walk<'a> {
    ghost use Rattle.std.specs.Prelude.{◌<◌, List, ℕ, length};
    ghost use Rattle.tsn_diff.specs.Chains.{IsRooted, chain_in};

    ghost Value = { List ℕ };

    ghost view = { λ walk. chain_in walk.last.now walk.at };

    ghost invariant = { λ walk. IsRooted walk.last.now × (walk.at < length walk.last.now) };
}

impl Forest {
    /// The chains of the first streams.
    pub fn of(last: Vec<Option<Step>>, count: usize) -> Forest
        requires rooted { IsRooted last.items }
        requires some { 1 ≤ count }
        requires within { count ≤ length last.items }
        ensures { result ≡ map (chain_in last.items) (range_with_len 0 count) }
    {
        Forest { last, count }
    }

    /// How many chains there are.
    pub fn len(&self) -> usize
        ensures count { result ≡ length self.now }
        ensures some { 1 ≤ result }
        ensures few { result ≤ MAX_STREAMS }
    {
        self.count
    }

    /// Leaves out all but so many of the first chains.
    pub fn truncate(&mut self, count: usize)
        requires { 1 ≤ count }
        ensures { self.new ≡ take count self.old }
    {
        if count < self.count {
            self.count = count;
        }
    }

    /// The chain of a stream, to be walked back from its end.
    pub fn walk(&self, stream: usize) -> Walk<'_>
        requires { stream < length self.now }
        ensures chain { result ≡ slice_index_or self.now stream [] }
        ensures short { length result ≤ MAX_STREAMS }
    {
        Walk {
            last: &self.last,
            at: stream,
        }
    }

    /// The chain of a stream. The error says that there was no memory.
    pub fn chain(&self, alloc: Global, stream: usize) -> Result<Vec<usize>, AllocError>
        requires { stream < length self.now }
        ensures chain { IfOk result (λ chain. chain.items ≡ slice_index_or self.now stream []) }
        ensures short { IfOk result (λ chain. length chain.items ≤ MAX_STREAMS) }
    {
        let mut chain = Vec::new(alloc);
        let mut walk = self.walk(stream);
        while let Some(index) = walk.back() {
            chain.push(index)?;
        }
        chain.reverse();
        Ok(chain)
    }
}

impl Walk<'_> {
    /// The index of the last arc that is left, which is left no more; none where no arc is left.
    pub fn back(&mut self) -> Option<usize>
        ensures { MatchOption result (self.old ≡ []) (λ index. self.old ≡ self.new ++ index ∷ []) }
    {
        let step = self.last[self.at]?;
        self.at = step.from;
        Some(step.index)
    }
}

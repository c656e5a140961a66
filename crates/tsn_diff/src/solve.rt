//! Least offsets from a list of arcs.
ghost use Rattle.std.specs.Prelude.{◌≡◌, ◌++◌, ◌≤◌, ◌<◌, [], ◌∷◌, All, IfOk, IsTrue, ◌↔◌, length, map, replicate};
ghost use Rattle.std.specs.List.{range_with_len};
ghost use Rattle.tsn_diff.specs.Limits.{IsArcAmong};
ghost use Rattle.tsn_diff.specs.Answers.{Answers, Solves};
ghost use Rattle.tsn_diff.specs.Forest.{IsForest, IsRaised, Settles, labelling_by};
ghost use Rattle.tsn_diff.specs.Offsets.{chain_of};
ghost use Rattle.tsn_diff.specs.Labels.{labelling_of};
ghost use Rattle.tsn_diff.specs.Releases.{releases_of};

use crate::forest::{Forest, MAX_STREAMS};
use crate::labels::{Labels, Progress};
use std::alloc::{AllocError, Global};
use std::marker::Model;
use tsn_model::{Arc, NoMemory};

/// The greatest weight of an arc, in either direction, in nanoseconds.
pub const MAX_WEIGHT: i64 = 1_210_000_000;

/// The greatest release of a stream, in nanoseconds.
pub const MAX_RELEASE: u64 = 1_000_000_000;

/// Streams, and the release of each: the least offset that it may have before any arc is taken into account.
#[derive(Drop)]
pub struct Net {
    releases: Releases,
}

#[derive(Drop)]
enum Releases {
    Zero(usize),
    Listed(Vec<u64>),
}

/// What a system of arcs comes to.
#[derive(Drop)]
pub enum Feasibility {
    /// The least offsets that meet every arc.
    Least(Least),
    /// No offsets meet every arc, as these arcs show: a closed chain of positive sum, by their indexes in the list.
    Positive(Vec<usize>),
}

/// The least offsets of streams of some releases that meet a list of arcs, with the chains that show them.
#[derive(Drop)]
pub struct Least {
    pub(crate) net: Net,
    pub(crate) arcs: Vec<Arc>,
    pub(crate) labels: Labels,
}

impl Model for Net {
    ghost use Rattle.std.specs.Prelude.{List, ℕ, All, length, ◌≤◌};
    ghost use Rattle.tsn_diff.specs.Releases.{releases_of};
    ghost use Rattle.tsn_diff.specs.declared.solve.TheConstants.{MAX_RELEASE};
    ghost use Rattle.tsn_diff.specs.declared.forest.TheConstants.{MAX_STREAMS};

    ghost Value = { List ℕ };

    ghost view = { λ net. releases_of net.releases };

    ghost invariant = { λ net. (length (releases_of net.releases) ≤ MAX_STREAMS)
        × All (λ release. release ≤ MAX_RELEASE) (releases_of net.releases) };
}

impl Model for Least {
    ghost use Rattle.tsn_diff.specs.Offsets.{LeastOffsets};
    ghost use Rattle.tsn_diff.specs.Forest.{Settles, least_by};
    ghost use Rattle.tsn_diff.specs.Labels.{labelling_of};

    ghost Value = { LeastOffsets };

    ghost view = { λ least. least_by least.net least.arcs.items (labelling_of least.labels) };

    ghost invariant = { λ least. Settles least.net least.arcs.items (labelling_of least.labels) };
}

impl Net {
    /// So many streams, each of release 0.
    pub fn new(streams: usize) -> Self
        requires { streams ≤ MAX_STREAMS }
        ensures { result ≡ replicate streams 0 }
    {
        Net {
            releases: Releases::Zero(streams),
        }
    }

    /// Streams of these releases, in nanoseconds.
    pub fn released(releases: Vec<u64>) -> Self
        requires few { length releases.items ≤ MAX_STREAMS }
        requires early { All (λ release. release ≤ MAX_RELEASE) releases.items }
        ensures { result ≡ releases.items }
    {
        Net {
            releases: Releases::Listed(releases),
        }
    }

    /// How many streams there are.
    pub fn streams(&self) -> usize
        ensures { result ≡ length self.now }
    {
        match &self.releases {
            Releases::Zero(streams) => *streams,
            Releases::Listed(releases) => releases.len(),
        }
    }

    /// Whether `least` takes these arcs: their streams are there, and no weight is above `MAX_WEIGHT` in either direction.
    pub fn takes(&self, arcs: &[Arc]) -> bool
        ensures { IsTrue result ↔ All (IsArcAmong (length self.now)) arcs.now }
    {
        let streams = self.streams();
        arcs.iter().all(|arc| is_among(arc, streams))
    }

    /// The least offsets that meet the arcs, or a closed chain of positive sum. The error says that there was no memory.
    pub fn least(&self, alloc: Global, arcs: &[Arc]) -> Result<Feasibility, NoMemory>
        requires { All (IsArcAmong (length self.now)) arcs.now }
        ensures { IfOk result (Answers self.now arcs.now) }
    {
        let all = Vec::from_slice(alloc, arcs)?;
        let labels = self.releases.labels(alloc)?;
        Ok(settle(alloc, self.copied(alloc)?, all, labels)?)
    }
}

impl Net {
    /// The offsets that no arc has raised.
    pub(crate) fn unraised(self, alloc: Global) -> Result<Least, NoMemory>
        ensures solves { IfOk result (Solves self []) }
        ensures settles { IfOk result (λ least. Settles self [] (labelling_by least)) }
    {
        let labels = self.releases.labels(alloc)?;
        Ok(Least {
            net: self,
            arcs: Vec::new(alloc),
            labels,
        })
    }

    // The same releases once more.
    fn copied(&self, alloc: Global) -> Result<Net, AllocError>
        ensures { IfOk result (λ net. net ≡ self.now) }
    {
        let releases = match &self.releases {
            Releases::Zero(streams) => Releases::Zero(*streams),
            Releases::Listed(releases) => Releases::Listed(Vec::from_slice(alloc, releases)?),
        };
        Ok(Net { releases })
    }
}

impl Releases {
    // Labels that no arc has raised yet.
    fn labels(&self, alloc: Global) -> Result<Labels, AllocError>
        ensures offsets { IfOk result (λ labels. labels.offsets.items ≡ releases_of self.now) }
        ensures last { IfOk result
            (λ labels. labels.last.items ≡ replicate (length labels.offsets.items) None) }
    {
        let offsets = match self {
            Releases::Zero(streams) => vec![in alloc; 0; *streams]?,
            Releases::Listed(releases) => Vec::from_slice(alloc, releases)?,
        };
        let last = vec![in alloc; None; offsets.len()]?;
        Ok(Labels { offsets, last })
    }
}

impl Least {
    /// The offset of each stream, in nanoseconds.
    pub fn offsets(&self) -> &[u64]
        ensures { result.now ≡ self.now.offsets }
    {
        &self.labels.offsets
    }

    /// The arcs for which these are the least offsets.
    pub fn arcs(&self) -> &[Arc]
        ensures value { result.now ≡ self.now.arcs }
        ensures among { All (IsArcAmong (length self.now.releases)) self.now.arcs }
        ensures solves { Solves self.now.releases self.now.arcs self.now }
    {
        &self.arcs
    }

    /// A chain that shows the stream's offset, by the indexes of its arcs: empty where the offset is the release.
    pub fn chain(&self, alloc: Global, stream: usize) -> Result<Vec<usize>, NoMemory>
        requires { stream < length self.now.offsets }
        ensures { IfOk result (λ chain. chain.items ≡ chain_of self.now stream) }
    {
        Ok(self.labels.chain(alloc, None, stream)?)
    }

    /// The chains that show the offsets of the first streams. The error says that there was no memory.
    pub fn forest(&self, alloc: Global, count: usize) -> Result<Forest, NoMemory>
        requires some { 1 ≤ count }
        requires within { count ≤ length self.now.offsets }
        ensures { IfOk result (λ forest. forest ≡ map (chain_of self.now) (range_with_len 0 count)) }
    {
        let last = Vec::from_slice(alloc, &self.labels.last)?;
        Ok(Forest::of(last, count))
    }

    /// The least offsets with one more arc put last, or a closed chain of positive sum. The error says that there was no memory.
    pub fn with_arc(&self, alloc: Global, arc: Arc) -> Result<Feasibility, NoMemory>
        requires { IsArcAmong (length self.now.releases) arc }
        ensures { IfOk result (Answers self.now.releases (self.now.arcs ++ arc ∷ [])) }
    {
        let all = arcs_and(alloc, &self.arcs, arc)?;
        let labels = Labels {
            offsets: Vec::from_slice(alloc, &self.labels.offsets)?,
            last: Vec::from_slice(alloc, &self.labels.last)?,
        };
        Ok(settle(alloc, self.net.copied(alloc)?, all, labels)?)
    }
}

/// Whether the arc joins two of the first `streams` streams, by a weight within the limit.
pub(crate) fn is_among(arc: &Arc, streams: usize) -> bool
    ensures { IsTrue result ↔ IsArcAmong streams arc.now }
{
    arc.from < streams && arc.to < streams && -MAX_WEIGHT <= arc.weight && arc.weight <= MAX_WEIGHT
}

// The arcs with one more put last.
fn arcs_and(alloc: Global, arcs: &[Arc], arc: Arc) -> Result<Vec<Arc>, AllocError>
    ensures { IfOk result (λ all. all.items ≡ arcs.now ++ arc ∷ []) }
{
    let mut all = Vec::with_capacity(alloc, arcs.len() + 1)?;
    all.extend_from_slice(arcs)?;
    all.push(arc)?;
    Ok(all)
}

// Corrects the labels round by round until every arc is met or a chain closes.
fn settle(
    alloc: Global,
    net: Net,
    arcs: Vec<Arc>,
    mut labels: Labels,
) -> Result<Feasibility, AllocError>
    requires among { All (IsArcAmong (length net)) arcs.items }
    requires forest { IsForest arcs.items (labelling_of labels) }
    requires raised { IsRaised net (labelling_of labels) }
    ensures { IfOk result (Answers net arcs.items) }
{
    loop {
        match labels.round(&arcs) {
            Progress::Steady => return Ok(Feasibility::Least(Least { net, arcs, labels })),
            Progress::Raised => {}
            Progress::Closed(index) => {
                return Ok(Feasibility::Positive(labels.cycle(alloc, index, arcs[index])?));
            }
        }
    }
}

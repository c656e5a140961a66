//! What each stream was raised to, and by which arc.
ghost use Rattle.std.specs.Prelude.{◌≡◌, ◌++◌, ◌<◌, ◌≤◌, [], ◌∷◌, All, IfOk, MatchOption, length, slice_set};
ghost use Rattle.tsn_model.specs.Arcs.{Holds};
ghost use Rattle.tsn_diff.specs.Limits.{IsArcAmong};
ghost use Rattle.tsn_diff.specs.Forest.{HasSteps, IsForest};
ghost use Rattle.tsn_diff.specs.Steps.{steps_back, indexes_of};
ghost use Rattle.tsn_diff.specs.Progress.{KeepsRaised, IsAsked, passes_within, Corrects, CorrectsAll};
ghost use Rattle.tsn_diff.specs.Labels.{labelling_of};

use crate::forest::Step;
use std::alloc::{AllocError, Global};
use tsn_model::Arc;

/// For each stream the offset that it was raised to, and the last arc of the chain that raised it.
#[derive(Drop)]
pub struct Labels {
    pub offsets: Vec<u64>,
    pub last: Vec<Option<Step>>,
}

/// What correcting the labels by one arc, or by all of them in turn, came to.
#[derive(Clone, Copy)]
pub enum Progress {
    /// The arcs are met, and no label changed.
    Steady,
    /// Some label was raised.
    Raised,
    /// The arc at this index is not met, and the chain of its first stream passes its last one.
    Closed(usize),
}

impl Labels {
    /// Corrects the labels by each arc in turn, until one closes a chain.
    pub fn round(&mut self, arcs: &[Arc]) -> Progress
        requires arcs { All (IsArcAmong (length self.old.offsets.items)) arcs.now }
        requires forest { IsForest arcs.now (labelling_of self.old) }
        ensures count { length self.new.offsets.items ≡ length self.old.offsets.items }
        ensures forest { IsForest arcs.now (labelling_of self.new) }
        ensures raised { KeepsRaised (labelling_of self.old) (labelling_of self.new) }
        ensures progress { CorrectsAll arcs.now (labelling_of self.old) (labelling_of self.new) result }
    {
        let mut progress = Progress::Steady;
        for index in 0..arcs.len() {
            match self.correct(arcs, index) {
                Progress::Steady => {}
                Progress::Raised => progress = Progress::Raised,
                Progress::Closed(index) => return Progress::Closed(index),
            }
        }
        progress
    }

    // Raises the last stream of an arc that is not met.
    fn correct(&mut self, arcs: &[Arc], index: usize) -> Progress
        requires arcs { All (IsArcAmong (length self.old.offsets.items)) arcs.now }
        requires index { index < length arcs.now }
        requires forest { IsForest arcs.now (labelling_of self.old) }
        ensures count { length self.new.offsets.items ≡ length self.old.offsets.items }
        ensures forest { IsForest arcs.now (labelling_of self.new) }
        ensures raised { KeepsRaised (labelling_of self.old) (labelling_of self.new) }
        ensures progress { Corrects arcs.now index (labelling_of self.old) (labelling_of self.new) result }
    {
        let arc = arcs[index];
        let Some(offset) = self.asked(arc) else {
            return Progress::Steady;
        };
        if self.passes(arc.from, arc.to) {
            return Progress::Closed(index);
        }
        self.raise(index, arc, offset);
        Progress::Raised
    }

    /// The offset to which an arc asks to raise its last stream, or none where the arc is met.
    pub fn asked(&self, arc: Arc) -> Option<u64>
        requires arc { IsArcAmong (length self.now.offsets.items) arc }
        requires small { All (λ offset. offset ≤ 154670000000) self.now.offsets.items }
        ensures { MatchOption result (Holds self.now.offsets.items arc)
            (IsAsked self.now.offsets.items arc) }
    {
        let reach = self.offsets[arc.from] as i64 + arc.weight;
        if reach <= self.offsets[arc.to] as i64 {
            return None;
        }
        Some(reach as u64)
    }

    /// Raises the last stream of an arc to an offset.
    pub fn raise(&mut self, index: usize, arc: Arc, offset: u64)
        requires offsets { arc.to < length self.old.offsets.items }
        requires last { arc.to < length self.old.last.items }
        ensures offsets { self.new.offsets.items ≡ slice_set self.old.offsets.items arc.to offset }
        ensures last { self.new.last.items
            ≡ slice_set self.old.last.items arc.to (Some (record { index = index; from = arc.from })) }
    {
        self.offsets[arc.to] = offset;
        self.last[arc.to] = Some(Step {
            index,
            from: arc.from,
        });
    }

    fn passes(&self, mut stream: usize, through: usize) -> bool
        requires steps { HasSteps (labelling_of self.now) }
        requires stream { stream < length self.now.last.items }
        ensures { result
            ≡ passes_within (length self.now.last.items) self.now.last.items through stream }
    {
        for _ in 0..self.last.len() {
            if stream == through {
                return true;
            }
            let Some(step) = self.last[stream] else {
                return false;
            };
            stream = step.from;
        }
        false
    }

    /// The closed chain of an arc that comes after what leads from its last stream to its first.
    pub fn cycle(&self, alloc: Global, index: usize, arc: Arc) -> Result<Vec<usize>, AllocError>
        requires steps { HasSteps (labelling_of self.now) }
        requires stream { arc.from < length self.now.last.items }
        ensures { IfOk result (λ cycle. cycle.items
            ≡ indexes_of (steps_back (length self.now.last.items) self.now.last.items (Some arc.to) arc.from) ++ index ∷ []) }
    {
        let mut cycle = self.chain(alloc, Some(arc.to), arc.from)?;
        cycle.push(index)?;
        Ok(cycle)
    }

    /// The indexes of the arcs that lead to `stream`: all of its chain, or what follows `top` in it.
    pub fn chain(
        &self,
        alloc: Global,
        top: Option<usize>,
        mut stream: usize,
    ) -> Result<Vec<usize>, AllocError>
        requires steps { HasSteps (labelling_of self.now) }
        requires stream { stream < length self.now.last.items }
        ensures { IfOk result (λ chain. chain.items
            ≡ indexes_of (steps_back (length self.now.last.items) self.now.last.items top stream)) }
    {
        let mut chain = Vec::new(alloc);
        for _ in 0..self.last.len() {
            if Some(stream) == top {
                break;
            }
            let Some(step) = self.last[stream] else {
                break;
            };
            chain.push(step.index)?;
            stream = step.from;
        }
        chain.reverse();
        Ok(chain)
    }
}

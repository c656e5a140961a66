//! What one more arc raises, and how that is taken back.
ghost use Rattle.std.specs.Prelude.{◌≡◌, [], ℕ, ◌<◌, ◌≤◌, IfOk, OnOk, OnErr, IfSome, length, true, false};
ghost use Rattle.tsn_model.specs.Arcs.{Holds};
ghost use Rattle.tsn_diff.specs.Labels.{labelling_of};
ghost use Rattle.tsn_diff.specs.Forest.{HasSteps, IsForest};
ghost use Rattle.tsn_diff.specs.Steps.{Rooted};
ghost use Rattle.tsn_diff.specs.Progress.{Closes};
ghost use Rattle.tsn_diff.specs.Trail.{IsTrail, former_of};
ghost use Rattle.tsn_diff.specs.Spread.{Base, queue_with, formers_with, IsClosing, IsRise, MeetsFrom, IsNoted, IsWave, IsTurn, IsStart, IsWide, GoesOn, AreCalm, AreFixed, IsLifted, stage_of, all_arcs};

use crate::forest::MAX_STREAMS;
use crate::labels::Labels;
use crate::listing::{Indexed, Listing};
use crate::trail::Trail;
use std::alloc::{AllocError, Global};
use tsn_model::Arc;

/// How a stream stands while one more arc is taken into account.
#[derive(Clone, Copy)]
pub enum Stage {
    /// Not raised so far.
    Calm,
    /// On the chain of the stream where the new arc begins: an arc that asks to raise it closes a chain.
    Fixed,
    /// Raised, and in the queue.
    Waiting,
    /// Raised, and the arcs that leave it were looked at since.
    Settled,
}

/// What is kept of the raises: how to take them back, and, while one more arc is taken into account, the streams whose arcs wait to
/// be looked at.
#[derive(Drop)]
pub struct Wave {
    pub trail: Trail,
    pub queue: Vec<usize>,
}

impl Wave {
    /// No raises yet.
    pub fn new(alloc: Global) -> Wave
        ensures streams { result.trail.streams.items ≡ [] }
        ensures formers { result.trail.formers.items ≡ [] }
    {
        Wave {
            trail: Trail {
                streams: Vec::new(alloc),
                formers: Vec::new(alloc),
            },
            queue: Vec::new(alloc),
        }
    }

    // Raises the last stream of an arc to the offset that the arc asks for. True: the arc closes a chain, and nothing is raised.
    fn raise(
        &mut self,
        labels: &mut Labels,
        stages: &mut [Stage],
        indexed: Indexed,
        offset: u64,
    ) -> Result<bool, AllocError>
        ghost base: { Base }
        requires { IsRise base (labelling_of labels.old) stages.old self.old indexed offset }
        ensures noted { IsNoted base (labelling_of labels.new) self.new.trail }
        ensures wave { OnOk result (IsWave base (labelling_of labels.new) stages.new self.new) }
        ensures goes_on { OnOk result
            (GoesOn (all_arcs base) (labelling_of labels.old) (labelling_of labels.new) stages.old stages.new self.old.queue.items self.new.queue.items) }
        ensures first { stage_of stages.new indexed.arc.from
            ≡ stage_of stages.old indexed.arc.from }
        ensures met { result ≡ Ok false → Holds labels.new.offsets.items indexed.arc }
        ensures closes { result ≡ Ok true
            → Closes (all_arcs base) (labelling_of labels.new) indexed.index }
    {
        let arc = indexed.arc;
        let stage = stages[arc.to];
        if let Stage::Fixed = stage {
            return Ok(true);
        }
        self.enter(labels, stage, arc.to)?;
        stages[arc.to] = Stage::Waiting;
        labels.raise(indexed.index, arc, offset);
        Ok(false)
    }

    // Puts a stream that is about to be raised into the queue, unless it waits, and notes its label, unless that was done.
    fn enter(&mut self, labels: &Labels, stage: Stage, stream: usize) -> Result<(), AllocError>
        requires count { length labels.now.last.items ≡ length labels.now.offsets.items }
        requires stream { stream < length labels.now.offsets.items }
        requires trail { IsTrail (length labels.now.offsets.items) self.old.trail }
        ensures queue { OnOk result
            (self.new.queue.items ≡ queue_with stage self.old.queue.items stream) }
        ensures formers { OnOk result
            (self.new.trail.formers.items ≡ formers_with stage self.old.trail.formers.items (former_of (labelling_of labels.now) stream)) }
        ensures trail { IsTrail (length labels.now.offsets.items) self.new.trail }
        ensures err { OnErr result
            (self.new.trail.formers.items ≡ self.old.trail.formers.items) }
    {
        match stage {
            Stage::Calm => {
                self.queue.push(stream)?;
                self.trail.note(labels, stream)
            }
            Stage::Settled => Ok(self.queue.push(stream)?),
            Stage::Fixed => Ok(()),
            Stage::Waiting => Ok(()),
        }
    }

    // Raises the last streams of the arcs that leave a stream. `Some`: the arc that closes a chain.
    fn relax(
        &mut self,
        labels: &mut Labels,
        stages: &mut [Stage],
        listing: &Listing,
        stream: usize,
    ) -> Result<Option<Indexed>, AllocError>
        ghost base: { Base }
        requires { IsTurn base (labelling_of labels.old) stages.old self.old listing.now stream }
        ensures noted { IsNoted base (labelling_of labels.new) self.new.trail }
        ensures wave { OnOk result (IsWave base (labelling_of labels.new) stages.new self.new) }
        ensures goes_on { OnOk result
            (GoesOn (all_arcs base) (labelling_of labels.old) (labelling_of labels.new) stages.old stages.new self.old.queue.items self.new.queue.items) }
        ensures met { result ≡ Ok None → MeetsFrom (all_arcs base) labels.new.offsets.items stream }
        ensures closing { IfOk result (λ closing. IfSome closing
            (IsClosing (all_arcs base) (labelling_of labels.new))) }
    {
        let leaving = &listing.leaving[stream];
        for indexed in leaving {
            let Some(offset) = labels.asked(indexed.arc) else {
                continue;
            };
            if self.raise(labels, stages, *indexed, offset)? {
                return Ok(Some(*indexed));
            }
        }
        Ok(None)
    }

    /// Raises the labels until the arc is met too, or an arc closes a chain.
    pub fn spread(
        &mut self,
        labels: &mut Labels,
        listing: &Listing,
        arc: Arc,
    ) -> Result<Option<Indexed>, AllocError>
        ghost base: { Base }
        requires { IsStart base (labelling_of labels.old) self.old.trail listing.now arc }
        ensures noted { IsNoted base (labelling_of labels.new) self.new.trail }
        ensures wide { result ≡ Ok None → IsWide base (labelling_of labels.new) self.new.trail }
        ensures closing { IfOk result (λ closing. IfSome closing
            (λ indexed. IsForest (all_arcs base) (labelling_of labels.new) × IsClosing (all_arcs base) (labelling_of labels.new) indexed)) }
    {
        let Some(offset) = labels.asked(arc) else {
            return Ok(None);
        };
        let indexed = Indexed {
            index: listing.marks.len(),
            arc,
        };
        let mut stages = [Stage::Calm; MAX_STREAMS];
        fix_chain(labels, &mut stages, arc.from);
        self.queue.clear();
        if self.raise(labels, &mut stages, indexed, offset)? {
            return Ok(Some(indexed));
        }
        let mut turn = 0;
        while turn < self.queue.len() {
            let stream = self.queue[turn];
            stages[stream] = Stage::Settled;
            match self.relax(labels, &mut stages, listing, stream)? {
                Some(closing) => return Ok(Some(closing)),
                None => turn += 1,
            }
        }
        Ok(None)
    }
}

fn fix_chain(labels: &Labels, stages: &mut [Stage], mut stream: usize)
    requires steps { HasSteps (labelling_of labels.now) }
    requires chains { (stream : ℕ) → Rooted labels.now.last.items stream }
    requires stream { stream < length labels.now.last.items }
    requires room { length labels.now.last.items ≤ length stages.old }
    requires calm { AreCalm stages.old }
    ensures fixed { AreFixed labels.now.last.items stages.new stream }
    ensures others { (stream : ℕ) → IsLifted (stage_of stages.new stream) → ⊥ }
{
    for _ in 0..labels.last.len() {
        stages[stream] = Stage::Fixed;
        let Some(step) = labels.last[stream] else {
            return;
        };
        stream = step.from;
    }
}

//! Arcs on a stack, with the least offsets at any time.
ghost use Rattle.std.specs.Prelude.{◌≡◌, ◌++◌, ◌<◌, List, [], ◌∷◌, All, IfOk, IfNone, IfSome, IsTrue, ◌↔◌, OnErr, OnSome, length};
ghost use Rattle.tsn_model.specs.declared.Arc.{Arc};
ghost use Rattle.tsn_diff.specs.Limits.{IsArcAmong};
ghost use Rattle.tsn_diff.specs.Answers.{Solves, Refutes};
ghost use Rattle.tsn_diff.specs.Labels.{labelling_of};
ghost use Rattle.tsn_diff.specs.Listing.{IsListing};
ghost use Rattle.tsn_diff.specs.Spread.{Base, all_arcs, IsStart, IsNoted, IsWide};
ghost use Rattle.tsn_diff.specs.Stack.{RisesAt, KeepsOthers, AreRaisedLast};

use crate::labels::Labels;
use crate::listing::Listing;
use crate::solve::{Least, Net, is_among};
use crate::spread::Wave;
use std::alloc::{AllocError, Global};
use std::marker::Model;
use tsn_model::{Arc, NoMemory};

/// Arcs put in one after another and taken out again, the last one first, with the least offsets that meet them.
#[derive(Drop)]
pub struct ArcStack {
    least: Least,
    listing: Listing,
    wave: Wave,
}

impl Model for ArcStack {
    ghost use Rattle.tsn_diff.specs.Forest.{labelling_by};
    ghost use Rattle.tsn_diff.specs.Stack.{Stack, stack_of, IsStack};

    ghost Value = { Stack };

    ghost view = { λ stack. stack_of stack.least stack.listing stack.wave.trail };

    ghost invariant = { λ stack. IsStack stack.least.releases stack.least.arcs (labelling_by stack.least) stack.listing stack.wave.trail };
}

impl ArcStack {
    /// No arcs, between streams of these releases.
    pub fn new(alloc: Global, net: Net) -> Result<ArcStack, NoMemory>
        ensures releases { IfOk result (λ stack. stack.least.releases ≡ net) }
        ensures none { IfOk result (λ stack. stack.least.arcs ≡ []) }
    {
        let listing = Listing::new(alloc, net.streams())?;
        let least = net.unraised(alloc)?;
        let wave = Wave::new(alloc);
        Ok(ArcStack {
            least,
            listing,
            wave,
        })
    }

    /// Whether `push` takes this arc: its streams are there, and its weight is within the limit.
    pub fn takes(&self, arc: &Arc) -> bool
        ensures { IsTrue result ↔ IsArcAmong (length self.now.least.releases) arc.now }
    {
        is_among(arc, self.least.net.streams())
    }

    /// Puts one more arc last. `None`: it is in. `Some`: no offsets meet all of the arcs, as this closed chain of positive
    /// sum shows, whose indexes count the arc as the last one; it isn't in. The error says that there was no memory.
    /// Where the arc isn't in, all is as before.
    pub fn push(&mut self, arc: Arc) -> Result<Option<Vec<usize>>, NoMemory>
        requires { IsArcAmong (length self.old.least.releases) arc }
        ensures releases { self.new.least.releases ≡ self.old.least.releases }
        ensures arcs { IfOk result (λ closed. IfNone closed
            (self.new.least.arcs ≡ self.old.least.arcs ++ arc ∷ [])) }
        ensures raised { IfOk result (λ closed. IfNone closed
            (RisesAt self.new.raised self.old.least.offsets self.new.least.offsets)) }
        ensures closed { IfOk result (λ closed. IfSome closed
            (λ chain. Refutes (length self.old.least.releases) (self.old.least.arcs ++ arc ∷ []) chain.items)) }
        ensures refused { IfOk result (λ closed. OnSome closed (self.new ≡ self.old)) }
        ensures solved_before { Solves self.old.least.releases self.old.least.arcs self.old.least }
        ensures solved { Solves self.new.least.releases self.new.least.arcs self.new.least }
        ensures err { OnErr result (self.new ≡ self.old) }
    {
        let mark = self.wave.trail.formers.len();
        let labels = &mut self.least.labels;
        let arcs = &mut self.least.arcs;
        match put_in(labels, arcs, &mut self.listing, &mut self.wave, arc) {
            Ok(None) => Ok(None),
            Ok(Some(chain)) => {
                self.wave.trail.put_back(&mut self.least.labels, mark);
                Ok(Some(chain))
            }
            Err(refused) => {
                self.wave.trail.put_back(&mut self.least.labels, mark);
                Err(refused.into())
            }
        }
    }

    /// Takes the last arc out. Only offsets that it raised fall back.
    pub fn pop(&mut self)
        requires { 0 < length self.old.least.arcs }
        ensures releases { self.new.least.releases ≡ self.old.least.releases }
        ensures arcs { (before : List Arc) (last : Arc) → self.old.least.arcs ≡ before ++ last ∷ [] → self.new.least.arcs ≡ before }
        ensures others { KeepsOthers self.old.raised self.old.least.offsets self.new.least.offsets }
    {
        let arc = self.least.arcs.pop().unwrap();
        let mark = self.listing.pop(arc);
        self.wave.trail.put_back(&mut self.least.labels, mark);
    }

    /// The arcs, in the order in which they were put in.
    pub fn arcs(&self) -> &[Arc]
        ensures value { result.now ≡ self.now.least.arcs }
        ensures among { All (IsArcAmong (length self.now.least.releases)) self.now.least.arcs }
    {
        self.least.arcs()
    }

    /// The least offsets that meet the arcs, with a chain for each stream that shows its offset.
    pub fn least(&self) -> &Least
        ensures value { result.now ≡ self.now.least }
        ensures solves { Solves self.now.least.releases self.now.least.arcs self.now.least }
    {
        // so that what it keeps is known
        let _labels = &self.least.labels;
        &self.least
    }

    /// The streams whose offsets the last arc raised, none where there is no arc.
    pub fn raised(&self) -> &[usize]
        ensures value { result.now ≡ self.now.raised }
        ensures below { All (λ stream. stream < length self.now.least.releases) self.now.raised }
        ensures last { AreRaisedLast self.now.least.releases self.now.least.arcs self.now.least.offsets self.now.raised }
    {
        let mark = self.listing.marks.last().copied().unwrap_or(0);
        &self.wave.trail.streams[mark..]
    }
}

// Raises the labels for one more arc and lists it, or gives the closed chain that it closes.
fn put_in(
    labels: &mut Labels,
    arcs: &mut Vec<Arc>,
    listing: &mut Listing,
    wave: &mut Wave,
    arc: Arc,
) -> Result<Option<Vec<usize>>, AllocError>
    ghost base: { Base }
    requires start { IsStart base (labelling_of labels.old) wave.old.trail listing.old arc }
    requires arcs { arcs.old.items ≡ base.arcs }
    ensures noted { IsNoted base (labelling_of labels.new) wave.new.trail }
    ensures wide { IfOk result (λ closed. IfNone closed
        (IsWide base (labelling_of labels.new) wave.new.trail)) }
    ensures arcs { IfOk result (λ closed. IfNone closed (arcs.new.items ≡ all_arcs base)) }
    ensures marks { IfOk result (λ closed. IfNone closed
        (listing.new.marks.items ≡ listing.old.marks.items ++ length wave.old.trail.formers.items ∷ [])) }
    ensures listed { IsListing (length base.labels.offsets) arcs.new.items listing.new }
    ensures closed { IfOk result (λ closed. IfSome closed
        (λ chain. Refutes (length base.labels.offsets) (all_arcs base) chain.items)) }
    ensures refused { IfOk result (λ closed. OnSome closed
        ((arcs.new.items ≡ base.arcs) × (listing.new.marks.items ≡ listing.old.marks.items))) }
    ensures err { OnErr result
        ((arcs.new.items ≡ base.arcs) × (listing.new.marks.items ≡ listing.old.marks.items)) }
{
    let mark = wave.trail.formers.len();
    if let Some(closing) = wave.spread(labels, listing, arc)? {
        let alloc = *arcs.allocator();
        return Ok(Some(labels.cycle(alloc, closing.index, closing.arc)?));
    }
    arcs.reserve(1)?;
    listing.push(arc, mark)?;
    arcs.push_reserved(arc);
    Ok(None)
}

//! Arcs by the stream where each begins.
ghost use Rattle.std.specs.Prelude.{◌≡◌, ◌++◌, ◌-◌, ◌<◌, List, [], ◌∷◌, IfOk, OnOk, OnErr, length, take, slice_index};
ghost use Rattle.tsn_model.specs.declared.Arc.{Arc};
ghost use Rattle.tsn_diff.specs.Listing.{IsListing};

use std::alloc::{AllocError, Global};
use tsn_model::Arc;

/// An arc, and its index in the list of arcs.
#[derive(Clone, Copy)]
pub struct Indexed {
    pub index: usize,
    pub arc: Arc,
}

/// What is kept of arcs beside the list of them: a mark for each arc, and the arcs by the stream where each begins.
#[derive(Drop)]
pub struct Listing {
    pub marks: Vec<usize>,
    pub leaving: Vec<Vec<Indexed>>,
}

impl Listing {
    /// No arcs, of so many streams.
    pub fn new(alloc: Global, streams: usize) -> Result<Listing, AllocError>
        ensures marks { IfOk result (λ listing. listing.marks.items ≡ []) }
        ensures listing { IfOk result (IsListing streams []) }
    {
        let mut leaving = Vec::with_capacity(alloc, streams)?;
        for _ in 0..streams {
            leaving.push(Vec::new(alloc))?;
        }
        Ok(Listing {
            marks: Vec::new(alloc),
            leaving,
        })
    }

    /// Puts an arc last, with its mark.
    pub fn push(&mut self, arc: Arc, mark: usize) -> Result<(), AllocError>
        requires from { arc.from < length self.old.leaving.items }
        ensures marks { OnOk result (self.new.marks.items ≡ self.old.marks.items ++ mark ∷ []) }
        ensures listing { OnOk result ((arcs : List Arc) → IsListing (length self.old.leaving.items) arcs self.old →
            IsListing (length self.old.leaving.items) (arcs ++ arc ∷ []) self.new) }
        ensures err { OnErr result ((arcs : List Arc) → IsListing (length self.old.leaving.items) arcs self.old →
            IsListing (length self.old.leaving.items) arcs self.new) }
        ensures err_marks { OnErr result (self.new.marks.items ≡ self.old.marks.items) }
    {
        self.marks.reserve(1)?;
        let index = self.marks.len();
        self.leaving[arc.from].push(Indexed { index, arc })?;
        self.marks.push_reserved(mark);
        Ok(())
    }

    /// Takes the last arc out, which is this one, and gives its mark.
    pub fn pop(&mut self, arc: Arc) -> usize
        requires some { 0 < length self.old.marks.items }
        requires from { arc.from < length self.old.leaving.items }
        ensures mark { result ≡ slice_index self.old.marks.items (length self.old.marks.items - 1) }
        ensures marks { self.new.marks.items
            ≡ take (length self.old.marks.items - 1) self.old.marks.items }
        ensures listing { (arcs : List Arc) → IsListing (length self.old.leaving.items) (arcs ++ arc ∷ []) self.old →
            IsListing (length self.old.leaving.items) arcs self.new }
    {
        let _indexed = self.leaving[arc.from].pop();
        self.marks.pop().unwrap()
    }
}

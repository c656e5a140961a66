//! The labels that streams had before they were raised.
ghost use Rattle.std.specs.Prelude.{◌≡◌, ◌≤◌, ◌<◌, OnOk, OnErr, length, take, drop, ◌++◌, ◌∷◌, []};
ghost use Rattle.tsn_diff.specs.Labels.{labelling_of};
ghost use Rattle.tsn_diff.specs.Trail.{IsTrail, former_of, put_back_all};

use crate::forest::Step;
use crate::labels::Labels;
use std::alloc::AllocError;

/// The label that a stream had before it was raised.
#[derive(Clone, Copy)]
pub struct Former {
    pub stream: usize,
    pub offset: u64,
    pub last: Option<Step>,
}

/// The streams that were raised, the last one last, and the label that each had before.
#[derive(Drop)]
pub struct Trail {
    pub streams: Vec<usize>,
    pub formers: Vec<Former>,
}

impl Trail {
    /// Notes the label of a stream that is about to be raised.
    pub fn note(&mut self, labels: &Labels, stream: usize) -> Result<(), AllocError>
        requires count { length labels.now.last.items ≡ length labels.now.offsets.items }
        requires stream { stream < length labels.now.offsets.items }
        requires trail { IsTrail (length labels.now.offsets.items) self.old }
        ensures ok { OnOk result (self.new.formers.items
            ≡ self.old.formers.items ++ former_of (labelling_of labels.now) stream ∷ []) }
        ensures err { OnErr result (self.new.formers.items ≡ self.old.formers.items) }
        ensures trail { IsTrail (length labels.now.offsets.items) self.new }
    {
        self.streams.reserve(1)?;
        self.formers.push(Former {
            stream,
            offset: labels.offsets[stream],
            last: labels.last[stream],
        })?;
        // there is room for it
        let _ = self.streams.push(stream);
        Ok(())
    }

    /// Puts the labels back that were noted from `mark` on.
    pub fn put_back(&mut self, labels: &mut Labels, mark: usize)
        requires count { length labels.old.last.items ≡ length labels.old.offsets.items }
        requires mark { mark ≤ length self.old.formers.items }
        requires trail { IsTrail (length labels.old.offsets.items) self.old }
        ensures labels { labelling_of labels.new
            ≡ put_back_all (drop mark self.old.formers.items) (labelling_of labels.old) }
        ensures formers { self.new.formers.items ≡ take mark self.old.formers.items }
        ensures trail { IsTrail (length labels.old.offsets.items) self.new }
    {
        for index in (mark..self.formers.len()).rev() {
            let former = self.formers[index];
            labels.offsets[former.stream] = former.offset;
            labels.last[former.stream] = former.last;
        }
        self.formers.truncate(mark);
        self.streams.truncate(mark);
    }
}

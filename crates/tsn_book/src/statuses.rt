//! The places of a search's tree: how each was made, and what is known of it.
ghost use Rattle.std.specs.Prelude.{◌≡◌, ◌<◌, ◌≤◌, ◌^◌, ◌++◌, ◌∷◌, [], length, IfOk, OnOk, slice_index_or, slice_set};
ghost use Rattle.tsn_model.specs.declared.Side.TheVariants.{Left, Right};
ghost use Rattle.tsn_book.specs.declared.statuses.Origin.TheVariants.{Root, Child};
ghost use Rattle.tsn_book.specs.declared.statuses.Status.TheVariants.{Open, Split, Leaf};

use std::alloc::{AllocError, Global};
use std::marker::Model;
use tsn_conflict::{Decision, Side, Triple};

/// How a place was made: a child has its parent's number, and the decision that leads to it.
#[derive(Clone, Copy)]
pub enum Origin {
    Root,
    Child(usize, Decision),
}

/// What is known of a place. The Left child of a split has the number `children`, and the Right child the next one.
#[derive(Clone, Copy)]
pub enum Status {
    Open,
    Split {
        triple: Triple,
        children: usize,
        event: usize,
    },
    Leaf(usize),
}

/// What is kept of a place: the number of its split among all splits, or of the event that closed it.
#[derive(Clone, Copy)]
pub enum Mark {
    Open,
    Split(usize),
    Leaf(usize),
}

/// A place that was split, and the event that did so.
#[derive(Clone, Copy)]
pub struct Branching {
    pub place: usize,
    pub triple: Triple,
    pub event: usize,
}

/// The places, in the order in which they were made. Each split makes two, so those of split k have the numbers 2k + 1 and
/// 2k + 2, and only splits have to be stored for how places were made.
#[derive(Drop)]
pub struct Places {
    marks: Vec<Mark>,
    splits: Vec<Branching>,
}

impl Model for Places {
    ghost use Rattle.std.specs.Prelude.{◌-◌, ◌/◌, map, min, vec_len, vec_capacity};
    ghost use Rattle.tsn_book.specs.Places.{Placed, origins_of, status_of, ArePlaces};

    ghost Value = { Placed };

    ghost view = { λ places. record {
      origins = origins_of places.splits.items;
      statuses = map (status_of places.splits.items) places.marks.items;
      room = min ((vec_capacity places.marks - vec_len places.marks) / 2) (vec_capacity places.splits - vec_len places.splits);
    } };

    ghost invariant = { λ places. ArePlaces places.marks.items places.splits.items };
}

impl Places {
    /// The root alone, and open.
    pub fn new(alloc: Global) -> Result<Places, AllocError>
        ensures origins { IfOk result (λ places. places.origins ≡ Root ∷ []) }
        ensures statuses { IfOk result (λ places. places.statuses ≡ Open ∷ []) }
    {
        Ok(Places {
            marks: vec![in alloc; Mark::Open]?,
            splits: Vec::new(alloc),
        })
    }

    /// How many places there are.
    pub fn len(&self) -> usize
        ensures count { result ≡ length self.now.origins }
        ensures small { result < 2 ^ 63 }
    {
        self.marks.len()
    }

    /// How a place was made.
    pub fn origin(&self, place: usize) -> Origin
        requires within { place < length self.now.origins }
        ensures { result ≡ slice_index_or self.now.origins place result }
    {
        let splits = &self.splits;
        if place == 0 {
            return Origin::Root;
        }
        let split = &splits[(place - 1) / 2];
        let side = if place % 2 == 1 {
            Side::Left
        } else {
            Side::Right
        };
        Origin::Child(
            split.place,
            Decision {
                triple: split.triple,
                side,
            },
        )
    }

    /// What is known of a place.
    pub fn status(&self, place: usize) -> Status
        requires within { place < length self.now.statuses }
        ensures known { result ≡ slice_index_or self.now.statuses place result }
        ensures small { length self.now.statuses < 2 ^ 63 }
    {
        let mark = self.marks[place];
        match mark {
            Mark::Open => Status::Open,
            Mark::Split(number) => {
                let split = &self.splits[number];
                Status::Split {
                    triple: split.triple,
                    children: 2 * number + 1,
                    event: split.event,
                }
            }
            Mark::Leaf(event) => Status::Leaf(event),
        }
    }

    /// Makes room for one more split. A refusal changes nothing.
    pub fn reserve(&mut self) -> Result<(), AllocError>
        ensures origins { self.new.origins ≡ self.old.origins }
        ensures statuses { self.new.statuses ≡ self.old.statuses }
        ensures room { OnOk result (1 ≤ self.new.room) }
        ensures small { length self.new.origins < 2 ^ 63 }
    {
        self.marks.try_reserve(2)?;
        self.splits.try_reserve(1)
    }

    /// Splits a place, for which there is room: its children are the next two places, and open.
    pub fn split(&mut self, place: usize, triple: Triple, event: usize)
        requires within { place < length self.old.statuses }
        requires room { 1 ≤ self.old.room }
        ensures origins { self.new.origins
            ≡ (self.old.origins ++ Child place (record { triple = triple; side = Left }) ∷ []) ++ Child place (record { triple = triple; side = Right }) ∷ [] }
        ensures statuses { self.new.statuses
            ≡ (slice_set self.old.statuses place (Split triple (length self.old.origins) event) ++ Open ∷ []) ++ Open ∷ [] }
    {
        self.marks[place] = Mark::Split(self.splits.len());
        self.marks.push_reserved(Mark::Open);
        self.marks.push_reserved(Mark::Open);
        self.splits.push_reserved(Branching {
            place,
            triple,
            event,
        });
    }

    /// Closes a place by an event.
    pub fn close(&mut self, place: usize, event: usize)
        requires within { place < length self.old.statuses }
        ensures origins { self.new.origins ≡ self.old.origins }
        ensures statuses { self.new.statuses ≡ slice_set self.old.statuses place (Leaf event) }
    {
        self.marks[place] = Mark::Leaf(event);
    }
}

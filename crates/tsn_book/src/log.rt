//! What was settled, oldest first, in pieces of which none is copied to make room for more, and what waits to be settled.
ghost use Rattle.std.specs.Prelude.{◌≡◌, ◌≢◌, ◌+◌, ◌<◌, ◌≤◌, ◌^◌, ◌++◌, ◌∷◌, [], ℕ, length, drop, map, vec_capacity, IfErr, OnOk, OnErr, slice_index_or, MatchBool};
ghost use Rattle.std.specs.List.{flat_map};
ghost use Rattle.tsn_conflict.specs.declared.outcome.Look.{Look};
ghost use Rattle.tsn_book.specs.declared.log.Settled.{Settled};
ghost use Rattle.tsn_book.specs.declared.log.Piece.{Piece};
ghost use Rattle.tsn_book.specs.Log.{look_of, items_of, next_of, AreNumbered};

use crate::looks::Looks;
use std::alloc::{AllocError, Global};
use std::marker::Model;
use std::mem;
use tsn_conflict::Triple;
use tsn_conflict::outcome::Look;

// How many events a piece has, where they come one by one.
const PIECE: usize = 512;

// How many events there may be, so that all can be counted.
const MOST: usize = 1 << 62;

/// What was settled at a place, and by which teller.
#[derive(Drop)]
pub struct Settled {
    pub teller: usize,
    pub place: usize,
    pub look: Look,
}

/// Events that follow one another, and the number of the first.
#[derive(Drop)]
pub struct Piece {
    pub first: usize,
    pub list: Vec<Settled>,
}

/// What was settled, oldest first, and behind it what waits to be settled. No event is moved, once it waits.
#[derive(Drop)]
pub struct Log {
    // The pieces before the last one, and how many events they have.
    full: Vec<Piece>,
    before: usize,
    // The last piece, of which so many are settled. The others wait.
    last: Vec<Settled>,
    settled: usize,
}

impl Model for Log {
    ghost use Rattle.std.specs.Prelude.{◌++◌, ◌-◌, ◌^◌, min, map, take, drop, vec_len, vec_capacity};
    ghost use Rattle.std.specs.List.{flat_map};
    ghost use Rattle.tsn_book.specs.Log.{Logged, look_of, items_of, IsPieced};

    ghost Value = { Logged };

    ghost view = { λ log. record {
      items = flat_map items_of log.full.items ++ take log.settled log.last.items;
      waiting = map look_of (drop log.settled log.last.items);
      room = min (vec_capacity log.last) (2 ^ 62 - log.before) - vec_len log.last;
    } };

    ghost invariant = { λ log. IsPieced log.full.items log.before log.last.items log.settled };
}

impl Log {
    /// A log of nothing.
    pub fn new(alloc: Global) -> Log
        ensures items { result.items ≡ [] }
        ensures waiting { result.waiting ≡ [] }
    {
        Log {
            full: Vec::new(alloc),
            before: 0,
            last: Vec::new(alloc),
            settled: 0,
        }
    }

    /// How many events there are.
    pub fn len(&self) -> usize
        ensures count { result ≡ length self.now.items }
        ensures small { result < 2 ^ 63 }
    {
        self.before + self.settled
    }

    /// What the log takes its memory from.
    pub fn allocator(&self) -> &Global {
        self.last.allocator()
    }

    /// Makes room for one look to wait, where none does. A refusal changes nothing.
    pub fn reserve(&mut self) -> Result<(), AllocError>
        requires none { self.old.waiting ≡ [] }
        ensures items { self.new.items ≡ self.old.items }
        ensures waiting { self.new.waiting ≡ [] }
        ensures room { OnOk result (1 ≤ self.new.room) }
    {
        if self.before + self.last.len() >= MOST {
            return Err(AllocError);
        }
        if self.last.len() < self.last.capacity() {
            return Ok(());
        }
        let piece = Vec::with_capacity(*self.last.allocator(), PIECE)?;
        self.begin(piece).map_err(|_| AllocError)
    }

    // Makes a piece the last one, where nothing waits. A refusal gives the piece back, and changes nothing.
    fn begin(&mut self, piece: Vec<Settled>) -> Result<(), Vec<Settled>>
        requires none { self.old.waiting ≡ [] }
        ensures items { self.new.items ≡ self.old.items }
        ensures waiting { OnOk result (self.new.waiting ≡ map look_of piece.items) }
        ensures room { OnOk result (piece.items ≡ [] → 1 ≤ vec_capacity piece → 1 ≤ self.new.room) }
        ensures refused { OnErr result (self.new.waiting ≡ []) }
        ensures returned { IfErr result (λ back. back.items ≡ piece.items) }
    {
        let before = self.before + self.last.len();
        if piece.len() >= MOST - before || self.full.try_reserve(1).is_err() {
            return Err(piece);
        }
        let list = mem::replace(&mut self.last, piece);
        if !list.is_empty() {
            self.full.push_reserved(Piece {
                first: self.before,
                list,
            });
        }
        self.before = before;
        self.settled = 0;
        Ok(())
    }

    /// A look waits, where none did, and for which there is room.
    pub fn put(&mut self, look: Look)
        requires none { self.old.waiting ≡ [] }
        requires room { 1 ≤ self.old.room }
        ensures items { self.new.items ≡ self.old.items }
        ensures waiting { self.new.waiting ≡ look ∷ [] }
    {
        self.last.push_reserved(Settled {
            teller: 0,
            place: 0,
            look,
        });
    }

    /// Looks wait, where none did. A refusal gives them back, and changes nothing.
    pub fn bring(&mut self, looks: Looks) -> Result<(), Looks>
        requires none { self.old.waiting ≡ [] }
        ensures items { self.new.items ≡ self.old.items }
        ensures waiting { OnOk result (self.new.waiting ≡ looks) }
        ensures refused { OnErr result (self.new.waiting ≡ []) }
        ensures returned { IfErr result (λ back. back ≡ looks) }
    {
        self.begin(looks.list).map_err(|list| Looks { list })
    }

    /// Whether a look waits.
    pub fn is_waiting(&self) -> bool
        ensures { MatchBool result (1 ≤ length self.now.waiting) (self.now.waiting ≡ []) }
    {
        self.settled < self.last.len()
    }

    /// The look that is settled next.
    pub fn next(&self) -> &Look
        requires some { 1 ≤ length self.now.waiting }
        ensures { result.now ≡ next_of self.now }
    {
        &self.last[self.settled].look
    }

    /// Settles the look that waits first, at a place.
    pub fn settle_next(&mut self, teller: usize, place: usize)
        requires some { 1 ≤ length self.old.waiting }
        ensures items { self.new.items ≡ self.old.items ++ record { teller = teller; place = place; look = next_of self.old } ∷ [] }
        ensures waiting { self.new.waiting ≡ drop 1 self.old.waiting }
    {
        let event = &mut self.last[self.settled];
        event.teller = teller;
        event.place = place;
        self.settled += 1;
    }

    /// Gives up what waits.
    pub fn dismiss(&mut self)
        ensures items { self.new.items ≡ self.old.items }
        ensures waiting { self.new.waiting ≡ [] }
    {
        self.last.truncate(self.settled);
    }

    /// The event of a number.
    pub fn get(&self, number: usize) -> &Settled
        requires within { number < length self.now.items }
        ensures { result.now ≡ slice_index_or self.now.items number result.now }
    {
        if number >= self.before {
            &self.last[number - self.before]
        } else {
            let piece = &self.full[piece_of(&self.full, number)];
            &piece.list[number - piece.first]
        }
    }

    /// Takes out what was found at an event, and leaves another look in its place.
    pub fn take(&mut self, number: usize) -> Look
        requires within { number < length self.old.items }
        ensures look { (d : Settled) → result ≡ (slice_index_or self.old.items number d).look }
        ensures counted { length self.new.items ≡ length self.old.items }
        ensures others { (other : ℕ) → other ≢ number → (d : Settled) → slice_index_or self.new.items other d ≡ slice_index_or self.old.items other d }
    {
        if number >= self.before {
            take_at(&mut self.last, number - self.before)
        } else {
            let at = piece_of(&self.full, number);
            let piece = &mut self.full[at];
            take_at(&mut piece.list, number - piece.first)
        }
    }
}

// Which of the pieces has the event of a number.
fn piece_of(full: &[Piece], number: usize) -> usize
    requires numbered { AreNumbered 0 full.now }
    requires within { number < length (flat_map items_of full.now) }
    ensures piece { result < length full.now }
    ensures from { (d : Piece) → (slice_index_or full.now result d).first ≤ number }
    ensures to { (d : Piece) → let piece = slice_index_or full.now result d in number < piece.first + length (items_of piece) }
{
    full.partition_point(|piece| piece.first <= number) - 1
}

// Takes a look out of a piece.
fn take_at(piece: &mut [Settled], at: usize) -> Look
    requires within { at < length piece.old }
    ensures look { (d : Settled) → result ≡ (slice_index_or piece.old at d).look }
    ensures counted { length piece.new ≡ length piece.old }
    ensures others { (other : ℕ) → other ≢ at → (d : Settled) → slice_index_or piece.new other d ≡ slice_index_or piece.old other d }
{
    let nothing = Look::Split(Triple {
        left: 0,
        right: 0,
        link: 0,
        lag: 0,
    });
    mem::replace(&mut piece[at].look, nothing)
}

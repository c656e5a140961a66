//! The shared word, the book and the tellers, before they are shared.
ghost use Rattle.std.specs.Prelude.{◌≡◌, ◌+◌, ◌-◌, ◌<◌, ◌≤◌, IfOk, Some};
ghost use Rattle.tsn_incumbent.specs.Halves.{halves_from};
ghost use Rattle.tsn_incumbent.specs.Names.{Names};
ghost use Rattle.tsn_incumbent.specs.Teller.{no_event, rest_of, tellers_from};
ghost use Rattle.tsn_incumbent.specs.Desk.{others_from};

use crate::desk::Desk;
use crate::halves::{Half, Halves};
use crate::incumbent::{Incumbent, Seat};
use crate::names::Named;
use crate::shared::Shared;
use crate::teller::Teller;
use std::alloc::{AllocError, Global};
use std::marker::{Model, PhantomData};
use std::sync::Mutex;
use tsn_book::Book;
use tsn_conflict::NoMemory;
use tsn_timing::Timing;

/// All that tellers share, and what is theirs. Contracts see which search and which tables these are.
#[derive(Drop)]
pub struct Parts {
    incumbent: Incumbent,
    seat: Seat,
    halves: Halves,
    pairs: Vec<(Half, Half)>,
    book: Book,
    tellers: usize,
    limit: usize,
}

impl Model for Parts {
    ghost use Rattle.tsn_incumbent.specs.Names.{Names};
    ghost use Rattle.tsn_incumbent.specs.Parts.{AreParts};

    ghost Value = { Names };

    ghost view = { λ p. record { race = p.incumbent; halves = p.halves; limit = p.limit } };

    ghost invariant = { λ p. AreParts (record { race = p.incumbent; halves = p.halves; limit = p.limit }) p.tellers p.seat p.pairs.items p.book };
}

impl Parts {
    /// The parts of a search of which nothing is settled, by so many tellers, with at most so many events. The error says that
    /// there was no memory.
    pub fn new(
        alloc: Global,
        timing: &Timing,
        tellers: usize,
        limit: usize,
    ) -> Result<Parts, NoMemory>
        requires { 1 ≤ tellers }
        ensures search { IfOk result (λ parts. (parts.race.network ≡ timing.now) × (parts.race.tellers ≡ tellers) × (parts.limit ≡ limit)) }
    {
        // The network is within its limits.
        let _cycle = timing.cycle();
        let (incumbent, seat) = Incumbent::new(alloc, timing, tellers)?;
        let (halves, pairs) = Halves::new(alloc, timing, tellers)?;
        let book = Book::new(alloc, timing, tellers, limit)?;
        Ok(Parts {
            incumbent,
            seat,
            halves,
            pairs,
            book,
            tellers,
            limit,
        })
    }

    /// Puts the book behind a lock, and makes a teller for each number, in order. The error says that there was no memory; the
    /// parts are then given up.
    pub fn share<K: Named>(self, alloc: Global) -> Result<(Shared<K>, Vec<Teller<K>>), NoMemory>
        requires { self ≡ K.names }
        ensures { IfOk result (λ shared. shared.1.items ≡ tellers_from K.names 0 K.names.race.tellers) }
    {
        let Parts {
            incumbent,
            seat,
            halves,
            pairs,
            book,
            tellers,
            limit: _,
        } = self;
        let (all, others) = tellers_of::<K>(alloc, &incumbent, seat, pairs, tellers)?;
        let desk = Mutex::new(Desk {
            book,
            halves: others,
            names: PhantomData,
        });
        let shared = Shared {
            incumbent,
            halves,
            desk,
        };
        Ok((shared, all))
    }
}

// A teller for each number, in order, and the other halves of their tallies.
fn tellers_of<K: Named>(
    alloc: Global,
    incumbent: &Incumbent,
    seat: Seat,
    pairs: Vec<(Half, Half)>,
    tellers: usize,
) -> Result<(Vec<Teller<K>>, Vec<Half>), AllocError>
    requires race { (incumbent.now ≡ K.names.race) × (tellers ≡ K.names.race.tellers) × (0 < tellers) }
    requires seat { seat ≡ rest_of K.names 0 tellers }
    requires pairs { pairs.items ≡ halves_from K.names.halves (no_event K.names.race.network) 0 tellers }
    ensures tellers { IfOk result (λ r. r.0.items ≡ tellers_from K.names 0 tellers) }
    ensures others { IfOk result (λ r. r.1.items ≡ others_from K.names 0 tellers) }
{
    let mut all = Vec::new(alloc);
    let mut others = Vec::new(alloc);
    let mut rest = Some(seat);
    let mut number = 0;
    for (share, other) in pairs {
        let (seat, more) = next_seat::<K>(incumbent, rest, number, tellers);
        rest = more;
        all.push(Teller {
            number,
            seat,
            share,
            names: PhantomData,
        })?;
        others.push(other)?;
        number += 1;
    }
    Ok((all, others))
}

// The least number of the rest, and what is left.
fn next_seat<K: Named>(
    incumbent: &Incumbent,
    rest: Option<Seat>,
    number: usize,
    tellers: usize,
) -> (Seat, Option<Seat>)
    requires race { (incumbent.now ≡ K.names.race) × (tellers ≡ K.names.race.tellers) }
    requires number { number < tellers }
    requires rest { rest ≡ Some (rest_of K.names number (tellers - number)) }
    ensures one { result.0 ≡ rest_of K.names number 1 }
    ensures more { number + 1 < tellers → result.1 ≡ Some (rest_of K.names (number + 1) (tellers - (number + 1))) }
{
    let Some(seat) = rest else { unreachable!() };
    if number + 1 < tellers {
        let (more, one) = incumbent.split(seat, number);
        (one, Some(more))
    } else {
        (seat, None)
    }
}

//! Two halves for each teller's number, which hold one tally.
ghost use Rattle.std.specs.Prelude.{◌≡◌, ℕ, ◌+◌, [], true, false, IfOk};
ghost use Rattle.tsn_model.specs.Search.{tally_as};
ghost use Rattle.tsn_incumbent.specs.Flowspans.{no_flowspan};
ghost use Rattle.tsn_incumbent.specs.Halves.{half, halves_from, rest_from};

use crate::share::{Agree, Deals, Divides, Pairs, Part, Sets, Share, Tallied};
use atomic_table::{Badge, Seat, Table};
use std::alloc::{AllocError, Global};
use std::marker::{Brand, Model};
use std::mem;
use tsn_model::{NoMemory, Tally};
use tsn_timing::Timing;

/// The table of the halves. Contracts see which it is.
#[derive(Drop)]
pub struct Halves {
    table: Table<(), Share, Tally, Agree, Global>,
}

impl Model for Halves {
    ghost use Rattle.std.specs.Prelude.{◌≡◌};
    ghost use Rattle.atomic_table.specs.Seated.{TableId, table_id_coded};

    ghost Value = { TableId };

    ghost view = { λ h. h.table.shared.table_id };

    ghost invariant = { λ h. h.table.shared.table_id.words ≡ 1 };
}

/// One of the two halves of a teller's number.
#[derive(Drop)]
pub struct Half {
    badge: Badge<Share>,
}

impl Model for Half {
    ghost use Rattle.std.specs.Prelude.{◌≡◌, ◌∷◌, []};
    ghost use Rattle.tsn_incumbent.specs.Halves.{Half, half_of, IsHalf};

    ghost Value = { Half };

    ghost view = { λ h. half_of h.badge.table_id h.badge.views };

    ghost invariant = { λ h. IsHalf h.badge.views };
}

impl Halves {
    /// Two halves for each number, in order, with the tally of no event.
    pub fn new(
        alloc: Global,
        timing: &Timing,
        tellers: usize,
    ) -> Result<(Halves, Vec<(Half, Half)>), NoMemory>
        ensures { IfOk result (λ r. r.1.items ≡ halves_from r.0 (tally_as 0 (no_flowspan timing.now) (no_flowspan timing.now)) 0 tellers) }
    {
        let none = timing.cycle() + 1;
        let about = Tally {
            events: 0,
            pruned: none,
            solved: none,
        };
        let (table, rest) = Table::of_words(alloc, &[0], &about)?;
        let halves = Halves { table };
        let all = halves.deal_all(alloc, rest, tellers)?;
        Ok((halves, all))
    }

    // Two halves for each number.
    fn deal_all(
        &self,
        alloc: Global,
        rest: Seat<(), Share>,
        tellers: usize,
    ) -> Result<Vec<(Half, Half)>, AllocError>
        requires rest { (rest.table_id ≡ self.now) × (rest.me ≡ (rest_from 0 rest.me.0.tally, [])) }
        ensures { IfOk result (λ all. all.items ≡ halves_from self.now rest.me.0.tally 0 tellers) }
    {
        let mut rest = rest;
        let mut all = Vec::new(alloc);
        for _number in 0..tellers {
            all.push(self.deal(&mut rest))?;
        }
        Ok(all)
    }

    // Takes the least number out of the rest.
    fn deal(&self, rest: &mut Seat<(), Share>) -> (Half, Half)
        requires { (rest.old.table_id ≡ self.now) × (rest.old.me.0.part ≡ Part.Rest) × (rest.old.me.1 ≡ []) }
        ensures rest { (rest.new.table_id ≡ self.now) × (rest.new.me ≡ (rest_from (rest.old.me.0.number + 1) rest.old.me.0.tally, [])) }
        ensures halves { result ≡ (half self.now rest.old.me.0.number false rest.old.me.0.tally, half self.now rest.old.me.0.number true rest.old.me.0.tally) }
    {
        let mut first = self.table.shared.split_seat::<Deals>(rest);
        let second = self.table.shared.split_seat::<Divides>(&mut first);
        (
            Half {
                badge: first.into_badge(),
            },
            Half {
                badge: second.into_badge(),
            },
        )
    }

    /// Sets the tally of both halves of a number. They held equal tallies.
    pub fn set(&self, first: Half, second: Half, tally: Tally) -> (Half, Half)
        requires first { (first.table ≡ self.now) × (first.is_second ≡ false) }
        requires second { (second.table ≡ self.now) × (second.is_second ≡ true) }
        requires number { first.number ≡ second.number }
        ensures equal { first.tally ≡ second.tally }
        ensures first { result.0 ≡ half self.now first.number false tally }
        ensures second { result.1 ≡ half self.now first.number true tally }
    {
        let mut first = first;
        let mut second = second;
        self.set_in_place(&mut first, &mut second, tally);
        (first, second)
    }

    /// The same of halves that stay where they are.
    pub fn set_in_place(&self, first: &mut Half, second: &mut Half, tally: Tally)
        requires first { (first.old.table ≡ self.now) × (first.old.is_second ≡ false) }
        requires second { (second.old.table ≡ self.now) × (second.old.is_second ≡ true) }
        requires number { first.old.number ≡ second.old.number }
        ensures equal { first.old.tally ≡ second.old.tally }
        ensures first { first.new ≡ half self.now first.old.number false tally }
        ensures second { second.new ≡ half self.now first.old.number true tally }
    {
        self.set_by::<Brand>(first, second, tally);
    }

    fn set_by<T: Tallied>(&self, first: &mut Half, second: &mut Half, tally: Tally)
        requires first { (first.old.table ≡ self.now) × (first.old.is_second ≡ false) }
        requires second { (second.old.table ≡ self.now) × (second.old.is_second ≡ true) }
        requires number { first.old.number ≡ second.old.number }
        requires tally { tally ≡ T.tally }
        ensures equal { first.old.tally ≡ second.old.tally }
        ensures first { first.new ≡ half self.now first.old.number false tally }
        ensures second { second.new ≡ half self.now first.old.number true tally }
    {
        let _ = tally;
        let one = mem::replace(&mut first.badge, Badge::blank());
        let other = mem::replace(&mut second.badge, Badge::blank());
        let mut pair: Seat<(), Share> = one.into_seat();
        self.table
            .shared
            .join_seat::<Pairs>(&mut pair, other.into_seat());
        self.table.shared.load::<Sets<T>>(&mut pair, 0);
        let other = self.table.shared.split_seat::<Divides>(&mut pair);
        first.badge = pair.into_badge();
        second.badge = other.into_badge();
    }
}

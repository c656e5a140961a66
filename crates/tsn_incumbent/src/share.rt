//! What the halves of a tally know, and what each step tells.
use atomic_table::{Join, Play, Split, TableRule};
use std::marker::{Brand, PhantomData};
use tsn_model::Tally;

pub enum Part {
    /// All numbers from this one on, at the tally at which they begin.
    Rest,
    First,
    Second,
    /// Both halves of the number, with the tally of each.
    Pair,
    Spent,
}

/// What a seat at the halves' table knows. No value of it is made.
pub struct Share {
    pub part: Part,
    pub number: usize,
    pub tally: Tally,
    pub other: Tally,
}

/// The halves of a number hold equal tallies.
pub struct Agree;

impl TableRule<(), Share, Tally> for Agree {
    ghost use Rattle.tsn_incumbent.specs.Halves.{Agreeing, rest_from};

    ghost holds = { λ _. Agreeing };

    ghost first = { rest_from 0 };
}

/// Takes the least number out of the rest.
pub struct Deals;

impl Split<Share> for Deals {
    ghost use Rattle.tsn_incumbent.specs.Halves.{after_dealing, dealt};

    ghost left = { after_dealing };

    ghost right = { dealt };
}

/// Cuts a pair into its halves.
pub struct Divides;

impl Split<Share> for Divides {
    ghost use Rattle.tsn_incumbent.specs.Halves.{first_of, second_of};

    ghost left = { first_of };

    ghost right = { second_of };
}

/// Puts the halves of a number together.
pub struct Pairs;

impl Join<Share> for Pairs {
    ghost use Rattle.tsn_incumbent.specs.Halves.{paired, spent_share};

    ghost both = { paired };

    ghost spent = { spent_share };
}

/// Names a tally. Each call of a program picks it.
pub trait Tallied {
    ghost use Rattle.tsn_model.specs.declared.Tally.{Tally};

    ghost tally: { Tally };
}

impl Tallied for Brand {
    ghost use Rattle.tsn_model.specs.Search.{tally_as};

    ghost tally = { tally_as 0 0 0 };
}

/// A load by a pair, which tells that its tallies are equal and sets them.
pub struct Sets<T: Tallied> {
    tally: PhantomData<T>,
}

impl<T: Tallied> Play<(), Share> for Sets<T> {
    ghost use Rattle.tsn_incumbent.specs.Halves.{Sets};

    ghost then = { λ _ me _. Sets T.tally me };
}

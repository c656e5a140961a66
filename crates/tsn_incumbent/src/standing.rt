//! What the seats at the shared word know, and what each step tells.
ghost use Rattle.std.specs.Prelude.{ℕ};

use atomic_table::{Join, Play, Split, TableRule};
use std::collections::LinkedList;
use std::marker::{Brand, PhantomData};
use std::snapshot::Snapshot;
use tsn_timing::Timing;

/// What a teller has seen and posted, and how many steps it has made.
pub struct Standing {
    pub number: usize,
    pub seen: u64,
    pub posted: u64,
    pub steps: u64,
}

/// What a seat knows: the standings that it holds. No value of it is made.
pub struct SeatState {
    pub timing: Timing,
    pub tellers: usize,
    pub standings: LinkedList<Standing>,
}

/// The timing and the number of tellers.
pub type Course = (Snapshot<Timing>, usize);

/// The word is the least number posted.
pub struct LeastPosted;

impl TableRule<(), SeatState, Course> for LeastPosted {
    ghost use Rattle.tsn_incumbent.specs.Running.{Running, opening};

    ghost holds = { λ about. Running about.0.value about.1 };

    ghost first = { λ about. opening about.0.value about.1 };
}

/// A load by a seat's least number.
pub struct Observes;

impl Play<(), SeatState> for Observes {
    ghost use Rattle.tsn_incumbent.specs.Running.{Observed};

    ghost then = { λ _. Observed };
}

/// A fetch-min by a seat's least number.
pub struct Posts;

impl Play<(), SeatState> for Posts {
    ghost use Rattle.tsn_incumbent.specs.Running.{Posted};

    ghost then = { λ step. Posted step.first };
}

/// A load by a seat that holds all numbers.
pub struct Closes;

impl Play<(), SeatState> for Closes {
    ghost use Rattle.tsn_incumbent.specs.Running.{Closed};

    ghost then = { λ _. Closed };
}

/// Names a teller's number. Each call of a program picks it.
pub trait Numbered {
    ghost number: { ℕ };
}

impl Numbered for Brand {
    ghost number = { 0 };
}

/// Takes one number out of a seat.
pub struct TakesOut<N: Numbered> {
    number: PhantomData<N>,
}

impl<N: Numbered> Split<SeatState> for TakesOut<N> {
    ghost use Rattle.tsn_incumbent.specs.Running.{others_of, alone_of};

    ghost left = { others_of N.number };

    ghost right = { alone_of N.number };
}

/// Puts the numbers of two seats together.
pub struct Together;

impl Join<SeatState> for Together {
    ghost use Rattle.tsn_incumbent.specs.Running.{joined, spent};

    ghost both = { joined };

    ghost spent = { spent };
}

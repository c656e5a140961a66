//! The shared word, and the seats that step on it.
ghost use Rattle.std.specs.Prelude.{◌≡◌, ◌<◌, length, map, IfOk};
ghost use Rattle.tsn_timing.specs.Solution.{IsSolved};
ghost use Rattle.tsn_incumbent.specs.Flowspans.{IsIncumbent, no_flowspan};
ghost use Rattle.tsn_model.specs.Search.{least_or_none};
ghost use Rattle.tsn_incumbent.specs.Standings.{fresh_from, observed, posted, times, alone, without, merged, IsAtMostKnown, Race, Seated, HoldsAll};

use crate::standing::{
    Closes, Course, LeastPosted, Numbered, Observes, Posts, SeatState, TakesOut, Together,
};
use atomic_table::Table;
use std::alloc::Global;
use std::marker::{Brand, Model};
use std::snapshot::Snapshot;
use tsn_model::NoMemory;
use tsn_timing::{Solved, Timing};

/// One word, which falls to the least flowspan posted. Contracts see which word it is.
#[derive(Drop)]
pub struct Incumbent {
    table: Table<(), SeatState, Course, LeastPosted, Global>,
}

impl Model for Incumbent {
    ghost use Rattle.std.specs.Prelude.{◌≡◌};
    ghost use Rattle.tsn_incumbent.specs.Standings.{Race};

    ghost Value = { Race };

    ghost view = { λ i. record { table = i.table.shared.table_id; network = i.table.shared.key.0.value; tellers = i.table.shared.key.1 } };

    ghost invariant = { λ i. i.table.shared.table_id.words ≡ 1 };
}

/// The right to step as some of the tellers. Contracts see what these have seen and posted.
#[derive(Drop)]
pub struct Seat {
    seat: atomic_table::Seat<(), SeatState>,
}

impl Model for Seat {
    ghost use Rattle.std.specs.Prelude.{◌≡◌, ◌<◌, [], length};
    ghost use Rattle.tsn_incumbent.specs.Standings.{Seated};

    ghost Value = { Seated };

    ghost view = { λ s. record { race = record { table = s.seat.table_id; network = s.seat.me.0.timing; tellers = s.seat.me.0.tellers }; standings = s.seat.me.0.standings } };

    ghost invariant = { λ s. (s.seat.me.1 ≡ []) × (0 < length s.seat.me.0.standings) };
}

/// The word once nobody steps on it any more, and the seat of all tellers, as it was closed. `Incumbent::end` alone makes one.
/// Contracts see the word, and what each teller had seen and posted.
#[derive(Drop)]
pub struct EndedWord {
    word: u64,
    seat: Seat,
}

impl Model for EndedWord {
    ghost use Rattle.tsn_incumbent.specs.Standings.{Ended};

    ghost Value = { Ended };

    ghost view = { λ e. record { word = e.word; seat = e.seat } };
}

impl EndedWord {
    /// The word in the end, in nanoseconds.
    pub fn word(&self) -> u64
        ensures { result ≡ self.now.word }
    {
        self.word
    }
}

impl Incumbent {
    /// The word at cycle + 1, and the seat of all tellers.
    pub fn new(
        alloc: Global,
        timing: &Timing,
        tellers: usize,
    ) -> Result<(Incumbent, Seat), NoMemory>
        requires { 0 < tellers }
        ensures race { IfOk result (λ r. (r.0.network ≡ timing.now) × (r.0.tellers ≡ tellers) × (r.1.race ≡ r.0)) }
        ensures fresh { IfOk result (λ r. r.1.standings ≡ fresh_from (no_flowspan timing.now) 0 tellers) }
    {
        let word = timing.cycle() + 1;
        let about = (Snapshot::of(timing), tellers);
        let (table, seat) = Table::of_words(alloc, &[word], &about)?;
        Ok((Incumbent { table }, Seat { seat }))
    }

    /// Takes one number out of a seat. The second seat has it.
    pub fn split(&self, seat: Seat, number: usize) -> (Seat, Seat)
        requires seat { seat.race ≡ self.now }
        requires number { times number seat.standings ≡ 1 }
        requires another { 0 < length (without number seat.standings) }
        ensures races { (result.0.race ≡ self.now) × (result.1.race ≡ self.now) }
        ensures others { result.0.standings ≡ without number seat.standings }
        ensures one { result.1.standings ≡ alone number seat.standings }
    {
        self.take_out::<Brand>(seat, number)
    }

    fn take_out<N: Numbered>(&self, seat: Seat, number: usize) -> (Seat, Seat)
        requires seat { seat.race ≡ self.now }
        requires number { number ≡ N.number }
        requires there { 0 < length (alone number seat.standings) }
        requires another { 0 < length (without number seat.standings) }
        ensures races { (result.0.race ≡ self.now) × (result.1.race ≡ self.now) }
        ensures others { result.0.standings ≡ without number seat.standings }
        ensures one { result.1.standings ≡ alone number seat.standings }
    {
        let _ = number;
        let Seat { mut seat } = seat;
        let other = self.table.shared.split_seat::<TakesOut<N>>(&mut seat);
        (Seat { seat }, Seat { seat: other })
    }

    /// A seat with the numbers of both.
    pub fn join(&self, seat: Seat, other: Seat) -> Seat
        requires seat { seat.race ≡ self.now }
        requires other { other.race ≡ self.now }
        ensures race { result.race ≡ self.now }
        ensures both { result.standings ≡ merged seat.standings other.standings }
    {
        let Seat { mut seat } = seat;
        let Seat { seat: other } = other;
        self.table.shared.join_seat::<Together>(&mut seat, other);
        Seat { seat }
    }

    /// The word, by one load as the seat's least number.
    pub fn observe(&self, seat: &mut Seat) -> u64
        requires { seat.old.race ≡ self.now }
        ensures race { seat.new.race ≡ self.now }
        ensures standings { seat.new.standings ≡ observed result seat.old.standings }
        ensures incumbent { IsIncumbent self.now.network result }
        ensures at_most { IsAtMostKnown result seat.old.standings }
    {
        self.table.shared.load::<Observes>(&mut seat.seat, 0)
    }

    /// Lowers the word to the flowspan, by one fetch-min as the seat's least number, and answers the word before it.
    pub fn post(&self, seat: &mut Seat, solved: &Solved) -> u64
        requires seat { seat.old.race ≡ self.now }
        requires solved { IsSolved self.now.network solved.now }
        ensures race { seat.new.race ≡ self.now }
        ensures standings { seat.new.standings ≡ posted solved.now.flowspan seat.old.standings }
        ensures incumbent { IsIncumbent self.now.network result }
        ensures at_most { IsAtMostKnown result seat.old.standings }
    {
        let flowspan = solved.flowspan();
        self.table
            .shared
            .fetch_min::<Posts>(&mut seat.seat, 0, flowspan)
    }

    /// The word in the end, which is the least number posted.
    pub fn close(self, seat: Seat) -> u64
        requires seat { seat.race ≡ self }
        requires all { HoldsAll seat }
        ensures least { result ≡ least_or_none self.network (map (λ standing. standing.posted) seat.standings) }
        ensures incumbent { IsIncumbent self.network result }
        ensures at_most { IsAtMostKnown result seat.standings }
    {
        self.end(seat).word()
    }

    /// The same with the seat, by which nobody steps any more.
    pub fn end(self, seat: Seat) -> EndedWord
        requires seat { seat.race ≡ self }
        requires all { HoldsAll seat }
        ensures seat { result.seat ≡ seat }
        ensures least { result.word ≡ least_or_none self.network (map (λ standing. standing.posted) seat.standings) }
        ensures incumbent { IsIncumbent self.network result.word }
        ensures at_most { IsAtMostKnown result.word seat.standings }
    {
        let Seat { mut seat } = seat;
        let word = self.table.shared.load::<Closes>(&mut seat, 0);
        EndedWord {
            word,
            seat: Seat { seat },
        }
    }
}

//! What an argument says of a schedule: facts, and clauses of which one fact holds.
use crate::chain::MAX_NUMBER;
use crate::limited::Limited;
use crate::listed::Sequence;
use crate::order::Order;
use crate::plan::MAX_TIME;

/// What a clause may say of a schedule. Times are in nanoseconds.
#[derive(Clone, Copy, Drop, PartialEq, Eq)]
pub enum Fact {
    /// The offset of this stream is at least this.
    From(usize, u64),
    /// The offset of this stream is at most this.
    Until(usize, u64),
    /// One stream goes before another one on a link.
    Order(Order),
    /// The flowspan is at least this.
    DoneFrom(u64),
    /// The flowspan is at most this.
    DoneUntil(u64),
}

impl Limited for Fact {
    ghost use Rattle.tsn_cert.specs.Fact.{fact_form, fact_fits, fact_value};

    ghost form = { fact_form };

    ghost within = { fact_fits };

    ghost printed = { fact_value };

    #[tactic(auto, using(crate::proofs::FactLemmas::order_fact_back))]
    fn fits(&self) -> bool {
        match self {
            Fact::From(stream, time) => *stream <= MAX_NUMBER && *time <= MAX_TIME,
            Fact::Until(stream, time) => *stream <= MAX_NUMBER && *time <= MAX_TIME,
            Fact::Order(order) => order.fits(),
            Fact::DoneFrom(time) => *time <= MAX_TIME,
            Fact::DoneUntil(time) => *time <= MAX_TIME,
        }
    }
}

/// Facts of which one holds; without any it says nothing, and its step shows the view that its moves lead to.
pub type Clause = Sequence<Fact>;

//! Why an event isn't settled.
ghost use Rattle.std.specs.Prelude.{◌≡◌};
ghost use Rattle.tsn_book.specs.Numbers.{number_of};

use thiserror::Error;

/// Why an event isn't settled: the first reason that holds, in this order but for want of memory, which is told last.
#[derive(Clone, Copy, Debug, PartialEq, Eq, Error)]
pub enum BookFault {
    /// The node isn't open; with the number of the event that settled it, if one did. Events are numbered from 0.
    #[error("the node isn't open")]
    NotOpen(Option<usize>),
    /// As many events are settled as may be: that many.
    #[error("the limit of {0} events is met")]
    Limit(usize),
    /// The split is on what isn't a link of two streams and a lag of theirs, the lesser stream on the left.
    #[error("the split is on no conflict")]
    NotConflict,
    /// The split is on what the node's path decides.
    #[error("the split is decided already")]
    AlreadyDecided,
    /// A growth was refused.
    #[error("no memory")]
    Memory,
    /// The pruned or tied leaf isn't shown to be no better than what is kept, whose flowspan in nanoseconds this is, or one
    /// more than the cycle where nothing is: a pruned bound up to it, though not of one more than the cycle; or a tie of a
    /// lesser bound, or of that bound whose chains don't show that the kept schedule comes first.
    #[error("the leaf isn't shown to be no better than {0}")]
    NotMet(u64),
}

impl BookFault {
    /// The number by which the fault is told: 1 to 6, in the order above.
    pub fn number(self) -> u8
        ensures { result ≡ number_of self }
    {
        match self {
            BookFault::NotOpen(_) => 1,
            BookFault::Limit(_) => 2,
            BookFault::NotConflict => 3,
            BookFault::AlreadyDecided => 4,
            BookFault::Memory => 5,
            BookFault::NotMet(_) => 6,
        }
    }
}

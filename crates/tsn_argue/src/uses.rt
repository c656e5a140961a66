//! Parts of what is known, as a move may use them.
use crate::news::{News, turned};
use tsn_cert::Order;
use tsn_model::{Decision, Side};

/// A part of what is known: a number or a decision of a view, or a clause that was shown.
#[derive(Clone, Copy, Drop, PartialEq, Eq, PartialOrd, Ord)]
pub enum Use {
    /// The least offset of a stream.
    Least(usize),
    /// The greatest offset of a stream.
    Greatest(usize),
    /// The least flowspan.
    LeastDone,
    /// The greatest flowspan.
    GreatestDone,
    /// That a stream goes before another one on a link, with a lag.
    Order(usize, usize, usize, i64),
    /// The clause of this number.
    Clause(usize),
}

impl Use {
    /// What says the fact.
    pub fn of(news: News) -> Use {
        match news {
            News::From(stream, _) => Use::Least(stream),
            News::Until(stream, _) => Use::Greatest(stream),
            News::Order(decision) => Use::decided(decision),
            News::DoneFrom(_) => Use::LeastDone,
            News::DoneUntil(_) => Use::GreatestDone,
        }
    }

    /// What can contradict the fact.
    pub fn against(news: News) -> Use {
        match news {
            News::From(stream, _) => Use::Greatest(stream),
            News::Until(stream, _) => Use::Least(stream),
            News::Order(decision) => Use::decided(turned(decision)),
            News::DoneFrom(_) => Use::GreatestDone,
            News::DoneUntil(_) => Use::LeastDone,
        }
    }

    fn decided(decision: Decision) -> Use {
        let triple = decision.triple;
        match decision.side {
            Side::Left => Use::Order(triple.left, triple.right, triple.link, triple.lag),
            Side::Right => Use::Order(triple.right, triple.left, triple.link, triple.lag),
        }
    }

    pub(crate) fn order(order: Order) -> Use {
        Use::decided(order.decision())
    }
}

/// Is told what a move uses.
pub trait Reader {
    fn read(&mut self, part: Use);
}

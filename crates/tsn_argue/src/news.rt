//! Facts as a view learns them: their numbers may have a sign.
ghost use Rattle.std.specs.Prelude.{◌≡◌};
ghost use Rattle.tsn_model.specs.Argument.{opposite, turned};
ghost use Rattle.tsn_cert.specs.Fact.{fact_of};
ghost use Rattle.tsn_argue.specs.News.{news_of};

use tsn_cert::Fact;
use tsn_model::{Decision, Side};

/// A fact that a view may learn. Times are in nanoseconds.
#[derive(Clone, Copy)]
pub enum News {
    /// The offset of this stream is at least this.
    From(usize, i128),
    /// The offset of this stream is at most this.
    Until(usize, i128),
    /// A decision.
    Order(Decision),
    /// The flowspan is at least this.
    DoneFrom(i128),
    /// The flowspan is at most this.
    DoneUntil(i128),
}

impl News {
    /// That the fact of a clause holds.
    pub fn of(fact: Fact) -> News
        ensures { news_of result ≡ fact_of fact }
    {
        match fact {
            Fact::From(stream, number) => News::From(stream, number as i128),
            Fact::Until(stream, number) => News::Until(stream, number as i128),
            Fact::Order(order) => News::Order(order.decision()),
            Fact::DoneFrom(number) => News::DoneFrom(number as i128),
            Fact::DoneUntil(number) => News::DoneUntil(number as i128),
        }
    }

    #[tactic(auto, unfolding(tsn_model::specs::Argument::opposite))]
    /// What holds of a valid schedule of which the fact of a clause doesn't hold.
    pub fn opposite_of(fact: Fact) -> News
        ensures { news_of result ≡ opposite (fact_of fact) }
    {
        match fact {
            Fact::From(stream, number) => News::Until(stream, number as i128 - 1),
            Fact::Until(stream, number) => News::From(stream, number as i128 + 1),
            Fact::Order(order) => News::Order(turned(order.decision())),
            Fact::DoneFrom(number) => News::DoneUntil(number as i128 - 1),
            Fact::DoneUntil(number) => News::DoneFrom(number as i128 + 1),
        }
    }
}

/// The decision for the other stream.
#[tactic(auto, unfolding(tsn_model::specs::Argument::turned, tsn_model::specs::Argument::other_side))]
pub fn turned(decision: Decision) -> Decision
    ensures { result ≡ turned decision }
{
    let side = match decision.side {
        Side::Left => Side::Right,
        Side::Right => Side::Left,
    };
    Decision { side, ..decision }
}

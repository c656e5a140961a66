//! Which of two frames goes first on a link, and lists of such orders.
ghost use Rattle.std.specs.Prelude.{◌≡◌};
ghost use Rattle.tsn_cert.specs.Order.{decision_of};

use crate::chain::MAX_NUMBER;
use crate::limited::Limited;
use crate::limits;
use crate::listed::Listed;
use tsn_model::{Decision, Side, Triple};

/// The most orders of a round.
pub const MAX_ORDERS: usize = 128;

/// That one stream's frame goes before another one's on a link; by their numbers.
#[derive(Clone, Copy, Drop, PartialEq, Eq)]
pub struct Order {
    pub first: usize,
    pub second: usize,
    pub link: usize,
    /// By how much the frame of the stream of the greater number comes after the other one, were both offsets 0, in
    /// nanoseconds.
    pub lag: i64,
}

impl Order {
    /// The decision that it is: the stream of the lesser number is on the left.
    pub fn decision(self) -> Decision
        ensures { result ≡ decision_of self }
    {
        if self.first <= self.second {
            Decision {
                triple: Triple {
                    left: self.first,
                    right: self.second,
                    link: self.link,
                    lag: self.lag,
                },
                side: Side::Left,
            }
        } else {
            Decision {
                triple: Triple {
                    left: self.second,
                    right: self.first,
                    link: self.link,
                    lag: self.lag,
                },
                side: Side::Right,
            }
        }
    }
}

impl Limited for Order {
    ghost use Rattle.tsn_cert.specs.Order.{order_form, order_fits, order_value};

    ghost form = { order_form };

    ghost within = { order_fits };

    ghost printed = { order_value };

    #[tactic(auto, using(crate::proofs::OrderLemmas::order_back))]
    fn fits(&self) -> bool {
        let lag = limits::lag_fits(self.lag);
        self.first <= MAX_NUMBER && self.second <= MAX_NUMBER && self.link <= MAX_NUMBER && lag
    }
}

/// The orders of a round, one after another.
pub type Orders = Listed<Order, MAX_ORDERS>;

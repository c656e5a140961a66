//! The right of one teller to observe, to post and to settle.
ghost use Rattle.std.specs.Prelude.{◌≡◌};

use crate::halves::Half;
use crate::incumbent::Seat;
use crate::names::Named;
use std::marker::{Model, PhantomData};

/// A teller: a seat with one number, and one half of that number's tally, its share. Contracts see what it has seen and
/// posted, and its share.
#[derive(Drop)]
pub struct Teller<K: Named> {
    pub(crate) number: usize,
    pub(crate) seat: Seat,
    pub(crate) share: Half,
    pub(crate) names: PhantomData<K>,
}

impl<K: Named> Model for Teller<K> {
    ghost use Rattle.tsn_incumbent.specs.Teller.{Known, Keeps, head_of};

    ghost Value = { Known };

    ghost view = { λ t. record { standing = head_of t.seat.standings; tally = t.share.tally } };

    ghost invariant = { λ t. Keeps K.names t.number t.seat t.share };
}

impl<K: Named> Teller<K> {
    /// The teller's number, from 0.
    pub fn number(&self) -> usize
        ensures { result ≡ self.now.standing.number }
    {
        self.number
    }
}

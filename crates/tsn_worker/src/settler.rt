//! One who settles nodes: the caller, or a worker.
ghost use Rattle.std.specs.Prelude.{◌≡◌};

use crate::best_copy::BestCopy;
use tsn_incumbent::{Named, Teller};

/// A teller, with the number by which the supervisor knows it, and its copy of the best schedule.
#[derive(Drop)]
pub struct Settler<K: Named> {
    pub(crate) number: usize,
    pub(crate) teller: Teller<K>,
    pub(crate) best: BestCopy<K>,
}

impl<K: Named> Settler<K> {
    /// The teller of this number, with no copy yet.
    pub fn new(number: usize, teller: Teller<K>) -> Settler<K>
        ensures { result.teller ≡ teller }
    {
        Settler {
            number,
            teller,
            best: BestCopy::none(),
        }
    }

    /// The teller.
    pub fn into_teller(self) -> Teller<K>
        ensures { result ≡ self.teller }
    {
        let Settler {
            number: _,
            teller,
            best,
        } = self;
        drop(best);
        teller
    }
}

//! A worker's copy of the best schedule so far.
ghost use Rattle.std.specs.Prelude.{◌≡◌, IfSome, option_copied};
ghost use Rattle.tsn_timing.specs.Solution.{IsSolved};

use crate::board::Board;
use std::marker::{Model, PhantomData};
use std::sync::Wait;
use tsn_incumbent::{Named, Shared, Teller, best_as};
use tsn_model::NoMemory;
use tsn_timing::Solved;

/// A copy of the best schedule so far, as it was when the worker last asked for it.
#[derive(Drop)]
pub struct BestCopy<K: Named> {
    solved: Option<Solved>,
    // How many schedules had been found then, if it ever asked.
    found: Option<usize>,
    names: PhantomData<K>,
}

impl<K: Named> Model for BestCopy<K> {
    ghost use Rattle.std.specs.Prelude.{IfSome};
    ghost use Rattle.tsn_timing.specs.Solution.{IsSolved};

    ghost Value = { Unit {0} };

    ghost view = { λ _. tt };

    ghost invariant = { λ best. IfSome best.solved (IsSolved K.names.race.network) };
}

impl<K: Named> BestCopy<K> {
    /// None, and never asked for.
    pub fn none() -> BestCopy<K> {
        BestCopy {
            solved: None,
            found: None,
            names: PhantomData,
        }
    }

    /// Asks for it anew, where a schedule was found since then. What is kept changes at no other time, so else the lock is
    /// left alone.
    pub fn refresh(
        &mut self,
        rt: &impl Wait,
        shared: &Shared<K>,
        teller: &mut Teller<K>,
        board: &Board,
    ) -> Result<(), NoMemory>
        ensures same { teller.new ≡ teller.old }
    {
        let found = board.found();
        if self.found == Some(found) {
            return Ok(());
        }
        best_as(rt, shared, teller, &mut self.solved)?;
        self.found = Some(found);
        Ok(())
    }

    /// The copy, for a look at a node; none for a look that is to leave it out.
    pub fn lent(&self, left_out: bool) -> Option<&Solved>
        ensures { IfSome (option_copied result) (IsSolved K.names.race.network) }
    {
        if left_out { None } else { self.solved.as_ref() }
    }
}

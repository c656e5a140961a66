//! The decisions of a view, and whether one is among them, in a time that doesn't grow with their number.
ghost use Rattle.std.specs.Prelude.{◌≡◌, ◌++◌, [], ◌∷◌, MatchBool, OnOk, Contains};

use indexmap::IndexSet;
use std::alloc::{AllocError, Global};
use std::marker::Model;
use tsn_model::{Decision, NoMemory};

/// The decisions of the ground, and behind them those of the view. A set has each of them once, those of the ground first.
#[derive(Drop)]
pub struct Decided {
    list: Vec<Decision>,
    kept: usize,
    set: IndexSet<Decision>,
    set_kept: usize,
}

impl Model for Decided {
    ghost use Rattle.std.specs.Prelude.{take};
    ghost use Rattle.tsn_argue.specs.Decided.{Orders, AreHeld};

    ghost Value = { Orders };

    ghost view = { λ decided. record { base = take decided.kept decided.list.items; view = decided.list.items } };

    ghost invariant = { λ decided. AreHeld decided.list.items decided.kept decided.set.keys decided.set_kept };
}

impl Decided {
    /// No decisions.
    pub fn none(alloc: Global) -> Decided
        ensures base { result.base ≡ [] }
        ensures view { result.view ≡ [] }
    {
        Decided {
            list: Vec::new(alloc),
            kept: 0,
            set: IndexSet::new(alloc),
            set_kept: 0,
        }
    }

    /// Whether the decision is one of the view.
    pub fn has(&self, decision: Decision) -> bool
        ensures { MatchBool result (Contains self.now.view decision) (Contains self.now.view decision → ⊥) }
    {
        self.set.contains(&decision)
    }

    /// The view has one more decision.
    pub fn push(&mut self, decision: Decision) -> Result<(), NoMemory>
        ensures base { self.new.base ≡ self.old.base }
        ensures view { OnOk result (self.new.view ≡ self.old.view ++ decision ∷ []) }
    {
        if let Err(error) = self.list.push(decision) {
            return Err(AllocError::from(error).into());
        }
        if let Err(error) = self.set.insert(decision) {
            self.list.pop();
            return Err(AllocError::from(error).into());
        }
        Ok(())
    }

    /// Makes the view the ground once more. It takes no longer than the decisions took since it was the ground.
    pub fn go_back(&mut self)
        ensures base { self.new.base ≡ self.old.base }
        ensures view { self.new.view ≡ self.old.base }
    {
        self.list.truncate(self.kept);
        self.set.truncate(self.set_kept);
    }

    /// Makes the view the ground.
    pub fn keep(&mut self)
        ensures base { self.new.base ≡ self.old.view }
        ensures view { self.new.view ≡ self.old.view }
    {
        self.kept = self.list.len();
        self.set_kept = self.set.len();
    }
}

//! Looks that are settled together.
ghost use Rattle.std.specs.Prelude.{◌≡◌, ◌<◌, ◌++◌, ◌∷◌, [], length, slice_index_or, IfOk, OnOk, OnErr};

use crate::log::Settled;
use std::alloc::Global;
use std::marker::Model;
use tsn_conflict::NoMemory;
use tsn_conflict::outcome::Look;

/// What looks found, in the order in which it is settled. It stays where it is in memory when it is settled.
#[derive(Drop)]
pub struct Looks {
    // The tellers and the places are written when they are settled.
    pub(crate) list: Vec<Settled>,
}

impl Model for Looks {
    ghost use Rattle.std.specs.Prelude.{List, map};
    ghost use Rattle.tsn_conflict.specs.declared.outcome.Look.{Look};
    ghost use Rattle.tsn_book.specs.Log.{look_of};

    ghost Value = { List Look };

    ghost view = { λ looks. map look_of looks.list.items };
}

impl Looks {
    /// None, with room for so many. The error says that there was no memory.
    pub fn with_capacity(alloc: Global, count: usize) -> Result<Looks, NoMemory>
        ensures { IfOk result (λ looks. looks ≡ []) }
    {
        Ok(Looks {
            list: Vec::with_capacity(alloc, count)?,
        })
    }

    /// Adds what was found last. The error says that there was no memory, and nothing changes.
    pub fn push(&mut self, look: Look) -> Result<(), NoMemory>
        ensures pushed { OnOk result (self.new ≡ self.old ++ look ∷ []) }
        ensures refused { OnErr result (self.new ≡ self.old) }
    {
        if self.list.try_reserve(1).is_err() {
            drop(look);
            return Err(NoMemory);
        }
        self.list.push_reserved(Settled {
            teller: 0,
            place: 0,
            look,
        });
        Ok(())
    }

    /// How many there are.
    pub fn len(&self) -> usize
        ensures { result ≡ length self.now }
    {
        self.list.len()
    }

    /// What was found by the look of that number.
    pub fn get(&self, number: usize) -> &Look
        requires within { number < length self.now }
        ensures { result.now ≡ slice_index_or self.now number result.now }
    {
        &self.list[number].look
    }
}

//! The frames of a list, each once.
ghost use Rattle.std.specs.Prelude.{◌≡◌, ◌<◌, ◌++◌, [], ◌∷◌, length, MatchBool, IfOk, Contains};

use indexmap::IndexSet;
use std::alloc::{AllocError, Global};
use std::marker::Model;
use tsn_model::{Frame, NoMemory};
use tsn_sums::Shelf;

/// How many frames a list has at most.
const MOST: usize = 65_536;

/// Different frames, at most `MOST`, in the order in which they were added. There is room for all of them from the beginning, so
/// that no move asks for memory, and a look at one takes a time that doesn't grow with their number.
#[derive(Drop)]
pub struct Seen {
    frames: IndexSet<Frame>,
}

impl Model for Seen {
    ghost use Rattle.std.specs.Prelude.{◌≤◌, ◌+◌, List};
    ghost use Rattle.indexmap.specs.IndexSet.{index_set_len, spare};
    ghost use Rattle.tsn_model.specs.declared.Frame.{Frame as ModelFrame};

    ghost Value = { List ModelFrame };

    ghost view = { λ seen. seen.frames.keys };

    ghost invariant = { λ seen. 65_536 ≤ index_set_len seen.frames + spare seen.frames };
}

impl Seen {
    /// No frames.
    pub fn none(alloc: Global) -> Result<Seen, AllocError>
        ensures { IfOk result (λ seen. seen ≡ []) }
    {
        let frames = IndexSet::with_capacity(alloc, MOST)?;
        Ok(Seen { frames })
    }

    /// Whether the frame is one of them.
    pub fn has(&self, frame: Frame) -> bool
        ensures { MatchBool result (Contains self.now frame) (Contains self.now frame → ⊥) }
    {
        self.frames.contains(&frame)
    }

    /// Adds the frame behind the others, and tells whether it is none of them.
    pub fn add(&mut self, frame: Frame) -> bool
        requires { length self.old < 65_536 }
        ensures { MatchBool result ((Contains self.old frame → ⊥) × (self.new ≡ self.old ++ frame ∷ [])) (Contains self.old frame) }
    {
        if self.has(frame) {
            return false;
        }
        let Ok(_) = self.frames.insert(frame) else {
            unreachable!();
        };
        true
    }

    /// Leaves no frames, in a time that grows with their number alone.
    pub fn clear(&mut self)
        ensures { self.new ≡ [] }
    {
        self.frames.truncate(0);
    }
}

/// The frames of a move that were seen: those behind its first, and, of a placing, some of these; and what frames fill of a room, from
/// its begin and from its end.
#[derive(Drop)]
pub struct Marks {
    pub others: Seen,
    pub some: Seen,
    pub left: Shelf,
    pub right: Shelf,
}

impl Marks {
    /// No frames.
    pub fn none(alloc: Global) -> Result<Marks, NoMemory> {
        let (others, some) = two_seen(alloc)?;
        match two_shelves(alloc) {
            Ok((left, right)) => Ok(Marks {
                others,
                some,
                left,
                right,
            }),
            Err(error) => {
                drop(others);
                drop(some);
                Err(error.into())
            }
        }
    }
}

fn two_seen(alloc: Global) -> Result<(Seen, Seen), AllocError> {
    let others = Seen::none(alloc)?;
    let some = Seen::none(alloc)?;
    Ok((others, some))
}

fn two_shelves(alloc: Global) -> Result<(Shelf, Shelf), AllocError> {
    let left = Shelf::none(alloc)?;
    let right = Shelf::none(alloc)?;
    Ok((left, right))
}

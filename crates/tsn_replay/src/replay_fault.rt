//! Why cycles can't be replayed.
ghost use Rattle.std.specs.Prelude.{◌≡◌};
ghost use Rattle.tsn_replay.specs.Faults.{number_of};

use std::alloc::AllocError;
use thiserror::Error;
use tsn_model::NoMemory;

/// Why cycles can't be replayed: the first cause that holds. `Memory` comes only where neither other cause holds.
#[derive(Clone, Copy, Debug, PartialEq, Eq, Error)]
pub enum ReplayFault {
    /// A gate control list or a background frame is of no link; two lists are of one link; or a link that a stream uses, or
    /// a background frame's link, has no list.
    #[error("a list or a background frame is of no link, or a link has not one list")]
    UnknownLink,
    /// A list doesn't last the cycle; there are more than 10,000 background frames; or one of them has not 64 to 1522
    /// octets, or a wanted start at or past the end.
    #[error("a list or a background frame is outside the limits")]
    Limit,
    /// A growth was refused.
    #[error("no memory")]
    Memory,
}

impl ReplayFault {
    /// The number by which a fault of a replay is told: 1 to 3, in the order above.
    pub fn number(self) -> u8
        ensures { result ≡ number_of self }
    {
        match self {
            ReplayFault::UnknownLink => 1,
            ReplayFault::Limit => 2,
            ReplayFault::Memory => 3,
        }
    }
}

impl From<AllocError> for ReplayFault {
    ghost use Rattle.std.specs.Prelude.{◌≡◌};
    ghost use Rattle.tsn_replay.specs.declared.replay_fault.ReplayFault.TheVariants.{Memory};

    ghost from_gives = { λ _ fault. fault ≡ Memory };

    fn from(_refused: AllocError) -> ReplayFault {
        ReplayFault::Memory
    }
}

impl From<NoMemory> for ReplayFault {
    ghost use Rattle.std.specs.Prelude.{◌≡◌};
    ghost use Rattle.tsn_replay.specs.declared.replay_fault.ReplayFault.TheVariants.{Memory};

    ghost from_gives = { λ _ fault. fault ≡ Memory };

    fn from(_refused: NoMemory) -> ReplayFault {
        ReplayFault::Memory
    }
}

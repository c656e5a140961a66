//! Why entries make no gate control list.
ghost use Rattle.std.specs.Prelude.{◌≡◌};
ghost use Rattle.tsn_gate.specs.Fault.{number_of};

use std::alloc::AllocError;
use thiserror::Error;

/// Why entries make no gate control list: the first cause that holds, in this order.
#[derive(Clone, Copy, Debug, PartialEq, Eq, Error)]
pub enum GateFault {
    /// There is no entry, or one lasts 0 ns.
    #[error("no entry, or an interval of 0")]
    Empty,
    /// The entries last longer than the longest cycle, 1,000,000,000 ns.
    #[error("longer than the longest cycle")]
    TooLong,
    /// A growth was refused.
    #[error("no memory")]
    Memory,
}

impl GateFault {
    /// The number by which a fault of gate lists is told: 1 to 3, in the order above.
    pub fn number(self) -> u8
        ensures { result ≡ number_of self }
    {
        match self {
            GateFault::Empty => 1,
            GateFault::TooLong => 2,
            GateFault::Memory => 3,
        }
    }
}

impl From<AllocError> for GateFault {
    ghost use Rattle.std.specs.Prelude.{◌≡◌};
    ghost use Rattle.tsn_gate.specs.declared.fault.GateFault.TheVariants.{Memory};

    ghost from_gives = { λ _ fault. fault ≡ Memory };

    fn from(_refused: AllocError) -> GateFault {
        GateFault::Memory
    }
}

//! What an argument is to show, and why its steps end.
ghost use Rattle.std.specs.Prelude.{◌≡◌};
ghost use Rattle.tsn_argue.specs.Steps.{fault_of};

use tsn_check::{ArgumentFault, StepFault};
use tsn_model::NoMemory;

/// What is to be shown: that a plan of this flowspan, in nanoseconds, is the first of the optimal schedules; that none has a
/// lesser flowspan; or that there is no schedule.
#[derive(Clone, Copy)]
pub enum Aim<'a> {
    First { plan: &'a [u64], flowspan: u64 },
    Least { plan: &'a [u64], flowspan: u64 },
    None,
}

/// Why the steps end: one of them is wrong, or memory is wanting.
#[derive(Clone, Copy)]
pub enum Stop {
    Wrong(StepFault),
    Memory,
}

impl Stop {
    /// The fault, where the steps end at the one of this number.
    pub fn at(self, step: usize) -> ArgumentFault
        ensures { result ≡ fault_of step self }
    {
        match self {
            Stop::Wrong(fault) => ArgumentFault::Step(step, fault),
            Stop::Memory => ArgumentFault::Memory,
        }
    }
}

impl From<StepFault> for Stop {
    ghost use Rattle.std.specs.Prelude.{◌≡◌};
    ghost use Rattle.tsn_argue.specs.declared.aim.Stop.TheVariants.{Wrong};

    ghost from_gives = { λ fault stop. stop ≡ Wrong fault };

    fn from(fault: StepFault) -> Stop {
        Stop::Wrong(fault)
    }
}

impl From<NoMemory> for Stop {
    ghost use Rattle.std.specs.Prelude.{◌≡◌};
    ghost use Rattle.tsn_argue.specs.declared.aim.Stop.TheVariants.{Memory};

    ghost from_gives = { λ _ stop. stop ≡ Memory };

    fn from(_refused: NoMemory) -> Stop {
        Stop::Memory
    }
}

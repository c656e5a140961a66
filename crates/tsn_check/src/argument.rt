//! Why an argument shows nothing of a plan: the first fault, with the numbers that show it.
ghost use Rattle.std.specs.Prelude.{◌≡◌};
ghost use Rattle.tsn_check.specs.Numbers.{step_code, argument_code};

use crate::fault::CheckFault;
use crate::why::PlanFault;
use crate::wrong::Wrong;
use tsn_cert::Goal;
use tsn_model::NoMemory;

/// What is wrong with a step.
#[derive(Clone, Copy)]
pub enum StepFault {
    /// Nothing is in question before it.
    Settled,
    /// Something with the fact of this number.
    Fact(usize, Wrong),
    /// Something with the move of this number.
    Move(usize, Wrong),
    /// Its moves don't show its clause.
    Unshown,
}

impl StepFault {
    /// The fault of a certificate that it is, where the step has this number.
    pub fn code(self, step: usize) -> CheckFault
        ensures { result ≡ step_code step self }
    {
        match self {
            StepFault::Settled => CheckFault::TreeTooLong(step),
            StepFault::Fact(_, wrong) | StepFault::Move(_, wrong) => wrong.code(step),
            StepFault::Unshown => CheckFault::BoundTooLow(step),
        }
    }
}

/// What the steps leave in question. Times are in nanoseconds.
#[derive(Clone, Copy)]
pub enum Open {
    /// There is to be no schedule, and the flowspan of one may be this.
    Any(i128),
    /// The flowspan may still be this, and the plan's is another one.
    Flowspan {
        least: i128,
        planned: u64,
    },
    /// The offset of the stream may still be this, and the plan's is greater.
    Offset {
        stream: usize,
        least: i128,
        planned: u64,
    },
}

/// Why an argument shows nothing of a plan.
#[derive(Clone, Copy)]
pub enum ArgumentFault {
    /// The plan is wrong.
    Plan(PlanFault),
    /// The target isn't the one that the plan asks for.
    Target { stated: u64, wanted: u64 },
    /// The goal is this one, and doesn't fit the plan.
    Goal(Goal),
    /// The step of this number is the first that is wrong.
    Step(usize, StepFault),
    /// All steps are right, so many, and leave something in question.
    Unfinished(usize, Open),
    /// A growth was refused. It may come in place of any other answer.
    Memory,
}

impl ArgumentFault {
    /// The fault of a certificate that it is.
    pub fn code(self) -> CheckFault
        ensures { result ≡ argument_code self }
    {
        match self {
            ArgumentFault::Plan(fault) => fault.code(),
            ArgumentFault::Target { .. } | ArgumentFault::Goal(_) => CheckFault::FlowspanWrong,
            ArgumentFault::Step(number, fault) => fault.code(number),
            ArgumentFault::Unfinished(count, _) => CheckFault::TreeUnfinished(count),
            ArgumentFault::Memory => CheckFault::Memory,
        }
    }
}

impl From<PlanFault> for ArgumentFault {
    ghost use Rattle.std.specs.Prelude.{◌≡◌};
    ghost use Rattle.tsn_check.specs.declared.argument.ArgumentFault.TheVariants.{Plan};

    ghost from_gives = { λ wrong fault. fault ≡ Plan wrong };

    fn from(wrong: PlanFault) -> ArgumentFault {
        ArgumentFault::Plan(wrong)
    }
}

impl From<NoMemory> for ArgumentFault {
    ghost use Rattle.std.specs.Prelude.{◌≡◌};
    ghost use Rattle.tsn_check.specs.declared.argument.ArgumentFault.TheVariants.{Memory};

    ghost from_gives = { λ _ fault. fault ≡ Memory };

    fn from(_refused: NoMemory) -> ArgumentFault {
        ArgumentFault::Memory
    }
}

//! How an outcome gets its line, and what a run answers, as a value.
ghost use Rattle.std.specs.Prelude.{◌≡◌, ◌<◌, IfOk, Ok};
ghost use Rattle.tsn_outcome.specs.Said.{status_of};
ghost use Rattle.tsn_outcome.specs.Outcome.{IsOutcome, outcome_of, output_of};

use crate::answer::Answer;
use crate::outcome::Outcome;
use std::alloc::Global;
use tsn_device::device::ReadFault;
use tsn_model::NoMemory;

impl Answer {
    /// An outcome with its line.
    pub fn of(alloc: Global, outcome: Outcome) -> Result<Answer, NoMemory>
        requires { status_of outcome < 8 }
        ensures outcome { IfOk result (λ answer. answer.outcome ≡ outcome) }
        ensures line { IfOk result (λ answer. IsOutcome outcome (output_of (Ok answer))) }
    {
        Answer::because(alloc, outcome, None)
    }

    /// An outcome with its line, and why it is this one.
    pub fn because(
        alloc: Global,
        outcome: Outcome,
        reason: Option<String>,
    ) -> Result<Answer, NoMemory>
        requires { status_of outcome < 8 }
        ensures outcome { IfOk result (λ answer. answer.outcome ≡ outcome) }
        ensures line { IfOk result (λ answer. IsOutcome outcome (output_of (Ok answer))) }
    {
        let line = outcome.line(alloc)?;
        Ok(Answer {
            outcome,
            line,
            reason,
        })
    }
}

/// What a run answers, as a value.
pub fn outcome_of(answer: &Result<Answer, ReadFault>) -> Outcome
    ensures { result ≡ outcome_of answer.now }
{
    match answer {
        Ok(answer) => answer.outcome,
        Err(ReadFault::TooLong) => Outcome::TooLong,
        Err(ReadFault::Memory) => Outcome::NoMemory,
        Err(ReadFault::Broken) => Outcome::Failed,
    }
}

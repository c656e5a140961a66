//! A valid schedule with its flowspan.
ghost use Rattle.std.specs.Prelude.{◌≡◌, IfOk};
ghost use Rattle.tsn_model.specs.Schedule.{IsValid};
ghost use Rattle.tsn_timing.specs.Solution.{IsSolved};

use crate::timing::Timing;
use crate::valid::Valid;
use std::marker::Model;
use tsn_model::NoMemory;

/// A valid schedule, with its flowspan in nanoseconds.
#[derive(Drop)]
pub struct Solved {
    valid: Valid,
    flowspan: u64,
}

impl Model for Solved {
    ghost use Rattle.tsn_timing.specs.Solution.{Solution};

    ghost Value = { Solution };

    ghost view = { λ solved. record { offsets = solved.valid; flowspan = solved.flowspan } };
}

impl Solved {
    /// A schedule that is valid for that timing, with its flowspan.
    pub fn of(timing: &Timing, valid: Valid) -> Solved
        requires { IsValid timing.now valid }
        ensures schedule { result.offsets ≡ valid }
        ensures solved { IsSolved timing.now result }
    {
        let flowspan = timing.flowspan(valid.offsets());
        Solved { valid, flowspan }
    }

    /// The schedule.
    pub fn valid(&self) -> &Valid
        ensures { result.now ≡ self.now.offsets }
    {
        &self.valid
    }

    /// When the stream that finishes last has arrived, in nanoseconds.
    pub fn flowspan(&self) -> u64
        ensures { result ≡ self.now.flowspan }
    {
        self.flowspan
    }

    /// The same schedule once more. The error says that there was no memory.
    pub fn copy(&self) -> Result<Solved, NoMemory>
        ensures { IfOk result (λ solved. solved ≡ self.now) }
    {
        Ok(Solved {
            valid: self.valid.copy()?,
            flowspan: self.flowspan,
        })
    }
}

//! Arguments: certificates of format 3.
ghost use Rattle.std.specs.Prelude.{◌≡◌, true};
ghost use Rattle.tsn_cert.specs.Argument.{argument_fits};
ghost use Rattle.tsn_cert.specs.ArgumentLaws.{IsArgumentInGrammar, ArgumentIsReadAgain};

use crate::plan::MAX_TIME;
use crate::step::Steps;

/// The number by which a file tells that it holds an argument.
pub const ARGUMENT_FORMAT: u64 = 3;

/// What an argument shows.
#[derive(Clone, Copy, Drop, PartialEq, Eq)]
pub enum Goal {
    /// That the plan is the first of the optimal schedules.
    First,
    /// That no valid schedule has a lesser flowspan than the plan.
    Least,
    /// That there is no valid schedule.
    None,
}

/// A certificate of format 3: steps that show the goal. The target is that of the other formats, in nanoseconds.
#[derive(Drop)]
pub struct Argument {
    pub goal: Goal,
    pub target: u64,
    pub steps: Steps,
}

impl Argument {
    /// Whether each number of the argument is within its limit in a file, so that its file is read again as this argument.
    pub fn is_within_limits(&self) -> bool
        ensures fits { result ≡ argument_fits self.now }
        ensures reads_back { result ≡ true → ArgumentIsReadAgain self.now }
    {
        self.fits()
    }

    // Whether each number is within its limit. A form in the file the argument has in any case.
    #[tactic(auto, using(crate::proofs::ArgumentLemmas::argument_back))]
    fn fits(&self) -> bool
        ensures fits { result ≡ argument_fits self.now }
        ensures grammar { IsArgumentInGrammar self.now }
    {
        let steps = self.steps.fit();
        self.target <= MAX_TIME && steps
    }
}

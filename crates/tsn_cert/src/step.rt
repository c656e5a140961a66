//! The steps of an argument.
use crate::fact::Clause;
use crate::limited::{Limited, both};
use crate::listed::Sequence;
use crate::motion::Moves;

/// A clause, and the moves that show it.
#[derive(Drop)]
pub struct Step {
    pub clause: Clause,
    pub moves: Moves,
}

impl Limited for Step {
    ghost use Rattle.tsn_cert.specs.Argument.{step_form, step_fits, step_value};

    ghost form = { step_form };

    ghost within = { step_fits };

    ghost printed = { step_value };

    #[tactic(auto, using(crate::proofs::ArgumentLemmas::step_back))]
    fn fits(&self) -> bool {
        let moves = self.moves.fit();
        both(self.clause.fit(), moves)
    }
}

/// The steps of an argument, one after another.
pub type Steps = Sequence<Step>;

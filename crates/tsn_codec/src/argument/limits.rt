//! Which number of an argument is above its limit in a file.
ghost use Rattle.std.specs.Prelude.{◌≡◌, true, false, MatchOption, not, position};
ghost use Rattle.tsn_cert.specs.Fact.{fact_fits};
ghost use Rattle.tsn_cert.specs.Move.{move_fits};
ghost use Rattle.tsn_cert.specs.Argument.{step_fits, argument_fits};
ghost use Rattle.tsn_codec.specs.Matter.{fact_lags, FindsExcess, IsStepExcess, IsArgumentExcess};

use crate::argument::motion;
use tsn_cert::plan::MAX_TIME;
use tsn_cert::{Argument, Excess, Fact, Key, Limited, Move, Part, Step};

// Whether the fact has a lag other than 0.
fn has_fact_lag(fact: Fact) -> bool
    ensures { result ≡ fact_lags fact }
{
    matches!(fact, Fact::Order(order) if order.lag != 0)
}

// The number of the first part with a number above its limit.
fn first_large<T: Limited>(parts: &[T]) -> Option<usize>
    ensures { result ≡ position (λ it. not (T.within it)) parts.now }
{
    for (number, part) in parts.iter().enumerate() {
        if !part.fits() {
            return Some(number);
        }
    }
    None
}

// The first part of a step with a number above its limit, and whether it has a lag other than 0; none where each is within.
fn excess_of_step(step: &Step) -> Option<(Part, bool)>
    ensures { MatchOption result (step_fits step.now ≡ true) (λ e. (step_fits step.now ≡ false) × IsStepExcess step.now e.0 e.1) }
{
    let facts = step.clause.list();
    match first_large(facts) {
        Some(number) => return Some((Part::Fact(number), has_fact_lag(facts[number]))),
        None => {}
    }
    let moves = step.moves.list();
    match first_large(moves) {
        Some(number) => Some((Part::Move(number), motion::has_lag(&moves[number]))),
        None => None,
    }
}

/// The first number above its limit; none where each is within.
pub(super) fn excess(argument: &Argument) -> Option<Excess>
    ensures { FindsExcess (argument_fits argument.now) (IsArgumentExcess argument.now) result }
{
    if argument.target > MAX_TIME {
        return Some(Excess::At(Key::Target, argument.target));
    }
    let steps = argument.steps.list();
    match first_large(steps) {
        Some(step) => match excess_of_step(&steps[step]) {
            Some((part, lags)) => Some(Excess::OfPart { step, part, lags }),
            None => None,
        },
        None => None,
    }
}

//! The laws of answers and of proofs. Each function does nothing: its contract is the law.

ghost use Rattle.tsn_answer.specs.Laws.{OptimalPlansAreOne};
ghost use Rattle.tsn_answer.specs.ProofLaws.{ProvedIsNotUndercut};

/// Two optimal answers to one network have the same plan, whatever their certificates and counts.
pub fn optimal_plans_are_one()
    ensures { OptimalPlansAreOne }
{}

/// A plan that one search proves is undercut by no other, whatever their limits.
pub fn proved_is_not_undercut()
    ensures { ProvedIsNotUndercut }
{}

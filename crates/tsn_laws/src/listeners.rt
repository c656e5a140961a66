//! What the ends of a route are. Each function does nothing: its contract is the law.
ghost use Rattle.tsn_timing.specs.Ends.{EndsAreHeard, LinesHaveOneEnd};

/// The ends of a stream are the hops that none of its links continues.
pub fn ends_are_heard()
    ensures { EndsAreHeard }
{}

/// A route without branches doesn't have several.
pub fn lines_have_one_end()
    ensures { LinesHaveOneEnd }
{}

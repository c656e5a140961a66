//! What a teller does is a step of the shared search. Each function does nothing: its contract is the law.
ghost use Rattle.tsn_incumbent.specs.Steps.{ObservingIsAStep, PostingIsAStep, SettlingIsAStep, SettlingAllIsSteps};

/// A teller that found the word by `observe_as` took the step that observes: it was allowed, and had its effect.
pub fn observing_is_a_step()
    ensures { ObservingIsAStep }
{}

/// A teller that posted by `post_as` took the step that posts, where its share is its tally in the history.
pub fn posting_is_a_step()
    ensures { PostingIsAStep }
{}

/// A teller whose event was settled by `settle_as` took the step that settles, where the book is lawful with it.
pub fn settling_is_a_step()
    ensures { SettlingIsAStep }
{}

/// A teller whose events were settled by `settle_below_as`, or by `settle_all_as`, took as many steps that settle, one after
/// another, where the book is lawful with them.
pub fn settling_all_is_steps()
    ensures { SettlingAllIsSteps }
{}

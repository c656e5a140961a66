//! What the definitions of a bridge run say of a small network. Each function does nothing: its contract is the law.

ghost use Rattle.tsn_replay.specs.ReplayExamples.{SmallBackground, SmallRun};

/// A run of the small network that is right, and runs that are wrong by a nanosecond, an order or a start.
pub fn small_run()
    ensures { SmallRun }
{}

/// A background frame that waits until the wire is free, and ones that are wrong by a nanosecond or never start.
pub fn small_background()
    ensures { SmallBackground }
{}

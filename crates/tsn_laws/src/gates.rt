//! The laws of the lists that a schedule asks for. Each function does nothing: its contract is the law.

ghost use Rattle.tsn_gate.specs.Examples.{SmallGates, SmallKeptGates};
ghost use Rattle.tsn_gate.specs.Laws.{ListsByAreUnique, WantedListsAreUnique, WideTimesAreSpared};

/// A schedule asks for one list of lists alone: links, octets and intervals are the same wherever each link that a stream
/// uses has its wanted list.
pub fn wanted_lists_are_unique()
    ensures { WantedListsAreUnique }
{}

/// The lists of a schedule, as it asks for them or merged by one least interval, are one list of lists alone. So those that
/// are printed are those that are replayed.
pub fn lists_by_are_unique()
    ensures { ListsByAreUnique }
{}

/// Of a time that is left to the background, three times the least interval long or more, a merged list takes the least interval
/// at each end and no more. So one open entry is no merged list of a list with such a time.
pub fn wide_times_are_spared()
    ensures { WideTimesAreSpared }
{}

/// The gates of the link to C of the small network, by its schedule.
pub fn small_gates()
    ensures { SmallGates }
{}

/// Which octets may stand in place of these gates, and which may not.
pub fn small_kept_gates()
    ensures { SmallKeptGates }
{}

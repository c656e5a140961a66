//! The laws of what a network file states. Each function does nothing: its contract is the law.

ghost use Rattle.tsn_net.specs.Laws.{FaultsAreFirst, FaultlessIsClear, FirstReasonsAreOne, FilesStateOne, OffsetsAreKept, BranchesAreRoutes, RoutesStay};

/// The fault of a document is the one whose condition holds at its place, and neither at a place before it nor, for a
/// lesser code, anywhere.
pub fn faults_are_first()
    ensures { FaultsAreFirst }
{}

/// A document has no fault exactly where no condition holds at any place.
pub fn faultless_is_clear()
    ensures { FaultlessIsClear }
{}

/// What is told of the first fault of a document is one thing alone: of its place, of its key, and of its numbers and texts.
pub fn first_reasons_are_one()
    ensures { FirstReasonsAreOne }
{}

/// A file states one problem alone.
pub fn files_state_one()
    ensures { FilesStateOne }
{}

/// Several routes of a stream, each right by itself, from one talker, of which no two enter a bridge from different nodes, make a
/// tree.
pub fn branches_are_routes()
    ensures { BranchesAreRoutes }
{}

/// A stream that has `route` goes along the links between the neighbours that it names, one after another.
pub fn routes_stay()
    ensures { RoutesStay }
{}

/// The schedules of the network that a document without fault states are those that have the offsets in it, of the network as
/// if it had none.
pub fn offsets_are_kept()
    ensures { OffsetsAreKept }
{}

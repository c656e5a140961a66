//! The laws of the search. Each function does nothing: its contract is the law.

ghost use Rattle.tsn_model.specs.SearchLaws.{LegalHistoriesGrow, LegalHistoriesCover, PathsAreMadeOnce, SettledPathsWereMade, ChildrenAreNew, OpenPathsFollow, PathsDecideConflicts, PathsAreShort, HistoriesAreShort, KeptIsBest, KeptIsFirst, KeptFollows, TalliesFollow, FinishedHistoriesDecide, OpenPathsPart, FinishedHistoriesAreTrees, SettlementsCanBeOrdered, BestIsTarget, RunsKeepSound, RunsKeepLimit, AnswersAreSteps, AnswersAreOne, QuietStatesAreTrees, GatheredStatesAreSound, TalliesAddUp, RightByParts, RightStays, SeenIsEnough};
ghost use Rattle.tsn_model.specs.SearchExamples.{SmallSearch, SmallRun, SmallOtherSearch};

/// A legal history is empty, or a legal one with an allowed settlement at its end.
pub fn legal_histories_grow()
    ensures { LegalHistoriesGrow }
{}

/// The leaves and the open paths of a legal history cover every valid schedule.
pub fn legal_histories_cover()
    ensures { LegalHistoriesCover }
{}

/// The made paths of a legal history are all different, and no path is settled twice.
pub fn paths_are_made_once()
    ensures { PathsAreMadeOnce }
{}

/// What a legal history settled was made.
pub fn settled_paths_were_made()
    ensures { SettledPathsWereMade }
{}

/// A child of an open path was never made.
pub fn children_are_new()
    ensures { ChildrenAreNew }
{}

/// How the open paths change with one settlement.
pub fn open_paths_follow()
    ensures { OpenPathsFollow }
{}

/// Each made path decides conflicts, none of them twice.
pub fn paths_decide_conflicts()
    ensures { PathsDecideConflicts }
{}

/// Each made path is no longer than there are conflicts.
pub fn paths_are_short()
    ensures { PathsAreShort }
{}

/// A legal history has no more settlements than a tree over all conflicts has nodes.
pub fn histories_are_short()
    ensures { HistoriesAreShort }
{}

/// What a legal history keeps is a valid schedule of the least flowspan that it solved.
pub fn kept_is_best()
    ensures { KeptIsBest }
{}

/// What is kept is a solved leaf's, and no solved leaf of its flowspan comes before it.
pub fn kept_is_first()
    ensures { KeptIsFirst }
{}

/// What is kept changes with a solved leaf of a lesser flowspan, or of the same flowspan that comes before it, alone.
pub fn kept_follows()
    ensures { KeptFollows }
{}

/// A teller's tally takes its own events, and no others.
pub fn tallies_follow()
    ensures { TalliesFollow }
{}

/// Where nothing is open what is kept is the first of the optimal schedules, and where nothing is kept there is no schedule.
pub fn finished_histories_decide()
    ensures { FinishedHistoriesDecide }
{}

/// Of two open paths one turns left where the other turns right.
pub fn open_paths_part()
    ensures { OpenPathsPart }
{}

/// Where nothing is open the settlements, in the order of their paths, are a tree that is accepted for what is kept.
pub fn finished_histories_are_trees()
    ensures { FinishedHistoriesAreTrees }
{}

/// The settlements of a legal history can be so ordered.
pub fn settlements_can_be_ordered()
    ensures { SettlementsCanBeOrdered }
{}

/// The least flowspan that a legal history solved is at most each solved bound, and each pruned bound is worse.
pub fn best_is_target()
    ensures { BestIsTarget }
{}

/// Every run of the shared search keeps its state sound.
pub fn runs_keep_sound()
    ensures { RunsKeepSound }
{}

/// A run keeps its tellers, and settles no more than its limit.
pub fn runs_keep_limit()
    ensures { RunsKeepLimit }
{}

/// An answered step was taken, or isn't allowed and changed nothing.
pub fn answers_are_steps()
    ensures { AnswersAreSteps }
{}

/// A step has one answer, and leaves one state.
pub fn answers_are_one()
    ensures { AnswersAreOne }
{}

/// The settlements of a sound and quiet state, in the order of their paths, are a tree that is accepted for what is kept.
pub fn quiet_states_are_trees()
    ensures { QuietStatesAreTrees }
{}

/// A gathered state is sound, and quiet where nothing is open.
pub fn gathered_states_are_sound()
    ensures { GatheredStatesAreSound }
{}

/// The tellers' counts add up to the history's.
pub fn tallies_add_up()
    ensures { TalliesAddUp }
{}

/// A whole search on a small network: three settlements by two tellers.
pub fn small_search()
    ensures { SmallSearch }
{}

/// The same network, where the other schedule of least flowspan is solved first.
pub fn small_other_search()
    ensures { SmallOtherSearch }
{}

/// The same search as steps with their replies, four of them not taken.
pub fn small_run()
    ensures { SmallRun }
{}

/// An outcome is right exactly where its leaf is, and it fits to the history.
pub fn right_by_parts()
    ensures { RightByParts }
{}

/// An outcome that is right after some history is right after each longer one.
pub fn right_stays()
    ensures { RightStays }
{}

/// In a sound state a pruned leaf that is above what its teller has seen fits to the history.
pub fn seen_is_enough()
    ensures { SeenIsEnough }
{}

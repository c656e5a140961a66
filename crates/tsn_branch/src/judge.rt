//! What the least offsets of a path, or a cycle of its arcs, come to.
ghost use Rattle.std.specs.Prelude.{◌≡◌, ◌≤◌, ◌<◌, ℕ, List, [], All, Option, Some, IfOk, OnOk, IfSome, IfNone, MatchOption, length, map, slice_get, option_copied};
ghost use Rattle.tsn_model.specs.declared.Decision.{Decision};
ghost use Rattle.tsn_model.specs.Network.{IsWellFormed, HasFewStreams, stream_count};
ghost use Rattle.tsn_model.specs.Schedule.{flowspan, AreApart};
ghost use Rattle.tsn_model.specs.Arcs.{arcs_of};
ghost use Rattle.tsn_conflict.specs.Raised.{OnlyRaisedOverlap};
ghost use Rattle.tsn_timing.specs.Solution.{Solution, IsSolved};
ghost use Rattle.tsn_cert.specs.Leaf.{bound_leaf};
ghost use Rattle.tsn_diff.specs.Answers.{Answers, Solves};
ghost use Rattle.tsn_diff.specs.Offsets.{chain_of};
ghost use Rattle.tsn_conflict.specs.Outcome.{outcome_of};
ghost use Rattle.tsn_branch.specs.Look.{IsLook, AllFit, IsFirstLast, IsPruning, IsUntied, ShowsLink};
ghost use Rattle.tsn_branch.specs.Links.{shared_links, IsUnloaded};
ghost use Rattle.tsn_branch.specs.Loads.{IsFirstLoad, IsTightest, entry_by};
ghost use Rattle.tsn_branch.specs.Ends.{AreEnds};
ghost use Rattle.tsn_branch.specs.Descent.{Closes, IsJudgement, IsTieBy, WasSplitPoint, IsSolution};
ghost use Rattle.tsn_branch.specs.declared.instants.Ends.TheVariants as ends;
ghost use Rattle.tsn_branch.specs.Releases.{releases_of};
ghost use Rattle.tsn_branch.specs.Least.{ComesWithSplit};

use crate::chains::{chain_along, chain_to, chains_to, tie_chains};
use crate::instants::{Ends, ends_after, ends_of};
use crate::judgement::{Judgement, SplitPoint};
use crate::loads::{FirstLoad, Loading, User, find_loads};
use crate::tables::{Aim, Tables};
use std::alloc::{AllocError, Global};
use tsn_cert::{Entries, Entry, Leaf, LowerBound};
use tsn_conflict::laws::parents_overlap_starts;
use tsn_conflict::outcome::Look;
use tsn_diff::{ArcStack, Feasibility, Least};
use tsn_model::{Frame, NoMemory};
use tsn_timing::{Solved, Timing};

// What is known of the least offsets of a node from those of the node above.
#[derive(Clone, Copy)]
struct Inherited<'a> {
    /// When the streams are done by them.
    ends: Ends,
    /// Among the triples before `start` only those with one of these streams can overlap.
    raised: &'a [usize],
    start: usize,
}

// How far the least offsets of a node reach.
#[derive(Clone, Copy)]
struct Reach {
    /// The first stream that arrives last.
    last: usize,
    /// When it does, in nanoseconds.
    end: u64,
    /// The first link that is loaded for the flowspan of the best schedule, if one is.
    tightest: Option<FirstLoad>,
}

/// What the arcs of a path come to, as a look at the node. A split comes with the least offsets.
pub fn judge(
    alloc: Global,
    tables: Tables<'_>,
    outcome: Feasibility,
    aim: Aim<'_>,
) -> Result<(Look, Option<Least>), NoMemory>
    requires best { IfSome (option_copied aim.best) (IsSolved tables.timing.now) }
    requires some_path { (path : List Decision) × Answers (releases_of tables.timing.now) (arcs_of tables.timing.now path) outcome }
    ensures look { IfOk result (λ found. (path : List Decision) → Answers (releases_of tables.entry.timing.now) (arcs_of tables.entry.timing.now path) outcome
        → IsLook tables.entry.timing.now path aim.entry.target (option_copied aim.entry.best) (outcome_of found.0)) }
    ensures least { IfOk result (λ found. (path : List Decision) → Answers (releases_of tables.entry.timing.now) (arcs_of tables.entry.timing.now path) outcome
        → ComesWithSplit tables.entry.timing.now path (outcome_of found.0) found.1) }
{
    match outcome {
        Feasibility::Least(least) => {
            match judge_least(alloc, tables, &least, aim) {
                Ok(Judgement::Split(point)) => {
                    Ok((
                        Look::Split(tables.conflicts.triples()[point.triple]),
                        Some(least),
                    ))
                }
                Ok(Judgement::Closed(look)) => {
                    drop(least);
                    Ok((look, None))
                }
                Err(error) => {
                    drop(least);
                    Err(error)
                }
            }
        }
        Feasibility::Positive(cycle) => {
            let leaf = Leaf::Cycle(chain_along(alloc, cycle)?);
            Ok((Look::Refuted(leaf), None))
        }
    }
}

/// What the least offsets of a path come to.
pub fn judge_least(
    alloc: Global,
    tables: Tables<'_>,
    least: &Least,
    aim: Aim<'_>,
) -> Result<Judgement, NoMemory>
    requires best { IfSome (option_copied aim.best) (IsSolved tables.timing.now) }
    requires some_path { (path : List Decision) × Solves (releases_of tables.timing.now) (arcs_of tables.timing.now path) least.now }
    ensures { IfOk result (λ judgement. (path : List Decision) → Solves (releases_of tables.entry.timing.now) (arcs_of tables.entry.timing.now path) least.now
        → IsJudgement tables.entry.timing.now path aim.entry.target (option_copied aim.entry.best) judgement) }
{
    let known = Inherited {
        ends: ends_of(tables.timing, least.offsets()),
        raised: &[],
        start: 0,
    };
    judge_known(alloc, tables, least, known, aim)
}

/// What the least offsets of a path come to, which are those of its parent but for the streams that the last arc raised.
pub fn judge_raised(
    alloc: Global,
    tables: Tables<'_>,
    stack: &ArcStack,
    parent: SplitPoint,
    aim: Aim<'_>,
) -> Result<Judgement, NoMemory>
    requires best { IfSome (option_copied aim.best) (IsSolved tables.timing.now) }
    requires releases { stack.now.least.releases ≡ releases_of tables.timing.now }
    requires some_path { (path : List Decision) × (stack.now.least.arcs ≡ arcs_of tables.timing.now path) }
    requires parent { WasSplitPoint tables.timing.now stack.now.raised stack.now.least.offsets parent }
    ensures { IfOk result (λ judgement. (path : List Decision) → stack.now.least.arcs ≡ arcs_of tables.entry.timing.now path
        → IsJudgement tables.entry.timing.now path aim.entry.target (option_copied aim.entry.best) judgement) }
{
    let least = stack.least();
    let raised = stack.raised();
    let known = Inherited {
        ends: ends_after(
            tables.timing,
            least.offsets(),
            raised,
            parent.last,
            parent.end,
        ),
        raised,
        start: parent.triple,
    };
    parents_overlap_starts();
    judge_known(alloc, tables, least, known, aim)
}

// What the least offsets of a path come to, of which this is known.
fn judge_known(
    alloc: Global,
    tables: Tables<'_>,
    least: &Least,
    known: Inherited<'_>,
    aim: Aim<'_>,
) -> Result<Judgement, NoMemory>
    requires best { IfSome (option_copied aim.best) (IsSolved tables.timing.now) }
    requires some_path { (path : List Decision) × Solves (releases_of tables.timing.now) (arcs_of tables.timing.now path) least.now }
    requires ends { AreEnds tables.timing.now least.now.offsets known.ends }
    requires raised { All (λ stream. stream < stream_count tables.timing.now) known.raised.now }
    requires start { known.start ≤ length tables.conflicts.now.triples }
    requires apart { OnlyRaisedOverlap tables.conflicts.now least.now.offsets known.raised.now known.start }
    ensures { IfOk result (λ judgement. (path : List Decision) → Solves (releases_of tables.entry.timing.now) (arcs_of tables.entry.timing.now path) least.now
        → IsJudgement tables.entry.timing.now path aim.entry.target (option_copied aim.entry.best) judgement) }
{
    let (last, end) = match known.ends {
        Ends::Overrun(stream) => {
            let leaf = Leaf::Overrun(stream, chain_to(alloc, least, stream)?);
            return Ok(Judgement::Closed(Look::Refuted(leaf)));
        }
        Ends::Within { last, end } => (last, end),
    };
    if end >= aim.target {
        let leaf = LowerBound::Late(last, chain_to(alloc, least, last)?);
        return Ok(Judgement::Closed(Look::Pruned { bound: end, leaf }));
    }
    let limit = tie_limit(aim);
    let tightest = match find_loads(
        tables.loads,
        tables.timing,
        least.offsets(),
        aim.target,
        limit,
    ) {
        Loading::Closed(found) => {
            let look = judge_load(alloc, tables, least, found)?;
            return Ok(Judgement::Closed(look));
        }
        Loading::Open(tightest) => tightest,
    };
    let reach = Reach {
        last,
        end,
        tightest,
    };
    if let Some(look) = find_tie(alloc, tables, least, reach, aim.best)? {
        return Ok(Judgement::Closed(look));
    }
    judge_untied(alloc, tables, least, known, reach)
}

// What they come to where neither the target nor the best schedule closes the node: a split, or else the schedule.
fn judge_untied(
    alloc: Global,
    tables: Tables<'_>,
    least: &Least,
    known: Inherited<'_>,
    reach: Reach,
) -> Result<Judgement, NoMemory>
    requires some_path { (path : List Decision) × Solves (releases_of tables.timing.now) (arcs_of tables.timing.now path) least.now }
    requires ends { AreEnds tables.timing.now least.now.offsets (ends.Within reach.last reach.end) }
    requires raised { All (λ stream. stream < stream_count tables.timing.now) known.raised.now }
    requires start { known.start ≤ length tables.conflicts.now.triples }
    requires apart { OnlyRaisedOverlap tables.conflicts.now least.now.offsets known.raised.now known.start }
    ensures { IfOk result (λ judgement. (path : List Decision) (target : ℕ) (best : Option Solution)
        → Solves (releases_of tables.entry.timing.now) (arcs_of tables.entry.timing.now path) least.now → reach.end < target
        → All (IsUnloaded tables.entry.timing.now least.now.offsets target) (shared_links tables.entry.timing.now)
        → IsUntied tables.entry.timing.now least.now.offsets best → IsJudgement tables.entry.timing.now path target best judgement) }
{
    let Reach { last, end, .. } = reach;
    if let Some(triple) = tables
        .conflicts
        .first_violated_from(least.offsets(), known.raised, known.start)
    {
        return Ok(Judgement::Split(SplitPoint { triple, last, end }));
    }
    let look = solved(alloc, tables.timing, least, last)?;
    Ok(Judgement::Closed(look))
}

// The least offsets of a path as its schedule, where no streams overlap.
fn solved(alloc: Global, timing: &Timing, least: &Least, last: usize) -> Result<Look, NoMemory>
    requires formed { IsWellFormed timing.now }
    requires few { HasFewStreams timing.now }
    requires some_path { (path : List Decision) × Solves (releases_of timing.now) (arcs_of timing.now path) least.now }
    requires fit { AllFit timing.now least.now.offsets }
    requires last { IsFirstLast timing.now least.now.offsets last }
    requires apart { AreApart timing.now least.now.offsets }
    ensures { IfOk result (λ look. (path : List Decision) → Solves (releases_of timing.now) (arcs_of timing.now path) least.now
        → IsSolution timing.now path (flowspan timing.now least.now.offsets) (outcome_of look)) }
{
    let Ok(valid) = timing.valid(Vec::from_slice(alloc, least.offsets())?) else {
        unreachable!();
    };
    let leaf = LowerBound::Late(last, chain_to(alloc, least, last)?);
    let solved = Solved::of(timing, valid);
    let chains = chains_to(alloc, least, timing.streams())?;
    Ok(Look::Solved {
        solved,
        leaf,
        chains,
    })
}

// The flowspan from which on a node may be tied with the best schedule; where there is none, the target.
fn tie_limit(aim: Aim<'_>) -> u64
    ensures { MatchOption (option_copied aim.entry.best) (result ≡ aim.entry.target) (λ solution. result ≡ solution.flowspan) }
{
    match aim.best {
        Some(best) => best.flowspan(),
        None => aim.target,
    }
}

// The node as a tie with the best schedule: by the least offsets, which don't come before it, the flowspan or else the load of a
// link is at least its flowspan.
fn find_tie(
    alloc: Global,
    tables: Tables<'_>,
    least: &Least,
    reach: Reach,
    best: Option<&Solved>,
) -> Result<Option<Look>, NoMemory>
    requires best { IfSome (option_copied best) (IsSolved tables.timing.now) }
    requires some_path { (path : List Decision) × Solves (releases_of tables.timing.now) (arcs_of tables.timing.now path) least.now }
    requires ends { AreEnds tables.timing.now least.now.offsets (ends.Within reach.last reach.end) }
    requires within { (target : ℕ) × All (IsUnloaded tables.timing.now least.now.offsets target) (shared_links tables.timing.now) }
    requires tightest { IfSome (option_copied best) (λ solution. IsTightest tables.timing.now least.now.offsets solution.flowspan reach.tightest) }
    ensures none { IfOk result (λ found. IfNone found (IsUntied tables.entry.timing.now least.now.offsets (option_copied best.entry))) }
    ensures some { IfOk result (λ found. IfSome found (IsTieBy tables.entry.timing.now least.now (option_copied best.entry))) }
{
    match best {
        Some(best) => judge_tie(alloc, tables, least, reach, best),
        None => Ok(None),
    }
}

// The node as a tie with this schedule, where the first link that is loaded for its flowspan is found.
fn judge_tie(
    alloc: Global,
    tables: Tables<'_>,
    least: &Least,
    reach: Reach,
    best: &Solved,
) -> Result<Option<Look>, NoMemory>
    requires best { IsSolved tables.timing.now best.now }
    requires some_path { (path : List Decision) × Solves (releases_of tables.timing.now) (arcs_of tables.timing.now path) least.now }
    requires ends { AreEnds tables.timing.now least.now.offsets (ends.Within reach.last reach.end) }
    requires within { (target : ℕ) × All (IsUnloaded tables.timing.now least.now.offsets target) (shared_links tables.timing.now) }
    requires tightest { IsTightest tables.timing.now least.now.offsets best.now.flowspan reach.tightest }
    ensures none { IfOk result (λ found. IfNone found (IsUntied tables.entry.timing.now least.now.offsets (Some best.now))) }
    ensures some { IfOk result (λ found. IfSome found (IsTieBy tables.entry.timing.now least.now (Some best.now))) }
{
    if reach.end < best.flowspan() && reach.tightest.is_none() {
        return Ok(None);
    }
    let Some(chains) = tie_chains(alloc, tables.timing, least, best.valid())? else {
        return Ok(None);
    };
    match tie_bound(alloc, tables, least, reach, best.flowspan()) {
        Ok((bound, leaf)) => Ok(Some(Look::Tied {
            bound,
            leaf,
            chains,
        })),
        Err(error) => {
            drop(chains);
            Err(error)
        }
    }
}

// What the least offsets bound the flowspan by, where it is at least the limit, and why.
fn tie_bound(
    alloc: Global,
    tables: Tables<'_>,
    least: &Least,
    reach: Reach,
    limit: u64,
) -> Result<(u64, LowerBound), NoMemory>
    requires some_path { (path : List Decision) × Solves (releases_of tables.timing.now) (arcs_of tables.timing.now path) least.now }
    requires ends { AreEnds tables.timing.now least.now.offsets (ends.Within reach.last reach.end) }
    requires within { (target : ℕ) × All (IsUnloaded tables.timing.now least.now.offsets target) (shared_links tables.timing.now) }
    requires tightest { IsTightest tables.timing.now least.now.offsets limit reach.tightest }
    requires reached { IfNone reach.tightest (limit ≤ reach.end) }
    ensures { IfOk result (λ found. (path : List Decision) → Solves (releases_of tables.entry.timing.now) (arcs_of tables.entry.timing.now path) least.now
        → IsPruning tables.entry.timing.now path limit found.0 (bound_leaf found.1)) }
{
    if reach.end >= limit {
        let leaf = LowerBound::Late(reach.last, chain_to(alloc, least, reach.last)?);
        return Ok((reach.end, leaf));
    }
    let Some(found) = reach.tightest else {
        unreachable!();
    };
    let FirstLoad::Load(link_index, bound) = found else {
        unreachable!();
    };
    let (link, entries) = entries_at(alloc, tables, least, link_index)?;
    Ok((bound, LowerBound::Load(link, entries)))
}

// The look at a node where a link is loaded.
fn judge_load(
    alloc: Global,
    tables: Tables<'_>,
    least: &Least,
    found: FirstLoad,
) -> Result<Look, NoMemory>
    requires some_path { (path : List Decision) × Solves (releases_of tables.timing.now) (arcs_of tables.timing.now path) least.now }
    requires found { (target : ℕ) × IsFirstLoad tables.timing.now least.now.offsets target found }
    ensures look { IfOk result (λ look. (path : List Decision) (target : ℕ) → Solves (releases_of tables.entry.timing.now) (arcs_of tables.entry.timing.now path) least.now
        → AllFit tables.entry.timing.now least.now.offsets → flowspan tables.entry.timing.now least.now.offsets < target
        → IsFirstLoad tables.entry.timing.now least.now.offsets target found → (best : Option Solution) → IsLook tables.entry.timing.now path target best (outcome_of look)) }
    ensures closes { IfOk result (λ look. Closes (outcome_of look)) }
{
    match found {
        FirstLoad::Overload(link_index) => {
            let (link, entries) = entries_at(alloc, tables, least, link_index)?;
            Ok(Look::Refuted(Leaf::Overload(link, entries)))
        }
        FirstLoad::Load(link_index, bound) => {
            let (link, entries) = entries_at(alloc, tables, least, link_index)?;
            let leaf = LowerBound::Load(link, entries);
            Ok(Look::Pruned { bound, leaf })
        }
    }
}

// The shared link of this index, and its streams with the chains that show their least offsets.
fn entries_at(
    alloc: Global,
    tables: Tables<'_>,
    least: &Least,
    link_index: usize,
) -> Result<(usize, Entries), NoMemory>
    requires some_path { (path : List Decision) × Solves (releases_of tables.timing.now) (arcs_of tables.timing.now path) least.now }
    requires link_index { link_index < length (shared_links tables.timing.now) }
    ensures link { IfOk result (λ leaf. slice_get (shared_links tables.entry.timing.now) link_index ≡ Some leaf.0) }
    ensures shown { IfOk result (λ leaf. (path : List Decision) → Solves (releases_of tables.entry.timing.now) (arcs_of tables.entry.timing.now path) least.now
        → ShowsLink tables.entry.timing.now path least.now.offsets leaf.0 leaf.1) }
{
    let table = &tables.loads.tables()[link_index];
    Ok((table.link, entries_of(alloc, least, &table.users)?))
}

/// The first frames of streams, each with the chain that shows its stream's least offset.
pub fn entries_of(alloc: Global, least: &Least, users: &[User]) -> Result<Entries, NoMemory>
    requires some_user { 1 ≤ length users.now }
    requires few_users { length users.now ≤ 128 }
    requires streams { All (λ user. user.stream < length least.now.offsets) users.now }
    requires short { All (λ user. length (chain_of least.now user.stream) ≤ 128) users.now }
    ensures { IfOk result (λ entries. entries ≡ map (entry_by least.now) users.now) }
{
    let mut list = Vec::with_capacity(alloc, users.len())?;
    match add_entries(alloc, least, users, &mut list) {
        Ok(()) => Ok(Entries::of(list)),
        Err(error) => {
            drop(list);
            Err(error)
        }
    }
}

// Puts them behind an empty list.
fn add_entries(
    alloc: Global,
    least: &Least,
    users: &[User],
    list: &mut Vec<Entry>,
) -> Result<(), NoMemory>
    requires streams { All (λ user. user.stream < length least.now.offsets) users.now }
    requires short { All (λ user. length (chain_of least.now user.stream) ≤ 128) users.now }
    requires empty { list.old.items ≡ [] }
    ensures { OnOk result (list.new.items ≡ map (entry_by least.now) users.now) }
{
    for user in users {
        let frame = Frame {
            stream: user.stream,
            shift: 0,
        };
        let chain = chain_to(alloc, least, user.stream)?;
        if let Err(error) = list.push(Entry { frame, chain }) {
            return Err(AllocError::from(error).into());
        }
    }
    Ok(())
}

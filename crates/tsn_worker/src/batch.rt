//! Batches that are settled and posted.
ghost use Rattle.std.specs.Prelude.{◌≡◌, ◌≤◌, true, MatchOption};
ghost use Rattle.tsn_timing.specs.Solution.{IsSolved};
ghost use Rattle.tsn_book.specs.Below.{path_after};
ghost use Rattle.tsn_incumbent.specs.Teller.{IsEven};
ghost use Rattle.tsn_worker.specs.Batch.{IsGoingOn};
ghost use Rattle.tsn_walk.specs.Below.{IsBelow, IsBatch, outcomes_of};
ghost use Rattle.tsn_walk.specs.Search.{AreTablesOf};

use crate::context::Context;
use crate::settler::Settler;
use std::sync::Wait;
use tsn_book::BookFault;
use tsn_branch::supervisor::{News, Supervisor};
use tsn_conflict::Node;
use tsn_incumbent::{Named, Shared, Teller, observe_as, post_as, settle_below_as};
use tsn_timing::{Solved, Timing};
use tsn_walk::news::{known, splits_among};
use tsn_walk::{BATCH, Batch, Below, SeenBest};

/// How a worker goes on below a node.
#[derive(Clone, Copy)]
pub enum Advance {
    /// At the node where the walk stands.
    GoesOn,
    /// At the node where the walk stands, which is to be looked at again without the best schedule.
    LooksAgain,
    /// With another node: nothing is open below this one, or another teller settles it.
    Finished,
    /// Not at all: the limit is met, or there was no memory.
    Ends,
}

/// Looks at up to so many nodes, settles them behind one pass of the supervisor, and posts what was solved. The teller is left
/// even.
pub fn settle_next<K: Named, S: Supervisor>(
    rt: &impl Wait,
    context: &Context<'_, K, S>,
    settler: &mut Settler<K>,
    below: &mut Below,
    most: usize,
) -> Advance
    requires tables { AreTablesOf K.names.race.network context.now.setting.now.tables }
    requires below { IsBelow context.now.setting.now.tables.timing.now context.now.setting.now.tables.conflicts.now.triples below.old }
    requires most { (1 ≤ most) × (most ≤ BATCH) }
    requires even { IsEven settler.old.teller }
    ensures even { IsEven settler.new.teller }
    ensures number { settler.new.teller.standing.number ≡ settler.old.teller.standing.number }
    ensures below { IsGoingOn result → IsBelow context.now.setting.now.tables.timing.now context.now.setting.now.tables.conflicts.now.triples below.new }
{
    let setting = context.setting;
    let shared = context.shared;
    let tables = setting.tables;
    let seen = observe_as(shared, &mut settler.teller);
    let refreshed = settler
        .best
        .refresh(rt, shared, &mut settler.teller, context.board);
    if refreshed.is_err() {
        return Advance::Ends;
    }
    let best = settler.best.lent(below.untied);
    below.untied = false;
    let incumbent = SeenBest { seen, best };
    let Ok(batch) = below.collect(setting.alloc, tables, incumbent, most) else {
        return Advance::Ends;
    };
    let summary = Summary::of(&batch, seen);
    setting.supervisor.pass(settler.number);
    let (advance, accepted) = settle_batch(rt, shared, &mut settler.teller, &mut below.from, batch);
    summary.tell(context, settler.number, accepted);
    match advance {
        Advance::LooksAgain if below.begin_again(setting.alloc, tables.timing, tables.conflicts) =>
            Advance::GoesOn,
        Advance::LooksAgain => Advance::Ends,
        advance => advance,
    }
}

// What is told of a batch.
#[derive(Clone, Copy)]
struct Summary {
    nodes: usize,
    // The nodes that were split, the first in the highest bit of so many.
    splits: u64,
    // The least flowspan solved before it, and with all of it.
    before: u64,
    after: u64,
    is_solved: bool,
}

impl Summary {
    fn of(batch: &Batch, seen: u64) -> Summary {
        Summary {
            nodes: batch.looks.len(),
            splits: splits_among(&batch.looks),
            before: seen,
            after: match &batch.solved {
                Some(solved) => seen.min(solved.flowspan()),
                None => seen,
            },
            is_solved: batch.solved.is_some(),
        }
    }

    // Tells the supervisor and the board, where so many nodes, from the first on, were settled.
    fn tell<K: Named, S: Supervisor>(
        &self,
        context: &Context<'_, K, S>,
        number: usize,
        accepted: usize,
    ) {
        if self.is_solved && accepted == self.nodes {
            context.board.find();
        }
        let setting = context.setting;
        let tables = setting.tables;
        let news = self.news(tables.timing, accepted);
        setting.supervisor.hear(number, news);
    }

    // What is told where so many nodes, from the first on, were settled.
    fn news(&self, timing: &Timing, accepted: usize) -> News {
        let left = self.nodes.saturating_sub(accepted);
        let best = if left == 0 { self.after } else { self.before };
        News {
            nodes: accepted,
            splits: splits_without(self.splits, left),
            flowspan: known(timing, best),
        }
    }
}

// How many were split, without the last so many.
fn splits_without(splits: u64, left: usize) -> usize {
    let mut splits = splits;
    for _ in 0..left {
        splits >>= 1;
    }
    splits.count_ones() as usize
}

// Settles a batch, and posts what it solved then. The answer also says how many of its nodes were settled.
fn settle_batch<K: Named>(
    rt: &impl Wait,
    shared: &Shared<K>,
    teller: &mut Teller<K>,
    from: &mut Node,
    batch: Batch,
) -> (Advance, usize)
    requires batch { IsBatch K.names.race.network teller.old.standing.seen from.old batch }
    requires even { IsEven teller.old }
    requires seen { teller.old.standing.seen ≤ teller.old.standing.posted }
    ensures even { IsEven teller.new }
    ensures number { teller.new.standing.number ≡ teller.old.standing.number }
    ensures goes_on { IsGoingOn result.0 → (batch.more ≡ true) × (from.new ≡ path_after from.old (outcomes_of batch)) }
{
    let Batch {
        looks,
        solved,
        more,
    } = batch;
    let nodes = looks.len();
    match settle_below_as(rt, shared, teller, from, looks) {
        Ok(()) => {
            post_solved(shared, teller, &solved);
            (advance_on(more), nodes)
        }
        Err(refusal) => (advance_after(refusal.fault), refusal.settled),
    }
}

// Posts the teller's least solved flowspan, where it isn't posted yet.
fn post_solved<K: Named>(shared: &Shared<K>, teller: &mut Teller<K>, solved: &Option<Solved>)
    requires { MatchOption solved.now (IsEven teller.old)
        (λ solution. IsSolved K.names.race.network solution × (solution.flowspan ≡ teller.old.tally.solved)) }
    ensures even { IsEven teller.new }
    ensures number { teller.new.standing.number ≡ teller.old.standing.number }
{
    if let Some(solved) = solved {
        post_as(shared, teller, solved);
    }
}

fn advance_on(more: bool) -> Advance
    ensures { IsGoingOn result → more ≡ true }
{
    if more {
        Advance::GoesOn
    } else {
        Advance::Finished
    }
}

fn advance_after(fault: BookFault) -> Advance
    ensures { IsGoingOn result → ⊥ }
{
    match fault {
        BookFault::NotMet(_) => Advance::LooksAgain,
        BookFault::Limit(_) | BookFault::Memory => Advance::Ends,
        BookFault::NotOpen(_) | BookFault::NotConflict | BookFault::AlreadyDecided => {
            Advance::Finished
        }
    }
}

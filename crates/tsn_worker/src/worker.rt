//! One worker.
ghost use Rattle.std.specs.Prelude.{◌≡◌};
ghost use Rattle.tsn_incumbent.specs.Teller.{IsEven};
ghost use Rattle.tsn_walk.specs.Search.{AreTablesOf};

use crate::batch::{Advance, settle_next};
use crate::board::Board;
use crate::context::Context;
use crate::settler::Settler;
use std::sync::Wait;
use std::thread;
use tsn_branch::supervisor::Supervisor;
use tsn_conflict::Node;
use tsn_incumbent::Named;
use tsn_walk::{BATCH, Bag, Below};

// A worker ends after so many rounds in turn in which it found no node.
const ROUNDS: usize = 1000;

// How often a round in which no node was found lets other threads run, while some worker is at work.
const PAUSES: usize = 50;

/// A worker: one who settles nodes, with its bag.
#[derive(Drop)]
pub struct Member<K: Named, B: Bag> {
    pub(crate) settler: Settler<K>,
    pub(crate) bag: B,
}

/// Works below nodes of the bag, until no more are found. The teller is left even.
///
/// The board tells how long it is worth to wait for a node, and when the best schedule has to be copied anew.
pub fn work<K: Named, B: Bag, S: Supervisor>(
    rt: &impl Wait,
    context: &Context<'_, K, S>,
    member: &mut Member<K, B>,
)
    requires tables { AreTablesOf K.names.race.network context.now.setting.now.tables }
    requires even { IsEven member.old.settler.teller }
    ensures even { IsEven member.new.settler.teller }
    ensures number { member.new.settler.teller.standing.number ≡ member.old.settler.teller.standing.number }
{
    let setting = context.setting;
    if setting.supervisor.may_start(member.settler.number) {
        work_on(rt, context, member);
    }
    context.board.end();
}

// Works until no more nodes are found, or the worker ends, as it does for want of memory too.
fn work_on<K: Named, B: Bag, S: Supervisor>(
    rt: &impl Wait,
    context: &Context<'_, K, S>,
    member: &mut Member<K, B>,
)
    requires tables { AreTablesOf K.names.race.network context.now.setting.now.tables }
    requires even { IsEven member.old.settler.teller }
    ensures even { IsEven member.new.settler.teller }
    ensures number { member.new.settler.teller.standing.number ≡ member.old.settler.teller.standing.number }
{
    for _ in 0..u64::MAX {
        let Some(node) = find(&mut member.bag, context.board) else {
            break;
        };
        if !work_below(rt, context, member, node) {
            break;
        }
    }
}

// A node of its own bag, or else of another's. None after so many rounds that found none.
fn find<B: Bag>(bag: &mut B, board: &Board) -> Option<Node> {
    if let Some(node) = next_node(bag) {
        return Some(node);
    }
    board.wait();
    let found = wait_for_node(bag, board);
    board.resume();
    found
}

// A node, by one of the rounds behind the first.
fn wait_for_node<B: Bag>(bag: &mut B, board: &Board) -> Option<Node> {
    for _ in 1..ROUNDS {
        pause(board);
        if let Some(node) = next_node(bag) {
            return Some(node);
        }
    }
    None
}

// Lets other threads run for a while, if a worker is at work that may yet share what is open.
fn pause(board: &Board) {
    for _ in 0..PAUSES {
        if !board.is_at_work() {
            return;
        }
        thread::yield_now();
    }
}

// A node of its own bag, or else of another's.
fn next_node<B: Bag>(bag: &mut B) -> Option<Node> {
    match bag.pop() {
        Some(node) => Some(node),
        None => bag.steal(),
    }
}

// Settles what is open below a node, and shares it. What is left open is in the bag then. False where the worker ends.
fn work_below<K: Named, B: Bag, S: Supervisor>(
    rt: &impl Wait,
    context: &Context<'_, K, S>,
    member: &mut Member<K, B>,
    node: Node,
) -> bool
    requires tables { AreTablesOf K.names.race.network context.now.setting.now.tables }
    requires even { IsEven member.old.settler.teller }
    ensures even { IsEven member.new.settler.teller }
    ensures number { member.new.settler.teller.standing.number ≡ member.old.settler.teller.standing.number }
{
    let setting = context.setting;
    let tables = setting.tables;
    let mut below = match Below::at(setting.alloc, tables.timing, tables.conflicts, node) {
        Ok(Some(below)) => below,
        Ok(None) => return true,
        Err(node) => {
            let _ = member.bag.push(node);
            return false;
        }
    };
    for _ in 0..u64::MAX {
        match settle_next(rt, context, &mut member.settler, &mut below, BATCH) {
            Advance::GoesOn => {}
            Advance::Ends => break,
            Advance::Finished | Advance::LooksAgain => {
                drop(below);
                return setting.supervisor.may_go_on(member.settler.number);
            }
        }
        if !setting.supervisor.may_go_on(member.settler.number) {
            break;
        }
        share_if_awaited(context.board, &mut below, &mut member.bag);
    }
    below.leave(&mut member.bag);
    false
}

// Shares what is open, where a worker looks for a node.
fn share_if_awaited<B: Bag>(board: &Board, below: &mut Below, bag: &mut B)
    ensures { (below.new.descent ≡ below.old.descent) × (below.new.from ≡ below.old.from) }
{
    if board.is_awaited() {
        below.share(bag);
    }
}

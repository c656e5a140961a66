//! A search by several workers, each in a thread of its own.
ghost use Rattle.std.specs.Prelude.{◌≡◌, ℕ, ◌+◌, ◌<◌, ◌≤◌, length, All, IfOk, slice_index_or};
ghost use Rattle.tsn_incumbent.specs.Names.{IsBookOf};
ghost use Rattle.tsn_incumbent.specs.Teller.{IsEven, tellers_from};
ghost use Rattle.tsn_walk.specs.Search.{AreTablesOf};
ghost use Rattle.tsn_worker.specs.Gathered.{AreBack, IsGathered};

use crate::board::Board;
use crate::context::Context;
use crate::settler::Settler;
use crate::start::settle_first;
use crate::team::{team_of, tellers_of};
use crate::worker::{Member, work};
use std::sync::Wait;
use std::thread;
use std::thread::Threads;
use tsn_book::Book;
use tsn_branch::Setting;
use tsn_branch::supervisor::Supervisor;
use tsn_conflict::NoMemory;
use tsn_incumbent::{EndedWord, Named, Parts, Teller, gather};
use tsn_walk::Bag;

/// The caller begins, along a schedule where one is known, the workers go on, one a bag, and what all have settled is gathered: the
/// word that they shared, with the seat of all of them, and the book. The error says that there was no memory for the caller.
pub fn search<
    K: Named + Send + Sync,
    R: Threads + Wait + Sync,
    S: Supervisor + Sync,
    B: Bag + Send,
>(
    rt: &R,
    setting: &Setting<'_, S>,
    bags: Vec<B>,
    parts: Parts,
    known: Option<&[u64]>,
) -> Result<(EndedWord, Book), NoMemory>
    requires names { parts ≡ K.names }
    requires tables { AreTablesOf K.names.race.network setting.now.tables }
    requires tellers { K.names.race.tellers ≡ length bags.items + 1 }
    requires some { 1 ≤ length bags.items }
    ensures race { IfOk result (λ left. left.0.seat.race ≡ K.names.race) }
    ensures book { IfOk result (λ left. IsBookOf K.names left.1) }
    ensures gathered { IfOk result (λ left. IsGathered left.0 left.1) }
{
    let (shared, tellers) = parts.share::<K>(setting.alloc)?;
    let board = Board::new(bags.len());
    let context = Context {
        setting,
        shared: &shared,
        board: &board,
    };
    let back = settle_all(rt, &context, known, bags, tellers);
    drop(context);
    drop(board);
    match back {
        Ok(tellers) => Ok(gather(shared, tellers)),
        Err(fault) => {
            drop(shared);
            Err(fault)
        }
    }
}

// The caller, who is the last of the tellers, settles the first nodes, and the workers the others. All tellers come back.
fn settle_all<
    K: Named + Send + Sync,
    R: Threads + Wait + Sync,
    S: Supervisor + Sync,
    B: Bag + Send,
>(
    rt: &R,
    context: &Context<'_, K, S>,
    known: Option<&[u64]>,
    bags: Vec<B>,
    tellers: Vec<Teller<K>>,
) -> Result<Vec<Teller<K>>, NoMemory>
    requires tables { AreTablesOf K.names.race.network context.now.setting.now.tables }
    requires fresh { tellers.items ≡ tellers_from K.names 0 K.names.race.tellers }
    requires tellers { K.names.race.tellers ≡ length bags.items + 1 }
    requires some { 1 ≤ length bags.items }
    ensures { IfOk result (λ back. AreBack K.names.race.tellers back.items) }
{
    let setting = context.setting;
    let mut bags = bags;
    let mut tellers = tellers;
    let Some(last) = tellers.pop() else {
        unreachable!();
    };
    let workers = bags.len();
    let mut caller = Settler::new(workers, last);
    let open_nodes = match settle_first(rt, context, known, workers, &mut caller) {
        Ok(open_nodes) => open_nodes,
        Err(fault) => {
            drop(caller);
            return Err(fault);
        }
    };
    open_nodes.deal(bags.as_mut_slice());
    let mut members = match team_of(setting.alloc, tellers, bags) {
        Ok(members) => members,
        Err(_) => {
            drop(caller);
            return Err(NoMemory);
        }
    };
    run(rt, context, members.as_mut_slice());
    Ok(tellers_of(setting.alloc, members, caller.into_teller())?)
}

// Runs each worker in a thread of its own, or one after another where no thread can be made. Each teller is left even.
fn run<K: Named + Send + Sync, B: Bag + Send, S: Supervisor + Sync, R: Threads + Wait + Sync>(
    rt: &R,
    context: &Context<'_, K, S>,
    members: &mut [Member<K, B>],
)
    requires tables { AreTablesOf K.names.race.network context.now.setting.now.tables }
    requires some { 0 < length members.old }
    requires even { All (λ member. IsEven member.settler.teller) members.old }
    ensures even { All (λ member. IsEven member.settler.teller) members.new }
    ensures numbers { (k : ℕ) (d : _) → k < length members.old
        → (slice_index_or members.new k d).settler.teller.standing.number ≡ (slice_index_or members.old k d).settler.teller.standing.number }
{
    let threads = members.len();
    thread::for_each_mut(
        rt,
        members,
        threads,
        &|_number: usize, member: &mut Member<K, B>|
            requires { AreTablesOf K.names.race.network context.now.setting.now.tables × IsEven member.old.settler.teller }
            ensures { IsEven member.new.settler.teller × (member.new.settler.teller.standing.number ≡ member.old.settler.teller.standing.number) }
        { work(rt, context, member) },
    );
}

//! Plans a network.
ghost use Rattle.std.specs.Prelude.{◌≡◌, ◌≤◌, ◌<◌, ℕ, None, length, IfOk};
ghost use Rattle.tsn_model.specs.Network.{HasFewStreams, stream_count};
ghost use Rattle.tsn_words.specs.declared.options.Method.TheVariants.{FileOrder};
ghost use Rattle.tsn_answer.specs.Optimum.{FindsOptimum};
ghost use Rattle.tsn_answer.specs.Answer.{IsFound, IsFoundBy, HasNoArgument, KeepsFound, KeepsKept, KeepsKnown};
ghost use Rattle.tsn_answer.specs.Known.{IsKnown};
ghost use Rattle.tsn_walk.specs.Search.{IsSearchBy};
ghost use Rattle.tsn_worker.specs.GoingOn.{GoesOn};
ghost use Rattle.tsn_worker.specs.Team.{IsTeamwork};
ghost use Rattle.tsn_worker.specs.declared.planning.TheConstants.{GOES_ON_FROM};

use crate::deque::DequeBag;
use crate::learned::{Learned, Question, find_by_learning, learn_of};
use crate::searched::Searched;
use crate::task::Task;
use crate::telling::{tell_bound, tell_found};
use crate::threads::search;
use std::alloc::Global;
use std::marker::Brand;
use std::sync::Wait;
use std::thread::Threads;
use tsn_answer::{Effort, FILE_ORDER_LIMIT, Found, Known, MAX_LIMIT, MAX_WORKERS};
use tsn_book::Book;
use tsn_branch::{FEW_STREAMS, Phase, Prepared, Setting, Supervisor, lower_bound};
use tsn_incumbent::Parts;
use tsn_model::NoMemory;
use tsn_timing::Problem;
use tsn_walk::Bag;
use tsn_walk::search::settle_open;
use tsn_words::Method;

// From this limit on one worker goes on in the book that is there, where the conflict-driven search gave up. Below it too few nodes may
// be left for the way along the best schedule that is known.
const GOES_ON_FROM: usize = 2 * FILE_ORDER_LIMIT;

/// What is searched for a plan, and no certificate: the book that is left says which schedule is the first, or that there is
/// none, where no node is open in it. Where the limit is met the best schedule that any phase of the search has found is known
/// besides, and what no schedule undercuts. Of more than 128 streams, which aren't searched in the order of the file, the
/// conflict-driven search alone finds what an argument shows, or gives up with what is known then.
pub fn search_by<R: Threads + Wait + Sync, S: Supervisor + Sync>(
    rt: &R,
    alloc: Global,
    problem: &Problem,
    effort: Effort,
    supervisor: &S,
) -> Result<Searched, NoMemory>
    requires workers { (1 ≤ effort.workers) × (effort.workers ≤ MAX_WORKERS) }
    requires some { 1 ≤ effort.limit }
    requires few { effort.limit ≤ MAX_LIMIT }
    requires order { effort.method ≡ FileOrder → HasFewStreams problem.now.network }
    ensures optimum { IfOk result (λ searched. FindsOptimum problem.now.network searched.found) }
    ensures found { IfOk result (λ searched. IsFound problem.now.network effort.limit searched.found) }
    ensures method { IfOk result (λ searched. HasFewStreams problem.now.network → IsFoundBy effort searched.found) }
    ensures gathered { IfOk result (λ searched. IsTeamwork effort.workers searched.word searched.found) }
{
    if problem.timing().streams() > FEW_STREAMS {
        let found = search_many(alloc, problem, effort.limit, supervisor)?;
        return Ok(Searched::alone(found));
    }
    search_few(rt, alloc, problem, effort, supervisor)
}

// What is found of more than 128 streams, by at most so many steps.
fn search_many<S: Supervisor>(
    alloc: Global,
    problem: &Problem,
    limit: usize,
    supervisor: &S,
) -> Result<Found, NoMemory>
    requires { 128 < stream_count problem.now.network }
    ensures found { IfOk result (IsFound problem.now.network limit) }
    ensures team { IfOk result (λ found. (workers : ℕ) → IsTeamwork workers None found) }
{
    let timing = problem.timing();
    let known = Known::of(timing);
    tell_bound(timing, supervisor, known.bound);
    let question = Question {
        problem,
        timing,
        limit,
    };
    match learn_of(alloc, question, known, supervisor) {
        Learned::Shown(plan, argument) => Ok(Found::Argued(plan, argument)),
        Learned::Open(known, conflicts) => match conflicts {
            Some(count) => Ok(Found::GaveUp(known, count)),
            None => {
                drop(known);
                Err(NoMemory)
            }
        },
    }
}

// What is found of at most 128 streams.
fn search_few<R: Threads + Wait + Sync, S: Supervisor + Sync>(
    rt: &R,
    alloc: Global,
    problem: &Problem,
    effort: Effort,
    supervisor: &S,
) -> Result<Searched, NoMemory>
    requires workers { (1 ≤ effort.workers) × (effort.workers ≤ MAX_WORKERS) }
    requires some { 1 ≤ effort.limit }
    requires few { effort.limit ≤ MAX_LIMIT }
    requires few_streams { HasFewStreams problem.now.network }
    ensures found { IfOk result (λ searched. IsFound problem.now.network effort.limit searched.found) }
    ensures method { IfOk result (λ searched. IsFoundBy effort searched.found) }
    ensures gathered { IfOk result (λ searched. IsTeamwork effort.workers searched.word searched.found) }
{
    let prepared = Prepared::of(alloc, problem)?;
    let setting = prepared.setting(alloc, supervisor);
    let task = Task {
        problem,
        setting: &setting,
        effort,
    };
    let found = search_by_method(rt, &task);
    if let Ok(searched) = &found {
        tell_found(&task, &searched.found);
    }
    drop(task);
    drop(setting);
    drop(prepared);
    found
}

/// What 2 to 16 workers find in the order of the file, one a bag, of at most 128 streams. The bags are handed in empty.
pub fn search_in_bags<R: Threads + Wait + Sync, S: Supervisor + Sync, B: Bag + Send>(
    rt: &R,
    alloc: Global,
    problem: &Problem,
    limit: usize,
    supervisor: &S,
    bags: Vec<B>,
) -> Result<Searched, NoMemory>
    requires workers { (2 ≤ length bags.items) × (length bags.items ≤ MAX_WORKERS) }
    requires some { 1 ≤ limit }
    requires few { limit ≤ MAX_LIMIT }
    requires few_streams { HasFewStreams problem.now.network }
    ensures found { IfOk result (λ searched. IsFound problem.now.network limit searched.found) }
    ensures book { IfOk result (λ searched. HasNoArgument searched.found) }
    ensures gathered { IfOk result (λ searched. IsTeamwork (length bags.items) searched.word searched.found) }
{
    let prepared = Prepared::of(alloc, problem)?;
    let setting = prepared.setting(alloc, supervisor);
    let task = Task {
        problem,
        setting: &setting,
        effort: Effort {
            method: Method::FileOrder,
            workers: bags.len(),
            limit,
        },
    };
    let found = search_from_root(rt, &task, bags);
    drop(task);
    drop(setting);
    drop(prepared);
    found
}

// What several workers find from the root on, one a bag.
fn search_from_root<R: Threads + Wait + Sync, S: Supervisor + Sync, B: Bag + Send>(
    rt: &R,
    task: &Task<'_, S>,
    bags: Vec<B>,
) -> Result<Searched, NoMemory>
    requires several { 2 ≤ task.now.effort.workers }
    requires bags { length bags.items ≡ task.now.effort.workers }
    ensures found { IfOk result (λ searched. IsFound task.now.setting.now.tables.timing.now task.now.effort.limit searched.found) }
    ensures book { IfOk result (λ searched. HasNoArgument searched.found) }
    ensures gathered { IfOk result (λ searched. IsTeamwork task.now.effort.workers searched.word searched.found) }
{
    let setting = task.setting;
    let known = known_at_root(setting)?;
    setting.supervisor.begin(Phase::File);
    search_over(rt, task, known, bags)
}

// What is known before the search, of which the supervisor hears. A bound past the cycle is told as the cycle: the search then finds
// that there is no schedule.
fn known_at_root<S: Supervisor>(setting: &Setting<'_, S>) -> Result<Known, NoMemory>
    ensures { IfOk result (IsKnown setting.now.tables.timing.now) }
{
    let bound = lower_bound(setting.alloc, setting.tables)?;
    let known = Known {
        best: None,
        bound: bound.min(setting.tables.timing.cycle()),
    };
    tell_bound(setting.tables.timing, setting.supervisor, known.bound);
    Ok(known)
}

fn search_by_method<R: Threads + Wait + Sync, S: Supervisor + Sync>(
    rt: &R,
    task: &Task<'_, S>,
) -> Result<Searched, NoMemory>
    ensures found { IfOk result (λ searched. IsFound task.now.setting.now.tables.timing.now task.now.effort.limit searched.found) }
    ensures method { IfOk result (λ searched. IsFoundBy task.now.effort searched.found) }
    ensures gathered { IfOk result (λ searched. IsTeamwork task.now.effort.workers searched.word searched.found) }
{
    let known = known_at_root(task.setting)?;
    match task.effort.method {
        Method::FileOrder => search_with(rt, task, Phase::File, known),
        Method::Learn => search_learning(rt, task, known),
        Method::Auto => search_auto(rt, task, known),
    }
}

// What is found in the order of the file, or, where more may be settled than that search may, by the conflict-driven search.
#[tactic(auto, using(crate::proofs::Teams::alone))]
fn search_auto<R: Threads + Wait + Sync, S: Supervisor + Sync>(
    rt: &R,
    task: &Task<'_, S>,
    known: Known,
) -> Result<Searched, NoMemory>
    requires known { IsKnown task.now.setting.now.tables.timing.now known }
    ensures found { IfOk result (λ searched. IsFound task.now.setting.now.tables.timing.now task.now.effort.limit searched.found) }
    ensures kept { IfOk result (λ searched. KeepsKnown known searched.found) }
    ensures method { IfOk result (λ searched. task.now.effort.limit ≤ FILE_ORDER_LIMIT → HasNoArgument searched.found) }
    ensures gathered { IfOk result (λ searched. IsTeamwork task.now.effort.workers searched.word searched.found) }
{
    if task.effort.limit <= FILE_ORDER_LIMIT {
        return search_with(rt, task, Phase::File, known);
    }
    if task.effort.workers == 1 {
        return Ok(Searched::alone(search_auto_alone(task, known)?));
    }
    let begin = Task {
        problem: task.problem,
        setting: task.setting,
        effort: Effort {
            limit: FILE_ORDER_LIMIT,
            ..task.effort
        },
    };
    let first = search_with(rt, &begin, Phase::File, known)?;
    search_beyond(rt, task, first)
}

// What several workers find, where their first search left this.
fn search_beyond<R: Threads + Wait + Sync, S: Supervisor + Sync>(
    rt: &R,
    task: &Task<'_, S>,
    first: Searched,
) -> Result<Searched, NoMemory>
    requires more { FILE_ORDER_LIMIT < task.now.effort.limit }
    requires first { IsFound task.now.setting.now.tables.timing.now FILE_ORDER_LIMIT first.found }
    requires gathered { IsTeamwork task.now.effort.workers first.word first.found }
    ensures found { IfOk result (λ searched. IsFound task.now.setting.now.tables.timing.now task.now.effort.limit searched.found) }
    ensures kept { IfOk result (λ searched. KeepsFound first.found searched.found) }
    ensures gathered { IfOk result (λ searched. IsTeamwork task.now.effort.workers searched.word searched.found) }
{
    let Searched { found, word } = first;
    match found {
        Found::Stopped(book, known) => {
            drop(book);
            drop(word);
            search_learning(rt, task, known)
        }
        Found::GaveUp(known, count) => Ok(Searched {
            found: Found::GaveUp(known, count),
            word,
        }),
        Found::Argued(plan, argument) => Ok(Searched {
            found: Found::Argued(plan, argument),
            word,
        }),
        Found::Finished(finished) => Ok(Searched {
            found: Found::Finished(finished),
            word,
        }),
    }
}

// What one worker finds in the order of the file, or else by the conflict-driven search.
fn search_auto_alone<S: Supervisor>(task: &Task<'_, S>, known: Known) -> Result<Found, NoMemory>
    requires more { FILE_ORDER_LIMIT < task.now.effort.limit }
    requires known { IsKnown task.now.setting.now.tables.timing.now known }
    ensures found { IfOk result (IsFound task.now.setting.now.tables.timing.now task.now.effort.limit) }
    ensures kept { IfOk result (KeepsKnown known) }
{
    let setting = task.setting;
    let timing = setting.tables.timing;
    let limit = task.effort.limit;
    setting.supervisor.begin(Phase::File);
    let book = Book::new(setting.alloc, timing, 1, limit)?;
    let book = settle_open(setting, 0, FILE_ORDER_LIMIT, None, book)?;
    if book.open_count() == 0 {
        return Found::of(timing, known, limit, book);
    }
    search_after(task, known, book)
}

// What one worker finds by the conflict-driven search, once a book keeps some schedule; where that gives up it goes on in the same book,
// or begins anew.
fn search_after<S: Supervisor>(
    task: &Task<'_, S>,
    known: Known,
    book: Book,
) -> Result<Found, NoMemory>
    requires known { IsKnown task.now.setting.now.tables.timing.now known }
    requires search { IsSearchBy task.now.setting.now.tables 0 task.now.effort.limit book }
    requires limit { book.limit ≡ task.now.effort.limit }
    ensures found { IfOk result (IsFound task.now.setting.now.tables.timing.now task.now.effort.limit) }
    ensures kept { IfOk result (KeepsKnown known) }
    ensures kept_book { IfOk result (KeepsKept task.now.setting.now.tables.timing.now book) }
    ensures goes_on { GOES_ON_FROM ≤ task.now.effort.limit → IfOk result (GoesOn 0 book) }
{
    let known = known.with_kept(&book)?;
    match find_by_learning(task, known) {
        Learned::Shown(plan, argument) => {
            drop(book);
            Ok(Found::Argued(plan, argument))
        }
        Learned::Open(known, _) => go_on(task, known, book),
    }
}

// What the caller finds alone in a book in which something is settled, or, where too few nodes are left for that, from the root on.
fn go_on<S: Supervisor>(task: &Task<'_, S>, known: Known, book: Book) -> Result<Found, NoMemory>
    requires search { IsSearchBy task.now.setting.now.tables 0 task.now.effort.limit book }
    requires limit { book.limit ≡ task.now.effort.limit }
    requires known { IsKnown task.now.setting.now.tables.timing.now known }
    ensures found { IfOk result (IsFound task.now.setting.now.tables.timing.now task.now.effort.limit) }
    ensures kept { IfOk result (KeepsKnown known) }
    ensures goes_on { GOES_ON_FROM ≤ task.now.effort.limit → IfOk result (GoesOn 0 book) }
{
    if task.effort.limit < GOES_ON_FROM {
        drop(book);
        return search_alone(task, Phase::File, known);
    }
    search_from(task, Phase::Along, known, book)
}

// What is found by the conflict-driven search, or else in the order of the file, along the best schedule that is known.
fn search_learning<R: Threads + Wait + Sync, S: Supervisor + Sync>(
    rt: &R,
    task: &Task<'_, S>,
    known: Known,
) -> Result<Searched, NoMemory>
    requires known { IsKnown task.now.setting.now.tables.timing.now known }
    ensures found { IfOk result (λ searched. IsFound task.now.setting.now.tables.timing.now task.now.effort.limit searched.found) }
    ensures kept { IfOk result (λ searched. KeepsKnown known searched.found) }
    ensures gathered { IfOk result (λ searched. IsTeamwork task.now.effort.workers searched.word searched.found) }
{
    match find_by_learning(task, known) {
        Learned::Shown(plan, argument) => Ok(Searched::alone(Found::Argued(plan, argument))),
        Learned::Open(known, _) => search_with(rt, task, Phase::Along, known),
    }
}

// What 1 to 16 workers find in a phase.
#[tactic(auto, using(crate::proofs::Teams::alone))]
fn search_with<R: Threads + Wait + Sync, S: Supervisor + Sync>(
    rt: &R,
    task: &Task<'_, S>,
    phase: Phase,
    known: Known,
) -> Result<Searched, NoMemory>
    requires known { IsKnown task.now.setting.now.tables.timing.now known }
    ensures found { IfOk result (λ searched. IsFound task.now.setting.now.tables.timing.now task.now.effort.limit searched.found) }
    ensures kept { IfOk result (λ searched. KeepsKnown known searched.found) }
    ensures book { IfOk result (λ searched. HasNoArgument searched.found) }
    ensures gathered { IfOk result (λ searched. IsTeamwork task.now.effort.workers searched.word searched.found) }
{
    if task.effort.workers == 1 {
        return Ok(Searched::alone(search_alone(task, phase, known)?));
    }
    let setting = task.setting;
    setting.supervisor.begin(phase);
    let bags = DequeBag::make(setting.alloc, task.effort.workers)?;
    search_over(rt, task, known, bags)
}

// What 2 to 16 workers find, one a bag.
#[tactic(auto, using(crate::proofs::Teams::together))]
fn search_over<R: Threads + Wait + Sync, S: Supervisor + Sync, B: Bag + Send>(
    rt: &R,
    task: &Task<'_, S>,
    known: Known,
    bags: Vec<B>,
) -> Result<Searched, NoMemory>
    requires several { 2 ≤ task.now.effort.workers }
    requires bags { length bags.items ≡ task.now.effort.workers }
    requires known { IsKnown task.now.setting.now.tables.timing.now known }
    ensures found { IfOk result (λ searched. IsFound task.now.setting.now.tables.timing.now task.now.effort.limit searched.found) }
    ensures kept { IfOk result (λ searched. KeepsKnown known searched.found) }
    ensures book { IfOk result (λ searched. HasNoArgument searched.found) }
    ensures gathered { IfOk result (λ searched. IsTeamwork task.now.effort.workers searched.word searched.found) }
{
    let setting = task.setting;
    let timing = setting.tables.timing;
    let parts = Parts::new(
        setting.alloc,
        timing,
        task.effort.workers + 1,
        task.effort.limit,
    )?;
    let (word, gathered) = search::<Brand, R, S, B>(rt, setting, bags, parts, known.offsets())?;
    match finish(task, known, gathered) {
        Ok(found) => Ok(Searched {
            found,
            word: Some(word),
        }),
        Err(fault) => {
            drop(word);
            Err(fault)
        }
    }
}

// What is found where the caller goes on alone in the book that the workers and it have gathered.
fn finish<S: Supervisor>(
    task: &Task<'_, S>,
    known: Known,
    gathered: Book,
) -> Result<Found, NoMemory>
    requires search { IsSearchBy task.now.setting.now.tables task.now.effort.workers task.now.effort.limit gathered }
    requires limit { gathered.limit ≡ task.now.effort.limit }
    requires known { IsKnown task.now.setting.now.tables.timing.now known }
    ensures found { IfOk result (IsFound task.now.setting.now.tables.timing.now task.now.effort.limit) }
    ensures kept { IfOk result (KeepsKnown known) }
    ensures book { IfOk result HasNoArgument }
    ensures goes_on { IfOk result (GoesOn task.now.effort.workers gathered) }
{
    let setting = task.setting;
    let limit = task.effort.limit;
    let book = settle_open(setting, task.effort.workers, limit, None, gathered)?;
    Found::of(setting.tables.timing, known, limit, book)
}

// What the caller finds alone in a phase, from the root on.
fn search_alone<S: Supervisor>(
    task: &Task<'_, S>,
    phase: Phase,
    known: Known,
) -> Result<Found, NoMemory>
    requires known { IsKnown task.now.setting.now.tables.timing.now known }
    ensures found { IfOk result (IsFound task.now.setting.now.tables.timing.now task.now.effort.limit) }
    ensures kept { IfOk result (KeepsKnown known) }
    ensures book { IfOk result HasNoArgument }
{
    let setting = task.setting;
    let book = Book::new(setting.alloc, setting.tables.timing, 1, task.effort.limit)?;
    search_from(task, phase, known, book)
}

// What the caller finds alone in a book, along the best schedule that is known. The supervisor hears that the phase begins.
fn search_from<S: Supervisor>(
    task: &Task<'_, S>,
    phase: Phase,
    known: Known,
    book: Book,
) -> Result<Found, NoMemory>
    requires search { IsSearchBy task.now.setting.now.tables 0 task.now.effort.limit book }
    requires limit { book.limit ≡ task.now.effort.limit }
    requires known { IsKnown task.now.setting.now.tables.timing.now known }
    ensures found { IfOk result (IsFound task.now.setting.now.tables.timing.now task.now.effort.limit) }
    ensures kept { IfOk result (KeepsKnown known) }
    ensures book { IfOk result HasNoArgument }
    ensures goes_on { IfOk result (GoesOn 0 book) }
{
    let setting = task.setting;
    let limit = task.effort.limit;
    setting.supervisor.begin(phase);
    let book = settle_open(setting, 0, limit, known.offsets(), book)?;
    Found::of(setting.tables.timing, known, limit, book)
}

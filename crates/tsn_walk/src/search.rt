//! The search in a book of one's own: an open node is taken, and all that is open below it is settled, again and again.
ghost use Rattle.std.specs.Prelude.{◌≡◌, ◌<◌, ◌≤◌, ◌+◌, ◌⊎◌, true, [], length, Contains, IfOk, IfSome, OnOk, MatchBool};
ghost use Rattle.tsn_model.specs.Search.{open_paths};
ghost use Rattle.tsn_conflict.specs.Outcome.{outcome_of};
ghost use Rattle.tsn_conflict.specs.Right.{HasProof, SplitsUndecided};
ghost use Rattle.tsn_book.specs.Book.{IsMet};
ghost use Rattle.tsn_walk.specs.Search.{IsSearchBy, IsFurther};
ghost use Rattle.tsn_walk.specs.Below.{IsBelow, IsBatch, outcomes_of};
ghost use Rattle.tsn_book.specs.Below.{path_after};

use crate::bag::Bag;
use crate::below::{BATCH, Batch, Below, beyond, node_along};
use crate::best::SeenBest;
use crate::news::{is_split, known, splits_among};
use crate::open_nodes::OpenNodes;
use tsn_book::{Book, BookFault, Event, EventRefusal};
use tsn_branch::supervisor::{News, Supervisor};
use tsn_branch::{Setting, look};
use tsn_conflict::{NoMemory, Node};

// One who settles nodes in a book: by which number, and until how many are settled in all.
#[derive(Drop)]
struct Course<'a, S> {
    setting: &'a Setting<'a, S>,
    teller: usize,
    until: usize,
}

/// Settles open nodes as this teller, until none is open or so many are settled, at most the limit. The error says that there was no
/// memory.
///
/// Where a schedule is known the nodes on its way come first, and then what is open below those beside it, the nearest first. Else
/// the first open node is taken, again and again.
pub fn settle_open<S: Supervisor>(
    setting: &Setting<'_, S>,
    teller: usize,
    until: usize,
    known: Option<&[u64]>,
    book: Book,
) -> Result<Book, NoMemory>
    requires search { IsSearchBy setting.now.tables teller until book }
    ensures further { IfOk result (IsFurther teller book) }
    ensures done { IfOk result (λ searched. (open_paths searched.history ≡ []) ⊎ (until ≤ length searched.history)) }
{
    let course = Course {
        setting,
        teller,
        until,
    };
    let mut book = book;
    match settle_all(&course, known, &mut book) {
        Ok(()) => Ok(book),
        Err(fault) => {
            drop(book);
            Err(fault)
        }
    }
}

// Settles open nodes until none is open or so many are settled.
#[tactic(auto, using(crate::proofs::Further::stays, crate::proofs::Further::goes_on))]
fn settle_all<S: Supervisor>(
    course: &Course<'_, S>,
    known: Option<&[u64]>,
    book: &mut Book,
) -> Result<(), NoMemory>
    requires search { IsSearchBy course.now.setting.now.tables course.now.teller course.now.until book.old }
    ensures further { IsFurther course.now.teller book.old book.new }
    ensures done { OnOk result ((open_paths book.new.history ≡ []) ⊎ (course.now.until ≤ length book.new.history)) }
{
    let setting = course.setting;
    let mut others = OpenNodes::none(setting.alloc);
    if let Some(known) = known {
        dive(course, book, known, &mut others)?;
    }
    // Each loop is proved to end. This one's measure is how many settlements are left, and the label names it in its proof.
    // Where a loop has no measure at hand, as in `dive`, it goes over `0..u64::MAX`, which no run comes to the end of.
    'settlements: while book.count() < course.until {
        if book.open_count() == 0 || !settle_more(course, book, &mut others)? {
            break;
        }
    }
    drop(others);
    Ok(())
}

// Settles the nodes on the way that a schedule keeps to, from where it is open, and gives the other sides to the bag.
#[tactic(auto, using(crate::proofs::Further::stays, crate::proofs::Further::goes_on))]
fn dive<S: Supervisor>(
    course: &Course<'_, S>,
    book: &mut Book,
    known: &[u64],
    others: &mut OpenNodes,
) -> Result<(), NoMemory>
    requires search { IsSearchBy course.now.setting.now.tables course.now.teller course.now.until book.old }
    ensures further { IsFurther course.now.teller book.old book.new }
{
    let setting = course.setting;
    let node = node_along(setting.alloc, setting.tables.conflicts, book, known)?;
    let Some(mut below) = below_at(course, node)? else {
        return Ok(());
    };
    let gone = dive_on(course, book, known, &mut below, others);
    drop(below);
    gone
}

// What is open below a node, where it is one of the network's.
fn below_at<S: Supervisor>(course: &Course<'_, S>, node: Node) -> Result<Option<Below>, NoMemory>
    ensures { IfOk result (λ found. IfSome found (IsBelow course.now.setting.now.tables.timing.now course.now.setting.now.tables.conflicts.now.triples)) }
{
    let setting = course.setting;
    match Below::at(
        setting.alloc,
        setting.tables.timing,
        setting.tables.conflicts,
        node,
    ) {
        Ok(found) => Ok(found),
        Err(node) => {
            drop(node);
            Err(NoMemory)
        }
    }
}

// Settles the nodes of a walk down, at each to the side that the schedule keeps to.
#[tactic(auto, using(crate::proofs::Further::stays, crate::proofs::Further::goes_on))]
fn dive_on<S: Supervisor>(
    course: &Course<'_, S>,
    book: &mut Book,
    known: &[u64],
    below: &mut Below,
    others: &mut OpenNodes,
) -> Result<(), NoMemory>
    requires search { IsSearchBy course.now.setting.now.tables course.now.teller course.now.until book.old }
    requires below { IsBelow course.now.setting.now.tables.timing.now course.now.setting.now.tables.conflicts.now.triples below.old }
    ensures further { IsFurther course.now.teller book.old book.new }
{
    let setting = course.setting;
    for _ in 0..u64::MAX {
        let depth = below.from.path().len();
        if !settle_batch(course, book, below, 1)? {
            break;
        }
        if below.from.path().len() <= depth {
            break;
        }
        below.choose_side(setting.alloc, setting.tables, known, others)?;
    }
    Ok(())
}

// Takes an open node, and settles what is open below it, or the first open node alone where no way leads to that one. False
// where nothing is open then.
#[tactic(auto, using(crate::proofs::Further::stays, crate::proofs::Further::goes_on))]
fn settle_more<S: Supervisor>(
    course: &Course<'_, S>,
    book: &mut Book,
    others: &mut OpenNodes,
) -> Result<bool, NoMemory>
    requires search { IsSearchBy course.now.setting.now.tables course.now.teller course.now.until book.old }
    requires some_open { 0 < length (open_paths book.old.history) }
    requires some_left { length book.old.history < course.now.until }
    ensures further { IsFurther course.now.teller book.old book.new }
    ensures more { IfOk result (λ more. MatchBool more (length book.old.history < length book.new.history) (open_paths book.new.history ≡ [])) }
{
    let before = book.count();
    let node = match others.pop() {
        Some(node) => node,
        None => first_open(course, book)?,
    };
    settle_under(course, book, node)?;
    if book.count() > before {
        return Ok(true);
    }
    if book.open_count() == 0 {
        return Ok(false);
    }
    settle_first_open(course, book)?;
    Ok(true)
}

// The open node that is first in preorder.
fn first_open<S: Supervisor>(course: &Course<'_, S>, book: &Book) -> Result<Node, NoMemory>
    requires some_open { 0 < length (open_paths book.now.history) }
    ensures { IfOk result (Contains (open_paths book.now.history)) }
{
    let setting = course.setting;
    let Some(node) = book.first_open(setting.alloc)? else {
        unreachable!();
    };
    Ok(node)
}

// Settles what is open below a node, until so many are settled.
#[tactic(auto, using(crate::proofs::Further::stays, crate::proofs::Further::goes_on))]
fn settle_under<S: Supervisor>(
    course: &Course<'_, S>,
    book: &mut Book,
    node: Node,
) -> Result<(), NoMemory>
    requires search { IsSearchBy course.now.setting.now.tables course.now.teller course.now.until book.old }
    ensures further { IsFurther course.now.teller book.old book.new }
{
    let Some(mut below) = below_at(course, node)? else {
        return Ok(());
    };
    let settled = settle_on(course, book, &mut below);
    drop(below);
    settled
}

// Settles the nodes of a walk, until so many are settled.
#[tactic(auto, using(crate::proofs::Further::stays, crate::proofs::Further::goes_on))]
fn settle_on<S: Supervisor>(
    course: &Course<'_, S>,
    book: &mut Book,
    below: &mut Below,
) -> Result<(), NoMemory>
    requires search { IsSearchBy course.now.setting.now.tables course.now.teller course.now.until book.old }
    requires below { IsBelow course.now.setting.now.tables.timing.now course.now.setting.now.tables.conflicts.now.triples below.old }
    ensures further { IsFurther course.now.teller book.old book.new }
{
    for _ in 0..u64::MAX {
        if !settle_batch(course, book, below, BATCH)? {
            break;
        }
    }
    Ok(())
}

// Looks at up to so many nodes where the walk stands, and settles them, once the supervisor was passed for each. False where the walk
// doesn't go on.
#[tactic(auto, using(crate::proofs::Further::stays, crate::proofs::Further::goes_on))]
fn settle_batch<S: Supervisor>(
    course: &Course<'_, S>,
    book: &mut Book,
    below: &mut Below,
    most: usize,
) -> Result<bool, NoMemory>
    requires search { IsSearchBy course.now.setting.now.tables course.now.teller course.now.until book.old }
    requires below { IsBelow course.now.setting.now.tables.timing.now course.now.setting.now.tables.conflicts.now.triples below.old }
    requires most { (1 ≤ most) × (most ≤ BATCH) }
    ensures further { IsFurther course.now.teller book.old book.new }
    ensures below { IfOk result (λ more. more ≡ true → IsBelow course.now.setting.now.tables.timing.now course.now.setting.now.tables.conflicts.now.triples below.new) }
{
    let setting = course.setting;
    let count = book.count();
    if count >= course.until {
        return Ok(false);
    }
    let incumbent = SeenBest {
        seen: book.best(),
        best: book.kept(),
    };
    let most = most.min(course.until - count);
    let batch = below.collect(setting.alloc, setting.tables, incumbent, most)?;
    for _node in 0..batch.looks.len() {
        setting.supervisor.pass(course.teller);
    }
    record_batch(course, book, &mut below.from, batch)
}

// Settles what was found at the nodes of a walk. False where the walk doesn't go on.
#[tactic(auto, using(crate::proofs::Further::stays, crate::proofs::Further::goes_on, crate::proofs::Further::settled))]
fn record_batch<S: Supervisor>(
    course: &Course<'_, S>,
    book: &mut Book,
    from: &mut Node,
    batch: Batch,
) -> Result<bool, NoMemory>
    requires search { IsSearchBy course.now.setting.now.tables course.now.teller course.now.until book.old }
    requires batch { (seen : _) × IsBatch book.old.network seen from.old batch }
    ensures further { IsFurther course.now.teller book.old book.new }
    ensures goes_on { IfOk result (λ more. more ≡ true → (batch.more ≡ true) × (from.new ≡ path_after from.old (outcomes_of batch))) }
{
    let Batch {
        looks,
        solved,
        more,
    } = batch;
    drop(solved);
    let nodes = looks.len();
    let splits = splits_among(&looks).count_ones() as usize;
    match book.settle_below(course.teller, from, looks) {
        Ok(()) => {
            tell(course, book, nodes, splits);
            Ok(more)
        }
        Err(refusal) => match refusal.fault {
            BookFault::Memory => Err(NoMemory),
            _ => Ok(false),
        },
    }
}

// Tells the supervisor of nodes that were settled.
fn tell<S: Supervisor>(course: &Course<'_, S>, book: &Book, nodes: usize, splits: usize) {
    let setting = course.setting;
    let flowspan = known(setting.tables.timing, book.best());
    let news = News {
        nodes,
        splits,
        flowspan,
    };
    setting.supervisor.hear(course.teller, news);
}

// Settles the open node that is first in preorder, looked at by itself.
#[tactic(auto, using(crate::proofs::Further::stays, crate::proofs::Further::goes_on))]
fn settle_first_open<S: Supervisor>(course: &Course<'_, S>, book: &mut Book) -> Result<(), NoMemory>
    requires search { IsSearchBy course.now.setting.now.tables course.now.teller course.now.until book.old }
    requires some_open { 0 < length (open_paths book.old.history) }
    requires some_left { length book.old.history < book.old.limit }
    ensures further { IsFurther course.now.teller book.old book.new }
    ensures more { OnOk result (length book.new.history ≡ length book.old.history + 1) }
{
    let setting = course.setting;
    let tables = setting.tables;
    let node = first_open(course, book)?;
    let target = beyond(tables.timing, book.best());
    let look = look(
        setting.alloc,
        tables.timing,
        tables.conflicts,
        &node,
        target,
        book.kept(),
    )?;
    let splits = usize::from(is_split(&look));
    setting.supervisor.pass(course.teller);
    record(book, course.teller, Event { node, look })?;
    tell(course, book, 1, splits);
    Ok(())
}

// Settles an open node, as a look found it.
#[tactic(auto, using(crate::proofs::Further::stays, crate::proofs::Further::settled_one))]
fn record(book: &mut Book, teller: usize, event: Event) -> Result<(), NoMemory>
    requires teller { teller < book.old.tellers }
    requires some_left { length book.old.history < book.old.limit }
    requires node_open { Contains (open_paths book.old.history) event.node }
    requires proof { HasProof book.old.network event.node (outcome_of event.look) }
    requires undecided { SplitsUndecided book.old.network event.node (outcome_of event.look) }
    requires met { IsMet book.old.network book.old.history event.node (outcome_of event.look) }
    ensures further { IsFurther teller book.old book.new }
    ensures more { OnOk result (length book.new.history ≡ length book.old.history + 1) }
{
    match book.settle(teller, event) {
        Ok(()) => Ok(()),
        Err(refusal) => {
            let EventRefusal { fault, event } = refusal;
            drop(event);
            match fault {
                BookFault::Memory => Err(NoMemory),
                _ => unreachable!(),
            }
        }
    }
}

//! A book of splits: the nodes of a tree in which the first conflicts are decided in order, a level after another.
ghost use Rattle.std.specs.Prelude.{◌≡◌, ◌≤◌, ◌<◌, ◌+◌, IfSome, IsTrue};
ghost use Rattle.tsn_conflict.specs.Path.{IsUndecided};

use std::alloc::{AllocError, Global};
use std::io;
use std::rt::Clock;
use std::time::Instant;
use tsn_book::{Book, Event};
use tsn_conflict::outcome::Look;
use tsn_conflict::sharing::Conflicts;
use tsn_conflict::{Decision, NoMemory, Node, Side, Triple, conflicts};
use tsn_net::read_problem;
use tsn_timing::Timing;

// How many events are made before they are settled.
const BATCH: usize = 1000;

// The most events.
const MOST: usize = 10_000_000;

// How often the first open node is asked for.
const ASKED: usize = 100_000;

/// Settles so many splits of a network's search, and then asks for the first open node again and again.
pub fn measure<R: Clock + Print + Eprint + AllocGlobal>(
    rt: &R,
    network: &[u8],
    events: usize,
) -> io::Result<bool> {
    let Some((shared, mut book)) = begun(rt.alloc(), network, events) else {
        return Ok(false);
    };
    let told = tell(rt, &mut book, shared.triples(), events.min(MOST));
    drop(book);
    drop(shared);
    told
}

// Measures both on a book, and tells what was found.
fn tell<R: Clock + Print + Eprint + AllocGlobal>(
    rt: &R,
    book: &mut Book,
    triples: &[Triple],
    events: usize,
) -> io::Result<bool>
    requires one { 0 < book.old.tellers }
    requires few { events ≤ MOST }
{
    let settling = settle_all(rt, book, triples, events)?;
    let asking = ask(rt, book)?;
    println!(rt; "book {} events {} open", book.count(), book.open_count())?;
    eprintln!(rt; "{settling} {asking}")?;
    Ok(true)
}

// The conflicts of the network, and a book of its search, in which nothing is settled.
fn begun(alloc: Global, network: &[u8], events: usize) -> Option<(Conflicts, Book)>
    ensures { IfSome result (λ begun. 0 < begun.1.tellers) }
{
    let timing = timing_of(alloc, network)?;
    let begun = begun_at(alloc, &timing, events);
    drop(timing);
    begun
}

fn timing_of(alloc: Global, network: &[u8]) -> Option<Timing> {
    let problem = read_problem(alloc, network).ok()?;
    let timing = problem.timing().copy(alloc).ok();
    drop(problem);
    timing
}

fn begun_at(alloc: Global, timing: &Timing, events: usize) -> Option<(Conflicts, Book)>
    ensures { IfSome result (λ begun. 0 < begun.1.tellers) }
{
    if timing.streams() > 128 {
        return None;
    }
    let shared = conflicts(alloc, timing).ok()?;
    let book = Book::new(alloc, timing, 1, events).ok()?;
    Some((shared, book))
}

// Asks for the first open node again and again, and says how many nanoseconds it took.
fn ask<R: Clock + AllocGlobal>(rt: &R, book: &Book) -> io::Result<u128> {
    let begin = Instant::now(rt)?;
    for _ in 0..ASKED {
        let _ = book.first_open(rt.alloc());
    }
    Ok(begin.elapsed(rt)?.as_nanos())
}

// Settles so many splits, and says how many nanoseconds it took without making them.
fn settle_all<R: Clock + AllocGlobal>(
    rt: &R,
    book: &mut Book,
    triples: &[Triple],
    events: usize,
) -> io::Result<u128>
    requires one { 0 < book.old.tellers }
    requires few { events ≤ MOST }
    ensures tellers { book.new.tellers ≡ book.old.tellers }
{
    let mut taken: u128 = 0;
    for batch in 0..events.div_ceil(BATCH) {
        taken = taken.saturating_add(settle(rt, book, triples, batch * BATCH + 1)?);
    }
    Ok(taken)
}

// Settles a batch of splits, from that number on, and says how many nanoseconds it took without making them.
fn settle<R: Clock + AllocGlobal>(
    rt: &R,
    book: &mut Book,
    triples: &[Triple],
    first: usize,
) -> io::Result<u128>
    requires one { 0 < book.old.tellers }
    requires some { 1 ≤ first }
    requires few { first ≤ MOST + 1 }
    ensures tellers { book.new.tellers ≡ book.old.tellers }
{
    let batch = nodes(rt.alloc(), triples, first)?;
    let begin = Instant::now(rt)?;
    for (node, triple) in batch {
        let look = Look::Split(triple);
        let _ = book.settle(0, Event { node, look });
    }
    Ok(begin.elapsed(rt)?.as_nanos())
}

// The nodes of a batch from that number on, each with the triple to split it on.
fn nodes(alloc: Global, triples: &[Triple], first: usize) -> Result<Vec<(Node, Triple)>, AllocError>
    requires some { 1 ≤ first }
    requires few { first ≤ MOST + 1 }
{
    let mut batch = Vec::with_capacity(alloc, BATCH)?;
    for step in 0..BATCH {
        if let Ok(Some(node)) = node_at(alloc, triples, first + step) {
            batch.push(node)?;
        }
    }
    Ok(batch)
}

// The node of this number, with the triple to split it on: the root has number 1, and node n the children 2n and 2n + 1.
fn node_at(
    alloc: Global,
    triples: &[Triple],
    number: usize,
) -> Result<Option<(Node, Triple)>, NoMemory>
    requires { 1 ≤ number }
{
    let sides = sides_of(alloc, number)?;
    let Some(last) = triples.get(sides.len()) else {
        return Ok(None);
    };
    let mut node = Node::root(alloc);
    for (triple, side) in triples.iter().zip(sides.iter().rev()) {
        if !turn(&mut node, *triple, *side)? {
            return Ok(None);
        }
    }
    Ok(Some((node, *last)))
}

// The sides on the way to the node of this number, the last one first.
fn sides_of(alloc: Global, number: usize) -> Result<Vec<Side>, AllocError>
    requires { 1 ≤ number }
{
    let mut sides = Vec::new(alloc);
    let mut rest = number;
    for _ in 0..number.ilog2() {
        sides.push(side_of(rest))?;
        rest /= 2;
    }
    Ok(sides)
}

// The side on which the node of this number stands.
fn side_of(number: usize) -> Side {
    if number % 2 == 0 {
        Side::Left
    } else {
        Side::Right
    }
}

// Goes on to a side of the triple, where the path doesn't decide it.
fn turn(node: &mut Node, triple: Triple, side: Side) -> Result<bool, NoMemory> {
    if !is_undecided(node.path(), triple) {
        return Ok(false);
    }
    node.push(triple, side)?;
    Ok(true)
}

// Whether the path decides something else than the triple.
fn is_undecided(path: &[Decision], triple: Triple) -> bool
    ensures { IsTrue result → IsUndecided path.now triple }
{
    path.iter().all(|decision| decision.triple != triple)
}

//! Settles the root and both children in a book.
ghost use Rattle.std.specs.Prelude.{◌≡◌, ◌<◌, IfOk, IfSome};
ghost use Rattle.tsn_conflict.specs.Kept.{AreConflictsOf};
ghost use Rattle.tsn_conflict.specs.Right.{HasProof};
ghost use Rattle.tsn_conflict.specs.Outcome.{outcome_of};

use crate::looks::event_at;
use crate::search::{LIMIT, TELLERS, child};
use crate::told::{NO_MEMORY, tell, tell_settled};
use std::alloc::Global;
use tsn_book::{Book, BookFault, Event, EventRefusal};
use tsn_conflict::sharing::Conflicts;
use tsn_conflict::{Node, Side, Triple};
use tsn_model::NoMemory;
use tsn_timing::Timing;

pub fn call<R: Print + AllocGlobal>(
    rt: &R,
    timing: &Timing,
    shared: &Conflicts,
    triple: Triple,
) -> Result<(), NoMemory>
    requires { AreConflictsOf timing.now shared.now }
{
    let mut book = book_of(rt.alloc(), timing)?;
    let answer = settle_and_tell(rt, timing, shared, &mut book, triple);
    drop(book);
    answer
}

fn book_of(alloc: Global, timing: &Timing) -> Result<Book, NoMemory>
    ensures network { IfOk result (λ book. book.network ≡ timing.now) }
    ensures tellers { IfOk result (λ book. 0 < book.tellers) }
{
    Book::new(alloc, timing, TELLERS, LIMIT)
}

fn settle_and_tell<R: Print + AllocGlobal>(
    rt: &R,
    timing: &Timing,
    shared: &Conflicts,
    book: &mut Book,
    triple: Triple,
) -> Result<(), NoMemory>
    requires conflicts { AreConflictsOf timing.now shared.now }
    requires network { book.old.network ≡ timing.now }
    requires tellers { 0 < book.old.tellers }
{
    settle_all(rt, timing, shared, book, triple)?;
    tell_settled(rt, book.count(), book.open_count());
    Ok(())
}

fn settle_all<R: Print + AllocGlobal>(
    rt: &R,
    timing: &Timing,
    shared: &Conflicts,
    book: &mut Book,
    triple: Triple,
) -> Result<(), NoMemory>
    requires conflicts { AreConflictsOf timing.now shared.now }
    requires network { book.old.network ≡ timing.now }
    requires tellers { 0 < book.old.tellers }
{
    settle_at(rt, timing, shared, book, Node::root(rt.alloc()))?;
    settle_at(
        rt,
        timing,
        shared,
        book,
        child(rt.alloc(), triple, Side::Left)?,
    )?;
    settle_at(
        rt,
        timing,
        shared,
        book,
        child(rt.alloc(), triple, Side::Right)?,
    )
}

// Settles what a look finds at a node.
fn settle_at<R: Print + AllocGlobal>(
    rt: &R,
    timing: &Timing,
    shared: &Conflicts,
    book: &mut Book,
    node: Node,
) -> Result<(), NoMemory>
    requires conflicts { AreConflictsOf timing.now shared.now }
    requires network { book.old.network ≡ timing.now }
    requires tellers { 0 < book.old.tellers }
    ensures network { book.new.network ≡ timing.now }
    ensures tellers { 0 < book.new.tellers }
{
    match event_at(rt.alloc(), timing, shared, node)? {
        Some(event) => settle(rt, book, event),
        None => Ok(()),
    }
}

fn settle<R: Print>(rt: &R, book: &mut Book, event: Event) -> Result<(), NoMemory>
    requires proof { HasProof book.old.network event.node (outcome_of event.look) }
    requires tellers { 0 < book.old.tellers }
    ensures network { book.new.network ≡ book.old.network }
    ensures tellers { book.new.tellers ≡ book.old.tellers }
{
    match settle_once(book, event) {
        None => Ok(()),
        Some(event) => {
            tell(rt, "settle", NO_MEMORY);
            settle_again(book, event)
        }
    }
}

fn settle_again(book: &mut Book, event: Event) -> Result<(), NoMemory>
    requires proof { HasProof book.old.network event.node (outcome_of event.look) }
    requires tellers { 0 < book.old.tellers }
    ensures network { book.new.network ≡ book.old.network }
    ensures tellers { book.new.tellers ≡ book.old.tellers }
{
    match settle_once(book, event) {
        None => Ok(()),
        Some(event) => {
            drop(event);
            Err(NoMemory)
        }
    }
}

// Settles an event, and gives it back where there was no memory.
fn settle_once(book: &mut Book, event: Event) -> Option<Event>
    requires proof { HasProof book.old.network event.node (outcome_of event.look) }
    requires tellers { 0 < book.old.tellers }
    ensures same { IfSome result (λ refused. refused ≡ event) }
    ensures network { book.new.network ≡ book.old.network }
    ensures tellers { book.new.tellers ≡ book.old.tellers }
{
    match book.settle(0, event) {
        Ok(()) => None,
        Err(refusal) => {
            let EventRefusal { fault, event } = refusal;
            match fault {
                BookFault::Memory => Some(event),
                _ => {
                    drop(event);
                    None
                }
            }
        }
    }
}

//! What a search leaves.
ghost use Rattle.std.specs.Prelude.{◌≡◌, ◌≤◌, ◌⊎◌, [], length, IfOk};
ghost use Rattle.tsn_model.specs.Network.{IsWellFormed};
ghost use Rattle.tsn_model.specs.Search.{open_paths, kept_of};
ghost use Rattle.tsn_cert.specs.declared.plan.Plan.TheVariants.{Schedule};
ghost use Rattle.tsn_answer.specs.Known.{IsKnown};
ghost use Rattle.tsn_answer.specs.Answer.{IsFound, HasNoArgument, IsLeft, KeepsKnown, plan_kept};

use crate::known::Known;
use std::alloc::Global;
use tsn_book::Book;
use tsn_cert::{Argument, Offsets, Plan};
use tsn_model::NoMemory;
use tsn_timing::{Solved, Timing};

/// What a search leaves.
#[derive(Drop)]
pub enum Found {
    /// No node is open.
    Finished(Book),
    /// The plan, and an argument that shows it.
    Argued(Plan, Argument),
    /// The limit was met while a node was open; and what is known then.
    Stopped(Book, Known),
    /// The conflict-driven search gave up, which is the only one where there are more than 128 streams; what is known then, and after
    /// how many conflicts.
    GaveUp(Known, usize),
}

impl Found {
    /// What is found in the book of a search that left nothing open, or met its limit, where this was known before. The error says
    /// that there was no memory.
    pub fn of(timing: &Timing, known: Known, limit: usize, book: Book) -> Result<Found, NoMemory>
        requires formed { IsWellFormed timing.now }
        requires network { book.network ≡ timing.now }
        requires limit { book.limit ≡ limit }
        requires done { (open_paths book.history ≡ []) ⊎ (limit ≤ length book.history) }
        requires known { IsKnown timing.now known }
        ensures found { IfOk result (IsFound timing.now limit) }
        ensures kept { IfOk result (KeepsKnown known) }
        ensures book { IfOk result HasNoArgument }
        ensures same_book { IfOk result (IsLeft book) }
    {
        if book.open_count() == 0 {
            drop(known);
            return Ok(Found::Finished(book));
        }
        match known.with_kept(&book) {
            Ok(known) => Ok(Found::Stopped(book, known)),
            Err(fault) => {
                drop(book);
                Err(fault)
            }
        }
    }
}

/// The plan of what a book has kept: its schedule, or else that there is none. The error says that there was no memory.
pub fn plan_of(alloc: Global, book: &Book) -> Result<Plan, NoMemory>
    ensures { IfOk result (λ plan. plan ≡ plan_kept book.now.network (kept_of book.now.network book.now.history)) }
{
    match book.kept() {
        Some(kept) => schedule_of(alloc, kept),
        None => Ok(Plan::None),
    }
}

fn schedule_of(alloc: Global, solved: &Solved) -> Result<Plan, NoMemory>
    ensures { IfOk result (λ plan. plan ≡ Schedule solved.now.flowspan solved.now.offsets) }
{
    Ok(Plan::Schedule {
        flowspan: solved.flowspan(),
        offsets: Offsets::of(Vec::from_slice(alloc, solved.valid().offsets())?),
    })
}

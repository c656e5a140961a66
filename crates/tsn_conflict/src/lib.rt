//! The links that two streams share, and what going first on one of them asks of the offsets; and nodes of the search, which decide such
//! conflicts and are known by their paths, with what a look at one finds.
#![tactic(auto)]

ghost use Rattle.std.specs.Prelude.{IfOk};
ghost use Rattle.tsn_model.specs.Network.{HasFewStreams};
ghost use Rattle.tsn_conflict.specs.Kept.{AreConflictsOf};

mod chains;
mod lags;
pub mod laws;
mod listing;
pub mod node;
mod numbers;
pub mod outcome;
mod pairs;
pub mod sharing;
mod uses;

use crate::listing::triples_of;
use crate::numbers::numbers_of;
use crate::pairs::pairs_of;
use crate::sharing::Conflicts;
use crate::uses::rows_of;
pub use chains::whole_chains;
pub use node::Node;
use std::alloc::Global;
pub use tsn_model::{Arc, Decision, NoMemory, Side, Triple};
use tsn_timing::Timing;

/// The conflicts of a network of at most 128 streams. The error says that there was no memory.
pub fn conflicts(alloc: Global, timing: &Timing) -> Result<Conflicts, NoMemory>
    requires { HasFewStreams timing.now }
    ensures { IfOk result (AreConflictsOf timing.now) }
{
    // The network is within its limits.
    let _limit = timing.cycle();
    let rows = rows_of(alloc, timing)?;
    let triples = triples_of(alloc, timing, &rows)?;
    let pairs = pairs_of(alloc, &rows, &triples)?;
    let numbers = numbers_of(alloc, &triples, timing.streams())?;
    let timing = timing.copy(alloc)?;
    Ok(Conflicts {
        timing,
        rows,
        triples,
        pairs,
        numbers,
    })
}

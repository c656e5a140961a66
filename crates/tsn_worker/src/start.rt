//! What the caller settles before the workers start.
ghost use Rattle.std.specs.Prelude.{◌≡◌};
ghost use Rattle.tsn_incumbent.specs.Teller.{IsEven};
ghost use Rattle.tsn_walk.specs.Search.{AreTablesOf};

use crate::batch::{Advance, settle_next};
use crate::context::Context;
use crate::settler::Settler;
use std::sync::Wait;
use tsn_branch::supervisor::Supervisor;
use tsn_conflict::NoMemory;
use tsn_incumbent::Named;
use tsn_walk::{Below, OpenNodes};

/// Settles nodes, each by itself: those on the way that a known schedule keeps to, where there is one, or else first open ones until
/// so many are open; then tells which are open. The error says that there was no memory to begin.
pub fn settle_first<K: Named, S: Supervisor>(
    rt: &impl Wait,
    context: &Context<'_, K, S>,
    known: Option<&[u64]>,
    enough: usize,
    caller: &mut Settler<K>,
) -> Result<OpenNodes, NoMemory>
    requires tables { AreTablesOf K.names.race.network context.now.setting.now.tables }
    requires even { IsEven caller.old.teller }
    ensures even { IsEven caller.new.teller }
    ensures number { caller.new.teller.standing.number ≡ caller.old.teller.standing.number }
{
    match known {
        Some(known) => dive(rt, context, known, caller),
        None => settle_until(rt, context, enough, caller),
    }
}

// Settles the nodes on the way that the schedule keeps to; the other sides are left open, the first of them first.
fn dive<K: Named, S: Supervisor>(
    rt: &impl Wait,
    context: &Context<'_, K, S>,
    known: &[u64],
    caller: &mut Settler<K>,
) -> Result<OpenNodes, NoMemory>
    requires tables { AreTablesOf K.names.race.network context.now.setting.now.tables }
    requires even { IsEven caller.old.teller }
    ensures even { IsEven caller.new.teller }
    ensures number { caller.new.teller.standing.number ≡ caller.old.teller.standing.number }
{
    let setting = context.setting;
    let tables = setting.tables;
    let mut below = Below::root(setting.alloc, tables.timing)?;
    let mut open_nodes = OpenNodes::none(setting.alloc);
    for _ in 0..u64::MAX {
        let depth = below.from.path().len();
        match settle_next(rt, context, caller, &mut below, 1) {
            Advance::GoesOn => {}
            Advance::Ends | Advance::Finished | Advance::LooksAgain => break,
        }
        if below.from.path().len() <= depth {
            break;
        }
        below.choose_side(setting.alloc, tables, known, &mut open_nodes)?;
    }
    drop(below);
    Ok(open_nodes)
}

// Settles first open nodes, each by itself, until so many are open, or none, or the book takes no more; then tells which are
// open. The error says that there was no memory to begin.
fn settle_until<K: Named, S: Supervisor>(
    rt: &impl Wait,
    context: &Context<'_, K, S>,
    enough: usize,
    caller: &mut Settler<K>,
) -> Result<OpenNodes, NoMemory>
    requires tables { AreTablesOf K.names.race.network context.now.setting.now.tables }
    requires even { IsEven caller.old.teller }
    ensures even { IsEven caller.new.teller }
    ensures number { caller.new.teller.standing.number ≡ caller.old.teller.standing.number }
{
    let setting = context.setting;
    let tables = setting.tables;
    let mut below = Below::root(setting.alloc, tables.timing)?;
    let mut open_nodes = OpenNodes::none(setting.alloc);
    for _ in 0..u64::MAX {
        if below.has_open(enough) {
            break;
        }
        match settle_next(rt, context, caller, &mut below, 1) {
            Advance::GoesOn => {}
            Advance::Ends => break,
            Advance::Finished | Advance::LooksAgain => {
                drop(below);
                return Ok(open_nodes);
            }
        }
    }
    below.leave(&mut open_nodes);
    Ok(open_nodes)
}

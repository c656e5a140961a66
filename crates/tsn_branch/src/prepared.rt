//! What a search reads.
ghost use Rattle.std.specs.Prelude.{◌≡◌, IfOk};
ghost use Rattle.std.proofs.Props.{props};
ghost use Rattle.tsn_model.specs.Network.{HasFewStreams};
ghost use Rattle.tsn_conflict.specs.Kept.{AreConflictsOf};
ghost use Rattle.tsn_branch.specs.Loads.{AreLoadsOf};
ghost use Rattle.tsn_branch.specs.Rates.{rate-prop};

use crate::loads::Loads;
use crate::setting::Setting;
use crate::tables::Tables;
use std::alloc::Global;
use tsn_conflict::sharing::Conflicts;
use tsn_conflict::{NoMemory, conflicts};
use tsn_timing::{Problem, Timing};

/// The times of a problem, its conflicts and the loads of its links.
#[derive(Drop)]
pub struct Prepared<'a> {
    pub timing: &'a Timing,
    pub conflicts: Conflicts,
    pub loads: Loads,
    pub ghost right_conflicts: { AreConflictsOf timing.now conflicts } by { Prim.hlevel (props, rate-prop) },
    pub ghost right_loads: { AreLoadsOf timing.now loads },
}

impl<'p> Prepared<'p> {
    /// Those of a problem of at most 128 streams. The error says that there was no memory.
    //
    // Here and below a large value is dropped by a call, since the parts of one that goes out of scope are dropped in place, and
    // each proved at each such place.
    pub fn of(alloc: Global, problem: &'p Problem) -> Result<Prepared<'p>, NoMemory>
        requires { HasFewStreams problem.now.network }
        ensures timing { IfOk result (λ prepared. prepared.timing.now ≡ problem.now.network) }
        ensures conflicts { IfOk result (λ prepared. AreConflictsOf prepared.timing.now prepared.conflicts) }
        ensures loads { IfOk result (λ prepared. AreLoadsOf prepared.timing.now prepared.loads) }
    {
        let timing = problem.timing();
        let conflicts = conflicts(alloc, timing)?;
        match Loads::of(alloc, timing) {
            Ok(loads) => Ok(Prepared {
                timing,
                conflicts,
                loads,
            }),
            Err(fault) => {
                drop(conflicts);
                Err(fault)
            }
        }
    }

    /// What a search is given that reads it.
    pub fn setting<'a, S>(&'a self, alloc: Global, supervisor: &'a S) -> Setting<'a, S>
        ensures timing { result.tables.timing.now ≡ self.now.timing.now }
        ensures conflicts { result.tables.conflicts.now ≡ self.now.conflicts }
        ensures loads { result.tables.loads.now ≡ self.now.loads }
    {
        let tables = Tables {
            timing: self.timing,
            conflicts: &self.conflicts,
            loads: &self.loads,
        };
        Setting {
            alloc,
            tables,
            supervisor,
        }
    }
}

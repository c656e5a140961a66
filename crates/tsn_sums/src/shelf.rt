//! Works and the table that tells of them, made once for many.
ghost use Rattle.std.specs.Prelude.{◌≡◌, ℕ, ◌≤◌, ◌<◌, ◌*◌, ◌/◌, ◌^◌, [], IfOk};
ghost use Rattle.tsn_model.specs.Argument.{staged};
ghost use Rattle.tsn_sums.specs.Sums.{key_of, work_of, IsUnit, AreLow, TellsFilled, Covers};

use crate::rows::Rows;
use crate::table::{MOST_UNITS, Table};
use std::alloc::{AllocError, Global};

/// Rows, and what their works fill.
#[derive(Drop)]
pub struct Shelf {
    pub rows: Rows,
    pub table: Table,
}

impl Shelf {
    /// No rows.
    pub fn none(alloc: Global) -> Result<Shelf, AllocError> {
        Ok(Shelf {
            rows: Rows::none(alloc)?,
            table: Table::none(alloc)?,
        })
    }

    /// Puts the rows in stages, and tells what their works fill of rooms of up to so many nanoseconds; how many units these have.
    pub fn tell(&mut self, unit: u64, idle: u64, most: u64) -> usize
        requires unit { IsUnit unit self.old.rows }
        requires low { AreLow self.old.rows }
        requires short { unit < 2 ^ 32 }
        requires most { most < 2 ^ 40 }
        ensures rows { self.new.rows ≡ staged key_of work_of idle most self.old.rows }
        ensures unit { IsUnit unit self.new.rows }
        ensures few { result ≤ 4_096 }
        ensures tells { TellsFilled self.new.rows unit result self.new.table }
        ensures covers { Covers unit result most }
    {
        self.rows.stage(idle, most);
        let units = units_of(unit, most);
        self.table.tell(self.rows.list(), unit, units);
        units
    }
}

// How many units the rooms have of which a table tells.
fn units_of(unit: u64, most: u64) -> usize
    requires { 0 < unit }
    ensures few { result ≤ 4_096 }
    ensures covers { Covers unit result most }
{
    let units = most / unit;
    units.min(MOST_UNITS) as usize
}

//! What some works fill of each room, in units.
ghost use Rattle.std.specs.Prelude.{◌≡◌, ℕ, ◌≤◌, ◌<◌, ◌+◌, ◌*◌, ◌/◌, ◌^◌, length, slice_index_or, cond, true, false, IfOk, All};
ghost use Rattle.tsn_model.specs.Argument.{wasted};
ghost use Rattle.tsn_sums.specs.Sums.{marked, most_marked, IsUnit, AreSmall, TellsReached, TellsFilled};

use std::alloc::{AllocError, Global};
use std::marker::Model;

/// How many units a room has at most of which a table tells.
pub const MOST_UNITS: u64 = 4_096;

/// The most that works fill of rooms of so many units, in nanoseconds. It is made once, and told again of other works.
#[derive(Drop)]
pub struct Table {
    reached: Vec<bool>,
    filled: Vec<u64>,
}

impl Model for Table {
    ghost use Rattle.std.specs.Prelude.{◌≡◌, ℕ, List, length};

    ghost Value = { List ℕ };

    ghost view = { λ table. table.filled.items };

    ghost invariant = { λ table. (length table.reached.items ≡ 4_097) × (length table.filled.items ≡ 4_097) };
}

impl Table {
    /// A table of no works.
    pub fn none(alloc: Global) -> Result<Table, AllocError> {
        let reached = vec![in alloc; false; 4_097]?;
        let filled = vec![in alloc; 0; 4_097]?;
        Ok(Table { reached, filled })
    }

    /// Tells what works fill of rooms of up to so many units.
    pub fn tell(&mut self, works: &[(u64, u64)], unit: u64, units: usize)
        requires unit { IsUnit unit works.now }
        requires small { AreSmall works.now }
        requires short { unit < 2 ^ 32 }
        requires few { units ≤ 4_096 }
        ensures { TellsFilled works.now unit units self.new }
    {
        reach_all(self.reached.as_mut_slice(), works, unit, units);
        fill(
            self.reached.as_slice(),
            self.filled.as_mut_slice(),
            unit,
            units,
        );
    }

    /// What works waste of a room.
    pub fn wasted(&self, works: &[(u64, u64)], unit: u64, units: usize, room: u64) -> u64
        requires unit { IsUnit unit works.now }
        requires short { unit < 2 ^ 32 }
        requires tells { TellsFilled works.now unit units self.now }
        requires few { units ≤ 4_096 }
        requires within { room ≤ 4_096 * unit → room / unit ≤ units }
        ensures { result ≡ wasted unit works.now room }
    {
        if room <= MOST_UNITS * unit {
            room - self.filled[(room / unit) as usize]
        } else {
            0
        }
    }
}

// Without works nothing is reached but 0.
fn clear(reached: &mut [bool])
    requires { 0 < length reached.old }
    ensures length { length reached.new ≡ length reached.old }
    ensures first { slice_index_or reached.new 0 false ≡ true }
    ensures others { (k : ℕ) → 0 < k → slice_index_or reached.new k false ≡ false }
{
    reached[0] = true;
    for place in 1..reached.len() {
        reached[place] = false;
    }
}

// Marks what is reached with one more work, of so many units, that asks for so much.
fn mark(reached: &mut [bool], need: u64, back: usize, unit: u64, units: usize)
    requires some { 0 < back }
    requires fits { (k : ℕ) → need ≤ k * unit → back ≤ k }
    requires short { unit < 2 ^ 32 }
    requires few { units < length reached.old }
    requires most { units ≤ 4_096 }
    ensures length { length reached.new ≡ length reached.old }
    ensures marked { (k : ℕ) → k ≤ units → slice_index_or reached.new k false ≡ marked reached.old need back unit k }
    ensures past { (k : ℕ) → units < k → slice_index_or reached.new k false ≡ slice_index_or reached.old k false }
{
    for step in 0..units + 1 {
        let place = units - step;
        if need > place as u64 * unit {
            return;
        }
        if !reached[place] {
            reached[place] = reached[place - back];
        }
    }
}

// Marks all that works reach.
fn reach_all(reached: &mut [bool], works: &[(u64, u64)], unit: u64, units: usize)
    requires unit { IsUnit unit works.now }
    requires small { AreSmall works.now }
    requires short { unit < 2 ^ 32 }
    requires few { units < length reached.old }
    requires most { units ≤ 4_096 }
    ensures length { length reached.new ≡ length reached.old }
    ensures tells { TellsReached works.now unit units reached.new }
{
    clear(reached);
    // Past this place nothing is reached.
    let mut most = 0;
    for step in 0..works.len() {
        let (least, work) = works[works.len() - (step + 1)];
        let back = (work / unit) as usize;
        most = back.saturating_add(most).min(units);
        mark(reached, least + work, back, unit, most);
    }
}

// The most that is reached up to a place, by what is reached up to the one before it.
fn most_at(reached: &[bool], place: usize, unit: u64, most: u64) -> u64
    requires there { place < length reached.now }
    requires short { unit < 2 ^ 32 }
    requires few { place ≤ 4_096 }
    ensures { result ≡ cond (slice_index_or reached.now place false) (place * unit) most }
{
    if reached[place] {
        place as u64 * unit
    } else {
        most
    }
}

// Fills in the most that is reached up to each place.
fn fill(reached: &[bool], filled: &mut [u64], unit: u64, units: usize)
    requires marks { units < length reached.now }
    requires places { units < length filled.old }
    requires short { unit < 2 ^ 32 }
    requires most { units ≤ 4_096 }
    ensures length { length filled.new ≡ length filled.old }
    ensures most { (k : ℕ) → k ≤ units → slice_index_or filled.new k 0 ≡ most_marked reached.now unit k }
{
    let mut most = 0;
    for place in 0..units + 1 {
        most = most_at(reached, place, unit, most);
        filled[place] = most;
    }
}

//! The gate control list of a link.
ghost use Rattle.std.specs.Prelude.{◌≡◌, ◌++◌, ◌≤◌, ◌<◌, ◌↔◌, IsTrue, OnOk, length, string_bytes, IfOk, IfErr};
ghost use Rattle.tsn_model.specs.Network.{link_at};
ghost use Rattle.tsn_model.specs.Gates.{cycle_of, IsOctetAt};
ghost use Rattle.tsn_gate.specs.Entries.{AllLast, IsGateList};
ghost use Rattle.tsn_gate.specs.Fault.{HasGateFault};
ghost use Rattle.tsn_gate.specs.Table.{entry_text, head_text, table_text, name_at};

use crate::fault::GateFault;
use std::alloc::{AllocError, Global};
use std::fmt::Write;
use std::marker::Model;
use tsn_model::{GateEntry, NoMemory};
use tsn_timing::Problem;

// The longest cycle, in nanoseconds.
const LONGEST_CYCLE: u64 = 1_000_000_000;

/// The gate control list of a directed link: its entries, in order, which repeat after the last one's end. There is some
/// entry, each lasts at least 1 ns, and all together at most 1,000,000,000 ns.
#[derive(Drop)]
pub struct GateList {
    link: usize,
    entries: Vec<GateEntry>,
}

impl Model for GateList {
    ghost use Rattle.tsn_model.specs.Bridge.{LinkGates};

    ghost Value = { LinkGates };

    ghost view = { λ list. record { link = list.link; entries = list.entries.items } };

    ghost use Rattle.tsn_gate.specs.Entries.{IsGateList};

    ghost invariant = { λ list. IsGateList list.entries.items };
}

impl GateList {
    /// A list of others' entries, which stay as they are handed in.
    ///
    /// # Errors
    ///
    /// `Empty` where there is no entry or one lasts 0 ns; else `TooLong` where they last longer than 1,000,000,000 ns;
    /// else `Memory` where there is no memory for them.
    pub fn new(alloc: Global, link: usize, entries: &[GateEntry]) -> Result<GateList, GateFault>
        ensures list { IfOk result (λ list. list ≡ record { link = link; entries = entries.now }) }
        ensures taken { IfOk result (λ list. IsGateList entries.now) }
        ensures fault { IfErr result (HasGateFault entries.now) }
    {
        if entries.is_empty() || !all_last(entries, 1) {
            return Err(GateFault::Empty);
        }
        if !is_short(entries) {
            return Err(GateFault::TooLong);
        }
        let entries = Vec::from_slice(alloc, entries)?;
        Ok(GateList { link, entries })
    }

    /// The list of these entries.
    pub(crate) fn of(link: usize, entries: Vec<GateEntry>) -> GateList
        requires { IsGateList entries.items }
        ensures { result ≡ record { link = link; entries = entries.items } }
    {
        GateList { link, entries }
    }

    /// The directed link whose gates it is about.
    pub fn link(&self) -> usize
        ensures { result ≡ self.now.link }
    {
        self.link
    }

    /// The entries, in order.
    pub fn entries(&self) -> &[GateEntry]
        ensures entries { result.now ≡ self.now.entries }
        ensures list { IsGateList self.now.entries }
    {
        &self.entries
    }

    /// How long the list lasts before it repeats, in nanoseconds.
    pub fn cycle(&self) -> u64
        ensures value { result ≡ cycle_of self.now.entries }
        ensures some { 1 ≤ result }
        ensures short { result ≤ 1_000_000_000 }
    {
        total(&self.entries)
    }

    /// The gates at instant `t` (nanoseconds), in any cycle: bit i is 1 where that of traffic class i is open.
    pub fn state_at(&self, t: u64) -> u8
        ensures { IsOctetAt self.now.entries t result }
    {
        let mut left = t % self.cycle();
        for entry in &self.entries {
            if left < entry.interval {
                return entry.octet;
            }
            left -= entry.interval;
        }
        unreachable!()
    }

    /// The names of the nodes that the link joins: of the one that sends, and of the one that receives.
    pub fn names<'a>(&self, problem: &'a Problem) -> (&'a str, &'a str)
        requires { self.now.link < length problem.now.network.links }
        ensures from { result.0.now ≡ name_at problem.now (link_at problem.now.network self.now.link).from }
        ensures to { result.1.now ≡ name_at problem.now (link_at problem.now.network self.now.link).to }
    {
        names(problem, self.link)
    }

    /// The list as a table: a line with the link, the names of the nodes that it joins and the number of entries, then a
    /// line for each entry.
    pub fn to_text(&self, alloc: Global, problem: &Problem) -> Result<String, NoMemory>
        requires { self.now.link < length problem.now.network.links }
        ensures { IfOk result (λ text. string_bytes text ≡ table_text problem.now self.now) }
    {
        let (from, to) = names(problem, self.link);
        let mut text = head(alloc, self.link, from, to, self.entries.len())?;
        for entry in &self.entries {
            write_entry(&mut text, *entry)?;
        }
        Ok(text)
    }
}

/// The names of the nodes that a link joins: of the one that sends, and of the one that receives.
pub fn names(problem: &Problem, link: usize) -> (&str, &str)
    requires { link < length problem.now.network.links }
    ensures from { result.0.now ≡ name_at problem.now (link_at problem.now.network link).from }
    ensures to { result.1.now ≡ name_at problem.now (link_at problem.now.network link).to }
{
    // The network is within its limits, and each node has a name.
    let _limits = problem.cycle();
    let _nodes = problem.nodes();
    let joined = problem.link(link);
    let from = problem.node_name(joined.from);
    let to = problem.node_name(joined.to);
    (from, to)
}

// The first line of a list's table.
#[tactic(auto, unfolding(crate::specs::Table::head_text))]
fn head(
    alloc: Global,
    link: usize,
    from: &str,
    to: &str,
    count: usize,
) -> Result<String, AllocError>
    ensures { IfOk result (λ text. string_bytes text ≡ head_text link from.now to.now count) }
{
    format!(in alloc; "link {link} {from} {to} {count}\n")
}

#[tactic(auto, using(std::proofs::lemmas::Fmt::hex_byte), unfolding(crate::specs::Table::entry_text))]
fn write_entry(text: &mut String, entry: GateEntry) -> Result<(), AllocError>
    ensures { OnOk result (string_bytes text.new ≡ string_bytes text.old ++ entry_text entry) }
{
    let octet = entry.octet;
    let interval = entry.interval;
    write!(text, "{octet:02X} {interval}\n")
}

// How long the entries last.
fn total(entries: &[GateEntry]) -> u64
    requires { cycle_of entries.now ≤ LONGEST_CYCLE }
    ensures { result ≡ cycle_of entries.now }
{
    let mut time = 0;
    for entry in entries {
        time += entry.interval;
    }
    time
}

/// Whether each entry lasts so long.
pub(crate) fn all_last(entries: &[GateEntry], least: u64) -> bool
    ensures { IsTrue result ↔ AllLast least entries.now }
{
    for entry in entries {
        if entry.interval < least {
            return false;
        }
    }
    true
}

// Whether the entries last no longer than the longest cycle.
fn is_short(entries: &[GateEntry]) -> bool
    ensures { IsTrue result ↔ (cycle_of entries.now ≤ LONGEST_CYCLE) }
{
    let mut left = LONGEST_CYCLE;
    for entry in entries {
        if left < entry.interval {
            return false;
        }
        left -= entry.interval;
    }
    true
}

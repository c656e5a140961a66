//! The links that several streams share, and how busy they are by a list of offsets.
ghost use Rattle.std.specs.Prelude.{◌≡◌, ◌≤◌, ◌<◌, ◌+◌, ◌*◌, ◌+ℤ◌, ◌≤ℤ◌, ℕ, pos, List, [], ◌∷◌, ◌++◌, map, length, All, Some, IsTrue, ◌↔◌, IfOk, OnOk, MatchOption};
ghost use Rattle.tsn_model.specs.Network.{Network, stream_count};
ghost use Rattle.tsn_model.specs.Timing.{hop_on};
ghost use Rattle.tsn_branch.specs.Links.{shared_links, IsUnloaded};
ghost use Rattle.tsn_branch.specs.Loads.{AreLoadsOf, IsFirstLoad, IsLoading, Reaches, IsCalm, IsEarly, head_in, link_in, link_with, shared_link, users_upto, shared_upto};

use std::alloc::{AllocError, Global};
use std::marker::Model;
use tsn_model::NoMemory;
use tsn_model::bounds::{MAX_OCCUPANCY, MAX_SPAN, MAX_START, MAX_WORK};
use tsn_timing::Timing;

/// A stream on a link, and when its first frame starts there, in nanoseconds from its offset.
#[derive(Clone, Copy)]
pub struct User {
    pub stream: usize,
    pub start: u64,
}

/// A link that several streams use, with what doesn't depend on their offsets, in nanoseconds.
#[derive(Drop)]
pub struct LinkTable {
    pub link: usize,
    /// The streams, in order.
    pub users: Vec<User>,
    /// How long the streams' first frames keep the link, one after another.
    pub work: u64,
    /// How long after its first frame has kept the link one of the streams arrives at the soonest; below 0 where it keeps it
    /// past its arrival.
    pub tail: i64,
}

/// The links that two or more streams use, as far as they don't depend on offsets.
#[derive(Drop)]
pub struct Loads {
    tables: Vec<LinkTable>,
}

impl Model for Loads {
    ghost use Rattle.std.specs.Prelude.{List, map};
    ghost use Rattle.tsn_branch.specs.Loads.{SharedLink, link_in};

    ghost Value = { List SharedLink };

    ghost view = { λ loads. map link_in loads.tables.items };
}

/// The first link that is loaded, by its index among those that are shared.
#[derive(Clone, Copy)]
pub enum FirstLoad {
    /// Its streams are busy on it behind the cycle.
    Overload(usize),
    /// Its streams are busy on it for so long that no flowspan is below the bound, in nanoseconds.
    Load(usize, u64),
}

/// How the links are loaded at a node.
#[derive(Clone, Copy)]
pub enum Loading {
    /// Some are for the target, this one first.
    Closed(FirstLoad),
    /// None is for the target; this one is the first for the limit, if one is.
    Open(Option<FirstLoad>),
}

impl Loads {
    /// The shared links of a network. The error says that there was no memory.
    pub fn of(alloc: Global, timing: &Timing) -> Result<Loads, NoMemory>
        ensures { IfOk result (AreLoadsOf timing.now) }
    {
        let mut tables = Vec::new(alloc);
        for link in 0..timing.links() {
            push_shared(alloc, &mut tables, timing, link)?;
        }
        Ok(Loads { tables })
    }

    /// The tables of the shared links, in order.
    pub(crate) fn tables(&self) -> &[LinkTable]
        ensures { map link_in result.now ≡ self.now }
    {
        &self.tables
    }
}

// Adds the table of the next link if it is shared.
fn push_shared(
    alloc: Global,
    tables: &mut Vec<LinkTable>,
    timing: &Timing,
    link: usize,
) -> Result<(), AllocError>
    requires link { link < length timing.now.links }
    requires upto { map link_in tables.old.items ≡ map (shared_link timing.now) (shared_upto timing.now link) }
    ensures { OnOk result (map link_in tables.new.items ≡ map (shared_link timing.now) (shared_upto timing.now (link + 1))) }
{
    let table = table_of(alloc, timing, link)?;
    if table.users.len() < 2 {
        return Ok(());
    }
    Ok(tables.push(table)?)
}

// The table of a link that any number of streams use.
fn table_of(alloc: Global, timing: &Timing, link: usize) -> Result<LinkTable, AllocError>
    requires { link < length timing.now.links }
    ensures { IfOk result (λ table. link_in table ≡ shared_link timing.now link) }
{
    let mut table = LinkTable::none(alloc, link);
    for stream in 0..timing.streams() {
        table.take(timing, stream)?;
    }
    Ok(table)
}

impl LinkTable {
    /// A link with none of its streams.
    pub fn none(alloc: Global, link: usize) -> LinkTable
        ensures link { result.link ≡ link }
        ensures none { (network : Network) → link_in result ≡ link_with network link [] }
        ensures work { result.work ≡ 0 }
    {
        LinkTable {
            link,
            users: Vec::new(alloc),
            work: 0,
            tail: 0,
        }
    }

    // Takes the next stream in, if it uses the link.
    fn take(&mut self, timing: &Timing, stream: usize) -> Result<(), AllocError>
        requires stream { stream < stream_count timing.now }
        requires few { stream < 2048 }
        requires upto { link_in self.old ≡ link_with timing.now self.old.link (users_upto timing.now self.old.link stream) }
        requires short { self.old.work ≤ MAX_OCCUPANCY * stream }
        ensures upto { OnOk result (link_in self.new
            ≡ link_with timing.now self.old.link (users_upto timing.now self.old.link (stream + 1))) }
        ensures short { OnOk result (self.new.work ≤ MAX_OCCUPANCY * (stream + 1)) }
    {
        let Some(hop) = timing.hop_on(stream, self.link) else {
            return Ok(());
        };
        self.put(timing, stream, hop)
    }

    /// Puts in a stream that uses the link at this hop.
    pub fn put(&mut self, timing: &Timing, stream: usize, hop: usize) -> Result<(), AllocError>
        requires stream { stream < stream_count timing.now }
        requires hop { hop_on timing.now stream self.old.link ≡ Some hop }
        requires some { (streams : List ℕ) × (link_in self.old ≡ link_with timing.now self.old.link streams) }
        requires short { self.old.work ≤ MAX_OCCUPANCY * 2048 }
        ensures put { OnOk result ((streams : List ℕ) → link_in self.old ≡ link_with timing.now self.old.link streams
            → link_in self.new ≡ link_with timing.now self.old.link (streams ++ stream ∷ [])) }
        ensures link { self.new.link ≡ self.old.link }
        ensures short { OnOk result (self.new.work ≤ self.old.work + MAX_OCCUPANCY) }
    {
        let start = timing.start(stream, hop);
        let work = timing.separation(stream, hop);
        let tail = timing.arrival(stream) as i64 - (start + work) as i64;
        let least = if self.users.is_empty() {
            tail
        } else {
            self.tail.min(tail)
        };
        self.users.push(User { stream, start })?;
        self.work += work;
        self.tail = least;
        Ok(())
    }
}

/// The earliest instant at which one of the users starts by the offsets, in nanoseconds.
pub fn head(users: &[User], offsets: &[u64]) -> u64
    requires some_user { 1 ≤ length users.now }
    requires users { All (IsEarly (length offsets.now)) users.now }
    requires small { All (λ offset. offset ≤ 1_000_000_000) offsets.now }
    ensures value { pos result ≡ head_in offsets.now users.now }
    ensures bound { result ≤ 1_000_000_000 + MAX_START }
{
    let first = users[0];
    let mut least = offsets[first.stream] + first.start;
    for index in 1..users.len() {
        let user = users[index];
        least = least.min(offsets[user.stream] + user.start);
    }
    least
}

// Whether one of the link's streams starts there so early that the link isn't loaded. Most links have one, so that few heads
// are worked out.
fn is_calm(table: &LinkTable, offsets: &[u64], cycle: u64, target: u64) -> bool
    requires users { All (IsEarly (length offsets.now)) table.now.users.items }
    requires small { All (λ offset. offset ≤ 1_000_000_000) offsets.now }
    requires short_work { table.now.work ≤ MAX_WORK }
    requires low_tail { pos 0 ≤ℤ (table.now.tail +ℤ pos MAX_SPAN) }
    requires high_tail { table.now.tail ≤ℤ pos MAX_SPAN }
    ensures { IsTrue result → IsCalm offsets.now cycle target (link_in table.now) }
{
    for user in &table.users {
        let busy = offsets[user.stream] + user.start + table.work;
        if cycle < busy {
            continue;
        }
        let bound = busy as i64 + table.tail;
        if bound < 0 {
            return true;
        }
        if (bound as u64) < target {
            return true;
        }
    }
    false
}

/// The first link that is loaded by the offsets: its streams are busy on it behind the cycle, or else for so long that no
/// flowspan is below the target.
pub fn first_load(loads: &Loads, timing: &Timing, offsets: &[u64], target: u64) -> Option<FirstLoad>
    requires loads { AreLoadsOf timing.now loads.now }
    requires count { length offsets.now ≡ stream_count timing.now }
    requires small { All (λ offset. offset ≤ 1_000_000_000) offsets.now }
    ensures { MatchOption result (All (IsUnloaded timing.now offsets.now target) (shared_links timing.now))
        (IsFirstLoad timing.now offsets.now target) }
{
    let cycle = timing.cycle();
    for (link_index, table) in loads.tables().iter().enumerate() {
        if is_calm(table, offsets, cycle, target) {
            continue;
        }
        let busy = head(&table.users, offsets) + table.work;
        if busy > cycle {
            return Some(FirstLoad::Overload(link_index));
        }
        let bound = busy as i64 + table.tail;
        if bound >= 0 && bound as u64 >= target {
            return Some(FirstLoad::Load(link_index, bound as u64));
        }
    }
    None
}

/// How the links are loaded by the offsets, for a target and for a limit. A link that isn't loaded for the lesser of them isn't
/// for the greater one, so that most often one pass over the links tells.
pub fn find_loads(
    loads: &Loads,
    timing: &Timing,
    offsets: &[u64],
    target: u64,
    limit: u64,
) -> Loading
    requires loads { AreLoadsOf timing.now loads.now }
    requires count { length offsets.now ≡ stream_count timing.now }
    requires small { All (λ offset. offset ≤ 1_000_000_000) offsets.now }
    ensures { IsLoading timing.now offsets.now target limit result }
{
    let Some(found) = first_load(loads, timing, offsets, target.min(limit)) else {
        return Loading::Open(None);
    };
    if reaches(found, target) {
        return Loading::Closed(found);
    }
    match first_load(loads, timing, offsets, target) {
        Some(first) => Loading::Closed(first),
        None => Loading::Open(Some(found)),
    }
}

// Whether a link that is loaded for a lesser target is so for this one.
fn reaches(found: FirstLoad, target: u64) -> bool
    ensures { IsTrue result ↔ Reaches target found }
{
    match found {
        FirstLoad::Overload(_) => true,
        FirstLoad::Load(_, bound) => bound >= target,
    }
}

//! The gates of a link, as a replay asks them.

ghost use Rattle.std.specs.Prelude.{◌≡◌, ◌≢◌, ◌+◌, ◌≤◌, ◌<◌, ◌^◌, ◌↔◌, ℕ, IsTrue, length, IfOk};
ghost use Rattle.tsn_model.specs.Gates.{IsOctetAt, cycle_of};
ghost use Rattle.tsn_model.specs.Bridge.{LinkGates};
ghost use Rattle.tsn_gate.specs.Entries.{IsGateList};
ghost use Rattle.tsn_replay.specs.Bounds.{latest_free, latest_instant};
ghost use Rattle.tsn_replay.specs.Openings.{AreEnds, IsEntryAt, OctetHas, OpensScheduled, OpensBackground, IsOpenFor, IsFirstFrom};

use std::alloc::{AllocError, Global};
use std::marker::Model;
use tsn_gate::GateList;
use tsn_model::GateEntry;

/// The gates of a link, as a list that repeats opens them, with the end of each entry, counted from the first one's start.
#[derive(Drop)]
pub struct Openings {
    link: usize,
    cycle: u64,
    entries: Vec<GateEntry>,
    ends: Vec<u64>,
}

impl Model for Openings {
    ghost Value = { LinkGates };

    ghost view = { λ g. record { link = g.link; entries = g.entries.items } };

    ghost invariant = { λ g. IsGateList g.entries.items × (g.cycle ≡ cycle_of g.entries.items) × AreEnds g.entries.items g.ends.items };
}

// The gates of a link, from an instant until they change.
#[derive(Drop)]
struct Span {
    octet: u8,
    until: u64,
}

impl Openings {
    /// The gates by a list.
    pub fn of(alloc: Global, list: &GateList) -> Result<Openings, AllocError>
        ensures { IfOk result (λ openings. openings ≡ list.now) }
    {
        let cycle = list.cycle();
        let entries = Vec::from_slice(alloc, list.entries())?;
        let ends = ends_of(alloc, &entries)?;
        Ok(Openings {
            link: list.link(),
            cycle,
            entries,
            ends,
        })
    }

    /// The link whose gates these are.
    pub fn link(&self) -> usize
        ensures { result ≡ self.now.link }
    {
        self.link
    }

    // The entry within which that instant of the cycle falls.
    fn entry_at(&self, phase: u64) -> usize
        requires { phase < cycle_of self.now.entries }
        ensures { IsEntryAt self.now.entries phase result }
    {
        let _ = &self.cycle;
        self.ends.partition_point(|end| *end <= phase)
    }

    // The gates at an instant, and until when they stay so.
    fn span_at(&self, at: u64) -> Span
        requires { at ≤ 2 ^ 60 }
        ensures forward { at < result.until }
        ensures near { result.until ≤ at + 1_000_000_000 }
        ensures octet { (u : ℕ) → at ≤ u → u < result.until → IsOctetAt self.now.entries u result.octet }
    {
        let phase = at % self.cycle;
        let index = self.entry_at(phase);
        Span {
            octet: self.entries[index].octet,
            until: at + (self.ends[index] - phase),
        }
    }

    /// The first instant from `from` on at which the scheduled class is open for `length`; at or past `end` there is none.
    pub fn first_fit(&self, from: u64, length: u64, end: u64) -> u64
        requires some { 1 ≤ length }
        requires short { length ≤ latest_free }
        requires early { from ≤ latest_instant }
        requires limit { end ≤ latest_instant }
        ensures { IsFirstFrom from end (IsOpenFor self.now.entries length) result }
    {
        let _ = &self.cycle;
        let mut start = from;
        let mut at = from;
        while start < end {
            let span = self.span_at(at);
            if !opens_scheduled(span.octet) {
                start = span.until;
            } else if start + length <= span.until {
                return start;
            }
            at = span.until;
        }
        start
    }

    /// The first instant from `from` on at which a background class is open; at or past `end` there is none.
    pub fn first_background(&self, from: u64, end: u64) -> u64
        requires early { from ≤ latest_instant }
        requires limit { end ≤ latest_instant }
        ensures { IsFirstFrom from end (λ t. OctetHas self.now.entries t OpensBackground) result }
    {
        let _ = &self.cycle;
        let mut at = from;
        while at < end {
            let span = self.span_at(at);
            if opens_background(span.octet) {
                return at;
            }
            at = span.until;
        }
        at
    }
}

// The end of each entry, counted from the first one's start.
fn ends_of(alloc: Global, entries: &[GateEntry]) -> Result<Vec<u64>, AllocError>
    requires { cycle_of entries.now ≤ 1_000_000_000 }
    ensures { IfOk result (λ ends. AreEnds entries.now ends.items) }
{
    let mut ends = Vec::new(alloc);
    let mut end = 0;
    for entry in entries {
        end += entry.interval;
        ends.push(end)?;
    }
    Ok(ends)
}

fn opens_scheduled(octet: u8) -> bool
    ensures { IsTrue result ↔ OpensScheduled octet }
{
    octet & 0x80 != 0
}

fn opens_background(octet: u8) -> bool
    ensures { IsTrue result ↔ OpensBackground octet }
{
    octet & 0x7F != 0
}

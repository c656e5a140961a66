//! The definitions that every crate of the planner speaks of (`specs/`), and the small plain types that they name. The laws of the
//! definitions stand in `tsn_laws`.
#![tactic(auto)]

pub mod bounds;
mod fault;
pub mod plain;
pub mod tolerance;

pub use fault::{Code, NetFault, Place};
use std::alloc::AllocError;
use thiserror::Error;

/// A growth was refused: there is no memory for it.
#[derive(Clone, Copy, Debug, PartialEq, Eq, Error)]
#[error("no memory")]
pub struct NoMemory;

impl From<AllocError> for NoMemory {
    fn from(_refused: AllocError) -> NoMemory {
        NoMemory
    }
}

/// One direction of a cable.
#[derive(Clone, Copy, Debug, PartialEq, Eq)]
pub struct Link {
    pub from: usize,
    pub to: usize,
    /// How long an octet takes to send, in nanoseconds.
    pub octet_time: u64,
    /// How long a signal takes to the other end, in nanoseconds.
    pub propagation: u64,
}

/// Two streams, `left` below `right`, a link that both use, and by how much some frame of `right` comes after one of `left`,
/// were all offsets 0.
#[derive(Clone, Copy, PartialEq, Eq, Hash)]
pub struct Triple {
    pub left: usize,
    pub right: usize,
    pub link: usize,
    /// In nanoseconds; below 0 where it comes before.
    pub lag: i64,
}

/// A frame that a stream sends each cycle, by how long after the stream's offset, in nanoseconds.
#[derive(Clone, Copy, PartialEq, Eq, Hash)]
pub struct Frame {
    pub stream: usize,
    pub shift: u64,
}

/// What one of those who search did.
#[derive(Clone, Copy, Debug, PartialEq, Eq)]
pub struct Tally {
    /// How many events it settled.
    pub events: u64,
    /// The least bound that it pruned by, in nanoseconds; one more than the cycle where it didn't.
    pub pruned: u64,
    /// The least flowspan that it solved, in nanoseconds; one more than the cycle where it didn't.
    pub solved: u64,
}

/// Which stream of a triple goes first on its link.
#[derive(Clone, Copy, PartialEq, Eq, Hash)]
pub enum Side {
    Left,
    Right,
}

/// A triple, and which of its streams goes first.
#[derive(Clone, Copy, PartialEq, Eq, Hash)]
pub struct Decision {
    pub triple: Triple,
    pub side: Side,
}

/// The offset of stream `to` is at least that of stream `from` plus `weight`.
#[derive(Clone, Copy, PartialEq, Eq)]
pub struct Arc {
    pub from: usize,
    pub to: usize,
    pub weight: i64,
}

/// Why a list of offsets isn't a valid schedule.
#[derive(Clone, Copy, PartialEq, Eq)]
pub enum Violation {
    WrongCount,
    PastCycle(usize),
    Overlap(Triple),
    /// This stream starts before its release.
    Early(usize),
    /// This stream arrives after its latest instant.
    TooLate(usize),
}

/// An entry of a gate control list: bit i of the octet opens (1) or closes (0) the gate of traffic class i, for so many nanoseconds.
#[derive(Clone, Copy, PartialEq, Eq)]
pub struct GateEntry {
    pub interval: u64,
    pub octet: u8,
}

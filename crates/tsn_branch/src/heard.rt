//! The best that is known of a plan.
use std::sync::atomic::{AtomicU64, Ordering};

// What stands for no number of nanoseconds.
const NONE: u64 = u64::MAX;

/// The least flowspan of a schedule that was heard of, and what no schedule's flowspan is below.
#[derive(Drop)]
pub(crate) struct Heard {
    flowspan: AtomicU64,
    bound: AtomicU64,
}

impl Heard {
    /// Nothing is known.
    pub(crate) fn new() -> Heard {
        Heard {
            flowspan: AtomicU64::new(NONE),
            bound: AtomicU64::new(NONE),
        }
    }

    /// The least flowspan known, in nanoseconds, if any.
    pub(crate) fn flowspan(&self) -> Option<u64> {
        number(self.flowspan.load(Ordering::SeqCst))
    }

    /// What no schedule's flowspan is below, in nanoseconds, if that is known.
    pub(crate) fn bound(&self) -> Option<u64> {
        number(self.bound.load(Ordering::SeqCst))
    }

    pub(crate) fn hear_flowspan(&self, flowspan: Option<u64>) {
        if let Some(flowspan) = flowspan {
            self.flowspan.fetch_min(flowspan, Ordering::SeqCst);
        }
    }

    pub(crate) fn hear_bound(&self, bound: u64) {
        let known = self.bound().unwrap_or(0);
        self.bound.store(bound.max(known), Ordering::SeqCst);
    }
}

fn number(stored: u64) -> Option<u64> {
    if stored == NONE { None } else { Some(stored) }
}

//! What workers tell one another beside the book: hints, of which nothing is claimed.
use std::sync::atomic::{AtomicUsize, Ordering};

/// How many workers are at work, how many look for a node, and how many schedules were found.
#[derive(Drop)]
pub struct Board {
    at_work: AtomicUsize,
    waiting: AtomicUsize,
    found: AtomicUsize,
}

impl Board {
    /// So many workers are at work, and nothing was found.
    pub fn new(workers: usize) -> Board {
        Board {
            at_work: AtomicUsize::new(workers),
            waiting: AtomicUsize::new(0),
            found: AtomicUsize::new(0),
        }
    }

    /// Whether a worker is at work, who may yet share what is open.
    pub fn is_at_work(&self) -> bool {
        self.at_work.load(Ordering::SeqCst) != 0
    }

    /// Whether a worker looks for a node.
    pub fn is_awaited(&self) -> bool {
        self.waiting.load(Ordering::SeqCst) != 0
    }

    /// A worker begins to look for a node.
    pub fn wait(&self) {
        self.waiting.fetch_add(1, Ordering::SeqCst);
        self.at_work.fetch_sub(1, Ordering::SeqCst);
    }

    /// A worker no longer looks for a node.
    pub fn resume(&self) {
        self.waiting.fetch_sub(1, Ordering::SeqCst);
        self.at_work.fetch_add(1, Ordering::SeqCst);
    }

    /// A worker ends.
    pub fn end(&self) {
        self.at_work.fetch_sub(1, Ordering::SeqCst);
    }

    /// How many schedules were found.
    pub fn found(&self) -> usize {
        self.found.load(Ordering::SeqCst)
    }

    /// One more was found.
    pub fn find(&self) {
        self.found.fetch_add(1, Ordering::SeqCst);
    }
}
